//! What programs share that test: each reads rows of text, one a line, and writes each row with its answer below it.
//!
//! No layer of the product depends on this crate. An answer follows two spaces. Lines that begin with `#`, and empty ones, are written as
//! they are. A program says by its `Table` what its rows call, and `words` has what they write. It fails if a line is no row.
#![tactic(auto)]

mod table;
mod words;

pub use table::{Answers, Table, answered};
pub use words::{
    Unanswered, add_part, byte_of, bytes, bytes_of, four_of, long, long_of, number, number_of,
    parts_of, word,
};
