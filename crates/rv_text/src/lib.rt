//! Assembly text of RV32IM (RISC-V Unprivileged ISA 20191213, chapters 2, 7 and 24): `assemble` gives the words of a text, and `list`
//! the text of words.
//!
//! The layers above may rely on this: `assemble` gives the words that the definition `assembled` gives, or its fault with its kind and its
//! line, and but for running out of memory the answer is determined by the text alone; `list` gives the text `listing`. The laws tie both
//! to the words of the instructions: a statement has a word if and only if it is how an instruction with that word, or the word as such,
//! is written (`each_word_is_said`), and the listing of any words is assembled to them (`listing_is_read_back`). A label's place is four
//! bytes for each word of the lines before its own (`labels_stand_for_places`). Of the faults that a statement has, the one with the least
//! number counts (`least_fault_counts`); a text has the first fault of its lines, or the words of its statements in their order
//! (`texts_have_words_or_a_fault`).
//!
//! Read `specs/Lines.antt` first, from there `Rows`, `Operands`, `Fields`, `Numbers`, `Characters` and `Faults`, then
//! `specs/Assembly.antt`; `specs/Spelling.antt` and `specs/Meaning.antt` say how an instruction is written, `specs/Listing.antt` how
//! words are listed, and `specs/Labels.antt`, `Unknown`, `Later`, `Causes` and `LineFaults` belong to the laws. Of the code read
//! `assembling` first. An `Err` of `Memory` or `AllocError` is out of memory.
#![tactic(auto)]

mod assembling;
mod class;
mod fault;
mod field;
mod form;
mod instruction;
mod laws;
mod line;
mod listing;
mod names;
mod numbers;
mod operands;
mod row;

pub use assembling::{MAX_ASSEMBLY_BYTES, assemble};
pub use fault::{AsmError, AsmFault, FaultKind};
pub use laws::{
    each_word_is_said, labels_stand_for_places, least_fault_counts, listing_is_read_back,
    only_names_fail_later, texts_have_words_or_a_fault, unknown_mnemonics_have_no_row,
};
pub use listing::list;
