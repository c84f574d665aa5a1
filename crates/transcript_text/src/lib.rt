//! The texts that a match leaves: how they are written, and how a full text is read.
//!
//! The layers above may rely on this: the report is the text `report_text` of the match's head, record and verdict, and of its
//! balances in a match with deposits. Its lines are listed by `lines_of_record`, `lines_of_balances` and `line_of_verdict`, so
//! that what a report says of a prover can be read off them.
//! The full text is `full_text`, with one line for each of `moves_of` the record, and the same line of the verdict. `read_full` gives
//! what `read_text` gives of the bytes, the first fault of its lines included: bytes are read as a text if and only if it is within the
//! limits and they are its bytes, and the full text of a match is read back, if its head's numbers are within the limits and the strings
//! of a collision have 1 to 129 bytes (`reader`). The line of a run is `answer_line_text`, that of a large workload `summary_text`, that
//! of a root `root_line`. The limits of a head's numbers are data (`limits`). Read
//! `text`, `specs/Lines.antt`, `specs/Report.antt` and `specs/FullLines.antt` first, then `reporting` and `refereed`; for the reader
//! `specs/reader/ReadText.antt`, then `reader`. An `Err` of `Memory` or `AllocError` is out of memory.
#![tactic(auto)]

mod disputes;
mod laws;
mod limits;
mod lines;
mod reader;
mod refereed;
mod reporting;
mod text;

pub use digest_core::DigestName;
pub use disputes::Word;
pub use laws::{
    a_full_text_is_read_back, a_full_text_is_that_of_its_parts, a_verdict_is_stated,
    no_fault_of_a_text_is_out_of_memory, nothing_is_said_against_the_truthful,
    reading_is_the_inverse_of_writing, stated_verdicts_are_one_line, texts_are_task_parts,
};
pub use lines::{add_root_line, answer_line, summary};
pub use reader::{TextFault, read_full};
pub use refereed::full;
pub use reporting::{claim_lines, head_line, report, stated_line, verdict_line};
pub use text::{FullText, Head, Stated, TextMove, settled_at};
