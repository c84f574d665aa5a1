//! The audit of a full text: whoever holds a text can check its verdict, with at most one machine step for each proof, as the code
//! shows, and without the image, the input or a prover.
//!
//! The layers above may rely on this: `audit` answers what `specs/LineByLine.antt` defines for a text. It plays one match before a judge in
//! the order of the text, and refuses at the first line that isn't the next legal entry. The laws say that a text is confirmed if and
//! only if it is the full text of the match whose provers say what the text says, so that the full text of each case is confirmed
//! (`specs/OwnMatch.antt`), and that a confirmed verdict is right if one prover's lines are all given and true
//! (`specs/TrueLines.antt`). No text can show that a prover's `spent` was deserved. Read `finding` first, then `next_entry`, `playing`
//! and `auditing`. An `Err` that no comment names is out of memory.
#![tactic(auto)]

mod auditing;
mod finding;
mod laws;
mod next_entry;
mod playing;

pub use auditing::audit;
pub use finding::{Audit, Cause};
pub use laws::{
    a_confirmed_text_is_right, a_read_text_may_be_audited, case_texts_are_confirmed,
    confirmed_exactly, read_texts_may_be_audited, written_cases_are_confirmed,
};
