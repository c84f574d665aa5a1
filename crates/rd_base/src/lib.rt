//! Plain data that every layer speaks of: register files, statuses, digests, answers, scripts and byte strings.
//!
//! The layers above may rely on what the types keep by themselves: a register file never holds anything in `x0`, a claimed output
//! has at most 4,294,967,295 bytes, a tampered register is one of `x1` to `x31`, a late prover passes at most 1,000 times, a tape
//! has at most 4,096 answers, an answer of several roots has 1 to 15, a proof opens at most three registers, and a byte string is
//! seen in contracts as the list of its bytes. What more than one layer states of plain data is here too: `same_digest`, `same_qid`
//! and the laws. Read `regs` first, then `answer`. An `Err` that no comment names is out of memory.
#![tactic(auto)]

mod answer;
mod claim;
mod digest;
mod laws;
mod limits;
mod listed;
mod memory;
mod open_text;
mod opened;
mod proof;
mod regs;
mod root_list;
mod scheme;
mod script;
mod status;
mod steps;
mod tamper;
mod tape;

pub use answer::{Answer, Qid, same_qid};
pub use claim::{Claim, ClaimOutput, MAX_OUTPUT_BYTES};
pub use digest::{Digest32, same_digest};
pub use laws::{paths_have_5_levels, paths_have_15_levels, paths_have_27_levels, registers_are_32};
pub use limits::{
    MAX_BOUND, MAX_FAN, MAX_INPUT_BYTES, MAX_PATIENCE, MAX_PROVERS, MAX_STAKE, MAX_TASKS,
    MAX_VERSION, MIN_FAN, MIN_VERSION,
};
pub use listed::{Boxed, Bytes, Listed};
pub use memory::Memory;
pub use open_text::{MAX_TEXT_BYTES, OpenText};
pub use opened::{InOpening, InPath, Opening, Path, RegOpening, RegOpenings, RegPath};
pub use proof::{Proof, StepProof, StepProof2, StepProof3};
pub use regs::Regs;
pub use root_list::{MAX_ROOTS, RootList};
pub use scheme::{InputScheme, RegisterScheme, Scheme};
pub use script::{FirstSilentRound, MAX_FIRST_SILENT_ROUND, MAX_PASSES, Manner, PassCount, Script};
pub use status::{Ctl, Status};
pub use steps::Steps;
pub use tamper::{RegisterNumber, Tamper};
pub use tape::{MAX_TAPE_ANSWERS, Tape, TapeAnswer};
