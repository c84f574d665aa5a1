//! The match of a case: its provers' runs, the judge of the machine, and the bracket that they are played in; and those of many tasks.
//!
//! The layers above may rely on this: `ended_tasks` gives loaded cases with the results of their matches: the root at step 0, the record
//! and the verdict of each. These are functions of the case, the state that its run starts in and the digester's function
//! (`specs/Match.antt`), however many threads play them and whatever the others do. `verdict_of_case` is the same of one case, and
//! `verdict_of_tasks` of cases and machines. A prover that claims and answers as the machine's definition says is safe in that record,
//! which a law states for any digester (`specs/TruthfulInCase.antt`). `specs/HonestScripts.antt` defines which scripts make a prover one of
//! these; `specs/RefutedTampers.antt`, in the proof of which step a prover with a tamper is refuted; `specs/PartingRuns.antt`, where a
//! dispute of two tampered runs ends; `specs/Ended.antt`, that the record of a case is that of a match that is over; and
//! `specs/Earnings.antt`, what a prover has at the end.
//!
//! What decides a match is `referee`, which gets no case, no image and no machine. The crate reads no device and writes no text. Read
//! `specs/Match.antt` first, then `opening`. An `Err` that no comment names is out of memory.
#![tactic(auto)]

mod laws;
mod opening;
mod options;
mod referee;
mod verdict;

pub use laws::{
    plain_answers_within_the_bound_are_true, records_of_cases_are_settled_up,
    records_of_cases_have_ended, tampers_are_refuted, tampers_of_cases_are_in_range,
    tampers_of_cases_are_refuted, truthful_provers_of_cases_are_safe,
    untouched_provers_are_truthful, who_lives_in_a_case_wins_all,
};
pub use opening::{EndedCase, LoadedCase, ended_tasks, loaded_cases};
pub use options::Options;
pub use posters::{OpenGate, TaskGate};
pub use referee::Ended;
pub use verdict::{verdict_of_case, verdict_of_tasks};
