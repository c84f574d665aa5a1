//! Provers that answer by their run.
//!
//! The layers above may rely on this: a `RunAnswerer` gives the plain answers of its run (`plain_answers`, `specs/Plain.antt`), the
//! machine's own with what a tamper does to it, in the version of the commitment that the machine has, and no call changes
//! what it answers, not even one that runs out of memory; `CaseProvers` tells what each prover of a case says, by its
//! script (`specs/CaseScripts.antt`), and where it waits; `answerers_with_input` makes the answerers that say so. In version 3 they share
//! one tree of the input, which it gets in its `Start`. What an untouched script says in the words of the sequential run is in `laws`, and
//! that each prover stays with its answer.
//!
//! A root, a claim or a proof is made from what was made last, as the run is kept with a cursor for each worker (`KeptRun`). If several
//! roots are asked at once, as in rounds of more than two parts, the workers share them. A run is recorded once, and each root is made
//! once. This isn't proved: the code of `prover` and `answering` shows it, and tests in `test_provers` count the digests. Read that file
//! first, then `prover`, then `provers`. An `Err` that no comment names is out of memory.
#![tactic(auto)]

mod answering;
mod laws;
mod prover;
mod provers;

pub use answering::Plan;
pub use laws::{harmless_manners, outputs_grow_slowly, provers_are_steady, untouched_provers};
pub use prover::RunAnswerer;
pub use provers::{CaseNames, CaseProvers, Start, answerers_with_input};
