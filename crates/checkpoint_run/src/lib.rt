//! The run of a prover, recorded once and kept as checkpoints.
//!
//! The run of a prover is the machine's own run with what a tamper does to it (`specs/TamperedRun.antt`). `record_run` makes
//! it from a machine. There is a checkpoint at each step that is a multiple of a spacing, up to the step from which the run stands still.
//! The layers above may rely on this: `machine_at` gives the machine of a checkpoint, and `next` takes that machine itself to the next
//! step, and returns the pages that were written; `advance` takes it towards a goal, over a stretch in which nothing happens at once. So
//! each state of the run is had by replaying fewer steps than lie between two checkpoints. All keep the chain by the digester that
//! recorded the run. Laws of the run, in the words of the machine's own, are `tampered_runs` and `stops_come_first`; by
//! `tampered_runs_keep_the_input` each state has the run's version and input, and by `tampered_runs_keep_valid_states` it is valid.
//!
//! Time and memory of a run go with the steps that change something. A run that has stopped, and that a tamper changes at a later step,
//! stands still in between: one checkpoint has the state of this stretch, and it is found for each checkpoint of the stretch
//! (`found_at` in `specs/Keeping.antt`).
//!
//! The output is kept once in a run. A checkpoint takes one version of each page that was written since the checkpoint before, and of no
//! other (the clauses of `add_checkpoint` and `note_changed_page`); `specs/WrittenPages.antt` defines which pages a step writes. So, beside
//! the versions of the first checkpoint, a run keeps no more versions than pages are written, which is a part of the invariant of `Run`
//! (`few` in `specs/Keeping.antt`); the code of `record_run` shows that the first checkpoint has those of the pages in use at step 0
//! (`used_pages`, clause `only`). The page of a checkpoint is found by a search among the places of the page's versions (`last_below`). The
//! code of `checkpoint` shows how much other memory a checkpoint takes. Read `specs/TamperedRun.antt` first, then `run`, then `recording`.
//! An `Err` that no comment names is out of memory.
#![tactic(auto)]

mod checkpoint;
mod laws;
mod recording;
mod run;
mod tampering;
mod version;

pub use laws::{
    pages_of_two_places, stops_come_first, tampered_runs, tampered_runs_keep_the_input,
    tampered_runs_keep_valid_states,
};
pub use run::{Run, advance, machine_at, next, record_run};
