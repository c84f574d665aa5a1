//! Roots of a recorded run, replayed piece by piece from its checkpoints.
//!
//! The layers above may rely on this: a `KeptRun` gives the root of the run's state of each step asked, in the version of the run and in
//! the order asked (`roots`), and the machine of a step with the trees of its version (`committed`); each is that of the definition,
//! whatever the spacing of the checkpoints and the number of workers. Workers run side by side if threads can be made; the answers don't
//! depend on it. A `KeptRun` keeps its workers, each of which makes its next root from the one that it made last, and digests no part of
//! the input: it gets the input's tree, which all runs of a machine may share, from its caller. A digester by which this can be done in
//! threads is a `Replays`. A caller that asks once calls the functions `roots` and `committed_at`, which keep nothing; the root of the
//! run's input, which version 3 has, is made once a call.
//!
//! The steps are cut into at most as many pieces as there are workers, which is proved of `piece_size`. Each worker goes from step to step
//! with one tree of memory and, from version 2 on, one of registers, so that what differs alone is digested. It carries out the steps in
//! between if the next step lies ahead, and either is near, measured by the pages in use, or has no checkpoint before it; else it replays
//! from the last checkpoint up to the step, and compares all pages in use. This isn't proved: the code of `cursor` shows it, and tests in
//! `test_provers` count the digests. Read `specs/Roots.antt` first, then `kept_run`, `replaying` and `cursor`.
//! An `Err` that no comment names is out of memory.
#![tactic(auto)]

mod cursor;
mod kept_run;
mod replaying;

pub use kept_run::{KeptRun, Replays};
pub use replaying::{committed_at, roots};
