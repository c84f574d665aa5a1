//! The plain answers of a machine's own run, without a runtime.
//!
//! The layers above may rely on this: `plain_answer` gives the plain answer of a run to one question (`specs/Plain.antt`), `plain_roots` the
//! roots of the states of steps, and `reach` the machine of a step with the trees of its commitment. Each also gives back the machine that
//! it reached, and a later call that is given it (`before`) goes on from there. As the code shows nothing is recorded: the memory is that of
//! one machine and its trees, a call costs the steps up to the one asked, and a step that lies behind the machine that was reached is run to
//! anew from the start. Read `specs/Plain.antt`, then `reaching`, then `answering`. An `Err` is out of memory, and drops what was reached.
#![tactic(auto)]

mod answering;
mod reaching;

pub use answering::{Given, Rooted, plain_answer, plain_roots};
pub use reaching::{Reached, Run, reach};
