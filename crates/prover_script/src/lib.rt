//! Manners: how a prover answers, over any answerer that gives what its run gives.
//!
//! The layers above may rely on this: a `Scripted` answers what `says` of `specs/Manners.antt` makes of its inner answerer, a function of
//! the question and of the passes so far, which no call changes, not even one that runs out of memory; `waits` decides whether that is a
//! pass, for an answerer that always answers; and an answerer that stays with an answer once it gave it does so with any manner (`laws`).
//! Read `specs/Manners.antt` first, then `altering`, then `scripted`. An `Err` that no comment names is out of memory.
#![tactic(auto)]

mod altering;
mod laws;
mod scripted;

pub use laws::manners_are_steady;
pub use scripted::{Scripted, waits};
