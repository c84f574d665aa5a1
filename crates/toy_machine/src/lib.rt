//! Small machines, and digest functions that count or collide, for tests of several crates.
//!
//! No layer of the product depends on this crate.
#![tactic(auto)]

mod digests;
mod machine;

pub use digests::{OneValue, Tally, first_eight};
pub use machine::machine_of;
