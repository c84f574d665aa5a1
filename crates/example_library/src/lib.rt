//! An example: the typed layers, called as a library. `examples/library` explains it.
//!
//! No layer of the product depends on this crate. Read `starting` first: an image becomes a machine, which becomes a machine that is kept
//! with its trees. `checking` has a referee that knows a root and a proof and nothing else, `playing` has an answerer and a match, and
//! `posting` takes answers that came as bytes.
#![tactic(auto)]

mod checking;
mod playing;
mod posting;
mod starting;

pub use checking::check;
pub use playing::{Counting, decide};
pub use posting::post_bytes;
pub use starting::{commit_after, start};
