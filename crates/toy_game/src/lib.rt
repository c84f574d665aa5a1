//! A judge, provers and answerers over numbers.
//!
//! No layer of the product depends on this crate. It shows the traits of the game in their smallest form: read `toy_judge`, then
//! `cast`; `in_short` has what tests compare. The crates `test_boards` and `test_texts` play with it.
#![tactic(auto)]

mod cast;
pub mod in_short;
mod player;
mod toy_judge;

pub use cast::{Cast, Seated, given, number_at, passes_now};
pub use player::{HONEST, LIAR, Player, SILENT};
pub use toy_judge::{ToyJudge, root};
