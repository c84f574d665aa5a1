//! One dispute by bisection: two provers claim different roots of the same run, and rounds narrow the interval from a
//! step on which they agree to a step on which they differ, until one step is left, of which both are asked for a proof. A round
//! cuts the interval in as many parts as the dispute's fan, from `MIN_FAN` to `MAX_FAN` of `rd_base`, and keeps one
//! of them.
//!
//! It knows no machine and no hash: a `Judge` decides what is sound, which root a claim has, where a proof leads and what a collision is,
//! by laws that every judge proves. The layers above may rely on this: each call of a `Dispute` is the definition of a dispute
//! (`specs/Bisection.antt`, `specs/Closing.antt`) moved one answer at a time, and takes no memory once its `Room` was made; the laws in
//! `laws` hold of that definition. Read `setup`, `settled` and `judge` first, then `dispute`; `rounds` decides a round.
//! An `Err` that no comment names is out of memory.
#![tactic(auto)]

mod answerer;
mod dispute;
mod judge;
mod laws;
mod rounds;
mod settled;
mod setup;

pub use answerer::{Answerer, Provers};
pub use dispute::{Dispute, Room};
pub use judge::Judge;
pub use laws::{
    bisection_laws, cuts_divide, disputes_are_played_over_their_answers,
    disputes_end_where_runs_part, halves_are_bisection, one_cut_fewer_than_parts,
    sides_settle_in_any_order, the_fan_stays, the_kept_part_is_the_first_that_differs,
};
pub use rounds::{cut, kept_part, parts_of, roots_in, steps_asked};
pub use settled::{Claimed, Close, Interval, Kind, Question, Round, Settled, Side};
pub use setup::Setup;
