//! The proved code for callers in other languages: functions over slices of bytes and numbers, exported under C's names.
//!
//! `coshalit_check_step` is the referee of one step, on the bytes in which a proof is sent. `coshalit_audit`, `coshalit_run` and
//! `coshalit_list` are the program's commands `audit`, `run` and `list`, on bytes in memory. A match among a host's own parties is played by
//! `coshalit_match` over a log of posts, with its text and the stakes of its provers, and `coshalit_answer` is a prover of one's own: the law
//! `given_answers_are_right` joins the two. Nobody checks a caller in another language, so no export has a condition: each tests what it
//! needs. `include/coshalit.h` declares them; read `step` first, then `texts`, `matches` and `answers`.
#![tactic(auto)]

mod answers;
mod asked;
#[cfg(test)]
mod calls_test;
mod found;
mod laws;
mod match_texts;
mod matches;
#[cfg(test)]
mod matches_test;
mod numbers;
mod roots;
mod stakes;
mod step;
mod texts;
mod version;

pub use laws::given_answers_are_right;
