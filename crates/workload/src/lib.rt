//! The large workload: a case that is made of a seed, with eight provers of whom seven lie.
//!
//! The layers above may rely on this: what `big_case` gives is the compact JSON text of one tree, a definition, and `case_reader`'s
//! definition of reading takes it to one case, for every seed. Its run has exited after 32,781 steps, and its output is the sum of its
//! input's bytes: `guests` proves that. Each of its disputes has 16 rounds and eliminates one prover. This isn't proved; it is tested for
//! the seeds 0 and 1, and shown by the examples for a few more. Read `big` first, then `draws`. An `Err` that no comment names is out of memory.
#![tactic(auto)]

mod big;
mod draws;
mod laws;
mod program;
mod provers;

pub use big::big_case;
pub use laws::workload_is_a_case;
