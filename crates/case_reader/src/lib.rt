//! A case: what the match is about and who plays it, read from a JSON text.
//!
//! The layers above may rely on this: what `read_case` reads is the case of the bytes, by the definition `case_at`, which
//! tests keys in one order, and a refusal other than out of memory is that definition's, whose own faults are never out of
//! memory. What `read_tasks` reads is, by the definition `tasks_at`, one such case or those of 1 to 8 tasks, of which the first
//! that is refused is named. Read `case` first, then `parsing` and `tasks`; `prover` reads a prover's script, by `manner`
//! and `tape`.
#![tactic(auto)]

mod case;
mod fault;
mod field;
mod laws;
mod manner;
mod parsing;
mod prover;
mod tape;
mod tasks;

pub use case::{Case, Format, Tasks};
pub use fault::{CaseFault, Key, TaskFault};
pub use laws::{
    cases_are_read_as_one_task, inputs_are_read_in_range, no_fault_of_a_case_is_out_of_memory,
    no_fault_of_tasks_is_out_of_memory, tampers_are_read_in_range,
};
pub use parsing::read_case;
pub use tasks::read_tasks;
