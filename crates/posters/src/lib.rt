//! Posters: threads that ask, answer and post for the provers of all tasks, until their matches are over.
//!
//! The layers above may rely on this: `play_tasks` returns the books with each match over, of the same openings, however many posters there
//! were and whatever their threads did, or out of memory. So the record of each task is that of its case alone
//! (`Book::has_the_record_of_the_case`), and doesn't depend on the schedule. `play` does the same for one task. Each poster serves the
//! provers of its class alone, in turns of its own seat at the board; answers are made between two turns, while others post. No clause
//! states that two posters ran at once, or how long a poster takes. Read `playing`, then `serving`, which is what one poster does;
//! `round_robin` shares the provers among the posters and starts the threads, and knows nothing of boards. The tests are in `test_boards`.
//! An `Err` that no comment names is out of memory.
#![tactic(auto)]

mod one_task;
mod playing;
mod round_robin;
mod serving;

pub use one_task::{Gate, play};
pub use playing::{OpenGate, TaskGate, play_tasks};
pub use round_robin::{ClassServer, serve_all};
