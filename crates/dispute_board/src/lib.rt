//! The board: the books of all tasks under one lock, to which many threads post.
//!
//! The layers above may rely on this: each `TaskBoard::ask` and `TaskBoard::post` is one turn of the lock, and all turns of all seats are
//! in one history. A turn is at a point of one legal journal of all tasks, which begins with all that its seat had seen; what it answers is
//! what the task's book of one thread answers there, and the task's own entries alone decide that. A post whose move isn't what the prover
//! says after the passes at that point, since somebody posted for the prover meanwhile, is stale and leaves no entry. A post that isn't
//! stale has its place in the journal of all tasks as its receipt. `TaskBoard::into_books` gives books whose journal begins with all that
//! was seen. `Board` is the board of one task. No clause states how long a turn is waited for, or whose turn comes first. Read
//! `specs/OneHistory.antt` first, then `task_board`; `board` is its case of one task, for callers with one.
#![tactic(auto)]

mod board;
mod laws;
mod task_board;
mod turns;

pub use board::{Board, Seat};
pub use laws::{logs_tell_journals, what_is_said_may_be_posted};
pub use task_board::{TaskBoard, TaskSeat};
pub use turns::Posted;
