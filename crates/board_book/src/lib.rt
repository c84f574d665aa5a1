//! The book of a match: the match, its journal and its provers under one invariant; and the books of many matches, called tasks, with
//! one journal of all of them.
//!
//! The layers above may rely on this: the journal of a book is legal, the match is the state of that journal, and nothing
//! that comes needs memory (`Book::is_legal`, `Book::spare`); a complete book has the record of its case, in whatever order
//! the posts came (`Book::has_the_record_of_the_case`), and a truthful prover is safe (`Book::keeps_truthful_provers`). The laws of
//! `Match` hold of the book's match (`Book::game`), so rounds are few (`Match::has_few_disputes_and_rounds`).
//!
//! For many books, the joint journal is legal: each entry is legal in the state of its own task. The entries of a task are the journal of
//! that task's own book (`Books::is_legal`). Each task is alone: its entries are a legal journal of it, and fix what it asks, what a post
//! is answered and its record (`tasks_are_alone`). Every legal journal after which a match is over ends in the record and the verdict of
//! its case (`journals_have_the_record_of_the_case`). The memory of all tasks is taken at the opening.
//!
//! Read `entry` first, then `book`, `specs/Tasks.antt`, `specs/Alone.antt` and `books`.
#![tactic(auto)]

mod book;
mod books;
mod entry;
mod laws;

pub use book::{Book, Opening};
pub use books::Books;
pub use entry::{Ask, Entry};
pub use laws::{
    answerers_say_in_order, entries_are_told_apart, journals_have_the_record_of_the_case,
    tasks_are_alone, tasks_are_numbered,
};
