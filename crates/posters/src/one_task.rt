//! A match played by posters, for callers of the library that have one match and its answerers. The program plays one task as it plays
//! many.
ghost use Rattle.std.specs.Prelude.{◌≡◌, ◌<◌, ◌++◌, List, true, length, IfOk};
ghost use Rattle.bisect_game.specs.Says.{AnswerAs};
ghost use Rattle.tournament.specs.Bracket.{is_complete};
ghost use Rattle.board_book.specs.declared.entry.Entry.{Entry};

use crate::playing::{OpenGate, TaskGate, play_tasks};
use bisect_game::{Answerer, Judge, Provers};
use board_book::{Book, Books, answerers_say_in_order, entries_are_told_apart};
use rd_base::{Memory, Qid};
use std::alloc::Global;
use std::sync::Wait;
use std::thread::Threads;

/// What comes before each post of one task. A test can wait here for another poster; a program takes `OpenGate`.
pub trait Gate {
    /// Comes before a post of prover `p` on the question of this number, outside the board's turns.
    fn before_post(&self, p: u32, qid: Qid);
}

impl Gate for OpenGate {
    fn before_post(&self, _p: u32, _qid: Qid) {}
}

/// A gate of one task, as a gate of many.
#[derive(Drop)]
struct OneGate<'g, G: Gate> {
    gate: &'g G,
}

impl<'g, G: Gate> TaskGate for OneGate<'g, G> {
    fn before_post(&self, _t: u32, p: u32, qid: Qid) {
        self.gate.before_post(p, qid);
    }
}

/// Plays the match out with this many posters: poster t of them, from 0, serves the provers p with `(p - 1) mod posters = t`. There is one
/// answerer for each prover, which answers as that prover, and keeps its meaning, also if memory runs out; the book is dropped then. In the
/// book that is returned the match is over, whatever the threads did. Its opening is that of the book, and its journal begins with the
/// book's.
///
/// As the code shows, each poster has a thread of its own if one can be made, no thread is started with one poster, and answers are made
/// while other posters post. A poster ends when the match is over. It ends early when its answerer finds no memory, after 10,000,000 turns
/// in a row in which none of its provers had anything to do, after 15 of them without news if some poster hasn't begun (they take 0.927
/// seconds), and when another ended early; what is left undone is played by the calling thread alone. News is each post but a pass that is
/// taken. One with nothing to do sleeps until there is news, for a tenth of a second at most.
pub fn play<
    J: Judge + Drop + Send,
    P: Provers + Drop + Send,
    A: Answerer + Send,
    G: Gate + Sync,
    R: Threads + Wait + Sync,
>(
    rt: &R,
    alloc: Global,
    book: Book<J, P>,
    answerers: &mut [A],
    posters: u32,
    gate: &G,
) -> Result<Book<J, P>, Memory>
where
    J::Names: Send,
    P::Names: Send,
    requires some { 0 < posters }
    requires count { length answerers.old ≡ book.opening.setup.provers }
    requires says { AnswerAs A.answers (P.says book.opening.provers) 1 answerers.old }
    ensures complete { IfOk result (λ played. is_complete played.game.record_ ≡ true) }
    ensures opening { IfOk result (λ played. played.opening ≡ book.opening) }
    ensures prefix { IfOk result (λ played. (es : List Entry) × (played.journal ≡ book.journal ++ es)) }
    ensures keeps { AnswerAs A.answers (P.says book.opening.provers) 1 answerers.new }
{
    answerers_say_in_order::<A>();
    entries_are_told_apart();
    let books = Books::one(alloc, book)?;
    let played = play_tasks(rt, alloc, books, answerers, posters, &OneGate { gate })?;
    Ok(played.into_one())
}
