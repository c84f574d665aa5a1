//! An answerer that counts, and a match that is played out.
ghost use Rattle.std.specs.Prelude.{◌≡◌, ◌<◌, length, IfOk};
ghost use Rattle.bisect_game.specs.Says.{AnswerAs};
ghost use Rattle.tournament.specs.Bracket.{bracket, verdict_of};
ghost use Rattle.tournament.specs.Journals.{answers_of};
ghost use Rattle.bisect_game.specs.Rules.{rules_of};

use bisect_game::{Answerer, Judge, Provers, Question};
use board_book::Book;
use posters::{OpenGate, play};
use rd_base::{Answer, Memory};
use std::alloc::Global;
use std::sync::Wait;
use std::thread::Threads;
use tournament::Verdict;

/// An answerer that counts how often it is asked, over any other: what it answers is what that one answers.
#[derive(Drop)]
pub struct Counting<A: Answerer + Drop> {
    /// The answerer that makes the answers.
    pub inner: A,
    /// How often it was asked, modulo 2^64.
    pub asked: u64,
}

impl<A: Answerer + Drop> Answerer for Counting<A> {
    ghost answers = { λ s. A.answers s.inner };

    fn answer<R: Threads + Sync>(
        &mut self,
        rt: &R,
        question: &Question,
        passes: u32,
    ) -> Result<Option<Answer>, Memory> {
        self.asked = self.asked.wrapping_add(1);
        self.inner.answer(rt, question, passes)
    }
}

/// The verdict of a match that is played out by this many posters. It is a function of the rules and of what the provers say. An `Err` is
/// out of memory.
pub fn decide<
    R: Threads + Wait + Sync,
    J: Judge + Drop + Send,
    P: Provers + Drop + Send,
    A: Answerer + Send,
>(
    rt: &R,
    alloc: Global,
    book: Book<J, P>,
    answerers: &mut [A],
    posters: u32,
) -> Result<Verdict, Memory>
where
    J::Names: Send,
    P::Names: Send,
    requires posters { 0 < posters }
    requires count { length answerers.old ≡ book.opening.setup.provers }
    requires says { AnswerAs A.answers (P.says book.opening.provers) 1 answerers.old }
    ensures { let rules = rules_of (J.ruling book.opening.judge) book.opening.setup in IfOk result (λ v. v ≡ verdict_of rules (bracket rules (answers_of rules (P.says book.opening.provers)))) }
{
    let book = play(rt, alloc, book, answerers, posters, &OpenGate)?;
    book.has_the_record_of_the_case();
    Ok(book.game().verdict().unwrap())
}
