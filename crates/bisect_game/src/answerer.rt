//! The traits of provers and of answerers.
ghost use denote.Param.Send.{IsSync};
ghost use Rattle.std.specs.Prelude.{◌≡◌, ◌≤◌, ◌<◌, is_none, IfOk, ℕ, Option};
ghost use Rattle.rd_base.specs.declared.answer.Answer.{Answer};
ghost use Rattle.bisect_game.specs.Says.{Says, GiveOneAnswer};
ghost use Rattle.bisect_game.specs.declared.settled.Question.{Question};

use crate::settled::Question;
use rd_base::{Answer, Memory};
use std::thread::Threads;

/// What the provers of a match say: to each question, after this many passes on it, an answer or a pass.
pub trait Provers {
    /// Plain data that identifies the provers. Names and type fix what they say.
    type Names: Copy;

    ghost names: { Self → Self.Names };

    /// How many there are.
    ghost many: { Self.Names → ℕ };

    /// What prover p answers to a question after this many passes; `None` is a pass.
    ghost says: { Self.Names → Says };

    /// How many provers there are.
    fn count(&self) -> u32
        ensures { result ≡ many (names self.now) };

    /// Whether prover `p`, from 1 to their count, passes on the question after this many passes.
    fn waits(&self, p: u32, question: &Question, passes: u32) -> bool
        requires some { 0 < p }
        requires few { p ≤ many (names self.now) }
        ensures { result ≡ is_none (says (names self.now) p question.now passes) };

    /// To one question a prover gives one answer, after however many passes.
    ghost give_one_answer: { (n : Self.Names) → GiveOneAnswer (says n) };
}

/// What one prover answers. It keeps an allocator of its own, and each call keeps its meaning.
pub trait Answerer {
    /// The answer to a question after this many passes; `None` is a pass.
    ghost answers: { Self → Question → ℕ → Option Answer };

    /// The answer to the question after this many passes; `None` is a pass. Out of memory it answers `Memory`, and its
    /// meaning stays.
    fn answer<R: Threads + Sync>(
        &mut self,
        rt: &R,
        question: &Question,
        passes: u32,
    ) -> Result<Option<Answer>, Memory>
        requires { IsSync R.row }
        ensures keeps { answers self.new ≡ answers self.old }
        ensures says { IfOk result (λ a. a ≡ answers self.old question.now passes) };
}
