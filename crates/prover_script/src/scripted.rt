//! An answerer with a manner, and what is written down on a tape.
ghost use Rattle.std.specs.Prelude.{◌≡◌, ℕ, List, is_some, is_none, true, None, Some, IfOk, MatchOption};
ghost use Rattle.prover_script.specs.Manners.{Behaviour, says, passes_by, written};

use crate::altering::{noise, with_forgery, with_output, with_roots};
use bisect_game::{Answerer, Question};
use digest_core::Digester;
use rd_base::{Answer, Manner, Memory, Qid, TapeAnswer, same_qid};
use std::alloc::Global;
use std::thread::Threads;

/// The first answer that is written down for the question of this number.
fn written(entries: &[TapeAnswer], qid: Qid) -> Option<&Answer>
    ensures { MatchOption result (written entries.now qid ≡ None) (λ a. written entries.now qid ≡ Some a.now) }
{
    'entries: for entry in entries {
        if same_qid(entry.qid, qid) {
            return Some(&entry.answer);
        }
    }
    None
}

/// A copy of the first answer that is written down for the question of this number.
fn written_copy(alloc: Global, entries: &[TapeAnswer], qid: Qid) -> Result<Option<Answer>, Memory>
    ensures { IfOk result (λ o. o ≡ written entries.now qid) }
{
    match written(entries, qid) {
        Some(answer) => Ok(Some(answer.copy(alloc)?)),
        None => Ok(None),
    }
}

/// An answerer with a manner.
#[derive(Drop)]
pub struct Scripted<A: Answerer + Drop, D: Digester> {
    alloc: Global,
    d: D,
    inner: A,
    manner: Manner,
}

impl<A: Answerer + Drop, D: Digester> Scripted<A, D> {
    /// The answerer `inner` with this manner, whose noise is made by the digester `d`. It takes no memory; `alloc` is where
    /// altered answers are made.
    pub fn new(alloc: Global, d: D, inner: A, manner: Manner) -> Self
        ensures { ⟦<Scripted<A, D> as Answerer>⟧.answers result ≡ says D.digest_of manner (A.answers inner) }
    {
        Scripted {
            alloc,
            d,
            inner,
            manner,
        }
    }
}

/// Whether a prover with this manner passes on a question after this many passes on it, if one without it answers.
pub fn waits(manner: &Manner, question: &Question, passes: u32) -> bool
    ensures value { result ≡ passes_by manner.now question.now passes }
    ensures exact { (digest : List ℕ → List ℕ) (inner : Behaviour) → is_some (inner question.now passes) ≡ true → result ≡ is_none (says digest manner.now inner question.now passes) }
{
    match manner {
        Manner::Late(many) => passes < many.get(),
        Manner::Silent(from) => from.get() <= question.qid.round,
        Manner::Tape(tape) => written(tape.as_slice(), question.qid).is_none(),
        Manner::Plain | Manner::Output(_) | Manner::Forge { .. } | Manner::Noise { .. } => false,
    }
}

impl<A: Answerer + Drop, D: Digester> Answerer for Scripted<A, D> {
    ghost answers = { λ s. says D.digest_of s.manner (A.answers s.inner) };

    fn answer<R: Threads + Sync>(
        &mut self,
        rt: &R,
        question: &Question,
        passes: u32,
    ) -> Result<Option<Answer>, Memory> {
        let kind = question.kind;
        if let Manner::Tape(tape) = &self.manner {
            return written_copy(self.alloc, tape.as_slice(), question.qid);
        }
        if waits(&self.manner, question, passes) {
            return Ok(None);
        }
        let answer = self.inner.answer(rt, question, passes)?;
        match (&self.manner, answer) {
            (Manner::Output(output), Some(answer)) => {
                Ok(Some(with_output(self.alloc, output, kind, answer)?))
            }
            (Manner::Forge { step, reg, value }, Some(answer)) => Ok(Some(with_forgery(
                self.alloc, *step, *reg, *value, kind, answer,
            )?)),
            (Manner::Noise { seed }, Some(answer)) => {
                let root = noise(self.d, *seed, question.qid);
                Ok(Some(with_roots(self.alloc, root, kind, answer)?))
            }
            (_, answer) => Ok(answer),
        }
    }
}
