//! Tapes of answers.
ghost use Rattle.std.specs.Prelude.{◌≡◌, ◌≤◌, ◌↔◌, length, IfOk, IfSome, IsSome};

use crate::answer::{Answer, Qid};
use crate::listed::Listed;
use crate::memory::Memory;
use std::alloc::Global;
use std::marker::Model;

/// The most answers that a tape holds.
pub const MAX_TAPE_ANSWERS: usize = 4096;

/// One answer of a tape, and the question that it is for.
#[derive(Debug, Drop)]
pub struct TapeAnswer {
    /// The question's number.
    pub qid: Qid,
    /// What is answered to it.
    pub answer: Answer,
}

impl TapeAnswer {
    /// A copy of the answer and of its question's number.
    pub fn copy(&self, alloc: Global) -> Result<TapeAnswer, Memory>
        ensures { IfOk result (λ t. t ≡ self.now) }
    {
        Ok(TapeAnswer {
            qid: self.qid,
            answer: self.answer.copy(alloc)?,
        })
    }
}

/// Answers that were written down before the match: at most 4,096.
///
/// Contracts see it as their list, in their order.
#[derive(Debug, Drop)]
pub struct Tape {
    answers: Listed<TapeAnswer>,
}

impl Model for Tape {
    ghost use Rattle.std.specs.Prelude.{List, ◌≤◌, length};
    ghost use Rattle.rd_base.specs.declared.tape.TapeAnswer.{TapeAnswer};

    ghost Value = { List TapeAnswer };

    ghost view = { λ t. t.answers };

    ghost invariant = { λ t. length t.answers ≤ 4096 };
}

impl Tape {
    /// A tape of these answers. `None` comes if and only if there are more than 4,096. It takes no memory.
    pub fn new(answers: Vec<TapeAnswer>) -> Option<Tape>
        ensures there { IsSome result ↔ (length answers.items ≤ 4096) }
        ensures value { IfSome result (λ t. t ≡ answers.items) }
    {
        if answers.len() <= MAX_TAPE_ANSWERS {
            Some(Tape {
                answers: Listed::new(answers),
            })
        } else {
            None
        }
    }

    /// The answers, in their order: at most 4,096.
    pub fn as_slice(&self) -> &[TapeAnswer]
        ensures value { result.now ≡ self.now }
        ensures few { length self.now ≤ 4096 }
    {
        self.answers.as_slice()
    }

    /// A copy of the tape.
    pub fn copy(&self, alloc: Global) -> Result<Tape, Memory>
        ensures { IfOk result (λ t. t ≡ self.now) }
    {
        let mut copies = Vec::new(alloc);
        'answers: for answer in self.answers.as_slice().iter() {
            copies.push(answer.copy(alloc)?)?;
        }
        Ok(Tape {
            answers: Listed::new(copies),
        })
    }
}
