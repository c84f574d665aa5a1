//! Answers, and the numbers of questions.
ghost use Rattle.std.specs.Prelude.{◌≡◌, IfOk};
ghost use Rattle.rd_base.specs.Questions.{same_qid};

use crate::claim::Claim;
use crate::digest::Digest32;
use crate::listed::Boxed;
use crate::memory::Memory;
use crate::proof::Proof;
use crate::root_list::RootList;
use std::alloc::Global;

/// Which question of a match is meant: the claim is dispute 0, round 0; in a dispute rounds count from 1.
#[derive(Clone, Copy, Debug, PartialEq, Eq)]
pub struct Qid {
    /// The dispute's number, from 1; 0 is the claim.
    pub dispute: u32,
    /// The round of the dispute, from 1; 0 is the claim.
    pub round: u32,
}

/// Whether two numbers name the same question.
pub fn same_qid(first: Qid, second: Qid) -> bool
    ensures { result ≡ same_qid first second }
{
    first.dispute == second.dispute && first.round == second.round
}

/// What a prover answers.
#[derive(Debug, Drop)]
pub enum Answer {
    /// Its claim of the last state.
    Claim(Claim),
    /// The root of one state.
    Root(Digest32),
    /// The roots of several states, in the order asked.
    Roots(RootList),
    /// The proof of one step.
    Step(Boxed<Proof>),
}

impl Answer {
    /// A copy of the answer.
    pub fn copy(&self, alloc: Global) -> Result<Answer, Memory>
        ensures { IfOk result (λ a. a ≡ self.now) }
    {
        match self {
            Answer::Claim(claim) => Ok(Answer::Claim(claim.copy(alloc)?)),
            Answer::Root(root) => Ok(Answer::Root(*root)),
            Answer::Roots(roots) => Ok(Answer::Roots(roots.copy(alloc)?)),
            Answer::Step(proof) => Ok(Answer::Step(Boxed::new(Box::new(
                alloc,
                proof.get().copy(),
            )?))),
        }
    }
}
