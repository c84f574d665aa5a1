//! The open questions of a match, as a caller in another language reads them.
ghost use Rattle.std.specs.Prelude.{◌≡◌, ◌≤◌, ◌++◌, take, drop, length, IfOk};
ghost use Rattle.tournament.specs.Match.{rules_in};
ghost use Rattle.coshalit_c.specs.Asked.{question_to, asked_of};

use bisect_game::{Judge, Kind, Question};
use rd_base::Memory;
use std::alloc::Global;
use tournament::Match;

/// What a prover is asked, and how often it has passed on that question.
#[repr(C)]
#[derive(Clone, Copy, Drop)]
pub struct CoshalitQuestion {
    /// The number of the prover, from 1.
    pub prover: u32,
    /// The dispute of the question, from 1; 0 for the claim.
    pub dispute: u32,
    /// The round of the question in its dispute, from 1; 0 for the claim.
    pub round: u32,
    /// What is asked for, by the tag of its answer: 1 the claim, 2 a root, 3 a proof, 5 several roots.
    pub kind: u32,
    /// In how many parts the interval is cut; 0 unless several roots are asked for.
    pub parts: u32,
    /// How often the prover has passed on the question.
    pub passes: u32,
    /// The step after which the root is asked for, the step whose proof is, or the low end of the interval; 0 for the claim.
    pub low: u64,
    /// The high end of the interval; 0 unless several roots are asked for.
    pub high: u64,
}

/// A question as it is written.
fn question_to(prover: u32, question: Question, passes: u32) -> CoshalitQuestion
    ensures { result ≡ question_to prover question passes }
{
    let claim = CoshalitQuestion {
        prover,
        dispute: question.qid.dispute,
        round: question.qid.round,
        kind: 1,
        parts: 0,
        passes,
        low: 0,
        high: 0,
    };
    match question.kind {
        Kind::Claim => claim,
        Kind::Root(step) => CoshalitQuestion {
            kind: 2,
            low: step,
            ..claim
        },
        Kind::Proof(step) => CoshalitQuestion {
            kind: 3,
            low: step,
            ..claim
        },
        Kind::Roots { lo, hi, parts } => CoshalitQuestion {
            kind: 5,
            parts,
            low: lo,
            high: hi,
            ..claim
        },
    }
}

/// The open questions, in the order of their provers. An `Err` is out of memory.
#[tactic(auto, using(crate::proofs::AskedLemmas::few_asked))]
pub(crate) fn questions<J: Judge + Drop>(
    alloc: Global,
    game: &Match<J>,
) -> Result<Vec<CoshalitQuestion>, Memory>
    ensures few { IfOk result (λ v. length v.items ≤ game.now.setup.provers) }
    ensures items { IfOk result (λ v. v.items ≡ asked_of (rules_in J.ruling game.now) game.now.game game.now.setup.provers) }
{
    let mut found = Vec::new(alloc);
    let provers = game.setup().provers();
    'provers: for i in 0..provers {
        if let Some(question) = game.question(i + 1) {
            found.push(question_to(i + 1, question, game.passes(i + 1)))?;
        }
    }
    Ok(found)
}

/// Writes questions to the first places of `room`, as many as there is room for.
pub(crate) fn write_questions(questions: &[CoshalitQuestion], room: &mut [CoshalitQuestion])
    ensures { room.new ≡ take (length room.old) questions.now ++ drop (length questions.now) room.old }
{
    let count = questions.len().min(room.len());
    room[..count].copy_from_slice(&questions[..count]);
}
