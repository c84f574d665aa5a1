//! The questions of a match, and what a dispute is made of: its interval, its sides, what their answers were settled as, its rounds, and
//! how it closed.
ghost use Rattle.std.specs.Prelude.{◌≡◌};
ghost use Rattle.bisect_game.specs.Rules.{claim_question};

use rd_base::{Answer, Digest32, OpenText, Qid};

/// What a prover is asked for.
#[derive(Clone, Copy, Debug, PartialEq, Eq)]
pub enum Kind {
    /// The claim about the whole run.
    Claim,
    /// The root of the state after this many steps.
    Root(u64),
    /// The roots of the states at the cuts between the ends of an interval, in their order.
    Roots {
        /// The step at which the interval begins.
        lo: u64,
        /// The step at which it ends.
        hi: u64,
        /// In how many parts it is cut: one more than there are roots.
        parts: u32,
    },
    /// The proof of the step with this number, from 0.
    Proof(u64),
}

/// A question of a match.
#[derive(Clone, Copy, Debug, PartialEq, Eq)]
pub struct Question {
    /// Its number: dispute and round, both 0 for the claim.
    pub qid: Qid,
    /// What is asked for.
    pub kind: Kind,
}

impl Question {
    /// The question for the claim, which each prover is asked first.
    pub fn claim() -> Question
        ensures { result ≡ claim_question }
    {
        Question {
            qid: Qid {
                dispute: 0,
                round: 0,
            },
            kind: Kind::Claim,
        }
    }
}

/// A prover and the root that it claims at the bound.
#[derive(Clone, Copy, Debug)]
pub struct Claimed {
    /// The number of the prover, from 1.
    pub prover: u32,
    /// The root of its claim.
    pub root: Digest32,
}

/// The interval of a dispute: two steps, the root on which both sides agree at the lower one, and each side's root at the
/// upper one. In a dispute the steps lie within the bound, and `lo < hi`; in one of a match the two roots at `hi` differ.
#[derive(Clone, Copy, Debug)]
pub struct Interval {
    /// The lower step.
    pub lo: u64,
    /// The upper step.
    pub hi: u64,
    /// The root at `lo` of both sides.
    pub agreed: Digest32,
    /// The root at `hi` of the first side.
    pub first: Digest32,
    /// The root at `hi` of the second side.
    pub second: Digest32,
}

/// A side of a dispute.
#[derive(Clone, Copy, Debug, PartialEq, Eq)]
pub enum Side {
    /// The prover with the lower number.
    First,
    /// The prover with the higher number.
    Second,
}

/// What a question of one prover ended as.
#[derive(Debug, Drop)]
pub enum Settled {
    /// An answer of the kind that was asked; of a claim, a sound one; of roots, one for each cut.
    Given(Answer),
    /// An answer of another kind, an unsound claim, or a list of another length than the cuts.
    Faulty(Answer),
    /// The prover passed one time more than the patience.
    Spent,
}

/// A past round, which closed nothing: its interval, and what each side's answer was settled as.
#[derive(Debug, Drop)]
pub struct Round {
    /// The lower step of its interval.
    pub lo: u64,
    /// The upper step of its interval.
    pub hi: u64,
    /// What the first side's answer was settled as.
    pub first: Settled,
    /// What the second side's answer was settled as.
    pub second: Settled,
}

/// How a dispute closed.
#[derive(Debug, Drop)]
pub enum Close {
    /// Which sides are out: the first, the second, or both.
    Out { first: bool, second: bool },
    /// Both sides proved: two different strings of one digest. Nobody is out.
    Collision(OpenText, OpenText),
}

impl Close {
    /// A copy of the close. It takes no memory.
    pub fn copy(&self) -> Close
        ensures { result ≡ self.now }
    {
        match self {
            Close::Out { first, second } => Close::Out {
                first: *first,
                second: *second,
            },
            Close::Collision(x, y) => Close::Collision(x.copy(), y.copy()),
        }
    }
}
