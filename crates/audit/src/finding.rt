//! What an audit finds.
use tournament::Verdict;

/// Why a line of a full text isn't the next legal entry.
#[derive(Clone, Copy, Debug, PartialEq, Eq)]
pub enum Cause {
    /// 1: it isn't of the question and the prover that are next, and the match isn't over.
    NotAsked,
    /// 2: it calls a faulty answer `given`, or another answer `faulty`.
    OtherReply,
    /// 3: the stated verdict isn't the verdict.
    OtherVerdict,
    /// 4: the verdict is stated while a question is open.
    MovesMissing,
    /// 5: it is a move after the match has ended.
    MovesAfterEnd,
}

/// What an audit finds.
#[derive(Debug, Drop)]
pub enum Audit {
    /// The text is that of a legal match with this verdict.
    Confirmed(Verdict),
    /// The line with this number, from 1, is the first that isn't the next legal entry.
    Refused { line: u64, cause: Cause },
}
