//! Laws: each function has an empty body, and its clauses hold of all journals and tasks.
ghost use Rattle.dispute_board.specs.OneHistory.{SaidMayBePosted, LogsTellJournals, StartsTellJournals};

/// Different journals have different logs, so a log determines its journal. If a log begins with another, so does its
/// journal.
#[tactic(auto, using(crate::proofs::Journals::logs_tell, crate::proofs::Journals::starts_tell))]
pub fn logs_tell_journals()
    ensures same { LogsTellJournals }
    ensures start { StartsTellJournals }
{}

/// What a prover says to a question that its task's case asks it, after any number of passes, may be posted under the question's number.
#[tactic(auto, using(crate::proofs::Points::said_may_be_posted))]
pub fn what_is_said_may_be_posted()
    ensures { SaidMayBePosted }
{}
