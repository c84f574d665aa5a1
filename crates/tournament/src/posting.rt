//! Moves, replies, and how an answer is judged.
ghost use Rattle.std.specs.Prelude.{◌≡◌, Some, is_none};
ghost use Rattle.bisect_game.specs.Rules.{is_fit, judged};
ghost use Rattle.tournament.specs.Posting.{answer_of, reply_by, is_stale};

use bisect_game::{Judge, Kind, Settled};
use rd_base::{Answer, Qid};

/// What a prover does about its open question.
#[derive(Debug, Drop)]
pub enum Move {
    /// It passes: it has no answer yet.
    Pass,
    /// It answers.
    Give(Answer),
}

/// The move that gives this answer; a pass for none.
pub fn move_of(answer: Option<Answer>) -> Move
    ensures { answer_of result ≡ answer }
{
    match answer {
        Some(answer) => Move::Give(answer),
        None => Move::Pass,
    }
}

/// Whether a move is a pass.
pub fn is_pass(turn: &Move) -> bool
    ensures { result ≡ is_none (answer_of turn.now) }
{
    matches!(turn, Move::Pass)
}

/// The reply to a post.
#[derive(Clone, Copy, Debug)]
pub enum Reply {
    /// The pass is counted, or the answer is taken as given.
    Taken,
    /// The answer is of another kind than asked, a list of another length than the cuts, or an unsound claim: the question is
    /// settled against the prover.
    Faulty,
    /// It was the pass after the patience: the question is settled against the prover.
    Spent,
    /// The prover has no open question of this number; the number of its open one is here, if it has one. Nothing changed, and the move
    /// is dropped.
    Stale(Option<Qid>),
}

/// Whether a reply is `Stale`, so that nothing changed.
pub fn is_stale(reply: Reply) -> bool
    ensures { result ≡ is_stale reply }
{
    matches!(reply, Reply::Stale(_))
}

/// Whether an answer is of the kind that was asked, with a root for each cut, and a claim sound.
fn is_fit<J: Judge>(judge: &J, kind: Kind, answer: &Answer) -> bool
    ensures { result ≡ is_fit (J.ruling (J.names judge.now)) kind answer.now }
{
    match (kind, answer) {
        (Kind::Claim, Answer::Claim(claim)) => judge.sound(claim),
        (Kind::Root(_), Answer::Root(_)) => true,
        (Kind::Roots { parts, .. }, Answer::Roots(roots)) => {
            roots.as_slice().len() == (parts as usize).saturating_sub(1)
        }
        (Kind::Proof(_), Answer::Step(_)) => true,
        _ => false,
    }
}

/// What an answer to a question of this kind is settled as.
pub(crate) fn judged<J: Judge>(judge: &J, kind: Kind, answer: Answer) -> Settled
    ensures { result ≡ judged (J.ruling (J.names judge.now)) kind answer }
{
    if is_fit(judge, kind, &answer) {
        Settled::Given(answer)
    } else {
        Settled::Faulty(answer)
    }
}

/// The reply to a post that settled its question.
pub(crate) fn reply_by(settled: &Settled) -> Reply
    ensures { result ≡ reply_by (Some settled.now) }
{
    match settled {
        Settled::Given(_) => Reply::Taken,
        Settled::Faulty(_) => Reply::Faulty,
        Settled::Spent => Reply::Spent,
    }
}
