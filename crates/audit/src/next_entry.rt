//! The next entry of a text.
ghost use Rattle.std.specs.Prelude.{◌≡◌, ◌+◌, ◌<◌, ◌^◌, length};
ghost use Rattle.audit.specs.NextEntry.{next_claim, next_in, next};

use bisect_game::{Dispute, Question, Settled, Side};
use tournament::Record;

/// The first prover whose claim is missing, of provers the first of which has this number.
fn next_claim(p: usize, claims: &[Option<Settled>]) -> Option<usize>
    requires { p + length claims.now < 2 ^ 64 }
    ensures { result ≡ next_claim p claims.now }
{
    match claims {
        [] => None,
        [None, ..] => Some(p),
        [Some(_), rest @ ..] => next_claim(p + 1, rest),
    }
}

/// The first side with an open question in the first dispute that has one.
fn next_in(disputes: &[Dispute]) -> Option<(usize, Question)>
    ensures { result ≡ next_in disputes.now }
{
    match disputes {
        [] => None,
        [first, rest @ ..] => {
            if let Some(question) = first.question(Side::First) {
                return Some((first.prover(Side::First) as usize, question));
            }
            if let Some(question) = first.question(Side::Second) {
                return Some((first.prover(Side::Second) as usize, question));
            }
            next_in(rest)
        }
    }
}

/// The prover whose answer comes next, and what it is asked; `None` if nothing is open.
pub(crate) fn next(played: &Record) -> Option<(usize, Question)>
    ensures { result ≡ next played.now }
{
    if let Some(p) = next_claim(1, played.claims()) {
        return Some((p, Question::claim()));
    }
    next_in(played.disputes())
}
