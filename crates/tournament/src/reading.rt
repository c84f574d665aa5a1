//! What is read off claims and disputes, and how a match ends by them.
ghost use Rattle.std.specs.Prelude.{◌≡◌, ◌+◌, ◌<◌, ◌≤◌, ◌^◌, ◌++◌, [], ℕ, length, vec_len, vec_capacity};
ghost use Rattle.tournament.specs.Bracket.{put_out, is_out_by, collided, all_there, all_out, is_out_in, live_from, collision_with, claims_collision, disputes_collision, question_in, all_closed, lowest, last_stage};
ghost use Rattle.tournament.specs.Keeping.{asks_of, asked_from, sides};

use bisect_game::{Claimed, Close, Dispute, Judge, Question, Settled, Side};
use rd_base::{Answer, Claim, OpenText};

/// How a match ended.
#[derive(Debug, Drop)]
pub enum Verdict {
    /// The claim of the prover with this number is accepted.
    Accept(u32),
    /// Nobody is left.
    NoneLeft,
    /// Two different strings of one digest, each opened by an answer of the record.
    Collision(OpenText, OpenText),
}

/// Whether a dispute has eliminated a side.
fn has_put_out(dispute: &Dispute) -> bool
    ensures { result ≡ put_out dispute.now.close }
{
    matches!(dispute.closed(), Some(Close::Out { .. }))
}

/// Whether a dispute has eliminated the prover.
fn puts_out(dispute: &Dispute, p: u32) -> bool
    ensures { result ≡ is_out_by dispute.now dispute.now.close p }
{
    match dispute.closed() {
        Some(Close::Out { first, second }) => {
            first && dispute.prover(Side::First) == p || second && dispute.prover(Side::Second) == p
        }
        _ => false,
    }
}

/// The collision of a dispute.
fn collided(dispute: &Dispute) -> Option<(OpenText, OpenText)>
    ensures { result ≡ collided dispute.now.close }
{
    match dispute.closed() {
        Some(Close::Collision(x, y)) => Some((x, y)),
        _ => None,
    }
}

/// Whether the prover is this side of a dispute and has an open question there.
fn asks(dispute: &Dispute, side: Side, p: u32) -> bool
    ensures { result ≡ asks_of side p dispute.now }
{
    dispute.prover(side) == p && dispute.question(side).is_some()
}

/// Whether each claim is settled.
pub(crate) fn all_there(claims: &[Option<Settled>]) -> bool
    ensures { result ≡ all_there claims.now }
{
    claims.iter().all(|claim| claim.is_some())
}

/// Whether each dispute has closed, none by a collision.
pub(crate) fn all_out(disputes: &[Dispute]) -> bool
    ensures { result ≡ all_out disputes.now }
{
    disputes.iter().all(has_put_out)
}

/// Whether a dispute has eliminated the prover.
fn is_out_in(disputes: &[Dispute], p: u32) -> bool
    ensures { result ≡ is_out_in disputes.now p }
{
    disputes.iter().any(|dispute| puts_out(dispute, p))
}

/// The collision of the lowest dispute that has one.
pub(crate) fn disputes_collision(disputes: &[Dispute]) -> Option<(OpenText, OpenText)>
    ensures { result ≡ disputes_collision disputes.now }
{
    'disputes: for dispute in disputes {
        if let Some(pair) = collided(dispute) {
            return Some(pair);
        }
    }
    None
}

/// The collision of a claim with the first later one with which it has one.
fn collision_with<J: Judge>(
    judge: &J,
    claim: &Claim,
    claims: &[Option<Settled>],
) -> Option<(OpenText, OpenText)>
    ensures { (k : ℕ) → result ≡ collision_with (J.ruling (J.names judge.now)) claim.now (live_from [] k claims.now) }
{
    'claims: for settled in claims {
        if let Some(Settled::Given(Answer::Claim(other))) = settled {
            if let Some(pair) = judge.claim_collision(claim, other) {
                return Some(pair);
            }
        }
    }
    None
}

/// The collision of the least pair of claims that has one.
pub(crate) fn claims_collision<J: Judge>(
    judge: &J,
    claims: &[Option<Settled>],
) -> Option<(OpenText, OpenText)>
    ensures { (k : ℕ) → result ≡ claims_collision (J.ruling (J.names judge.now)) (live_from [] k claims.now) }
{
    'claims: for (i, settled) in claims.iter().enumerate() {
        if let Some(Settled::Given(Answer::Claim(claim))) = settled {
            if let Some(pair) = collision_with(judge, claim, &claims[i + 1..]) {
                return Some(pair);
            }
        }
    }
    None
}

/// Puts the live provers with their roots behind those that are there, of provers the first of which has this number.
pub(crate) fn fill_live<J: Judge>(
    judge: &J,
    disputes: &[Dispute],
    p: u32,
    claims: &[Option<Settled>],
    live: &mut Vec<Claimed>,
)
    requires room { vec_len live.old + length claims.now ≤ vec_capacity live.old }
    requires few { p + length claims.now < 2 ^ 32 }
    ensures capacity { vec_capacity live.new ≡ vec_capacity live.old }
    ensures items { live.new.items ≡ live.old.items ++ sides (J.ruling (J.names judge.now)) (live_from disputes.now p claims.now) }
{
    let mut prover = p;
    'claims: for settled in claims {
        if let Some(Settled::Given(Answer::Claim(claim))) = settled {
            if !is_out_in(disputes, prover) {
                live.push_reserved(Claimed {
                    prover,
                    root: judge.root_of(claim),
                });
            }
        }
        prover += 1;
    }
}

/// Where a prover is asked, and on which side.
pub(crate) fn asked_from(disputes: &[Dispute], i: usize, p: u32) -> Option<(usize, Side)>
    requires { i + length disputes.now < 2 ^ 64 }
    ensures { result ≡ asked_from i p disputes.now }
{
    'disputes: for (n, dispute) in disputes.iter().enumerate() {
        if asks(dispute, Side::First, p) {
            return Some((i + n, Side::First));
        }
        if asks(dispute, Side::Second, p) {
            return Some((i + n, Side::Second));
        }
    }
    None
}

/// The open question of a prover in these disputes.
pub(crate) fn question_in(disputes: &[Dispute], p: u32) -> Option<Question>
    ensures { result ≡ question_in p disputes.now }
{
    'disputes: for dispute in disputes {
        if asks(dispute, Side::First, p) {
            return dispute.question(Side::First);
        }
        if asks(dispute, Side::Second, p) {
            return dispute.question(Side::Second);
        }
    }
    None
}

/// Whether each dispute has closed.
pub(crate) fn all_closed(disputes: &[Dispute]) -> bool
    ensures { result ≡ all_closed disputes.now }
{
    disputes.iter().all(|dispute| dispute.closed().is_some())
}

/// The highest stage; 0 without a dispute.
pub(crate) fn last_stage(disputes: &[Dispute]) -> u32
    ensures { result ≡ last_stage disputes.now }
{
    let mut last = 0;
    'disputes: for dispute in disputes {
        last = dispute.stage().max(last);
    }
    last
}

/// The lowest live prover, of provers the first of which has this number.
pub(crate) fn lowest(disputes: &[Dispute], p: u32, claims: &[Option<Settled>]) -> Verdict
    requires { p + length claims.now < 2 ^ 32 }
    ensures { result ≡ lowest (live_from disputes.now p claims.now) }
{
    let mut prover = p;
    'claims: for settled in claims {
        let has_claim = matches!(settled, Some(Settled::Given(Answer::Claim(_))));
        if has_claim && !is_out_in(disputes, prover) {
            return Verdict::Accept(prover);
        }
        prover += 1;
    }
    Verdict::NoneLeft
}
