//! The balances of a match that has ended.
ghost use Rattle.std.specs.Prelude.{◌≡◌, ◌+◌, ◌<◌, ◌≤◌, ◌^◌, length, IfOk};
ghost use Rattle.deposits.specs.Events.{claim_events, dispute_events};
ghost use Rattle.deposits.specs.Accounts.{all_told, CanTellAll};
ghost use Rattle.deposits.specs.Balances.{balances_of, IsSettledUp};
ghost use Rattle.deposits.specs.Burning.{burn_events, balances_if_burned};

use crate::amounts::Balances;
use crate::ledger::Ledger;
use bisect_game::{Close, Dispute, Settled, Side};
use rd_base::Memory;
use std::alloc::Global;
use tournament::Record;

/// Applies to a ledger the events of the claims that are out, among claims the first of which is that of the prover `p`.
fn tell_claims(ledger: &mut Ledger, p: u32, claims: &[Option<Settled>])
    requires few { p + length claims.now < 2 ^ 32 }
    requires can { CanTellAll (claim_events p claims.now) ledger.old }
    ensures { ledger.new ≡ all_told (claim_events p claims.now) ledger.old }
{
    match claims {
        [] => {}
        [Some(Settled::Faulty(_) | Settled::Spent), rest @ ..] => {
            ledger.claim_out(p);
            tell_claims(ledger, p + 1, rest);
        }
        [_, rest @ ..] => tell_claims(ledger, p + 1, rest),
    }
}

/// Applies to a ledger the closes of disputes.
fn tell_disputes(ledger: &mut Ledger, disputes: &[Dispute])
    requires { CanTellAll (dispute_events disputes.now) ledger.old }
    ensures { ledger.new ≡ all_told (dispute_events disputes.now) ledger.old }
{
    match disputes {
        [] => {}
        [first, rest @ ..] => {
            if let Some(close) = first.closed() {
                ledger.closed(
                    first.prover(Side::First),
                    first.prover(Side::Second),
                    &close,
                );
            }
            tell_disputes(ledger, rest);
        }
    }
}

/// What each prover has once a match has ended, and what is in the pool: a prover that is out loses exactly its stake, at its claim
/// to the pool, in a dispute to the other side if that stays live, and to the pool if both are out.
///
/// Each of 1 to 16 provers has put down a stake of at most 1,000,000,000. The record has one settled claim per prover, the sides of each
/// dispute are two of them, and nobody is eliminated twice, as in the record of each match that has ended.
pub fn balances(
    alloc: Global,
    stake: u64,
    provers: u32,
    record: &Record,
) -> Result<Balances, Memory>
    requires small { stake ≤ 1000000000 }
    requires some { 0 < provers }
    requires few { provers ≤ 16 }
    requires settled_up { IsSettledUp provers «record».now }
    ensures { IfOk result (λ b. b ≡ balances_of stake provers «record».now) }
{
    let mut ledger = Ledger::new(alloc, provers, stake)?;
    tell_claims(&mut ledger, 1, record.claims());
    tell_disputes(&mut ledger, record.disputes());
    Ok(ledger.into_balances())
}

/// Applies to a ledger that each side that these disputes eliminated is out, as by its claim: nobody wins its stake.
fn tell_burned(ledger: &mut Ledger, disputes: &[Dispute])
    requires { CanTellAll (burn_events disputes.now) ledger.old }
    ensures { ledger.new ≡ all_told (burn_events disputes.now) ledger.old }
{
    match disputes {
        [] => {}
        [dispute, rest @ ..] => {
            if let Some(Close::Out { first, second }) = dispute.closed() {
                if first {
                    ledger.claim_out(dispute.prover(Side::First));
                }
                if second {
                    ledger.claim_out(dispute.prover(Side::Second));
                }
            }
            tell_burned(ledger, rest);
        }
    }
}

/// What each prover keeps once a match has ended, if nobody wins the stake of a prover that is out, and, in the place of the pool, what is
/// burned: each live prover keeps its stake, and every other stake is burned. Also a coalition that fights itself pays so: a match without
/// a collision of a dispute burns a stake at least for each of its stages (`stages_burn_stakes`).
///
/// The conditions are those of `balances`: each of 1 to 16 provers has put down a stake of at most 1,000,000,000, and the record is that of
/// a match that has ended.
pub fn burned(alloc: Global, stake: u64, provers: u32, record: &Record) -> Result<Balances, Memory>
    requires small { stake ≤ 1000000000 }
    requires some { 0 < provers }
    requires few { provers ≤ 16 }
    requires settled_up { IsSettledUp provers «record».now }
    ensures { IfOk result (λ b. b ≡ balances_if_burned stake provers «record».now) }
{
    let mut ledger = Ledger::new(alloc, provers, stake)?;
    tell_claims(&mut ledger, 1, record.claims());
    tell_burned(&mut ledger, record.disputes());
    Ok(ledger.into_balances())
}
