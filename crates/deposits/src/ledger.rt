//! A ledger of stakes.
ghost use Rattle.std.specs.Prelude.{◌≡◌, ◌-◌, ◌<◌, ◌≤◌, true, false, length, slice_index, IfOk, replicate};
ghost use Rattle.bisect_game.specs.declared.settled.Close.TheVariants.{Out};
ghost use Rattle.deposits.specs.Accounts.{staked, is_told_out, told, CanTell};
ghost use Rattle.deposits.specs.Events.Event.{ClaimOut, Closed};

use crate::amounts::Balances;
use bisect_game::Close;
use rd_base::{Listed, Memory};
use std::alloc::Global;
use std::marker::Model;

/// The stakes of the provers of a match, as its events move them.
#[derive(Drop)]
pub struct Ledger {
    stake: u64,
    of: Vec<u64>,
    out: Vec<bool>,
    pool: u64,
}

impl Model for Ledger {
    ghost use Rattle.deposits.specs.Accounts.{Accounts};
    ghost use Rattle.deposits.specs.Keeping.{IsLedger};

    ghost Value = { Accounts };

    ghost view = { λ l. record { stake = l.stake; of = l.of.items; out = l.out.items; pool = l.pool } };

    ghost invariant = { λ l. IsLedger l.stake l.of.items l.out.items l.pool };
}

/// This many stakes.
fn stakes(alloc: Global, stake: u64, many: usize) -> Result<Vec<u64>, Memory>
    ensures { IfOk result (λ v. v.items ≡ replicate many stake) }
{
    Ok(vec![in alloc; stake; many]?)
}

/// This many provers of which none is out.
fn none_out(alloc: Global, many: usize) -> Result<Vec<bool>, Memory>
    ensures { IfOk result (λ v. v.items ≡ replicate many false) }
{
    Ok(vec![in alloc; false; many]?)
}

impl Ledger {
    /// A ledger of 1 to 16 provers, each of which has put down a stake of at most 1,000,000,000.
    pub fn new(alloc: Global, provers: u32, stake: u64) -> Result<Ledger, Memory>
        requires some { 0 < provers }
        requires few { provers ≤ 16 }
        requires small { stake ≤ 1000000000 }
        ensures { IfOk result (λ l. l ≡ staked stake provers) }
    {
        Ok(Ledger {
            stake,
            of: stakes(alloc, stake, provers as usize)?,
            out: none_out(alloc, provers as usize)?,
            pool: 0,
        })
    }

    /// Prover `p`, from 1 to their count and not out so far, is out by its claim: its stake goes to the pool.
    pub fn claim_out(&mut self, p: u32)
        requires { CanTell self.old (ClaimOut p) }
        ensures { self.new ≡ told self.old (ClaimOut p) }
    {
        let i = p as usize - 1;
        self.of[i] -= self.stake;
        self.out[i] = true;
        self.pool += self.stake;
    }

    /// One side of a dispute is out: its stake goes to the other side.
    fn pass_on(&mut self, loser: u32, winner: u32)
        requires { CanTell self.old (Closed loser winner (Out true false)) }
        ensures { self.new ≡ told self.old (Closed loser winner (Out true false)) }
    {
        let from = loser as usize - 1;
        let to = winner as usize - 1;
        self.of[from] -= self.stake;
        self.out[from] = true;
        self.of[to] += self.stake;
    }

    /// Sides of a dispute are out: the first, the second, both or none.
    fn sides_out(&mut self, a: u32, b: u32, first: bool, second: bool)
        requires { CanTell self.old (Closed a b (Out first second)) }
        ensures { self.new ≡ told self.old (Closed a b (Out first second)) }
    {
        if first {
            if second {
                self.claim_out(a);
                self.claim_out(b);
            } else {
                self.pass_on(a, b);
            }
        } else if second {
            self.pass_on(b, a);
        }
    }

    /// The dispute of the provers `a`, its first side, and `b` closes. They are two, from 1 to their count, and none that the close puts out
    /// was out before. The stake of one that it puts out goes to the other side, and to the pool if it puts both out. A collision moves
    /// nothing.
    pub fn closed(&mut self, a: u32, b: u32, close: &Close)
        requires { CanTell self.old (Closed a b close.now) }
        ensures { self.new ≡ told self.old (Closed a b close.now) }
    {
        match close {
            Close::Out { first, second } => self.sides_out(a, b, *first, *second),
            Close::Collision(_, _) => {}
        }
    }

    /// What prover `p`, from 1 to their count, has.
    pub fn balance(&self, p: u32) -> u64
        requires some { 0 < p }
        requires few { p ≤ length self.now.of }
        ensures { result ≡ slice_index self.now.of (p - 1) }
    {
        self.of[p as usize - 1]
    }

    /// Whether prover `p`, from 1 to their count, is out.
    pub fn is_out(&self, p: u32) -> bool
        requires some { 0 < p }
        requires few { p ≤ length self.now.of }
        ensures { result ≡ is_told_out self.now p }
    {
        self.out[p as usize - 1]
    }

    /// What is in the pool.
    pub fn pool(&self) -> u64
        ensures { result ≡ self.now.pool }
    {
        self.pool
    }

    /// What each prover has, and the pool. It takes no memory.
    pub(crate) fn into_balances(self) -> Balances
        ensures of { result.of ≡ self.of }
        ensures pool { result.pool ≡ self.pool }
    {
        let Ledger { of, pool, .. } = self;
        Balances {
            of: Listed::new(of),
            pool,
        }
    }
}
