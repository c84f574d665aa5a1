//! Tests of a ledger of stakes.
ghost use Rattle.std.specs.Prelude.{◌≡◌, ◌<◌, ◌≤◌, true, false, length};
ghost use Rattle.deposits.specs.Accounts.{is_told_out};

use bisect_game::Close;
use deposits::Ledger;
use rd_base::{Memory, OpenText};
use std::alloc::Global;
use std::test::Fail;

/// An event of a match.
#[derive(Clone, Copy)]
enum Told {
    /// The claim of this prover eliminates it.
    ClaimOut(u32),
    /// The dispute of these two provers eliminates its first side, its second, both or none.
    Out(u32, u32, bool, bool),
    /// The dispute of these two provers closes with a collision.
    Collision(u32, u32),
}

/// Whether this is one of the three provers of a ledger, and isn't out if it is to lose its stake.
fn may_be_told(ledger: &Ledger, p: u32, loses: bool) -> bool
    requires { length ledger.now.of ≡ 3 }
    ensures few { result ≡ true → (0 < p) × (p ≤ 3) }
    ensures loses { result ≡ true → loses ≡ true → is_told_out ledger.now p ≡ false }
{
    if p == 0 || p > 3 {
        return false;
    }
    if loses { !ledger.is_out(p) } else { true }
}

/// Applies an event to a ledger of three provers. The result is whether it may be applied.
#[tactic(auto, using(crate::proofs::TellLemmas::three_told))]
fn tell(ledger: &mut Ledger, told: Told) -> bool
    requires { length ledger.old.of ≡ 3 }
    ensures { length ledger.new.of ≡ 3 }
{
    match told {
        Told::ClaimOut(p) => {
            if !may_be_told(ledger, p, true) {
                return false;
            }
            ledger.claim_out(p);
        }
        Told::Out(a, b, first, second) => {
            if a == b || !may_be_told(ledger, a, first) || !may_be_told(ledger, b, second) {
                return false;
            }
            ledger.closed(a, b, &Close::Out { first, second });
        }
        Told::Collision(a, b) => {
            if a == b || !may_be_told(ledger, a, false) || !may_be_told(ledger, b, false) {
                return false;
            }
            ledger.closed(a, b, &Close::Collision(OpenText::new(), OpenText::new()));
        }
    }
    true
}

/// What a ledger of three provers says.
#[derive(Clone, Copy, Debug, PartialEq, Eq)]
struct Amounts {
    /// What each prover has.
    balances: [u64; 3],
    /// Whether each is out.
    out: [bool; 3],
    /// What is in the pool.
    pool: u64,
}

/// What a ledger of three provers with a stake of 10 each says after these events. `None` if one of them may not be applied.
fn after(alloc: Global, events: &[Told]) -> Result<Option<Amounts>, Memory> {
    let mut ledger = Ledger::new(alloc, 3, 10)?;
    for told in events {
        if !tell(&mut ledger, *told) {
            return Ok(None);
        }
    }
    Ok(Some(Amounts {
        balances: [ledger.balance(1), ledger.balance(2), ledger.balance(3)],
        out: [ledger.is_out(1), ledger.is_out(2), ledger.is_out(3)],
        pool: ledger.pool(),
    }))
}

/// What a ledger says at its beginning.
const BEGUN: Amounts = Amounts {
    balances: [10, 10, 10],
    out: [false, false, false],
    pool: 0,
};

const WINS: Told = Told::Out(1, 2, false, true);

const LOSES: Told = Told::Out(1, 3, true, false);

const COLLIDES: Told = Told::Collision(1, 3);

/// Prover 3 has won the stake of prover 1, which had won that of prover 2.
const IN_ANY_ORDER: Amounts = Amounts {
    balances: [10, 0, 20],
    out: [true, true, false],
    pool: 0,
};

/// Events, and what a ledger says after them.
struct Row {
    row: &'static str,
    events: &'static [Told],
    amounts: Amounts,
}

/// The order of events doesn't matter: who loses its stake wins one before or after.
const LEDGERS: [Row; 12] = [
    Row {
        row: "begun",
        events: &[],
        amounts: BEGUN,
    },
    Row {
        row: "a claim is out",
        events: &[Told::ClaimOut(2)],
        amounts: Amounts {
            balances: [10, 0, 10],
            out: [false, true, false],
            pool: 10,
        },
    },
    Row {
        row: "the first side is out",
        events: &[Told::Out(1, 3, true, false)],
        amounts: Amounts {
            balances: [0, 10, 20],
            out: [true, false, false],
            pool: 0,
        },
    },
    Row {
        row: "the second side is out",
        events: &[Told::Out(1, 3, false, true)],
        amounts: Amounts {
            balances: [20, 10, 0],
            out: [false, false, true],
            pool: 0,
        },
    },
    Row {
        row: "both sides are out",
        events: &[Told::Out(1, 2, true, true)],
        amounts: Amounts {
            balances: [0, 0, 10],
            out: [true, true, false],
            pool: 20,
        },
    },
    Row {
        row: "a collision",
        events: &[Told::Collision(1, 2)],
        amounts: BEGUN,
    },
    Row {
        row: "one puts out both others",
        events: &[Told::Out(1, 3, true, false), Told::Out(2, 3, true, false)],
        amounts: Amounts {
            balances: [0, 0, 30],
            out: [true, true, false],
            pool: 0,
        },
    },
    Row {
        row: "a winner is out and loses its own stake",
        events: &[Told::Out(1, 2, false, true), Told::Out(1, 3, true, false)],
        amounts: Amounts {
            balances: [10, 0, 20],
            out: [true, true, false],
            pool: 0,
        },
    },
    Row {
        row: "nobody stays",
        events: &[Told::ClaimOut(3), Told::Out(1, 2, true, true)],
        amounts: Amounts {
            balances: [0, 0, 0],
            out: [true, true, true],
            pool: 30,
        },
    },
    Row {
        row: "wins, loses and collides",
        events: &[WINS, LOSES, COLLIDES],
        amounts: IN_ANY_ORDER,
    },
    Row {
        row: "loses, wins and collides",
        events: &[LOSES, WINS, COLLIDES],
        amounts: IN_ANY_ORDER,
    },
    Row {
        row: "collides, loses and wins",
        events: &[COLLIDES, LOSES, WINS],
        amounts: IN_ANY_ORDER,
    },
];

/// A ledger moves the stakes of those who are out, and no others, in whatever order they come.
#[test]
fn a_ledger_moves_the_stakes_of_those_who_are_out_in_any_order(
    rt: HostRuntime,
) -> Result<(), Fail> {
    for row in &LEDGERS {
        let after = after(rt.alloc(), row.events)?;
        assert_eq!(rt; after, Some(row.amounts), "{}", row.row);
    }
    Ok(())
}
