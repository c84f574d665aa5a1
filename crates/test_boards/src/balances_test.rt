//! Tests of the balances at the end of a match.
ghost use Rattle.std.specs.Prelude.{◌<◌, ◌≤◌};
ghost use Rattle.deposits.specs.Balances.{IsSettledUp};

use crate::casts::{NEVER, cast_of, played};
use crate::players::{FALLS_SILENT, FORGER, LIAR_FALLS_SILENT};
use deposits::{Balances, a_match_that_has_ended_is_settled_up, balances, burned};
use posters::OpenGate;
use rd_base::Memory;
use std::alloc::Global;
use std::sync::Wait;
use std::test::Fail;
use std::thread::Threads;
use tournament::{Match, Record};
use toy_game::{Cast, HONEST, LIAR, Player, SILENT, ToyJudge};

/// A match in which each player stakes 10. Its last two players may be missing.
struct Row {
    row: &'static str,
    players: [Player; 3],
    count: u32,
    /// What each has at its end if the other side wins the stake of a prover that is out, and what is in the pool.
    won: &'static [u64],
    pool: u64,
    /// What each keeps if nobody wins it, and what is burned.
    kept: &'static [u64],
    burned: u64,
}

const MATCHES: [Row; 7] = [
    Row {
        row: "one alone",
        players: [HONEST, SILENT, SILENT],
        count: 1,
        won: &[10],
        pool: 0,
        kept: &[10],
        burned: 0,
    },
    Row {
        row: "two liars and an honest one",
        players: [LIAR, LIAR, HONEST],
        count: 3,
        won: &[0, 0, 30],
        pool: 0,
        kept: &[0, 0, 10],
        burned: 20,
    },
    Row {
        row: "one never claims",
        players: [SILENT, LIAR, HONEST],
        count: 3,
        won: &[0, 0, 20],
        pool: 10,
        kept: &[0, 0, 10],
        burned: 20,
    },
    Row {
        row: "both fall silent",
        players: [FALLS_SILENT, LIAR_FALLS_SILENT, SILENT],
        count: 2,
        won: &[0, 0],
        pool: 20,
        kept: &[0, 0],
        burned: 20,
    },
    Row {
        row: "the liar keeps what it won in stage 1",
        players: [LIAR, FALLS_SILENT, HONEST],
        count: 3,
        won: &[10, 0, 20],
        pool: 0,
        kept: &[0, 0, 10],
        burned: 20,
    },
    Row {
        row: "liars with one claim",
        players: [LIAR, LIAR, SILENT],
        count: 2,
        won: &[10, 10],
        pool: 0,
        kept: &[10, 10],
        burned: 0,
    },
    Row {
        row: "both prove, and collide",
        players: [HONEST, FORGER, SILENT],
        count: 2,
        won: &[10, 10],
        pool: 0,
        kept: &[10, 10],
        burned: 0,
    },
];

/// A match by both settlements.
#[derive(Debug, Drop)]
struct Settlements {
    won: Balances,
    kept: Balances,
}

/// What each of these provers has at the end of a match with this record and a stake of 10.
fn settled(alloc: Global, provers: u32, ended: &Record) -> Result<Settlements, Memory>
    requires some { 0 < provers }
    requires few { provers ≤ 16 }
    requires settled_up { IsSettledUp provers ended.now }
{
    Ok(Settlements {
        won: balances(alloc, 10, provers, ended)?,
        kept: burned(alloc, 10, provers, ended)?,
    })
}

/// What each prover of a match has at its end with a stake of 10. `None` if it isn't over, or has more than 16 provers.
fn paid(alloc: Global, game: &Match<ToyJudge>) -> Result<Option<Settlements>, Memory> {
    let setup = game.setup();
    let provers = setup.provers();
    if provers > 16 || !game.is_over() {
        return Ok(None);
    }
    game.is_after_posts();
    a_match_that_has_ended_is_settled_up();
    Ok(Some(settled(alloc, provers, game.record())?))
}

/// What the players of a cast have at the end of their match, in which they have no patience.
fn paid_to<R: Threads + Wait + Sync>(
    rt: &R,
    alloc: Global,
    cast: Cast,
) -> Result<Option<Settlements>, Memory>
    requires some { 0 < cast.count }
    requires few { cast.count ≤ 16 }
{
    let book = played(rt, alloc, cast, 0, 1, NEVER, &OpenGate)?;
    paid(alloc, book.game())
}

/// Whether these are the settlements of a row.
fn is_paid(paid: &Option<Settlements>, row: &Row) -> bool {
    match paid {
        Some(paid) => {
            paid.won.of.as_slice() == row.won
                && paid.won.pool == row.pool
                && paid.kept.of.as_slice() == row.kept
                && paid.kept.pool == row.burned
        }
        None => false,
    }
}

/// At the end of a match a prover that is out has lost its stake: by `balances` to the one that eliminated it, or to the pool, and by
/// `burned` to nobody.
#[test]
fn each_match_pays_its_provers(rt: HostRuntime) -> Result<(), Fail> {
    for row in &MATCHES {
        assert!(rt; row.count >= 1 && row.count <= 3);
        let paid = paid_to(&rt, rt.alloc(), cast_of(row.players, row.count))?;
        assert!(rt; is_paid(&paid, row), "{}: {paid:?}", row.row);
    }
    Ok(())
}
