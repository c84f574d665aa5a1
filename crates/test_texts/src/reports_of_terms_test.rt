//! Reports of matches of the toy game, by hand: what comes of the terms. The provers move in other orders, rounds have several parts, and
//! deposits are put down.
ghost use denote.Param.Send.{IsSync};

use crate::playing::HALVES;
use crate::playing::Who::{
    Honest, LateByOne, LaterLiarSilentFrom2, Liar, LiarFrom1, LiarFrom7, LiarSilentFrom2, Silent,
};
use crate::report_rows::{Funds, Other, Row, first_other, other_report};
use rd_base::Memory;
use std::alloc::Global;
use std::test::Fail;
use std::thread::Threads;

/// Three provers that move in any order, and their report.
const IN_ANY_ORDER: Row = Row {
    players: &[Liar, LateByOne, LaterLiarSilentFrom2],
    bound: 8,
    fan: 2,
    patience: 1,
    wrong: None,
    accepted: 2,
    lines: "\
        p1 claims running output\n\
        p2 claims running output\n\
        p3 claims running output\n\
        stage 1\n\
        dispute 1 p1 p2\n\
        round 1 at 4 differ\n\
        round 2 at 2 differ\n\
        round 3 at 1 same\n\
        step 1 p1 refuted p2 proved\n\
        stage 2\n\
        dispute 2 p2 p3\n\
        round 1 at 4 same\n\
        round 2 at 6 p2 given p3 spent\n\
        accept running output\n",
};

/// This row as a value.
fn in_any_order() -> Row {
    IN_ANY_ORDER
}

/// The six orders of three provers.
const ORDERS: [&[usize]; 6] = [
    &[0, 1, 2],
    &[0, 2, 1],
    &[1, 0, 2],
    &[1, 2, 0],
    &[2, 0, 1],
    &[2, 1, 0],
];

/// The first order in which the match of a row has another report.
fn first_other_order<R: Threads + Sync>(
    rt: &R,
    alloc: Global,
    row: &Row,
) -> Result<Option<Other>, Memory>
    requires { IsSync R.row }
{
    for (place, order) in ORDERS.iter().enumerate() {
        let other = other_report(rt, alloc, row, *order, None, place)?;
        if other.is_some() {
            return Ok(other);
        }
    }
    Ok(None)
}

/// Whoever moves first, each of the six orders ends in one report.
#[test]
fn all_orders_end_in_one_report(rt: HostRuntime) -> Result<(), Fail> {
    let other = first_other_order(&rt, rt.alloc(), &in_any_order())?;
    assert!(rt; other.is_none(), "{other:?}");
    Ok(())
}

/// A round of a larger fan shows its interval, its parts and which one is kept, also if it has only two parts.
const PARTS: [Row; 6] = [
    Row {
        players: &[Honest, Liar],
        bound: 8,
        fan: 4,
        patience: 0,
        wrong: None,
        accepted: 1,
        lines: "\
            p1 claims running output\n\
            p2 claims running output\n\
            stage 1\n\
            dispute 1 p1 p2\n\
            round 1 in 0 8 by 4 keep 1\n\
            round 2 in 0 2 by 2 keep 2\n\
            step 1 p1 proved p2 refuted\n\
            accept running output\n",
    },
    Row {
        players: &[Honest, LiarFrom7],
        bound: 7,
        fan: 3,
        patience: 0,
        wrong: None,
        accepted: 1,
        lines: "\
            p1 claims running output\n\
            p2 claims running output\n\
            stage 1\n\
            dispute 1 p1 p2\n\
            round 1 in 0 7 by 3 keep 3\n\
            round 2 in 4 7 by 3 keep 3\n\
            step 6 p1 proved p2 refuted\n\
            accept running output\n",
    },
    Row {
        players: &[Honest, LiarFrom1],
        bound: 8,
        fan: 4,
        patience: 0,
        wrong: None,
        accepted: 1,
        lines: "\
            p1 claims running output\n\
            p2 claims running output\n\
            stage 1\n\
            dispute 1 p1 p2\n\
            round 1 in 0 8 by 4 keep 1\n\
            round 2 in 0 2 by 2 keep 1\n\
            step 0 p1 proved p2 refuted\n\
            accept running output\n",
    },
    Row {
        players: &[Honest, Liar],
        bound: 4_294_967_295,
        fan: 16,
        patience: 0,
        wrong: None,
        accepted: 1,
        lines: "\
            p1 claims running output\n\
            p2 claims running output\n\
            stage 1\n\
            dispute 1 p1 p2\n\
            round 1 in 0 4294967295 by 16 keep 1\n\
            round 2 in 0 268435455 by 16 keep 1\n\
            round 3 in 0 16777215 by 16 keep 1\n\
            round 4 in 0 1048575 by 16 keep 1\n\
            round 5 in 0 65535 by 16 keep 1\n\
            round 6 in 0 4095 by 16 keep 1\n\
            round 7 in 0 255 by 16 keep 1\n\
            round 8 in 0 15 by 15 keep 2\n\
            step 1 p1 proved p2 refuted\n\
            accept running output\n",
    },
    Row {
        players: &[Honest, Liar],
        bound: 8,
        fan: 4,
        patience: 0,
        wrong: Some(2),
        accepted: 2,
        lines: "\
            p1 claims running output\n\
            p2 claims running output\n\
            stage 1\n\
            dispute 1 p1 p2\n\
            round 1 in 0 8 by 4 keep 1\n\
            round 2 in 0 2 by 2 p1 faulty p2 given\n\
            accept running output\n",
    },
    Row {
        players: &[Honest, LiarSilentFrom2],
        bound: 8,
        fan: 3,
        patience: 0,
        wrong: None,
        accepted: 1,
        lines: "\
            p1 claims running output\n\
            p2 claims running output\n\
            stage 1\n\
            dispute 1 p1 p2\n\
            round 1 in 0 8 by 3 keep 1\n\
            round 2 in 0 2 by 2 p1 given p2 spent\n\
            accept running output\n",
    },
];

/// These rows as a value.
fn parts() -> [Row; 6] {
    PARTS
}

#[test]
fn each_round_of_several_parts_has_its_line(rt: HostRuntime) -> Result<(), Fail> {
    let other = first_other(&rt, rt.alloc(), &parts())?;
    assert!(rt; other.is_none(), "{other:?}");
    Ok(())
}

/// In a match with deposits the balances of the provers and the pool are written before the verdict.
const BALANCES: [(Row, Funds); 2] = [
    (
        Row {
            players: &[Honest, Liar],
            bound: 8,
            fan: 4,
            patience: 0,
            wrong: None,
            accepted: 1,
            lines: "\
                p1 claims running output\n\
                p2 claims running output\n\
                stage 1\n\
                dispute 1 p1 p2\n\
                round 1 in 0 8 by 4 keep 1\n\
                round 2 in 0 2 by 2 keep 2\n\
                step 1 p1 proved p2 refuted\n\
                balance p1 20\n\
                balance p2 0\n\
                pool 0\n\
                accept running output\n",
        },
        Funds {
            of: &[20, 0],
            pool: 0,
        },
    ),
    (
        Row {
            players: &[Silent, Silent],
            bound: 8,
            fan: 2,
            patience: 0,
            wrong: None,
            accepted: 0,
            lines: "\
                out p1 spent\n\
                out p2 spent\n\
                balance p1 0\n\
                balance p2 1000000000\n\
                pool 18446744073709551615\n\
                none left\n",
        },
        Funds {
            of: &[0, 1_000_000_000],
            pool: 18_446_744_073_709_551_615,
        },
    ),
];

/// These rows as a value.
fn balances() -> [(Row, Funds); 2] {
    BALANCES
}

/// The first row whose match with deposits has another report.
fn first_other_balances<R: Threads + Sync>(
    rt: &R,
    alloc: Global,
    rows: &[(Row, Funds)],
) -> Result<Option<Other>, Memory>
    requires { IsSync R.row }
{
    for (place, (row, funds)) in rows.iter().enumerate() {
        let other = other_report(rt, alloc, row, HALVES.order, Some(*funds), place)?;
        if other.is_some() {
            return Ok(other);
        }
    }
    Ok(None)
}

#[test]
fn balances_stand_before_the_verdict(rt: HostRuntime) -> Result<(), Fail> {
    let other = first_other_balances(&rt, rt.alloc(), &balances())?;
    assert!(rt; other.is_none(), "{other:?}");
    Ok(())
}
