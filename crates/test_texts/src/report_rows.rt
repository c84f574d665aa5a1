//! Rows of matches of the toy game, each with its report.
ghost use denote.Param.Send.{IsSync};

use crate::playing::{Form, HALVES, Terms, Who, Wrong, written};
use deposits::Balances;
use rd_base::{Listed, Memory};
use std::alloc::{AllocError, Global};
use std::thread::Threads;

/// A match, and its report. No row is made of another one: it would hold that one too.
#[derive(Clone, Copy)]
pub(crate) struct Row {
    pub players: &'static [Who],
    pub bound: u64,
    pub fan: u32,
    pub patience: u32,
    /// The round in which prover 1 gives an answer of another kind than asked.
    pub wrong: Option<u32>,
    /// The prover whose claim is accepted; 0 if none is.
    pub accepted: u32,
    /// The report's lines behind its first.
    pub lines: &'static str,
}

/// The balances of provers, and the pool.
#[derive(Clone, Copy)]
pub(crate) struct Funds {
    pub of: &'static [u64],
    pub pool: u64,
}

/// The terms of a row's match, in this order of the players.
fn terms_of(row: &Row, order: &'static [usize]) -> Terms {
    let wrong = match row.wrong {
        Some(round) => Wrong { prover: 1, round },
        None => HALVES.wrong,
    };
    Terms {
        players: row.players,
        order,
        bound: row.bound,
        fan: row.fan,
        patience: row.patience,
        wrong,
    }
}

/// A whole report of a match on these terms: the first line, with the four numbers that differ, and the lines behind it.
fn report_with(alloc: Global, terms: Terms, lines: &str) -> Result<String, AllocError> {
    let provers = terms.players.len();
    let Terms {
        bound,
        fan,
        patience,
        ..
    } = terms;
    format!(in alloc;
        "match provers {provers} bound {bound} patience {patience} version 1 fan {fan} digest sha256\n{lines}"
    )
}

/// The report of a match with these balances, and the prover whose claim is accepted.
fn balanced<R: Threads + Sync>(
    rt: &R,
    alloc: Global,
    terms: Terms,
    balances: Balances,
) -> Result<(Vec<u8>, u32), Memory>
    requires { IsSync R.row }
{
    written(rt, alloc, terms, Form::Report(Some(&balances)))
}

/// The report of a match, with these balances if there are some, and the prover whose claim is accepted.
fn reported<R: Threads + Sync>(
    rt: &R,
    alloc: Global,
    terms: Terms,
    funds: Option<Funds>,
) -> Result<(Vec<u8>, u32), Memory>
    requires { IsSync R.row }
{
    match funds {
        Some(Funds { of, pool }) => {
            let of = Listed::new(of.to_vec(alloc)?);
            balanced(rt, alloc, terms, Balances { of, pool })
        }
        None => written(rt, alloc, terms, Form::Report(None)),
    }
}

/// Whether a text is the report of a match on these terms, with these lines.
fn is_report(alloc: Global, terms: Terms, lines: &str, text: &[u8]) -> Result<bool, AllocError> {
    let want = report_with(alloc, terms, lines)?;
    Ok(text == want.as_bytes())
}

/// A report in the place of another one.
#[derive(Debug, Drop)]
pub(crate) struct Other {
    /// Which row or order has it.
    pub place: usize,
    pub text: String,
    /// The prover whose claim is accepted; 0 if none is.
    pub accepted: u32,
}

/// The report that the match of a row has in the place of its own, if the players move in this order.
pub(crate) fn other_report<R: Threads + Sync>(
    rt: &R,
    alloc: Global,
    row: &Row,
    order: &'static [usize],
    funds: Option<Funds>,
    place: usize,
) -> Result<Option<Other>, Memory>
    requires { IsSync R.row }
{
    let terms = terms_of(row, order);
    let (text, accepted) = reported(rt, alloc, terms, funds)?;
    if is_report(alloc, terms, row.lines, text.as_slice())? && accepted == row.accepted {
        return Ok(None);
    }
    Ok(Some(Other {
        place,
        text: String::from_utf8(text).unwrap_or(String::new(alloc)),
        accepted,
    }))
}

/// The first row whose match has another report, and that report.
pub(crate) fn first_other<R: Threads + Sync>(
    rt: &R,
    alloc: Global,
    rows: &[Row],
) -> Result<Option<Other>, Memory>
    requires { IsSync R.row }
{
    for (place, row) in rows.iter().enumerate() {
        let other = other_report(rt, alloc, row, HALVES.order, None, place)?;
        if other.is_some() {
            return Ok(other);
        }
    }
    Ok(None)
}
