//! Disputes of two players, played to their end.
use bisect_game::{Close, Dispute, Room, Round, Settled, Side};
use rd_base::{Answer, Memory};
use std::alloc::Global;
use toy_game::{Player, ToyJudge, given, number_at, passes_now, root};

/// The most rounds below a bound of 2^32, with the proof round.
const MOST_ROUNDS: u64 = 33;

/// How a dispute ended, without its strings.
#[derive(Clone, Copy, Debug, PartialEq, Eq)]
pub(crate) enum Ended {
    Open,
    Out(bool, bool),
    Collided,
}

/// A past round.
#[derive(Clone, Copy, Debug, PartialEq, Eq)]
pub(crate) struct PastRound {
    /// The ends of its interval.
    pub lo: u64,
    pub hi: u64,
    /// The number of each side's root at the last cut.
    pub roots: [u8; 2],
}

/// What comes of a dispute.
#[derive(Debug, Drop)]
pub(crate) struct Outcome {
    pub number: u32,
    pub rounds: Vec<PastRound>,
    /// The ends of its last interval.
    pub lo: u64,
    pub hi: u64,
    pub end: Ended,
}

/// A side settles its open question, if it has one, with a patience of 0.
fn move_side(
    alloc: Global,
    dispute: &mut Dispute,
    side: Side,
    player: &Player,
) -> Result<(), Memory> {
    let Some(question) = dispute.question(side) else {
        return Ok(());
    };
    let settled = if passes_now(player, &question, 0) {
        Settled::Spent
    } else {
        Settled::Given(given(alloc, player, question.kind)?)
    };
    dispute.settle(&ToyJudge { name: 0 }, side, settled);
    Ok(())
}

/// The number of the last root that a side gave, or 255 if it gave none.
fn last_number(settled: &Settled) -> u8 {
    match settled {
        Settled::Given(Answer::Root(root)) => root.0[0],
        Settled::Given(Answer::Roots(roots)) => match roots.as_slice().last() {
            Some(root) => root.0[0],
            None => 255,
        },
        _ => 255,
    }
}

/// A past round in short.
fn past(round: &Round) -> PastRound {
    PastRound {
        lo: round.lo,
        hi: round.hi,
        roots: [last_number(&round.first), last_number(&round.second)],
    }
}

/// What has come of a dispute.
fn in_short(alloc: Global, dispute: &Dispute) -> Result<Outcome, Memory> {
    let mut rounds = Vec::new(alloc);
    for round in dispute.rounds() {
        rounds.push(past(round))?;
    }
    let end = match dispute.closed() {
        None => Ended::Open,
        Some(Close::Out { first, second }) => Ended::Out(first, second),
        Some(Close::Collision(_, _)) => Ended::Collided,
    };
    Ok(Outcome {
        number: dispute.number(),
        rounds,
        lo: dispute.interval().lo,
        hi: dispute.interval().hi,
        end,
    })
}

/// What comes of dispute 7 over `bound` steps, of which a round cuts its interval in `fan` parts. If bit k of `order` is set, the second
/// side settles first in round k, counted from 0. `None` if no dispute has such numbers.
pub(crate) fn played(
    alloc: Global,
    bound: u64,
    fan: u32,
    sides: (Player, Player),
    order: u64,
) -> Result<Option<Outcome>, Memory> {
    if bound == 0 || bound > 4_294_967_295 || fan < 2 || fan > 16 {
        return Ok(None);
    }
    let first = (3, root(number_at(&sides.0, bound)));
    let second = (5, root(number_at(&sides.1, bound)));
    let room = Room::new(alloc, bound, fan)?;
    let dispute = Dispute::new(room, 1, 7, root(0), first, second);
    let mut dispute = Box::new(alloc, dispute)?;
    for turn in 0..2 * MOST_ROUNDS {
        if ((order >> (turn / 2)) ^ turn) & 1 == 0 {
            move_side(alloc, &mut dispute, Side::First, &sides.0)?;
        } else {
            move_side(alloc, &mut dispute, Side::Second, &sides.1)?;
        }
    }
    Ok(Some(in_short(alloc, &dispute)?))
}
