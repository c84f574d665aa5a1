//! Tests of disputes by bisection, with rounds of two parts and of several.
use crate::dispute_play::{Ended, Outcome, PastRound, played};
use crate::players::{FALLS_SILENT, FORGER, LIAR_FALLS_SILENT};
use bisect_game::{Kind, cut};
use rd_base::{Memory, Qid};
use std::alloc::Global;
use std::test::Fail;
use tournament::{Match, Move};
use toy_game::in_short::{CLAIM, Replied, reply_in_short};
use toy_game::{HONEST, LIAR, Player, ToyJudge, given, number_at, root};

/// Cuts by hand: `lo + floor(j * (hi - lo) / parts)`.
#[test]
fn cuts_by_hand(rt: HostRuntime) {
    // the ends of the interval, its parts, the number of the cut, and the step
    for (lo, hi, parts, j, wanted) in [
        (0, 8, 2, 0, 0),
        (0, 7, 2, 1, 3),
        (10, 12, 2, 1, 11),
        (0, 8, 4, 1, 2),
        (0, 7, 3, 1, 2),
        (0, 7, 3, 2, 4),
        (4, 7, 3, 1, 5),
        (5, 21, 16, 15, 20),
        (5, 21, 16, 16, 21),
        (0, 4_294_967_295, 16, 1, 268_435_455),
        (0, u64::MAX, 16, 15, 17_293_822_569_102_704_639),
        (3, u64::MAX, 15, 15, u64::MAX),
    ] {
        assert!(rt;
            parts >= 2 && parts <= 16 && j <= parts && u64::from(parts) <= hi.saturating_sub(lo)
        );
        assert_eq!(rt; cut(lo, hi, parts, j), wanted, "{lo} {hi} {parts} {j}");
    }
}

/// The past rounds of a dispute: each of them, or how many there are.
#[derive(Clone, Copy, Debug)]
enum Rounds {
    Are(&'static [PastRound]),
    Many(usize),
}

/// A dispute over so many steps, of which a round cuts its interval in so many parts.
#[derive(Clone, Copy, Debug)]
struct Row {
    bound: u64,
    fan: u32,
    sides: (Player, Player),
    rounds: Rounds,
    /// The step of its last interval.
    step: u64,
    end: Ended,
}

/// A player that lies from this step on.
macro_rules! liar {
    ($from:expr) => {
        Player {
            from: $from,
            ..LIAR
        }
    };
}

const SECOND_OUT: Ended = Ended::Out(false, true);

/// By hand: cuts are at `lo + floor(j * (hi - lo) / parts)`, and of an interval of fewer steps than the fan each step is a part. The first
/// part at whose end the roots differ is kept, or the last one. There is no round over one step; in rounds of two parts with the first
/// difference at step 1 the halves are rounded down, at the last step up. The root of `HONEST` has the number of its step, or 6 if that is
/// less; from the step on at which a liar lies its root has the step plus 100, modulo 256.
const DISPUTES: [Row; 20] = [
    Row {
        bound: 8,
        fan: 2,
        sides: (HONEST, LIAR),
        rounds: Rounds::Are(&[
            PastRound {
                lo: 0,
                hi: 8,
                roots: [4, 104],
            },
            PastRound {
                lo: 0,
                hi: 4,
                roots: [2, 102],
            },
            PastRound {
                lo: 0,
                hi: 2,
                roots: [1, 1],
            },
        ]),
        step: 1,
        end: SECOND_OUT,
    },
    Row {
        bound: 1,
        fan: 2,
        sides: (HONEST, liar!(1)),
        rounds: Rounds::Are(&[]),
        step: 0,
        end: SECOND_OUT,
    },
    Row {
        bound: 7,
        fan: 2,
        sides: (HONEST, liar!(7)),
        rounds: Rounds::Are(&[
            PastRound {
                lo: 0,
                hi: 7,
                roots: [3, 3],
            },
            PastRound {
                lo: 3,
                hi: 7,
                roots: [5, 5],
            },
            PastRound {
                lo: 5,
                hi: 7,
                roots: [6, 6],
            },
        ]),
        step: 6,
        end: SECOND_OUT,
    },
    Row {
        bound: 8,
        fan: 2,
        sides: (FALLS_SILENT, LIAR_FALLS_SILENT),
        rounds: Rounds::Are(&[PastRound {
            lo: 0,
            hi: 8,
            roots: [4, 104],
        }]),
        step: 0,
        end: Ended::Out(true, true),
    },
    Row {
        bound: 1,
        fan: 2,
        sides: (HONEST, FORGER),
        rounds: Rounds::Are(&[]),
        step: 0,
        end: Ended::Collided,
    },
    Row {
        bound: 8,
        fan: 4,
        sides: (HONEST, liar!(2)),
        rounds: Rounds::Are(&[
            PastRound {
                lo: 0,
                hi: 8,
                roots: [6, 106],
            },
            PastRound {
                lo: 0,
                hi: 2,
                roots: [1, 1],
            },
        ]),
        step: 1,
        end: SECOND_OUT,
    },
    Row {
        bound: 7,
        fan: 3,
        sides: (HONEST, liar!(7)),
        rounds: Rounds::Are(&[
            PastRound {
                lo: 0,
                hi: 7,
                roots: [4, 4],
            },
            PastRound {
                lo: 4,
                hi: 7,
                roots: [6, 6],
            },
        ]),
        step: 6,
        end: SECOND_OUT,
    },
    Row {
        bound: 8,
        fan: 4,
        sides: (HONEST, liar!(1)),
        rounds: Rounds::Are(&[
            PastRound {
                lo: 0,
                hi: 8,
                roots: [6, 106],
            },
            PastRound {
                lo: 0,
                hi: 2,
                roots: [1, 101],
            },
        ]),
        step: 0,
        end: SECOND_OUT,
    },
    Row {
        bound: 17,
        fan: 16,
        sides: (HONEST, liar!(9)),
        rounds: Rounds::Are(&[PastRound {
            lo: 0,
            hi: 17,
            roots: [6, 115],
        }]),
        step: 8,
        end: SECOND_OUT,
    },
    Row {
        bound: 16,
        fan: 3,
        sides: (HONEST, liar!(16)),
        rounds: Rounds::Are(&[
            PastRound {
                lo: 0,
                hi: 16,
                roots: [6, 6],
            },
            PastRound {
                lo: 10,
                hi: 16,
                roots: [6, 6],
            },
            PastRound {
                lo: 14,
                hi: 16,
                roots: [6, 6],
            },
        ]),
        step: 15,
        end: SECOND_OUT,
    },
    Row {
        bound: 1,
        fan: 16,
        sides: (HONEST, liar!(1)),
        rounds: Rounds::Are(&[]),
        step: 0,
        end: SECOND_OUT,
    },
    Row {
        bound: 4_294_967_295,
        fan: 16,
        sides: (HONEST, liar!(2)),
        rounds: Rounds::Are(&[
            PastRound {
                lo: 0,
                hi: 4_294_967_295,
                roots: [6, 99],
            },
            PastRound {
                lo: 0,
                hi: 268_435_455,
                roots: [6, 99],
            },
            PastRound {
                lo: 0,
                hi: 16_777_215,
                roots: [6, 99],
            },
            PastRound {
                lo: 0,
                hi: 1_048_575,
                roots: [6, 99],
            },
            PastRound {
                lo: 0,
                hi: 65_535,
                roots: [6, 99],
            },
            PastRound {
                lo: 0,
                hi: 4_095,
                roots: [6, 99],
            },
            PastRound {
                lo: 0,
                hi: 255,
                roots: [6, 83],
            },
            PastRound {
                lo: 0,
                hi: 15,
                roots: [6, 114],
            },
        ]),
        step: 1,
        end: SECOND_OUT,
    },
    Row {
        bound: 2,
        fan: 2,
        sides: (HONEST, liar!(1)),
        rounds: Rounds::Many(1),
        step: 0,
        end: SECOND_OUT,
    },
    Row {
        bound: 2,
        fan: 2,
        sides: (HONEST, liar!(2)),
        rounds: Rounds::Many(1),
        step: 1,
        end: SECOND_OUT,
    },
    Row {
        bound: 3,
        fan: 2,
        sides: (HONEST, liar!(1)),
        rounds: Rounds::Many(1),
        step: 0,
        end: SECOND_OUT,
    },
    Row {
        bound: 3,
        fan: 2,
        sides: (HONEST, liar!(3)),
        rounds: Rounds::Many(2),
        step: 2,
        end: SECOND_OUT,
    },
    Row {
        bound: 16_777_216,
        fan: 2,
        sides: (HONEST, liar!(1)),
        rounds: Rounds::Many(24),
        step: 0,
        end: SECOND_OUT,
    },
    Row {
        bound: 16_777_216,
        fan: 2,
        sides: (HONEST, liar!(16_777_216)),
        rounds: Rounds::Many(24),
        step: 16_777_215,
        end: SECOND_OUT,
    },
    Row {
        bound: 4_294_967_295,
        fan: 2,
        sides: (HONEST, liar!(1)),
        rounds: Rounds::Many(31),
        step: 0,
        end: SECOND_OUT,
    },
    // at the last step of the largest bound the root of `HONEST` isn't the true one either
    Row {
        bound: 4_294_967_295,
        fan: 2,
        sides: (HONEST, liar!(4_294_967_295)),
        rounds: Rounds::Many(32),
        step: 4_294_967_294,
        end: Ended::Out(true, true),
    },
];

/// Whether this comes of the dispute of a row.
fn is_outcome(row: &Row, played: &Outcome) -> bool {
    let are_rounds = match row.rounds {
        Rounds::Are(rounds) => played.rounds.as_slice() == rounds,
        Rounds::Many(count) => played.rounds.len() == count,
    };
    are_rounds && played.lo == row.step && played.end == row.end && played.number == 7
}

/// What comes of the dispute of a row in this order, if it is something else.
fn other_outcome(alloc: Global, row: &Row, order: u64) -> Result<Option<Outcome>, Memory> {
    let Some(played) = played(alloc, row.bound, row.fan, row.sides, order)? else {
        return Err(Memory);
    };
    if is_outcome(row, &played) {
        return Ok(None);
    }
    Ok(Some(played))
}

#[test]
fn disputes_are_played_round_by_round_in_either_order(rt: HostRuntime) -> Result<(), Fail> {
    for row in &DISPUTES {
        for order in [0, u64::MAX] {
            let other = other_outcome(rt.alloc(), row, order)?;
            assert!(rt; other.is_none(), "{row:?}: {other:?}");
        }
    }
    Ok(())
}

/// The last step up to which two players have one run, looked for step by step.
fn parting(bound: u64, sides: (Player, Player)) -> u64 {
    for step in 0..bound {
        if number_at(&sides.0, step + 1) != number_at(&sides.1, step + 1) {
            return step;
        }
    }
    bound
}

/// Whether `fan^rounds < fan * bound`.
fn are_few(fan: u32, bound: u64, rounds: usize) -> bool {
    let mut power: u64 = 1;
    for _ in 0..rounds {
        power = power.saturating_mul(u64::from(fan));
    }
    power < u64::from(fan).saturating_mul(bound)
}

/// In which rounds the second side settles first: in none, in each, and in some.
const ORDERS: [u64; 4] = [0, u64::MAX, 0x9e37_79b9_7f4a_7c15, 0x5a5a_3c96_0ff0_1235];

/// Whether a dispute ends so, after few rounds and at a step where the runs of the sides part; of a short one, where they part first.
fn ends_at_a_parting(
    alloc: Global,
    bound: u64,
    fan: u32,
    sides: (Player, Player),
    order: u64,
    end: Ended,
) -> Result<bool, Memory> {
    let Some(played) = played(alloc, bound, fan, sides, order)? else {
        return Ok(false);
    };
    let (lo, hi) = (played.lo, played.hi);
    Ok(
        hi.wrapping_sub(lo) == 1
            && number_at(&sides.0, lo) == number_at(&sides.1, lo)
            && number_at(&sides.0, hi) != number_at(&sides.1, hi)
            && (bound > 17 || lo == parting(bound, sides))
            && are_few(fan, bound, played.rounds.len())
            && played.end == end,
    )
}

/// Whether each dispute between two of a truthful player and two liars whose runs part at this step ends as it must, in each order: with
/// the liars out.
fn all_end_at_a_parting(alloc: Global, bound: u64, fan: u32, from: u64) -> Result<bool, Memory> {
    // true at the last step of the largest bound too
    let honest = Player {
        from: u64::MAX,
        ..HONEST
    };
    let liar = liar!(from);
    let other = Player { shift: 50, ..liar };
    for order in ORDERS {
        for (sides, end) in [
            ((honest, liar), SECOND_OUT),
            ((liar, honest), Ended::Out(true, false)),
            ((liar, other), Ended::Out(true, true)),
        ] {
            if !ends_at_a_parting(alloc, bound, fan, sides, order, end)? {
                return Ok(false);
            }
        }
    }
    Ok(true)
}

/// Whatever the fan, the step is found at which two runs part, for each such step of a small bound and for some of the largest.
#[test]
fn the_step_where_two_runs_part_is_found(rt: HostRuntime) -> Result<(), Fail> {
    for fan in [2, 3, 4, 16] {
        for bound in [1, 2, 3, 15, 16, 17, 4_294_967_295] {
            for from in [
                1,
                2,
                3,
                4,
                5,
                6,
                7,
                8,
                9,
                10,
                11,
                12,
                13,
                14,
                15,
                16,
                17,
                268_435_456,
                2_147_483_648,
                4_294_967_295,
            ] {
                let is_right = from > bound || all_end_at_a_parting(rt.alloc(), bound, fan, from)?;
                assert!(rt; is_right, "{fan} {bound} {from}");
            }
        }
    }
    Ok(())
}

/// How the answer of a truthful player to a question of this kind is taken if the roots at the cuts of 8 steps in 4 parts are asked.
fn reply_to(alloc: Global, kind: Kind) -> Result<Replied, Memory> {
    let first = Qid {
        dispute: 1,
        round: 1,
    };
    let claim = given(alloc, &HONEST, Kind::Claim)?;
    let lie = given(alloc, &LIAR, Kind::Claim)?;
    let answer = given(alloc, &HONEST, kind)?;
    let mut game = Match::new(alloc, ToyJudge { name: 0 }, 2, 8, 4, 0, root(0))?;
    game.post(1, CLAIM, Move::Give(claim));
    game.post(2, CLAIM, Move::Give(lie));
    let reply = game.post(1, first, Move::Give(answer));
    drop(game);
    Ok(reply_in_short(reply))
}

/// Three roots are asked: three are taken, and two, four, one alone and an answer of another kind are faulty.
#[test]
fn a_list_of_another_length_is_faulty(rt: HostRuntime) -> Result<(), Fail> {
    for (kind, wanted) in [
        (
            Kind::Roots {
                lo: 0,
                hi: 8,
                parts: 4,
            },
            Replied::Taken,
        ),
        (
            Kind::Roots {
                lo: 0,
                hi: 8,
                parts: 3,
            },
            Replied::Faulty,
        ),
        (
            Kind::Roots {
                lo: 0,
                hi: 8,
                parts: 5,
            },
            Replied::Faulty,
        ),
        (Kind::Root(2), Replied::Faulty),
        (Kind::Proof(0), Replied::Faulty),
        (Kind::Claim, Replied::Faulty),
    ] {
        assert_eq!(rt; reply_to(rt.alloc(), kind)?, wanted, "{kind:?}");
    }
    Ok(())
}
