//! Boards of two tasks whose moves come in every order.
ghost use Rattle.std.specs.Prelude.{◌≡◌, ◌<◌, ◌≤◌};
ghost use Rattle.toy_game.specs.Toy.{answers, says_of};
ghost use Rattle.test_boards.specs.Casts.{cast_at};
ghost use Rattle.posters.specs.Serving.{staying_part_of};
ghost use Rattle.test_boards.specs.TaskSeats.{IsSeatOfTasks};

use crate::casts::{Account, books_of, cast_of};
use crate::in_short::{A_LIE_FOUND, Short};
use bisect_game::Answerer;
use board_book::Ask;
use dispute_board::{TaskBoard, TaskSeat, what_is_said_may_be_posted};
use posters::OpenGate;
use rd_base::Memory;
use std::alloc::Global;
use std::sync::Wait;
use std::test::Fail;
use std::thread::Threads;
use tournament::move_of;
use toy_game::in_short::{Ended, LATE};
use toy_game::{Cast, HONEST, LIAR, Player, SILENT, Seated, ToyJudge};

type ToyTasks = TaskBoard<ToyJudge, Cast>;

type ToySeat = TaskSeat<ToyJudge, Cast>;

/// The player that is prover `p` of task `t`.
pub(crate) fn player_at(first: &Cast, second: &Cast, t: u32, p: u32) -> Player
    requires some { 0 < p }
    requires few { p ≤ 2 }
    ensures { answers result ≡ says_of (cast_at first.now second.now t).players p }
{
    if t == 1 {
        first.players[p as usize - 1]
    } else {
        second.players[p as usize - 1]
    }
}

/// Asks prover `p` of task `t`, and posts what its player answers to that. The receipt comes back, if there is one.
fn serve<R: Threads + Wait + Sync>(
    rt: &R,
    alloc: Global,
    board: &ToyTasks,
    seat: &mut ToySeat,
    casts: (Cast, Cast),
    t: u32,
    p: u32,
) -> Result<Option<u64>, Memory>
    requires seat { IsSeatOfTasks board.now casts.0 casts.1 seat.old }
    requires task { (0 < t) × (t ≤ 2) }
    requires prover { (0 < p) × (p ≤ 2) }
    ensures seat { IsSeatOfTasks board.now casts.0 casts.1 seat.new }
    ensures same { staying_part_of seat.new ≡ staying_part_of seat.old }
{
    what_is_said_may_be_posted();
    match board.ask(rt, seat, t, p) {
        Ask::Question(question, passes) => {
            let player = player_at(&casts.0, &casts.1, t, p);
            let answer = Seated { player, alloc }.answer(rt, &question, passes)?;
            let posted = board.post(rt, seat, t, p, question.qid, move_of(answer));
            Ok(posted.receipt)
        }
        _ => Ok(None),
    }
}

/// Plays two tasks, in each of which the two provers move by turns. The first task moves at the turns whose bit is set in `order`. What
/// comes back is whether each post had the next place in the journal of both as its receipt.
fn play_in_order<R: Threads + Wait + Sync>(
    rt: &R,
    alloc: Global,
    board: &ToyTasks,
    seat: &mut ToySeat,
    casts: (Cast, Cast),
    order: u32,
) -> Result<bool, Memory>
    requires seat { IsSeatOfTasks board.now casts.0 casts.1 seat.old }
    ensures seat { IsSeatOfTasks board.now casts.0 casts.1 seat.new }
    ensures same { staying_part_of seat.new ≡ staying_part_of seat.old }
{
    let mut moves: [u32; 2] = [0, 0];
    let mut are_next = true;
    for turn in 0..14u32 {
        let task = 1 - (order >> turn) % 2;
        let p = 1 + moves[task as usize] % 2;
        moves[task as usize] = moves[task as usize].wrapping_add(1);
        let receipt = serve(rt, alloc, board, seat, casts, task + 1, p)?;
        are_next = are_next && receipt == Some(u64::from(turn));
    }
    Ok(are_next)
}

/// Whether two tasks whose moves come in this order give this account, and each post the next place in the journal of both as its receipt.
fn are_as_alone<R: Threads + Wait + Sync>(
    rt: &R,
    alloc: Global,
    casts: (Cast, Cast),
    wanted: &Account,
    order: u32,
) -> Result<bool, Memory>
    requires one { casts.0.count ≡ 2 }
    requires two { casts.1.count ≡ 2 }
{
    let mut account = Account::new(alloc);
    let (board, mut seat) = TaskBoard::new(alloc, books_of(alloc, &[casts.0, casts.1])?)?;
    let are_next = play_in_order(rt, alloc, &board, &mut seat, casts, order);
    let books = board.into_books(seat);
    let added = account.add(&books);
    drop(books);
    added?;
    Ok(
        are_next?
            && account.shorts.as_slice() == wanted.shorts.as_slice()
            && account.told.as_slice() == wanted.told.as_slice(),
    )
}

/// Every order of the four moves of one task and the ten of another, 1,001 in all, gives each task the entries and the end of its single
/// match.
#[test]
fn every_interleaving_of_two_tasks(rt: HostRuntime) -> Result<(), Fail> {
    let first = cast_of([LATE, SILENT, SILENT], 2);
    let second = cast_of([HONEST, LIAR, SILENT], 2);
    let mut wanted = Account::new(rt.alloc());
    wanted.add_played(&rt, rt.alloc(), &[first], 1, &OpenGate)?;
    wanted.add_played(&rt, rt.alloc(), &[second], 1, &OpenGate)?;
    let mut orders: u32 = 0;
    for order in 0..16_384u32 {
        if order.count_ones() == 4 {
            let right = are_as_alone(&rt, rt.alloc(), (first, second), &wanted, order)?;
            assert!(rt; right, "{order}");
            orders = orders.wrapping_add(1);
        }
    }
    let undisputed = Short {
        entries: 4,
        end: Ended::Accepted(1),
        disputes: [None; 3],
    };
    let ends = [undisputed, A_LIE_FOUND];
    let are_ends = wanted.shorts.as_slice() == ends.as_slice();
    assert!(rt; are_ends && orders == 1001);
    Ok(())
}
