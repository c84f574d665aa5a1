//! Tests of the board of one task.
ghost use Rattle.std.specs.Prelude.{◌≡◌, ◌<◌, ◌≤◌, IfOk};
ghost use Rattle.posters.specs.Serving.{staying_part_of};
ghost use Rattle.test_boards.specs.Seats.{IsSeatOfTwo};

use crate::casts::{book_of, cast_of};
use crate::task_boards_test::player_at;
use bisect_game::{Answerer, Question};
use dispute_board::{Board, Seat};
use rd_base::Memory;
use std::alloc::Global;
use std::sync::Wait;
use std::test::Fail;
use std::thread::Threads;
use tournament::move_of;
use toy_game::in_short::{Asked, CLAIM, Replied, ask_in_short, reply_in_short};
use toy_game::{Cast, HONEST, Player, SILENT, Seated, ToyJudge};

type ToyBoard = Board<ToyJudge, Cast>;

type ToySeat = Seat<ToyJudge, Cast>;

/// How a prover posts.
#[derive(Clone, Copy)]
enum How {
    /// It is asked before.
    Asked,
    /// It is asked before, and both are done at a seat that is split off and joined in again.
    Aside,
    /// It isn't asked.
    Unasked,
}

/// A prover posts what it says to the question for its claim after this many passes.
#[derive(Clone, Copy)]
struct Act {
    prover: u32,
    passes: u32,
    how: How,
}

/// What comes of an act.
#[derive(Clone, Copy, Debug, PartialEq, Eq)]
struct Turn {
    /// What the prover is asked, if it is.
    asked: Option<Asked>,
    /// How its post is answered then.
    replied: Replied,
    /// The place of its entry.
    receipt: Option<u64>,
}

/// Posts what one of two provers says to the question for its claim after this many passes.
#[tactic(auto, using(crate::proofs::ClaimLemmas::has_prover))]
fn post_alone<R: Threads + Wait + Sync>(
    rt: &R,
    alloc: Global,
    board: &ToyBoard,
    seat: &mut ToySeat,
    cast: Cast,
    p: u32,
    passes: u32,
) -> Result<Turn, Memory>
    requires seat { IsSeatOfTwo board.now cast seat.old }
    requires some { 0 < p }
    requires few { p ≤ 2 }
    ensures seat { IsSeatOfTwo board.now cast seat.new }
    ensures same { staying_part_of seat.new ≡ staying_part_of seat.old }
{
    let player = player_at(&cast, &cast, 1, p);
    let answer = Seated { player, alloc }.answer(rt, &Question::claim(), passes)?;
    let posted = board.post(rt, seat, p, CLAIM, move_of(answer));
    Ok(Turn {
        asked: None,
        replied: reply_in_short(posted.reply),
        receipt: posted.receipt,
    })
}

/// Asks one of two provers, and posts what it says to the question for its claim after this many passes.
#[tactic(auto, using(crate::proofs::ClaimLemmas::has_prover))]
fn ask_and_post<R: Threads + Wait + Sync>(
    rt: &R,
    alloc: Global,
    board: &ToyBoard,
    seat: &mut ToySeat,
    cast: Cast,
    p: u32,
    passes: u32,
) -> Result<Turn, Memory>
    requires seat { IsSeatOfTwo board.now cast seat.old }
    requires some { 0 < p }
    requires few { p ≤ 2 }
    ensures seat { IsSeatOfTwo board.now cast seat.new }
    ensures same { staying_part_of seat.new ≡ staying_part_of seat.old }
{
    let asked = Some(ask_in_short(board.ask(rt, seat, p)));
    let turn = post_alone(rt, alloc, board, seat, cast, p, passes)?;
    Ok(Turn { asked, ..turn })
}

/// What comes of these acts, one after another.
fn done<R: Threads + Wait + Sync>(
    rt: &R,
    alloc: Global,
    board: &ToyBoard,
    seat: &mut ToySeat,
    cast: Cast,
    acts: &[Act],
) -> Result<Vec<Turn>, Memory>
    requires seat { IsSeatOfTwo board.now cast seat.old }
    requires first { (seat.old.number ≡ 0) × (seat.old.out ≡ 0) }
    ensures seat { IsSeatOfTwo board.now cast seat.new }
    ensures first { (seat.new.number ≡ 0) × (seat.new.out ≡ 0) }
{
    let mut turns = Vec::new(alloc);
    for Act {
        prover,
        passes,
        how,
    } in acts {
        let p = 2 - prover % 2;
        match how {
            How::Asked => turns.push(ask_and_post(rt, alloc, board, seat, cast, p, *passes)?)?,
            How::Aside => {
                let mut other = board.split(seat);
                let turn = ask_and_post(rt, alloc, board, &mut other, cast, p, *passes);
                board.join(seat, other);
                turns.push(turn?)?;
            }
            How::Unasked => turns.push(post_alone(rt, alloc, board, seat, cast, p, *passes)?)?,
        }
    }
    Ok(turns)
}

/// What comes of these acts at a new board of two players, and how many entries they leave.
fn played<R: Threads + Wait + Sync>(
    rt: &R,
    alloc: Global,
    cast: Cast,
    patience: u32,
    acts: &[Act],
) -> Result<(Vec<Turn>, usize), Memory>
    requires two { cast.count ≡ 2 }
    requires patience { patience ≤ 100 }
{
    let (board, mut seat) = Board::new(alloc, book_of(alloc, cast, patience)?)?;
    let turns = done(rt, alloc, &board, &mut seat, cast, acts);
    let book = board.into_book(seat);
    let entries = book.journal().len();
    drop(book);
    Ok((turns?, entries))
}

/// Two players with a patience, their acts, what comes of these, and how many entries they leave.
struct Row {
    row: &'static str,
    players: [Player; 3],
    patience: u32,
    acts: &'static [Act],
    turns: &'static [Turn],
    entries: usize,
}

const ROWS: [Row; 4] = [
    // each pass is spent at once and has its place as receipt; a stale one has none
    Row {
        row: "two silent provers without patience",
        players: [SILENT; 3],
        patience: 0,
        acts: &[
            Act {
                prover: 1,
                passes: 0,
                how: How::Asked,
            },
            Act {
                prover: 1,
                passes: 0,
                how: How::Asked,
            },
            Act {
                prover: 2,
                passes: 0,
                how: How::Asked,
            },
            Act {
                prover: 1,
                passes: 0,
                how: How::Asked,
            },
            Act {
                prover: 2,
                passes: 0,
                how: How::Asked,
            },
        ],
        turns: &[
            Turn {
                asked: Some(Asked::Claim(0)),
                replied: Replied::Spent,
                receipt: Some(0),
            },
            Turn {
                asked: Some(Asked::Nothing),
                replied: Replied::Stale(None),
                receipt: None,
            },
            Turn {
                asked: Some(Asked::Claim(0)),
                replied: Replied::Spent,
                receipt: Some(1),
            },
            Turn {
                asked: Some(Asked::Over),
                replied: Replied::Stale(None),
                receipt: None,
            },
            Turn {
                asked: Some(Asked::Over),
                replied: Replied::Stale(None),
                receipt: None,
            },
        ],
        entries: 2,
    },
    // its pass and two claims of two seats are at three places of one journal, its second question shows the pass, and with both claims
    // the match is over
    Row {
        row: "a player that passes once on each question",
        players: [Player { late: 1, ..HONEST }, HONEST, SILENT],
        patience: 1,
        acts: &[
            Act {
                prover: 1,
                passes: 0,
                how: How::Asked,
            },
            Act {
                prover: 2,
                passes: 100,
                how: How::Aside,
            },
            Act {
                prover: 1,
                passes: 100,
                how: How::Asked,
            },
            Act {
                prover: 2,
                passes: 100,
                how: How::Asked,
            },
        ],
        turns: &[
            Turn {
                asked: Some(Asked::Claim(0)),
                replied: Replied::Taken,
                receipt: Some(0),
            },
            Turn {
                asked: Some(Asked::Claim(0)),
                replied: Replied::Taken,
                receipt: Some(1),
            },
            Turn {
                asked: Some(Asked::Claim(1)),
                replied: Replied::Taken,
                receipt: Some(2),
            },
            Turn {
                asked: Some(Asked::Over),
                replied: Replied::Stale(None),
                receipt: None,
            },
        ],
        entries: 3,
    },
    // it is stale with the open question, has no receipt and leaves no entry
    Row {
        row: "a claim that comes a pass too early",
        players: [Player { late: 2, ..HONEST }, HONEST, SILENT],
        patience: 2,
        acts: &[
            Act {
                prover: 1,
                passes: 0,
                how: How::Asked,
            },
            Act {
                prover: 1,
                passes: 100,
                how: How::Asked,
            },
        ],
        turns: &[
            Turn {
                asked: Some(Asked::Claim(0)),
                replied: Replied::Taken,
                receipt: Some(0),
            },
            Turn {
                asked: Some(Asked::Claim(1)),
                replied: Replied::Stale(Some(CLAIM)),
                receipt: None,
            },
        ],
        entries: 1,
    },
    // it is taken, as the first entry, and with the other claim the match is over
    Row {
        row: "a claim at a board at which nobody was asked",
        players: [HONEST, HONEST, SILENT],
        patience: 0,
        acts: &[
            Act {
                prover: 1,
                passes: 0,
                how: How::Unasked,
            },
            Act {
                prover: 2,
                passes: 0,
                how: How::Asked,
            },
        ],
        turns: &[
            Turn {
                asked: None,
                replied: Replied::Taken,
                receipt: Some(0),
            },
            Turn {
                asked: Some(Asked::Claim(0)),
                replied: Replied::Taken,
                receipt: Some(1),
            },
        ],
        entries: 2,
    },
];

/// Posts that aren't stale have their places as receipts, whichever seat posts them, and whether or not it asked before.
#[test]
fn posts_have_their_places_as_receipts_unless_they_are_stale(rt: HostRuntime) -> Result<(), Fail> {
    for row in &ROWS {
        assert!(rt; row.patience <= 100);
        let cast = cast_of(row.players, 2);
        let (turns, entries) = played(&rt, rt.alloc(), cast, row.patience, row.acts)?;
        assert!(rt;
            turns.as_slice() == row.turns && entries == row.entries,
            "{}: {turns:?}, {entries} entries",
            row.row
        );
    }
    Ok(())
}
