//! Tests of the book of one match.
ghost use denote.Param.Send.{IsSync};
ghost use Rattle.std.specs.Prelude.{◌≡◌, ◌<◌, ◌≤◌};

use crate::casts::{ToyBook, book_of, cast_of};
use crate::in_short::{Short, THE_MATCH, in_short};
use board_book::{Ask, Book};
use rd_base::Memory;
use std::alloc::Global;
use std::test::Fail;
use std::thread::Threads;
use tournament::Move;
use toy_game::in_short::{
    Asked, CLAIM, Ended, LATE, Replied, SILENT_LIAR, ask_in_short, reply_in_short,
};
use toy_game::{Cast, HONEST, LIAR, SILENT, Seated, ToyJudge, root};

/// What a book shows in the end.
#[derive(Clone, Copy, Debug, PartialEq, Eq)]
struct Shown {
    /// The room that is left.
    spare: u64,
    short: Short,
}

fn show(book: ToyBook) -> Shown {
    let shown = Shown {
        spare: book.spare(),
        short: in_short(&book),
    };
    drop(book);
    shown
}

/// What comes of a book that is played out by one thread.
#[derive(Clone, Copy, Debug, PartialEq, Eq)]
struct Alone {
    /// The room that it had at its opening.
    room: u64,
    /// What the first prover is asked at its end.
    ask: Asked,
    /// What it shows then.
    shown: Shown,
}

/// What comes of the book of a liar, a late prover and a silent liar.
fn played_alone<R: Threads + Sync>(rt: &R, alloc: Global) -> Result<Alone, Memory>
    requires { IsSync R.row }
{
    let mut players = [SILENT; 16];
    players[0] = LIAR;
    players[1] = LATE;
    players[2] = SILENT_LIAR;
    let mut book = book_of(alloc, Cast { players, count: 3 }, 1)?;
    let room = book.spare();
    let mut answerers = [
        Seated {
            player: LIAR,
            alloc,
        },
        Seated {
            player: LATE,
            alloc,
        },
        Seated {
            player: SILENT_LIAR,
            alloc,
        },
    ];
    let played = book.finish_alone(rt, &mut answerers);
    let ask = ask_in_short(book.ask(1));
    let shown = show(book);
    played?;
    Ok(Alone { room, ask, shown })
}

/// What the largest book of a fan shows at its opening: P = 100, m = 16 and N = 2^32 - 1.
fn largest(alloc: Global, fan: u32) -> Result<Shown, Memory>
    requires parted { 1 < fan }
    requires few_parts { fan ≤ 16 }
{
    let cast = Cast {
        players: [HONEST; 16],
        count: 16,
    };
    let judge = ToyJudge { name: 0 };
    let book = Book::open(alloc, judge, cast, 4_294_967_295, fan, 100, root(0))?;
    Ok(show(book))
}

/// A book is played out by one thread, with an entry for each pass and each answer. It takes its room at opening, the largest book too.
#[test]
fn a_book_with_its_room_is_played_out_alone(rt: HostRuntime) -> Result<(), Fail> {
    // the room is (P + 1) * (m + 2 * (m - 1) * (K + 1)), where K is the greatest k with F^k < F * N: here 3, with P = 1, m = 3 and
    // 2^k < 16; the claims take 1, 2 and 1 entries, the first dispute 4 of p1 and 8 of p2, the second 4 of p2 and 1 + 2 of p3
    let alone = played_alone(&rt, rt.alloc())?;
    let wanted = Alone {
        room: 38,
        ask: Asked::Over,
        shown: Shown {
            spare: 15,
            short: THE_MATCH,
        },
    };
    assert_eq!(rt; alone, wanted);
    // 2^32 < 2^33 - 2, 3^21 = 10,460,353,203 and 3 * N = 12,884,901,885, 4^16 < 4^17 - 4, 16^8 < 16^9 - 16
    for (fan, most_rounds) in [(2, 32), (3, 21), (4, 16), (16, 8)] {
        assert!(rt; fan >= 2 && fan <= 16);
        let shown = largest(rt.alloc(), fan)?;
        let wanted = Shown {
            spare: 101 * (16 + 2 * 15 * (most_rounds + 1)),
            short: Short {
                entries: 0,
                end: Ended::Open,
                disputes: [None; 3],
            },
        };
        assert_eq!(rt; shown, wanted, "{fan}");
    }
    Ok(())
}

/// What comes of a prover's turn.
#[derive(Clone, Copy, Debug, PartialEq, Eq)]
struct Turn {
    /// What it is asked.
    asked: Asked,
    /// What its pass on its claim is answered, if it passes there, or if it has no question while the match isn't over.
    replied: Option<Replied>,
    /// How many entries there are then.
    entries: usize,
}

/// A prover is asked, and passes.
#[tactic(auto, using(crate::proofs::AskLemmas::waits_none, crate::proofs::AskLemmas::nothing_none))]
fn asked_and_passed(book: &mut ToyBook, p: u32) -> Turn
    requires some { 0 < p }
    requires few { p ≤ book.old.opening.setup.provers }
    ensures { book.new.opening ≡ book.old.opening }
{
    let ask = book.ask(p);
    let reply = match ask {
        Ask::Nothing => Some(book.post(p, CLAIM, Move::Pass)),
        Ask::Question(question, _) => {
            if book.waits(p) {
                Some(book.post(p, question.qid, Move::Pass))
            } else {
                None
            }
        }
        Ask::Over => None,
    };
    Turn {
        asked: ask_in_short(ask),
        replied: reply.map(reply_in_short),
        entries: book.journal().len(),
    }
}

/// What comes of two silent provers without patience, who pass one after another.
fn both_pass(alloc: Global) -> Result<([Turn; 5], Ended), Memory> {
    let mut book = book_of(alloc, cast_of([SILENT; 3], 2), 0)?;
    let turns = [
        asked_and_passed(&mut book, 1),
        asked_and_passed(&mut book, 1),
        asked_and_passed(&mut book, 2),
        asked_and_passed(&mut book, 1),
        asked_and_passed(&mut book, 2),
    ];
    Ok((turns, show(book).short.end))
}

/// Two silent provers without patience: each pass is spent at once, and a stale one is not noted.
#[test]
fn silent_provers_are_spent_one_by_one(rt: HostRuntime) -> Result<(), Fail> {
    let wanted = [
        Turn {
            asked: Asked::Claim(0),
            replied: Some(Replied::Spent),
            entries: 1,
        },
        Turn {
            asked: Asked::Nothing,
            replied: Some(Replied::Stale(None)),
            entries: 1,
        },
        Turn {
            asked: Asked::Claim(0),
            replied: Some(Replied::Spent),
            entries: 2,
        },
        Turn {
            asked: Asked::Over,
            replied: None,
            entries: 2,
        },
        Turn {
            asked: Asked::Over,
            replied: None,
            entries: 2,
        },
    ];
    assert_eq!(rt; both_pass(rt.alloc())?, (wanted, Ended::NoneLeft));
    Ok(())
}
