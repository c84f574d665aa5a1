//! Full texts of matches of the toy game, each confirmed by the audit, and texts with changed lines, each refused where it is wrong.
ghost use denote.Param.Send.{IsSync};

use crate::audit_test::Piece::{From, Lines, New, Of};
use crate::playing::Who::{Double, Forger, Honest, Late, LaterLiar, Leaves, Liar, Silent};
use crate::playing::{HALVES, Terms, Who, full_of};
use audit::{Audit, Cause, a_read_text_may_be_audited, audit};
use rd_base::{Memory, OpenText};
use std::alloc::Global;
use std::test::Fail;
use std::thread::Threads;
use tournament::Verdict;
use toy_game::ToyJudge;
use transcript_text::{TextFault, read_full};

/// The finding of the audit of a text.
#[derive(Clone, Copy, Debug, PartialEq, Eq)]
enum Told {
    /// Confirmed: the claim of the prover with this number is accepted.
    Accepts(u32),
    /// Confirmed: nobody is left.
    NobodyLeft,
    /// Confirmed: these strings of one byte collide. `None` is another string.
    Collides(Option<u8>, Option<u8>),
    /// Refused at this line.
    Refused(u64, Cause),
    /// It has a fault of reading.
    Unread,
}

/// The byte of a string that has one.
fn only_byte(string: &OpenText) -> Option<u8> {
    match string.as_slice() {
        [byte] => Some(*byte),
        _ => None,
    }
}

/// A finding in short.
fn in_short(found: Audit) -> Told {
    match found {
        Audit::Confirmed(Verdict::Accept(p)) => Told::Accepts(p),
        Audit::Confirmed(Verdict::NoneLeft) => Told::NobodyLeft,
        Audit::Confirmed(Verdict::Collision(x, y)) => Told::Collides(only_byte(&x), only_byte(&y)),
        Audit::Refused { line, cause } => Told::Refused(line, cause),
    }
}

/// The finding of the audit of bytes before the toy judge.
fn audit_of(alloc: Global, bytes: &[u8]) -> Result<Told, Memory> {
    match read_full(alloc, bytes) {
        Ok(text) => {
            a_read_text_may_be_audited(bytes, &text);
            audit(alloc, &text, ToyJudge { name: 0 }).map(in_short)
        }
        Err(TextFault::Memory) => Err(Memory),
        Err(_) => Ok(Told::Unread),
    }
}

/// The strings that collide in the toy game.
const COLLIDES: Told = Told::Collides(Some(1), Some(2));

/// Who plays a match over 8 steps, and the finding of the audit of its full text.
#[derive(Clone, Copy, Debug)]
struct Played {
    players: &'static [Who],
    fan: u32,
    patience: u32,
    told: Told,
}

/// The last four are of sixteen silent provers, and of rounds in more parts.
const MATCHES: [Played; 14] = [
    Played {
        players: &[Honest],
        fan: 2,
        patience: 0,
        told: Told::Accepts(1),
    },
    Played {
        players: &[Silent],
        fan: 2,
        patience: 0,
        told: Told::NobodyLeft,
    },
    Played {
        players: &[Honest, Honest],
        fan: 2,
        patience: 0,
        told: Told::Accepts(1),
    },
    Played {
        players: &[Liar, Honest],
        fan: 2,
        patience: 0,
        told: Told::Accepts(2),
    },
    Played {
        players: &[Leaves, Honest],
        fan: 2,
        patience: 3,
        told: Told::Accepts(2),
    },
    Played {
        players: &[Silent, Silent],
        fan: 2,
        patience: 1,
        told: Told::NobodyLeft,
    },
    Played {
        players: &[Honest, Forger],
        fan: 2,
        patience: 0,
        told: COLLIDES,
    },
    Played {
        players: &[Double, Honest],
        fan: 2,
        patience: 0,
        told: COLLIDES,
    },
    Played {
        players: &[Liar, Late, Silent],
        fan: 2,
        patience: 2,
        told: Told::Accepts(2),
    },
    Played {
        players: &[Liar, Late, Silent],
        fan: 2,
        patience: 1,
        told: Told::Accepts(1),
    },
    Played {
        players: &[Silent; 16],
        fan: 2,
        patience: 0,
        told: Told::NobodyLeft,
    },
    Played {
        players: &[Honest, Liar],
        fan: 3,
        patience: 0,
        told: Told::Accepts(1),
    },
    Played {
        players: &[Honest, Liar],
        fan: 4,
        patience: 0,
        told: Told::Accepts(1),
    },
    Played {
        players: &[Honest, Liar],
        fan: 16,
        patience: 0,
        told: Told::Accepts(1),
    },
];

/// The matches as a value, of which no caller sees the rows: they would stand in each of its goals.
fn matches() -> &'static [Played] {
    &MATCHES
}

/// The full text of such a match.
fn text_of<R: Threads + Sync>(rt: &R, alloc: Global, played: &Played) -> Result<Vec<u8>, Memory>
    requires { IsSync R.row }
{
    let Played {
        players,
        fan,
        patience,
        ..
    } = *played;
    let terms = Terms {
        players,
        fan,
        patience,
        ..HALVES
    };
    full_of(rt, alloc, terms)
}

/// The finding of the audit of the full text of such a match.
fn found_of<R: Threads + Sync>(rt: &R, alloc: Global, played: &Played) -> Result<Told, Memory>
    requires { IsSync R.row }
{
    let text = text_of(rt, alloc, played)?;
    audit_of(alloc, text.as_slice())
}

/// The first match of whose full text the audit finds something else, with what it finds.
fn first_other_match<R: Threads + Sync>(
    rt: &R,
    alloc: Global,
    matches: &[Played],
) -> Result<Option<Played>, Memory>
    requires { IsSync R.row }
{
    for played in matches {
        let told = found_of(rt, alloc, played)?;
        if told != played.told {
            return Ok(Some(Played { told, ..*played }));
        }
    }
    Ok(None)
}

#[test]
fn the_full_text_of_each_match_is_confirmed(rt: HostRuntime) -> Result<(), Fail> {
    let other = first_other_match(&rt, rt.alloc(), matches())?;
    assert!(rt; other.is_none(), "{other:?}");
    Ok(())
}

/// The matches whose full texts have lines changed, each at the place below.
const TEXTS: [Played; 9] = [
    Played {
        players: &[Honest, Liar],
        fan: 2,
        patience: 0,
        told: Told::Accepts(1),
    },
    Played {
        players: &[Honest, Liar, LaterLiar],
        fan: 2,
        patience: 0,
        told: Told::Accepts(1),
    },
    Played {
        players: &[Honest, Honest],
        fan: 2,
        patience: 0,
        told: Told::Accepts(1),
    },
    Played {
        players: &[Honest, LaterLiar],
        fan: 2,
        patience: 0,
        told: Told::Accepts(1),
    },
    Played {
        players: &[Honest, Liar],
        fan: 3,
        patience: 0,
        told: Told::Accepts(1),
    },
    Played {
        players: &[Honest, Liar],
        fan: 4,
        patience: 0,
        told: Told::Accepts(1),
    },
    Played {
        players: &[Honest, Liar],
        fan: 16,
        patience: 0,
        told: Told::Accepts(1),
    },
    Played {
        players: &[Double, Honest],
        fan: 2,
        patience: 0,
        told: COLLIDES,
    },
    Played {
        players: &[Honest, Forger],
        fan: 2,
        patience: 0,
        told: COLLIDES,
    },
];

const BISECTED: usize = 0;

const DISPUTED: usize = 1;

const AGREED: usize = 2;

const LATER: usize = 3;

const THIRDS: usize = 4;

const QUARTERS: usize = 5;

const SIXTEENTHS: usize = 6;

const TWO_CLAIMS: usize = 7;

const TWO_PROOFS: usize = 8;

/// A piece of a text. Lines and columns count from 1 and from 0.
#[derive(Clone, Copy, Debug)]
enum Piece {
    /// The lines from the first to the second of these.
    Lines(usize, usize),
    /// A line from this column on.
    From(usize, usize),
    /// The lines of another text, which has this place in `TEXTS`, from the first to the second of these.
    Of(usize, usize, usize),
    /// Other bytes.
    New(&'static [u8]),
}

/// Adds the lines of a text from one to another, each from a column on.
fn add_lines(
    bytes: &mut Vec<u8>,
    text: &[u8],
    first: usize,
    last: usize,
    from: usize,
) -> Result<(), Memory> {
    let mut line: usize = 1;
    let mut column: usize = 0;
    for byte in text {
        if first <= line && line <= last && from <= column {
            bytes.push(*byte)?;
        }
        if *byte == b'\n' {
            line = line.saturating_add(1);
            column = 0;
        } else {
            column = column.saturating_add(1);
        }
    }
    Ok(())
}

/// The text of a place; empty if there is none.
fn text_at(texts: &[Vec<u8>], place: usize) -> &[u8] {
    match texts.get(place) {
        Some(text) => text.as_slice(),
        None => &[],
    }
}

/// The pieces of the text of a place, one behind another.
fn joined(
    alloc: Global,
    texts: &[Vec<u8>],
    own: usize,
    pieces: &[Piece],
) -> Result<Vec<u8>, Memory> {
    let mut bytes = Vec::new(alloc);
    let text = text_at(texts, own);
    for piece in pieces {
        match piece {
            Lines(first, last) => add_lines(&mut bytes, text, *first, *last, 0)?,
            From(line, column) => add_lines(&mut bytes, text, *line, *line, *column)?,
            Of(place, first, last) => {
                add_lines(&mut bytes, text_at(texts, *place), *first, *last, 0)?;
            }
            New(other) => bytes.extend_from_slice(other)?,
        }
    }
    Ok(bytes)
}

/// The pieces of a text, and the finding of the audit of these.
#[derive(Clone, Copy, Debug)]
struct Row {
    /// How the text is changed.
    row: &'static str,
    pieces: &'static [Piece],
    told: Told,
}

/// Where the digits of an answer begin in a line with `given`.
const DIGITS: usize = 18;

const OTHER_VERDICT: Told = Told::Refused(12, Cause::OtherVerdict);

const NO_SUCH_STRINGS: Told = Told::Refused(4, Cause::OtherVerdict);

/// Another verdict in place of that of prover 1. The text has twelve lines: the head, two claims, three rounds of two roots, two proofs of
/// step 1, and the verdict.
const VERDICTS: [Row; 5] = [
    Row {
        row: "the text itself",
        pieces: &[Lines(1, 12)],
        told: Told::Accepts(1),
    },
    Row {
        row: "nobody is left",
        pieces: &[Lines(1, 11), New(b"none left\n")],
        told: OTHER_VERDICT,
    },
    Row {
        row: "another status and output",
        pieces: &[Lines(1, 11), New(b"accept running output 00\n")],
        told: OTHER_VERDICT,
    },
    Row {
        row: "another output",
        pieces: &[Lines(1, 11), New(b"accept exited 0 output\n")],
        told: OTHER_VERDICT,
    },
    Row {
        row: "a collision",
        pieces: &[Lines(1, 11), New(b"collision 01 02\n")],
        told: OTHER_VERDICT,
    },
];

/// A line is left out, doubled or put elsewhere, or is of another dispute or another round: it is refused at the first line that isn't the
/// next legal entry.
const LINES: [Row; 10] = [
    Row {
        row: "a move left out",
        pieces: &[Lines(1, 3), Lines(5, 12)],
        told: Told::Refused(4, Cause::NotAsked),
    },
    Row {
        row: "the last move left out",
        pieces: &[Lines(1, 10), Lines(12, 12)],
        told: Told::Refused(11, Cause::MovesMissing),
    },
    Row {
        row: "the last move twice",
        pieces: &[Lines(1, 11), Lines(11, 12)],
        told: Told::Refused(12, Cause::MovesAfterEnd),
    },
    Row {
        row: "an earlier move twice",
        pieces: &[Lines(1, 4), Lines(4, 12)],
        told: Told::Refused(5, Cause::NotAsked),
    },
    Row {
        row: "claims exchanged",
        pieces: &[Lines(1, 1), Lines(3, 3), Lines(2, 2), Lines(4, 12)],
        told: Told::Refused(2, Cause::NotAsked),
    },
    Row {
        row: "moves of the dispute left out",
        pieces: &[Lines(1, 3), Lines(12, 12)],
        told: Told::Refused(4, Cause::MovesMissing),
    },
    Row {
        row: "a move of another dispute",
        pieces: &[Lines(1, 3), New(b"move 2 1 p1 spent\n"), Lines(5, 12)],
        told: Told::Refused(4, Cause::NotAsked),
    },
    Row {
        row: "a move of another round",
        pieces: &[Lines(1, 3), New(b"move 1 2 p1 spent\n"), Lines(5, 12)],
        told: Told::Refused(4, Cause::NotAsked),
    },
    Row {
        row: "a head of one line with a move",
        pieces: &[New(b"refereed provers 2 "), Lines(2, 12)],
        told: Told::Unread,
    },
    Row {
        row: "the verdict left out",
        pieces: &[Lines(1, 11)],
        told: Told::Unread,
    },
];

/// `given` and `faulty` must be right. The claim of prover 2 is called faulty; a claim is in the place of a root that is asked, called given
/// and called faulty.
const REPLIES: [Row; 3] = [
    Row {
        row: "a given claim called faulty",
        pieces: &[
            Lines(1, 2),
            New(b"move 0 0 p2 faulty "),
            From(3, DIGITS),
            Lines(4, 12),
        ],
        told: Told::Refused(3, Cause::OtherReply),
    },
    Row {
        row: "a claim as a root called given",
        pieces: &[
            Lines(1, 3),
            New(b"move 1 1 p1 given "),
            From(2, DIGITS),
            Lines(5, 12),
        ],
        told: Told::Refused(4, Cause::OtherReply),
    },
    Row {
        row: "a claim as a root called faulty",
        pieces: &[
            Lines(1, 3),
            New(b"move 1 1 p1 faulty "),
            From(2, DIGITS),
            Lines(5, 5),
            Lines(12, 12),
        ],
        told: Told::Accepts(2),
    },
];

/// A proof is followed to where it leads. One of prover 1 that opens another root is refuted, as the liar's is, and nobody is left. The
/// liar's proof is the last answer: a true one of it proves nothing for its own root.
const PROOFS: [Row; 3] = [
    Row {
        row: "a proof of another root",
        pieces: &[
            Lines(1, 9),
            New(b"move 1 4 p1 given 0302"),
            From(10, DIGITS + 4),
            Lines(11, 12),
        ],
        told: Told::Refused(12, Cause::OtherVerdict),
    },
    Row {
        row: "the same before nobody is left",
        pieces: &[
            Lines(1, 9),
            New(b"move 1 4 p1 given 0302"),
            From(10, DIGITS + 4),
            Lines(11, 11),
            New(b"none left\n"),
        ],
        told: Told::NobodyLeft,
    },
    Row {
        row: "a true proof of another root than its own",
        pieces: &[
            Lines(1, 10),
            New(b"move 1 4 p2 given "),
            From(10, DIGITS),
            Lines(12, 12),
        ],
        told: Told::Accepts(1),
    },
];

/// No text can show that a prover passed too often: `spent` is taken as stated, and settles its question.
const SPENT: [Row; 3] = [
    Row {
        row: "spent in a round",
        pieces: &[
            Lines(1, 3),
            New(b"move 1 1 p1 spent\n"),
            Lines(5, 5),
            Lines(12, 12),
        ],
        told: Told::Accepts(2),
    },
    Row {
        row: "spent before the other moves",
        pieces: &[Lines(1, 3), New(b"move 1 1 p1 spent\n"), Lines(5, 12)],
        told: Told::Refused(6, Cause::MovesAfterEnd),
    },
    Row {
        row: "spent at both claims",
        pieces: &[
            Lines(1, 1),
            New(b"move 0 0 p1 spent\nmove 0 0 p2 spent\nnone left\n"),
        ],
        told: Told::NobodyLeft,
    },
];

/// A match that is cut after any of its lines but the last answer has its verdict too early.
const CUT: [Row; 10] = [
    Row {
        row: "cut after line 1",
        pieces: &[Lines(1, 1), Lines(12, 12)],
        told: Told::Refused(2, Cause::MovesMissing),
    },
    Row {
        row: "cut after line 2",
        pieces: &[Lines(1, 2), Lines(12, 12)],
        told: Told::Refused(3, Cause::MovesMissing),
    },
    Row {
        row: "cut after line 3",
        pieces: &[Lines(1, 3), Lines(12, 12)],
        told: Told::Refused(4, Cause::MovesMissing),
    },
    Row {
        row: "cut after line 4",
        pieces: &[Lines(1, 4), Lines(12, 12)],
        told: Told::Refused(5, Cause::MovesMissing),
    },
    Row {
        row: "cut after line 5",
        pieces: &[Lines(1, 5), Lines(12, 12)],
        told: Told::Refused(6, Cause::MovesMissing),
    },
    Row {
        row: "cut after line 6",
        pieces: &[Lines(1, 6), Lines(12, 12)],
        told: Told::Refused(7, Cause::MovesMissing),
    },
    Row {
        row: "cut after line 7",
        pieces: &[Lines(1, 7), Lines(12, 12)],
        told: Told::Refused(8, Cause::MovesMissing),
    },
    Row {
        row: "cut after line 8",
        pieces: &[Lines(1, 8), Lines(12, 12)],
        told: Told::Refused(9, Cause::MovesMissing),
    },
    Row {
        row: "cut after line 9",
        pieces: &[Lines(1, 9), Lines(12, 12)],
        told: Told::Refused(10, Cause::MovesMissing),
    },
    Row {
        row: "cut after line 10",
        pieces: &[Lines(1, 10), Lines(12, 12)],
        told: Told::Refused(11, Cause::MovesMissing),
    },
];

/// Disputes stand in their order, each once. The text has three claims, the dispute of provers 1 and 2 in lines 5 to 12, that of 1 and 3 in
/// lines 13 to 20, and the verdict in line 21.
const DISPUTES: [Row; 6] = [
    Row {
        row: "the text itself",
        pieces: &[Lines(1, 21)],
        told: Told::Accepts(1),
    },
    Row {
        row: "disputes exchanged",
        pieces: &[Lines(1, 4), Lines(13, 20), Lines(5, 12), Lines(21, 21)],
        told: Told::Refused(5, Cause::NotAsked),
    },
    Row {
        row: "the first dispute twice",
        pieces: &[Lines(1, 12), Lines(5, 12), Lines(21, 21)],
        told: Told::Refused(13, Cause::NotAsked),
    },
    Row {
        row: "the second dispute left out",
        pieces: &[Lines(1, 12), Lines(21, 21)],
        told: Told::Refused(13, Cause::MovesMissing),
    },
    Row {
        row: "a third dispute",
        pieces: &[Lines(1, 20), New(b"move 3 1 p1 spent\n"), Lines(21, 21)],
        told: Told::Refused(21, Cause::MovesAfterEnd),
    },
    // prover 3 has no turn in the first dispute
    Row {
        row: "a prover of the second dispute in the first",
        pieces: &[Lines(1, 4), New(b"move 1 1 p3 spent\n"), Lines(6, 21)],
        told: Told::Refused(5, Cause::NotAsked),
    },
];

/// The claims of one match before the rounds of another: if nobody disputes these claims, the rounds come after the end. If the same
/// numbers are asked, the text is that of a third match.
const SPLICED: [Row; 2] = [
    Row {
        row: "rounds after equal claims",
        pieces: &[Of(AGREED, 1, 3), Of(LATER, 4, 12)],
        told: Told::Refused(4, Cause::MovesAfterEnd),
    },
    Row {
        row: "rounds of another liar",
        pieces: &[Of(BISECTED, 1, 3), Of(LATER, 4, 12)],
        told: Told::Accepts(1),
    },
];

/// Two rounds of 3 or 4 parts find the step from 1 to 2 among 8, which the first narrows to 0 to 2: the text has ten lines, the head, two
/// claims, two answers a round, two proofs and the verdict.
const TEN_LINES: [Row; 2] = [
    Row {
        row: "the verdict left out",
        pieces: &[Lines(1, 9)],
        told: Told::Unread,
    },
    Row {
        row: "the text itself",
        pieces: &[Lines(1, 10)],
        told: Told::Accepts(1),
    },
];

/// One round of 16, which cuts 8 steps in 8 parts: the text has eight lines.
const EIGHT_LINES: [Row; 2] = [
    Row {
        row: "the verdict left out",
        pieces: &[Lines(1, 7)],
        told: Told::Unread,
    },
    Row {
        row: "the text itself",
        pieces: &[Lines(1, 8)],
        told: Told::Accepts(1),
    },
];

/// Two roots aren't taken as given if three are asked, and a list of roots that is left out is missed.
const LISTS: [Row; 2] = [
    Row {
        row: "two roots of three",
        pieces: &[Lines(1, 3), Of(THIRDS, 4, 4), Lines(5, 10)],
        told: Told::Refused(4, Cause::OtherReply),
    },
    Row {
        row: "roots left out",
        pieces: &[Lines(1, 4), Lines(6, 10)],
        told: Told::Refused(5, Cause::NotAsked),
    },
];

/// Both strings of a collision are compared, in their order. The text of two claims of one root has four lines.
const STRINGS_OF_CLAIMS: [Row; 7] = [
    Row {
        row: "the text itself",
        pieces: &[Lines(1, 4)],
        told: COLLIDES,
    },
    Row {
        row: "the same strings",
        pieces: &[Lines(1, 3), New(b"collision 01 02\n")],
        told: COLLIDES,
    },
    Row {
        row: "strings exchanged",
        pieces: &[Lines(1, 3), New(b"collision 02 01\n")],
        told: NO_SUCH_STRINGS,
    },
    Row {
        row: "another first string",
        pieces: &[Lines(1, 3), New(b"collision 03 02\n")],
        told: NO_SUCH_STRINGS,
    },
    Row {
        row: "another second string",
        pieces: &[Lines(1, 3), New(b"collision 01 03\n")],
        told: NO_SUCH_STRINGS,
    },
    Row {
        row: "a longer second string",
        pieces: &[Lines(1, 3), New(b"collision 01 0200\n")],
        told: NO_SUCH_STRINGS,
    },
    Row {
        row: "nobody is left",
        pieces: &[Lines(1, 3), New(b"none left\n")],
        told: NO_SUCH_STRINGS,
    },
];

/// That of two proofs which lead from one root to two has twelve.
const STRINGS_OF_PROOFS: [Row; 4] = [
    Row {
        row: "the text itself",
        pieces: &[Lines(1, 12)],
        told: COLLIDES,
    },
    Row {
        row: "strings exchanged",
        pieces: &[Lines(1, 11), New(b"collision 02 01\n")],
        told: OTHER_VERDICT,
    },
    Row {
        row: "a longer first string",
        pieces: &[Lines(1, 11), New(b"collision 0001 02\n")],
        told: OTHER_VERDICT,
    },
    Row {
        row: "the claim of prover 1",
        pieces: &[Lines(1, 11), New(b"accept running output\n")],
        told: OTHER_VERDICT,
    },
];

/// Rows of the text at a place.
#[derive(Clone, Copy)]
struct Table {
    text: usize,
    rows: &'static [Row],
}

const TABLES: [Table; 14] = [
    Table {
        text: BISECTED,
        rows: &VERDICTS,
    },
    Table {
        text: BISECTED,
        rows: &LINES,
    },
    Table {
        text: BISECTED,
        rows: &REPLIES,
    },
    Table {
        text: BISECTED,
        rows: &PROOFS,
    },
    Table {
        text: BISECTED,
        rows: &SPENT,
    },
    Table {
        text: BISECTED,
        rows: &CUT,
    },
    Table {
        text: DISPUTED,
        rows: &DISPUTES,
    },
    Table {
        text: LATER,
        rows: &SPLICED,
    },
    Table {
        text: THIRDS,
        rows: &TEN_LINES,
    },
    Table {
        text: QUARTERS,
        rows: &TEN_LINES,
    },
    Table {
        text: SIXTEENTHS,
        rows: &EIGHT_LINES,
    },
    Table {
        text: QUARTERS,
        rows: &LISTS,
    },
    Table {
        text: TWO_CLAIMS,
        rows: &STRINGS_OF_CLAIMS,
    },
    Table {
        text: TWO_PROOFS,
        rows: &STRINGS_OF_PROOFS,
    },
];

/// The tables as a value, of which no caller sees the rows.
fn tables() -> [Table; 14] {
    TABLES
}

/// The finding of the audit of pieces of a text.
fn found_of_pieces(
    alloc: Global,
    texts: &[Vec<u8>],
    own: usize,
    pieces: &[Piece],
) -> Result<Told, Memory> {
    let changed = joined(alloc, texts, own, pieces)?;
    audit_of(alloc, changed.as_slice())
}

/// The first row of a table of which the audit finds something else, with what it finds.
fn first_other(
    alloc: Global,
    texts: &[Vec<u8>],
    own: usize,
    rows: &[Row],
) -> Result<Option<Row>, Memory> {
    for row in rows {
        let told = found_of_pieces(alloc, texts, own, row.pieces)?;
        if told != row.told {
            return Ok(Some(Row { told, ..*row }));
        }
    }
    Ok(None)
}

/// The first such row of these tables.
fn first_of_tables(
    alloc: Global,
    texts: &[Vec<u8>],
    tables: &[Table],
) -> Result<Option<Row>, Memory> {
    for Table { text, rows } in tables {
        let other = first_other(alloc, texts, *text, *rows)?;
        if other.is_some() {
            return Ok(other);
        }
    }
    Ok(None)
}

/// The matches of `TEXTS` as a value, of which no caller sees the rows.
fn changed_matches() -> &'static [Played] {
    &TEXTS
}

/// The full texts of these matches.
fn texts_of<R: Threads + Sync>(
    rt: &R,
    alloc: Global,
    matches: &[Played],
) -> Result<Vec<Vec<u8>>, Memory>
    requires { IsSync R.row }
{
    let mut texts = Vec::new(alloc);
    for played in matches {
        texts.push(text_of(rt, alloc, played)?)?;
    }
    Ok(texts)
}

#[test]
fn a_changed_text_is_refused_where_it_is_wrong(rt: HostRuntime) -> Result<(), Fail> {
    let texts = texts_of(&rt, rt.alloc(), changed_matches())?;
    let other = first_of_tables(rt.alloc(), texts.as_slice(), &tables());
    drop(texts);
    let other = other?;
    assert!(rt; other.is_none(), "{other:?}");
    Ok(())
}
