//! Full texts of matches of the toy game, and what is read of them.
ghost use denote.Param.Send.{IsSync};

use crate::playing::Who::{Honest, Liar, Silent};
use crate::playing::{HALVES, Terms, full_of};
use bisect_game::Settled;
use rd_base::{Answer, Digest32, Memory};
use std::alloc::Global;
use std::str;
use std::test::Fail;
use std::thread::Threads;
use toy_game::root;
use transcript_text::{DigestName, FullText, Head, Stated, TextMove, read_full};

/// The match of a true prover and a liar, in halves and in quarters, and that of two silent provers.
const DISPUTED: Terms = Terms {
    players: &[Honest, Liar],
    ..HALVES
};

const QUARTERED: Terms = Terms { fan: 4, ..DISPUTED };

const SILENCE: Terms = Terms {
    players: &[Silent, Silent],
    ..HALVES
};

/// The text of a true prover and a liar over 8 steps: claims of the roots 6 and 108, roots at 4, 2 and 1, and two proofs of step 1.
/// Its wire forms were laid out by hand.
const IN_HALVES: &[u8] = b"\
        refereed provers 2 bound 8 patience 0 version 1 fan 2 digest sha256 start 00000000000000000000000000\
        00000000000000000000000000000000000000\n\
        move 0 0 p1 given 0106000000000000000000000000000000000000000000000000000000000000000000000000000000\
        0000000000000000000000000000000000000000000000000000000000000000000000000000000000000000000000000000\
        00000000000000000000000000000000000000000000000000000000000000\n\
        move 0 0 p2 given 016c000000000000000000000000000000000000000000000000000000000000000000000000000000\
        0000000000000000000000000000000000000000000000000000000000000000000000000000000000000000000000000000\
        00000000000000000000000000000000000000000000000000000000000000\n\
        move 1 1 p1 given 020400000000000000000000000000000000000000000000000000000000000000\n\
        move 1 1 p2 given 026800000000000000000000000000000000000000000000000000000000000000\n\
        move 1 2 p1 given 020200000000000000000000000000000000000000000000000000000000000000\n\
        move 1 2 p2 given 026600000000000000000000000000000000000000000000000000000000000000\n\
        move 1 3 p1 given 020100000000000000000000000000000000000000000000000000000000000000\n\
        move 1 3 p2 given 020100000000000000000000000000000000000000000000000000000000000000\n\
        move 1 4 p1 given 0301000000000000000000000000000000000000000000000000000000000000000000000000000000\
        0000000000000000000000000000000000000000000000000000000000000000000000000000000000000000000000000000\
        0000000000000000000000000000000000000000000000000000000000000000000000000000000000000000000000000000\
        0000000000000000000000000000000000000000000000000000000000000000000000000000000000000000000000000000\
        00000000000000000000000000000000\n\
        move 1 4 p2 given 0301000000000000000000000000000000000000000000000000000000000000000000000000000000\
        0000000000000000000000000000000000000000000000000000000000000000000000000000000000000000000000000000\
        0000000000000000000000000000000000000000000000000000000000000000000000000000000000000000000000000000\
        0000000000000000000000000000000000000000000000000000000000000000000000000000000000000000000000000000\
        00000000000000000000000000000000\n\
        accept running output\n";

/// The text of two silent provers has four lines.
const OF_SILENCE: &[u8] =
    b"refereed provers 2 bound 8 patience 0 version 1 fan 2 digest sha256 start \
        0000000000000000000000000000000000000000000000000000000000000000\n\
        move 0 0 p1 spent\nmove 0 0 p2 spent\nnone left\n";

/// A move in short: its dispute, round and prover, and the first byte of the root that it gives, of several roots that of the last, 255 if
/// it is spent and 254 if it has none.
type Short = (u32, u32, u32, u8);

/// By claims, then by round and side.
const MOVES_IN_HALVES: [Short; 10] = [
    (0, 0, 1, 6),
    (0, 0, 2, 108),
    (1, 1, 1, 4),
    (1, 1, 2, 104),
    (1, 2, 1, 2),
    (1, 2, 2, 102),
    (1, 3, 1, 1),
    (1, 3, 2, 1),
    (1, 4, 1, 254),
    (1, 4, 2, 254),
];

/// With a fan of 4 a round's answer has the roots of three cuts, at 2, 4 and 6, and over two steps that of one.
const MOVES_IN_QUARTERS: [Short; 8] = [
    (0, 0, 1, 6),
    (0, 0, 2, 108),
    (1, 1, 1, 6),
    (1, 1, 2, 106),
    (1, 2, 1, 1),
    (1, 2, 2, 1),
    (1, 3, 1, 254),
    (1, 3, 2, 254),
];

/// The first byte of the root that an answer gives, and of several that of the last.
fn mark_of(settled: &Settled) -> u8 {
    match settled {
        Settled::Given(Answer::Claim(claim)) => claim.mem.0[0],
        Settled::Given(Answer::Root(root)) => root.0[0],
        Settled::Given(Answer::Roots(roots)) => last_mark(roots.as_slice()),
        Settled::Spent => 255,
        _ => 254,
    }
}

/// The first byte of the last of these roots, 254 if there is none.
fn last_mark(roots: &[Digest32]) -> u8 {
    match roots {
        [.., last] => last.0[0],
        [] => 254,
    }
}

/// A move in short.
fn short_of(entry: &TextMove) -> Short {
    (
        entry.qid.dispute,
        entry.qid.round,
        entry.prover,
        mark_of(&entry.settled),
    )
}

/// Whether these are the moves.
fn are_moves(moves: &[TextMove], want: &[Short]) -> bool {
    for (entry, short) in moves.iter().zip(want) {
        if short_of(entry) != *short {
            return false;
        }
    }
    moves.len() == want.len()
}

/// Whether a head is that of two provers over 8 steps without patience in version 1 from root 0, with this fan.
fn is_of_fan(head: &Head, fan: u32) -> bool {
    (
        head.provers,
        head.bound,
        head.patience,
        head.version,
        head.fan,
    ) == (2, 8, 0, 1, fan)
        && (head.digest, head.start) == (DigestName::Sha256, root(0))
}

/// Whether a claim of a running machine without output is accepted.
fn is_running_accepted(stated: &Stated) -> bool {
    match stated {
        Stated::Accept(status, output) => status.is_running() && output.len() == 0,
        _ => false,
    }
}

/// Whether a text has these moves, the head of this fan, and the verdict that a claim of a running machine without output is accepted.
fn compared(read: FullText, moves: &[Short], fan: u32) -> [bool; 3] {
    [
        are_moves(read.moves.as_slice(), moves),
        is_of_fan(&read.head, fan),
        is_running_accepted(&read.stated),
    ]
}

/// Whether a text that has no fault is read back so.
fn read_back(alloc: Global, text: &[u8], moves: &[Short], fan: u32) -> Result<[bool; 3], Fail> {
    match read_full(alloc, text) {
        Ok(read) => Ok(compared(read, moves, fan)),
        Err(fault) => Err(Fail::new(fault)),
    }
}

/// Whether the full text of a match is this one.
fn is_written<R: Threads + Sync>(
    rt: &R,
    alloc: Global,
    terms: Terms,
    want: &[u8],
) -> Result<bool, Memory>
    requires { IsSync R.row }
{
    let text = full_of(rt, alloc, terms)?;
    Ok(text.as_slice() == want)
}

/// The text of a dispute has a line for each settled answer, and is read back so.
#[test]
fn full_texts_are_written_and_read_back(rt: HostRuntime) -> Result<(), Fail> {
    let alloc = rt.alloc();
    let are_written = [
        is_written(&rt, alloc, DISPUTED, IN_HALVES)?,
        is_written(&rt, alloc, SILENCE, OF_SILENCE)?,
    ];
    let is_read = read_back(alloc, IN_HALVES, &MOVES_IN_HALVES, 2)?;
    assert_eq!(rt; (are_written, is_read), ([true; 2], [true; 3]));
    Ok(())
}

/// The first answer of prover 1 in quarters, a list of three roots.
const THREE_ROOTS: &str = "\nmove 1 1 p1 given 0503\
        0200000000000000000000000000000000000000000000000000000000000000\
        0400000000000000000000000000000000000000000000000000000000000000\
        0600000000000000000000000000000000000000000000000000000000000000\n";

/// The second answer of prover 2 in quarters, a list of one root.
const ONE_ROOT: &str =
    "\nmove 1 2 p2 given 05010100000000000000000000000000000000000000000000000000000000000000\n";

/// Whether a text has these lines.
fn has_lines(text: &[u8], three: &str, one: &str) -> bool {
    match str::from_utf8(text) {
        Ok(whole) => whole.contains(three) && whole.contains(one),
        Err(_) => false,
    }
}

/// Whether the full text of the match in quarters has its lines, and whether it is read back so.
fn in_quarters(alloc: Global, text: Vec<u8>) -> Result<[bool; 4], Fail> {
    let has_lines = has_lines(text.as_slice(), THREE_ROOTS, ONE_ROOT);
    let read = read_back(alloc, text.as_slice(), &MOVES_IN_QUARTERS, 4);
    drop(text);
    let [moves, fan, is_accepted] = read?;
    Ok([has_lines, moves, fan, is_accepted])
}

#[test]
fn roots_of_several_cuts_are_written_and_read_back(rt: HostRuntime) -> Result<(), Fail> {
    let text = full_of(&rt, rt.alloc(), QUARTERED)?;
    assert_eq!(rt; in_quarters(rt.alloc(), text)?, [true; 4]);
    Ok(())
}
