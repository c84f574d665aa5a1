//! Bytes as runs, and the first rule that they break: 0 for none.

use crate::runs::{Run, broken_rule, is_form, laid_out, rule_of_step};
use proof_wire::WireFault;
use rd_base::{Answer, Digest32};
use std::alloc::{AllocError, Global};

/// Bytes, and the first rule that they break.
#[derive(Clone, Copy)]
struct Row {
    bytes: &'static [Run],
    /// The rule's number; 0 for an answer, which breaks none.
    rule: u32,
}

/// The rule that the reader of a step alone finds: that of an answer with a step's tag, and else the tag's.
fn rule_for_step(bytes: &[u8], rule: u32) -> u32 {
    match bytes {
        [] => 1,
        [3, ..] => rule,
        [4, ..] => rule,
        [6, ..] => rule,
        [_, ..] => 2,
    }
}

/// Whether this is the first rule that bytes break, as an answer and as a step alone.
fn breaks(alloc: Global, bytes: &[u8], rule: u32) -> bool {
    let broken = (broken_rule(alloc, bytes), rule_of_step(bytes));
    broken == (rule, rule_for_step(bytes, rule))
}

/// The same of a row, if there was memory for its bytes.
fn is_kept(alloc: Global, row: &Row) -> bool {
    match laid_out(alloc, &[row.bytes]) {
        Ok(bytes) => breaks(alloc, bytes.as_slice(), row.rule),
        Err(_) => false,
    }
}

/// The first row that isn't kept: its bytes break another rule, as an answer or as a step alone.
fn first_other(alloc: Global, rows: &[Row]) -> Option<usize> {
    for (place, row) in rows.iter().enumerate() {
        if !is_kept(alloc, row) {
            return Some(place);
        }
    }
    None
}

const ROWS: [Row; 10] = [
    Row {
        bytes: &[(2, 1), (0, 32)],
        rule: 0,
    },
    Row {
        bytes: &[(2, 1), (0, 31)],
        rule: 1,
    },
    Row {
        bytes: &[(2, 1), (0, 33)],
        rule: 4,
    },
    Row {
        bytes: &[],
        rule: 1,
    },
    Row {
        bytes: &[(7, 1)],
        rule: 2,
    },
    // a status byte of 3
    Row {
        bytes: &[(1, 1), (0, 68), (3, 1), (0, 52)],
        rule: 3,
    },
    // an output length of eight bytes `ff`
    Row {
        bytes: &[(1, 1), (0, 113), (255, 8)],
        rule: 5,
    },
    // no root; the tag of a proof of version 2, and a count of one root, alone
    Row {
        bytes: &[(5, 1), (0, 1)],
        rule: 2,
    },
    Row {
        bytes: &[(5, 1), (1, 1)],
        rule: 1,
    },
    Row {
        bytes: &[(4, 1)],
        rule: 1,
    },
];

const FIRST_BROKEN: [Row; 19] = [
    Row {
        bytes: &[(0, 1), (0, 40)],
        rule: 2,
    },
    Row {
        bytes: &[(7, 1)],
        rule: 2,
    },
    // a bad status, and a fixed part that isn't whole
    Row {
        bytes: &[(1, 1), (0, 68), (3, 1), (0, 51)],
        rule: 1,
    },
    Row {
        bytes: &[(3, 1), (0, 160), (3, 1), (0, 44)],
        rule: 1,
    },
    // a bad status, and a length or flags that are above the largest
    Row {
        bytes: &[(1, 1), (0, 68), (3, 1), (0, 44), (255, 8)],
        rule: 3,
    },
    Row {
        bytes: &[(3, 1), (0, 160), (255, 1), (0, 44), (255, 1)],
        rule: 3,
    },
    // running with a code; exited and trapped with the largest
    Row {
        bytes: &[(1, 1), (0, 69), (1, 1), (0, 51)],
        rule: 3,
    },
    Row {
        bytes: &[(1, 1), (0, 72), (1, 1), (0, 48)],
        rule: 3,
    },
    Row {
        bytes: &[(1, 1), (0, 68), (1, 1), (255, 4), (0, 48)],
        rule: 0,
    },
    Row {
        bytes: &[(1, 1), (0, 68), (2, 1), (255, 4), (0, 48)],
        rule: 0,
    },
    // flags above the largest; openings that aren't whole, or too many
    Row {
        bytes: &[(3, 1), (0, 205), (4, 1)],
        rule: 2,
    },
    Row {
        bytes: &[(3, 1), (0, 205), (255, 1), (0, 895)],
        rule: 2,
    },
    Row {
        bytes: &[(3, 1), (0, 205), (3, 1), (0, 896)],
        rule: 1,
    },
    Row {
        bytes: &[(3, 1), (0, 205), (1, 1), (0, 895)],
        rule: 1,
    },
    Row {
        bytes: &[(3, 1), (0, 205), (2, 1), (0, 1792)],
        rule: 4,
    },
    // an output length of 4,294,967,296, of 4,294,967,295 and of 1, without a byte; and of 1, with two bytes
    Row {
        bytes: &[(1, 1), (0, 117), (1, 1), (0, 3)],
        rule: 5,
    },
    Row {
        bytes: &[(1, 1), (0, 113), (255, 4), (0, 4)],
        rule: 1,
    },
    Row {
        bytes: &[(1, 1), (0, 113), (1, 1), (0, 7)],
        rule: 1,
    },
    Row {
        bytes: &[(1, 1), (0, 113), (1, 1), (0, 9)],
        rule: 4,
    },
];

const FIRST_BROKEN_OF_ROOTS: [Row; 10] = [
    Row {
        bytes: &[(5, 1)],
        rule: 1,
    },
    // a count of 0, of 16 and of 255: too little or too much behind it doesn't matter
    Row {
        bytes: &[(5, 1), (0, 1), (0, 32)],
        rule: 2,
    },
    Row {
        bytes: &[(5, 1), (16, 1), (0, 512)],
        rule: 2,
    },
    Row {
        bytes: &[(5, 1), (16, 1)],
        rule: 2,
    },
    Row {
        bytes: &[(5, 1), (255, 1), (0, 8160)],
        rule: 2,
    },
    // digests that aren't whole, or a byte too many
    Row {
        bytes: &[(5, 1), (1, 1), (0, 31)],
        rule: 1,
    },
    Row {
        bytes: &[(5, 1), (2, 1), (0, 32)],
        rule: 1,
    },
    Row {
        bytes: &[(5, 1), (15, 1), (0, 479)],
        rule: 1,
    },
    Row {
        bytes: &[(5, 1), (15, 1), (0, 480)],
        rule: 0,
    },
    Row {
        bytes: &[(5, 1), (1, 1), (0, 33)],
        rule: 4,
    },
];

/// Of version 2: the status is behind 69 bytes, the flags behind 114, the count behind 115.
const FIRST_BROKEN_OF_VERSION_2: [Row; 14] = [
    Row {
        bytes: &[(4, 1), (0, 114)],
        rule: 1,
    },
    Row {
        bytes: &[(4, 1), (0, 115)],
        rule: 0,
    },
    Row {
        bytes: &[(4, 1), (0, 116)],
        rule: 4,
    },
    // a bad status, in a fixed part that isn't whole, and beside flags and a count that are too large
    Row {
        bytes: &[(4, 1), (0, 68), (3, 1), (0, 45)],
        rule: 1,
    },
    Row {
        bytes: &[(4, 1), (0, 68), (3, 1), (0, 44), (4, 2)],
        rule: 3,
    },
    Row {
        bytes: &[(4, 1), (0, 69), (1, 1), (0, 45)],
        rule: 3,
    },
    // flags or a count above the largest, with nothing behind them
    Row {
        bytes: &[(4, 1), (0, 113), (4, 1), (0, 1)],
        rule: 2,
    },
    Row {
        bytes: &[(4, 1), (0, 113), (1, 1), (4, 1)],
        rule: 2,
    },
    // a chunk that isn't whole; a register that isn't; each whole; a byte too many
    Row {
        bytes: &[(4, 1), (0, 113), (1, 1), (0, 1), (0, 895)],
        rule: 1,
    },
    Row {
        bytes: &[(4, 1), (0, 114), (1, 1), (0, 163)],
        rule: 1,
    },
    Row {
        bytes: &[(4, 1), (0, 113), (3, 2), (0, 2283)],
        rule: 1,
    },
    Row {
        bytes: &[(4, 1), (0, 113), (3, 2), (0, 2284)],
        rule: 0,
    },
    Row {
        bytes: &[(4, 1), (0, 113), (3, 2), (0, 2285)],
        rule: 4,
    },
    Row {
        bytes: &[(4, 1), (0, 113), (2, 1), (1, 1), (0, 1060)],
        rule: 0,
    },
];

/// Of version 3: the status is behind 105 bytes, the flags behind 150, the count behind 151.
const FIRST_BROKEN_OF_VERSION_3: [Row; 13] = [
    Row {
        bytes: &[(6, 1)],
        rule: 1,
    },
    Row {
        bytes: &[(6, 1), (0, 150)],
        rule: 1,
    },
    Row {
        bytes: &[(6, 1), (0, 151)],
        rule: 0,
    },
    Row {
        bytes: &[(6, 1), (0, 152)],
        rule: 4,
    },
    Row {
        bytes: &[(6, 1), (0, 104), (3, 1), (0, 45)],
        rule: 1,
    },
    Row {
        bytes: &[(6, 1), (0, 104), (3, 1), (0, 44), (8, 1), (4, 1)],
        rule: 3,
    },
    Row {
        bytes: &[(6, 1), (0, 149), (8, 1), (0, 1)],
        rule: 2,
    },
    Row {
        bytes: &[(6, 1), (0, 149), (7, 1), (4, 1)],
        rule: 2,
    },
    // the input's chunk alone: 512 bytes
    Row {
        bytes: &[(6, 1), (0, 149), (4, 1), (0, 1), (0, 511)],
        rule: 1,
    },
    Row {
        bytes: &[(6, 1), (0, 149), (4, 1), (0, 1), (0, 512)],
        rule: 0,
    },
    Row {
        bytes: &[(6, 1), (0, 149), (4, 1), (0, 1), (0, 513)],
        rule: 4,
    },
    // all of them: two chunks, three registers, the input's chunk
    Row {
        bytes: &[(6, 1), (0, 149), (7, 1), (3, 1), (0, 2796)],
        rule: 0,
    },
    Row {
        bytes: &[(6, 1), (0, 149), (7, 1), (3, 1), (0, 2795)],
        rule: 1,
    },
];

/// The first other row of each table.
fn other_row(alloc: Global) -> Option<usize> {
    first_other(alloc, &ROWS)
}

fn other_first(alloc: Global) -> Option<usize> {
    first_other(alloc, &FIRST_BROKEN)
}

fn other_of_roots(alloc: Global) -> Option<usize> {
    first_other(alloc, &FIRST_BROKEN_OF_ROOTS)
}

fn other_of_version_2(alloc: Global) -> Option<usize> {
    first_other(alloc, &FIRST_BROKEN_OF_VERSION_2)
}

fn other_of_version_3(alloc: Global) -> Option<usize> {
    first_other(alloc, &FIRST_BROKEN_OF_VERSION_3)
}

/// Whether a root of zeros has its form.
fn is_root(alloc: Global) -> bool {
    let root = Some(Answer::Root(Digest32::ZERO));
    is_form(alloc, root, &[&[(2, 1), (0, 32)]])
}

#[test]
fn the_first_broken_rule_is_the_fault(rt: HostRuntime) {
    let alloc = rt.alloc();
    let others = [
        other_row(alloc),
        other_first(alloc),
        other_of_roots(alloc),
        other_of_version_2(alloc),
        other_of_version_3(alloc),
    ];
    assert!(rt; others == [None; 5] && is_root(alloc));
}

/// Want of memory breaks no rule. The texts are in `fault_texts_test`.
#[test]
fn a_fault_has_the_number_of_its_rule(rt: HostRuntime) {
    let rules = [
        WireFault::Short.rule(),
        WireFault::BadTag.rule(),
        WireFault::BadStatus.rule(),
        WireFault::TrailingBytes.rule(),
        WireFault::BadLength.rule(),
        WireFault::from(AllocError).rule(),
    ];
    assert_eq!(rt; rules, [Some(1), Some(2), Some(3), Some(4), Some(5), None]);
}
