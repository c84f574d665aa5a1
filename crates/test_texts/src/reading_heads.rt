//! What the rows of reading are made of, and the rows of heads: those in their limits, those out of them, and those of no form.
use transcript_text::TextFault;

/// The numbers of a head.
pub const NUMBERS: &str = "refereed provers 2 bound 8 patience 0 version 1 fan 2 digest sha256 ";

/// Its root, but for the last two of its digits, and a whole one with its line feed.
pub const CUT_START: &str = "start 00010203040506070809101112131415161718192021222324252627282930";

pub const START: &str = "start 0001020304050607080910111213141516171819202122232425262728293031\n";

/// What is read of a text: how many moves, or the fault.
#[derive(Clone, Copy, Debug, PartialEq, Eq)]
pub enum Told {
    Moves(usize),
    Fault(TextFault),
}

pub const NO_MOVES: Told = Told::Moves(0);

const BAD_HEAD: Told = Told::Fault(TextFault::BadHead);

pub const HEAD_OUT_OF_RANGE: Told = Told::Fault(TextFault::OutOfRange(1));

/// What is read of a text whose second line is this.
pub const BAD_SECOND: Told = Told::Fault(TextFault::BadLine(2));

/// Pieces of a text, one behind another, and what is read of it.
#[derive(Clone, Copy, Debug)]
pub struct Row {
    pub pieces: &'static [&'static str],
    pub told: Told,
}

/// Heads in their limits are read: before a verdict, and before a line of no form.
const HEADS_IN_RANGE: [Row; 6] = [
    Row {
        pieces: &[
            "refereed provers 1 bound 1 patience 0 version 1 fan 2 digest sha256 ",
            START,
        ],
        told: NO_MOVES,
    },
    Row {
        pieces: &[
            "refereed provers 16 bound 4294967295 patience 100 version 1 fan 2 digest sha256 ",
            START,
        ],
        told: NO_MOVES,
    },
    Row {
        pieces: &[
            "refereed provers 2 bound 8 patience 0 version 1 fan 16 digest sha256 ",
            START,
        ],
        told: NO_MOVES,
    },
    Row {
        pieces: &[
            "refereed provers 2 bound 8 patience 0 version 2 fan 2 digest sha256 ",
            START,
        ],
        told: NO_MOVES,
    },
    Row {
        pieces: &[
            "refereed provers 2 bound 8 patience 0 version 3 fan 2 digest sha256 ",
            START,
        ],
        told: NO_MOVES,
    },
    Row {
        pieces: &[
            "refereed provers 2 bound 8 patience 0 version 1 fan 2 digest weak8 ",
            START,
        ],
        told: NO_MOVES,
    },
];

/// These rows as a value, of which no caller sees the rows: they would stand in each of its goals.
pub fn heads_in_range() -> &'static [Row] {
    &HEADS_IN_RANGE
}

const HEADS_BEFORE_NO_FORM: [Row; 6] = [
    Row {
        pieces: &[
            "refereed provers 1 bound 1 patience 0 version 1 fan 2 digest sha256 ",
            START,
        ],
        told: BAD_SECOND,
    },
    Row {
        pieces: &[
            "refereed provers 16 bound 4294967295 patience 100 version 1 fan 2 digest sha256 ",
            START,
        ],
        told: BAD_SECOND,
    },
    Row {
        pieces: &[
            "refereed provers 2 bound 8 patience 0 version 1 fan 16 digest sha256 ",
            START,
        ],
        told: BAD_SECOND,
    },
    Row {
        pieces: &[
            "refereed provers 2 bound 8 patience 0 version 2 fan 2 digest sha256 ",
            START,
        ],
        told: BAD_SECOND,
    },
    Row {
        pieces: &[
            "refereed provers 2 bound 8 patience 0 version 3 fan 2 digest sha256 ",
            START,
        ],
        told: BAD_SECOND,
    },
    Row {
        pieces: &[
            "refereed provers 2 bound 8 patience 0 version 1 fan 2 digest weak8 ",
            START,
        ],
        told: BAD_SECOND,
    },
];

/// These rows as a value.
pub fn heads_before_no_form() -> &'static [Row] {
    &HEADS_BEFORE_NO_FORM
}

/// A number of a head out of its limits is out of range, and tested before later lines.
const HEADS_OUT_OF_RANGE: [Row; 11] = [
    Row {
        pieces: &[
            "refereed provers 0 bound 8 patience 0 version 1 fan 2 digest sha256 ",
            START,
        ],
        told: HEAD_OUT_OF_RANGE,
    },
    Row {
        pieces: &[
            "refereed provers 17 bound 8 patience 0 version 1 fan 2 digest sha256 ",
            START,
        ],
        told: HEAD_OUT_OF_RANGE,
    },
    Row {
        pieces: &[
            "refereed provers 2 bound 0 patience 0 version 1 fan 2 digest sha256 ",
            START,
        ],
        told: HEAD_OUT_OF_RANGE,
    },
    Row {
        pieces: &[
            "refereed provers 2 bound 4294967296 patience 0 version 1 fan 2 digest sha256 ",
            START,
        ],
        told: HEAD_OUT_OF_RANGE,
    },
    Row {
        pieces: &[
            "refereed provers 2 bound 4294967304 patience 0 version 1 fan 2 digest sha256 ",
            START,
        ],
        told: HEAD_OUT_OF_RANGE,
    },
    Row {
        pieces: &[
            "refereed provers 2 bound 18446744073709551624 patience 0 version 1 fan 2 digest sha256 ",
            START,
        ],
        told: HEAD_OUT_OF_RANGE,
    },
    Row {
        pieces: &[
            "refereed provers 2 bound 8 patience 101 version 1 fan 2 digest sha256 ",
            START,
        ],
        told: HEAD_OUT_OF_RANGE,
    },
    Row {
        pieces: &[
            "refereed provers 2 bound 8 patience 0 version 0 fan 2 digest sha256 ",
            START,
        ],
        told: HEAD_OUT_OF_RANGE,
    },
    Row {
        pieces: &[
            "refereed provers 2 bound 8 patience 0 version 4 fan 2 digest sha256 ",
            START,
        ],
        told: HEAD_OUT_OF_RANGE,
    },
    Row {
        pieces: &[
            "refereed provers 2 bound 8 patience 0 version 1 fan 1 digest sha256 ",
            START,
        ],
        told: HEAD_OUT_OF_RANGE,
    },
    Row {
        pieces: &[
            "refereed provers 2 bound 8 patience 0 version 1 fan 17 digest sha256 ",
            START,
        ],
        told: HEAD_OUT_OF_RANGE,
    },
];

/// These rows as a value.
pub fn heads_out_of_range() -> &'static [Row] {
    &HEADS_OUT_OF_RANGE
}

/// A head has one form, which is tested before its numbers and before later lines.
const BAD_HEADS: [Row; 13] = [
    Row {
        pieces: &[
            "refereed provers 2 bound 8 patience 0 version 1 fan 2 digest WEAK8 ",
            START,
        ],
        told: BAD_HEAD,
    },
    Row {
        pieces: &[
            "refereed provers 2 bound 8 patience 0 version 1 fan 2 digest weak ",
            START,
        ],
        told: BAD_HEAD,
    },
    Row {
        pieces: &[
            "refereed provers 2 bound 8 patience 0 version 1 fan 2 digest sha2567 ",
            START,
        ],
        told: BAD_HEAD,
    },
    Row {
        pieces: &[
            "refereed provers 17 bound 8 patience 0 version 1 fan 2 digest Sha256 ",
            START,
        ],
        told: BAD_HEAD,
    },
    Row {
        pieces: &[
            "refereed provers 02 bound 8 patience 0 version 1 fan 2 digest sha256 ",
            START,
        ],
        told: BAD_HEAD,
    },
    Row {
        pieces: &[
            "refereed provers +2 bound 8 patience 0 version 1 fan 2 digest sha256 ",
            START,
        ],
        told: BAD_HEAD,
    },
    Row {
        pieces: &[
            "refereed provers 2 bound  8 patience 0 version 1 fan 2 digest sha256 ",
            START,
        ],
        told: BAD_HEAD,
    },
    Row {
        pieces: &[
            "refereed provers 2\tbound 8 patience 0 version 1 fan 2 digest sha256 ",
            START,
        ],
        told: BAD_HEAD,
    },
    Row {
        pieces: &[
            "refereed provers 2 bound 8 patience 00 version 1 fan 2 digest sha256 ",
            START,
        ],
        told: BAD_HEAD,
    },
    Row {
        pieces: &[
            "refereed provers 2 bound 8\0 patience 0 version 1 fan 2 digest sha256 ",
            START,
        ],
        told: BAD_HEAD,
    },
    Row {
        pieces: &[
            "refereed provers 2 bound patience 0 version 1 fan 2 digest sha256 ",
            START,
        ],
        told: BAD_HEAD,
    },
    Row {
        pieces: &[
            " refereed provers 2 bound 8 patience 0 version 1 fan 2 digest sha256 ",
            START,
        ],
        told: BAD_HEAD,
    },
    Row {
        pieces: &[
            "match provers 2 bound 8 patience 0 version 1 fan 2 digest sha256 ",
            START,
        ],
        told: BAD_HEAD,
    },
];

/// These rows as a value.
pub fn bad_heads() -> &'static [Row] {
    &BAD_HEADS
}

/// A root has 64 digits of lower case, and the line feed follows it.
const ROOT_ENDS: [Row; 9] = [
    Row {
        pieces: &[NUMBERS, CUT_START, "ff\n"],
        told: NO_MOVES,
    },
    Row {
        pieces: &[NUMBERS, CUT_START, "fF\n"],
        told: BAD_HEAD,
    },
    Row {
        pieces: &[NUMBERS, CUT_START, "fg\n"],
        told: BAD_HEAD,
    },
    Row {
        pieces: &[NUMBERS, CUT_START, "f\n"],
        told: BAD_HEAD,
    },
    Row {
        pieces: &[NUMBERS, CUT_START, "\n"],
        told: BAD_HEAD,
    },
    Row {
        pieces: &[NUMBERS, CUT_START, "ff00\n"],
        told: BAD_HEAD,
    },
    Row {
        pieces: &[NUMBERS, CUT_START, "ff \n"],
        told: BAD_HEAD,
    },
    Row {
        pieces: &[NUMBERS, CUT_START, "ff\r\n"],
        told: BAD_HEAD,
    },
    Row {
        pieces: &[NUMBERS, "start \n"],
        told: BAD_HEAD,
    },
];

/// These rows as a value.
pub fn root_ends() -> &'static [Row] {
    &ROOT_ENDS
}
