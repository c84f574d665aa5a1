//! The rows of reading: each fault by itself, beside another on its line, and behind another line with one.
use crate::reading_heads::{
    BAD_SECOND, CUT_START, HEAD_OUT_OF_RANGE, NO_MOVES, NUMBERS, Row, START, Told, bad_heads,
    heads_before_no_form, heads_in_range, heads_out_of_range, root_ends,
};
use rd_base::Memory;
use std::alloc::Global;
use std::test::Fail;
use transcript_text::{TextFault, read_full};

/// A prover's root, 33 bytes.
const ROOT: &str = "020001020304050607080910111213141516171819202122232425262728293031";

const END: &str = "none left\n";

/// A line of no form.
const NO_FORM: &str = "nonsense\n";

const CUT: Told = Told::Fault(TextFault::Truncated);

const SECOND_OUT_OF_RANGE: Told = Told::Fault(TextFault::OutOfRange(2));

const ONE_TOO_MANY: Told = Told::Fault(TextFault::BadLine(3));

/// What is read of a text.
fn read(alloc: Global, bytes: &[u8]) -> Result<Told, Memory> {
    match read_full(alloc, bytes) {
        Ok(text) => Ok(Told::Moves(text.moves.len())),
        Err(TextFault::Memory) => Err(Memory),
        Err(fault) => Ok(Told::Fault(fault)),
    }
}

/// These pieces, one behind another, with this behind them.
fn joined(alloc: Global, pieces: &[&str], end: &str) -> Result<Vec<u8>, Memory> {
    let mut bytes = Vec::new(alloc);
    for piece in pieces {
        bytes.extend_from_slice(piece.as_bytes())?;
    }
    bytes.extend_from_slice(end.as_bytes())?;
    Ok(bytes)
}

/// What is read of these pieces with this behind them.
fn read_pieces(alloc: Global, pieces: &[&str], end: &str) -> Result<Told, Memory> {
    let bytes = joined(alloc, pieces, end)?;
    read(alloc, bytes.as_slice())
}

/// A text that ends before its verdict is cut off, and so is a line without its line feed, whatever its form.
const CUT_OFF: [Row; 9] = [
    Row {
        pieces: &[NUMBERS, START, ""],
        told: CUT,
    },
    Row {
        pieces: &[NUMBERS, START, "move 0 0 p1 spent"],
        told: CUT,
    },
    Row {
        pieces: &[NUMBERS, START, "move 0 0 p9 spent"],
        told: CUT,
    },
    Row {
        pieces: &[NUMBERS, START, "nonsense"],
        told: CUT,
    },
    Row {
        pieces: &[NUMBERS, START, "move 0 0 p1 spent\n"],
        told: CUT,
    },
    Row {
        pieces: &[NUMBERS, START, "none left"],
        told: CUT,
    },
    Row {
        pieces: &[],
        told: CUT,
    },
    Row {
        pieces: &[NUMBERS, CUT_START],
        told: CUT,
    },
    Row {
        pieces: &["refereed provers 17"],
        told: CUT,
    },
];

/// These rows as a value.
fn cut_off() -> &'static [Row] {
    &CUT_OFF
}

/// A move has one form, which is tested before its prover's number, and is of a prover.
const MOVES: [Row; 22] = [
    Row {
        pieces: &[NUMBERS, START, "move 0 0 p1 spent\n"],
        told: Told::Moves(1),
    },
    Row {
        pieces: &[NUMBERS, START, "move 4294967295 4294967295 p2 spent\n"],
        told: Told::Moves(1),
    },
    Row {
        pieces: &[NUMBERS, START, "move 0 0 p0 spent\n"],
        told: SECOND_OUT_OF_RANGE,
    },
    Row {
        pieces: &[NUMBERS, START, "move 0 0 p3 spent\n"],
        told: SECOND_OUT_OF_RANGE,
    },
    Row {
        pieces: &[NUMBERS, START, "move 0 0 p4294967295 spent\n"],
        told: SECOND_OUT_OF_RANGE,
    },
    Row {
        pieces: &[NUMBERS, START, "move 4294967296 0 p1 spent\n"],
        told: BAD_SECOND,
    },
    Row {
        pieces: &[NUMBERS, START, "move 0 4294967296 p1 spent\n"],
        told: BAD_SECOND,
    },
    Row {
        pieces: &[NUMBERS, START, "move 0 0 p4294967296 spent\n"],
        told: BAD_SECOND,
    },
    Row {
        pieces: &[NUMBERS, START, "move 0 0 p3 spend\n"],
        told: BAD_SECOND,
    },
    Row {
        pieces: &[NUMBERS, START, "move 0 0 p3 given 07\n"],
        told: BAD_SECOND,
    },
    Row {
        pieces: &[NUMBERS, START, "move 0 0 p1 given \n"],
        told: BAD_SECOND,
    },
    Row {
        pieces: &[NUMBERS, START, "move 0 0 p1 given\n"],
        told: BAD_SECOND,
    },
    Row {
        pieces: &[NUMBERS, START, "move 0 0 p1 spent \n"],
        told: BAD_SECOND,
    },
    Row {
        pieces: &[NUMBERS, START, "move 0 0 p1 spent\r\n"],
        told: BAD_SECOND,
    },
    Row {
        pieces: &[NUMBERS, START, "move 00 0 p1 spent\n"],
        told: BAD_SECOND,
    },
    Row {
        pieces: &[NUMBERS, START, "move 0 01 p1 spent\n"],
        told: BAD_SECOND,
    },
    Row {
        pieces: &[NUMBERS, START, "move 0 0 p01 spent\n"],
        told: BAD_SECOND,
    },
    Row {
        pieces: &[NUMBERS, START, "move 0 0 p+1 spent\n"],
        told: BAD_SECOND,
    },
    Row {
        pieces: &[NUMBERS, START, "move 0  0 p1 spent\n"],
        told: BAD_SECOND,
    },
    Row {
        pieces: &[NUMBERS, START, "move -1 0 p1 spent\n"],
        told: BAD_SECOND,
    },
    Row {
        pieces: &[NUMBERS, START, "move 0 0 1 spent\n"],
        told: BAD_SECOND,
    },
    Row {
        pieces: &[NUMBERS, START, "\n"],
        told: BAD_SECOND,
    },
];

/// These rows as a value.
fn moves() -> &'static [Row] {
    &MOVES
}

/// An answer is the digits of its wire form, and no others.
const ANSWERS: [Row; 7] = [
    Row {
        pieces: &[NUMBERS, START, "move 1 1 p2 ", "given ", ROOT, "\n"],
        told: Told::Moves(1),
    },
    Row {
        pieces: &[NUMBERS, START, "move 1 1 p2 ", "faulty ", ROOT, "\n"],
        told: Told::Moves(1),
    },
    Row {
        pieces: &[NUMBERS, START, "move 1 1 p2 ", "given ", ROOT, "00\n"],
        told: BAD_SECOND,
    },
    Row {
        pieces: &[NUMBERS, START, "move 1 1 p2 ", "given ", ROOT, "0\n"],
        told: BAD_SECOND,
    },
    Row {
        pieces: &[NUMBERS, START, "move 1 1 p2 ", "given  ", ROOT, "\n"],
        told: BAD_SECOND,
    },
    Row {
        pieces: &[NUMBERS, START, "move 1 1 p2 ", "given 01", ROOT, "\n"],
        told: BAD_SECOND,
    },
    Row {
        pieces: &[NUMBERS, START, "move 1 1 p2 ", "given A", ROOT, "\n"],
        told: BAD_SECOND,
    },
];

/// These rows as a value.
fn answers() -> &'static [Row] {
    &ANSWERS
}

/// The first line with a fault is named, whatever the fault.
const TWO_FAULTS: [Row; 8] = [
    Row {
        pieces: &[NUMBERS, START, "move 0 0 p3 spent\nnonsense\nnone left\n"],
        told: SECOND_OUT_OF_RANGE,
    },
    Row {
        pieces: &[NUMBERS, START, "nonsense\nmove 0 0 p3 spent\nnone left\n"],
        told: BAD_SECOND,
    },
    Row {
        pieces: &[NUMBERS, START, "nonsense\nmove 0 0 p3"],
        told: BAD_SECOND,
    },
    Row {
        pieces: &[NUMBERS, START, "move 0 0 p3 spent\nmove"],
        told: SECOND_OUT_OF_RANGE,
    },
    Row {
        pieces: &[
            NUMBERS,
            START,
            "move 0 0 p1 spent\nmove 0 0 p2 spent\nnone left\n",
        ],
        told: Told::Moves(2),
    },
    Row {
        pieces: &[
            NUMBERS,
            START,
            "move 0 0 p1 spent\nmove 0 0 p3 spent\nnone left\n",
        ],
        told: Told::Fault(TextFault::OutOfRange(3)),
    },
    Row {
        pieces: &[
            NUMBERS,
            START,
            "move 0 0 p1 spent\nmove 0 0 p2 spend\nnone left\n",
        ],
        told: Told::Fault(TextFault::BadLine(3)),
    },
    Row {
        pieces: &[NUMBERS, START, "move 0 0 p1 spent\nmove 0 0 p2 spent\nnone"],
        told: CUT,
    },
];

/// These rows as a value.
fn two_faults() -> &'static [Row] {
    &TWO_FAULTS
}

/// Nothing follows the verdict.
const BEHIND: [Row; 5] = [
    Row {
        pieces: &[NUMBERS, START, END, "none left\n"],
        told: ONE_TOO_MANY,
    },
    Row {
        pieces: &[NUMBERS, START, END, "\n"],
        told: ONE_TOO_MANY,
    },
    Row {
        pieces: &[NUMBERS, START, END, "nonsense\nmove"],
        told: ONE_TOO_MANY,
    },
    Row {
        pieces: &[NUMBERS, START, END, "none left"],
        told: CUT,
    },
    Row {
        pieces: &[NUMBERS, START, END, "\0"],
        told: CUT,
    },
];

/// These rows as a value.
fn behind() -> &'static [Row] {
    &BEHIND
}

/// Which verdicts have their form.
const VERDICTS: [Row; 20] = [
    Row {
        pieces: &[NUMBERS, START, "accept running output\n"],
        told: NO_MOVES,
    },
    Row {
        pieces: &[NUMBERS, START, "accept exited 0 output 2a\n"],
        told: NO_MOVES,
    },
    Row {
        pieces: &[NUMBERS, START, "accept exited 4294967295 output 00ff\n"],
        told: NO_MOVES,
    },
    Row {
        pieces: &[NUMBERS, START, "accept trapped 8 output\n"],
        told: NO_MOVES,
    },
    Row {
        pieces: &[NUMBERS, START, "collision 00 0001\n"],
        told: NO_MOVES,
    },
    Row {
        pieces: &[NUMBERS, START, "accept running output \n"],
        told: BAD_SECOND,
    },
    Row {
        pieces: &[NUMBERS, START, "accept running output 2\n"],
        told: BAD_SECOND,
    },
    Row {
        pieces: &[NUMBERS, START, "accept running output 2A\n"],
        told: BAD_SECOND,
    },
    Row {
        pieces: &[NUMBERS, START, "accept running output 2a \n"],
        told: BAD_SECOND,
    },
    Row {
        pieces: &[NUMBERS, START, "accept running 0 output\n"],
        told: BAD_SECOND,
    },
    Row {
        pieces: &[NUMBERS, START, "accept exited output\n"],
        told: BAD_SECOND,
    },
    Row {
        pieces: &[NUMBERS, START, "accept exited 00 output\n"],
        told: BAD_SECOND,
    },
    Row {
        pieces: &[NUMBERS, START, "accept exited 4294967296 output\n"],
        told: BAD_SECOND,
    },
    Row {
        pieces: &[NUMBERS, START, "accept halted 0 output\n"],
        told: BAD_SECOND,
    },
    Row {
        pieces: &[NUMBERS, START, "collision 00\n"],
        told: BAD_SECOND,
    },
    Row {
        pieces: &[NUMBERS, START, "collision 00 \n"],
        told: BAD_SECOND,
    },
    Row {
        pieces: &[NUMBERS, START, "collision  00\n"],
        told: BAD_SECOND,
    },
    Row {
        pieces: &[NUMBERS, START, "collision 00 00 00\n"],
        told: BAD_SECOND,
    },
    Row {
        pieces: &[NUMBERS, START, "none left \n"],
        told: BAD_SECOND,
    },
    Row {
        pieces: &[NUMBERS, START, "none  left\n"],
        told: BAD_SECOND,
    },
];

/// These rows as a value.
fn verdicts() -> &'static [Row] {
    &VERDICTS
}

/// The first row of which something else is read with this behind it, with what is read.
fn first_other(alloc: Global, rows: &[Row], end: &str) -> Result<Option<Row>, Memory> {
    for row in rows {
        let told = read_pieces(alloc, row.pieces, end)?;
        if told != row.told {
            return Ok(Some(Row { told, ..*row }));
        }
    }
    Ok(None)
}

/// Rows of texts behind which this stands.
#[derive(Clone, Copy)]
struct Table {
    rows: &'static [Row],
    end: &'static str,
}

fn tables() -> [Table; 13] {
    [
        Table {
            rows: heads_in_range(),
            end: END,
        },
        Table {
            rows: heads_before_no_form(),
            end: NO_FORM,
        },
        Table {
            rows: heads_out_of_range(),
            end: END,
        },
        Table {
            rows: heads_out_of_range(),
            end: NO_FORM,
        },
        Table {
            rows: bad_heads(),
            end: END,
        },
        Table {
            rows: bad_heads(),
            end: NO_FORM,
        },
        Table {
            rows: root_ends(),
            end: END,
        },
        Table {
            rows: cut_off(),
            end: "",
        },
        Table {
            rows: moves(),
            end: END,
        },
        Table {
            rows: answers(),
            end: END,
        },
        Table {
            rows: two_faults(),
            end: "",
        },
        Table {
            rows: behind(),
            end: "",
        },
        Table {
            rows: verdicts(),
            end: "",
        },
    ]
}

/// The first such row of these tables.
fn first_of_tables(alloc: Global, tables: &[Table]) -> Result<Option<Row>, Memory> {
    for Table { rows, end } in tables {
        let other = first_other(alloc, *rows, *end)?;
        if other.is_some() {
            return Ok(other);
        }
    }
    Ok(None)
}

#[test]
fn the_first_fault_of_a_text_is_found(rt: HostRuntime) -> Result<(), Fail> {
    let other = first_of_tables(rt.alloc(), &tables())?;
    assert!(rt; other.is_none(), "{other:?}");
    Ok(())
}

/// The digits of a string of 129 bytes.
const MOST: &str = "\
        7f7f7f7f7f7f7f7f7f7f7f7f7f7f7f7f7f7f7f7f7f7f7f7f7f7f7f7f7f7f7f7f7f7f7f7f7f7f7f7f7f7f7f\
        7f7f7f7f7f7f7f7f7f7f7f7f7f7f7f7f7f7f7f7f7f7f7f7f7f7f7f7f7f7f7f7f7f7f7f7f7f7f7f7f7f7f7f\
        7f7f7f7f7f7f7f7f7f7f7f7f7f7f7f7f7f7f7f7f7f7f7f7f7f7f7f7f7f7f7f7f7f7f7f7f7f7f7f7f7f7f7f";

/// A hundred digits of a number.
const NINES: &str =
    "9999999999999999999999999999999999999999999999999999999999999999999999999999999999999999999999999999";

/// A collision's strings have at most 129 bytes. A number of a thousand digits is out of range in line 1, and no form in a later line.
const LONG: [Row; 4] = [
    Row {
        pieces: &[NUMBERS, START, "collision ", MOST, " 00\n"],
        told: NO_MOVES,
    },
    Row {
        pieces: &[NUMBERS, START, "collision ", MOST, "7f 00\n"],
        told: BAD_SECOND,
    },
    Row {
        pieces: &[
            "refereed provers ",
            NINES,
            NINES,
            NINES,
            NINES,
            NINES,
            NINES,
            NINES,
            NINES,
            NINES,
            NINES,
            " bound 8 patience 0 version 1 fan 2 digest sha256 ",
            START,
            END,
        ],
        told: HEAD_OUT_OF_RANGE,
    },
    Row {
        pieces: &[
            NUMBERS,
            START,
            "move 0 0 p",
            NINES,
            NINES,
            NINES,
            NINES,
            NINES,
            NINES,
            NINES,
            NINES,
            NINES,
            NINES,
            " spent\n",
            END,
        ],
        told: BAD_SECOND,
    },
];

/// The long rows as a value.
fn long() -> &'static [Row] {
    &LONG
}

#[test]
fn long_strings_and_numbers_are_read_to_their_end(rt: HostRuntime) -> Result<(), Fail> {
    let other = first_other(rt.alloc(), long(), "")?;
    assert!(rt; other.is_none(), "{other:?}");
    Ok(())
}
