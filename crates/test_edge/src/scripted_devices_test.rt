//! Sources and sinks over a reader and a writer that follow a script of their calls.
ghost use Rattle.std.specs.Prelude.{◌≤◌, IfOk};

use crate::reads_and_writes::{Outcome, TEXT, read_from, written_to};
use io_edge::*;
use std::alloc::Global;
use std::io;
use std::io::{ErrorKind, Read, Write};
use std::test::Fail;

/// What a scripted device does in one call.
#[derive(Clone, Copy)]
enum Turn {
    /// It moves at most this many bytes.
    Moves(usize),
    Fails(ErrorKind),
}

/// A reader and a writer that does what its turns say, and fails after them. It counts its calls.
#[derive(Drop)]
struct Scripted {
    turns: &'static [Turn],
    flushes: &'static [Turn],
    calls: usize,
    flush_calls: usize,
    moved: usize,
}

impl Scripted {
    fn new(turns: &'static [Turn], flushes: &'static [Turn]) -> Self {
        Scripted {
            turns,
            flushes,
            calls: 0,
            flush_calls: 0,
            moved: 0,
        }
    }

    /// How many of `len` bytes the next call moves.
    fn next(&mut self, len: usize) -> io::Result<usize>
        ensures { IfOk result (λ n. n ≤ len) }
    {
        let turn = turn_at(self.turns, self.calls);
        self.calls = self.calls.saturating_add(1);
        match turn {
            Turn::Moves(most) => {
                self.moved = self.moved.saturating_add(most.min(len));
                Ok(most.min(len))
            }
            Turn::Fails(kind) => Err(kind.into()),
        }
    }
}

fn turn_at(turns: &[Turn], call: usize) -> Turn {
    match turns.get(call) {
        Some(turn) => *turn,
        None => Turn::Fails(ErrorKind::Other),
    }
}

impl Read for Scripted {
    fn read(&mut self, buf: &mut [u8]) -> io::Result<usize> {
        self.next(buf.len())
    }
}

impl Write for Scripted {
    fn write(&mut self, buf: &[u8]) -> io::Result<usize> {
        self.next(buf.len())
    }

    fn flush(&mut self) -> io::Result<()> {
        let turn = turn_at(self.flushes, self.flush_calls);
        self.flush_calls = self.flush_calls.saturating_add(1);
        match turn {
            Turn::Moves(_) => Ok(()),
            Turn::Fails(kind) => Err(kind.into()),
        }
    }
}

const NOTHING: Turn = Turn::Moves(0);

const FIVE: Turn = Turn::Moves(5);

const ALL: Turn = Turn::Moves(12);

const INTERRUPTED: Turn = Turn::Fails(ErrorKind::Interrupted);

const WOULD_BLOCK: Turn = Turn::Fails(ErrorKind::WouldBlock);

const BROKEN_PIPE: Turn = Turn::Fails(ErrorKind::BrokenPipe);

const FULL: Turn = Turn::Fails(ErrorKind::StorageFull);

/// What a read from a reader answers, `None` for a fault; and how many faults are counted.
fn read_some_from<R: Read>(reader: &mut R) -> (Option<usize>, u64) {
    let mut source = ReaderSource::new(reader);
    let answer = source.read_some(&mut [0; 12]).ok();
    (answer, source.faults())
}

/// The same of such a reader, and how many calls are made.
fn read_once(turns: &'static [Turn]) -> (Option<usize>, u64, usize) {
    let mut reader = Scripted::new(turns, &[]);
    let (answer, faults) = read_some_from(&mut reader);
    (answer, faults, reader.calls)
}

/// A read from a scripted reader.
#[derive(Clone, Copy)]
struct ReadOnce {
    /// What the reader does in its calls.
    turns: &'static [Turn],
    /// How many bytes the read gives; `None` for a fault.
    answer: Option<usize>,
    /// How many calls are made.
    calls: usize,
}

const READS: [ReadOnce; 8] = [
    ReadOnce {
        turns: &[ALL],
        answer: Some(12),
        calls: 1,
    },
    ReadOnce {
        turns: &[FIVE],
        answer: Some(5),
        calls: 1,
    },
    ReadOnce {
        turns: &[NOTHING, FIVE],
        answer: Some(0),
        calls: 1,
    },
    ReadOnce {
        turns: &[INTERRUPTED, INTERRUPTED, FIVE],
        answer: Some(5),
        calls: 3,
    },
    ReadOnce {
        turns: &[INTERRUPTED, NOTHING],
        answer: Some(0),
        calls: 2,
    },
    ReadOnce {
        turns: &[WOULD_BLOCK, FIVE],
        answer: None,
        calls: 1,
    },
    ReadOnce {
        turns: &[BROKEN_PIPE, FIVE],
        answer: None,
        calls: 1,
    },
    ReadOnce {
        turns: &[INTERRUPTED, WOULD_BLOCK, FIVE],
        answer: None,
        calls: 2,
    },
];

/// The first row of reads that answers something else, or counts otherwise.
fn first_other_read() -> Option<usize> {
    for (place, row) in READS.iter().enumerate() {
        let faults = u64::from(row.answer.is_none());
        if read_once(row.turns) != (row.answer, faults, row.calls) {
            return Some(place);
        }
    }
    None
}

#[test]
fn a_read_is_short_or_interrupted_or_a_fault(rt: HostRuntime) {
    assert_eq!(rt; first_other_read(), None);
}

/// How many calls and how many flushes are made, and how many bytes move.
#[derive(Clone, Copy, PartialEq, Eq)]
struct Counts {
    calls: usize,
    flushes: usize,
    moved: usize,
}

/// What a write to a writer answers, `None` for a fault; and how many faults are counted.
fn write_some_to<W: Write>(writer: &mut W) -> (Option<usize>, u64) {
    let mut sink = WriterSink::new(writer);
    let answer = sink.write_some(TEXT).ok();
    (answer, sink.faults())
}

/// The same of such a writer, and what the writer counts.
fn written_once(turns: &'static [Turn], flushes: &'static [Turn]) -> (Option<usize>, u64, Counts) {
    let mut writer = Scripted::new(turns, flushes);
    let (answer, faults) = write_some_to(&mut writer);
    let counts = Counts {
        calls: writer.calls,
        flushes: writer.flush_calls,
        moved: writer.moved,
    };
    (answer, faults, counts)
}

/// A write to a scripted writer.
#[derive(Clone, Copy)]
struct WriteOnce {
    /// What the writer does in its calls, and in its flushes.
    turns: &'static [Turn],
    flushes: &'static [Turn],
    /// How many bytes the write takes; `None` for a fault.
    answer: Option<usize>,
    counts: Counts,
}

const WRITES: [WriteOnce; 11] = [
    WriteOnce {
        turns: &[ALL],
        flushes: &[NOTHING],
        answer: Some(12),
        counts: Counts {
            calls: 1,
            flushes: 1,
            moved: 12,
        },
    },
    WriteOnce {
        turns: &[FIVE],
        flushes: &[NOTHING],
        answer: Some(5),
        counts: Counts {
            calls: 1,
            flushes: 1,
            moved: 5,
        },
    },
    WriteOnce {
        turns: &[INTERRUPTED, INTERRUPTED, FIVE],
        flushes: &[NOTHING],
        answer: Some(5),
        counts: Counts {
            calls: 3,
            flushes: 1,
            moved: 5,
        },
    },
    WriteOnce {
        turns: &[FIVE],
        flushes: &[INTERRUPTED, NOTHING],
        answer: Some(5),
        counts: Counts {
            calls: 1,
            flushes: 2,
            moved: 5,
        },
    },
    WriteOnce {
        turns: &[NOTHING, FIVE],
        flushes: &[NOTHING],
        answer: None,
        counts: Counts {
            calls: 1,
            flushes: 0,
            moved: 0,
        },
    },
    WriteOnce {
        turns: &[WOULD_BLOCK, FIVE],
        flushes: &[NOTHING],
        answer: None,
        counts: Counts {
            calls: 1,
            flushes: 0,
            moved: 0,
        },
    },
    WriteOnce {
        turns: &[BROKEN_PIPE, FIVE],
        flushes: &[NOTHING],
        answer: None,
        counts: Counts {
            calls: 1,
            flushes: 0,
            moved: 0,
        },
    },
    WriteOnce {
        turns: &[INTERRUPTED, WOULD_BLOCK, FIVE],
        flushes: &[NOTHING],
        answer: None,
        counts: Counts {
            calls: 2,
            flushes: 0,
            moved: 0,
        },
    },
    WriteOnce {
        turns: &[FIVE],
        flushes: &[WOULD_BLOCK, NOTHING],
        answer: None,
        counts: Counts {
            calls: 1,
            flushes: 1,
            moved: 5,
        },
    },
    WriteOnce {
        turns: &[FIVE],
        flushes: &[BROKEN_PIPE, NOTHING],
        answer: None,
        counts: Counts {
            calls: 1,
            flushes: 1,
            moved: 5,
        },
    },
    WriteOnce {
        turns: &[ALL],
        flushes: &[FULL],
        answer: None,
        counts: Counts {
            calls: 1,
            flushes: 1,
            moved: 12,
        },
    },
];

/// The first row of writes that answers something else, or counts otherwise.
fn first_other_write() -> Option<usize> {
    for (place, row) in WRITES.iter().enumerate() {
        let faults = u64::from(row.answer.is_none());
        if written_once(row.turns, row.flushes) != (row.answer, faults, row.counts) {
            return Some(place);
        }
    }
    None
}

#[test]
fn a_write_is_short_or_interrupted_or_a_fault(rt: HostRuntime) {
    assert_eq!(rt; first_other_write(), None);
}

/// Whether a whole write to such a device succeeds, how many faults are counted, and how many calls are made.
fn written_whole(turns: &'static [Turn]) -> (bool, u64, usize) {
    let mut device = Scripted::new(turns, &[NOTHING, NOTHING, NOTHING]);
    let (is_written, faults) = written_to(&mut device);
    (is_written, faults, device.calls)
}

#[test]
fn pieces_are_written_until_all_is_done_or_a_call_fails(rt: HostRuntime) {
    let written = [
        written_whole(&[FIVE, INTERRUPTED, FIVE, NOTHING]),
        written_whole(&[FIVE, WOULD_BLOCK, FIVE]),
        written_whole(&[FIVE, Turn::Moves(4), Turn::Moves(3)]),
        written_whole(&[ALL, NOTHING]),
    ];
    assert_eq!(rt;
        written,
        [(false, 1, 4), (false, 1, 2), (true, 0, 3), (true, 0, 1)]
    );
}

/// Whether a whole read of at most 10 bytes from such a device gives ten, or its fault; and how many calls are made. The device writes
/// nothing, so that each byte is 0.
fn read_whole(alloc: Global, turns: &'static [Turn]) -> (Outcome, usize) {
    let mut device = Scripted::new(turns, &[]);
    let read = read_from(alloc, &mut device, 10, &[0; 10]);
    (read, device.calls)
}

#[test]
fn pieces_are_read_until_all_is_done_or_a_call_fails(rt: HostRuntime) {
    let alloc = rt.alloc();
    let read = [
        read_whole(alloc, &[FIVE, INTERRUPTED, FIVE, NOTHING]),
        read_whole(alloc, &[FIVE, WOULD_BLOCK, FIVE]),
        read_whole(alloc, &[FIVE, Turn::Moves(4), Turn::Moves(3)]),
        read_whole(alloc, &[ALL, NOTHING]),
    ];
    assert_eq!(rt;
        read,
        [
            (Ok(true), 4),
            (Err("fault"), 2),
            (Err("too long"), 3),
            (Err("too long"), 1),
        ]
    );
}
