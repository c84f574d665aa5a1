//! Sources and sinks over memory, those of the library over its memory, and standard devices.

use crate::reads_and_writes::{Outcome, TEXT, read_from, read_up_to, takes_text, written_to};
use io_edge::*;
use rd_base::Memory;
use std::alloc::{AllocError, Global};
use std::test::Fail;

/// A read of the text in pieces, up to a limit.
#[derive(Clone, Copy)]
struct Limit {
    /// How many bytes each call gives.
    piece: usize,
    limit: usize,
    /// Whether all fits.
    fits: bool,
    /// The call after the last one, which would fail.
    failing: u64,
}

const LIMITS: [Limit; 9] = [
    Limit {
        piece: 1,
        limit: 0,
        fits: false,
        failing: 2,
    },
    Limit {
        piece: 1,
        limit: 11,
        fits: false,
        failing: 13,
    },
    Limit {
        piece: 1,
        limit: 12,
        fits: true,
        failing: 14,
    },
    Limit {
        piece: 7,
        limit: 0,
        fits: false,
        failing: 2,
    },
    Limit {
        piece: 7,
        limit: 11,
        fits: false,
        failing: 3,
    },
    Limit {
        piece: 7,
        limit: 12,
        fits: true,
        failing: 4,
    },
    Limit {
        piece: 7,
        limit: 13,
        fits: true,
        failing: 4,
    },
    Limit {
        piece: 4096,
        limit: 11,
        fits: false,
        failing: 2,
    },
    Limit {
        piece: 4096,
        limit: 12,
        fits: true,
        failing: 3,
    },
];

/// What a read of the text up to a limit comes to, and how many faults are counted.
fn read_text(alloc: Global, mut source: MemSource, limit: usize) -> (Outcome, u64) {
    let read = read_up_to(alloc, &mut source, limit, TEXT);
    (read, source.faults())
}

/// A source of the text that gives this many bytes in each call, and fails in this one.
fn source_of_text(alloc: Global, piece: usize, failing: u64) -> Result<MemSource, AllocError> {
    let (bytes, fails) = (TEXT.to_vec(alloc)?, [failing].to_vec(alloc)?);
    Ok(MemSource::new(bytes, piece.max(1), fails))
}

/// Whether such a read gives all, or is too long, and makes no call that fails.
fn stops(alloc: Global, row: &Limit) -> bool {
    let read = if row.fits { Ok(true) } else { Err("too long") };
    match source_of_text(alloc, row.piece, row.failing) {
        Ok(source) => read_text(alloc, source, row.limit) == (read, 0),
        Err(_) => false,
    }
}

/// The first row of limits that isn't kept.
fn first_other_limit(alloc: Global) -> Option<usize> {
    for (place, row) in LIMITS.iter().enumerate() {
        if !stops(alloc, row) {
            return Some(place);
        }
    }
    None
}

#[test]
fn reading_stops_at_the_end_and_once_the_limit_is_passed(rt: HostRuntime) {
    assert_eq!(rt; first_other_limit(rt.alloc()), None);
}

/// What two reads of a source come to, the second if it gives these bytes, and how many faults are counted behind each.
fn read_twice(alloc: Global, mut source: MemSource, rest: &[u8]) -> [(Outcome, u64); 2] {
    let first = read_up_to(alloc, &mut source, 12, b"");
    let faults = source.faults();
    let second = read_up_to(alloc, &mut source, 12, rest);
    [(first, faults), (second, source.faults())]
}

/// Whether a read of which this call fails is a fault, and the next one gives the rest.
fn fails_and_reads_on(alloc: Global, call: u64, rest: &[u8]) -> bool {
    match source_of_text(alloc, 7, call) {
        Ok(source) => read_twice(alloc, source, rest) == [(Err("fault"), 1), (Ok(true), 1)],
        Err(_) => false,
    }
}

/// The first call, the second, and the third, which would show the end of input.
#[test]
fn a_failed_read_is_no_end_of_input_and_takes_nothing(rt: HostRuntime) {
    let alloc = rt.alloc();
    let failed = [
        fails_and_reads_on(alloc, 1, b"hello, world"),
        fails_and_reads_on(alloc, 2, b"world"),
        fails_and_reads_on(alloc, 3, b""),
    ];
    assert_eq!(rt; failed, [true; 3]);
}

/// A write of the text into a sink.
#[derive(Clone, Copy)]
struct Room {
    /// How many bytes each call takes.
    piece: usize,
    /// How many bytes the sink has room for.
    room: usize,
    /// The call that fails. Calls are counted from 1, so that none fails at 0.
    failing: u64,
    /// How many bytes the sink holds then.
    held: usize,
}

const ROOMS: [Room; 9] = [
    Room {
        piece: 1,
        room: 12,
        failing: 0,
        held: 12,
    },
    Room {
        piece: 7,
        room: 12,
        failing: 0,
        held: 12,
    },
    Room {
        piece: 4096,
        room: 13,
        failing: 0,
        held: 12,
    },
    Room {
        piece: 1,
        room: 12,
        failing: 3,
        held: 2,
    },
    Room {
        piece: 7,
        room: 12,
        failing: 2,
        held: 7,
    },
    Room {
        piece: 4096,
        room: 12,
        failing: 1,
        held: 0,
    },
    Room {
        piece: 1,
        room: 5,
        failing: 0,
        held: 5,
    },
    Room {
        piece: 7,
        room: 11,
        failing: 0,
        held: 11,
    },
    Room {
        piece: 4096,
        room: 0,
        failing: 0,
        held: 0,
    },
];

/// Whether the text is written whole to a sink, whether the sink then holds this many bytes of it, and how many faults are counted.
fn write_text(mut sink: MemSink, held: usize) -> (bool, bool, u64) {
    let is_whole = takes_text(&mut sink);
    let holds = TEXT.get(..held) == Some(sink.as_slice());
    (is_whole, holds, sink.faults())
}

/// A sink of such a row.
fn sink_with(alloc: Global, row: &Room) -> Result<MemSink, Memory> {
    let fails = [row.failing].to_vec(alloc)?;
    MemSink::new(alloc, row.room, row.piece.max(1), fails)
}

/// Whether a sink holds this many bytes of the text after it was written, and a fault if and only if that isn't all.
fn holds(alloc: Global, row: &Room) -> bool {
    let is_whole = row.held == 12;
    match sink_with(alloc, row) {
        Ok(sink) => write_text(sink, row.held) == (is_whole, true, u64::from(!is_whole)),
        Err(Memory) => false,
    }
}

/// The first row of rooms whose sink holds something else.
fn first_other_room(alloc: Global) -> Option<usize> {
    for (place, row) in ROOMS.iter().enumerate() {
        if !holds(alloc, row) {
            return Some(place);
        }
    }
    None
}

#[test]
fn a_sink_holds_all_or_after_a_fault_a_prefix(rt: HostRuntime) {
    assert_eq!(rt; first_other_room(rt.alloc()), None);
}

/// Whether a writer into memory takes the text, which the memory then has.
fn is_written(alloc: Global) -> bool {
    let mut written = Vec::new(alloc);
    let is_taken = written_to(&mut written).0;
    is_taken & (written.as_slice() == TEXT)
}

/// Whether a reader over memory gives the text.
fn is_read(alloc: Global) -> bool {
    let mut reader = TEXT;
    read_from(alloc, &mut reader, 12, TEXT) == Ok(true)
}

/// Whether a quiet source gives the text, and then nothing.
fn is_read_once(alloc: Global, mut source: QuietSource) -> bool {
    let all = read_up_to(alloc, &mut source, 12, TEXT);
    let rest = read_up_to(alloc, &mut source, 12, b"");
    [all, rest] == [Ok(true), Ok(true)]
}

/// Devices over memory of the library, and quiet ones.
#[test]
fn devices_over_memory_of_the_library_move_its_bytes(rt: HostRuntime) -> Result<(), Fail> {
    let alloc = rt.alloc();
    let quiet = QuietSource::new(TEXT.to_vec(alloc)?);
    let moved = [
        is_read(alloc),
        is_written(alloc),
        is_read_once(alloc, quiet),
        takes_text(&mut QuietSink),
    ];
    assert_eq!(rt; moved, [true; 4]);
    Ok(())
}

#[test]
fn standard_devices_start_with_no_fault(rt: HostRuntime) {
    let source = StdSource::new(rt.stdin());
    let mut sink = StdSink::new(rt.stdout());
    let is_taken = takes_text(&mut sink);
    assert_eq!(rt; (source.faults(), is_taken, sink.faults()), (0, true, 0));
}
