//! A text, and what comes of whole reads and writes of it.

use io_edge::*;
use std::alloc::Global;
use std::io::{Read, Write};

/// The text that is read and written.
pub(crate) const TEXT: &[u8] = b"hello, world";

/// What a whole read comes to: whether it gives these bytes, or its fault in short.
pub(crate) type Outcome = Result<bool, &'static str>;

/// What this read comes to.
fn outcome(read: Result<Vec<u8>, ReadAll>, bytes: &[u8]) -> Outcome {
    match read {
        Ok(all) => Ok(all.as_slice() == bytes),
        Err(fault) => Err(in_short(&fault)),
    }
}

/// The fault of a whole read in short.
fn in_short(fault: &ReadAll) -> &'static str {
    match fault {
        ReadAll::Fault => "fault",
        ReadAll::TooLong => "too long",
        ReadAll::Memory => "memory",
    }
}

/// What a read of a source up to a limit comes to.
pub(crate) fn read_up_to<S: Source>(
    alloc: Global,
    source: &mut S,
    limit: usize,
    bytes: &[u8],
) -> Outcome {
    outcome(read_all(alloc, source, limit), bytes)
}

/// What a read of a reader up to a limit comes to.
pub(crate) fn read_from<R: Read>(
    alloc: Global,
    reader: &mut R,
    limit: usize,
    bytes: &[u8],
) -> Outcome {
    read_up_to(alloc, &mut ReaderSource::new(reader), limit, bytes)
}

/// Whether a sink takes the text.
pub(crate) fn takes_text<K: Sink>(sink: &mut K) -> bool {
    write_all(sink, TEXT).is_ok()
}

/// Whether a writer takes the text, and how many faults are counted.
pub(crate) fn written_to<W: Write>(writer: &mut W) -> (bool, u64) {
    let mut sink = WriterSink::new(writer);
    let is_taken = takes_text(&mut sink);
    (is_taken, sink.faults())
}
