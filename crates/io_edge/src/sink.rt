//! Sinks of bytes, and those over writers of the standard library.
ghost use Rattle.std.specs.Prelude.{ℕ, ◌<◌, ◌≤◌, List, Option, length, take, IfOk, OnErr, OnOk, ◌≡◌, IfSome, IsNone};
ghost use Rattle.std.specs.Io.KnownBytes.{Appends, Keeps};
ghost use Rattle.io_edge.specs.Device.{AppendsPart, Counts};

use crate::fault::Failed;
use std::io::{ErrorKind, Stdout, Write};

/// Where bytes go.
pub trait Sink {
    /// The bytes that it holds, if they are visible.
    ghost held: { Self → Option (List ℕ) };

    /// How often writing has failed. It never falls, and stays at the largest `u64`.
    ghost faults: { Self → ℕ };

    /// Takes the first bytes of `piece`, and returns how many: at least one if `piece` isn't empty. A write that
    /// fails raises the count of faults by one. A prefix of `piece` may have been taken by then, such as when bytes
    /// are written and then a flush fails.
    fn write_some(&mut self, piece: &[u8]) -> Result<usize, Failed>
        ensures within { IfOk result (λ n. n ≤ length piece.now) }
        ensures some { IfOk result (λ n. 0 < length piece.now → 0 < n) }
        ensures bytes { IfOk result (λ n. Appends (held self.old) (held self.new) (take n piece.now)) }
        ensures failed { OnErr result (AppendsPart (held self.old) (held self.new) piece.now) }
        ensures count { Counts (faults self.old) (faults self.new) result };
}

/// Writes all the bytes. It allocates nothing.
///
/// It fails only if the sink's count of faults rose by one, or stays at the largest `u64`, and then the sink has taken a prefix of them.
/// `Ok` leaves the count as it was.
pub fn write_all<K: Sink>(sink: &mut K, bytes: &[u8]) -> Result<(), Failed>
    ensures ok { OnOk result (Appends (K.held sink.old) (K.held sink.new) bytes.now) }
    ensures failed { OnErr result (AppendsPart (K.held sink.old) (K.held sink.new) bytes.now) }
    ensures count { Counts (K.faults sink.old) (K.faults sink.new) result }
{
    let mut done = 0;
    'pieces: while done < bytes.len() {
        done += sink.write_some(&bytes[done..])?;
    }
    Ok(())
}

/// A sink over a writer of the standard library. The bytes held are those that are visible of the writer.
#[derive(Drop)]
pub struct WriterSink<W> {
    output: W,
    failed_writes: u64,
}

/// Standard output. Its bytes aren't visible: what a terminal, a pipe or a file takes is outside what is proved.
pub type StdSink = WriterSink<Stdout>;

impl<W: Write> WriterSink<W> {
    /// A sink over this writer, to which no write has failed yet.
    pub fn new(output: W) -> Self
        ensures held { ⟦<WriterSink<W> as Sink>⟧.held result ≡ W.contents output }
        ensures faults { ⟦<WriterSink<W> as Sink>⟧.faults result ≡ 0 }
    {
        WriterSink {
            output,
            failed_writes: 0,
        }
    }

    /// How often writing has failed, at most the largest `u64`.
    pub fn faults(&self) -> u64
        ensures { result ≡ ⟦<WriterSink<W> as Sink>⟧.faults self.now }
    {
        self.failed_writes
    }
}

impl<W: Write> Sink for WriterSink<W> {
    ghost held = { λ s. W.contents s.output };

    ghost faults = { λ s. s.failed_writes };

    /// It flushes before it returns `Ok`. A write or a flush that a signal interrupted is tried again, and is no
    /// fault. Every other error is one and isn't tried again, nor is a write that takes nothing of a piece that isn't
    /// empty. If the flush fails, the bytes were taken by then.
    fn write_some(&mut self, piece: &[u8]) -> Result<usize, Failed> {
        if let Some(n) = write_and_flush(&mut self.output, piece) {
            return Ok(n);
        }
        self.failed_writes = self.failed_writes.saturating_add(1);
        Err(Failed)
    }
}

/// How many of the first bytes of `piece` were written and flushed, at least one if there is one, or `None` if
/// writing or flushing failed.
fn write_and_flush<W: Write>(output: &mut W, piece: &[u8]) -> Option<usize>
    ensures within { IfSome result (λ n. n ≤ length piece.now) }
    ensures some { IfSome result (λ n. 0 < length piece.now → 0 < n) }
    ensures bytes { IfSome result (λ n. Appends (W.contents output.old) (W.contents output.new) (take n piece.now)) }
    ensures failed { IsNone result → AppendsPart (W.contents output.old) (W.contents output.new) piece.now }
{
    let Some(n) = write_uninterrupted(output, piece) else {
        return None;
    };
    if !flush_uninterrupted(output) {
        return None;
    }
    Some(n)
}

/// How many of the first bytes of `piece` were written, at least one if there is one, or `None` if writing failed.
fn write_uninterrupted<W: Write>(output: &mut W, piece: &[u8]) -> Option<usize>
    ensures within { IfSome result (λ n. n ≤ length piece.now) }
    ensures some { IfSome result (λ n. 0 < length piece.now → 0 < n) }
    ensures bytes { IfSome result (λ n. Appends (W.contents output.old) (W.contents output.new) (take n piece.now)) }
    ensures failed { IsNone result → Keeps (W.contents output.old) (W.contents output.new) }
{
    'tries: for _ in 0..u64::MAX {
        match output.write(piece) {
            Ok(n) => {
                if n > 0 || piece.is_empty() {
                    return Some(n);
                }
                return None;
            }
            Err(e) => {
                if e.kind() != ErrorKind::Interrupted {
                    return None;
                }
            }
        }
    }
    None
}

/// Whether what was written is flushed.
fn flush_uninterrupted<W: Write>(output: &mut W) -> bool
    ensures { Keeps (W.contents output.old) (W.contents output.new) }
{
    'tries: for _ in 0..u64::MAX {
        match output.flush() {
            Ok(()) => return true,
            Err(e) => {
                if e.kind() != ErrorKind::Interrupted {
                    return false;
                }
            }
        }
    }
    false
}
