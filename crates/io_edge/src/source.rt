//! Sources of bytes, and those over readers of the standard library.
ghost use Rattle.std.specs.Prelude.{◌≡◌, ℕ, ◌<◌, ◌≤◌, List, Option, length, take, IfOk, OnErr, ◌+◌, vec_len, IfSome, IsErrOf, IsNone};
ghost use Rattle.std.specs.Io.KnownBytes.{Consumes, IsAtEnd, Keeps};
ghost use Rattle.io_edge.specs.Device.{Counts, Rises, IsLaterIn, ReadsUpTo};

use crate::fault::Failed;
use std::alloc::Global;
use std::io::{ErrorKind, Read, Stdin};
use thiserror::Error;

/// Where bytes come from.
pub trait Source {
    /// The bytes that are left, if they are visible.
    ghost left: { Self → Option (List ℕ) };

    /// How often reading has failed. It never falls, and stays at the largest `u64`.
    ghost faults: { Self → ℕ };

    /// Reads some bytes into the first places of `buf`, and returns how many: at most as many as `buf` has. 0 means
    /// the end of input, and comes exactly there if the bytes left are visible. A read that fails takes nothing
    /// from the source, and raises its count of faults by one.
    fn read_some(&mut self, buf: &mut [u8]) -> Result<usize, Failed>
        requires { 0 < length buf.old }
        ensures within { IfOk result (λ n. n ≤ length buf.new) }
        ensures bytes { IfOk result (λ n. Consumes (left self.old) (left self.new) (take n buf.new)) }
        ensures end { IfOk result (λ n. n ≡ 0 → IsAtEnd (left self.new)) }
        ensures failed { OnErr result (Keeps (left self.old) (left self.new)) }
        ensures count { Counts (faults self.old) (faults self.new) result };
}

/// How many bytes one call asks for.
const PIECE: usize = 4096;

/// Why not everything was read.
#[derive(Debug, Drop, Error)]
pub enum ReadAll {
    /// A read failed.
    #[error("a read failed")]
    Fault,
    /// The source has more bytes than were allowed.
    #[error("there are too many bytes")]
    TooLong,
    /// An allocation was refused.
    #[error("out of memory")]
    Memory,
}

/// Reads all that the source has, at most `limit` bytes.
///
/// `Fault` comes only if the source's count of faults rose, and every other answer leaves that count as it was. `TooLong` comes only if the
/// source had more than `limit` bytes. `Memory` comes, as the code shows, only if an allocation was refused; an empty source needs none.
/// After an error the bytes that were read are gone from the source: at most `limit`, and with `TooLong` at most 4,096 more. Nothing is
/// read once more than `limit` bytes were seen, nor, as the code shows, after the end.
pub fn read_all<S: Source>(alloc: Global, source: &mut S, limit: usize) -> Result<Vec<u8>, ReadAll>
    ensures all { IfOk result (λ v. Consumes (S.left source.old) (S.left source.new) v.items × IsAtEnd (S.left source.new)) }
    ensures within { IfOk result (λ v. vec_len v ≤ limit) }
    ensures too_long { IsErrOf result ReadAll.TooLong → IfSome (S.left source.old) (λ bytes. limit < length bytes) }
    ensures memory { IsErrOf result ReadAll.Memory → IfSome (S.left source.old) (λ bytes. 0 < length bytes) }
    ensures fault { IsErrOf result ReadAll.Fault → Rises (S.faults source.old) (S.faults source.new) }
    ensures count { ¬ (IsErrOf result ReadAll.Fault) → S.faults source.new ≡ S.faults source.old }
    ensures rest { IfSome (S.left source.old) (IsLaterIn (S.left source.new)) }
    ensures most { ReadsUpTo (S.left source.old) (S.left source.new) (limit + 4096) }
    ensures allowed { ¬ (IsErrOf result ReadAll.TooLong) → ReadsUpTo (S.left source.old) (S.left source.new) limit }
{
    let mut bytes = Vec::new(alloc);
    let mut buf = [0u8; PIECE];
    'pieces: loop {
        let Ok(n) = source.read_some(&mut buf) else {
            return Err(ReadAll::Fault);
        };
        if n == 0 {
            return Ok(bytes);
        }
        if limit - bytes.len() < n {
            return Err(ReadAll::TooLong);
        }
        if bytes.extend_from_slice(&buf[..n]).is_err() {
            return Err(ReadAll::Memory);
        }
    }
}

/// A source over a reader of the standard library. The bytes left are those that are visible of the reader.
#[derive(Drop)]
pub struct ReaderSource<R> {
    input: R,
    failed_reads: u64,
}

/// Standard input. Its bytes aren't visible: what a terminal, a pipe or a file gives is outside what is proved.
pub type StdSource = ReaderSource<Stdin>;

impl<R: Read> ReaderSource<R> {
    /// A source over this reader, of which no read has failed yet.
    pub fn new(input: R) -> Self
        ensures left { ⟦<ReaderSource<R> as Source>⟧.left result ≡ R.remaining input }
        ensures faults { ⟦<ReaderSource<R> as Source>⟧.faults result ≡ 0 }
    {
        ReaderSource {
            input,
            failed_reads: 0,
        }
    }

    /// How often reading has failed, at most the largest `u64`.
    pub fn faults(&self) -> u64
        ensures { result ≡ ⟦<ReaderSource<R> as Source>⟧.faults self.now }
    {
        self.failed_reads
    }
}

impl<R: Read> Source for ReaderSource<R> {
    ghost left = { λ s. R.remaining s.input };

    ghost faults = { λ s. s.failed_reads };

    /// A read that a signal interrupted is tried again, and is no fault. Every other error is one, and isn't tried
    /// again.
    fn read_some(&mut self, buf: &mut [u8]) -> Result<usize, Failed> {
        if let Some(n) = read_uninterrupted(&mut self.input, buf) {
            return Ok(n);
        }
        self.failed_reads = self.failed_reads.saturating_add(1);
        Err(Failed)
    }
}

/// How many bytes were read into the first places of `buf`, 0 at the end of input, or `None` if reading failed.
fn read_uninterrupted<R: Read>(input: &mut R, buf: &mut [u8]) -> Option<usize>
    requires { 0 < length buf.old }
    ensures within { IfSome result (λ n. n ≤ length buf.new) }
    ensures bytes { IfSome result (λ n. Consumes (R.remaining input.old) (R.remaining input.new) (take n buf.new)) }
    ensures end { IfSome result (λ n. n ≡ 0 → IsAtEnd (R.remaining input.new)) }
    ensures failed { IsNone result → Keeps (R.remaining input.old) (R.remaining input.new) }
{
    'tries: for _ in 0..u64::MAX {
        match input.read(buf) {
            Ok(n) => return Some(n),
            Err(e) => {
                if e.kind() != ErrorKind::Interrupted {
                    return None;
                }
            }
        }
    }
    None
}
