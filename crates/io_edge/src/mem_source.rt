//! A source of bytes in memory, for tests.
ghost use Rattle.std.specs.Prelude.{◌≡◌, ◌↔◌, ◌<◌, ◌≤◌, min, ◌++◌, length, take, drop, Some, Contains, IfOk, OnErr, IsErr};
ghost use Rattle.std.specs.Io.KnownBytes.{Consumes, IsAtEnd, Keeps};
ghost use Rattle.io_edge.specs.Device.{Counts, next_count};
ghost use Rattle.io_edge.specs.MemSource.{after_read, after_failed_read};

use crate::fault::Failed;
use crate::source::Source;
use std::marker::Model;

/// A source of bytes in memory, some of whose calls fail: a model of a device, for tests.
///
/// Contracts see the bytes `left`, the most bytes of one call (`piece`), the numbers of the calls that fail,
/// counted from 1 (`fails`), and how many calls were made (`calls`) and failed (`faults`). It allocates nothing.
#[derive(Debug, Drop)]
pub struct MemSource {
    bytes: Vec<u8>,
    given: usize,
    piece: usize,
    fails: Vec<u64>,
    calls: u64,
    faults: u64,
}

impl Model for MemSource {
    ghost use Rattle.std.specs.Prelude.{◌≤◌, drop, vec_len};
    ghost use Rattle.io_edge.specs.MemSource.{SourceState};

    ghost Value = { SourceState };

    ghost view = { λ s. record { left = drop s.given s.bytes.items; piece = s.piece; fails = s.fails.items; calls = s.calls; faults = s.faults } };

    ghost invariant = { λ s. (s.given ≤ vec_len s.bytes) × (1 ≤ s.piece) };
}

impl MemSource {
    /// A source of these bytes, of which no call was made yet. It gives at most `piece` bytes a call, and the
    /// calls whose numbers are in `fails` fail.
    pub fn new(bytes: Vec<u8>, piece: usize, fails: Vec<u64>) -> Self
        requires { 1 ≤ piece }
        ensures { result ≡ record { left = bytes.items; piece = piece; fails = fails.items; calls = 0; faults = 0 } }
    {
        MemSource {
            bytes,
            given: 0,
            piece,
            fails,
            calls: 0,
            faults: 0,
        }
    }

    /// How many calls failed, at most the largest `u64`.
    pub fn faults(&self) -> u64
        ensures { result ≡ self.now.faults }
    {
        self.faults
    }
}

impl Source for MemSource {
    ghost left = { λ s. Some s.left };

    ghost faults = { λ s. s.faults };

    /// Gives as many bytes as `piece`, `buf` and what is left allow. The rest of `buf` stays, and all of it
    /// if the call fails.
    fn read_some(&mut self, buf: &mut [u8]) -> Result<usize, Failed>
        requires { 0 < length buf.old }

        ensures fails { IsErr result ↔ Contains self.old.fails (next_count self.old.calls) }
        ensures given { IfOk result (λ n. n ≡ min (min self.old.piece (length buf.old)) (length self.old.left)) }
        ensures written { IfOk result (λ n. buf.new ≡ take n self.old.left ++ drop n buf.old) }
        ensures ok { IfOk result (λ n. self.new ≡ after_read self.old n) }
        ensures err { OnErr result (self.new ≡ after_failed_read self.old) }
        ensures unwritten { OnErr result (buf.new ≡ buf.old) }

        // What `Source` promises of it.
        ensures within { IfOk result (λ n. n ≤ length buf.new) }
        ensures bytes { IfOk result (λ n. Consumes (Some self.old.left) (Some self.new.left) (take n buf.new)) }
        ensures end { IfOk result (λ n. n ≡ 0 → IsAtEnd (Some self.new.left)) }
        ensures failed { OnErr result (Keeps (Some self.old.left) (Some self.new.left)) }
        ensures count { Counts self.old.faults self.new.faults result }
    {
        self.calls = self.calls.saturating_add(1);
        if self.fails.contains(&self.calls) {
            self.faults = self.faults.saturating_add(1);
            return Err(Failed);
        }
        let n = self.piece.min(buf.len()).min(self.bytes.len() - self.given);
        buf[..n].copy_from_slice(&self.bytes[self.given..self.given + n]);
        self.given += n;
        Ok(n)
    }
}
