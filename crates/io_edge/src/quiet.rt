//! A source and a sink that never fail.
ghost use Rattle.std.specs.Prelude.{◌≡◌, ◌<◌, ◌≤◌, min, ◌++◌, length, take, drop, Some, None, Ok, IfOk, OnErr};
ghost use Rattle.std.specs.Io.KnownBytes.{Consumes, IsAtEnd, Appends, Keeps};
ghost use Rattle.io_edge.specs.Device.{AppendsPart, Counts};

use crate::fault::Failed;
use crate::sink::Sink;
use crate::source::Source;
use std::marker::Model;

/// A source of bytes in memory that never fails. Contracts see the bytes that are left.
#[derive(Debug, Drop)]
pub struct QuietSource {
    bytes: Vec<u8>,
    given: usize,
}

impl Model for QuietSource {
    ghost use Rattle.std.specs.Prelude.{ℕ, List, ◌≤◌, drop, vec_len};

    ghost Value = { List ℕ };

    ghost view = { λ s. drop s.given s.bytes.items };

    ghost invariant = { λ s. s.given ≤ vec_len s.bytes };
}

impl QuietSource {
    /// A source of these bytes.
    pub fn new(bytes: Vec<u8>) -> Self
        ensures { result ≡ bytes.items }
    {
        QuietSource { bytes, given: 0 }
    }
}

impl Source for QuietSource {
    ghost left = { λ s. Some s };

    ghost faults = { λ s. 0 };

    /// Gives as many bytes as `buf` and what is left allow. The rest of `buf` stays.
    fn read_some(&mut self, buf: &mut [u8]) -> Result<usize, Failed>
        requires { 0 < length buf.old }

        ensures given { result ≡ Ok (min (length buf.old) (length self.old)) }
        ensures written { IfOk result (λ n. buf.new ≡ take n self.old ++ drop n buf.old) }
        ensures rest { IfOk result (λ n. self.new ≡ drop n self.old) }

        // What `Source` promises of it.
        ensures within { IfOk result (λ n. n ≤ length buf.new) }
        ensures bytes { IfOk result (λ n. Consumes (Some self.old) (Some self.new) (take n buf.new)) }
        ensures end { IfOk result (λ n. n ≡ 0 → IsAtEnd (Some self.new)) }
        ensures failed { OnErr result (Keeps (Some self.old) (Some self.new)) }
        ensures count { Counts 0 0 result }
    {
        let n = buf.len().min(self.bytes.len() - self.given);
        buf[..n].copy_from_slice(&self.bytes[self.given..self.given + n]);
        self.given += n;
        Ok(n)
    }
}

/// A sink that takes each piece whole and drops it. It never fails, and its bytes aren't visible.
#[derive(Clone, Copy, Debug)]
pub struct QuietSink;

impl Sink for QuietSink {
    ghost held = { λ s. None };

    ghost faults = { λ s. 0 };

    /// Takes the whole piece.
    fn write_some(&mut self, piece: &[u8]) -> Result<usize, Failed>
        ensures taken { result ≡ Ok (length piece.now) }

        // What `Sink` promises of it.
        ensures within { IfOk result (λ n. n ≤ length piece.now) }
        ensures some { IfOk result (λ n. 0 < length piece.now → 0 < n) }
        ensures bytes { IfOk result (λ n. Appends None None (take n piece.now)) }
        ensures failed { OnErr result (AppendsPart None None piece.now) }
        ensures count { Counts 0 0 result }
    {
        Ok(piece.len())
    }
}
