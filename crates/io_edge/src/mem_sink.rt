//! A sink into memory, for tests.
ghost use Rattle.std.specs.Prelude.{◌≡◌, ◌↔◌, ◌⊎◌, ◌-◌, ◌<◌, ◌≤◌, min, [], length, take, Some, Contains, IfOk, OnErr, IsOk, IsErr};
ghost use Rattle.std.specs.Io.KnownBytes.{Appends};
ghost use Rattle.io_edge.specs.Device.{AppendsPart, Counts, next_count};
ghost use Rattle.io_edge.specs.MemSink.{after_write, after_failed_write};

use crate::fault::Failed;
use crate::sink::Sink;
use rd_base::Memory;
use std::alloc::Global;
use std::marker::Model;

/// A sink into memory, some of whose calls fail: a model of a device, for tests.
///
/// Contracts see the bytes `held`, the most that it holds (`room`), the most bytes of one call (`piece`), the
/// numbers of the calls that fail, counted from 1 (`fails`), and how many calls were made (`calls`) and
/// failed (`faults`). It allocates only when it is made. A call that fails takes nothing.
#[derive(Debug, Drop)]
pub struct MemSink {
    bytes: Vec<u8>,
    room: usize,
    piece: usize,
    fails: Vec<u64>,
    calls: u64,
    faults: u64,
}

impl Model for MemSink {
    ghost use Rattle.std.specs.Prelude.{◌≤◌, vec_len, vec_capacity};
    ghost use Rattle.io_edge.specs.MemSink.{SinkState};

    ghost Value = { SinkState };

    ghost view = { λ s. record { held = s.bytes.items; room = s.room; piece = s.piece; fails = s.fails.items; calls = s.calls; faults = s.faults } };

    ghost invariant = { λ s. (vec_len s.bytes ≤ s.room) × (s.room ≤ vec_capacity s.bytes) × (1 ≤ s.piece) };
}

impl MemSink {
    /// An empty sink, of which no call was made yet, with memory for `room` bytes. It takes at most `piece`
    /// bytes a call, and the calls whose numbers are in `fails` fail. `Memory` if that allocation was
    /// refused; with `room` 0 it allocates nothing.
    pub fn new(alloc: Global, room: usize, piece: usize, fails: Vec<u64>) -> Result<Self, Memory>
        requires { 1 ≤ piece }
        ensures none_needed { room ≡ 0 → IsOk result }
        ensures new { IfOk result (λ s. s ≡ record { held = []; room = room; piece = piece; fails = fails.items; calls = 0; faults = 0 }) }
    {
        Ok(MemSink {
            bytes: Vec::with_capacity(alloc, room)?,
            room,
            piece,
            fails,
            calls: 0,
            faults: 0,
        })
    }

    /// The bytes that it holds, in the order in which they came.
    pub fn as_slice(&self) -> &[u8]
        ensures { result.now ≡ self.now.held }
    {
        self.bytes.as_slice()
    }

    /// How many calls failed, at most the largest `u64`.
    pub fn faults(&self) -> u64
        ensures { result ≡ self.now.faults }
    {
        self.faults
    }
}

impl Sink for MemSink {
    ghost held = { λ s. Some s.held };

    ghost faults = { λ s. s.faults };

    /// Takes as many bytes as the sink's own `piece`, this piece and the room left allow. If it is full,
    /// a piece that isn't empty is a fault.
    fn write_some(&mut self, piece: &[u8]) -> Result<usize, Failed>
        ensures fails { IsErr result ↔ (Contains self.old.fails (next_count self.old.calls) ⊎ ((length self.old.held ≡ self.old.room) × (0 < length piece.now))) }
        ensures taken { IfOk result (λ n. n ≡ min (min self.old.piece (length piece.now)) (self.old.room - length self.old.held)) }
        ensures ok { IfOk result (λ n. self.new ≡ after_write self.old (take n piece.now)) }
        ensures err { OnErr result (self.new ≡ after_failed_write self.old) }

        // What `Sink` promises of it.
        ensures within { IfOk result (λ n. n ≤ length piece.now) }
        ensures some { IfOk result (λ n. 0 < length piece.now → 0 < n) }
        ensures bytes { IfOk result (λ n. Appends (Some self.old.held) (Some self.new.held) (take n piece.now)) }
        ensures failed { OnErr result (AppendsPart (Some self.old.held) (Some self.new.held) piece.now) }
        ensures count { Counts self.old.faults self.new.faults result }
    {
        self.calls = self.calls.saturating_add(1);
        let left = self.room - self.bytes.len();
        let is_full = left == 0 && !piece.is_empty();
        if is_full || self.fails.contains(&self.calls) {
            self.faults = self.faults.saturating_add(1);
            return Err(Failed);
        }
        let n = self.piece.min(piece.len()).min(left);
        self.bytes.extend_from_slice(&piece[..n]).unwrap();
        Ok(n)
    }
}
