//! Opened leaves with their paths.
ghost use Rattle.std.specs.Prelude.{◌≡◌, ◌<◌, ◌≤◌, [], ◌∷◌, ◌++◌, length};

use crate::digest::Digest32;
use std::marker::Model;

/// A Merkle path in the tree of memory: the siblings on the 27 levels from the leaf up, the leaf's own sibling first.
#[derive(Clone, Copy, Debug)]
pub struct Path(pub [Digest32; 27]);

/// A Merkle path in the tree of registers: the siblings on the 5 levels from the leaf up, the leaf's own sibling first.
#[derive(Clone, Copy, Debug)]
pub struct RegPath(pub [Digest32; 5]);

/// A Merkle path in the tree of the input: the siblings on the 15 levels from the leaf up, the leaf's own sibling first.
#[derive(Clone, Copy, Debug)]
pub struct InPath(pub [Digest32; 15]);

/// An opened chunk of memory: its 32 bytes, and its Merkle path.
#[derive(Clone, Copy, Debug)]
pub struct Opening {
    /// The chunk's bytes, the lowest address first.
    pub chunk: [u8; 32],
    /// Its siblings up to the root of memory.
    pub path: Path,
}

/// An opened register: what it holds, and its Merkle path.
#[derive(Clone, Copy, Debug)]
pub struct RegOpening {
    /// What the register holds.
    pub value: u32,
    /// Its siblings up to the root of the registers.
    pub path: RegPath,
}

/// An opened chunk of the input: its 32 bytes, zeros behind the input's end, and its Merkle path.
#[derive(Clone, Copy, Debug)]
pub struct InOpening {
    /// The chunk's bytes, the first one first.
    pub chunk: [u8; 32],
    /// Its siblings up to the root of the input.
    pub path: InPath,
}

/// At most three opened registers, in their order, held inline: it takes no memory.
///
/// Contracts see them as their list.
#[derive(Debug, Drop)]
pub struct RegOpenings {
    openings: [RegOpening; 3],
    len: usize,
}

impl Model for RegOpenings {
    ghost use Rattle.std.specs.Prelude.{List, ◌≤◌, take};
    ghost use Rattle.rd_base.specs.declared.opened.RegOpening.{RegOpening};

    ghost Value = { List RegOpening };

    ghost view = { λ o. take o.len o.openings };

    ghost invariant = { λ o. o.len ≤ 3 };
}

impl RegOpenings {
    /// No opened register.
    pub fn new() -> Self
        ensures { result ≡ [] }
    {
        let unused = RegOpening {
            value: 0,
            path: RegPath([Digest32::ZERO; 5]),
        };
        RegOpenings {
            openings: [unused; 3],
            len: 0,
        }
    }

    /// Appends an opened register to fewer than three.
    pub fn push(&mut self, opening: RegOpening)
        requires { length self.old < 3 }
        ensures { self.new ≡ self.old ++ opening ∷ [] }
    {
        self.openings[self.len] = opening;
        self.len += 1;
    }

    /// The openings, in their order: at most three.
    pub fn as_slice(&self) -> &[RegOpening]
        ensures value { result.now ≡ self.now }
        ensures few { length self.now ≤ 3 }
    {
        &self.openings[..self.len]
    }

    /// A copy of the openings.
    pub fn copy(&self) -> Self
        ensures { result ≡ self.now }
    {
        RegOpenings {
            openings: self.openings,
            len: self.len,
        }
    }
}
