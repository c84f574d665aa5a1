//! The strings that are digested.
ghost use Rattle.std.specs.Prelude.{◌≡◌, ◌+◌, ◌<◌, ◌≤◌, [], ◌∷◌, ◌++◌, length};

use std::marker::Model;

/// The longest string that a commitment is made of, in bytes.
pub const MAX_TEXT_BYTES: usize = 129;

/// A string of at most 129 bytes, held inline: it takes no memory.
///
/// Contracts see it as the list of its bytes.
#[derive(Debug, Drop)]
pub struct OpenText {
    bytes: [u8; 129],
    len: usize,
}

impl Model for OpenText {
    ghost use Rattle.std.specs.Prelude.{List, ℕ, ◌≤◌, take};

    ghost Value = { List ℕ };

    ghost view = { λ t. take t.len t.bytes };

    ghost invariant = { λ t. t.len ≤ 129 };
}

impl OpenText {
    /// The empty string.
    pub fn new() -> Self
        ensures { result ≡ [] }
    {
        OpenText {
            bytes: [0; 129],
            len: 0,
        }
    }

    /// Appends one byte to fewer than 129.
    pub fn push(&mut self, byte: u8)
        requires { length self.old < 129 }
        ensures { self.new ≡ self.old ++ byte ∷ [] }
    {
        self.bytes[self.len] = byte;
        self.len += 1;
    }

    /// Appends bytes, in their order. There are at most 129 then.
    pub fn extend(&mut self, more: &[u8])
        requires { length self.old + length more.now ≤ 129 }
        ensures { self.new ≡ self.old ++ more.now }
    {
        let end = self.len + more.len();
        self.bytes[self.len..end].copy_from_slice(more);
        self.len = end;
    }

    /// The bytes, in their order.
    pub fn as_slice(&self) -> &[u8]
        ensures { result.now ≡ self.now }
    {
        &self.bytes[..self.len]
    }

    /// A copy of the string.
    pub fn copy(&self) -> Self
        ensures { result ≡ self.now }
    {
        OpenText {
            bytes: self.bytes,
            len: self.len,
        }
    }
}
