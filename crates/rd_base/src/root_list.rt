//! Lists of roots.
ghost use Rattle.std.specs.Prelude.{◌≡◌, ◌≤◌, ◌↔◌, length, IfOk, IfSome, IsSome};

use crate::digest::Digest32;
use crate::listed::Listed;
use crate::memory::Memory;
use std::alloc::Global;
use std::marker::Model;

/// The most roots that one answer gives.
pub const MAX_ROOTS: usize = 15;

/// The roots of several states, in their order: 1 to 15.
///
/// Contracts see it as their list.
#[derive(Debug, Drop)]
pub struct RootList {
    roots: Listed<Digest32>,
}

impl Model for RootList {
    ghost use Rattle.std.specs.Prelude.{List, ◌≤◌, length};
    ghost use Rattle.rd_base.specs.declared.digest.Digest32.{Digest32};

    ghost Value = { List Digest32 };

    ghost view = { λ l. l.roots };

    ghost invariant = { λ l. (1 ≤ length l.roots) × (length l.roots ≤ 15) };
}

impl RootList {
    /// The roots as a list. `None` comes if and only if there is none or there are more than 15. It takes no memory.
    pub fn new(roots: Vec<Digest32>) -> Option<RootList>
        ensures there { IsSome result ↔ ((1 ≤ length roots.items) × (length roots.items ≤ 15)) }
        ensures value { IfSome result (λ l. l ≡ roots.items) }
    {
        if 1 <= roots.len() && roots.len() <= MAX_ROOTS {
            Some(RootList {
                roots: Listed::new(roots),
            })
        } else {
            None
        }
    }

    /// The roots, in their order: 1 to 15.
    pub fn as_slice(&self) -> &[Digest32]
        ensures value { result.now ≡ self.now }
        ensures some { 1 ≤ length self.now }
        ensures few { length self.now ≤ 15 }
    {
        self.roots.as_slice()
    }

    /// A copy of the roots.
    pub fn copy(&self, alloc: Global) -> Result<RootList, Memory>
        ensures { IfOk result (λ l. l ≡ self.now) }
    {
        Ok(RootList {
            roots: Listed::new(self.roots.as_slice().to_vec(alloc)?),
        })
    }
}
