//! The digests of many register files, one after the other.
ghost use Rattle.std.specs.Prelude.{◌≡◌};
ghost use Rattle.state_commit.specs.StateRoot.{registers_digest};

use digest_core::{Digester, registers_text};
use mem_tree::RegTree;
use rd_base::{Digest32, RegisterScheme, Regs, Scheme};
use std::marker::Model;

/// The digest of registers in a version of the commitment. As the code shows, from version 2 on the tree is kept of those for which it was
/// asked last, so that the next digest takes those leaves alone that differ, and the nodes above them.
///
/// Contracts see it as the version.
#[derive(Drop)]
pub struct KeptRegisters<D: Digester> {
    d: D,
    version: u32,
    tree: Option<RegTree<D>>,
}

impl<D: Digester> Model for KeptRegisters<D> {
    ghost use Rattle.std.specs.Prelude.{ℕ};
    ghost use Rattle.state_commit.specs.Committing.{HasTreeFor};

    ghost Value = { ℕ };

    ghost view = { λ k. k.version };

    ghost invariant = { λ k. HasTreeFor k.version k.tree };
}

impl<D: Digester> KeptRegisters<D> {
    /// The digest of registers in a version, with their tree if the version has one.
    pub fn new(d: D, version: u32, regs: &Regs) -> Self
        ensures { result ≡ version }
    {
        let tree = match Scheme::of(version).registers {
            RegisterScheme::Whole => None,
            RegisterScheme::Tree => Some(RegTree::new(d, regs)),
        };
        KeptRegisters { d, version, tree }
    }

    /// The digest of registers. As the code shows, from version 2 on the tree that is kept is theirs from now on.
    pub fn digest(&mut self, regs: &Regs) -> Digest32
        ensures value { result.0 ≡ registers_digest D.digest_of self.old regs.now }
        ensures version { self.new ≡ self.old }
    {
        match &mut self.tree {
            Some(tree) => {
                tree.refresh(regs);
                tree.root()
            }
            None => self.d.digest(registers_text(regs).as_slice()),
        }
    }
}
