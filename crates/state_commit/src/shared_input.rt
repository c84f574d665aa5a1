//! The tree of an input, which is built once and shared.
ghost use Rattle.std.specs.Prelude.{◌≡◌, ◌<◌, ◌^◌, ℕ, List, Option, replicate, IfOk};
ghost use Rattle.rd_base.specs.declared.digest.Digest32.{Digest32};
ghost use Rattle.rv_step.specs.State.{State, state_of};
ghost use Rattle.state_commit.specs.Committing.{HasInput};

use digest_core::Digester;
use mem_tree::InputTree;
use rd_base::{Digest32, InPath, InputScheme, Memory, Scheme};
use rv_step::Machine;
use std::alloc::Global;
use std::marker::Model;
use std::sync::Arc;

/// The tree of a machine's input in version 3, which is built once and shared: the states of a run have one input, and so have the
/// runs of one machine, whatever is tampered with. Versions 1 and 2 have none.
///
/// Contracts see it as the nodes of the tree, if there is one; `HasInput` relates them to a state's input.
#[derive(Drop)]
pub struct SharedInput<D: Digester> {
    tree: Option<Arc<InputTree<D>>>,
}

impl<D: Digester> Model for SharedInput<D> {
    ghost use Rattle.std.specs.Prelude.{List, Option};
    ghost use Rattle.rd_base.specs.declared.digest.Digest32.{Digest32};
    ghost use Rattle.state_commit.specs.Committing.{shared_nodes};

    ghost Value = { Option (List Digest32) };

    ghost view = { λ i. shared_nodes i.tree };
}

impl<D: Digester> SharedInput<D> {
    ghost use Rattle.rd_base.specs.Scheme.{scheme_of};
    ghost use Rattle.rd_base.specs.declared.scheme.InputScheme.TheVariants as InputScheme;
    ghost use Rattle.merkle_nodes.specs.Opening.{IsPath};
    ghost use Rattle.mem_tree.specs.InputTree.{input_leaf, input_root};

    /// The tree of a machine's input, if its version has one. It has 2 MiB.
    pub fn of(alloc: Global, d: D, machine: &Machine) -> Result<Self, Memory>
        ensures { IfOk result (HasInput D.digest_of (state_of machine.now)) }
    {
        match Scheme::of(machine.version).input {
            InputScheme::InMemory => Ok(SharedInput { tree: None }),
            InputScheme::Tree => {
                let tree = InputTree::build(alloc, d, &machine.input)?;
                Ok(SharedInput {
                    tree: Some(Arc::new(alloc, tree)?),
                })
            }
        }
    }

    /// Another handle to the same tree. It takes no memory. An `Err` is that of `Arc::try_clone`.
    pub fn share(&self) -> Result<Self, Memory>
        ensures { IfOk result (λ i. i ≡ self.now) }
    {
        match &self.tree {
            Some(tree) => Ok(SharedInput {
                tree: Some(Arc::try_clone(tree)?),
            }),
            None => Ok(SharedInput { tree: None }),
        }
    }

    /// The root of the input in version 3, and 32 zeros below version 3.
    pub fn root(&self) -> Digest32
        ensures root { (s : State) → HasInput D.digest_of s self.now → (scheme_of s.version).input ≡ InputScheme.Tree → result.0 ≡ input_root D.digest_of s.input }
        ensures zeros { (s : State) → HasInput D.digest_of s self.now → (scheme_of s.version).input ≡ InputScheme.InMemory → result.0 ≡ replicate 32 0 }
    {
        match &self.tree {
            Some(tree) => tree.root(),
            None => Digest32::ZERO,
        }
    }

    /// The path of a chunk of the input, by the chunk's index below 2^15, if the version is 3.
    pub fn path(&self, chunk: u32) -> InPath
        requires { chunk < 2 ^ 15 }
        ensures { (s : State) → HasInput D.digest_of s self.now → (scheme_of s.version).input ≡ InputScheme.Tree → IsPath D.digest_of (input_leaf s.input) 15 chunk result.0 }
    {
        match &self.tree {
            Some(tree) => tree.path(chunk),
            None => InPath([Digest32::ZERO; 15]),
        }
    }
}

/// A state's tree of its input is that of each state of the same version with the same input.
pub fn one_input_has_one_tree()
    ensures { (digest : List ℕ → List ℕ) (s t : State) (tree : Option (List Digest32)) → t.version ≡ s.version → t.input ≡ s.input → HasInput digest s tree → HasInput digest t tree }
{}
