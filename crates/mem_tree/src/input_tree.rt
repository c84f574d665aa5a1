//! The tree of an input.
ghost use Rattle.std.specs.Prelude.{◌≡◌, ℕ, ◌<◌, ◌≤◌, ◌^◌, List, false, length, replicate, slice_index, IfOk};
ghost use Rattle.digest_core.specs.Text.{leaf_text as text_of_leaf};
ghost use Rattle.merkle_nodes.specs.Node.{digest_at};
ghost use Rattle.merkle_nodes.specs.Heap.{HasLeaves, IsHeap, is_marked};
ghost use Rattle.mem_tree.specs.InputTree.{input_chunk, input_leaf, IsInputTree};

use crate::page::CHUNK_BYTES;
use digest_core::{Counted, Digester, leaf_text};
use merkle_nodes::{
    fill_empty_heap, fill_empty_nodes, fill_heap_path, heaps_are_trees, renew_nodes,
};
use rd_base::{Digest32, InPath, Memory, Steps};
use std::alloc::Global;
use std::marker::{Brand, Model};
use std::sync::ledger::{Blank, Ledger};

/// How many chunks an input has, and so how many leaves.
pub(crate) const CHUNKS: usize = 32_768;

/// How many places the heap has; the first is not used.
const HEAP_PLACES: usize = 65_536;

/// How many levels are below the root.
const LEVELS: u32 = 15;

/// A byte of an input, and 0 behind its end.
fn byte_or_zero(input: &[u8], at: usize) -> u8
    ensures { result ≡ slice_index input.now at }
{
    if at < input.len() { input[at] } else { 0 }
}

/// A chunk of an input, by its index below 2^15: its bytes, and zeros behind the input's end.
pub fn input_chunk(input: &[u8], k: usize) -> [u8; 32]
    requires { k < 2 ^ 15 }
    ensures { result ≡ input_chunk input.now k }
{
    let mut chunk = [0; CHUNK_BYTES];
    'bytes: for i in 0..CHUNK_BYTES {
        chunk[i] = byte_or_zero(input, CHUNK_BYTES * k + i);
    }
    chunk
}

/// Digests the leaves of an input in a heap over chunks of zeros, and marks them.
fn fill_leaves<C: Counted, L: Ledger>(
    c: C,
    nodes: &mut [Digest32],
    marks: &mut [bool],
    input: &[u8],
    steps: &mut Steps<L>,
)
    requires short { length input.now ≤ 1048576 }
    requires len { length nodes.old ≡ 65536 }
    requires marks { length marks.old ≡ 65536 }
    requires leaves { HasLeaves C.digest_of nodes.old 32768 (λ _. text_of_leaf (replicate 32 0)) 32768 }
    requires unmarked { (i : ℕ) → is_marked marks.old i ≡ false }
    ensures leaves { HasLeaves C.digest_of nodes.new 32768 (input_leaf input.now) 32768 }
    ensures kept { (i : ℕ) → is_marked marks.new i ≡ false → digest_at nodes.new i ≡ digest_at nodes.old i }
    ensures low { (i : ℕ) → i < 32768 → is_marked marks.new i ≡ false }
{
    'chunks: for k in 0..input.len().div_ceil(CHUNK_BYTES) {
        let leaf = c.digest(&leaf_text(&input_chunk(input, k)), steps);
        nodes[CHUNKS + k] = leaf;
        marks[CHUNKS + k] = true;
    }
}

/// Turns a heap over chunks of zeros into that of an input.
fn fill<C: Counted, L: Ledger>(
    c: C,
    nodes: &mut [Digest32],
    marks: &mut [bool],
    input: &[u8],
    blank: Blank,
)
    requires name { blank.name ≡ L.name }
    requires parts { blank.parts ≡ L.parts }
    requires one { L.parts ≡ 1 }
    requires short { length input.now ≤ 1048576 }
    requires heap { IsHeap C.digest_of nodes.old 15 (λ _. text_of_leaf (replicate 32 0)) }
    requires marks { length marks.old ≡ 65536 }
    requires unmarked { (i : ℕ) → is_marked marks.old i ≡ false }
    ensures { IsInputTree C.digest_of nodes.new input.now }
{
    let mut steps = Steps::<L>::new(blank);
    fill_leaves(c, nodes, marks, input, &mut steps);
    renew_nodes(c, nodes, marks, CHUNKS, &mut steps);
}

/// Writes the heap over chunks of zeros, by 16 digests.
fn fill_zeros<D: Digester>(d: D, nodes: &mut [Digest32])
    requires { length nodes.old ≡ 65536 }
    ensures { IsHeap D.digest_of nodes.new 15 (λ _. text_of_leaf (replicate 32 0)) }
{
    let mut empties = [Digest32::ZERO; 16];
    fill_empty_nodes(d, &leaf_text(&[0; CHUNK_BYTES]), &mut empties);
    fill_empty_heap(&empties, nodes, LEVELS);
}

/// Writes the heap of an input.
fn fill_with<D: Digester>(d: D, nodes: &mut [Digest32], marks: &mut [bool], input: &[u8])
    requires short { length input.now ≤ 1048576 }
    requires len { length nodes.old ≡ 65536 }
    requires marks { length marks.old ≡ 65536 }
    requires unmarked { (i : ℕ) → is_marked marks.old i ≡ false }
    ensures { IsInputTree D.digest_of nodes.new input.now }
{
    fill_zeros(d, nodes);
    fill::<D, Brand>(d, nodes, marks, input, Blank::new(1));
}

/// The root of a heap.
fn root_in(nodes: &[Digest32]) -> Digest32
    requires { 1 < length nodes.now }
    ensures { result.0 ≡ digest_at nodes.now 1 }
{
    nodes[1]
}

/// This many places of a heap.
fn empty_places(alloc: Global, places: usize) -> Result<Vec<Digest32>, Memory>
    ensures { IfOk result (λ v. length v.items ≡ places) }
{
    Ok(vec![in alloc; Digest32::ZERO; places]?)
}

/// This many marks, none of which is set.
fn no_marks(alloc: Global, places: usize) -> Result<Vec<bool>, Memory>
    ensures len { IfOk result (λ v. length v.items ≡ places) }
    ensures none { IfOk result (λ v. (i : ℕ) → is_marked v.items i ≡ false) }
{
    Ok(vec![in alloc; false; places]?)
}

/// The Merkle tree of an input. It has 2 MiB, whatever the input's length.
///
/// Contracts see it as its nodes; `IsInputTree` relates them to the input.
#[derive(Drop)]
pub struct InputTree<D: Digester> {
    d: D,
    nodes: Vec<Digest32>,
}

impl<D: Digester> Model for InputTree<D> {
    ghost use Rattle.std.specs.Prelude.{List, length, ◌≡◌};
    ghost use Rattle.rd_base.specs.declared.digest.Digest32.{Digest32};

    ghost Value = { List Digest32 };

    ghost view = { λ t. t.nodes.items };

    ghost invariant = { λ t. length t.nodes.items ≡ 65536 };
}

impl<D: Digester> InputTree<D> {
    ghost use Rattle.merkle_nodes.specs.Opening.{IsPath};
    ghost use Rattle.mem_tree.specs.InputTree.{input_leaf, input_root};

    /// The tree of an input of at most 1,048,576 bytes, as the code shows by 16 digests for the tree over zeros, and one for each of its
    /// chunks and each node above one.
    pub fn build(alloc: Global, d: D, input: &[u8]) -> Result<Self, Memory>
        requires { length input.now ≤ 1048576 }
        ensures { IfOk result (λ t. IsInputTree D.digest_of t input.now) }
    {
        let mut nodes = empty_places(alloc, HEAP_PLACES)?;
        let mut marks = no_marks(alloc, HEAP_PLACES)?;
        fill_with(d, &mut nodes, &mut marks, input);
        Ok(InputTree { d, nodes })
    }

    /// The root of the input.
    pub fn root(&self) -> Digest32
        ensures { (input : List ℕ) → IsInputTree D.digest_of self.now input → result.0 ≡ input_root D.digest_of input }
    {
        heaps_are_trees();
        root_in(&self.nodes)
    }

    /// The path of a chunk, by its index below 2^15.
    pub fn path(&self, chunk: u32) -> InPath
        requires { chunk < 2 ^ 15 }
        ensures { (input : List ℕ) → IsInputTree D.digest_of self.now input → IsPath D.digest_of (input_leaf input) 15 chunk result.0 }
    {
        let mut siblings = [Digest32::ZERO; 15];
        fill_heap_path(&self.nodes, &mut siblings, chunk);
        InPath(siblings)
    }
}
