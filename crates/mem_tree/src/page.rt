//! The subtree of a page.
ghost use Rattle.std.specs.Prelude.{◌≡◌, ◌↔◌, ◌+◌, ◌<◌, ◌^◌, ℕ, List, Some, None, length, vec_len, false, IfOk, OnErr, OnOk, IsTrue};
ghost use Rattle.mem_plain.specs.Contents.{IsUsed};
ghost use Rattle.merkle_nodes.specs.Node.{digest_at};
ghost use Rattle.merkle_nodes.specs.Heap.{HasLeaves, IsHeap, is_marked};
ghost use Rattle.merkle_nodes.specs.Renewals.{how_many, is_changed, renewals};
ghost use Rattle.mem_tree.specs.Page.{AreEmpty, IsPageTree, chunk_in, leaf_of, page_chunk, zero_chunks};
ghost use Rattle.mem_tree.specs.Tree.{IsRoot};
ghost use Rattle.mem_tree.specs.Costs.{are_different, differs, has_changed, page_renewals};

use crate::kept::PageTree;
use digest_core::{Counted, leaf_text};
use mem_plain::PlainMem;
use merkle_nodes::{fill_empty_heap, renew_nodes, renewals_are_few, renewals_are_marked};
use rd_base::{Digest32, Memory, Steps};
use std::alloc::Global;
use std::sync::ledger::Ledger;

/// How many bytes a chunk has.
pub(crate) const CHUNK_BYTES: usize = 32;

/// How many chunks a page has.
pub(crate) const PAGE_CHUNKS: usize = 128;

/// How many places the heap of a page has; the first is not used.
const HEAP_PLACES: usize = 256;

/// How many levels of nodes are below the root of a page.
const PAGE_LEVELS: u32 = 7;

/// A page of a memory, by its number.
#[derive(Drop)]
pub(crate) struct PageOf<'a> {
    pub(crate) mem: &'a PlainMem,
    pub(crate) page: u32,
    ghost below: { page < 2 ^ 20 },
}

/// A chunk of a page, by its place from 0 to 127.
fn chunk_of(of: &PageOf<'_>, j: usize) -> [u8; 32]
    requires { j < 128 }
    ensures { result ≡ page_chunk of.now.mem.now of.now.page j }
{
    of.mem.chunk(PAGE_CHUNKS as u32 * of.page + j as u32)
}

/// Whether two chunks have the same bytes.
fn is_same(chunk: &[u8; 32], other: &[u8; 32]) -> bool
    ensures { IsTrue result ↔ (chunk.now ≡ other.now) }
{
    *chunk == *other
}

/// Marks of a heap's places, none of which is marked.
fn no_marks() -> [bool; 256]
    ensures len { length result ≡ 256 }
    ensures none { (i : ℕ) → is_marked result i ≡ false }
{
    [false; HEAP_PLACES]
}

/// Digests those leaves of a page anew whose chunks have changed, with a step for each, and marks them.
fn renew_leaves<C: Counted, L: Ledger>(
    c: C,
    nodes: &mut [Digest32],
    chunks: &mut [[u8; 32]],
    of: &PageOf<'_>,
    steps: &mut Steps<L>,
) -> [bool; 256]
    requires len { length nodes.old ≡ 256 }
    requires parts { length chunks.old ≡ 128 }
    requires leaves { HasLeaves C.digest_of nodes.old 128 (leaf_of chunks.old) 128 }
    ensures leaves { HasLeaves C.digest_of nodes.new 128 (leaf_of chunks.new) 128 }
    ensures chunks { (j : ℕ) → j < 128 → chunk_in chunks.new j ≡ page_chunk of.now.mem.now of.now.page j }
    ensures kept { (i : ℕ) → is_marked result i ≡ false → digest_at nodes.new i ≡ digest_at nodes.old i }
    ensures low { (i : ℕ) → i < 128 → is_marked result i ≡ false }
    ensures marks { (j : ℕ) → j < 128 → is_marked result (128 + j) ≡ are_different (chunk_in chunks.old j) (page_chunk of.now.mem.now of.now.page j) }
    ensures steps { steps.new ≡ steps.old + how_many (λ j. is_marked result (128 + j)) 128 }
{
    let mut marks = no_marks();
    'chunks: for j in 0..PAGE_CHUNKS {
        let chunk = chunk_of(of, j);
        if !is_same(&chunks[j], &chunk) {
            let leaf = c.digest(&leaf_text(&chunk), steps);
            nodes[PAGE_CHUNKS + j] = leaf;
            chunks[j] = chunk;
            marks[PAGE_CHUNKS + j] = true;
        }
    }
    marks
}

/// Makes a heap and the chunks beside it those of a page, with a step for each changed chunk and each node above one. The result is
/// whether some chunk has changed.
fn renew_heap<C: Counted, L: Ledger>(
    c: C,
    nodes: &mut [Digest32],
    chunks: &mut [[u8; 32]],
    of: &PageOf<'_>,
    steps: &mut Steps<L>,
) -> bool
    requires parts { length chunks.old ≡ 128 }
    requires heap { IsHeap C.digest_of nodes.old 7 (leaf_of chunks.old) }
    ensures heap { IsHeap C.digest_of nodes.new 7 (leaf_of chunks.new) }
    ensures chunks { (j : ℕ) → j < 128 → chunk_in chunks.new j ≡ page_chunk of.now.mem.now of.now.page j }
    ensures changed { result ≡ is_changed (λ j. are_different (chunk_in chunks.old j) (page_chunk of.now.mem.now of.now.page j)) 7 0 }
    ensures same { result ≡ false → digest_at nodes.new 1 ≡ digest_at nodes.old 1 }
    ensures steps { steps.new ≡ steps.old + renewals (λ j. are_different (chunk_in chunks.old j) (page_chunk of.now.mem.now of.now.page j)) 7 }
{
    renewals_are_marked();
    let mut marks = renew_leaves(c, nodes, chunks, of, steps);
    renew_nodes(c, nodes, &mut marks, PAGE_CHUNKS, steps);
    marks[1]
}

/// Makes a subtree that of a page, with a step for each changed chunk and each node above one. The result is whether some chunk has
/// changed.
pub(crate) fn renew<C: Counted, L: Ledger>(
    c: C,
    tree: &mut PageTree,
    of: &PageOf<'_>,
    steps: &mut Steps<L>,
) -> bool
    requires { IsHeap C.digest_of tree.old.nodes.items 7 (leaf_of tree.old.chunks.items) }
    ensures heap { IsHeap C.digest_of tree.new.nodes.items 7 (leaf_of tree.new.chunks.items) }
    ensures chunks { (j : ℕ) → j < 128 → chunk_in tree.new.chunks.items j ≡ page_chunk of.now.mem.now of.now.page j }
    ensures changed { result ≡ has_changed (Some tree.old) of.now.mem.now of.now.page }
    ensures same { result ≡ false → digest_at tree.new.nodes.items 1 ≡ digest_at tree.old.nodes.items 1 }
    ensures steps { steps.new ≡ steps.old + renewals (differs (Some tree.old) of.now.mem.now of.now.page) 7 }
{
    renew_heap(c, &mut tree.nodes, &mut tree.chunks, of, steps)
}

/// The chunks of a page of zeros.
fn no_bytes(alloc: Global) -> Result<Vec<[u8; 32]>, Memory>
    ensures items { IfOk result (λ v. v.items ≡ zero_chunks) }
    ensures len { IfOk result (λ v. vec_len v ≡ 128) }
{
    let mut chunks = Vec::with_capacity(alloc, PAGE_CHUNKS)?;
    'chunks: for _k in 0..PAGE_CHUNKS {
        chunks.push([0; CHUNK_BYTES])?;
    }
    Ok(chunks)
}

/// The subtree of a page of zeros, from the empty node of each level. It makes no digest.
fn zeros(alloc: Global, empties: &[Digest32]) -> Result<PageTree, Memory>
    requires { length empties.now ≡ 28 }
    ensures heap { (digest : List ℕ → List ℕ) → AreEmpty digest empties.now →
        IfOk result (λ tree. IsHeap digest tree.nodes.items 7 (leaf_of tree.chunks.items)) }
    ensures chunks { IfOk result (λ tree. tree.chunks.items ≡ zero_chunks) }
{
    let mut nodes = vec![in alloc; Digest32::ZERO; HEAP_PLACES]?;
    let chunks = no_bytes(alloc)?;
    fill_empty_heap(empties, &mut nodes, PAGE_LEVELS);
    Ok(PageTree { nodes, chunks })
}

/// The subtree of a page in use of which nothing was kept, with a step for each chunk that isn't of zeros and each node above one. An
/// `Err` is out of memory, and comes before the first step.
pub(crate) fn new_page_tree<C: Counted, L: Ledger>(
    c: C,
    alloc: Global,
    empties: &[Digest32],
    of: &PageOf<'_>,
    steps: &mut Steps<L>,
) -> Result<PageTree, Memory>
    requires levels { length empties.now ≡ 28 }
    requires empty { AreEmpty C.digest_of empties.now }
    requires used { IsUsed of.now.mem.now of.now.page }
    ensures tree { IfOk result (λ tree. IsPageTree C.digest_of (Some tree) of.now.mem.now of.now.page) }
    ensures steps { OnOk result (steps.new ≡ steps.old + page_renewals None of.now.mem.now of.now.page) }
    ensures none { OnErr result (steps.new ≡ steps.old) }
{
    renewals_are_few();
    let mut tree = zeros(alloc, empties)?;
    renew(c, &mut tree, of, steps);
    Ok(tree)
}

/// The root of a page's subtree.
pub(crate) fn tree_root(tree: &PageTree) -> Digest32
    ensures { result.0 ≡ digest_at tree.now.nodes.items 1 }
{
    tree.nodes[1]
}

/// The root of a page's subtree, if the subtree is kept.
pub(crate) fn root_of(tree: &Option<PageTree>) -> Option<Digest32>
    ensures { IsRoot result tree.now }
{
    match tree {
        Some(tree) => Some(tree_root(tree)),
        None => None,
    }
}
