//! The nodes of a tree whose leaves all have one string, and trees that are kept as heaps.
ghost use Rattle.std.specs.Prelude.{◌≡◌, ◌+◌, ◌-◌, ◌*◌, ◌^◌, ◌<◌, ◌≤◌, ◌||◌, ℕ, List, false, length};
ghost use Rattle.merkle_nodes.specs.Node.{digest_at, empty_node, beside as place_beside};
ghost use Rattle.merkle_nodes.specs.Heap.{AreJoined, IsHeap, IsJoinedAt, is_marked};
ghost use Rattle.merkle_nodes.specs.Renewals.{how_many};
ghost use Rattle.merkle_nodes.specs.Opening.{IsPath};

use digest_core::{Counted, Digester, node_text};
use rd_base::{Digest32, OpenText, Steps};
use std::sync::ledger::Ledger;

/// The node of a level over leaves that all have one string, by the nodes below it, each at the place of its level.
fn empty_at<D: Digester>(d: D, leaf: &OpenText, nodes: &[Digest32], level: usize) -> Digest32
    requires within { level ≤ length nodes.now }
    requires below { (l : ℕ) → l < level → digest_at nodes.now l ≡ empty_node D.digest_of leaf.now l }
    ensures { result.0 ≡ empty_node D.digest_of leaf.now level }
{
    if level == 0 {
        return d.digest(leaf.as_slice());
    }
    let below = nodes[level - 1];
    d.digest(node_text(&below, &below).as_slice())
}

/// Writes the nodes over leaves that all have one string, the node of level l at place l.
pub fn fill_empty_nodes<D: Digester>(d: D, leaf: &OpenText, nodes: &mut [Digest32])
    ensures len { length nodes.new ≡ length nodes.old }
    ensures nodes { (l : ℕ) → l < length nodes.old →
        digest_at nodes.new l ≡ empty_node D.digest_of leaf.now l }
{
    'levels: for level in 0..nodes.len() {
        nodes[level] = empty_at(d, leaf, nodes, level);
    }
}

/// Writes the heap of the tree of this many levels over leaves that all have one string, from the empty node of each level: that of level l
/// is at place l of `empties`. It makes no digest.
pub fn fill_empty_heap(empties: &[Digest32], nodes: &mut [Digest32], levels: u32)
    requires levels { levels < length empties.now }
    requires len { length nodes.old ≡ 2 ^ (levels + 1) }
    ensures len { length nodes.new ≡ length nodes.old }
    ensures heap { (digest : List ℕ → List ℕ) (text : List ℕ) →
        ((l : ℕ) → l ≤ levels → digest_at empties.now l ≡ empty_node digest text l) → IsHeap digest nodes.new levels (λ _. text) }
{
    'places: for place in 1..nodes.len() {
        let above = place.ilog2();
        nodes[place] = empties[(levels - above) as usize];
    }
}

/// Digests anew the nodes of a heap that are above marked places, and marks them, with a step for each. Every other node
/// above the leaves is the digest of the two below it, so that afterwards each node above the leaves is. `width` is the number of leaves,
/// and so the place of the first; no place before it is marked.
pub fn renew_nodes<C: Counted, L: Ledger>(
    c: C,
    nodes: &mut [Digest32],
    marks: &mut [bool],
    width: usize,
    steps: &mut Steps<L>,
)
    requires some { 0 < width }
    requires len { length nodes.old ≡ 2 * width }
    requires marks { length marks.old ≡ 2 * width }
    requires pending { (i : ℕ) → 1 ≤ i → i < width → is_marked marks.old (2 * i) ≡ false → is_marked marks.old (2 * i + 1) ≡ false →
        IsJoinedAt C.digest_of nodes.old i }
    requires unmarked { (i : ℕ) → i < width → is_marked marks.old i ≡ false }
    ensures joined { AreJoined C.digest_of nodes.new width 1 }
    ensures leaves { (i : ℕ) → width ≤ i → digest_at nodes.new i ≡ digest_at nodes.old i }
    ensures kept { (i : ℕ) → is_marked marks.new i ≡ false → digest_at nodes.new i ≡ digest_at nodes.old i }
    ensures above { (i : ℕ) → 1 ≤ i → i < width → is_marked marks.new i ≡ (is_marked marks.new (2 * i) || is_marked marks.new (2 * i + 1)) }
    ensures below { (i : ℕ) → width ≤ i → is_marked marks.new i ≡ is_marked marks.old i }
    ensures steps { steps.new ≡ steps.old + how_many (λ k. is_marked marks.new (1 + k)) (width - 1) }
{
    'nodes: for k in 1..width {
        let i = width - k;
        if marks[2 * i] || marks[2 * i + 1] {
            let text = node_text(&nodes[2 * i], &nodes[2 * i + 1]);
            let node = c.digest(&text, steps);
            nodes[i] = node;
            marks[i] = true;
        }
    }
}

/// The place of the other node below the same parent.
pub fn beside(place: u32) -> u32
    ensures { result ≡ place_beside place }
{
    if place % 2 == 0 { place + 1 } else { place - 1 }
}

/// Writes the path of a leaf of a heap, one sibling for each level below the root, the leaf's own first. The heap has as many levels as
/// there are siblings to write, and the leaf's index is below their power of 2. It makes no digest.
pub fn fill_heap_path(nodes: &[Digest32], siblings: &mut [Digest32], index: u32)
    requires whole { length nodes.now ≡ 2 ^ (length siblings.old + 1) }
    requires index { index < 2 ^ length siblings.old }
    ensures len { length siblings.new ≡ length siblings.old }
    ensures path { (digest : List ℕ → List ℕ) (leaf : ℕ → List ℕ) → IsHeap digest nodes.now (length siblings.old) leaf →
        IsPath digest leaf (length siblings.old) index siblings.new }
{
    let mut width = nodes.len() / 2;
    let mut k = index;
    'levels: for level in 0..siblings.len() {
        siblings[level] = nodes[width + beside(k) as usize];
        width /= 2;
        k /= 2;
    }
}
