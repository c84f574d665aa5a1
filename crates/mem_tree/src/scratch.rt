//! The root of an input from scratch, without memory.
ghost use Rattle.std.specs.Prelude.{◌≡◌, ℕ, ◌-◌, ◌≤◌, ◌<◌, ◌^◌, length, replicate};
ghost use Rattle.digest_core.specs.Text.{leaf_text as text_of_leaf};
ghost use Rattle.merkle_nodes.specs.Node.{digest_at, empty_node};
ghost use Rattle.mem_tree.specs.InputTree as tree;

use crate::input_tree::{CHUNKS, input_chunk};
use crate::page::CHUNK_BYTES;
use digest_core::{Digester, leaf_text, node_text};
use merkle_nodes::{fill_empty_nodes, node_equations, nodes_over_one_string_are_empty};
use rd_base::Digest32;

/// How many levels of nodes the tree of an input has, the leaves' and the root's included.
const LEVELS: usize = 16;

/// The level of the root.
const ROOT_LEVEL: u8 = 15;

/// What the nodes of an input are made of: the digester, the input, and the empty node of each level.
#[derive(Drop)]
struct Source<'a, D: Digester> {
    d: D,
    input: &'a [u8],
    empties: &'a [Digest32],
    ghost levels: { length empties.now ≡ 16 },
    ghost empty: { (l : ℕ) → l < 16 → digest_at empties.now l ≡ empty_node D.digest_of (text_of_leaf (replicate 32 0)) l },
}

/// A node of the tree of an input, by its level, which has nodes of `width` chunks, and its place. A subtree behind the input's end is
/// not entered.
fn part<D: Digester>(of: &Source<'_, D>, level: u8, width: u32, k: u32) -> Digest32
    requires level { level ≤ 15 }
    requires width { width ≡ 2 ^ level }
    requires below { k < 2 ^ (15 - level) }
    ensures { result.0 ≡ tree.input_node D.digest_of of.now.input.now level k }
{
    node_equations();
    nodes_over_one_string_are_empty();
    if of.input.len() <= CHUNK_BYTES * (k * width) as usize {
        return of.empties[level as usize];
    }
    if level == 0 {
        return of
            .d
            .digest(leaf_text(&input_chunk(of.input, k as usize)).as_slice());
    }
    let left = part(of, level - 1, width / 2, 2 * k);
    let right = part(of, level - 1, width / 2, 2 * k + 1);
    of.d.digest(node_text(&left, &right).as_slice())
}

/// The root of an input of at most 1,048,576 bytes, from scratch: as the code shows it digests a chunk of zeros and the 15 nodes over
/// zeros, each chunk of the input, and the nodes above those. It takes no memory.
pub fn input_root<D: Digester>(d: D, input: &[u8]) -> Digest32
    ensures { result.0 ≡ tree.input_root D.digest_of input.now }
{
    let mut empties = [Digest32::ZERO; LEVELS];
    fill_empty_nodes(d, &leaf_text(&[0; CHUNK_BYTES]), &mut empties);
    let of = Source {
        d,
        input,
        empties: &empties,
    };
    part(&of, ROOT_LEVEL, CHUNKS as u32, 0)
}
