//! What is kept of a tree.
ghost use Rattle.std.specs.Prelude.{◌≡◌, length, vec_len};

use rd_base::Digest32;
use std::collections::BTreeMap;

/// The nodes of a page's subtree, with the root at 1 and the two below node `i` at `2 * i` and `2 * i + 1`; and the chunks that are its
/// leaves.
#[derive(Drop)]
pub struct PageTree {
    pub nodes: Vec<Digest32>,
    pub chunks: Vec<[u8; 32]>,
    ghost whole: { vec_len nodes ≡ 256 },
    ghost parts: { vec_len chunks ≡ 128 },
}

/// What came of a page that was made that of a memory: the root of its subtree, none if every byte of the page is 0, and whether some
/// chunk differs from what was kept before.
#[derive(Drop)]
pub struct Renewed {
    pub root: Option<Digest32>,
    pub changed: bool,
}

/// The nodes of a tree that are kept: the subtrees of pages by the page's number; the nodes from the pages' roots up, by how many levels
/// they are above these and by their place; and the empty node of each level, for all others.
#[derive(Drop)]
pub struct Nodes {
    pub pages: BTreeMap<u32, PageTree>,
    pub upper: BTreeMap<(u8, u32), Digest32>,
    pub empties: [Digest32; 28],
    ghost levels: { length empties ≡ 28 },
}
