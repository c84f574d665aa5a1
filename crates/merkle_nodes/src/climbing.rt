//! Paths, climbed from their leaf.
ghost use Rattle.std.specs.Prelude.{◌≡◌, ◌+◌, length};
ghost use Rattle.merkle_nodes.specs.Node.{digest_at};
ghost use Rattle.merkle_nodes.specs.Opening.{joined, opened};

use digest_core::{Counted, Digester, node_text};
use rd_base::{Digest32, OpenText, Steps};
use std::marker::Brand;
use std::sync::ledger::{Blank, Ledger};

/// The string of the node above a child and its sibling, at a bit of the index. The child is on the left if the bit is 0.
pub fn joined_text(bit: u32, child: &Digest32, sibling: &Digest32) -> OpenText
    ensures { result ≡ joined bit child.now.0 sibling.now.0 }
{
    if bit == 0 {
        node_text(child, sibling)
    } else {
        node_text(sibling, child)
    }
}

/// The digest at the top of a path, from the string of the leaf up: a level for each sibling, the leaf's sibling first.
/// Bit l of `index` is 0 if the path is on the left at level l. It counts one step for each digest.
pub fn climb_counted<C: Counted, L: Ledger>(
    c: C,
    index: u32,
    leaf: &OpenText,
    siblings: &[Digest32],
    steps: &mut Steps<L>,
) -> Digest32
    ensures digest { result.0 ≡ C.digest_of
        (opened C.digest_of leaf.now (digest_at siblings.now) (length siblings.now) index) }
    ensures steps { steps.new ≡ steps.old + 1 + length siblings.now }
{
    let mut digest = c.digest(leaf, steps);
    let mut k = index;
    'levels: for sibling in siblings {
        let text = joined_text(k % 2, &digest, sibling);
        digest = c.digest(&text, steps);
        k /= 2;
    }
    digest
}

fn climb_in<C: Counted, L: Ledger>(
    c: C,
    index: u32,
    leaf: &OpenText,
    siblings: &[Digest32],
    blank: Blank,
) -> Digest32
    requires name { blank.name ≡ L.name }
    requires parts { blank.parts ≡ L.parts }
    requires one { L.parts ≡ 1 }
    ensures { result.0 ≡ C.digest_of
        (opened C.digest_of leaf.now (digest_at siblings.now) (length siblings.now) index) }
{
    let mut steps = Steps::<L>::new(blank);
    climb_counted(c, index, leaf, siblings, &mut steps)
}

/// The digest at the top of a path, as `climb_counted` gives it, without a counter.
pub fn climb<D: Digester>(d: D, index: u32, leaf: &OpenText, siblings: &[Digest32]) -> Digest32
    ensures { result.0 ≡ D.digest_of
        (opened D.digest_of leaf.now (digest_at siblings.now) (length siblings.now) index) }
{
    climb_in::<D, Brand>(d, index, leaf, siblings, Blank::new(1))
}
