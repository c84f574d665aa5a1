//! Nodes of Merkle trees, of `merkle_nodes`.

use digest_core::{Digester, Sha256, leaf_text, node_text};
use merkle_nodes::{climb, fill_empty_nodes};
use rd_base::{Digest32, OpenText};
use toy_machine::first_eight;

fn leaf(k: u8) -> Digest32 {
    Sha256.digest(leaf_text(&[k; 32]).as_slice())
}

fn node(left: Digest32, right: Digest32) -> Digest32 {
    Sha256.digest(node_text(&left, &right).as_slice())
}

/// Whether a leaf climbs by its path to a root.
pub(crate) fn climbs(index: u32, leaf: &OpenText, siblings: &[Digest32], root: Digest32) -> bool {
    climb(Sha256, index, leaf, siblings).0 == root.0
}

/// Computed by this program in Python:
///
/// ```python
///     from hashlib import sha256
///     node = sha256(bytes(33)).digest()
///     for level in range(28):
///         print(level, node.hex()[:16])
///         node = sha256(b'\1' + node + node).digest()
/// ```
#[test]
fn the_empty_nodes_of_memory(rt: HostRuntime) {
    let mut nodes = [Digest32::ZERO; 28];
    fill_empty_nodes(Sha256, &leaf_text(&[0; 32]), &mut nodes);
    let of_levels = [
        first_eight(nodes[0]),
        first_eight(nodes[1]),
        first_eight(nodes[5]),
        first_eight(nodes[27]),
    ];
    assert_eq!(rt;
        of_levels,
        [
            0x7f9c_9e31_ac82_56ca,
            0xa4b8_c787_3a49_d5d5,
            0xcc04_e6c4_1112_1fdb,
            0x42cf_a9b6_ff39_0040,
        ]
    );
}

/// Whether leaf `k` climbs by a path to the root of the next test, and at another place doesn't.
fn climbs_from_its_place(k: u8, path: &[Digest32; 3]) -> bool {
    let text = leaf_text(&[k; 32]);
    let root = climb(Sha256, u32::from(k), &text, path);
    first_eight(root) == 0xf907_f23f_76aa_01b7 && !climbs(u32::from(k ^ 2), &text, path, root)
}

/// Leaf k of eight is k, 32 times. The root was computed by this program in Python:
///
/// ```python
///     from hashlib import sha256
///     nodes = [sha256(b'\0' + bytes([k]) * 32).digest() for k in range(8)]
///     while len(nodes) > 1:
///         nodes = [sha256(b'\1' + a + b).digest() for a, b in zip(nodes[::2], nodes[1::2])]
///     print(nodes[0].hex()[:16])
/// ```
#[test]
fn each_path_climbs_to_the_root(rt: HostRuntime) {
    let pairs = [
        node(leaf(0), leaf(1)),
        node(leaf(2), leaf(3)),
        node(leaf(4), leaf(5)),
        node(leaf(6), leaf(7)),
    ];
    let low = node(pairs[0], pairs[1]);
    let high = node(pairs[2], pairs[3]);
    let climb = [
        climbs_from_its_place(0, &[leaf(1), pairs[1], high]),
        climbs_from_its_place(3, &[leaf(2), pairs[0], high]),
        climbs_from_its_place(5, &[leaf(4), pairs[3], low]),
        climbs_from_its_place(7, &[leaf(6), pairs[2], low]),
    ];
    assert_eq!(rt; climb, [true; 4]);
}
