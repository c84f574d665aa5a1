//! Merkle trees of any number of levels over any leaves: what a node is, how a path opens, and what paths are good for.
//!
//! A tree is given by a digest function and the string of each leaf; nothing here holds one. The layers above may rely on the definition of
//! a node (`specs/Node.antt`), on the laws about nodes and paths (`laws`), and on the calls that climb a path from its leaf (`climb`,
//! `climb_counted`) and make the nodes over equal leaves (`fill_empty_nodes`). A tree may be kept as a heap of digests (`specs/Heap.antt`,
//! the law `heaps_are_trees`), of which `renew_nodes` digests anew the nodes above changed leaves, and no others (`specs/Renewals.antt`).
//! Read `specs/Node.antt` and `specs/Opening.antt` first, then `laws`.
#![tactic(auto)]

mod climbing;
mod heap;
mod laws;

pub use climbing::{climb, climb_counted, joined_text};
pub use heap::{beside, fill_empty_heap, fill_empty_nodes, fill_heap_path, renew_nodes};
pub use laws::{
    changed_leaves_climb_with_old_siblings, climbing_is_opening, heaps_are_trees, node_equations,
    nodes_depend_on_leaves_below, nodes_over_one_string_are_empty, paths_climb_to_nodes,
    paths_open_strings_of_the_tree, renewals_are_few, renewals_are_marked, roots_bind_trees,
    two_paths_agree_or_split,
};
