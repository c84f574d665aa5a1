//! Laws of nodes, paths, heaps and the strings of a tree, each the contract of a function that does nothing.
ghost use Rattle.std.specs.Prelude.{◌≡◌, ◌≢◌, ◌↔◌, ◌⊎◌, ℕ, suc, ◌+◌, ◌*◌, ◌-◌, ◌/◌, ◌^◌, ◌<◌, ◌≤◌, ◌||◌, Bool, true, List, length};
ghost use Rattle.digest_core.specs.Text.{node_text};
ghost use Rattle.rd_base.specs.declared.digest.Digest32.{Digest32};
ghost use Rattle.merkle_nodes.specs.Node.{node, empty_node, digest_at};
ghost use Rattle.merkle_nodes.specs.Heap.{IsHeap};
ghost use Rattle.merkle_nodes.specs.Renewals.{how_many, is_changed, renewals};
ghost use Rattle.merkle_nodes.specs.Opening.{Opens, opened, AreSiblings};
ghost use Rattle.merkle_nodes.specs.Split.{IsSplitAt, IsSplit};
ghost use Rattle.merkle_nodes.specs.TreeStrings.{IsTreeString, TreesSplit};

/// What a node is, at level 0 and above; `node` doesn't compute by itself.
#[tactic(auto, unfolding(crate::specs::Node::node))]
pub fn node_equations()
    ensures lowest { (digest : List ℕ → List ℕ) (leaf : ℕ → List ℕ) (k : ℕ) →
        node digest leaf 0 k ≡ digest (leaf k) }
    ensures above { (digest : List ℕ → List ℕ) (leaf : ℕ → List ℕ) (l k : ℕ) →
        node digest leaf (suc l) k
        ≡ digest (node_text (node digest leaf l (2 * k)) (node digest leaf l (2 * k + 1))) }
{}

/// A node depends only on the leaves below it.
pub fn nodes_depend_on_leaves_below()
    ensures same { (digest : List ℕ → List ℕ) (leaf other : ℕ → List ℕ) (l k : ℕ) →
        ((j : ℕ) → j / 2 ^ l ≡ k → leaf j ≡ other j) → node digest leaf l k ≡ node digest other l k }
{}

/// A node over leaves that all have one string is the empty node of its level.
pub fn nodes_over_one_string_are_empty()
    ensures empty { (digest : List ℕ → List ℕ) (leaf : ℕ → List ℕ) (text : List ℕ) (l k : ℕ) →
        ((j : ℕ) → j / 2 ^ l ≡ k → leaf j ≡ text) → node digest leaf l k ≡ empty_node digest text l }
{}

/// A digest opens to a leaf's string if and only if it is the digest to which the path climbs.
pub fn climbing_is_opening()
    ensures climbs { (digest : List ℕ → List ℕ) (leaf : List ℕ) (siblings : ℕ → List ℕ) (n k : ℕ) (d : List ℕ) →
        Opens digest leaf siblings n k d ↔ (d ≡ digest (opened digest leaf siblings n k)) }
{}

/// With the siblings of a tree, each leaf climbs to the node above it.
pub fn paths_climb_to_nodes()
    ensures climbs { (digest : List ℕ → List ℕ) (leaf : ℕ → List ℕ) (siblings : ℕ → List ℕ) (n k : ℕ) →
        AreSiblings digest leaf n k siblings →
        digest (opened digest (leaf k) siblings n k) ≡ node digest leaf n (k / 2 ^ n) }
{}

/// After a change of one leaf, its new string climbs with the old siblings to the node of the changed tree.
pub fn changed_leaves_climb_with_old_siblings()
    ensures climbs { (digest : List ℕ → List ℕ) (leaf other : ℕ → List ℕ) (siblings : ℕ → List ℕ) (n k : ℕ) →
        ((j : ℕ) → j ≢ k → leaf j ≡ other j) → AreSiblings digest leaf n k siblings →
        digest (opened digest (other k) siblings n k) ≡ node digest other n (k / 2 ^ n) }
{}

/// Two paths along one index that climb to one digest have the same leaf and the same siblings, or two different strings
/// with one digest at some level.
pub fn two_paths_agree_or_split()
    ensures paths { (digest : List ℕ → List ℕ) → ((bytes : List ℕ) → length (digest bytes) ≡ 32) →
        (a b : List ℕ) (s t : ℕ → List ℕ) (k n : ℕ) → ((l : ℕ) → l < n → length (s l) ≡ length (t l)) →
        digest (opened digest a s n k) ≡ digest (opened digest b t n k) →
        ((a ≡ b) × ((l : ℕ) → l < n → s l ≡ t l))
        ⊎ ((l : ℕ) × (l ≤ n) × IsSplitAt digest a s b t k l) }
{}

/// A heap is the tree over its leaves: node k of a level below m others is at place 2^m + k.
pub fn heaps_are_trees()
    ensures nodes { (digest : List ℕ → List ℕ) (nodes : List Digest32) (leaf : ℕ → List ℕ) (n : ℕ) → IsHeap digest nodes n leaf →
        (l m k : ℕ) → m + l ≡ n → k < 2 ^ m → digest_at nodes (2 ^ m + k) ≡ node digest leaf l k }
{}

/// Let a leaf of a heap be marked if and only if it has changed, and a node above the leaves if and only if one of the two below it is
/// marked. Then as many nodes are marked, leaves counted, as have to be made anew (`many`), and the root is marked if and only if some
/// leaf has changed (`root`).
pub fn renewals_are_marked()
    ensures many { (marked changed : ℕ → Bool) (n : ℕ) → ((k : ℕ) → k < 2 ^ n → marked (2 ^ n + k) ≡ changed k) →
        ((i : ℕ) → 1 ≤ i → i < 2 ^ n → marked i ≡ (marked (2 * i) || marked (2 * i + 1))) →
        how_many (λ k. marked (2 ^ n + k)) (2 ^ n) + how_many (λ k. marked (1 + k)) (2 ^ n - 1) ≡ renewals changed n }
    ensures root { (marked changed : ℕ → Bool) (n : ℕ) → ((k : ℕ) → k < 2 ^ n → marked (2 ^ n + k) ≡ changed k) →
        ((i : ℕ) → 1 ≤ i → i < 2 ^ n → marked i ≡ (marked (2 * i) || marked (2 * i + 1))) → marked 1 ≡ is_changed changed n 0 }
{}

/// At most a leaf and the nodes above it are made anew for each leaf that has changed (`few`), so none if none has, and fewer
/// than 2^(n + 1) in all (`most`). If a leaf has changed, so has the root (`root`), and if the root has, some leaf has (`some`).
pub fn renewals_are_few()
    ensures few { (changed : ℕ → Bool) (n : ℕ) → renewals changed n ≤ (n + 1) * how_many changed (2 ^ n) }
    ensures most { (changed : ℕ → Bool) (n : ℕ) → renewals changed n < 2 ^ (n + 1) }
    ensures root { (changed : ℕ → Bool) (n k : ℕ) → k < 2 ^ n → changed k ≡ true → is_changed changed n 0 ≡ true }
    ensures some { (changed : ℕ → Bool) (n : ℕ) → is_changed changed n 0 ≡ true → 0 < how_many changed (2 ^ n) }
{}

/// With the siblings of a tree of any number of levels, each string along the path of a leaf, from its leaf string up to the root's
/// node string, is a string of the tree.
pub fn paths_open_strings_of_the_tree()
    ensures strings { (digest : List ℕ → List ℕ) (leaf : ℕ → List ℕ) (siblings : ℕ → List ℕ) (n l k : ℕ) → l ≤ n → k < 2 ^ n →
        AreSiblings digest leaf l k siblings → IsTreeString digest leaf n (opened digest (leaf k) siblings l k) }
{
    paths_climb_to_nodes();
}

/// A root binds its tree. Two trees of the same number of levels, whatever it is, that have one root have the same leaf strings, or a
/// string of the one and a different string of the other have one digest (`leaves`). Of two strings with one digest the same holds: they
/// are the same, or they are two different strings with one digest (`strings`).
pub fn roots_bind_trees()
    ensures leaves { (digest : List ℕ → List ℕ) → ((bytes : List ℕ) → length (digest bytes) ≡ 32) → (leaf other : ℕ → List ℕ) (n : ℕ) →
        node digest leaf n 0 ≡ node digest other n 0 →
        ((k : ℕ) → k < 2 ^ n → leaf k ≡ other k) ⊎ TreesSplit digest leaf other n }
    ensures strings { (digest : List ℕ → List ℕ) (x y : List ℕ) → digest x ≡ digest y → (x ≡ y) ⊎ IsSplit digest x y }
{}
