//! The tree of a register file.
ghost use Rattle.std.specs.Prelude.{◌≡◌, ℕ, ◌+◌, ◌<◌, false, length};
ghost use Rattle.rd_base.specs.Regs.{no_registers_set};
ghost use Rattle.merkle_nodes.specs.Node.{digest_at};
ghost use Rattle.merkle_nodes.specs.Heap.{HasLeaves, IsHeap, is_marked};
ghost use Rattle.merkle_nodes.specs.Renewals.{how_many};
ghost use Rattle.mem_tree.specs.RegisterTree.{differs, register_leaf, register_renewals};

use digest_core::{Counted, Digester, register_text};
use merkle_nodes::{
    fill_empty_heap, fill_empty_nodes, fill_heap_path, heaps_are_trees, renew_nodes,
    renewals_are_marked,
};
use rd_base::{Digest32, RegPath, Regs, Steps};
use std::marker::{Brand, Model};
use std::sync::ledger::{Blank, Ledger};

/// How many registers there are, and so how many leaves.
const REGISTERS: usize = 32;

/// How many places the heap has; the first is not used.
const HEAP_PLACES: usize = 64;

/// How many levels are below the root.
const LEVELS: u32 = 5;

/// Marks of the heap's places, none of which is marked.
fn no_marks() -> [bool; 64]
    ensures len { length result ≡ 64 }
    ensures none { (i : ℕ) → is_marked result i ≡ false }
{
    [false; HEAP_PLACES]
}

/// The heap of the tree in which each register is 0, by 6 digests.
fn zeros<D: Digester>(d: D) -> [Digest32; 64]
    ensures { IsHeap D.digest_of result 5 (register_leaf no_registers_set) }
{
    let mut empties = [Digest32::ZERO; 6];
    fill_empty_nodes(d, &register_text(0), &mut empties);
    let mut nodes = [Digest32::ZERO; HEAP_PLACES];
    fill_empty_heap(&empties, &mut nodes, LEVELS);
    nodes
}

/// A register file, and the one that comes after it.
#[derive(Drop)]
struct Change<'a> {
    before: &'a Regs,
    after: &'a Regs,
}

/// Whether a register holds one thing in the one file and another in the other.
fn has_changed(change: &Change<'_>, reg: u8) -> bool
    requires { reg < 32 }
    ensures { result ≡ differs change.now.before.now change.now.after.now reg }
{
    change.before.get(reg) != change.after.get(reg)
}

/// Digests the leaves of those registers anew that have changed, with a step for each, and marks them.
fn renew_leaves<C: Counted, L: Ledger>(
    c: C,
    nodes: &mut [Digest32],
    marks: &mut [bool],
    change: &Change<'_>,
    steps: &mut Steps<L>,
)
    requires len { length nodes.old ≡ 64 }
    requires marks { length marks.old ≡ 64 }
    requires leaves { HasLeaves C.digest_of nodes.old 32 (register_leaf change.now.before.now) 32 }
    requires unmarked { (i : ℕ) → is_marked marks.old i ≡ false }
    ensures leaves { HasLeaves C.digest_of nodes.new 32 (register_leaf change.now.after.now) 32 }
    ensures kept { (i : ℕ) → is_marked marks.new i ≡ false → digest_at nodes.new i ≡ digest_at nodes.old i }
    ensures low { (i : ℕ) → i < 32 → is_marked marks.new i ≡ false }
    ensures marks { (r : ℕ) → r < 32 → is_marked marks.new (32 + r) ≡ differs change.now.before.now change.now.after.now r }
    ensures steps { steps.new ≡ steps.old + how_many (λ r. is_marked marks.new (32 + r)) 32 }
{
    'registers: for reg in 0..REGISTERS as u8 {
        if has_changed(change, reg) {
            let leaf = c.digest(&register_text(change.after.get(reg)), steps);
            nodes[REGISTERS + reg as usize] = leaf;
            marks[REGISTERS + reg as usize] = true;
        }
    }
}

/// Turns the heap of a register file into that of another one, with a step for each leaf that differs and each node above one.
fn renew<C: Counted, L: Ledger>(
    c: C,
    nodes: &mut [Digest32],
    change: &Change<'_>,
    steps: &mut Steps<L>,
)
    requires { IsHeap C.digest_of nodes.old 5 (register_leaf change.now.before.now) }
    ensures heap { IsHeap C.digest_of nodes.new 5 (register_leaf change.now.after.now) }
    ensures steps { steps.new ≡ steps.old + register_renewals change.now.before.now change.now.after.now }
{
    renewals_are_marked();
    let mut marks = no_marks();
    renew_leaves(c, nodes, &mut marks, change, steps);
    renew_nodes(c, nodes, &mut marks, REGISTERS, steps);
}

/// A register file, kept with its Merkle tree.
///
/// Contracts see it as the registers.
#[derive(Drop)]
pub struct RegTree<D: Digester> {
    d: D,
    regs: Regs,
    nodes: [Digest32; 64],
}

impl<D: Digester> Model for RegTree<D> {
    ghost use Rattle.std.specs.Prelude.{ℕ, List};
    ghost use Rattle.merkle_nodes.specs.Heap.{IsHeap};
    ghost use Rattle.mem_tree.specs.RegisterTree.{register_leaf};

    ghost Value = { List ℕ };

    ghost view = { λ t. t.regs };

    ghost invariant = { λ t. IsHeap D.digest_of t.nodes 5 (register_leaf t.regs) };
}

impl<D: Digester> RegTree<D> {
    ghost use Rattle.merkle_nodes.specs.Opening.{IsPath};
    ghost use Rattle.mem_tree.specs.RegisterTree.{register_leaf, registers_root};

    /// The tree in which each register is 0, by 6 digests.
    fn zero(d: D) -> Self
        ensures { result ≡ no_registers_set }
    {
        RegTree {
            d,
            regs: Regs::new(),
            nodes: zeros(d),
        }
    }

    /// A register file with its tree, as the code shows by 6 digests and those of the registers that aren't 0.
    pub fn new(d: D, regs: &Regs) -> Self
        ensures { result ≡ regs.now }
    {
        let mut tree = RegTree::zero(d);
        tree.refresh(regs);
        tree
    }

    /// Turns the tree into that of another register file. It counts one step for each digest: those of the leaves that differ, and of the
    /// nodes above them. As the code shows, it compares 32 values.
    pub fn refresh_counted<L: Ledger>(&mut self, regs: &Regs, steps: &mut Steps<L>)
        ensures tree { self.new ≡ regs.now }
        ensures steps { steps.new ≡ steps.old + register_renewals self.old regs.now }
    {
        let change = Change {
            before: &self.regs,
            after: regs,
        };
        renew(self.d, &mut self.nodes, &change, steps);
        self.regs = *regs;
    }

    fn refresh_in<L: Ledger>(&mut self, regs: &Regs, blank: Blank)
        requires name { blank.name ≡ L.name }
        requires parts { blank.parts ≡ L.parts }
        requires one { L.parts ≡ 1 }
        ensures { self.new ≡ regs.now }
    {
        let mut steps = Steps::<L>::new(blank);
        self.refresh_counted(regs, &mut steps);
    }

    /// Does what `refresh_counted` does, with a counter of its own.
    pub fn refresh(&mut self, regs: &Regs)
        ensures { self.new ≡ regs.now }
    {
        self.refresh_in::<Brand>(regs, Blank::new(1));
    }

    /// The digest of the registers: the root of the tree.
    pub fn root(&self) -> Digest32
        ensures { result.0 ≡ registers_root D.digest_of self.now }
    {
        heaps_are_trees();
        self.nodes[1]
    }

    /// The path of a register, from `x0` to `x31`.
    pub fn path(&self, reg: u8) -> RegPath
        requires { reg < 32 }
        ensures { IsPath D.digest_of (register_leaf self.now) 5 reg result.0 }
    {
        let mut siblings = [Digest32::ZERO; 5];
        fill_heap_path(&self.nodes, &mut siblings, u32::from(reg));
        RegPath(siblings)
    }
}
