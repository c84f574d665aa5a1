//! The root of a machine's state in each version of the commitment, from scratch or from its parts, and that of a memory from scratch.
ghost use Rattle.std.specs.Prelude.{◌≡◌, ℕ, ◌+◌, ◌-◌, ◌<◌, ◌≤◌, ◌^◌, length, false};
ghost use Rattle.rd_base.specs.Scheme.{scheme_of};
ghost use Rattle.rd_base.specs.declared.scheme.InputScheme.TheVariants as InputScheme;
ghost use Rattle.rv_step.specs.State.{state_of, IsChained};
ghost use Rattle.state_commit.specs.StateRoot as state;
ghost use Rattle.state_commit.specs.Committing.{HasInput};
ghost use Rattle.mem_tree.specs.InputTree as inputs;
ghost use Rattle.mem_plain.specs.Contents.{IsUsed};
ghost use Rattle.merkle_nodes.specs.Node.{digest_at};
ghost use Rattle.mem_tree.specs.Memory.{memory_node, zero_node};

use crate::shared_input::SharedInput;
use digest_core::{Digester, leaf_text, node_text, registers_text, storage_text};
use mem_plain::{PAGES, PlainMem};
use mem_tree::{PAGE_LEVEL, RegTree, UPPER_LEVELS, input_root, memory_nodes};
use merkle_nodes::{fill_empty_nodes, node_equations};
use out_chain::parts_root;
use rd_base::{Digest32, InputScheme, RegisterScheme, Regs, Scheme};
use rv_step::Machine;

/// The digest of registers in a version of the commitment, from scratch: that of their string, or the root of their tree.
pub fn registers_digest<D: Digester>(d: D, version: u32, regs: &Regs) -> Digest32
    ensures { result.0 ≡ state.registers_digest D.digest_of version regs.now }
{
    match Scheme::of(version).registers {
        RegisterScheme::Whole => d.digest(registers_text(regs).as_slice()),
        RegisterScheme::Tree => RegTree::new(d, regs).root(),
    }
}

/// The digest of what a state stores, from the root of its memory and the length and the root of its input.
pub(crate) fn storage_digest<D: Digester>(
    d: D,
    version: u32,
    memory: Digest32,
    input_len: u32,
    input: Digest32,
) -> Digest32
    ensures { result.0 ≡ state.storage_by D.digest_of (scheme_of version).input memory.0 input_len input.0 }
{
    match Scheme::of(version).input {
        InputScheme::Tree => d.digest(storage_text(&memory, input_len, &input).as_slice()),
        InputScheme::InMemory => memory,
    }
}

/// The digests of a state's parts in a version of the commitment: the root of its memory, the digest of its registers in this version,
/// and the root of its input, which is needed only if it is a tree.
#[derive(Clone, Copy)]
pub struct Parts {
    pub memory: Digest32,
    pub registers: Digest32,
    pub input: Digest32,
}

/// The root of a machine's state in a version of the commitment, from the digests of its parts. The machine's chain is that of its
/// output, by this digester. As the code shows it takes two digests, and three if the input is a tree.
pub fn root_of_parts<D: Digester>(d: D, version: u32, parts: &Parts, machine: &Machine) -> Digest32
    requires chained { IsChained D.digest_of machine.now }
    requires memory { parts.now.memory.0 ≡ state.memory_digest D.digest_of (state_of machine.now) }
    requires registers { parts.now.registers.0 ≡ state.registers_digest D.digest_of version machine.now.regs }
    requires input { (scheme_of version).input ≡ InputScheme.Tree → parts.now.input.0 ≡ inputs.input_root D.digest_of machine.now.input.items }
    ensures { result.0 ≡ state.root_in D.digest_of version (state_of machine.now) }
{
    let _out_len = machine.ctl.out_len;
    let input_len = machine.input.len() as u32;
    let storage = storage_digest(d, version, parts.memory, input_len, parts.input);
    parts_root(d, storage, parts.registers, &machine.ctl)
}

/// The root of the input that a state's root has in a version of the commitment: 32 zeros in a version that has none.
fn input_part<D: Digester>(d: D, version: u32, input: &[u8]) -> Digest32
    ensures { (scheme_of version).input ≡ InputScheme.Tree → result.0 ≡ inputs.input_root D.digest_of input.now }
{
    match Scheme::of(version).input {
        InputScheme::Tree => input_root(d, input),
        InputScheme::InMemory => Digest32::ZERO,
    }
}

/// The root of a machine's state in a version of the commitment, from scratch. As the code shows, it digests each chunk of the pages that
/// hold a byte other than 0 and the nodes above them, and, as the version has them, the registers' tree and the input's, and takes no
/// memory. The machine's chain is that of its output, by this digester.
pub fn state_root<D: Digester>(d: D, version: u32, machine: &Machine) -> Digest32
    requires { IsChained D.digest_of machine.now }
    ensures { result.0 ≡ state.root_in D.digest_of version (state_of machine.now) }
{
    let parts = Parts {
        memory: memory_root(d, &machine.mem),
        registers: registers_digest(d, version, &machine.regs),
        input: input_part(d, version, &machine.input),
    };
    root_of_parts(d, version, &parts, machine)
}

/// The root of a machine's state in its own version, from the tree of its input. As the code shows, it is made from scratch but for the
/// input, no part of which is digested, and takes no memory. The machine's chain is that of its output, by this digester.
pub fn state_root_with<D: Digester>(d: D, machine: &Machine, input: &SharedInput<D>) -> Digest32
    requires chained { IsChained D.digest_of machine.now }
    requires input { HasInput D.digest_of (state_of machine.now) input.now }
    ensures { result.0 ≡ state.root_in D.digest_of machine.now.version (state_of machine.now) }
{
    let parts = Parts {
        memory: memory_root(d, &machine.mem),
        registers: registers_digest(d, machine.version, &machine.regs),
        input: input.root(),
    };
    root_of_parts(d, machine.version, &parts, machine)
}

/// How many levels of nodes a tree of memory has, the leaves' and the root's included.
const LEVELS: usize = 28;

/// A node at the level of the pages' roots or below.
fn page_part<D: Digester>(d: D, mem: &PlainMem, level: u8, k: u32) -> Digest32
    requires level { level ≤ 7 }
    requires below { k < 2 ^ (27 - level) }
    ensures { result.0 ≡ memory_node D.digest_of mem.now level k }
{
    node_equations();
    memory_nodes();
    if level == 0 {
        return d.digest(leaf_text(&mem.chunk(k)).as_slice());
    }
    let left = page_part(d, mem, level - 1, 2 * k);
    let right = page_part(d, mem, level - 1, 2 * k + 1);
    d.digest(node_text(&left, &right).as_slice())
}

/// Whether one of the `width` pages from `first` on holds a byte other than 0.
fn is_some_used(mem: &PlainMem, first: u32, width: u32) -> bool
    requires first { first < 2 ^ 20 }
    requires width { width ≤ 2 ^ 20 }
    ensures { result ≡ false → (p : ℕ) → first ≤ p → p < first + width → ¬ IsUsed mem.now p }
{
    mem.next_page_below(first, first + width).is_some()
}

/// What the nodes of a memory are made of: the digester, the memory, and the empty node of each level.
#[derive(Drop)]
struct Source<'a, D: Digester> {
    d: D,
    mem: &'a PlainMem,
    empties: &'a [Digest32],
    ghost levels: { length empties.now ≡ 28 },
    ghost empty: { (l : ℕ) → l < 28 → digest_at empties.now l ≡ zero_node D.digest_of l },
}

/// The node this many levels above the pages' roots, over `width` pages. A subtree of zeros is not entered.
fn upper_part<D: Digester>(of: &Source<'_, D>, above: u8, width: u32, k: u32) -> Digest32
    requires above { above ≤ 20 }
    requires width { width ≡ 2 ^ above }
    requires below { k < 2 ^ (20 - above) }
    ensures { result.0 ≡ memory_node D.digest_of of.now.mem.now (7 + above) k }
{
    node_equations();
    memory_nodes();
    if !is_some_used(of.mem, k * width, width) {
        return of.empties[(PAGE_LEVEL + above) as usize];
    }
    if above == 0 {
        return page_part(of.d, of.mem, PAGE_LEVEL, k);
    }
    let left = upper_part(of, above - 1, width / 2, 2 * k);
    let right = upper_part(of, above - 1, width / 2, 2 * k + 1);
    of.d.digest(node_text(&left, &right).as_slice())
}

/// The digest of a memory, from scratch and without memory. As the code shows, each page that holds a byte other than 0 is digested.
fn memory_root<D: Digester>(d: D, mem: &PlainMem) -> Digest32
    ensures { result.0 ≡ memory_node D.digest_of mem.now 27 0 }
{
    let mut empties = [Digest32::ZERO; LEVELS];
    fill_empty_nodes(d, &leaf_text(&[0; 32]), &mut empties);
    let of = Source {
        d,
        mem,
        empties: &empties,
    };
    upper_part(&of, UPPER_LEVELS, PAGES, 0)
}
