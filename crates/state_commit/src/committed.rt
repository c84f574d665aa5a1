//! A machine that is kept with the trees of its commitment.
ghost use Rattle.std.specs.Prelude.{◌≡◌, ◌≢◌, ℕ, ◌<◌, ◌/◌, ◌^◌, [], Some, IfOk, OnOk, IfSome};
ghost use Rattle.mem_plain.specs.Contents.{Contents, byte_at};
ghost use Rattle.mem_tree.specs.Tree.{HasTouched, IsTreeOf};
ghost use Rattle.rv_step.specs.State.{state_of};
ghost use Rattle.state_commit.specs.Committing.{HasTreeFor, HasRegisters, HasInput};

use crate::root::{Parts, root_of_parts, storage_digest};
use crate::shared_input::SharedInput;
use digest_core::{Digester, registers_text};
use mem_plain::PlainMem;
use mem_tree::{MemTree, RegTree, touch_used_pages, unused_pages_are_alike};
use rd_base::{Digest32, Memory, Path, RegPath, RegisterScheme, Scheme};
use rv_step::{Machine, advance, one_page_changes, runs_keep_the_input, step};
use std::alloc::Global;
use std::marker::Model;
use std::thread::Threads;

/// Brings a tree up to a memory that differs from the tree's in one page at most.
fn follow<D: Digester>(
    tree: &mut MemTree<D>,
    page: Option<u32>,
    mem: &PlainMem,
) -> Result<(), Memory>
    requires untouched { tree.old.touched ≡ [] }
    requires page { IfSome page (λ p. p < 2 ^ 20) }
    ensures untouched { OnOk result (tree.new.touched ≡ []) }
    ensures tree { OnOk result ((m : Contents) → IsTreeOf D.digest_of tree.old m →
        ((a : ℕ) → page ≢ Some (a / 4096) → byte_at m a ≡ byte_at mem.now a) → IsTreeOf D.digest_of tree.new mem.now) }
{
    if let Some(page) = page {
        tree.touch(page)?;
    }
    tree.refresh(mem)
}

/// A tree turned into that of a memory, from one in which each page is touched that its own memory has in use. As the code shows, only the
/// chunks that differ are digested, and the nodes above them. An `Err` is out of memory, and drops the tree.
fn turned<D: Digester>(tree: MemTree<D>, mem: &PlainMem) -> Result<MemTree<D>, Memory>
    ensures untouched { IfOk result (λ t. t.touched ≡ []) }
    ensures tree { IfOk result (λ t. (m : Contents) → IsTreeOf D.digest_of tree m → HasTouched tree m → IsTreeOf D.digest_of t mem.now) }
{
    unused_pages_are_alike();
    let mut turned = touch_used_pages(tree, mem)?;
    turned.refresh(mem)?;
    Ok(turned)
}

/// The tree of a machine's registers, if its version has one.
fn registers_of<D: Digester>(d: D, machine: &Machine) -> Option<RegTree<D>>
    ensures { HasRegisters (state_of machine.now) result }
{
    match Scheme::of(machine.version).registers {
        RegisterScheme::Whole => None,
        RegisterScheme::Tree => Some(RegTree::new(d, &machine.regs)),
    }
}

/// The tree of registers turned into that of a machine's. The machine's version has such a tree if and only if there is one.
fn registers_after<D: Digester>(tree: Option<RegTree<D>>, machine: &Machine) -> Option<RegTree<D>>
    requires { HasTreeFor machine.now.version tree }
    ensures { HasRegisters (state_of machine.now) result }
{
    match tree {
        Some(mut tree) => {
            tree.refresh(&machine.regs);
            Some(tree)
        }
        None => None,
    }
}

/// A machine that is kept with the trees that the commitment to its states has in its version: of its memory, from version 2 on of
/// its registers, and in version 3 of its input.
///
/// Contracts see it as the machine's state.
#[derive(Drop)]
pub struct Committed<D: Digester> {
    d: D,
    machine: Machine,
    memory: MemTree<D>,
    regs: Option<RegTree<D>>,
    input: SharedInput<D>,
}

impl<D: Digester> Model for Committed<D> {
    ghost use Rattle.rv_step.specs.State.{State, state_of};
    ghost use Rattle.rv_step.specs.StateCode.{state_code};
    ghost use Rattle.state_commit.specs.Committing.{IsCommitted, HasRegisters, HasInput};

    ghost Value = { State };

    ghost coded = { state_code };

    ghost view = { λ c. state_of c.machine };

    ghost invariant = { λ c. IsCommitted D.digest_of c.machine c.memory × HasRegisters (state_of c.machine) c.regs × HasInput D.digest_of (state_of c.machine) c.input };
}

impl<D: Digester> Committed<D> {
    ghost use Rattle.rv_step.specs.State.{state_of, IsChained};
    ghost use Rattle.rv_step.specs.Step.{step as step_of, state_at};
    ghost use Rattle.merkle_nodes.specs.Opening.{IsPath};
    ghost use Rattle.state_commit.specs.StateRoot.{registers_digest, storage_digest as storage_of_state, root_in};
    ghost use Rattle.mem_tree.specs.Memory.{memory_leaf};
    ghost use Rattle.mem_tree.specs.RegisterTree.{register_leaf};
    ghost use Rattle.rd_base.specs.Scheme.{scheme_of};
    ghost use Rattle.rd_base.specs.declared.scheme.RegisterScheme.TheVariants as RegisterScheme;

    /// A machine with the trees of its version, which are built from scratch. The machine's chain is that of its output, by this
    /// digester. An `Err` is out of memory, and drops the machine.
    pub fn new<R: Threads + Sync>(
        rt: &R,
        alloc: Global,
        d: D,
        machine: Machine,
    ) -> Result<Self, Memory>
    where
        D: Send + Sync,
        requires { IsChained D.digest_of machine }
        ensures { IfOk result (λ c. c ≡ state_of machine) }
    {
        let input = SharedInput::of(alloc, d, &machine)?;
        Committed::with_input(rt, alloc, d, machine, input)
    }

    /// `new`, from the tree of the machine's input, so that, as the code shows, no part of the input is digested. An `Err` is out of
    /// memory, and drops the machine.
    pub fn with_input<R: Threads + Sync>(
        rt: &R,
        alloc: Global,
        d: D,
        machine: Machine,
        input: SharedInput<D>,
    ) -> Result<Self, Memory>
    where
        D: Send + Sync,
        requires chained { IsChained D.digest_of machine }
        requires input { HasInput D.digest_of (state_of machine) input }
        ensures { IfOk result (λ c. c ≡ state_of machine) }
    {
        let memory = MemTree::build(rt, alloc, d, &machine.mem)?;
        Ok(Committed::with_trees(d, machine, memory, input))
    }

    /// A machine with the trees of its version, from those of its memory and of its input. As the code shows, no part of either is digested,
    /// and the registers are only if the version holds them as a tree. The machine's chain is that of its output, by this digester, and no
    /// page of the memory's tree is touched.
    pub fn with_trees(d: D, machine: Machine, memory: MemTree<D>, input: SharedInput<D>) -> Self
        requires chained { IsChained D.digest_of machine }
        requires memory { IsTreeOf D.digest_of memory machine.mem }
        requires untouched { memory.touched ≡ [] }
        requires input { HasInput D.digest_of (state_of machine) input }
        ensures { result ≡ state_of machine }
    {
        let regs = registers_of(d, &machine);
        Committed {
            d,
            machine,
            memory,
            regs,
            input,
        }
    }

    /// The machine and the tree of its memory, of which no page is touched. The other trees are dropped.
    pub fn into_parts(self) -> (Machine, MemTree<D>)
        ensures state { state_of result.0 ≡ self }
        ensures chained { IsChained D.digest_of result.0 }
        ensures memory { IsTreeOf D.digest_of result.1 self.memory }
        ensures untouched { result.1.touched ≡ [] }
    {
        let Committed {
            machine,
            memory,
            ..
        } = self;
        (machine, memory)
    }

    /// What `new` gives, without a runtime: as the code shows, the subtrees of the memory's pages are computed one after another. An
    /// `Err` is out of memory, and drops the machine.
    pub fn alone(alloc: Global, d: D, machine: Machine) -> Result<Self, Memory>
        requires { IsChained D.digest_of machine }
        ensures { IfOk result (λ c. c ≡ state_of machine) }
    {
        let input = SharedInput::of(alloc, d, &machine)?;
        let memory = MemTree::build_alone(alloc, d, &machine.mem)?;
        Ok(Committed::with_trees(d, machine, memory, input))
    }

    /// The machine after this many more steps, with its trees, which are brought up to it once, at the end. As the code shows, of the pages
    /// that either memory has in use only those chunks are digested anew that differ, and of the registers only those; and no part of
    /// the input is. An `Err` is out of memory, and drops all.
    pub fn advance(self, steps: u64) -> Result<Self, Memory>
        ensures { IfOk result (λ c. c ≡ state_at self steps) }
    {
        let Committed {
            d,
            mut machine,
            memory,
            regs,
            input,
        } = self;
        runs_keep_the_input();
        let released = touch_used_pages(memory, &machine.mem)?;
        advance(&mut machine, &d, steps)?;
        let memory = turned(released, &machine.mem)?;
        let regs = registers_after(regs, &machine);
        Ok(Committed {
            d,
            machine,
            memory,
            regs,
            input,
        })
    }

    /// The machine after one more step, with its trees. As the code shows, at most one page, at most one register and no part of the
    /// input are digested anew. An `Err` is out of memory, and drops all.
    pub fn step(self) -> Result<Self, Memory>
        ensures { IfOk result (λ c. c ≡ step_of self) }
    {
        let Committed {
            d,
            mut machine,
            mut memory,
            regs,
            input,
        } = self;
        runs_keep_the_input();
        one_page_changes();
        let page = step(&mut machine, &d)?;
        follow(&mut memory, page, &machine.mem)?;
        let regs = registers_after(regs, &machine);
        Ok(Committed {
            d,
            machine,
            memory,
            regs,
            input,
        })
    }

    /// The machine. Its chain is that of its output.
    pub fn machine(&self) -> &Machine
        ensures state { state_of result.now ≡ self.now }
        ensures chained { IsChained D.digest_of result.now }
    {
        &self.machine
    }

    /// The tree of the machine's memory; no page of it is touched.
    pub fn memory(&self) -> &MemTree<D>
        ensures tree { IsTreeOf D.digest_of result.now self.now.memory }
        ensures untouched { result.now.touched ≡ [] }
    {
        &self.memory
    }

    /// The digest of the machine's registers in its version.
    pub fn registers_digest(&self) -> Digest32
        ensures { result.0 ≡ registers_digest D.digest_of self.now.version self.now.regs }
    {
        match &self.regs {
            Some(tree) => tree.root(),
            None => self.d.digest(registers_text(&self.machine.regs).as_slice()),
        }
    }

    /// The digest of what the machine's state stores, in its version.
    pub fn storage_digest(&self) -> Digest32
        ensures { result.0 ≡ storage_of_state D.digest_of self.now.version self.now }
    {
        let machine = &self.machine;
        storage_digest(
            self.d,
            machine.version,
            self.memory.root(),
            machine.input.len() as u32,
            self.input.root(),
        )
    }

    /// The tree of the machine's input, which is there in version 3.
    pub fn input(&self) -> &SharedInput<D>
        ensures { HasInput D.digest_of self.now result.now }
    {
        &self.input
    }

    /// The root of the machine's state in its version.
    pub fn root(&self) -> Digest32
        ensures { result.0 ≡ root_in D.digest_of self.now.version self.now }
    {
        let parts = Parts {
            memory: self.memory.root(),
            registers: self.registers_digest(),
            input: self.input.root(),
        };
        root_of_parts(self.d, self.machine.version, &parts, &self.machine)
    }

    /// The path of a chunk of the machine's memory, by the chunk's index below 2^27: its sibling at each level below the root, the
    /// leaf's first.
    pub fn path(&self, chunk: u32) -> Path
        requires { chunk < 2 ^ 27 }
        ensures { IsPath D.digest_of (memory_leaf self.now.memory) 27 chunk result.0 }
    {
        self.memory.path(chunk)
    }

    /// The path of a register, from `x0` to `x31`, if the version holds them as a tree.
    pub fn register_path(&self, reg: u8) -> RegPath
        requires reg { reg < 32 }
        requires version { (scheme_of self.now.version).registers ≡ RegisterScheme.Tree }
        ensures { IsPath D.digest_of (register_leaf self.now.regs) 5 reg result.0 }
    {
        match &self.regs {
            Some(tree) => tree.path(reg),
            None => RegPath([Digest32::ZERO; 5]),
        }
    }
}
