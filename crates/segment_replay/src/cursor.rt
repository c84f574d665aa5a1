//! A run that is replayed, and a worker's cursor: a machine of it, moved from step to step with the tree of its memory.
ghost use Rattle.std.proofs.Props.{props};
ghost use Rattle.std.specs.Prelude.{◌≡◌, replicate, ℕ, ◌+◌, ◌<◌, ◌≤◌, ◌∷◌, [], true, false, IfOk, OnOk, IfSome, min};
ghost use Rattle.rd_base.specs.Scheme.{scheme_of};
ghost use Rattle.rd_base.specs.declared.scheme.InputScheme.TheVariants as InputScheme;
ghost use Rattle.mem_plain.specs.Contents.{Contents, has_page};
ghost use Rattle.mem_tree.specs.Tree.{HasTouched, IsTreeOf};
ghost use Rattle.checkpoint_run.specs.NamedPages.{IsNamed, ArePages};
ghost use Rattle.checkpoint_run.specs.Recorded.{AreChained, state_of_step, still_of};
ghost use Rattle.segment_replay.specs.Roots.{IsInputRoot, root_at};
ghost use Rattle.segment_replay.specs.Cursor.{IsMachineOf, IsBehind, IsFreshTree};

use checkpoint_run::{
    Run, advance, machine_at, pages_of_two_places, tampered_runs, tampered_runs_keep_the_input,
};
use digest_core::Digester;
use mem_plain::PlainMem;
use mem_tree::{MemTree, input_root, touch_used_pages, unused_pages_are_alike};
use rd_base::{Digest32, InputScheme, Memory, Scheme};
use rv_step::Machine;
use state_commit::{KeptRegisters, Parts, root_of_parts};
use std::alloc::Global;
use std::thread::Threads;

/// Up to this many steps are made to move a cursor on, whatever its memory holds; for more its machine may be put together from a
/// checkpoint. They take half a millisecond, about as long as going over the versions of pages of a long run.
const STEPS_WORTH_A_CHECKPOINT: u64 = 16_384;

/// Up to this many steps for each page in use are made too. They take 20 to 120 us of a processor, the more the more
/// pages are in use. A machine that is put together from a checkpoint copies each page in use, and its tree compares the page's 128
/// chunks with those that it keeps. What has changed is digested either way.
const STEPS_WORTH_A_PAGE: u64 = 1_024;

/// A run that is replayed: the digester by which its checkpoints are chained, the run, and the root of its input, which counts in
/// version 3 alone.
#[derive(Drop)]
pub struct Replay<'r, D: Digester> {
    pub d: D,
    pub run: &'r Run,
    pub input: Digest32,
    ghost chained: { AreChained D.digest_of run.now } by { Prim.hlevel props },
    ghost of_input: { IsInputRoot D.digest_of run.now input.0 },
}

/// A machine of a run, at which step it is, and the tree of its memory.
#[derive(Drop)]
pub struct Cursor<D: Digester> {
    pub at: u64,
    pub machine: Machine,
    pub tree: MemTree<D>,
}

/// The machine of a step up to the one from which the run stands still, replayed from the last checkpoint up to it.
fn machine_up_to<D: Digester>(d: D, run: &Run, goal: u64) -> Result<Machine, Memory>
    requires goal { goal ≤ still_of run.now }
    requires chained { AreChained D.digest_of run.now }
    ensures { IfOk result (λ m. IsMachineOf D.digest_of run.now goal m) }
{
    let every = u64::from(run.every());
    let checkpoint = goal / every;
    let mut at = checkpoint * every;
    let mut machine = machine_at(run, checkpoint)?;
    'steps: while at < goal {
        advance(d, run, goal, &mut at, &mut machine)?;
    }
    Ok(machine)
}

/// The step to replay to for the state of the step asked: once the run stands still, and above the bound, an earlier one has the
/// same state.
pub fn goal_of(run: &Run, step: u64) -> u64
    ensures within { result ≤ still_of run.now }
    ensures same { state_of_step run.now result ≡ state_of_step run.now (min step run.now.bound) }
{
    tampered_runs();
    step.min(run.still())
}

/// The machine of a step; above the bound it is that of the bound.
pub fn machine_of_step<D: Digester>(d: D, run: &Run, step: u64) -> Result<Machine, Memory>
    requires { AreChained D.digest_of run.now }
    ensures { IfOk result (λ m. IsMachineOf D.digest_of run.now (min step run.now.bound) m) }
{
    let goal = goal_of(run, step);
    machine_up_to(d, run, goal)
}

/// Touches a page, if one is named.
fn touch_named<D: Digester>(tree: &mut MemTree<D>, page: Option<u32>) -> Result<(), Memory>
    requires { ArePages (page ∷ []) }
    ensures tree { OnOk result ((m : Contents) → IsTreeOf D.digest_of tree.old m → IsTreeOf D.digest_of tree.new m) }
    ensures named { OnOk result ((p : ℕ) → has_page tree.new.touched p ≡ false → IsNamed p (page ∷ []) → ⊥) }
    ensures others { OnOk result ((p : ℕ) → has_page tree.new.touched p ≡ false → has_page tree.old.touched p ≡ false) }
{
    match page {
        Some(page) => {
            tree.touch(page)?;
            Ok(())
        }
        None => Ok(()),
    }
}

/// The cursor at a later step, up to the goal, with the pages touched that were written: at the next step, or behind a stretch in which
/// nothing happens.
fn step_towards<D: Digester>(
    replay: &Replay<'_, D>,
    cursor: Cursor<D>,
    goal: u64,
) -> Result<Cursor<D>, Memory>
    requires machine { IsMachineOf D.digest_of replay.now.run.now cursor.at cursor.machine }
    requires goal { cursor.at < goal }
    ensures later { IfOk result (λ c. cursor.at < c.at) }
    ensures within { IfOk result (λ c. c.at ≤ goal) }
    ensures machine { IfOk result (λ c. IsMachineOf D.digest_of replay.now.run.now c.at c.machine) }
    ensures tree { (old : Contents) → IsBehind D.digest_of cursor.tree old cursor.machine.mem →
        IfOk result (λ c. IsBehind D.digest_of c.tree old c.machine.mem) }
{
    pages_of_two_places();
    let Cursor {
        mut at,
        mut machine,
        mut tree,
    } = cursor;
    let pages = advance(replay.d, replay.run, goal, &mut at, &mut machine)?;
    touch_named(&mut tree, pages[0])?;
    touch_named(&mut tree, pages[1])?;
    Ok(Cursor { at, machine, tree })
}

/// The cursor at a later step, up to the one from which the run stands still, with the steps in between carried out.
fn step_to<D: Digester>(
    replay: &Replay<'_, D>,
    cursor: Cursor<D>,
    goal: u64,
) -> Result<Cursor<D>, Memory>
    requires later { cursor.at ≤ goal }
    requires goal { goal ≤ still_of replay.now.run.now }
    requires machine { IsMachineOf D.digest_of replay.now.run.now cursor.at cursor.machine }
    requires tree { IsFreshTree D.digest_of cursor.tree cursor.machine.mem }
    ensures at { IfOk result (λ c. c.at ≡ goal) }
    ensures machine { IfOk result (λ c. IsMachineOf D.digest_of replay.now.run.now goal c.machine) }
    ensures tree { IfOk result (λ c. IsFreshTree D.digest_of c.tree c.machine.mem) }
{
    let mut moved = cursor;
    'steps: while moved.at < goal {
        moved = step_towards(replay, moved, goal)?;
    }
    let Cursor {
        at,
        machine,
        mut tree,
    } = moved;
    tree.refresh(&machine.mem)?;
    Ok(Cursor { at, machine, tree })
}

/// Whether a memory has at least this many pages in use, those with a byte other than 0. It looks at no more of them.
fn has_pages(mem: &PlainMem, count: u64) -> bool {
    let mut from = 0;
    'pages: for _ in 0..count {
        let Some(page) = mem.next_page(from) else {
            return false;
        };
        from = page + 1;
    }
    true
}

/// Whether moving a cursor with this machine on by this many steps is taken to cost less than putting a machine together from a
/// checkpoint. A machine that has stopped goes over all of them at once. No answer depends on it.
fn is_cheaper_to_step(machine: &Machine, steps: u64) -> bool {
    !machine.ctl.status.is_running()
        || steps <= STEPS_WORTH_A_CHECKPOINT
        || has_pages(&machine.mem, steps.div_ceil(STEPS_WORTH_A_PAGE))
}

/// The tree of a cursor, with each page touched that its memory has in use. The machine is dropped.
fn release_tree<D: Digester>(cursor: Cursor<D>) -> Result<MemTree<D>, Memory>
    ensures tree { IfOk result (λ t. (m : Contents) → IsTreeOf D.digest_of cursor.tree m → IsTreeOf D.digest_of t m) }
    ensures used { IfOk result (λ t. HasTouched t cursor.machine.mem) }
{
    let Cursor { machine, tree, .. } = cursor;
    touch_used_pages(tree, &machine.mem)
}

/// The cursor of a step, ahead or behind, up to the one from which the run stands still: its machine is replayed from the last
/// checkpoint up to the step, and its tree is that of the last cursor, brought up to the machine's memory. So the chunks alone that
/// differ are digested, and the nodes above them.
fn restore_to<D: Digester>(
    replay: &Replay<'_, D>,
    cursor: Cursor<D>,
    goal: u64,
) -> Result<Cursor<D>, Memory>
    requires goal { goal ≤ still_of replay.now.run.now }
    requires tree { IsFreshTree D.digest_of cursor.tree cursor.machine.mem }
    ensures at { IfOk result (λ c. c.at ≡ goal) }
    ensures machine { IfOk result (λ c. IsMachineOf D.digest_of replay.now.run.now goal c.machine) }
    ensures tree { IfOk result (λ c. IsFreshTree D.digest_of c.tree c.machine.mem) }
{
    unused_pages_are_alike();
    let released = release_tree(cursor)?;
    let machine = machine_up_to(replay.d, replay.run, goal)?;
    let mut turned = touch_used_pages(released, &machine.mem)?;
    turned.refresh(&machine.mem)?;
    Ok(Cursor {
        at: goal,
        machine,
        tree: turned,
    })
}

/// The cursor of a step, up to the one from which the run stands still: the last cursor moved on, if the step lies ahead of it, and
/// either is near or no checkpoint lies between; else the last one turned to the step; and a new one if there is none.
fn cursor_at<D: Digester + Send + Sync, R: Threads + Sync>(
    rt: &R,
    alloc: Global,
    replay: &Replay<'_, D>,
    last: Option<Cursor<D>>,
    goal: u64,
) -> Result<Cursor<D>, Memory>
    requires goal { goal ≤ still_of replay.now.run.now }
    requires machine { IfSome last (λ c. IsMachineOf D.digest_of replay.now.run.now c.at c.machine) }
    requires tree { IfSome last (λ c. IsFreshTree D.digest_of c.tree c.machine.mem) }
    ensures at { IfOk result (λ c. c.at ≡ goal) }
    ensures machine { IfOk result (λ c. IsMachineOf D.digest_of replay.now.run.now goal c.machine) }
    ensures tree { IfOk result (λ c. IsFreshTree D.digest_of c.tree c.machine.mem) }
{
    let every = u64::from(replay.run.every());
    if let Some(cursor) = last {
        if cursor.at <= goal {
            let near = is_cheaper_to_step(&cursor.machine, goal - cursor.at);
            if near || goal / every == cursor.at / every {
                return step_to(replay, cursor, goal);
            }
        }
        return restore_to(replay, cursor, goal);
    }
    let machine = machine_up_to(replay.d, replay.run, goal)?;
    let tree = MemTree::build(rt, alloc, replay.d, &machine.mem)?;
    Ok(Cursor {
        at: goal,
        machine,
        tree,
    })
}

/// The root of the run's input if the run's version holds it as a tree, and else 32 zeros. The runs of one machine have the same, whatever is
/// tampered with.
pub fn run_input_root<D: Digester>(d: D, run: &Run) -> Digest32
    ensures root { IsInputRoot D.digest_of run.now result.0 }
    ensures zeros { (scheme_of run.now.first.version).input ≡ InputScheme.InMemory → result.0 ≡ replicate 32 0 }
{
    match Scheme::of(run.version()).input {
        InputScheme::Tree => input_root(d, run.input()),
        InputScheme::InMemory => Digest32::ZERO,
    }
}

/// A cursor, and the root of a step whose state its machine has.
#[derive(Drop)]
pub struct Rooted<D: Digester> {
    pub cursor: Cursor<D>,
    pub root: Digest32,
}

/// The cursor of a step, made from the last one, if there is one; above the bound it is that of the bound.
pub fn cursor_of_step<D: Digester + Send + Sync, R: Threads + Sync>(
    rt: &R,
    alloc: Global,
    replay: &Replay<'_, D>,
    last: Option<Cursor<D>>,
    step: u64,
) -> Result<Cursor<D>, Memory>
    requires machine { IfSome last (λ c. IsMachineOf D.digest_of replay.now.run.now c.at c.machine) }
    requires tree { IfSome last (λ c. IsFreshTree D.digest_of c.tree c.machine.mem) }
    ensures machine { IfOk result (λ c. IsMachineOf D.digest_of replay.now.run.now c.at c.machine) }
    ensures tree { IfOk result (λ c. IsFreshTree D.digest_of c.tree c.machine.mem) }
    ensures step { IfOk result (λ c. state_of_step replay.now.run.now c.at ≡ state_of_step replay.now.run.now (min step replay.now.run.now.bound)) }
{
    let goal = goal_of(replay.run, step);
    cursor_at(rt, alloc, replay, last, goal)
}

/// The root of a step, and a cursor for the next one. As the code shows, from version 2 on those leaves alone of the registers are
/// digested that differ from those of the root before.
pub fn root_of_step<D: Digester + Send + Sync, R: Threads + Sync>(
    rt: &R,
    alloc: Global,
    replay: &Replay<'_, D>,
    registers: &mut KeptRegisters<D>,
    last: Option<Cursor<D>>,
    step: u64,
) -> Result<Rooted<D>, Memory>
    requires registers { registers.old ≡ replay.now.run.now.first.version }
    requires machine { IfSome last (λ c. IsMachineOf D.digest_of replay.now.run.now c.at c.machine) }
    requires tree { IfSome last (λ c. IsFreshTree D.digest_of c.tree c.machine.mem) }
    ensures registers { registers.new ≡ registers.old }
    ensures machine { IfOk result (λ r. IsMachineOf D.digest_of replay.now.run.now r.cursor.at r.cursor.machine) }
    ensures tree { IfOk result (λ r. IsFreshTree D.digest_of r.cursor.tree r.cursor.machine.mem) }
    ensures root { IfOk result (λ r. r.root.0 ≡ root_at D.digest_of replay.now.run.now step) }
{
    tampered_runs_keep_the_input();
    let cursor = cursor_of_step(rt, alloc, replay, last, step)?;
    let machine = &cursor.machine;
    let parts = Parts {
        memory: cursor.tree.root(),
        registers: registers.digest(&machine.regs),
        input: replay.input,
    };
    let root = root_of_parts(replay.d, machine.version, &parts, machine);
    Ok(Rooted { cursor, root })
}
