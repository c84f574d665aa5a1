//! The check of one proof: which of its conditions fails first, or to which root it leads. Each digest is counted.
ghost use Rattle.std.specs.Prelude.{◌≡◌, ◌↔◌, ◌⊎◌, ◌+◌, ◌≤◌, ℕ, List, bytes_eq, false, is_some};
ghost use Rattle.rd_base.specs.declared.digest.Digest32.{Digest32};
ghost use Rattle.open_proof.specs.Conditions.{FirstFails, LeadsFrom, conditions};
ghost use Rattle.open_proof.specs.Conditions.Refusal.{opening, shape};
ghost use Rattle.open_proof.specs.Facts as facts_of_proof;
ghost use Rattle.open_proof.specs.Next as next;
ghost use Rattle.open_proof.specs.Next.{registers_digests, storage_digests};
ghost use Rattle.open_proof.specs.Openings as openings;
ghost use Rattle.step_referee.specs.Tests as tests;
ghost use Rattle.step_referee.specs.Tests.{checked, checked_ticks};
ghost use Rattle.step_referee.specs.Ticks.{TicksUntil, condition_digests, step_ticks, most_alone, most_ticks, opening_digests, registers_changed_digests, ticks_of};
ghost use Rattle.out_chain.specs.Root as roots;
ghost use Rattle.rv_step.specs.Named.{AreRegisters};
ghost use Rattle.rv_step.specs.State.{State};
ghost use Rattle.rv_step.specs.Step.{step};
ghost use Rattle.rv_step.specs.Valid.{IsValid};
ghost use Rattle.state_commit.specs.StateRoot.{root_in};
ghost use Rattle.open_proof.specs.StateCollision.{IsStateCollision};

mod carrying;
mod laws;

use crate::check::carrying::step_on;
use digest_core::{Counted, Digester, control_text, registers_text, state_text};
pub use laws::leading_is_decided;
use open_proof::{
    Called, Facts, HeldRegisters, ShownState, called_by, changed_register, facts_of, fetch_way,
    named_ways, operand_way, proofs_are_in_range, proofs_lead_to_the_next_state, read_way,
    root_after, root_before, storage_held, ways_climb,
};
use rd_base::{Ctl, Digest32, Proof, Regs, Steps, same_digest};
use rv_step::names_are_registers;
use std::slice;
use std::sync::ledger::Ledger;

/// The result of the check of a proof of one step.
#[derive(Clone, Copy, Debug, PartialEq, Eq)]
pub enum StepCheck {
    /// It leads to this root.
    Leads(Digest32),
    /// Its parts don't open the root, or a chunk or a register doesn't open the root of its tree.
    NotOpen,
    /// It is of another version, or an opening is missing, or one is there that isn't called for.
    WrongShape,
}

/// Whether a proof's parts make a root.
fn parts_open<C: Counted, L: Ledger>(
    c: C,
    a: &Digest32,
    facts: &Facts,
    steps: &mut Steps<L>,
) -> bool
    ensures value { result ≡ bytes_eq a.now.0 (next.root_before C.digest_of facts.now) }
    ensures steps { steps.new ≡ steps.old + registers_digests facts.now.regs + storage_digests facts.now.input_tree + 2 }
{
    same_digest(a, &root_before(c, facts, steps))
}

/// The root that a proof's parts make after the step, by the registers that the instruction names and the register file that is shown.
fn root_next<C: Counted, L: Ledger>(
    c: C,
    facts: &Facts,
    called: &Called,
    steps: &mut Steps<L>,
) -> Digest32
    requires names { called.now.names ≡ facts_of_proof.named_called facts.now }
    requires file { called.now.file ≡ facts_of_proof.file_of_facts facts.now }
    ensures digest { result.0 ≡ next.root_next C.digest_of facts.now }
    ensures steps { steps.new ≡ steps.old + step_ticks C.digest_of facts.now }
{
    names_are_registers();
    let names = called.names.as_slice();
    let regs = called.file;
    let after = step_on(c, &ShownState { facts, regs }, steps);
    let regs = registers_changed(c, names, &facts.regs, &called.file, &after.regs, steps);
    let storage = storage_held(c, &facts.input_tree, &after.mem, steps);
    root_of(c, &storage, &regs, &after.ctl, steps)
}

/// Whether something is there if and only if it is called for.
fn is_called<T>(there: &Option<T>, place: Option<u32>) -> bool
    ensures { result ≡ tests.is_called there.now place }
{
    there.is_some() == place.is_some()
}

/// Whether as many registers are opened as are named.
fn is_counted(names: &[u8], regs: &HeldRegisters) -> bool
    ensures { result ≡ openings.is_counted names.now regs.now }
{
    match regs {
        HeldRegisters::Whole(_regs) => true,
        HeldRegisters::Opened(_root, named) => named.as_slice().len() == names.len(),
    }
}

/// The answer to what a proof holds, by its tests in their order.
#[tactic(auto, unfolding(crate::specs::Tests::checked, crate::specs::Tests::checked_ticks))]
fn check_facts<C: Counted, L: Ledger>(
    c: C,
    version: u32,
    a: Digest32,
    facts: &Facts,
    steps: &mut Steps<L>,
) -> StepCheck
    ensures value { result ≡ checked C.digest_of version a facts.now }
    ensures counted { steps.new ≡ checked_ticks C.digest_of version a facts.now steps.old }
    ensures exactly { (b : Digest32) → result ≡ StepCheck.Leads b → steps.new ≡ steps.old + ticks_of C.digest_of facts.now }
    ensures not_open { result ≡ StepCheck.NotOpen → steps.new ≤ steps.old + opening_digests facts.now }
    ensures wrong_shape { result ≡ StepCheck.WrongShape → steps.new ≤ steps.old + opening_digests facts.now }
{
    let called = called_by(facts);
    let names = called.names.as_slice();
    if facts.version != version {
        return StepCheck::WrongShape;
    }
    if !is_called(&facts.fetch, called.fetch) {
        return StepCheck::WrongShape;
    }
    if !parts_open(c, &a, facts, steps) {
        return StepCheck::NotOpen;
    }
    if !ways_climb(c, slice::from_ref(&fetch_way(facts, &called)), steps) {
        return StepCheck::NotOpen;
    }
    if !is_counted(names, &facts.regs) {
        return StepCheck::WrongShape;
    }
    if !ways_climb(c, &named_ways(facts, &called), steps) {
        return StepCheck::NotOpen;
    }
    if !is_called(&facts.operand, called.operand) {
        return StepCheck::WrongShape;
    }
    if !ways_climb(c, slice::from_ref(&operand_way(facts, &called)), steps) {
        return StepCheck::NotOpen;
    }
    if !is_called(&facts.input, called.input) {
        return StepCheck::WrongShape;
    }
    if !ways_climb(c, slice::from_ref(&read_way(facts, &called)), steps) {
        return StepCheck::NotOpen;
    }
    StepCheck::Leads(root_next(c, facts, &called, steps))
}

/// The root to which a proof leads from the root `a`, for a referee of a version: `Leads` if and only if its conditions hold, and then to
/// the root that is made of its parts after the step (`leads`). It takes no memory and reads nothing but the proof.
///
/// Else it answers by the first of its conditions that fails, in this order: `WrongShape` if the proof is of another version, or the
/// fetched chunk is left out though the parts call for it, or there though they don't; `NotOpen` if the parts don't open `a`, or the
/// fetched chunk doesn't open the root of memory; `WrongShape` if another number of registers is opened than the instruction names;
/// `NotOpen` if one of them doesn't open the root of the registers; `WrongShape` if the data chunk is left out though the instruction
/// calls for it, or there though it doesn't; `NotOpen` if that doesn't open the root of memory; and the same for the chunk of the input
/// (`not_open`, `wrong_shape`).
///
/// For every state with the root `a`, `Leads(b)` means that `b` is the root of the state after it, or that a string opened in the proof
/// and a different string of the state have one digest (`next`).
///
/// `steps` ticks once for each digest that the answer depends on (by their type the functions that it calls make none of `d` without a
/// counter, `Counted`), and once for the step of the machine: at most 91, 101 or 103 times, by the version (`few`), and at most 36, 57 or
/// 69 times if there is no data chunk (`alone`). If it leads, it ticks exactly as often as its openings and its step take (`exactly`). If
/// it refuses, it ticks exactly as often as the conditions take up to the first that fails, and for those of shape not at all: for the root
/// all strings of the parts are digested, and for openings all their ways up, be the first of them wrong or the last (`counted`).
pub fn check_step<D: Digester, L: Ledger>(
    d: D,
    version: u32,
    a: Digest32,
    proof: &Proof,
    steps: &mut Steps<L>,
) -> StepCheck
    ensures leads { (b : Digest32) → (result ≡ StepCheck.Leads b) ↔ LeadsFrom D.digest_of version a (facts_of_proof.facts_of proof.now) b }
    ensures not_open { (result ≡ StepCheck.NotOpen) ↔ FirstFails opening (conditions D.digest_of version a (facts_of_proof.facts_of proof.now)) }
    ensures wrong_shape { (result ≡ StepCheck.WrongShape) ↔ FirstFails shape (conditions D.digest_of version a (facts_of_proof.facts_of proof.now)) }
    ensures exactly { (b : Digest32) → result ≡ StepCheck.Leads b → steps.new ≡ steps.old + ticks_of D.digest_of (facts_of_proof.facts_of proof.now) }
    ensures counted { TicksUntil (conditions D.digest_of version a (facts_of_proof.facts_of proof.now)) (condition_digests (facts_of_proof.facts_of proof.now))
        (step_ticks D.digest_of (facts_of_proof.facts_of proof.now)) steps.old steps.new }
    ensures few { steps.new ≤ steps.old + most_ticks proof.now }
    ensures alone { is_some (facts_of_proof.facts_of proof.now).operand ≡ false → steps.new ≤ steps.old + most_alone proof.now }
    ensures next { (s : State) (b : Digest32) → IsValid s → s.version ≡ version → a.0 ≡ root_in D.digest_of version s → result ≡ StepCheck.Leads b →
        (b.0 ≡ root_in D.digest_of version (step s)) ⊎ ((pair : List ℕ × List ℕ) × IsStateCollision D.digest_of (facts_of_proof.facts_of proof.now) s pair) }
{
    proofs_lead_to_the_next_state();
    proofs_are_in_range(proof);
    let facts = facts_of(proof);
    check_facts(d, version, a, &facts, steps)
}

/// The digest of the registers after a step: that of their string, or the root of their tree with the one register changed that the
/// step has changed among those that are shown.
#[tactic(auto, using(crate::proofs::ChangeLemmas::changed_digest, crate::proofs::ChangeLemmas::changed_ticks))]
fn registers_changed<C: Counted, L: Ledger>(
    c: C,
    names: &[u8],
    regs: &HeldRegisters,
    before: &Regs,
    after: &Regs,
    steps: &mut Steps<L>,
) -> Digest32
    requires { AreRegisters names.now }
    ensures digest { result.0 ≡ next.registers_changed C.digest_of names.now regs.now before.now after.now }
    ensures steps { steps.new ≡ steps.old + registers_changed_digests names.now regs.now before.now after.now }
{
    match regs {
        HeldRegisters::Whole(_regs) => c.digest(&registers_text(after), steps),
        HeldRegisters::Opened(root, named) => {
            let changed = changed_register(*root, names, named.as_slice(), before, after);
            root_after(c, *root, &changed, steps)
        }
    }
}

/// The root of a state, from the digests of its storage and of its registers, by two digests.
fn root_of<C: Counted, L: Ledger>(
    c: C,
    storage: &Digest32,
    regs: &Digest32,
    ctl: &Ctl,
    steps: &mut Steps<L>,
) -> Digest32
    ensures digest { result.0 ≡ roots.parts_root C.digest_of storage.now.0 regs.now.0 ctl.now }
    ensures steps { steps.new ≡ steps.old + 2 }
{
    let control = c.digest(&control_text(ctl), steps);
    c.digest(&state_text(storage, regs, &control), steps)
}
