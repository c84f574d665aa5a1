//! One step, and many.
ghost use Rattle.std.specs.Prelude.{◌≡◌, ◌++◌, [], ◌∷◌, ℕ, ◌<◌, ◌^◌, Some, None, IfOk, IfSome, OnOk, OnErr};
ghost use Rattle.rv_step.specs.Naming.{NamesRegister};
ghost use Rattle.rv_step.specs.NextEffect.{effect_of_word, fetched as fetched_seen, next_effect as effect_seen};
ghost use Rattle.rv_step.specs.State.{state_of, IsChained};
ghost use Rattle.rv_step.specs.Step.{step as step_of, after_effect, pc_after, regs_after, state_at, status_after};
ghost use Rattle.rv_step.specs.Parts.{IsAligned};
ghost use Rattle.rv_step.specs.Stores.{StoresAligned, read_by};
ghost use Rattle.rv_step.specs.Touched.{stored_page, touched};
ghost use Rattle.rv_step.specs.OutOfMemory.{NeedsMemory, StepNeedsMemory};

use crate::access::StateAccess;
use crate::asked::Need;
use crate::effect::{Effect, ILLEGAL_INSTRUCTION, MISALIGNED_JUMP, effect_of};
use crate::fetching::fetched;
use crate::machine::Machine;
use crate::parts::{change, need_by};
use digest_core::{Digester, chain_grows, link};
use mem_plain::PAGE_BYTES;
use rd_base::{Ctl, Memory, Regs, Status};
use rv_decode::Instr;

/// The number that an instruction reads of memory or of the input; 0 if it reads nothing.
#[inline(always)]
fn number_for<A: StateAccess>(state: &A, asked: &Need) -> u32
    requires { IsAligned asked.now }
    ensures { result ≡ read_by (A.seen state.now) asked.now }
{
    match asked {
        Need::Load { addr, width } => state.load(*addr, *width),
        Need::Input { index } => state.input_byte(*index),
        Need::Nothing | Need::Store { .. } | Need::Trap(_) => 0,
    }
}

/// The effect of an instruction that is at `pc`. What it needs is read first; if the need is a trap, nothing is read, and the effect is
/// that trap.
///
/// It is inlined with `decode`, so that the instruction isn't written to memory field by field and read back.
#[inline(always)]
fn effect_by<A: StateAccess>(state: &A, instr: &Instr) -> Effect
    ensures value { result ≡ effect_of_word (A.seen state.now) (Some instr.now) }
    ensures register { NamesRegister result }
    ensures aligned { StoresAligned result }
{
    let asked = need_by(state.input_scheme(), state.registers(), instr);
    match asked {
        Need::Trap(code) => Effect::Trap(code),
        _ => {
            let loaded = number_for(state, &asked);
            effect_of(state.registers(), state.pc(), instr, loaded)
        }
    }
}

/// The effect of the next step of a state that fetches no instruction: it has stopped, or traps.
fn effect_of_none<A: StateAccess>(state: &A) -> Option<Effect>
    requires { fetched_seen (A.seen state.now) ≡ None }
    ensures value { result ≡ effect_seen (A.seen state.now) }
    ensures register { IfSome result NamesRegister }
    ensures aligned { IfSome result StoresAligned }
{
    if !state.status().is_running() {
        return None;
    }
    if state.pc() % 4 != 0 {
        return Some(Effect::Trap(MISALIGNED_JUMP));
    }
    Some(Effect::Trap(ILLEGAL_INSTRUCTION))
}

/// The effect of the next step of a state, whoever holds the state: that of the instruction at `pc`. It is a trap if `pc` isn't a
/// multiple of 4, if the word at `pc` is no instruction, or if the instruction can't be carried out. `None` comes if and only if the
/// state has stopped. Nothing is changed. A register that the effect names is below 32, and a store lies at a multiple of its width.
#[inline(always)]
pub fn next_effect<A: StateAccess>(state: &A) -> Option<Effect>
    ensures value { result ≡ effect_seen (A.seen state.now) }
    ensures register { IfSome result NamesRegister }
    ensures aligned { IfSome result StoresAligned }
{
    match fetched(state) {
        Some(instr) => Some(effect_by(state, &instr)),
        None => effect_of_none(state),
    }
}

/// Changes registers, `pc` and status by an effect. Memory, and the length and commitment of the output, are the caller's part of a step.
#[inline(always)]
pub fn apply(regs: &mut Regs, ctl: &mut Ctl, effect: &Effect)
    requires { NamesRegister effect.now }
    ensures regs { regs.new ≡ regs_after regs.old ctl.old.pc effect.now }
    ensures ctl { ctl.new ≡ record ctl.old { pc = pc_after ctl.old.pc effect.now; status = status_after ctl.old.status effect.now } }
{
    change(regs, &mut ctl.pc, effect);
    match effect {
        Effect::Exit(code) => ctl.status = Status::Exited(*code),
        Effect::Trap(code) => ctl.status = Status::Trapped(*code),
        _ => {}
    }
}

/// The page that an effect stores to.
#[inline(always)]
pub(crate) fn page_of(effect: &Effect) -> Option<u32>
    requires { StoresAligned effect.now }
    ensures page { result ≡ stored_page effect.now }
    ensures below { IfSome result (λ page. page < 2 ^ 20) }
{
    match effect {
        Effect::Store { addr, .. } => Some(*addr / PAGE_BYTES),
        _ => None,
    }
}

/// Puts a byte of output, with its link of the chain. An `Err` is out of memory, and changes nothing.
fn put<D: Digester>(machine: &mut Machine, d: &D, byte: u8) -> Result<(), Memory>
    requires { IsChained D.digest_of machine.old }
    ensures ok { OnOk result (state_of machine.new ≡ record (state_of machine.old) { output = (state_of machine.new).output }) }
    ensures output { OnOk result (machine.new.output.items ≡ machine.old.output.items ++ byte ∷ []) }
    ensures err { OnErr result (state_of machine.new ≡ state_of machine.old) }
    ensures chained { IsChained D.digest_of machine.new }
{
    machine.output.push(byte)?;
    machine.ctl.out_len += 1;
    chain_grows();
    machine.ctl.chain = link(*d, machine.ctl.chain, byte);
    Ok(())
}

/// Carries out the effect of a machine's step. An `Err` is out of memory, and changes nothing.
#[inline(always)]
fn carry_out<D: Digester>(machine: &mut Machine, d: &D, effect: &Effect) -> Result<(), Memory>
    requires chained { IsChained D.digest_of machine.old }
    requires register { NamesRegister effect.now }
    requires aligned { StoresAligned effect.now }
    ensures ok { OnOk result (state_of machine.new ≡ after_effect (state_of machine.old) effect.now) }
    ensures err { OnErr result (state_of machine.new ≡ state_of machine.old) }
    ensures needs { OnErr result (NeedsMemory machine.old.mem effect.now) }
    ensures chained { IsChained D.digest_of machine.new }
{
    match effect {
        Effect::Store { addr, width, value } => machine.mem.store(*addr, *width, *value)?,
        Effect::Put(byte) => put(machine, d, *byte)?,
        _ => {}
    }
    apply(&mut machine.regs, &mut machine.ctl, effect);
    Ok(())
}

/// One step: carries out the word at `pc`. The result is the page that it stored to, which is the store's address / 4,096, as
/// `touches` would have named it before. A machine that has stopped stays as it is. One whose `pc` isn't a multiple
/// of 4, whose word is no instruction or whose instruction can't be carried out traps, which changes only
/// the status. The machine's chain is its output's by the digester `d`, before and after. An `Err` is out of memory, and
/// changes nothing; it comes only if the step stores to a page in which every byte is 0, or writes a byte of output.
#[inline(always)]
#[tactic(auto, unfolding(crate::specs::Step::step, crate::specs::Touched::touched))]
pub fn step<D: Digester>(machine: &mut Machine, d: &D) -> Result<Option<u32>, Memory>
    requires { IsChained D.digest_of machine.old }
    ensures ok { OnOk result (state_of machine.new ≡ step_of (state_of machine.old)) }
    ensures page { IfOk result (λ page. page ≡ touched (state_of machine.old)) }
    ensures below { IfOk result (λ page. IfSome page (λ p. p < 2 ^ 20)) }
    ensures err { OnErr result (state_of machine.new ≡ state_of machine.old) }
    ensures needs { OnErr result (StepNeedsMemory (state_of machine.old)) }
    ensures chained { IsChained D.digest_of machine.new }
{
    match next_effect(machine) {
        Some(effect) => {
            carry_out(machine, d, &effect)?;
            Ok(page_of(&effect))
        }
        None => Ok(None),
    }
}

/// This many steps, which keep the chain by the digester `d`. A machine that has stopped stays as it is. An `Err` is out
/// of memory: fewer steps were made, and the machine is in the state before the one that had to take memory.
pub fn advance<D: Digester>(machine: &mut Machine, d: &D, steps: u64) -> Result<(), Memory>
    requires { IsChained D.digest_of machine.old }
    ensures ok { OnOk result (state_of machine.new ≡ state_at (state_of machine.old) steps) }
    ensures err { OnErr result ((n : ℕ) × (n < steps) × (state_of machine.new ≡ state_at (state_of machine.old) n)) }
    ensures needs { OnErr result (StepNeedsMemory (state_of machine.new)) }
    ensures chained { IsChained D.digest_of machine.new }
{
    'steps: for _i in 0..steps {
        if !machine.ctl.status.is_running() {
            return Ok(());
        }
        step(machine, d)?;
    }
    Ok(())
}
