//! A tamper, carried out on a machine.
ghost use Rattle.std.specs.Prelude.{◌≡◌, ℕ, ◌+◌, ◌-◌, ◌/◌, ◌<◌, ◌≤◌, ◌^◌, ◌∷◌, [], ◌++◌, true, false, List, Some, None, IfOk, IfSome, OnOk, length};
ghost use Rattle.mem_plain.specs.Contents.{byte_at};
ghost use Rattle.rv_step.specs.State.{state_of, IsChained};
ghost use Rattle.rv_step.specs.State.{State};
ghost use Rattle.checkpoint_run.specs.TamperedRun.{tampered, followed, next_of, run_from};
ghost use Rattle.checkpoint_run.specs.AtRest.{ended, to_come};
ghost use Rattle.checkpoint_run.specs.NamedPages.{IsNamed, ArePages};
ghost use Rattle.checkpoint_run.specs.WrittenPages.{stored_by, flipped_by, written_by};

use digest_core::Digester;
use mem_plain::{PAGE_BYTES, laying_bytes};
use rd_base::{Memory, Tamper};
use rv_step::{Machine, one_page_changes, output_only_grows, step, stopped_states_stay};

/// Whether the step from the machine of step `i` changes nothing, but what the tamper does at the next one.
#[inline(always)]
pub fn has_ended(tamper: &Tamper, i: u64, machine: &Machine) -> bool
    ensures { result ≡ ended tamper.now i (state_of machine.now) }
{
    let stopped = !machine.ctl.status.is_running();
    match tamper {
        Tamper::Early { steps } => stopped || u64::from(*steps) <= i,
        _ => stopped,
    }
}

/// The step after `i`, up to the bound, at which the tamper changes the state; `None` if there is no such step.
pub fn tamper_to_come(tamper: &Tamper, bound: u64, i: u64) -> Option<u64>
    ensures step { result ≡ to_come tamper.now bound i }
    ensures small { IfSome result (λ n. n < 2 ^ 32) }
{
    match tamper {
        Tamper::Flip { step, .. } | Tamper::Register { step, .. } => {
            let step = u64::from(*step);
            if i < step && step <= bound {
                Some(step)
            } else {
                None
            }
        }
        _ => None,
    }
}

/// A step from `i` on, below the goal, up to which the state is that of the machine of step `i`: if the run has ended there, the last
/// step before the tamper or before the goal, and else `i`.
pub fn same_until(tamper: &Tamper, goal: u64, i: u64, machine: &Machine) -> u64
    requires { i < goal }
    ensures running { ended tamper.now i (state_of machine.now) ≡ false → result ≡ i }
    ensures up_to_tamper { ended tamper.now i (state_of machine.now) ≡ true → (n : ℕ) → to_come tamper.now goal i ≡ Some n → result ≡ n - 1 }
    ensures up_to_goal { ended tamper.now i (state_of machine.now) ≡ true → to_come tamper.now goal i ≡ None → result ≡ goal - 1 }
    ensures from { i ≤ result }
    ensures below { result < goal }
    ensures same { (first : State) → run_from tamper.now first i ≡ state_of machine.now → run_from tamper.now first result ≡ state_of machine.now }
{
    stopped_states_stay();
    if !has_ended(tamper, i, machine) {
        return i;
    }
    match tamper_to_come(tamper, goal, i) {
        Some(step) => step - 1,
        None => goal - 1,
    }
}

/// What the tamper does to the machine of step `i`, and the page in which it changes a byte.
#[inline(always)]
pub fn tamper_at(tamper: &Tamper, i: u64, machine: &mut Machine) -> Result<Option<u32>, Memory>
    ensures state { OnOk result (state_of machine.new ≡ tampered tamper.now i (state_of machine.old)) }
    ensures chained { (digest : List ℕ → List ℕ) → IsChained digest machine.old → IsChained digest machine.new }
    ensures page { IfOk result (λ page. page ≡ flipped_by tamper.now i) }
    ensures pages { IfOk result (λ page. ArePages (page ∷ [])) }
    ensures elsewhere { IfOk result (λ page. (q : ℕ) → ¬ IsNamed (q / 4096) (page ∷ []) → byte_at machine.new.mem q ≡ byte_at machine.old.mem q) }
{
    match tamper {
        Tamper::Flip { step, addr, mask } if i == u64::from(*step) => {
            laying_bytes();
            let byte = machine.mem.byte(*addr) ^ *mask;
            machine.mem.store(*addr, 1, u32::from(byte))?;
            Ok(Some(*addr / PAGE_BYTES))
        }
        Tamper::Register { step, reg, value } if i == u64::from(*step) => {
            machine.regs.set(reg.get(), *value);
            Ok(None)
        }
        _ => Ok(None),
    }
}

/// The machine's step from step `i` on, which an early end leaves out, and the page that it stores to.
#[inline(always)]
fn step_from<D: Digester>(
    d: D,
    tamper: &Tamper,
    i: u64,
    machine: &mut Machine,
) -> Result<Option<u32>, Memory>
    requires { IsChained D.digest_of machine.old }
    ensures state { OnOk result (state_of machine.new ≡ followed tamper.now i (state_of machine.old)) }
    ensures chained { IsChained D.digest_of machine.new }
    ensures adds { OnOk result ((more : List ℕ) × (machine.new.output.items ≡ machine.old.output.items ++ more)) }
    ensures page { IfOk result (λ page. page ≡ stored_by tamper.now i (state_of machine.old)) }
    ensures pages { IfOk result (λ page. ArePages (page ∷ [])) }
    ensures elsewhere { IfOk result (λ page. (q : ℕ) → ¬ IsNamed (q / 4096) (page ∷ []) → byte_at machine.new.mem q ≡ byte_at machine.old.mem q) }
{
    one_page_changes();
    output_only_grows();
    if let Tamper::Early { steps } = tamper
        && u64::from(*steps) <= i
    {
        return Ok(None);
    }
    let page = step(machine, &d)?;
    Ok(page)
}

/// Takes the machine of step `i` to the next one. The result is the pages that were written: that of the step's store, and then
/// that of a byte that is flipped.
#[inline(always)]
pub fn step_tampered<D: Digester>(
    d: D,
    tamper: &Tamper,
    i: u64,
    machine: &mut Machine,
) -> Result<[Option<u32>; 2], Memory>
    requires chained { IsChained D.digest_of machine.old }
    requires room { i + 1 < 2 ^ 64 }
    ensures state { OnOk result (state_of machine.new ≡ next_of tamper.now i (state_of machine.old)) }
    ensures chained { IsChained D.digest_of machine.new }
    ensures adds { OnOk result ((more : List ℕ) × (machine.new.output.items ≡ machine.old.output.items ++ more)) }
    ensures two { IfOk result (λ pages. length pages ≡ 2) }
    ensures written { IfOk result (λ pages. pages ≡ written_by tamper.now i (state_of machine.old)) }
    ensures pages { IfOk result (λ pages. ArePages pages) }
    ensures elsewhere { IfOk result (λ pages. (q : ℕ) → ¬ IsNamed (q / 4096) pages → byte_at machine.new.mem q ≡ byte_at machine.old.mem q) }
{
    let stored = step_from(d, tamper, i, machine)?;
    let tampered = tamper_at(tamper, i + 1, machine)?;
    Ok([stored, tampered])
}
