//! The step on the opened parts of a proof: the machine's own `next_effect` and `apply`, over what the proof shows. Only a store and a
//! byte of output are carried out otherwise than by the machine: a store climbs to the root of memory again, and a byte makes a digest.
ghost use Rattle.std.specs.Prelude.{◌≡◌, ◌+◌};
ghost use Rattle.rv_step.specs.NextEffect.{next_effect as effect_seen};
ghost use Rattle.rv_step.specs.Naming.{NamesRegister};
ghost use Rattle.rv_step.specs.Step.{pc_after, regs_after, status_after};
ghost use Rattle.rv_step.specs.Stores.{StoresAligned};
ghost use Rattle.open_proof.specs.Held.{held_after};
ghost use Rattle.open_proof.specs.Facts.{held_with, seen_shown};
ghost use Rattle.open_proof.specs.Next.{held_by};
ghost use Rattle.step_referee.specs.HeldParts.{held_in};
ghost use Rattle.step_referee.specs.Ticks.{digests_by, digests_of_effect};

use digest_core::{Counted, link_text};
use open_proof::{ShownState, changed_chunk, root_after};
use rd_base::{Ctl, Digest32, Opening, Regs, Steps};
use rv_step::{Effect, apply, next_effect};
use std::sync::ledger::Ledger;

/// What a proof holds of a state: the root of memory, the registers as far as they are shown, and the control fields.
#[derive(Clone, Copy, Debug)]
pub(crate) struct Parts {
    pub mem: Digest32,
    pub regs: Regs,
    pub ctl: Ctl,
}

/// The parts with what an effect changes of registers, `pc` and status.
fn applied(parts: Parts, effect: &Effect) -> Parts
    requires { NamesRegister effect.now }
    ensures { result ≡ record {
      mem = parts.mem;
      regs = regs_after parts.regs parts.ctl.pc effect.now;
      ctl = record parts.ctl { pc = pc_after parts.ctl.pc effect.now; status = status_after parts.ctl.status effect.now };
    } }
{
    let mut parts = parts;
    apply(&mut parts.regs, &mut parts.ctl, effect);
    parts
}

/// The parts after an effect, with the chunk of memory that it stores to if it stores. A store takes the 28 digests from that chunk to
/// the root of memory, and a byte of output takes one.
fn carry_out<C: Counted, L: Ledger>(
    c: C,
    parts: Parts,
    effect: &Effect,
    operand: &Option<Opening>,
    steps: &mut Steps<L>,
) -> Parts
    requires register { NamesRegister effect.now }
    requires aligned { StoresAligned effect.now }
    ensures held { held_in result ≡ held_after C.digest_of operand.now (held_in parts) effect.now }
    ensures steps { steps.new ≡ steps.old + digests_of_effect operand.now effect.now }
{
    match effect {
        Effect::Store { addr, width, value } => {
            let changed = changed_chunk(parts.mem, operand, *addr, *width, *value);
            let mem = root_after(c, parts.mem, &changed, steps);
            applied(Parts { mem, ..parts }, effect)
        }
        Effect::Put(byte) => {
            let mut ctl = parts.ctl;
            ctl.out_len = ctl.out_len.wrapping_add(1);
            ctl.chain = c.digest(&link_text(&ctl.chain, *byte), steps);
            applied(Parts { ctl, ..parts }, effect)
        }
        _ => applied(parts, effect),
    }
}

/// The step, from what a proof shows: the effect that the machine's own step has, carried out on the parts. It ticks once for the step, and
/// once for each of its digests.
pub(crate) fn step_on<C: Counted, L: Ledger>(
    c: C,
    state: &ShownState<'_>,
    steps: &mut Steps<L>,
) -> Parts
    ensures held { held_in result ≡ held_by C.digest_of state.now.facts.now.operand (held_with state.now.facts.now state.now.regs)
        (effect_seen (seen_shown state.now.facts.now state.now.regs)) }
    ensures steps { steps.new ≡ steps.old + 1 + digests_by state.now.facts.now.operand (effect_seen (seen_shown state.now.facts.now state.now.regs)) }
{
    steps.tick();
    let parts = Parts {
        mem: state.facts.mem,
        regs: state.regs,
        ctl: state.facts.ctl,
    };
    match next_effect(state) {
        Some(effect) => carry_out(c, parts, &effect, &state.facts.operand, steps),
        None => parts,
    }
}
