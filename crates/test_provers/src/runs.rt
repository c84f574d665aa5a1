//! Rows of recorded runs.
ghost use Rattle.checkpoint_run.specs.Recorded.{AreChained};
ghost use Rattle.sha2.specs.Sha256.{sha256};

use crate::scripts::tamper_of;
use checkpoint_run::{Run, machine_at, next};
use digest_core::Sha256;
use mem_plain::PlainMem;
use rd_base::Tamper;
use std::alloc::Global;
use toy_rows::{Unanswered, number, word};

/// `run BOUND EVERY TAMPER`: the step from which the run stands still, and the last checkpoint's status, pc, x10 and length of output.
pub fn last_kept(alloc: Global, run: &Run) -> Result<String, Unanswered> {
    let still = run.still();
    let last = machine_at(run, still / u64::from(run.every()))?;
    let (ctl, x10, len) = (last.ctl, last.regs.get(10), last.output.len());
    drop(last);
    Ok(format!(in alloc;
        "still from {still} on, {} at 0x{:x}, x10 {x10}, output of {len}",
        ctl.status, ctl.pc
    )?)
}

/// The byte if a condition holds, and else 0.
fn byte_if(holds: bool, byte: u8) -> u8 {
    if holds { byte } else { 0 }
}

/// Whether the bytes of a machine that stores 7 to page j in step 3 * j + 3 are those of a step: those that it stored to a hundred pages,
/// its program's first, and one at an address, which is 0x81 from the step `flipped` on.
fn has_bytes_of(mem: &PlainMem, step: u64, flipped: u32, addr: u32) -> bool {
    for page in 0..100u32 {
        let stored = step > u64::from(3 * page + 3);
        if mem.byte(0x2_0000 + 4096 * page) != byte_if(stored, 7) {
            return false;
        }
    }
    let changed = step >= u64::from(flipped);
    mem.byte(addr) == byte_if(changed, 0x81) && mem.byte(0x1_0000) == 0xb7
}

/// How many of the first checkpoints have the bytes of their steps.
fn right_ones(run: &Run, flipped: u32, addr: u32) -> Result<u32, Unanswered> {
    for checkpoint in 0..100u32 {
        let step = u64::from(checkpoint) * u64::from(run.every());
        if step > run.still() {
            return Ok(checkpoint);
        }
        let kept = machine_at(run, u64::from(checkpoint))?;
        if !has_bytes_of(&kept.mem, step, flipped, addr) {
            return Ok(checkpoint);
        }
    }
    Ok(100)
}

/// `checkpoints BOUND EVERY TAMPER`, of a flipped byte: from where the run stands still, and how many checkpoints from the first one on
/// have the bytes of their steps.
pub fn checkpoints(alloc: Global, run: &Run, words: &[&str]) -> Result<String, Unanswered> {
    let Tamper::Flip { step, addr, .. } = tamper_of(word(words, 3)?)? else {
        return Err(Unanswered::NoRow);
    };
    let still = run.still();
    let right = right_ones(run, step, addr)?;
    Ok(format!(in alloc; "still from {still} on, {right} right ones")?)
}

/// The pages that `next` names from the state of a step on, whose checkpoint there is.
fn named_from(run: &Run, step: u32) -> Result<[Option<u32>; 2], Unanswered>
    requires { AreChained sha256 run.now }
{
    let mut at = u64::from(step) * u64::from(run.every());
    if at > run.still() || at >= run.bound() {
        return Ok([None, None]);
    }
    let mut kept = machine_at(run, u64::from(step))?;
    Ok(next(Sha256, run, &mut at, &mut kept)?)
}

/// A page, if there is one.
fn page(alloc: Global, page: Option<u32>) -> Result<String, Unanswered> {
    match page {
        Some(page) => Ok(format!(in alloc; "page 0x{page:x}")?),
        None => Ok(String::from_str(alloc, "none")?),
    }
}

/// `pages BOUND 1 TAMPER STEP`: the pages that `next` names from a step on, that of the store and that of the flipped byte.
pub fn pages(alloc: Global, run: &Run, words: &[&str]) -> Result<String, Unanswered>
    requires { AreChained sha256 run.now }
{
    let [stored, flipped] = named_from(run, number(words, 4)?)?;
    let (stored, flipped) = (page(alloc, stored)?, page(alloc, flipped)?);
    Ok(format!(in alloc; "{stored}, {flipped}")?)
}
