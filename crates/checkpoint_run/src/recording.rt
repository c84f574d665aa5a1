//! A run that is being recorded.
ghost use Rattle.std.specs.Prelude.{◌≡◌, ◌⊎◌, ℕ, ◌+◌, ◌*◌, ◌<◌, ◌≤◌, ◌^◌, ◌∷◌, [], ◌++◌, List, length, vec_len, true, false, Some, IfOk, OnOk};
ghost use Rattle.mem_plain.specs.Contents.{has_page};
ghost use Rattle.rv_step.specs.State.{State, state_of, IsChained};
ghost use Rattle.checkpoint_run.specs.TamperedRun.{tampered, run_from};
ghost use Rattle.checkpoint_run.specs.AtRest.{ended, to_come};
ghost use Rattle.checkpoint_run.specs.NamedPages.{IsNamed, ArePages};
ghost use Rattle.checkpoint_run.specs.WrittenPages.{count_named};
ghost use Rattle.checkpoint_run.specs.Versions.{AreBelow, IsShownBut};
ghost use Rattle.checkpoint_run.specs.NotedPages.{AreNoted};
ghost use Rattle.checkpoint_run.specs.Keeping.{IsPushed};
ghost use Rattle.checkpoint_run.specs.UnderWay.{IsRecordedTo, IsUnderWay, HasEnded, IsAtEnd};

use crate::checkpoint::{Checkpoint, add_checkpoint, used_pages};
use crate::tampering::{has_ended, step_tampered, tamper_at, tamper_to_come};
use crate::version::Version;
use digest_core::Digester;
use rd_base::{Memory, Tamper};
use rv_step::{Machine, stopped_states_stay};
use std::alloc::Global;
use std::collections::BTreeSet;

/// How many places there are for pages that were noted lately.
const RECENT_PLACES: u32 = 256;

/// What is kept of a run that is being recorded: the pages that were written since the last checkpoint, the versions of pages, and the
/// checkpoints.
#[derive(Drop)]
pub struct RecordedPages {
    pub changed: BTreeSet<u32>,
    /// Some of the changed pages, each at the place of its number's low eight bits.
    pub recent: Vec<Option<u32>>,
    pub versions: Vec<Version>,
    pub checkpoints: Vec<Checkpoint>,
}

/// A run that is being recorded: its machine and at which step it is, how many steps are left to the next checkpoint, and what is kept.
#[derive(Drop)]
pub struct Recording {
    pub machine: Machine,
    pub at: u64,
    pub left: u32,
    pub recorded: RecordedPages,
}

/// The machine of step 0, after what the tamper does there.
fn first_machine(machine: &Machine, tamper: &Tamper) -> Result<Machine, Memory>
    ensures state { IfOk result (λ m. state_of m ≡ tampered tamper.now 0 (state_of machine.now)) }
    ensures chained { (digest : List ℕ → List ℕ) → IsChained digest machine.now → IfOk result (λ m. IsChained digest m) }
{
    let mut first = machine.copy()?;
    tamper_at(tamper, 0, &mut first)?;
    Ok(first)
}

/// The recording at step 0, with a checkpoint due after every `every` steps.
pub fn start_recording(
    alloc: Global,
    machine: &Machine,
    tamper: &Tamper,
    every: u32,
) -> Result<Recording, Memory>
    requires { 0 < every }
    ensures at { IfOk result (λ r. r.at ≡ 0) }
    ensures under_way { (digest : List ℕ → List ℕ) → IsChained digest machine.now →
        IfOk result (λ r. IsUnderWay digest tamper.now (tampered tamper.now 0 (state_of machine.now)) every r) }
{
    let machine = first_machine(machine, tamper)?;
    let mut changed = used_pages(alloc, &machine.mem)?;
    let mut versions = Vec::new(alloc);
    let mut checkpoints = Vec::new(alloc);
    add_checkpoint(0, &machine, &mut changed, &mut versions, &mut checkpoints)?;
    let recent = no_recent_pages(alloc)?;
    Ok(Recording {
        machine,
        at: 0,
        left: every,
        recorded: RecordedPages {
            changed,
            recent,
            versions,
            checkpoints,
        },
    })
}

/// Places at which no page is named.
fn no_recent_pages(alloc: Global) -> Result<Vec<Option<u32>>, Memory>
    ensures places { IfOk result (λ recent. vec_len recent ≡ 256) }
    ensures none { IfOk result (λ recent. (pages : List ℕ) → AreNoted recent.items pages) }
{
    Ok(vec![in alloc; None; RECENT_PLACES as usize]?)
}

/// No page is named at any place from now on.
fn forget_recent_pages(recent: &mut Vec<Option<u32>>)
    ensures places { vec_len recent.new ≡ vec_len recent.old }
    ensures none { (pages : List ℕ) → AreNoted recent.new.items pages }
{
    recent.fill(None);
}

/// Notes a page that was written, if one is named, and no other. One that was noted lately isn't looked up among all.
fn note_changed_page(
    changed: &mut BTreeSet<u32>,
    recent: &mut Vec<Option<u32>>,
    page: Option<u32>,
) -> Result<(), Memory>
    requires places { vec_len recent.old ≡ 256 }
    requires noted { AreNoted recent.old.items changed.old.keys }
    ensures named { OnOk result ((p : ℕ) → has_page changed.new.keys p ≡ false → IsNamed p (page ∷ []) → ⊥) }
    ensures stays { OnOk result ((p : ℕ) → has_page changed.new.keys p ≡ false → has_page changed.old.keys p ≡ false) }
    ensures only { OnOk result ((p : ℕ) → has_page changed.new.keys p ≡ true → (has_page changed.old.keys p ≡ true) ⊎ IsNamed p (page ∷ [])) }
    ensures few { OnOk result (length changed.new.keys ≤ length changed.old.keys + count_named (page ∷ [])) }
    ensures pages { OnOk result (ArePages (page ∷ []) → AreBelow changed.old.keys → AreBelow changed.new.keys) }
    ensures places { OnOk result (vec_len recent.new ≡ 256) }
    ensures noted { OnOk result (AreNoted recent.new.items changed.new.keys) }
{
    match page {
        Some(page) => {
            let place = (page % RECENT_PLACES) as usize;
            if let Some(noted) = recent[place]
                && noted == page
            {
                return Ok(());
            }
            changed.insert(page)?;
            recent[place] = Some(page);
            Ok(())
        }
        None => Ok(()),
    }
}

/// Takes the machine of a step to the next one, and notes the pages that were written.
#[inline(always)]
fn step_noting_changes<D: Digester>(
    d: D,
    tamper: &Tamper,
    from: u64,
    machine: &mut Machine,
    recorded: &mut RecordedPages,
) -> Result<(), Memory>
    requires room { from + 1 < 2 ^ 64 }
    requires recorded { (first : State) × IsRecordedTo D.digest_of tamper.now first from machine.old recorded.old }
    ensures recorded { (first : State) → IsRecordedTo D.digest_of tamper.now first from machine.old recorded.old →
        OnOk result (IsRecordedTo D.digest_of tamper.now first (from + 1) machine.new recorded.new) }
    ensures checkpoints { OnOk result (recorded.new.checkpoints.items ≡ recorded.old.checkpoints.items) }
{
    let pages = step_tampered(d, tamper, from, machine)?;
    note_changed_page(&mut recorded.changed, &mut recorded.recent, pages[0])?;
    note_changed_page(&mut recorded.changed, &mut recorded.recent, pages[1])?;
    Ok(())
}

/// Keeps the checkpoint of a step with the state of a machine.
fn record_checkpoint(
    step: u64,
    machine: &Machine,
    recorded: &mut RecordedPages,
) -> Result<(), Memory>
    requires pages { AreBelow recorded.old.changed.keys }
    requires shown { IsShownBut recorded.old.versions.items recorded.old.changed.keys machine.now.mem }
    ensures recorded { (digest : List ℕ → List ℕ) (tamper : Tamper) (first : State) (at : ℕ) → run_from tamper first step ≡ run_from tamper first at →
        IsRecordedTo digest tamper first at machine.now recorded.old → OnOk result (IsRecordedTo digest tamper first at machine.now recorded.new) }
    ensures pushed { OnOk result (IsPushed recorded.old.checkpoints.items recorded.new.checkpoints.items step) }
{
    forget_recent_pages(&mut recorded.recent);
    add_checkpoint(
        step,
        machine,
        &mut recorded.changed,
        &mut recorded.versions,
        &mut recorded.checkpoints,
    )?;
    Ok(())
}

/// Takes the recording to the next step.
#[inline(always)]
fn record_step<D: Digester>(
    d: D,
    tamper: &Tamper,
    every: u32,
    recording: &mut Recording,
) -> Result<(), Memory>
    requires every { 0 < every }
    requires room { recording.old.at + 1 < 2 ^ 64 }
    requires under_way { (first : State) × IsUnderWay D.digest_of tamper.now first every recording.old }
    ensures at { OnOk result (recording.new.at ≡ recording.old.at + 1) }
    ensures under_way { (first : State) → IsUnderWay D.digest_of tamper.now first every recording.old → OnOk result (IsUnderWay D.digest_of tamper.now first every recording.new) }
{
    step_noting_changes(
        d,
        tamper,
        recording.at,
        &mut recording.machine,
        &mut recording.recorded,
    )?;
    recording.at += 1;
    recording.left -= 1;
    if recording.left != 0 {
        return Ok(());
    }
    recording.left = every;
    record_checkpoint(recording.at, &recording.machine, &mut recording.recorded)?;
    Ok(())
}

/// What `record_moves` does, in one loop for every tamper.
#[inline(always)]
fn record_steps<D: Digester>(
    d: D,
    tamper: &Tamper,
    bound: u64,
    every: u32,
    recording: &mut Recording,
) -> Result<(), Memory>
    requires every { 0 < every }
    requires start { recording.old.at ≡ 0 }
    requires under_way { IsUnderWay D.digest_of tamper.now (state_of recording.old.machine) every recording.old }
    ensures { OnOk result (HasEnded D.digest_of tamper.now (state_of recording.old.machine) every bound recording.new) }
{
    'steps: while recording.at < bound && !has_ended(tamper, recording.at, &recording.machine) {
        record_step(d, tamper, every, recording)?;
    }
    Ok(())
}

/// Takes a recording at step 0 to the bound, or to the step from which no step changes anything but what a tamper does, if that comes
/// first.
///
/// A run that nobody tampers with has a loop of its own, which takes no instruction to ask what a tamper does.
fn record_moves<D: Digester>(
    d: D,
    tamper: &Tamper,
    bound: u64,
    every: u32,
    recording: &mut Recording,
) -> Result<(), Memory>
    requires every { 0 < every }
    requires start { recording.old.at ≡ 0 }
    requires under_way { IsUnderWay D.digest_of tamper.now (state_of recording.old.machine) every recording.old }
    ensures { OnOk result (HasEnded D.digest_of tamper.now (state_of recording.old.machine) every bound recording.new) }
{
    match tamper {
        Tamper::Untouched => record_steps(d, &Tamper::Untouched, bound, every, recording),
        _ => record_steps(d, tamper, bound, every, recording),
    }
}

/// Keeps the state of a run that has ended, if its next checkpoint lies before the step of a tamper that is still to come. It is found
/// for each checkpoint before that step, however many there are.
fn record_ended_state(
    due: u64,
    step: u64,
    machine: &Machine,
    recorded: &mut RecordedPages,
) -> Result<(), Memory>
    requires pages { AreBelow recorded.old.changed.keys }
    requires shown { IsShownBut recorded.old.versions.items recorded.old.changed.keys machine.now.mem }
    ensures recorded { (digest : List ℕ → List ℕ) (tamper : Tamper) (first : State) (at : ℕ) → (due < step → run_from tamper first due ≡ run_from tamper first at) →
        IsRecordedTo digest tamper first at machine.now recorded.old → OnOk result (IsRecordedTo digest tamper first at machine.now recorded.new) }
    ensures pushed { due < step → OnOk result (IsPushed recorded.old.checkpoints.items recorded.new.checkpoints.items due) }
    ensures same { step ≤ due → OnOk result (recorded.new.checkpoints.items ≡ recorded.old.checkpoints.items) }
{
    if due < step {
        record_checkpoint(due, machine, recorded)?;
        return Ok(());
    }
    Ok(())
}

/// Takes a recording that has ended over the stretch in which nothing happens, at once, to the step of the tamper that is still to come.
fn skip_stretch<D: Digester>(
    d: D,
    tamper: &Tamper,
    step: u64,
    every: u32,
    recording: &mut Recording,
) -> Result<(), Memory>
    requires every { 0 < every }
    requires small { step < 2 ^ 32 }
    requires ended { (first : State) × (bound : ℕ) × HasEnded D.digest_of tamper.now first every bound recording.old × (to_come tamper.now bound recording.old.at ≡ Some step) }
    ensures { (first : State) (bound : ℕ) → HasEnded D.digest_of tamper.now first every bound recording.old → to_come tamper.now bound recording.old.at ≡ Some step →
        OnOk result (IsAtEnd D.digest_of tamper.now first every bound recording.new) }
{
    stopped_states_stay();
    let due = recording.at + u64::from(recording.left);
    record_ended_state(due, step, &recording.machine, &mut recording.recorded)?;
    step_noting_changes(
        d,
        tamper,
        step - 1,
        &mut recording.machine,
        &mut recording.recorded,
    )?;
    recording.at = step;
    if step % u64::from(every) == 0 {
        record_checkpoint(step, &recording.machine, &mut recording.recorded)?;
        return Ok(());
    }
    Ok(())
}

/// Takes a recording that has ended to the step from which the run stands still: that of a tamper that is still to come, or else where it
/// is.
fn skip_to_tamper<D: Digester>(
    d: D,
    tamper: &Tamper,
    bound: u64,
    every: u32,
    recording: &mut Recording,
) -> Result<(), Memory>
    requires every { 0 < every }
    requires ended { (first : State) × HasEnded D.digest_of tamper.now first every bound recording.old }
    ensures { (first : State) → HasEnded D.digest_of tamper.now first every bound recording.old → OnOk result (IsAtEnd D.digest_of tamper.now first every bound recording.new) }
{
    match tamper_to_come(tamper, bound, recording.at) {
        Some(step) => skip_stretch(d, tamper, step, every, recording),
        None => Ok(()),
    }
}

/// Takes a recording at step 0 to the bound, or to the step from which the run stands still if that comes first. A stretch in which nothing
/// happens takes no time, however long it is.
pub fn record_to_end<D: Digester>(
    d: D,
    tamper: &Tamper,
    bound: u64,
    every: u32,
    recording: &mut Recording,
) -> Result<(), Memory>
    requires every { 0 < every }
    requires start { recording.old.at ≡ 0 }
    requires under_way { IsUnderWay D.digest_of tamper.now (state_of recording.old.machine) every recording.old }
    ensures { OnOk result (IsAtEnd D.digest_of tamper.now (state_of recording.old.machine) every bound recording.new) }
{
    record_moves(d, tamper, bound, every, recording)?;
    skip_to_tamper(d, tamper, bound, every, recording)
}
