//! A recorded run, and the machines of its steps.
ghost use Rattle.std.specs.Prelude.{◌≡◌, ◌+◌, ◌-◌, ◌*◌, ◌/◌, ◌<◌, ◌≤◌, ◌^◌, ℕ, IfOk, OnOk, OnErr, List, length};
ghost use Rattle.mem_plain.specs.Contents.{byte_at};
ghost use Rattle.rv_step.specs.State.{state_of, IsChained};
ghost use Rattle.checkpoint_run.specs.TamperedRun.{tampered};
ghost use Rattle.checkpoint_run.specs.NamedPages.{IsNamed, ArePages};
ghost use Rattle.checkpoint_run.specs.WrittenPages.{written_by};
ghost use Rattle.checkpoint_run.specs.Recorded.{AreChained, state_of_step, still_of};

use crate::checkpoint::{Checkpoint, index_of, place_of, restored};
use crate::recording::{RecordedPages, Recording, record_to_end, start_recording};
use crate::tampering::{same_until, step_tampered};
use crate::version::Version;
use digest_core::Digester;
use rd_base::{Memory, Tamper};
use rv_step::{Machine, runs_keep_the_input, stopped_states_stay};
use std::alloc::Global;
use std::collections::BTreeMap;
use std::marker::Model;

/// A run of a prover up to a bound, kept as checkpoints.
///
/// Contracts see it as the run's first state, tamper, bound and spacing, from which every state of the run follows, and
/// the chains of its checkpoints.
#[derive(Drop)]
pub struct Run {
    alloc: Global,
    tamper: Tamper,
    bound: u64,
    every: u32,
    still: u64,
    checkpoints: Vec<Checkpoint>,
    /// The versions of pages, those of an earlier checkpoint first, and the places of those of each page.
    versions: Vec<Version>,
    index: BTreeMap<u32, Vec<usize>>,
    /// The whole output.
    output: Vec<u8>,
    /// The version of the machine, and the input that it keeps.
    version: u32,
    input: Vec<u8>,
}

impl Model for Run {
    ghost use Rattle.checkpoint_run.specs.Recorded.{Recorded, recorded_code};
    ghost use Rattle.std.specs.Prelude.{length};
    ghost use Rattle.checkpoint_run.specs.Keeping.{recorded_by, IsRecorded};
    ghost use Rattle.checkpoint_run.specs.Versions.{pages_of};
    ghost use Rattle.checkpoint_run.specs.Places.{IsIndex};

    ghost Value = { Recorded };

    ghost coded = { recorded_code };

    ghost view = { λ r. recorded_by r.tamper r.bound r.every r.checkpoints.items r.versions.items r.output.items r.version r.input.items };

    ghost invariant = { λ r. IsRecorded (recorded_by r.tamper r.bound r.every r.checkpoints.items r.versions.items r.output.items r.version r.input.items) r.still r.checkpoints.items r.versions.items r.output.items r.version r.input.items
        × IsIndex r.index.entries (pages_of r.versions.items) (length r.versions.items) };
}

impl Run {
    /// The last step of the run.
    pub fn bound(&self) -> u64
        ensures { result ≡ self.now.bound }
    {
        self.bound
    }

    /// How many steps lie between two checkpoints: at least 1.
    pub fn every(&self) -> u32
        ensures value { result ≡ self.now.every }
        ensures some { 0 < result }
    {
        self.every
    }

    /// The step from which the run stands still; it is not above the bound. There is a checkpoint at each multiple of the
    /// spacing up to this step.
    pub fn still(&self) -> u64
        ensures { result ≡ still_of self.now }
    {
        self.still
    }

    /// The bound, and the step from which the run stands still, are numbers of 64 bits.
    fn steps_have_64_bits(&self)
        ensures bound { self.now.bound < 2 ^ 64 }
        ensures still { still_of self.now < 2 ^ 64 }
    {
        self.bound();
        self.still();
    }

    /// The version of the commitment to the run's states.
    pub fn version(&self) -> u32
        ensures { result ≡ self.now.first.version }
    {
        self.version
    }

    /// The input that the run's states have beside their memory.
    pub fn input(&self) -> &[u8]
        ensures { result.now ≡ self.now.first.input }
    {
        &self.input
    }
}

/// Records the run of a prover from a machine, with this tamper, up to the step `bound`, with a checkpoint at every `every`
/// steps (at least 1) from step 0 on. As the code shows, it makes no step after the one from which the run stands still. The machine's
/// chain is that of its output, by the digester `d`, and so are the checkpoints'.
pub fn record_run<D: Digester>(
    alloc: Global,
    d: D,
    machine: &Machine,
    bound: u64,
    every: u32,
    tamper: Tamper,
) -> Result<Run, Memory>
    requires every { 0 < every }
    requires chained { IsChained D.digest_of machine.now }
    ensures first { IfOk result (λ r. r.first ≡ tampered tamper 0 (state_of machine.now)) }
    ensures tamper { IfOk result (λ r. r.tamper ≡ tamper) }
    ensures bound { IfOk result (λ r. r.bound ≡ bound) }
    ensures every { IfOk result (λ r. r.every ≡ every) }
    ensures chained { IfOk result (λ r. AreChained D.digest_of r) }
{
    stopped_states_stay();
    runs_keep_the_input();
    let mut recording = start_recording(alloc, machine, &tamper, every)?;
    record_to_end(d, &tamper, bound, every, &mut recording)?;
    let Recording {
        machine: last,
        at,
        recorded,
        ..
    } = recording;
    let RecordedPages {
        versions,
        checkpoints,
        ..
    } = recorded;
    let Machine {
        output,
        version,
        input,
        ..
    } = last;
    let index = index_of(alloc, &versions)?;
    Ok(Run {
        alloc,
        tamper,
        bound,
        every,
        still: at,
        checkpoints,
        versions,
        index,
        output,
        version,
        input,
    })
}

/// The machine of a checkpoint: that of the step `checkpoint` times the spacing. The step is not above the one from which
/// the run stands still, so that there is such a checkpoint. Its chain is that of its output by the digester that recorded the
/// run.
pub fn machine_at(run: &Run, checkpoint: u64) -> Result<Machine, Memory>
    requires { checkpoint * run.now.every ≤ still_of run.now }
    ensures state { IfOk result (λ m. state_of m ≡ state_of_step run.now (checkpoint * run.now.every)) }
    ensures chained { (digest : List ℕ → List ℕ) → AreChained digest run.now → IfOk result (λ m. IsChained digest m) }
{
    runs_keep_the_input();
    run.steps_have_64_bits();
    let place = place_of(&run.checkpoints, run.every, checkpoint);
    let found = &run.checkpoints[place];
    let mem = restored(run.alloc, &run.versions, &run.index, found.versions)?;
    let output = Vec::from_slice(run.alloc, &run.output[..found.ctl.out_len as usize])?;
    let input = Vec::from_slice(run.alloc, &run.input)?;
    Ok(Machine {
        regs: found.regs,
        ctl: found.ctl,
        mem,
        output,
        version: run.version,
        input,
    })
}

/// Takes the machine of step `at`, which is below the bound, to the next step, and counts the step. The result is the pages that were
/// written: the page that the step stores to, and then the page in which the tamper flips a byte. No other page changes. A page goes by its
/// number, below 2^20. It keeps the chain by the digester `d`. An `Err` is out of memory: `at` is as it was then, and the machine is lost,
/// as it need not be at this step any more.
pub fn next<D: Digester>(
    d: D,
    run: &Run,
    at: &mut u64,
    machine: &mut Machine,
) -> Result<[Option<u32>; 2], Memory>
    requires chained { IsChained D.digest_of machine.old }
    requires at { state_of machine.old ≡ state_of_step run.now at.old }
    requires below { at.old < run.now.bound }
    ensures state { OnOk result (state_of machine.new ≡ state_of_step run.now (at.old + 1)) }
    ensures counted { OnOk result (at.new ≡ at.old + 1) }
    ensures stays { OnErr result (at.new ≡ at.old) }
    ensures chained { IsChained D.digest_of machine.new }
    ensures two { IfOk result (λ pages. length pages ≡ 2) }
    ensures written { IfOk result (λ pages. pages ≡ written_by run.now.tamper at.old (state_of_step run.now at.old)) }
    ensures pages { IfOk result (λ pages. ArePages pages) }
    ensures elsewhere { IfOk result (λ pages. (q : ℕ) → ¬ IsNamed (q / 4096) pages → byte_at machine.new.mem q ≡ byte_at machine.old.mem q) }
{
    run.steps_have_64_bits();
    let pages = step_tampered(d, &run.tamper, *at, machine)?;
    *at += 1;
    Ok(pages)
}

/// Takes the machine of step `at` towards a later step, the goal: to the next step, or, as the code shows, at once over a stretch in which
/// nothing happens, to the goal or to the step of the tamper if that comes first. `at` is the step that it reached. The result is as by
/// `next`: the pages that were written on the way. An `Err` is out of memory: `at` is as it was then, and the machine is lost, as it need
/// not be at this step any more.
pub fn advance<D: Digester>(
    d: D,
    run: &Run,
    goal: u64,
    at: &mut u64,
    machine: &mut Machine,
) -> Result<[Option<u32>; 2], Memory>
    requires chained { IsChained D.digest_of machine.old }
    requires at { state_of machine.old ≡ state_of_step run.now at.old }
    requires goal { at.old < goal }
    ensures state { OnOk result (state_of machine.new ≡ state_of_step run.now at.new) }
    ensures later { OnOk result (at.old < at.new) }
    ensures within { OnOk result (at.new ≤ goal) }
    ensures stays { OnErr result (at.new ≡ at.old) }
    ensures chained { IsChained D.digest_of machine.new }
    ensures two { IfOk result (λ pages. length pages ≡ 2) }
    ensures written { IfOk result (λ pages. pages ≡ written_by run.now.tamper (at.new - 1) (state_of_step run.now (at.new - 1))) }
    ensures pages { IfOk result (λ pages. ArePages pages) }
    ensures elsewhere { IfOk result (λ pages. (q : ℕ) → ¬ IsNamed (q / 4096) pages → byte_at machine.new.mem q ≡ byte_at machine.old.mem q) }
{
    let from = same_until(&run.tamper, goal, *at, machine);
    let pages = step_tampered(d, &run.tamper, from, machine)?;
    *at = from + 1;
    Ok(pages)
}
