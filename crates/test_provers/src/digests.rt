//! Roots of runs, and rows that count the digests that they take.
ghost use Rattle.std.specs.Prelude.{◌≡◌, ◌<◌};
ghost use Rattle.rv_step.specs.State.{state_of};
ghost use Rattle.checkpoint_run.specs.Recorded.{AreChained};
ghost use Rattle.state_commit.specs.Committing.{HasInput};
ghost use Rattle.sha2.specs.Sha256.{sha256};

use crate::programs::{Program, run_from, started};
use crate::said::begins;
use crate::words::steps_of;
use checkpoint_run::Run;
use digest_core::{Digester, Sha256};
use rd_base::{Digest32, Memory, Tamper};
use rv_step::Machine;
use segment_replay::{KeptRun, committed_at, roots};
use state_commit::{SharedInput, state_root, state_root_with};
use std::alloc::Global;
use std::sync::atomic::{AtomicU64, Ordering};
use std::thread::Threads;
use toy_machine::Tally;
use toy_rows::{Unanswered, long, number, word};

/// The roots of some steps by a number of workers, and how many digests they take. An `Err` is out of memory.
pub fn counted<R: Threads + Sync>(
    rt: &R,
    alloc: Global,
    run: &Run,
    workers: u32,
    steps: &[u64],
) -> Result<(Vec<Digest32>, u64), Memory>
    requires workers { 0 < workers }
    requires chained { AreChained sha256 run.now }
{
    let made = AtomicU64::new(0);
    let counted = Tally {
        of: Sha256,
        made: &made,
    };
    let found = roots(rt, alloc, counted, run, steps, workers)?;
    Ok((found, made.load(Ordering::SeqCst)))
}

/// How many digests more the roots of the first steps take than those of the others, in the words of `more` or `within`.
fn in_words(alloc: Global, words: &[&str], more: u64) -> Result<String, Unanswered> {
    if word(words, 0)? == "within" {
        let (least, most) = (long(words, 6)?, long(words, 7)?);
        if least <= more && more <= most {
            return Ok(format!(in alloc; "from {least} to {most}")?);
        }
    }
    Ok(format!(in alloc; "{more}")?)
}

/// `more BOUND EVERY TAMPER STEP,.. STEP,..`: how many digests more the roots of the first steps take than those of the others.
/// `within` the same, `LEAST MOST`: whether it is a number from the least to the most.
pub fn more<R: Threads + Sync>(
    rt: &R,
    alloc: Global,
    run: &Run,
    words: &[&str],
) -> Result<String, Unanswered>
    requires { AreChained sha256 run.now }
{
    let steps = steps_of(alloc, words, 4)?;
    let others = steps_of(alloc, words, 5)?;
    let (_, many) = counted(rt, alloc, run, 1, steps.as_slice())?;
    let (_, few) = counted(rt, alloc, run, 1, others.as_slice())?;
    in_words(alloc, words, many.wrapping_sub(few))
}

/// How many digests the root of the state at the start takes less if the tree of the input is given.
fn saved_at_start(alloc: Global, program: &Program) -> Result<u64, Unanswered> {
    let made = AtomicU64::new(0);
    let counted = Tally {
        of: Sha256,
        made: &made,
    };
    let machine = started(alloc, program)?;
    state_root(counted, machine.version, &machine);
    let without = made.load(Ordering::SeqCst);
    let tree = SharedInput::of(alloc, counted, &machine)?;
    made.store(0, Ordering::SeqCst);
    state_root_with(counted, &machine, &tree);
    drop(tree);
    Ok(without.wrapping_sub(made.load(Ordering::SeqCst)))
}

/// A run from a machine, with the tree of the machine's input.
fn with_input<D: Digester>(
    alloc: Global,
    d: D,
    _machine: &Machine,
    run: Run,
    input: SharedInput<D>,
) -> KeptRun<D>
    requires chained { AreChained D.digest_of run }
    requires first { run.first ≡ state_of _machine.now }
    requires input { HasInput D.digest_of (state_of _machine.now) input }
{
    KeptRun::new(alloc, d, run, input)
}

/// The untouched run of `NAME BOUND EVERY ..`, from which no root was made so far, by a digest function that counts.
fn kept_run<'a>(
    alloc: Global,
    counted: Tally<'a, Sha256>,
    program: &Program,
    words: &[&str],
) -> Result<Box<KeptRun<Tally<'a, Sha256>>>, Unanswered> {
    let bound = number(words, 1)?;
    let every = number(words, 2)?;
    if every == 0 {
        return Err(Unanswered::NoRow);
    }
    let machine = started(alloc, program)?;
    let run = run_from(alloc, &machine, bound, every, Tamper::Untouched)?;
    let input = SharedInput::of(alloc, counted, &machine)?;
    Ok(Box::new(alloc, with_input(alloc, counted, &machine, run, input))?)
}

/// How many digests the roots of steps take, by one worker, from a kept run, which has the tree of the input.
fn made_by_kept_run<R: Threads + Sync>(
    rt: &R,
    alloc: Global,
    program: &Program,
    words: &[&str],
    steps: &[u64],
) -> Result<u64, Unanswered> {
    let made = AtomicU64::new(0);
    let counted = Tally {
        of: Sha256,
        made: &made,
    };
    let mut kept = kept_run(alloc, counted, program, words)?;
    made.store(0, Ordering::SeqCst);
    drop(kept.roots(rt, alloc, steps, 1)?);
    Ok(made.load(Ordering::SeqCst))
}

/// `input_root BOUND EVERY untouched STEP,..`: how many digests the roots of steps take less from a kept run.
pub fn input_root<R: Threads + Sync>(
    rt: &R,
    alloc: Global,
    program: &Program,
    run: &Run,
    words: &[&str],
) -> Result<String, Unanswered>
    requires { AreChained sha256 run.now }
{
    let steps = steps_of(alloc, words, 4)?;
    let (_, whole) = counted(rt, alloc, run, 1, steps.as_slice())?;
    let rest = made_by_kept_run(rt, alloc, program, words, steps.as_slice())?;
    Ok(format!(in alloc; "{}", whole.wrapping_sub(rest))?)
}

/// How many digests the committed machine of the bound takes without what is kept of a run, and from a kept run that shares the tree of the
/// input and has made nothing so far.
fn made_at_bound<R: Threads + Sync>(
    rt: &R,
    alloc: Global,
    program: &Program,
    run: &Run,
    words: &[&str],
) -> Result<(u64, u64), Unanswered>
    requires { AreChained sha256 run.now }
{
    let made = AtomicU64::new(0);
    let counted = Tally {
        of: Sha256,
        made: &made,
    };
    drop(committed_at(rt, alloc, counted, run, run.bound())?);
    let without = made.load(Ordering::SeqCst);
    let mut kept = kept_run(alloc, counted, program, words)?;
    made.store(0, Ordering::SeqCst);
    drop(kept.committed(rt, alloc, run.bound())?);
    Ok((without, made.load(Ordering::SeqCst)))
}

/// `input_tree BOUND EVERY untouched`: how many digests the root of the first state takes less if the tree of the input is given; and how
/// many the committed machine of the bound takes less, or more, from a kept run.
pub fn input_tree<R: Threads + Sync>(
    rt: &R,
    alloc: Global,
    program: &Program,
    run: &Run,
    words: &[&str],
) -> Result<String, Unanswered>
    requires { AreChained sha256 run.now }
{
    let root = saved_at_start(alloc, program)?;
    let (without, with) = made_at_bound(rt, alloc, program, run, words)?;
    if without < with {
        return Ok(format!(in alloc; "{root}, {} more", with - without)?);
    }
    Ok(format!(in alloc; "{root}, {} less", without - with)?)
}

/// The root of a step of a kept run. An `Err` is out of memory.
fn kept_root<D: Digester + Copy + Send + Sync, R: Threads + Sync>(
    rt: &R,
    alloc: Global,
    kept: &mut KeptRun<D>,
    step: u64,
) -> Result<Digest32, Memory> {
    let roots = kept.roots(rt, alloc, &[step], 1)?;
    Ok(roots.first().copied().unwrap_or(Digest32([0; 32])))
}

/// The roots of a kept run, made one after another, and how many digests the last one took.
fn kept_roots<D: Digester + Copy + Send + Sync, R: Threads + Sync>(
    rt: &R,
    alloc: Global,
    made: &AtomicU64,
    kept: &mut KeptRun<D>,
    steps: &[u64],
) -> Result<String, Unanswered> {
    let mut roots = Vec::new(alloc);
    for step in steps {
        made.store(0, Ordering::SeqCst);
        roots.push(kept_root(rt, alloc, kept, *step)?)?;
    }
    let last = made.load(Ordering::SeqCst);
    let begins = begins(alloc, "", roots.as_slice())?;
    Ok(format!(in alloc; "{} by {last} digests", begins.as_str().trim_start())?)
}

/// `kept BOUND EVERY STEP,..`: the roots of a kept run's steps, made one after another, and how many digests the last one took.
pub fn kept<R: Threads + Sync>(
    rt: &R,
    alloc: Global,
    program: &Program,
    words: &[&str],
) -> Result<String, Unanswered> {
    let steps = steps_of(alloc, words, 3)?;
    let made = AtomicU64::new(0);
    let counted = Tally {
        of: Sha256,
        made: &made,
    };
    let mut kept = kept_run(alloc, counted, program, words)?;
    kept_roots(rt, alloc, &made, &mut kept, steps.as_slice())
}
