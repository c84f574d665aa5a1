//! Rows of roots, replayed from checkpoints.
ghost use Rattle.checkpoint_run.specs.Recorded.{AreChained};
ghost use Rattle.sha2.specs.Sha256.{sha256};

use crate::digests::counted;
use crate::programs::{Program, copy_with, run_of};
use crate::said::begins;
use crate::words::steps_of;
use checkpoint_run::Run;
use digest_core::Sha256;
use rd_base::{Digest32, Memory};
use segment_replay::committed_at;
use state_commit::state_root;
use std::alloc::Global;
use std::thread::Threads;
use toy_rows::{Unanswered, number};

/// `roots BOUND EVERY TAMPER WORKERS STEP,..`: the roots of these steps, by this many workers.
pub fn replayed<R: Threads + Sync>(
    rt: &R,
    alloc: Global,
    run: &Run,
    words: &[&str],
) -> Result<String, Unanswered>
    requires { AreChained sha256 run.now }
{
    let workers = number(words, 4)?;
    let steps = steps_of(alloc, words, 5)?;
    if workers == 0 {
        return Err(Unanswered::NoRow);
    }
    let (found, _) = counted(rt, alloc, run, workers, steps.as_slice())?;
    begins(alloc, "", found.as_slice())
}

/// The root of the committed machine of a step, and that of its state from scratch. An `Err` is out of memory.
fn committed_roots<R: Threads + Sync>(
    rt: &R,
    alloc: Global,
    run: &Run,
    step: u64,
) -> Result<(Digest32, Digest32), Memory>
    requires { AreChained sha256 run.now }
{
    let committed = committed_at(rt, alloc, Sha256, run, step)?;
    let machine = committed.machine();
    let scratch = state_root(Sha256, machine.version, machine);
    let kept = committed.root();
    drop(committed);
    Ok((kept, scratch))
}

/// How the root of a step's committed machine begins, behind a space, if it is the one from scratch and the one that is replayed.
fn state<R: Threads + Sync>(
    rt: &R,
    alloc: Global,
    run: &Run,
    step: u64,
) -> Result<String, Unanswered>
    requires { AreChained sha256 run.now }
{
    let (kept, scratch) = committed_roots(rt, alloc, run, step)?;
    let (found, _) = counted(rt, alloc, run, 2, &[step])?;
    match found.first() {
        Some(root) if kept == scratch && *root == kept => begins(alloc, "", &[kept]),
        _ => Ok(String::from_str(alloc, " another")?),
    }
}

/// `committed BOUND EVERY TAMPER STEP,..`: the roots of the committed machines of these steps, if they are those of their states from
/// scratch and those that are replayed.
pub fn committed<R: Threads + Sync>(
    rt: &R,
    alloc: Global,
    run: &Run,
    words: &[&str],
) -> Result<String, Unanswered>
    requires { AreChained sha256 run.now }
{
    let steps = steps_of(alloc, words, 4)?;
    let mut text = String::new(alloc);
    for step in steps.as_slice() {
        text.push_str(state(rt, alloc, run, *step)?.as_str())?;
    }
    Ok(text)
}

/// Whether two of some roots are equal if and only if those of the same places are of others, and none is among the others.
fn are_alike(some: &[Digest32], others: &[Digest32]) -> bool {
    if some.len() != others.len() {
        return false;
    }
    for (i, one) in some.iter().enumerate() {
        for (j, two) in some.iter().enumerate() {
            if (one == two) != (others[i] == others[j]) || *one == others[j] {
                return false;
            }
        }
    }
    true
}

/// The roots of steps in the version that the word at a place writes.
fn roots_in<R: Threads + Sync>(
    rt: &R,
    alloc: Global,
    program: &Program,
    words: &[&str],
    at: usize,
) -> Result<Vec<Digest32>, Unanswered> {
    let steps = steps_of(alloc, words, 6)?;
    let version = number(words, at)?;
    let program = copy_with(alloc, program, version, program.input.as_slice())?;
    let run = run_of(alloc, &program, words)?;
    let (found, _) = counted(rt, alloc, &run, 2, steps.as_slice())?;
    Ok(found)
}

/// `alike BOUND EVERY TAMPER VERSION VERSION STEP,..`: whether the roots of two versions are equal for the same steps, and never to each
/// other.
pub fn alike<R: Threads + Sync>(
    rt: &R,
    alloc: Global,
    program: &Program,
    words: &[&str],
) -> Result<String, Unanswered> {
    let some = roots_in(rt, alloc, program, words, 4)?;
    let others = roots_in(rt, alloc, program, words, 5)?;
    let alike = are_alike(some.as_slice(), others.as_slice());
    Ok(format!(in alloc; "{alike}")?)
}
