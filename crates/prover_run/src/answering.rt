//! How far runs go and how they are recorded and replayed (`Plan`), and the plain answers of a recorded run with the roots that were
//! made of it.
ghost use denote.Param.Send.{IsSync};
ghost use Rattle.std.specs.Prelude.{◌≡◌, ◌<◌, ◌≤◌, ◌^◌, ℕ, IfOk, IfSome, List, length, map};
ghost use Rattle.checkpoint_run.specs.Recorded.{state_of_step};
ghost use Rattle.segment_replay.specs.Roots.{root_at, digests};
ghost use Rattle.plain_answers.specs.Plain as plain;
ghost use Rattle.prover_run.specs.Prover.{Prover, IsRunOf, AreKept, run_of, root_of};

use bisect_game::{Kind, steps_asked};
use open_proof::{make_claim, make_proof};
use rd_base::{Answer, Boxed, Digest32, Memory, RootList};
use segment_replay::{KeptRun, Replays};
use std::alloc::Global;
use std::collections::BTreeMap;
use std::thread::Threads;

/// How far provers' runs go, and how they are recorded and replayed.
#[derive(Clone, Copy)]
pub struct Plan {
    /// The last step of a run, below 2^32.
    pub bound: u64,
    /// How many steps lie between two checkpoints: at least 1.
    pub every: u32,
    /// In how many pieces at most the roots that one question asks are made, side by side: at least 1.
    pub workers: u32,
    ghost short: { bound < 2 ^ 32 },
    ghost spaced: { 0 < every },
    ghost working: { 0 < workers },
}

/// By what a run is recorded and replayed.
#[derive(Drop)]
pub struct RunReader<D: Replays> {
    pub alloc: Global,
    pub d: D,
    pub plan: Plan,
}

/// Keeps the root of a step.
fn keep_root(roots: &mut BTreeMap<u64, Digest32>, step: u64, digest: Digest32) -> Result<(), Memory>
    ensures { (root : ℕ → List ℕ) → digest.0 ≡ root step → AreKept root roots.old.entries → AreKept root roots.new.entries }
{
    roots.insert(step, digest)?;
    Ok(())
}

/// Keeps the roots of steps, which are in the same order. An `Err` is out of memory, after some were kept.
fn keep_roots(
    roots: &mut BTreeMap<u64, Digest32>,
    steps: &[u64],
    made: &[Digest32],
) -> Result<(), Memory>
    ensures { (root : ℕ → List ℕ) → digests made.now ≡ map root steps.now → AreKept root roots.old.entries → AreKept root roots.new.entries }
{
    'steps: for (step, digest) in steps.iter().zip(made) {
        keep_root(roots, *step, *digest)?;
    }
    Ok(())
}

/// The root of a step, if it is kept.
fn kept_root(roots: &BTreeMap<u64, Digest32>, step: u64) -> Option<Digest32>
    ensures { (root : ℕ → List ℕ) → AreKept root roots.now.entries → IfSome result (λ r. r.0 ≡ root step) }
{
    roots.get(&step).copied()
}

/// The roots of steps, in their order, if all of them are kept.
fn kept_roots(
    alloc: Global,
    roots: &BTreeMap<u64, Digest32>,
    steps: &[u64],
) -> Result<Option<Vec<Digest32>>, Memory>
    ensures count { IfOk result (λ found. IfSome found (λ v. length v.items ≡ length steps.now)) }
    ensures roots { (root : ℕ → List ℕ) → AreKept root roots.now.entries → IfOk result (λ found. IfSome found (λ v. digests v.items ≡ map root steps.now)) }
{
    let mut found = Vec::new(alloc);
    'steps: for step in steps {
        let Some(root) = kept_root(roots, *step) else {
            return Ok(None);
        };
        found.push(root)?;
    }
    Ok(Some(found))
}

/// The roots of steps, in their order, which are kept, or else are made in one go and kept.
#[tactic(auto, using(crate::proofs::RunLemmas::same_length))]
fn roots_of_steps<D: Replays, R: Threads + Sync>(
    rt: &R,
    reader: &RunReader<D>,
    run: &mut KeptRun<D>,
    roots: &mut BTreeMap<u64, Digest32>,
    steps: &[u64],
) -> Result<Vec<Digest32>, Memory>
    requires sync { IsSync R.row }
    ensures count { IfOk result (λ v. length v.items ≡ length steps.now) }
    ensures kept { (root : ℕ → List ℕ) → root ≡ root_at D.digest_of run.old → AreKept root roots.old.entries → AreKept root roots.new.entries }
    ensures roots { (root : ℕ → List ℕ) → root ≡ root_at D.digest_of run.old → AreKept root roots.old.entries → IfOk result (λ v. digests v.items ≡ map root steps.now) }
    ensures run { run.new ≡ run.old }
{
    let RunReader { alloc, d, plan } = *reader;
    if let Some(found) = kept_roots(alloc, roots, steps)? {
        return Ok(found);
    }
    let made = d.roots_of(rt, alloc, run, steps, plan.workers)?;
    keep_roots(roots, steps, &made)?;
    Ok(made)
}

/// The plain answer of a prover to what is asked, read off its recorded run, whose last output has at most 4,294,967,295 bytes. The roots that
/// are kept are those of the run also after an `Err`, which is out of memory.
#[tactic(auto, using(crate::proofs::RunLemmas::roots_of_run, crate::proofs::RunLemmas::answers_of_run), unfolding(crate::specs::Prover::root_of))]
pub fn plain_answer<D: Replays, R: Threads + Sync>(
    rt: &R,
    reader: &RunReader<D>,
    run: &mut KeptRun<D>,
    roots: &mut BTreeMap<u64, Digest32>,
    kind: Kind,
) -> Result<Answer, Memory>
    requires sync { IsSync R.row }
    requires short { length (state_of_step run.old run.old.bound).output ≤ 4294967295 }
    ensures kept { (p : Prover) → IsRunOf D.digest_of p run.old → AreKept (root_of D.digest_of p) roots.old.entries → AreKept (root_of D.digest_of p) roots.new.entries }
    ensures answer { (p : Prover) → IsRunOf D.digest_of p run.old → AreKept (root_of D.digest_of p) roots.old.entries →
        IfOk result (λ a. a ≡ plain.plain D.digest_of (run_of p) p.bound kind) }
    ensures run { run.new ≡ run.old }
{
    let RunReader { alloc, d, .. } = *reader;
    match kind {
        Kind::Root(step) => {
            let found = roots_of_steps(rt, reader, run, roots, &[step])?;
            Ok(Answer::Root(found[0]))
        }
        Kind::Roots { lo, hi, parts } => {
            let steps = steps_asked(alloc, lo, hi, parts)?;
            let found = roots_of_steps(rt, reader, run, roots, &steps)?;
            Ok(Answer::Roots(RootList::new(found).unwrap()))
        }
        Kind::Claim => {
            let bound = run.run().bound();
            let last = d.committed_of(rt, alloc, run, bound)?;
            let claim = make_claim(alloc, &last)?;
            run.put_back(bound, last);
            Ok(Answer::Claim(claim))
        }
        Kind::Proof(step) => {
            let committed = d.committed_of(rt, alloc, run, step)?;
            let proof = make_proof(&committed);
            run.put_back(step, committed);
            Ok(Answer::Step(Boxed::new(Box::new(alloc, proof)?)))
        }
    }
}
