//! A run that is kept with what each worker's last root was made of.
ghost use denote.Param.Send.{IsSync};
ghost use Rattle.std.specs.Prelude.{◌≡◌, ◌<◌, All, IfOk, map, min};
ghost use Rattle.state_commit.specs.Committing.{HasInput};
ghost use Rattle.checkpoint_run.specs.Recorded.{AreChained, state_of_step};
ghost use Rattle.segment_replay.specs.Roots.{root_at, digests};
ghost use Rattle.segment_replay.specs.Cursor.{IsWorkerOf};

use crate::cursor::{Cursor, Replay, goal_of};
use crate::replaying::{Worker, put_back_cursor, roots_by, take_cursor};
use checkpoint_run::{Run, tampered_runs_keep_the_input};
use digest_core::{Digester, Sha256, Weak8};
use rd_base::{Digest32, Memory};
use state_commit::{Committed, SharedInput, one_input_has_one_tree};
use std::alloc::Global;
use std::marker::Model;
use std::thread::Threads;

/// The machine of a step with the trees of its version, made from what the first worker keeps, which gives it away.
fn committed_by<D: Digester + Send + Sync, R: Threads + Sync>(
    rt: &R,
    alloc: Global,
    replay: &Replay<'_, D>,
    input: SharedInput<D>,
    step: u64,
    workers: &mut Vec<Worker<D>>,
) -> Result<Committed<D>, Memory>
    requires input { HasInput D.digest_of replay.now.run.now.first input }
    requires workers { All (λ w. IsWorkerOf D.digest_of replay.now.run.now w) workers.old.items }
    ensures workers { All (λ w. IsWorkerOf D.digest_of replay.now.run.now w) workers.new.items }
    ensures committed { IfOk result (λ c. c ≡ state_of_step replay.now.run.now (min step replay.now.run.now.bound)) }
{
    tampered_runs_keep_the_input();
    one_input_has_one_tree();
    let Cursor { machine, tree, .. } = take_cursor(rt, alloc, replay, step, workers)?;
    Ok(Committed::with_trees(replay.d, machine, tree, input))
}

/// A run that is kept with what each worker's last root was made of, so that its next root takes the digests of what differs alone: a
/// machine of the run with the tree of its memory and, from version 2 on, that of its registers. In version 3 the tree of the run's
/// input is kept too, which all runs of a machine may share.
///
/// Contracts see it as the run.
#[derive(Drop)]
pub struct KeptRun<D: Digester> {
    d: D,
    run: Run,
    workers: Vec<Worker<D>>,
    input: SharedInput<D>,
}

impl<D: Digester> Model for KeptRun<D> {
    ghost use Rattle.std.specs.Prelude.{◌≡◌, All};
    ghost use Rattle.checkpoint_run.specs.Recorded.{Recorded, recorded_code, AreChained};
    ghost use Rattle.state_commit.specs.Committing.{HasInput};
    ghost use Rattle.segment_replay.specs.Cursor.{IsWorkerOf};

    ghost Value = { Recorded };

    ghost coded = { recorded_code };

    ghost view = { λ k. k.run };

    ghost invariant = { λ k. AreChained D.digest_of k.run × HasInput D.digest_of k.run.first k.input
        × All (λ w. IsWorkerOf D.digest_of k.run w) k.workers.items };
}

impl<D: Digester> KeptRun<D> {
    /// A run of which no root was made so far, with the tree of its input. The chain of each of its checkpoints is that of its output
    /// by this digester, as `record_run` makes it.
    pub fn new(alloc: Global, d: D, run: Run, input: SharedInput<D>) -> Self
        requires chained { AreChained D.digest_of run }
        requires input { HasInput D.digest_of run.first input }
        ensures { result ≡ run }
    {
        KeptRun {
            d,
            run,
            workers: Vec::new(alloc),
            input,
        }
    }

    /// The run. The chains of its checkpoints are those of their outputs.
    pub fn run(&self) -> &Run
        ensures run { result.now ≡ self.now }
        ensures chained { AreChained D.digest_of result.now }
    {
        &self.run
    }

    /// The roots of steps of the run, in the order asked, as the function `roots` gives them, but without the digests of its input. Each
    /// worker makes its first root from the one that it made last, whether the step lies ahead or behind. By the code a single root, and
    /// all if `workers` is 1, are made by the first worker, in the caller's thread; other threads help only if that one has no tree yet. An
    /// `Err` is out of memory; a worker that was making a root then builds its next tree anew.
    pub fn roots<R: Threads + Sync>(
        &mut self,
        rt: &R,
        alloc: Global,
        steps: &[u64],
        workers: u32,
    ) -> Result<Vec<Digest32>, Memory>
    where
        D: Send + Sync,
        requires { 0 < workers }
        ensures roots { IfOk result (λ v. digests v.items ≡ map (root_at D.digest_of self.old) steps.now) }
        ensures run { self.new ≡ self.old }
    {
        let replay = Replay {
            d: self.d,
            run: &self.run,
            input: self.input.root(),
        };
        roots_by(rt, alloc, &replay, steps, workers, &mut self.workers)
    }

    /// The machine of a step with the trees of its version, that of its input shared with the run; above the bound the state of the
    /// bound stands for it. As the code shows, it is made from the first worker's last root, and digests only what differs; the worker is
    /// left with nothing, until `put_back`. An `Err` is out of memory.
    pub fn committed<R: Threads + Sync>(
        &mut self,
        rt: &R,
        alloc: Global,
        step: u64,
    ) -> Result<Committed<D>, Memory>
    where
        D: Send + Sync,
        ensures committed { IfOk result (λ c. c ≡ state_of_step self.old (min step self.old.bound)) }
        ensures run { self.new ≡ self.old }
    {
        let input = self.input.share()?;
        let replay = Replay {
            d: self.d,
            run: &self.run,
            input: self.input.root(),
        };
        committed_by(rt, alloc, &replay, input, step, &mut self.workers)
    }

    /// Takes back the machine of a step that `committed` gave, so that the first worker makes its next root from it, or the next machine.
    pub fn put_back(&mut self, step: u64, committed: Committed<D>)
        requires { committed ≡ state_of_step self.old (min step self.old.bound) }
        ensures { self.new ≡ self.old }
    {
        let at = goal_of(&self.run, step);
        let (machine, tree) = committed.into_parts();
        put_back_cursor(&self.run, Cursor { at, machine, tree }, &mut self.workers);
    }
}

/// A digester by which runs can be replayed in threads. A method of a trait, such as that of an answerer, can't hand a digester of a type
/// parameter to threads. So each digester has these methods of its own, which call `KeptRun::roots` and `KeptRun::committed`.
pub trait Replays: Digester {
    /// The roots of steps of the run, in the order asked, as `KeptRun::roots` gives them.
    fn roots_of<R: Threads + Sync>(
        self,
        rt: &R,
        alloc: Global,
        run: &mut KeptRun<Self>,
        steps: &[u64],
        workers: u32,
    ) -> Result<Vec<Digest32>, Memory>
        requires sync { IsSync R.row }
        requires workers { 0 < workers }
        ensures roots { IfOk result (λ v. digests v.items ≡ map (root_at Self.digest_of run.old) steps.now) }
        ensures run { run.new ≡ run.old };

    /// The machine of a step with the trees of its version, as `KeptRun::committed` gives it.
    fn committed_of<R: Threads + Sync>(
        self,
        rt: &R,
        alloc: Global,
        run: &mut KeptRun<Self>,
        step: u64,
    ) -> Result<Committed<Self>, Memory>
        requires { IsSync R.row }
        ensures committed { IfOk result (λ c. c ≡ state_of_step run.old (min step run.old.bound)) }
        ensures run { run.new ≡ run.old };
}

impl Replays for Sha256 {
    fn roots_of<R: Threads + Sync>(
        self,
        rt: &R,
        alloc: Global,
        run: &mut KeptRun<Self>,
        steps: &[u64],
        workers: u32,
    ) -> Result<Vec<Digest32>, Memory> {
        run.roots(rt, alloc, steps, workers)
    }

    fn committed_of<R: Threads + Sync>(
        self,
        rt: &R,
        alloc: Global,
        run: &mut KeptRun<Self>,
        step: u64,
    ) -> Result<Committed<Self>, Memory> {
        run.committed(rt, alloc, step)
    }
}

impl Replays for Weak8 {
    fn roots_of<R: Threads + Sync>(
        self,
        rt: &R,
        alloc: Global,
        run: &mut KeptRun<Self>,
        steps: &[u64],
        workers: u32,
    ) -> Result<Vec<Digest32>, Memory> {
        run.roots(rt, alloc, steps, workers)
    }

    fn committed_of<R: Threads + Sync>(
        self,
        rt: &R,
        alloc: Global,
        run: &mut KeptRun<Self>,
        step: u64,
    ) -> Result<Committed<Self>, Memory> {
        run.committed(rt, alloc, step)
    }
}
