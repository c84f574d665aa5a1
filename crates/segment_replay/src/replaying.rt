//! Roots of steps, made by workers side by side.
ghost use Rattle.std.specs.Prelude.{◌≡◌, ◌<◌, ◌≤◌, ◌+◌, ◌*◌, ◌/◌, ◌%◌, ℕ, All, IfOk, IfSome, OnOk, List, length, map, min, vec_len};
ghost use Rattle.std.specs.Fork.{slice_chunk};
ghost use Rattle.checkpoint_run.specs.Recorded.{AreChained, state_of_step};
ghost use Rattle.segment_replay.specs.Roots.{root_at, digests};
ghost use Rattle.segment_replay.specs.Cursor.{IsMachineOf, IsFreshTree, IsWorkerOf};
ghost use Rattle.segment_replay.specs.Pieces.{ArePieces};

use crate::cursor::{
    Cursor, Replay, Rooted, cursor_of_step, machine_of_step, root_of_step, run_input_root,
};
use checkpoint_run::Run;
use digest_core::Digester;
use rd_base::{Digest32, Memory, Regs};
use state_commit::{Committed, KeptRegisters};
use std::alloc::Global;
use std::thread;
use std::thread::Threads;

/// What a worker keeps of a run: its cursor, unless it has made no root so far or ran out of memory in its last one; the digests of the
/// registers that it digested last; and, of the last call that gave it one of several pieces, the roots of its piece, unless it ran out of
/// memory or there was no such call so far.
#[derive(Drop)]
pub struct Worker<D: Digester> {
    pub cursor: Option<Cursor<D>>,
    pub registers: KeptRegisters<D>,
    pub made: Option<Vec<Digest32>>,
}

/// The roots of steps, in their order, by one worker, the first one made from the root that it made last. An `Err` is out of memory; a
/// worker that was making a root then builds its next tree anew.
fn replayed<D: Digester + Send + Sync, R: Threads + Sync>(
    rt: &R,
    alloc: Global,
    replay: &Replay<'_, D>,
    steps: &[u64],
    worker: &mut Worker<D>,
) -> Result<Vec<Digest32>, Memory>
    requires worker { IsWorkerOf D.digest_of replay.now.run.now worker.old }
    ensures worker { IsWorkerOf D.digest_of replay.now.run.now worker.new }
    ensures roots { IfOk result (λ v. digests v.items ≡ map (root_at D.digest_of replay.now.run.now) steps.now) }
{
    let mut roots = Vec::new(alloc);
    'steps: for step in steps {
        let last = worker.cursor.take();
        let registers = &mut worker.registers;
        let Rooted { cursor, root } = root_of_step(rt, alloc, replay, registers, last, *step)?;
        worker.cursor = Some(cursor);
        roots.push(root)?;
    }
    Ok(roots)
}

/// The piece with a place, from 0, of steps that are cut into pieces of a size; none behind the last one.
fn piece_at(steps: &[u64], size: usize, place: usize) -> &[u64]
    ensures { result.now ≡ slice_chunk steps.now size place }
{
    let from = place.saturating_mul(size).min(steps.len());
    let (_, rest) = steps.split_at(from);
    let (piece, _) = rest.split_at(size.min(rest.len()));
    piece
}

/// The roots of the piece with a worker's place, made by the worker.
#[tactic(auto, using(crate::proofs::PieceLemmas::map_chunk))]
fn replay_piece<D: Digester + Send + Sync, R: Threads + Sync>(
    rt: &R,
    alloc: Global,
    replay: &Replay<'_, D>,
    steps: &[u64],
    size: usize,
    place: usize,
    worker: &mut Worker<D>,
)
    requires worker { IsWorkerOf D.digest_of replay.now.run.now worker.old }
    ensures worker { IsWorkerOf D.digest_of replay.now.run.now worker.new }
    ensures made { IfSome worker.new.made (λ v. digests v.items ≡ slice_chunk (map (root_at D.digest_of replay.now.run.now) steps.now) size place) }
{
    let piece = piece_at(steps, size, place);
    worker.made = replayed(rt, alloc, replay, piece, worker).ok();
}

/// How long a piece is if this many steps are cut into at most `workers` pieces of this length, of which the last one may be
/// shorter. No shorter pieces would do.
fn piece_size(steps: usize, workers: u32) -> usize
    requires steps { 0 < steps }
    requires workers { 0 < workers }
    ensures some { 0 < result }
    ensures pieces { steps / result + min 1 (steps % result) ≤ workers }
    ensures short { result * workers < steps + workers }
{
    steps.div_ceil(workers as usize)
}

/// At least this many workers of a run. An `Err` is out of memory, after some were added.
fn add_workers<D: Digester>(
    replay: &Replay<'_, D>,
    count: usize,
    workers: &mut Vec<Worker<D>>,
) -> Result<(), Memory>
    requires workers { All (λ w. IsWorkerOf D.digest_of replay.now.run.now w) workers.old.items }
    ensures workers { All (λ w. IsWorkerOf D.digest_of replay.now.run.now w) workers.new.items }
    ensures count { OnOk result (count ≤ vec_len workers.new) }
{
    'workers: while workers.len() < count {
        let registers = KeptRegisters::new(replay.d, replay.run.version(), &Regs::new());
        workers.push(Worker {
            cursor: None,
            registers,
            made: None,
        })?;
    }
    Ok(())
}

/// The roots of each worker's piece, made by the workers side by side, each in a thread if one can be made.
fn replay_pieces<D: Digester + Send + Sync, R: Threads + Sync>(
    rt: &R,
    alloc: Global,
    replay: &Replay<'_, D>,
    steps: &[u64],
    size: usize,
    workers: &mut [Worker<D>],
)
    requires some { 0 < length workers.old }
    requires workers { All (λ w. IsWorkerOf D.digest_of replay.now.run.now w) workers.old }
    ensures workers { All (λ w. IsWorkerOf D.digest_of replay.now.run.now w) workers.new }
    ensures count { length workers.new ≡ length workers.old }
    ensures made { ArePieces (map (root_at D.digest_of replay.now.run.now) steps.now) size (map (λ w. w.made) workers.new) }
{
    let work = |place: usize, worker: &mut Worker<D>|
        requires worker { IsWorkerOf D.digest_of replay.now.run.now worker.now }
        ensures worker { IsWorkerOf D.digest_of replay.entry.now.run.now worker.exit.now }
        ensures made { IfSome worker.exit.now.made (λ v. digests v.items ≡ slice_chunk (map (root_at D.digest_of replay.entry.now.run.now) steps.entry.now) size place) }
    { replay_piece(rt, alloc, replay, steps, size, place, worker) };
    let threads = workers.len();
    thread::for_each_mut(rt, workers, threads, &work);
}

/// Into how many pieces of a size this many steps are cut, of which the last one may be shorter.
#[tactic(auto, using(crate::proofs::PieceLemmas::some_pieces))]
fn piece_count(steps: usize, size: usize) -> usize
    requires steps { 0 < steps }
    requires size { 0 < size }
    ensures value { result ≡ steps / size + min 1 (steps % size) }
    ensures some { 0 < result }
{
    steps.div_ceil(size)
}

/// What the workers made, one behind the other. An `Err` is out of memory, here or in one of the pieces.
fn joined<D: Digester>(alloc: Global, workers: &[Worker<D>]) -> Result<Vec<Digest32>, Memory>
    ensures { (wanted : List (List ℕ)) (size : ℕ) → ArePieces wanted size (map (λ w. w.made) workers.now) → length wanted ≤ length workers.now * size → IfOk result (λ v. digests v.items ≡ wanted) }
{
    let mut all = Vec::new(alloc);
    'pieces: for worker in workers {
        match &worker.made {
            Some(roots) => all.extend_from_slice(roots)?,
            None => return Err(Memory),
        }
    }
    Ok(all)
}

/// The roots of steps, by the workers that a run keeps. The steps are cut into at most `count` (at
/// least 1) pieces of consecutive entries, one for each worker, whose cursor is where it made its last root. A single piece is made in
/// the caller's thread; other threads help only if its worker has no tree yet. An `Err` is out of memory; a worker that was making a
/// root then builds its next tree anew.
pub fn roots_by<D: Digester + Send + Sync, R: Threads + Sync>(
    rt: &R,
    alloc: Global,
    replay: &Replay<'_, D>,
    steps: &[u64],
    count: u32,
    workers: &mut Vec<Worker<D>>,
) -> Result<Vec<Digest32>, Memory>
    requires count { 0 < count }
    requires workers { All (λ w. IsWorkerOf D.digest_of replay.now.run.now w) workers.old.items }
    ensures workers { All (λ w. IsWorkerOf D.digest_of replay.now.run.now w) workers.new.items }
    ensures roots { IfOk result (λ v. digests v.items ≡ map (root_at D.digest_of replay.now.run.now) steps.now) }
{
    if steps.is_empty() {
        return Ok(Vec::new(alloc));
    }
    let size = piece_size(steps.len(), count);
    let pieces = piece_count(steps.len(), size);
    add_workers(replay, pieces, workers)?;
    if pieces == 1 {
        return replayed(rt, alloc, replay, steps, &mut workers[0]);
    }
    let (busy, _) = workers.split_at_mut(pieces);
    replay_pieces(rt, alloc, replay, steps, size, busy);
    joined(alloc, busy)
}

/// The cursor of a step, made from that of the first worker, which is left without one.
pub fn take_cursor<D: Digester + Send + Sync, R: Threads + Sync>(
    rt: &R,
    alloc: Global,
    replay: &Replay<'_, D>,
    step: u64,
    workers: &mut Vec<Worker<D>>,
) -> Result<Cursor<D>, Memory>
    requires workers { All (λ w. IsWorkerOf D.digest_of replay.now.run.now w) workers.old.items }
    ensures workers { All (λ w. IsWorkerOf D.digest_of replay.now.run.now w) workers.new.items }
    ensures machine { IfOk result (λ c. IsMachineOf D.digest_of replay.now.run.now c.at c.machine) }
    ensures tree { IfOk result (λ c. IsFreshTree D.digest_of c.tree c.machine.mem) }
    ensures step { IfOk result (λ c. state_of_step replay.now.run.now c.at ≡ state_of_step replay.now.run.now (min step replay.now.run.now.bound)) }
{
    add_workers(replay, 1, workers)?;
    let last = workers[0].cursor.take();
    cursor_of_step(rt, alloc, replay, last, step)
}

/// Gives the first worker a cursor of the run, if there is one.
pub fn put_back_cursor<D: Digester>(_run: &Run, cursor: Cursor<D>, workers: &mut Vec<Worker<D>>)
    requires machine { IsMachineOf D.digest_of _run.now cursor.at cursor.machine }
    requires tree { IsFreshTree D.digest_of cursor.tree cursor.machine.mem }
    requires workers { All (λ w. IsWorkerOf D.digest_of _run.now w) workers.old.items }
    ensures workers { All (λ w. IsWorkerOf D.digest_of _run.now w) workers.new.items }
{
    if !workers.is_empty() {
        workers[0].cursor = Some(cursor);
    }
}

/// The roots of the run's states of some steps, each in the version of the run, in the order asked; a step may be asked more than
/// once, and above the bound the state of the bound stands for it. As the code shows, the steps are cut into at most `workers` (at least
/// 1) pieces of consecutive entries. Several pieces are replayed by a thread each, if one can be made; a single one in the caller's
/// thread, where other threads help with its first tree. The chain of each of the run's checkpoints is that of its output by this digester,
/// as `record_run` makes it.
pub fn roots<D: Digester + Send + Sync, R: Threads + Sync>(
    rt: &R,
    alloc: Global,
    d: D,
    run: &Run,
    steps: &[u64],
    workers: u32,
) -> Result<Vec<Digest32>, Memory>
    requires workers { 0 < workers }
    requires chained { AreChained D.digest_of run.now }
    ensures { IfOk result (λ v. digests v.items ≡ map (root_at D.digest_of run.now) steps.now) }
{
    let input = run_input_root(d, run);
    let replay = Replay { d, run, input };
    let mut made = Vec::new(alloc);
    roots_by(rt, alloc, &replay, steps, workers, &mut made)
}

/// The machine of the run's state of a step, with the trees of its version; above the bound the state of the bound stands for it. The
/// chain of each of the run's checkpoints is that of its output by this digester, as `record_run` makes it.
pub fn committed_at<D: Digester + Send + Sync, R: Threads + Sync>(
    rt: &R,
    alloc: Global,
    d: D,
    run: &Run,
    step: u64,
) -> Result<Committed<D>, Memory>
    requires { AreChained D.digest_of run.now }
    ensures { IfOk result (λ c. c ≡ state_of_step run.now (min step run.now.bound)) }
{
    let machine = machine_of_step(d, run, step)?;
    Committed::new(rt, alloc, d, machine)
}
