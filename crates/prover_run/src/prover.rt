//! An answerer that reads its answers off its run.
ghost use Rattle.std.specs.Prelude.{◌≡◌, ◌+◌, ◌<◌, ◌^◌, length, IfOk, IfSome};
ghost use Rattle.rv_step.specs.State.{state_of, IsChained};
ghost use Rattle.state_commit.specs.Committing.{HasInput};
ghost use Rattle.prover_run.specs.Prover.{IsRunOf};

use crate::answering::{Plan, RunReader, plain_answer};
use crate::laws::outputs_grow_slowly;
use bisect_game::{Answerer, Question};
use checkpoint_run::{record_run, tampered_runs_keep_the_input};
use rd_base::{Answer, Digest32, Memory, Tamper};
use rv_step::Machine;
use segment_replay::{KeptRun, Replays};
use state_commit::{SharedInput, one_input_has_one_tree};
use std::alloc::Global;
use std::collections::BTreeMap;
use std::marker::Model;
use std::thread::Threads;

/// An answerer that reads its answers off its run, which its first answer records.
///
/// Contracts see it as the state from which the run starts, what is wrong with the run, and how far it goes.
#[derive(Drop)]
pub struct RunAnswerer<D: Replays> {
    reader: RunReader<D>,
    start: Machine,
    /// The tree of the machine's input, and so of the run's.
    input: SharedInput<D>,
    tamper: Tamper,
    /// The run, with what its last roots were made of.
    run: Option<KeptRun<D>>,
    /// The roots that were asked for so far, by their steps.
    roots: BTreeMap<u64, Digest32>,
}

impl<D: Replays> Model for RunAnswerer<D> {
    ghost use Rattle.prover_run.specs.Prover.{Prover, prover_code, IsReady};
    ghost use Rattle.rv_step.specs.State.{state_of};

    ghost Value = { Prover };

    ghost coded = { prover_code };

    ghost view = { λ p. record { start = state_of p.start; tamper = p.tamper; bound = p.reader.plan.bound } };

    ghost invariant = { λ p. IsReady D.digest_of (record { start = state_of p.start; tamper = p.tamper; bound = p.reader.plan.bound }) p.start p.input p.run p.roots.entries };
}

impl<D: Replays> RunAnswerer<D> {
    /// A prover whose run goes from a machine, with this tamper, up to the step `bound`, below 2^32. The bytes of the machine's output and
    /// a byte more for each step are fewer than 2^32, and the machine's chain is that of its output by the digester `d`.
    ///
    /// Its run is recorded with a checkpoint at every `every` steps (at least 1), and the roots that one question asks for are made in at
    /// most `workers` pieces (at least 1), side by side (not proved; seen in the code).
    pub fn new(
        alloc: Global,
        d: D,
        machine: &Machine,
        bound: u64,
        every: u32,
        tamper: Tamper,
        workers: u32,
    ) -> Result<Self, Memory>
        requires chained { IsChained D.digest_of machine.now }
        requires room { length machine.now.output.items + bound < 2 ^ 32 }
        requires bound { bound < 2 ^ 32 }
        requires every { 0 < every }
        requires workers { 0 < workers }
        ensures { IfOk result (λ p. p ≡ record { start = state_of machine.now; tamper = tamper; bound = bound }) }
    {
        let input = SharedInput::of(alloc, d, machine)?;
        let plan = Plan {
            bound,
            every,
            workers,
        };
        RunAnswerer::with_input(alloc, d, machine, input, tamper, plan)
    }

    /// `new`, with the tree of the machine's input at hand, so that no part of the input is digested (not proved; seen in the code).
    pub fn with_input(
        alloc: Global,
        d: D,
        machine: &Machine,
        input: SharedInput<D>,
        tamper: Tamper,
        plan: Plan,
    ) -> Result<Self, Memory>
        requires chained { IsChained D.digest_of machine.now }
        requires room { length machine.now.output.items + plan.bound < 2 ^ 32 }
        requires input { HasInput D.digest_of (state_of machine.now) input }
        ensures { IfOk result (λ p. p ≡ record { start = state_of machine.now; tamper = tamper; bound = plan.bound }) }
    {
        let start = machine.copy()?;
        Ok(RunAnswerer {
            reader: RunReader { alloc, d, plan },
            start,
            input,
            tamper,
            run: None,
            roots: BTreeMap::new(alloc),
        })
    }
}

/// The run that was recorded before, or else the recorded run of a prover.
fn recorded<D: Replays>(
    reader: &RunReader<D>,
    start: &Machine,
    input: &SharedInput<D>,
    tamper: Tamper,
    at_hand: Option<KeptRun<D>>,
) -> Result<KeptRun<D>, Memory>
    requires chained { IsChained D.digest_of start.now }
    requires input { HasInput D.digest_of (state_of start.now) input.now }
    requires recorded { IfSome at_hand (IsRunOf D.digest_of (record { start = state_of start.now; tamper = tamper; bound = reader.now.plan.bound })) }
    ensures { IfOk result (IsRunOf D.digest_of (record { start = state_of start.now; tamper = tamper; bound = reader.now.plan.bound })) }
{
    match at_hand {
        Some(run) => Ok(run),
        None => {
            tampered_runs_keep_the_input();
            one_input_has_one_tree();
            let RunReader { alloc, d, plan } = *reader;
            let run = record_run(alloc, d, start, plan.bound, plan.every, tamper)?;
            Ok(KeptRun::new(alloc, d, run, input.share()?))
        }
    }
}

impl<D: Replays> Answerer for RunAnswerer<D> {
    ghost use Rattle.prover_run.specs.Prover.{prover_says};

    ghost answers = { λ p. prover_says D.digest_of p };

    fn answer<R: Threads + Sync>(
        &mut self,
        rt: &R,
        question: &Question,
        _passes: u32,
    ) -> Result<Option<Answer>, Memory> {
        outputs_grow_slowly();
        let at_hand = self.run.take();
        let mut run = recorded(&self.reader, &self.start, &self.input, self.tamper, at_hand)?;
        let answer = plain_answer(rt, &self.reader, &mut run, &mut self.roots, question.kind);
        self.run = Some(run);
        Ok(Some(answer?))
    }
}
