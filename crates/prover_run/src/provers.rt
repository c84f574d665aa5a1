//! Where the runs of a case start, and its provers: what each says and where it waits, for those that post, and the answerers that say so.
ghost use Rattle.std.specs.Prelude.{◌≡◌, ◌<◌, ◌^◌, ◌++◌, [], IfOk, OnOk, length, map};
ghost use Rattle.rv_step.specs.State.{state_of, IsChained};
ghost use Rattle.state_commit.specs.Committing.{HasInput};
ghost use Rattle.bisect_game.specs.Says.{AnswerAs};
ghost use Rattle.prover_run.specs.CaseScripts.{script_says, case_says};

use crate::answering::Plan;
use crate::prover::RunAnswerer;
use bisect_game::{Answerer, Provers, Question};
use digest_core::Digester;
use prover_script::{Scripted, waits};
use rd_base::{Memory, Script};
use rv_step::Machine;
use segment_replay::Replays;
use state_commit::SharedInput;
use std::alloc::Global;
use std::marker::Model;

/// Where provers' runs start: a machine that has no output, whose chain is that of no output, and the tree of its input.
///
/// Contracts see it as the machine's state.
#[derive(Drop)]
pub struct Start<'m, D: Digester> {
    machine: &'m Machine,
    input: &'m SharedInput<D>,
}

impl<'m, D: Digester> Model for Start<'m, D> {
    ghost use Rattle.std.specs.Prelude.{◌≡◌, []};
    ghost use Rattle.rv_step.specs.State.{State, state_of, IsChained};
    ghost use Rattle.rv_step.specs.StateCode.{state_code};
    ghost use Rattle.state_commit.specs.Committing.{HasInput};

    ghost Value = { State };

    ghost coded = { state_code };

    ghost view = { λ s. state_of s.machine.now };

    ghost invariant = { λ s. IsChained D.digest_of s.machine.now × (s.machine.now.output.items ≡ []) × HasInput D.digest_of (state_of s.machine.now) s.input.now };
}

impl<'m, D: Digester> Start<'m, D> {
    /// A start in this machine, with the tree of its input. The machine has no output, and its chain is that of no output by the
    /// digester.
    pub fn new(machine: &'m Machine, input: &'m SharedInput<D>) -> Self
        requires chained { IsChained D.digest_of machine.now }
        requires silent { machine.now.output.items ≡ [] }
        requires input { HasInput D.digest_of (state_of machine.now) input.now }
        ensures { result ≡ state_of machine.now }
    {
        Start { machine, input }
    }

    /// The machine.
    pub(crate) fn machine(&self) -> &'m Machine
        ensures state { state_of result.now ≡ self.now }
        ensures chained { IsChained D.digest_of result.now }
        ensures silent { result.now.output.items ≡ [] }
    {
        self.machine
    }

    /// The tree of the machine's input.
    pub(crate) fn input(&self) -> &'m SharedInput<D>
        ensures { HasInput D.digest_of self.now result.now }
    {
        self.input
    }
}

/// What fixes what the provers of a case say: the state from which the runs start, the bound, and the scripts. It is data of
/// contracts only: no program makes one.
#[derive(Clone, Copy, Debug)]
pub struct CaseNames {
    never: u8,
}

impl Model for CaseNames {
    ghost use Rattle.std.specs.Prelude.{◌≡◌};
    ghost use Rattle.prover_run.specs.CaseScripts.{CaseScripts};
    ghost use Rattle.prover_run.specs.CaseCode.{case_scripts_code, no_case};

    ghost Value = { CaseScripts };

    ghost coded = { case_scripts_code };

    ghost view = { λ n. no_case };

    ghost invariant = { λ n. n.never ≡ 0 };

    ghost inverse = { λ n. record { never = 0 } };
}

/// The provers of a case. The code asks only how many there are and how each one waits, for which it needs their scripts; the rest is
/// there for contracts only.
///
/// Contracts see them as the state from which their runs start, the bound, and their scripts.
#[derive(Drop)]
pub struct CaseProvers<D: Digester> {
    d: D,
    start: Machine,
    bound: u64,
    scripts: Vec<Script>,
}

impl<D: Digester> Model for CaseProvers<D> {
    ghost use Rattle.std.specs.Prelude.{◌<◌, ◌^◌, vec_len};
    ghost use Rattle.prover_run.specs.CaseScripts.{CaseScripts};
    ghost use Rattle.prover_run.specs.CaseCode.{case_scripts_code};
    ghost use Rattle.rv_step.specs.State.{state_of};

    ghost Value = { CaseScripts };

    ghost coded = { case_scripts_code };

    ghost view = { λ c. record { start = state_of c.start; bound = c.bound; scripts = c.scripts.items } };

    ghost invariant = { λ c. vec_len c.scripts < 2 ^ 32 };
}

/// Copies of the scripts.
fn copied(alloc: Global, scripts: &[Script]) -> Result<Vec<Script>, Memory>
    ensures { IfOk result (λ v. v.items ≡ scripts.now) }
{
    let mut copies = Vec::with_capacity(alloc, scripts.len())?;
    'scripts: for script in scripts {
        copies.push(script.copy(alloc)?)?;
    }
    Ok(copies)
}

impl<D: Digester> CaseProvers<D> {
    /// The provers with these scripts, fewer than 2^32, whose runs go from the machine `start` up to the step `bound`. An `Err` is out of
    /// memory, and drops the machine.
    pub fn new(
        alloc: Global,
        d: D,
        scripts: &[Script],
        start: Machine,
        bound: u64,
    ) -> Result<Self, Memory>
        requires { length scripts.now < 2 ^ 32 }
        ensures { IfOk result (λ c. c ≡ record { start = state_of start; bound = bound; scripts = scripts.now }) }
    {
        Ok(CaseProvers {
            d,
            start,
            bound,
            scripts: copied(alloc, scripts)?,
        })
    }
}

impl<D: Digester> Provers for CaseProvers<D> {
    ghost use Rattle.std.specs.Prelude.{length};
    ghost use Rattle.prover_run.specs.CaseScripts.{case_says};
    ghost use Rattle.prover_run.specs.OneAnswer.{case_provers_give_one_answer};

    type Names = CaseNames;

    ghost names = { λ c. c };

    ghost many = { λ n. length n.scripts };

    ghost says = { λ n. case_says D.digest_of n.start n.bound n.scripts };

    fn count(&self) -> u32 {
        self.scripts.len() as u32
    }

    fn waits(&self, p: u32, question: &Question, passes: u32) -> bool {
        waits(&self.scripts[p as usize - 1].manner, question, passes)
    }

    ghost give_one_answer = { λ n. case_provers_give_one_answer D.digest_of n.start n.bound n.scripts };
}

/// The answerer of a script, whose run starts there and goes by this plan.
fn answerer_of<D: Replays>(
    alloc: Global,
    d: D,
    script: &Script,
    start: &Start<'_, D>,
    plan: Plan,
) -> Result<Scripted<RunAnswerer<D>, D>, Memory>
    ensures { IfOk result (λ a. ⟦<Scripted<RunAnswerer<D>, D> as Answerer>⟧.answers a ≡ script_says D.digest_of start.now plan.bound script.now) }
{
    let input = start.input().share()?;
    let tamper = script.tamper;
    let inner = RunAnswerer::with_input(alloc, d, start.machine(), input, tamper, plan)?;
    let manner = script.manner.copy(alloc)?;
    Ok(Scripted::new(alloc, d, inner, manner))
}

/// Puts the answerers of scripts behind others, in their order. An `Err` is out of memory, after some were put there.
fn put_answerers<D: Replays>(
    alloc: Global,
    d: D,
    scripts: &[Script],
    start: &Start<'_, D>,
    plan: Plan,
    answerers: &mut Vec<Scripted<RunAnswerer<D>, D>>,
) -> Result<(), Memory>
    ensures { OnOk result (map ⟦<Scripted<RunAnswerer<D>, D> as Answerer>⟧.answers answerers.new.items ≡ map ⟦<Scripted<RunAnswerer<D>, D> as Answerer>⟧.answers answerers.old.items ++ map (script_says D.digest_of start.now plan.bound) scripts.now) }
{
    let [script, rest @ ..] = scripts else {
        return Ok(());
    };
    let answerer = answerer_of(alloc, d, script, start, plan)?;
    answerers.push(answerer)?;
    put_answerers(alloc, d, rest, start, plan, answerers)
}

/// The answerers of the provers with these scripts, in their order, whose runs start there and go by this plan. No part of the input is
/// digested (not proved; seen in the code).
pub fn answerers_with_input<D: Replays>(
    alloc: Global,
    d: D,
    scripts: &[Script],
    start: &Start<'_, D>,
    plan: Plan,
) -> Result<Vec<Scripted<RunAnswerer<D>, D>>, Memory>
    ensures count { IfOk result (λ v. length v.items ≡ length scripts.now) }
    ensures answers { IfOk result (λ v. AnswerAs ⟦<Scripted<RunAnswerer<D>, D> as Answerer>⟧.answers (case_says D.digest_of start.now plan.bound scripts.now) 1 v.items) }
{
    let mut answerers = Vec::new(alloc);
    put_answerers(alloc, d, scripts, start, plan, &mut answerers)?;
    Ok(answerers)
}
