//! The plain answers of a run.
ghost use Rattle.std.specs.Prelude.{◌≡◌, ◌≤◌, IfOk, IfSome, length, map};
ghost use Rattle.rv_step.specs.State.{state_of};
ghost use Rattle.rv_step.specs.Step.{state_at};
ghost use Rattle.plain_answers.specs.Plain.{plain, plain_root};

use crate::reaching::{Reached, Run, reach};
use bisect_game::{Kind, steps_asked};
use digest_core::Digester;
use open_proof::{make_claim, make_proof};
use rd_base::{Answer, Boxed, Digest32, Memory, RootList};

/// An answer, and the machine that was reached for it.
#[derive(Drop)]
pub struct Given<D: Digester> {
    /// The answer.
    pub answer: Answer,
    /// The machine that was reached last; none if no state was asked for.
    pub reached: Option<Reached<D>>,
}

/// The roots of the states of steps, in their order, and the machine that was reached last.
#[derive(Drop)]
pub struct Rooted<D: Digester> {
    /// The roots, a root for each step.
    pub roots: Vec<Digest32>,
    /// The machine that was reached last; what was handed in if no step was asked.
    pub reached: Option<Reached<D>>,
}

/// The roots of the states of steps, in the order asked; above the bound the last state stands for a step. The run goes on from the machine
/// that was reached before, if one is given, and begins again for each step that lies behind the one before it. An `Err` is out of memory.
pub fn plain_roots<D: Digester>(
    run: &Run<D>,
    before: Option<Reached<D>>,
    steps: &[u64],
) -> Result<Rooted<D>, Memory>
    requires { IfSome before (λ r. r.committed ≡ state_at (state_of run.now.start) r.at) }
    ensures roots { IfOk result (λ r. r.roots.items ≡ map (plain_root D.digest_of (state_at (state_of run.now.start)) run.now.bound) steps.now) }
    ensures reached { IfOk result (λ r. IfSome r.reached (λ r. r.committed ≡ state_at (state_of run.now.start) r.at)) }
{
    let mut roots = Vec::new(run.alloc);
    let mut reached = before;
    'steps: for step in steps {
        let next = reach(run, reached, (*step).min(run.bound))?;
        roots.push(next.committed.root())?;
        reached = Some(next);
    }
    Ok(Rooted { roots, reached })
}

/// The plain answer of a run to what is asked, and the machine that was reached for it: the claim of the last state, the root or the proof
/// of the state of a step, or the roots at the cuts of an interval. Above the bound the last state stands for a step. The run goes on from
/// the machine that was reached before, if one is given and the step doesn't lie behind it. The output at the bound is at most 4,294,967,295
/// bytes long. An `Err` is out of memory.
pub fn plain_answer<D: Digester>(
    run: &Run<D>,
    before: Option<Reached<D>>,
    kind: Kind,
) -> Result<Given<D>, Memory>
    requires before { IfSome before (λ r. r.committed ≡ state_at (state_of run.now.start) r.at) }
    requires short { length (state_at (state_of run.now.start) run.now.bound).output ≤ 4294967295 }
    ensures answer { IfOk result (λ g. g.answer ≡ plain D.digest_of (state_at (state_of run.now.start)) run.now.bound kind) }
    ensures reached { IfOk result (λ g. IfSome g.reached (λ r. r.committed ≡ state_at (state_of run.now.start) r.at)) }
{
    match kind {
        Kind::Claim => {
            let reached = reach(run, before, run.bound)?;
            let claim = make_claim(run.alloc, &reached.committed)?;
            Ok(Given {
                answer: Answer::Claim(claim),
                reached: Some(reached),
            })
        }
        Kind::Root(step) => {
            let reached = reach(run, before, step.min(run.bound))?;
            Ok(Given {
                answer: Answer::Root(reached.committed.root()),
                reached: Some(reached),
            })
        }
        Kind::Roots { lo, hi, parts } => {
            let steps = steps_asked(run.alloc, lo, hi, parts)?;
            let rooted = plain_roots(run, before, &steps)?;
            Ok(Given {
                answer: Answer::Roots(RootList::new(rooted.roots).unwrap()),
                reached: rooted.reached,
            })
        }
        Kind::Proof(step) => {
            let reached = reach(run, before, step.min(run.bound))?;
            let proof = make_proof(&reached.committed);
            Ok(Given {
                answer: Answer::Step(Boxed::new(Box::new(run.alloc, proof)?)),
                reached: Some(reached),
            })
        }
    }
}
