//! The machine of a step of a run, with the trees of its commitment.
ghost use Rattle.std.specs.Prelude.{◌≡◌, ◌+◌, ◌-◌, ◌≤◌, IfOk, IfSome};
ghost use Rattle.rv_step.specs.State.{state_of, IsChained};
ghost use Rattle.rv_step.specs.Step.{state_at};

use digest_core::Digester;
use rd_base::Memory;
use rv_step::Machine;
use state_commit::Committed;
use std::alloc::Global;

/// The run of a machine.
#[derive(Drop)]
pub struct Run<D: Digester> {
    /// Where memory is taken from.
    pub alloc: Global,
    /// The digester of the commitments.
    pub d: D,
    /// The machine at step 0.
    pub start: Machine,
    /// The last step, whose state is claimed.
    pub bound: u64,
    ghost chained: { IsChained D.digest_of start },
}

/// A machine of a run, with the trees of its commitment.
#[derive(Drop)]
pub struct Reached<D: Digester> {
    /// At which step the machine is.
    pub at: u64,
    /// The machine with its trees.
    pub committed: Committed<D>,
}

/// The machine of a step: moved on from the one that was reached before, if one is given and the step doesn't lie behind it, and else from
/// the start. As the code shows, the trees are brought up to the step once, at the end. An `Err` is out of memory.
pub fn reach<D: Digester>(
    run: &Run<D>,
    before: Option<Reached<D>>,
    step: u64,
) -> Result<Reached<D>, Memory>
    requires { IfSome before (λ r. r.committed ≡ state_at (state_of run.now.start) r.at) }
    ensures at { IfOk result (λ r. r.at ≡ step) }
    ensures committed { IfOk result (λ r. r.committed ≡ state_at (state_of run.now.start) step) }
{
    if let Some(reached) = before {
        if reached.at <= step {
            let committed = reached.committed.advance(step - reached.at)?;
            return Ok(Reached {
                at: step,
                committed,
            });
        }
    }
    let start = Committed::alone(run.alloc, run.d, run.start.copy()?)?;
    let committed = start.advance(step)?;
    Ok(Reached {
        at: step,
        committed,
    })
}
