//! `run` and `roots`: to run the program of a case, and to write what its run answers, or the root of each of its states.
ghost use Rattle.std.specs.Prelude.{◌≡◌, ◌+◌, [], string_bytes, IfOk, OnOk};
ghost use Rattle.rv_step.specs.State.{state_of, IsChained};
ghost use Rattle.rv_step.specs.Step.{state_at};
ghost use Rattle.case_reader.specs.Case.{data_of};
ghost use Rattle.transcript_text.specs.Roots.{root_lines};
ghost use Rattle.segment_replay.specs.Roots.{root_of_state};
ghost use Rattle.delegate.specs.commands.Run.{run_response};
ghost use Rattle.delegate.specs.commands.Roots.{within_bound, roots_of_run, roots_response};
ghost use Rattle.delegate.specs.Standing.{Stands};

use crate::faults;
use crate::loading::{case_in, start_in};
use crate::response::{Answered, Response, Stop, Subject};
use case_reader::{Case, CaseFault, Key};
use digest_core::{Digester, Sha256};
use rd_base::{Bytes, Memory};
use rv_step::{Machine, advance};
use state_commit::Committed;
use std::alloc::Global;
use std::thread::Threads;
use transcript_text::{add_root_line, answer_line};

/// Runs the program of the case of the bytes, and answers with its status and output at the bound.
#[tactic(auto, unfolding(crate::specs::Loading::of_case))]
pub fn run(alloc: Global, bytes: Vec<u8>) -> Result<Response, Stop>
    ensures { Stands (λ response. response) result (run_response bytes.items) }
{
    let case = case_in(alloc, bytes)?;
    let mut machine = start_in(alloc, Subject::Whole, &case)?;
    advance(&mut machine, &Sha256, case.bound)?;
    let text = answer_line(alloc, machine.ctl.status, machine.output.as_slice())?;
    Ok(Response {
        answered: Answered::Done,
        text: Bytes::new(text),
    })
}

/// The most steps of a case whose roots are written.
const MAX_ROOTS_BOUND: u64 = 4_096;

/// Refuses a case whose bound is above `MAX_ROOTS_BOUND`.
fn bound_in(alloc: Global, case: &Case) -> Result<(), Stop>
    ensures { Stands (λ few. few) result (within_bound (data_of case.now)) }
{
    if case.bound > MAX_ROOTS_BOUND {
        let fault = CaseFault::OutOfRange(Key::Bound);
        return Err(Stop::Refused(faults::case_refusal(alloc, Subject::Whole, fault)?));
    }
    Ok(())
}

/// Adds the line of the root of each state, from this one on to that after this many steps, to an empty text.
fn add_roots<D: Digester>(
    text: &mut String,
    alloc: Global,
    start: Committed<D>,
    bound: u64,
) -> Result<(), Memory>
    requires { string_bytes text.old ≡ [] }
    ensures { OnOk result (string_bytes text.new ≡ root_lines (λ i. root_of_state D.digest_of (state_at start i)) (bound + 1)) }
{
    let mut committed = start;
    'states: for i in 0..bound {
        add_root_line(text, alloc, i, committed.root())?;
        committed = committed.step()?;
    }
    add_root_line(text, alloc, bound, committed.root())?;
    Ok(())
}

/// The response with the root of each state of a case whose run starts in this machine, from the first to that at the bound. The
/// machine's chain is that of the digester `d`.
fn roots_from<R: Threads + Sync, D: Digester>(
    rt: &R,
    alloc: Global,
    d: D,
    case: &Case,
    start: Machine,
) -> Result<Response, Memory>
where
    D: Send + Sync,
    requires { IsChained D.digest_of start }
    ensures { IfOk result (λ response. response ≡ roots_of_run D.digest_of (data_of case.now) (state_of start)) }
{
    let committed = Committed::new(rt, alloc, d, start)?;
    let mut text = String::new(alloc);
    add_roots(&mut text, alloc, committed, case.bound)?;
    Ok(Response {
        answered: Answered::Done,
        text: Bytes::new(text.into_bytes()),
    })
}

/// Runs the program of the case of the bytes, and answers with the root of each of its states.
#[tactic(auto, unfolding(crate::specs::Loading::of_case))]
pub fn roots<R: Threads + Sync>(rt: &R, alloc: Global, bytes: Vec<u8>) -> Result<Response, Stop>
    ensures { Stands (λ response. response) result (roots_response bytes.items) }
{
    let case = case_in(alloc, bytes)?;
    bound_in(alloc, &case)?;
    let start = start_in(alloc, Subject::Whole, &case)?;
    Ok(roots_from(rt, alloc, Sha256, &case, start)?)
}
