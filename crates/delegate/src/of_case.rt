//! What a caller with the bytes of a case in memory gets of it beside the commands. It needs no runtime.
ghost use Rattle.delegate.specs.Refusal.{usage};
ghost use Rattle.delegate.specs.declared.response.Answered.TheVariants as answered;
ghost use Rattle.std.specs.Prelude.{◌≡◌, ◌≢◌, ◌<◌, ◌^◌, ℕ, List, IfOk, true};
ghost use Rattle.rv_step.specs.State.{State, state_of, IsChained};
ghost use Rattle.sha2.specs.Sha256.{sha256};
ghost use Rattle.case_match.specs.TruthfulInCase.{IsInRange};
ghost use Rattle.delegate.specs.Answered.{is_of_case};
ghost use Rattle.rv_step.specs.Step.{state_at};
ghost use Rattle.case_reader.specs.Case.{CaseData, data_of};
ghost use Rattle.bisect_game.specs.declared.settled.Kind.{Kind as Asked};
ghost use Rattle.bisect_game.specs.Truth.{IsTrueAnswer};
ghost use Rattle.case_match.specs.Match.{truth_of_case};
ghost use Rattle.bisect_game.specs.Bisection.{can_cut};
ghost use Rattle.plain_answers.specs.Plain as plain_answers;
ghost use Rattle.delegate.specs.OfCase.{root_of_start, start_response, response_by, StartsValid, may_ask, or_usage, answer_of_run, answer_response};
ghost use Rattle.delegate.specs.Standing.{Stands, IsFreshStart, StartsValidIn};

use crate::faults;
use crate::loading::{case_in, start_in};
use crate::program::MAX_CASE_BYTES;
use crate::response::{Answered, Response, Stop, Subject, either_way};
use bisect_game::Kind;
use case_match::plain_answers_within_the_bound_are_true;
use case_reader::Case;
use checkpoint_run::tampered_runs;
use digest_core::Sha256;
use plain_answers::{Given, Run, plain_answer as give_answer};
use proof_wire::encode;
use prover_run::outputs_grow_slowly;
use rd_base::{Answer, Bytes, Memory};
use rv_step::Machine;
use state_commit::state_root;
use std::alloc::Global;

/// The response with the root of a machine's state. Its chain is that of its output.
fn root_of(alloc: Global, start: &Machine) -> Result<Response, Memory>
    requires { IsChained sha256 start.now }
    ensures { IfOk result (λ response. response ≡ root_of_start (state_of start.now)) }
{
    let root = state_root(Sha256, start.version, start);
    Ok(Response {
        answered: Answered::Done,
        text: Bytes::new(Vec::from_slice(alloc, &root.0)?),
    })
}

/// Loads the case of the bytes, and answers with the root of the state in which its run starts.
#[tactic(auto, unfolding(crate::specs::Loading::of_case))]
fn start(alloc: Global, bytes: Vec<u8>) -> Result<Response, Stop>
    ensures stands { Stands (λ response. response) result (start_response bytes.items) }
    ensures valid { IfOk result (λ _. StartsValidIn bytes.items) }
{
    let case = case_in(alloc, bytes)?;
    let machine = start_in(alloc, Subject::Whole, &case)?;
    Ok(root_of(alloc, &machine)?)
}

/// The root of the state in which the run of the case of these bytes starts, in the case's version and by SHA-256: with `Done` its 32 bytes.
/// What is no case, has an image that isn't loaded or is longer than 16,777,216 bytes is refused, as by the command `run`, with the same
/// text. The state in which the run starts, if it does, is valid (`valid`).
///
/// An `Err` is out of memory, which no answer is (`own`).
pub fn start_root(alloc: Global, bytes: &[u8]) -> Result<Response, Memory>
    ensures response { IfOk result (λ response. response ≡ response_by start_response bytes.now) }
    ensures valid { IfOk result (λ _. StartsValid bytes.now) }
    ensures own { IfOk result (λ response. is_of_case response.answered ≡ true) }
{
    starts_are_answers_of_cases();
    start_response_to(alloc, bytes)
}

/// No answer to the bytes of a case is out of memory.
fn starts_are_answers_of_cases()
    ensures { (bytes : List ℕ) → is_of_case (response_by start_response bytes).answered ≡ true }
{}

/// The response to these bytes.
fn start_response_to(alloc: Global, bytes: &[u8]) -> Result<Response, Memory>
    ensures response { IfOk result (λ response. response ≡ response_by start_response bytes.now) }
    ensures valid { IfOk result (λ _. StartsValid bytes.now) }
{
    if bytes.len() > MAX_CASE_BYTES {
        return Ok(faults::too_long(alloc)?);
    }
    let given = Vec::from_slice(alloc, bytes)?;
    either_way(start(alloc, given))
}

/// Whether an interval can be cut in so many parts.
fn can_cut(lo: u64, hi: u64, parts: u32) -> bool
    ensures { result ≡ can_cut lo hi parts }
{
    parts >= 2 && parts <= 16 && u64::from(parts) <= hi.saturating_sub(lo)
}

/// Whether a match with this bound may ask it.
fn may_ask(bound: u64, kind: Kind) -> bool
    ensures { result ≡ may_ask bound kind }
{
    match kind {
        Kind::Claim => true,
        Kind::Root(step) => 0 < step && step < bound,
        Kind::Roots { lo, hi, parts } => can_cut(lo, hi, parts) && hi <= bound,
        Kind::Proof(step) => step < bound,
    }
}

/// Refuses what doesn't pass.
pub fn or_usage(alloc: Global, passed: bool) -> Result<(), Stop>
    ensures { Stands (λ done. done) result (or_usage passed) }
{
    if passed {
        return Ok(());
    }
    Err(Stop::Refused(faults::usage(alloc)?))
}

/// The plain answer of the run that starts in a fresh machine.
fn plain_answer(alloc: Global, start: Machine, bound: u64, kind: Kind) -> Result<Answer, Memory>
    requires fresh { IsFreshStart start }
    requires bound { bound < 2 ^ 32 }
    ensures { IfOk result (λ a. a ≡ plain_answers.plain sha256 (state_at (state_of start)) bound kind) }
{
    outputs_grow_slowly();
    tampered_runs();
    let run = Run {
        alloc,
        d: Sha256,
        start,
        bound,
    };
    let Given { answer, .. } = give_answer(&run, None, kind)?;
    Ok(answer)
}

/// The response with the wire form of the plain answer of the run that starts in a fresh machine.
fn answer_from(alloc: Global, case: &Case, start: Machine, kind: Kind) -> Result<Response, Memory>
    requires fresh { IsFreshStart start }
    requires range { IsInRange (data_of case.now) (state_of start) }
    ensures { IfOk result (λ response. response ≡ answer_of_run kind (data_of case.now) (state_of start)) }
{
    let answer = plain_answer(alloc, start, case.bound, kind)?;
    Ok(Response {
        answered: Answered::Done,
        text: Bytes::new(encode(alloc, &answer)?),
    })
}

/// Loads the case of the bytes, and answers with the plain answer of its run.
#[tactic(auto, unfolding(crate::specs::Loading::of_case))]
fn answer(alloc: Global, kind: Kind, bytes: Vec<u8>) -> Result<Response, Stop>
    ensures { Stands (λ response. response) result (answer_response kind bytes.items) }
{
    let case = case_in(alloc, bytes)?;
    or_usage(alloc, may_ask(case.bound, kind))?;
    let machine = start_in(alloc, Subject::Whole, &case)?;
    Ok(answer_from(alloc, &case, machine, kind)?)
}

/// No answer to the bytes of a case is out of memory.
fn answers_are_no_fault()
    ensures { (k : Asked) (bytes : List ℕ) → (response_by (answer_response k) bytes).answered ≢ answered.Memory }
{}

/// The response to these bytes.
fn answer_response_to(alloc: Global, kind: Kind, bytes: &[u8]) -> Result<Response, Memory>
    ensures { IfOk result (λ response. response ≡ response_by (answer_response kind) bytes.now) }
{
    if bytes.len() > MAX_CASE_BYTES {
        return Ok(faults::too_long(alloc)?);
    }
    let given = Vec::from_slice(alloc, bytes)?;
    either_way(answer(alloc, kind, given))
}

/// The plain answer of the run of the case of these bytes to a question of a match, by SHA-256: with `Done` the bytes of its wire form. Who
/// gives it moves truly (`plain_answers_are_true`). What no match of the case asks is refused as `Usage`, behind the case's faults and before
/// the image's; else it is refused as `start_root` is.
///
/// An `Err` is out of memory, which no answer is (`own`).
pub fn answer_truly(alloc: Global, kind: Kind, bytes: &[u8]) -> Result<Response, Memory>
    ensures response { IfOk result (λ response. response ≡ response_by (answer_response kind) bytes.now) }
    ensures own { IfOk result (λ response. response.answered ≢ answered.Memory) }
{
    answers_are_no_fault();
    answer_response_to(alloc, kind, bytes)
}

/// The response to a question that is none.
pub fn no_question(alloc: Global) -> Result<Response, Memory>
    ensures { IfOk result (λ response. response ≡ usage) }
{
    Ok(faults::usage(alloc)?)
}

/// The plain answer of a case's run to what a match of the case may ask is the true one.
pub fn plain_answers_are_true()
    ensures { (digest : List ℕ → List ℕ) (c : CaseData) (start : State) (k : Asked) → may_ask c.bound k ≡ true →
        IsTrueAnswer (truth_of_case digest c start) k (plain_answers.plain digest (state_at start) c.bound k) }
{
    plain_answers_within_the_bound_are_true();
}
