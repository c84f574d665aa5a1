//! The roots of a case's run after some numbers of steps, for a caller with the bytes of the case in memory. It needs no runtime.
ghost use Rattle.std.specs.Prelude.{◌≡◌, ◌≢◌, ℕ, List, All, Contains, map, length, IfOk};
ghost use Rattle.std.specs.List.{flat_map};
ghost use Rattle.rd_base.specs.declared.digest.Digest32.{Digest32 as Root};
ghost use Rattle.rv_step.specs.State.{state_of, IsChained};
ghost use Rattle.rv_step.specs.Step.{state_at};
ghost use Rattle.sha2.specs.Sha256.{sha256};
ghost use Rattle.case_reader.specs.Case.{data_of};
ghost use Rattle.plain_answers.specs.Plain.{plain_root};
ghost use Rattle.delegate.specs.declared.response.Answered.TheVariants as answered;
ghost use Rattle.delegate.specs.OfCase.{response_by, has_steps, roots_of_steps, roots_at_response};
ghost use Rattle.delegate.specs.Standing.{Stands, IsAscending};

use crate::faults;
use crate::loading::{case_in, start_in};
use crate::of_case::or_usage;
use crate::program::MAX_CASE_BYTES;
use crate::response::{Answered, Response, Stop, Subject, either_way};
use case_reader::Case;
use digest_core::Sha256;
use plain_answers::{Run, plain_roots};
use rd_base::{Bytes, Digest32, Memory};
use rv_step::Machine;
use std::alloc::Global;

/// Whether a run with this bound has these steps.
fn has_steps(bound: u64, steps: &[u64]) -> bool
    ensures { result ≡ has_steps bound steps.now }
{
    'steps: for step in steps {
        if *step > bound {
            return false;
        }
    }
    true
}

/// The root that stands beside a step, which is one of the steps in ascending order.
fn root_beside(sorted: &[u64], roots: &[Digest32], step: u64) -> Digest32
    requires sorted { IsAscending sorted.now }
    requires beside { length roots.now ≡ length sorted.now }
    requires there { Contains sorted.now step }
    ensures { (root : ℕ → Root) → roots.now ≡ map root sorted.now → result ≡ root step }
{
    let place = sorted.binary_search(&step).unwrap();
    roots[place]
}

/// The bytes of the root that stands beside each step, one behind another. Each is one of the steps in ascending order.
fn roots_beside(
    alloc: Global,
    sorted: &[u64],
    roots: &[Digest32],
    steps: &[u64],
) -> Result<Vec<u8>, Memory>
    requires sorted { IsAscending sorted.now }
    requires beside { length roots.now ≡ length sorted.now }
    requires there { All (Contains sorted.now) steps.now }
    ensures { (root : ℕ → Root) → roots.now ≡ map root sorted.now → IfOk result (λ text. text.items ≡ flat_map (λ i. (root i).0) steps.now) }
{
    let mut text = Vec::new(alloc);
    'steps: for step in steps {
        text.extend_from_slice(&root_beside(sorted, roots, *step).0)?;
    }
    Ok(text)
}

/// The bytes of the roots after so many steps each of the run that starts in a machine, one behind another. The steps are reached in
/// ascending order, by one run.
fn roots_of_run(alloc: Global, start: Machine, bound: u64, steps: &[u64]) -> Result<Vec<u8>, Memory>
    requires { IsChained sha256 start }
    ensures { IfOk result (λ text. text.items ≡ flat_map (λ i. (plain_root sha256 (state_at (state_of start)) bound i).0) steps.now) }
{
    let mut sorted = Vec::from_slice(alloc, steps)?;
    sorted.sort_unstable();
    let run = Run {
        alloc,
        d: Sha256,
        start,
        bound,
    };
    let in_order = sorted.as_slice();
    let rooted = plain_roots(&run, None, in_order)?;
    roots_beside(alloc, in_order, rooted.roots.as_slice(), steps)
}

/// The response with the roots after so many steps each of the run of a case, which starts in a machine.
fn roots_from(alloc: Global, case: &Case, start: Machine, steps: &[u64]) -> Result<Response, Memory>
    requires { IsChained sha256 start }
    ensures { IfOk result (λ response. response ≡ roots_of_steps steps.now (data_of case.now) (state_of start)) }
{
    let text = roots_of_run(alloc, start, case.bound, steps)?;
    Ok(Response {
        answered: Answered::Done,
        text: Bytes::new(text),
    })
}

/// Loads the case of the bytes, and answers with the roots of its run after so many steps each.
#[tactic(auto, unfolding(crate::specs::Loading::of_case))]
fn roots(alloc: Global, steps: &[u64], bytes: Vec<u8>) -> Result<Response, Stop>
    ensures { Stands (λ response. response) result (roots_at_response steps.now bytes.items) }
{
    let case = case_in(alloc, bytes)?;
    or_usage(alloc, has_steps(case.bound, steps))?;
    let machine = start_in(alloc, Subject::Whole, &case)?;
    Ok(roots_from(alloc, &case, machine, steps)?)
}

/// No answer to the bytes of a case is out of memory.
fn roots_are_no_fault()
    ensures { (steps bytes : List ℕ) → (response_by (roots_at_response steps) bytes).answered ≢ answered.Memory }
{}

/// The response to these bytes.
fn roots_response_to(alloc: Global, steps: &[u64], bytes: &[u8]) -> Result<Response, Memory>
    ensures { IfOk result (λ response. response ≡ response_by (roots_at_response steps.now) bytes.now) }
{
    if bytes.len() > MAX_CASE_BYTES {
        return Ok(faults::too_long(alloc)?);
    }
    let given = Vec::from_slice(alloc, bytes)?;
    either_way(roots(alloc, steps, given))
}

/// The roots of the states after so many steps each of the run of the case of these bytes, in the case's version and by SHA-256: with `Done`
/// 32 bytes for each, in the order of the steps. They may have any order, and be there several times; the run is made once. A step above the
/// bound is refused as `Usage`, behind the case's faults and before the image's; else the bytes are refused as by `start_root`.
///
/// An `Err` is out of memory, which no answer is (`own`).
pub fn roots_at(alloc: Global, steps: &[u64], bytes: &[u8]) -> Result<Response, Memory>
    ensures response { IfOk result (λ response. response ≡ response_by (roots_at_response steps.now) bytes.now) }
    ensures own { IfOk result (λ response. response.answered ≢ answered.Memory) }
{
    roots_are_no_fault();
    roots_response_to(alloc, steps, bytes)
}
