//! The roots of a case's run, and the root of a claim on the bytes in which it is sent.
ghost use Rattle.std.specs.Prelude.{◌≡◌, ◌≢◌, ◌↔◌, length};
ghost use Rattle.proof_wire.specs.Reading.{answer_in};
ghost use Rattle.delegate.specs.OfCase.{start_response, roots_at_response, response_by, StartsValid};
ghost use Rattle.coshalit_c.specs.Texts.{IsWrittenTo, IsUntouched};
ghost use Rattle.coshalit_c.specs.Claims.{status_of_claim, claimed_root_or_before, status_of_reading, root_of_reading};

use crate::texts::{CoshalitAnswer, out_of_memory, written};
use delegate::{roots_at, start_root};
use digest_core::Sha256;
use out_chain::{check_claim, root_of_claim};
use proof_wire::{WireFault, decode};
use rd_base::Answer;
use std::alloc::Global;

/// The claim is sound, and its root is written.
const SOUND: u32 = 0;
/// The bytes are a claim, which doesn't agree with itself.
const UNSOUND: u32 = 1;
/// The bytes are no claim.
const NO_CLAIM: u32 = 3;
/// The room for the root hasn't 32 bytes.
const WRONG_LENGTH: u32 = 4;
/// Memory ran out.
const OUT_OF_MEMORY: u32 = 9;

/// How many bytes a root has.
const ROOT_BYTES: usize = 32;

/// The status of an answer as a claim, whose root, if it is a sound one, is written.
fn written_claim(answer: &Answer, root: &mut [u8]) -> u32
    requires { length root.old ≡ 32 }
    ensures status { result ≡ status_of_claim answer.now }
    ensures root { root.new ≡ claimed_root_or_before answer.now root.old }
{
    match answer {
        Answer::Claim(claim) => {
            if !check_claim(Sha256, claim).is_sound() {
                return UNSOUND;
            }
            root.copy_from_slice(&root_of_claim(Sha256, claim).0);
            SOUND
        }
        _ => NO_CLAIM,
    }
}

/// The root of the claim with the bytes `wire`, by SHA-256, by which a match compares claims.
///
/// - 0: they are a sound claim, which agrees with itself: its control fields have the length and the chain of its output. The 32 bytes of
///   its root are written to `root`. Otherwise `root` stays as it was.
/// - 1: they are an unsound claim, which doesn't agree with itself. In a match it is faulty.
/// - 3: they are the wire form of no claim.
/// - 4: `root` hasn't 32 bytes. Nothing else is looked at.
/// - 9: memory ran out.
#[unsafe(no_mangle)]
pub extern "C" fn coshalit_claim_root(alloc: Global, wire: &[u8], root: &mut [u8]) -> u32
    ensures status { result ≢ 9 → length root.old ≡ 32 → result ≡ status_of_reading (answer_in wire.now) }
    ensures root { result ≢ 9 → length root.old ≡ 32 → root.new ≡ root_of_reading (answer_in wire.now) root.old }
    ensures unwritten { result ≢ 0 → root.new ≡ root.old }
    ensures wrong_length { (result ≡ 4) ↔ (length root.old ≢ 32) }
{
    if root.len() != ROOT_BYTES {
        return WRONG_LENGTH;
    }
    match decode(alloc, wire) {
        Ok(answer) => written_claim(&answer, root),
        Err(WireFault::Memory) => OUT_OF_MEMORY,
        Err(_) => NO_CLAIM,
    }
}

/// The root of the state in which the run of a case starts, in the case's version and by SHA-256. It is the `start` of each match of the
/// case. The case is the bytes `case`. The state is valid (`valid`), as the law `given_answers_are_right` needs it.
///
/// - 0: the text is the 32 bytes of the root. What is written to `room`, and `length`, are as of `coshalit_audit`.
/// - 3, 4, 12: the case is refused. The status and the text are those of `coshalit_run`.
/// - 9: memory ran out. `length` is 0, and `room` stays as it was.
#[unsafe(no_mangle)]
pub extern "C" fn coshalit_start_root(alloc: Global, case: &[u8], room: &mut [u8]) -> CoshalitAnswer
    ensures response { result.status ≢ 9 → IsWrittenTo (response_by start_response case.now) result room.old room.new }
    ensures valid { result.status ≢ 9 → StartsValid case.now }
    ensures memory { result.status ≡ 9 → IsUntouched result room.old room.new }
{
    match start_root(alloc, case) {
        Ok(response) => written(&response, room),
        Err(_) => out_of_memory(),
    }
}

/// The roots of the states of a case's run after these many steps each, in the case's version and by SHA-256. The case is the bytes `case`.
/// The steps may have any order, and are reached by one run.
///
/// - 0: the text is 32 bytes for each root, in the order of `steps`. What is written to `room`, and `length`, are as of `coshalit_audit`.
/// - 2: a step is above the case's bound. The text is the line `fault usage`.
/// - 3, 4, 9, 12: as of `coshalit_start_root`.
#[unsafe(no_mangle)]
pub extern "C" fn coshalit_roots_at(
    alloc: Global,
    case: &[u8],
    steps: &[u64],
    room: &mut [u8],
) -> CoshalitAnswer
    ensures response { result.status ≢ 9 → IsWrittenTo (response_by (roots_at_response steps.now) case.now) result room.old room.new }
    ensures memory { result.status ≡ 9 → IsUntouched result room.old room.new }
{
    match roots_at(alloc, steps, case) {
        Ok(response) => written(&response, room),
        Err(_) => out_of_memory(),
    }
}
