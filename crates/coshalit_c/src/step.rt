//! The referee of one step, on the bytes in which a proof is sent.
ghost use Rattle.std.specs.Prelude.{◌≡◌, ◌≢◌, ◌↔◌, ◌≤◌, Some, None, length};
ghost use Rattle.sha2.specs.Sha256.{sha256};
ghost use Rattle.rd_base.specs.declared.digest.Digest32.{Digest32};
ghost use Rattle.rd_base.specs.declared.answer.Answer.TheVariants.{Step};
ghost use Rattle.rd_base.specs.declared.proof.Proof.{Proof};
ghost use Rattle.open_proof.specs.Conditions.{LeadsFrom, FirstFails, conditions};
ghost use Rattle.open_proof.specs.Conditions.Refusal.{opening, shape};
ghost use Rattle.open_proof.specs.Facts as facts_of_proof;
ghost use Rattle.proof_wire.specs.Wire.{Spells};
ghost use Rattle.step_referee.specs.declared.check.StepCheck.TheVariants as StepCheck;
ghost use Rattle.coshalit_c.specs.Step.{IsOfProof, HaveLengths, Leads, LeadsTo, FailsFirst};
ghost use Rattle.coshalit_c.specs.Found.{status_of_check, root_or_before};

use digest_core::{Digester, Sha256};
use proof_wire::decode_step;
use rd_base::{Digest32, Proof, Steps};
use std::marker::Brand;
use std::sync::ledger::{Blank, Ledger};
use step_referee::{StepCheck, check_step};

/// The result of the check of a proof, with a counter of its own.
fn counted<D: Digester, L: Ledger>(
    d: D,
    version: u32,
    from: Digest32,
    proof: &Proof,
    blank: Blank,
) -> StepCheck
    requires name { blank.name ≡ L.name }
    requires parts { blank.parts ≡ L.parts }
    requires one { L.parts ≡ 1 }
    ensures leads { (b : Digest32) → (result ≡ StepCheck.Leads b) ↔ LeadsFrom D.digest_of version from (facts_of_proof.facts_of proof.now) b }
    ensures not_open { (result ≡ StepCheck.NotOpen) ↔ FirstFails opening (conditions D.digest_of version from (facts_of_proof.facts_of proof.now)) }
    ensures wrong_shape { (result ≡ StepCheck.WrongShape) ↔ FirstFails shape (conditions D.digest_of version from (facts_of_proof.facts_of proof.now)) }
{
    let mut steps = Steps::<L>::new(blank);
    check_step(d, version, from, proof, &mut steps)
}

/// The result of the check of a proof.
fn checked<D: Digester>(d: D, version: u32, from: Digest32, proof: &Proof) -> StepCheck
    ensures leads { (b : Digest32) → (result ≡ StepCheck.Leads b) ↔ LeadsFrom D.digest_of version from (facts_of_proof.facts_of proof.now) b }
    ensures not_open { (result ≡ StepCheck.NotOpen) ↔ FirstFails opening (conditions D.digest_of version from (facts_of_proof.facts_of proof.now)) }
    ensures wrong_shape { (result ≡ StepCheck.WrongShape) ↔ FirstFails shape (conditions D.digest_of version from (facts_of_proof.facts_of proof.now)) }
{
    counted::<D, Brand>(d, version, from, proof, Blank::new(1))
}

/// The result of the check of the proof that bytes spell, by SHA-256; `None` if they spell none.
fn check_wire(version: u32, from: Digest32, wire: &[u8]) -> Option<StepCheck>
    ensures leads { (b : Digest32) → (result ≡ Some (StepCheck.Leads b)) ↔ IsOfProof wire.now (λ proof. LeadsFrom sha256 version from (facts_of_proof.facts_of proof) b) }
    ensures not_open { (result ≡ Some StepCheck.NotOpen) ↔ IsOfProof wire.now (λ proof. FirstFails opening (conditions sha256 version from (facts_of_proof.facts_of proof))) }
    ensures wrong_shape { (result ≡ Some StepCheck.WrongShape) ↔ IsOfProof wire.now (λ proof. FirstFails shape (conditions sha256 version from (facts_of_proof.facts_of proof))) }
    ensures no_proof { (result ≡ None) ↔ ((proof : Proof) → ¬ (Spells (Step proof) wire.now)) }
{
    match decode_step(wire) {
        Ok(proof) => Some(checked(Sha256, version, from, &proof)),
        Err(_) => None,
    }
}

/// The digest with these 32 bytes.
fn digest_with(bytes: &[u8]) -> Digest32
    requires { length bytes.now ≡ 32 }
    ensures { result ≡ record { 0 = bytes.now } }
{
    let mut digest = [0; 32];
    digest.copy_from_slice(bytes);
    Digest32(digest)
}

/// How many bytes a root has.
const ROOT_BYTES: usize = 32;

/// The proof leads to the root that is written.
const LEADS: u32 = 0;
/// The first of the proof's conditions that fails is that its parts open the root, or an opening that of its tree.
const NOT_OPEN: u32 = 1;
/// The first of the proof's conditions that fails is one of its shape.
const WRONG_SHAPE: u32 = 2;
/// The bytes are no proof of a step.
const NO_PROOF: u32 = 3;
/// The root that is given, or the room for the next one, hasn't 32 bytes.
const WRONG_LENGTH: u32 = 4;

/// The status of what is found, whose root, if it leads to one, is written.
fn written(found: Option<StepCheck>, next: &mut [u8]) -> u32
    requires { length next.old ≡ 32 }
    ensures status { result ≡ status_of_check found }
    ensures root { next.new ≡ root_or_before found next.old }
{
    match found {
        Some(StepCheck::Leads(b)) => {
            next.copy_from_slice(&b.0);
            LEADS
        }
        Some(StepCheck::NotOpen) => NOT_OPEN,
        Some(StepCheck::WrongShape) => WRONG_SHAPE,
        None => NO_PROOF,
    }
}

/// The ruling on the proof of one step with the bytes `wire`, from the root of 32 bytes `root`, by a referee of this version of the
/// commitment (1, 2 or 3) and by SHA-256. It takes no memory, and reads nothing else.
///
/// - 0: it leads, and to the root whose 32 bytes are written to `next`. Otherwise `next` stays as it was.
/// - 1: it isn't open: the first of its conditions that fails is that its parts open the root, or that an opening opens the root of its
///   tree.
/// - 2: its shape is wrong: it is of another version, as any is if `version` isn't 1, 2 or 3; or an opening is missing, or is there and
///   not called for.
/// - 3: the bytes are the wire form of no proof of a step.
/// - 4: `root` or `next` hasn't 32 bytes. Nothing else is looked at.
#[unsafe(no_mangle)]
pub extern "C" fn coshalit_check_step(
    version: u32,
    root: &[u8],
    wire: &[u8],
    next: &mut [u8],
) -> u32
    // It leads if and only if all conditions of the proof with these bytes hold, and then to the root that is written.
    ensures leads { (result ≡ 0) ↔ (HaveLengths root.now next.old × Leads version root.now wire.now) }
    ensures next { result ≡ 0 → LeadsTo version root.now wire.now next.new }
    ensures unwritten { result ≢ 0 → next.new ≡ next.old }

    // Otherwise it is refused for the first condition that fails.
    ensures not_open { (result ≡ 1) ↔ (HaveLengths root.now next.old × FailsFirst opening version root.now wire.now) }
    ensures wrong_shape { (result ≡ 2) ↔ (HaveLengths root.now next.old × FailsFirst shape version root.now wire.now) }

    // Or there is no such proof, or a length is wrong; and it answers by no other number.
    ensures no_proof { (result ≡ 3) ↔ (HaveLengths root.now next.old × ((proof : Proof) → ¬ (Spells (Step proof) wire.now))) }
    ensures wrong_length { (result ≡ 4) ↔ (¬ (HaveLengths root.now next.old)) }
    ensures numbers { result ≤ 4 }
{
    if root.len() != ROOT_BYTES || next.len() != ROOT_BYTES {
        return WRONG_LENGTH;
    }
    written(check_wire(version, digest_with(root), wire), next)
}
