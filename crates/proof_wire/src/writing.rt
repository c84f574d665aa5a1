//! Answers as bytes. Each function appends a field. After an `Err`, which is out of memory, a part of the field may be appended.
ghost use Rattle.std.specs.Prelude.{◌≡◌, ◌+◌, ◌++◌, length, OnOk, IfOk};
ghost use Rattle.proof_wire.specs.Wire.{byte, in_four_bytes, in_eight_bytes, digest, block, each, status as status_form, control, registers, opening, register_opening, input_opening, optional, flagged as flag_form, claim, roots, count, step_proof, step_proof_2, step_proof_3, proof_form, wire_form, Spells};

use crate::layout::{
    CLAIM_TAG, EXITED, FETCH, INPUT, OPERAND, ROOT_TAG, ROOTS_TAG, RUNNING, STEP_2_TAG, STEP_3_TAG,
    STEP_TAG, TRAPPED,
};
use rd_base::{
    Answer, Claim, Ctl, Digest32, InOpening, Memory, Opening, Proof, RegOpening, RegOpenings, Regs,
    RootList, Status, StepProof, StepProof2, StepProof3, registers_are_32,
};
use std::alloc::{AllocError, Global};

/// A number of four bytes.
fn put_word(out: &mut Vec<u8>, number: u32) -> Result<(), AllocError>
    ensures bytes { OnOk result (out.new.items ≡ out.old.items ++ (in_four_bytes number).bytes) }
    ensures fits { (in_four_bytes number).fits }
{
    out.extend_from_slice(&number.to_le_bytes())?;
    Ok(())
}

/// A number of eight bytes.
fn put_double_word(out: &mut Vec<u8>, number: u64) -> Result<(), AllocError>
    ensures bytes { OnOk result (out.new.items ≡ out.old.items ++ (in_eight_bytes number).bytes) }
    ensures fits { (in_eight_bytes number).fits }
{
    out.extend_from_slice(&number.to_le_bytes())?;
    Ok(())
}

/// Bytes as they are.
fn put_block(out: &mut Vec<u8>, bytes: &[u8]) -> Result<(), AllocError>
    ensures bytes { OnOk result (out.new.items ≡ out.old.items ++ bytes.now) }
    ensures fits { (block (length bytes.now) bytes.now).fits }
{
    out.extend_from_slice(bytes)?;
    Ok(())
}

/// A digest.
fn put_digest(out: &mut Vec<u8>, written: &Digest32) -> Result<(), AllocError>
    ensures bytes { OnOk result (out.new.items ≡ out.old.items ++ (digest written.now).bytes) }
    ensures fits { OnOk result (digest written.now).fits }
{
    put_block(out, &written.0)
}

/// Digests, one behind another.
fn put_digests(out: &mut Vec<u8>, written: &[Digest32]) -> Result<(), AllocError>
    ensures bytes { OnOk result (out.new.items ≡ out.old.items ++ (each digest (length written.now) written.now).bytes) }
    ensures fits { OnOk result (each digest (length written.now) written.now).fits }
{
    for sibling in written {
        put_digest(out, sibling)?;
    }
    Ok(())
}

/// The registers `x1` to `x31`.
fn put_registers(out: &mut Vec<u8>, regs: &Regs) -> Result<(), AllocError>
    ensures bytes { OnOk result (out.new.items ≡ out.old.items ++ (registers regs.now).bytes) }
    ensures fits { OnOk result (registers regs.now).fits }
{
    registers_are_32(regs);
    for reg in 1..32 {
        put_word(out, regs.get(reg))?;
    }
    Ok(())
}

/// A status with its code.
fn put_status(out: &mut Vec<u8>, status: Status) -> Result<(), AllocError>
    ensures bytes { OnOk result (out.new.items ≡ out.old.items ++ (status_form status).bytes) }
    ensures fits { (status_form status).fits }
{
    let (byte, code) = match status {
        Status::Running => (RUNNING, 0),
        Status::Exited(code) => (EXITED, code),
        Status::Trapped(code) => (TRAPPED, code),
    };
    out.push(byte)?;
    put_word(out, code)
}

/// The control fields of a state.
fn put_control(out: &mut Vec<u8>, ctl: &Ctl) -> Result<(), AllocError>
    ensures bytes { OnOk result (out.new.items ≡ out.old.items ++ (control ctl.now).bytes) }
    ensures fits { OnOk result (control ctl.now).fits }
{
    put_word(out, ctl.pc)?;
    put_status(out, ctl.status)?;
    put_double_word(out, ctl.out_len)?;
    put_digest(out, &ctl.chain)
}

/// A chunk of memory and its Merkle path.
fn put_opening(out: &mut Vec<u8>, opened: &Opening) -> Result<(), AllocError>
    ensures bytes { OnOk result (out.new.items ≡ out.old.items ++ (opening opened.now).bytes) }
    ensures fits { OnOk result (opening opened.now).fits }
{
    put_block(out, &opened.chunk)?;
    put_digests(out, &opened.path.0)
}

/// A register's value and its Merkle path.
fn put_register_opening(out: &mut Vec<u8>, opened: &RegOpening) -> Result<(), AllocError>
    ensures bytes { OnOk result (out.new.items ≡ out.old.items ++ (register_opening opened.now).bytes) }
    ensures fits { OnOk result (register_opening opened.now).fits }
{
    put_word(out, opened.value)?;
    put_digests(out, &opened.path.0)
}

/// A chunk of the input and its Merkle path.
fn put_input_opening(out: &mut Vec<u8>, opened: &InOpening) -> Result<(), AllocError>
    ensures bytes { OnOk result (out.new.items ≡ out.old.items ++ (input_opening opened.now).bytes) }
    ensures fits { OnOk result (input_opening opened.now).fits }
{
    put_block(out, &opened.chunk)?;
    put_digests(out, &opened.path.0)
}

/// A chunk of memory and its Merkle path if they are there, and else nothing.
fn put_opening_if(out: &mut Vec<u8>, opened: &Option<Opening>) -> Result<(), AllocError>
    ensures bytes { OnOk result (out.new.items ≡ out.old.items ++ (optional opening opened.now).bytes) }
    ensures fits { OnOk result (optional opening opened.now).fits }
{
    if let Some(opened) = opened {
        put_opening(out, opened)?;
    }
    Ok(())
}

/// A chunk of the input and its Merkle path if they are there, and else nothing.
fn put_input_if(out: &mut Vec<u8>, opened: &Option<InOpening>) -> Result<(), AllocError>
    ensures bytes { OnOk result (out.new.items ≡ out.old.items ++ (optional input_opening opened.now).bytes) }
    ensures fits { OnOk result (optional input_opening opened.now).fits }
{
    if let Some(opened) = opened {
        put_input_opening(out, opened)?;
    }
    Ok(())
}

/// How many registers are opened.
fn put_count(out: &mut Vec<u8>, named: &RegOpenings) -> Result<(), AllocError>
    ensures bytes { OnOk result (out.new.items ≡ out.old.items ++ (count named.now).bytes) }
    ensures fits { (count named.now).fits }
{
    out.push(named.as_slice().len() as u8)?;
    Ok(())
}

/// Opened registers, one behind another.
fn put_openings(out: &mut Vec<u8>, named: &[RegOpening]) -> Result<(), AllocError>
    ensures bytes { OnOk result (out.new.items ≡ out.old.items ++ (each register_opening (length named.now) named.now).bytes) }
    ensures fits { OnOk result (each register_opening (length named.now) named.now).fits }
{
    for opened in named {
        put_register_opening(out, opened)?;
    }
    Ok(())
}

/// The registers that a proof opens, in their order.
fn put_named(out: &mut Vec<u8>, named: &RegOpenings) -> Result<(), AllocError>
    ensures bytes { OnOk result (out.new.items ≡ out.old.items ++ (each register_opening (length named.now) named.now).bytes) }
    ensures fits { OnOk result (each register_opening (length named.now) named.now).fits }
{
    put_openings(out, named.as_slice())
}

/// A flag if a value is there, and 0 if it isn't.
fn flag_if<T>(flag: u8, value: &Option<T>) -> u8
    ensures { result ≡ flag_form flag value.now }
{
    match value {
        Some(_) => flag,
        None => 0,
    }
}

/// The flags of a proof of version 1 or 2.
fn put_flags(
    out: &mut Vec<u8>,
    fetch: &Option<Opening>,
    operand: &Option<Opening>,
) -> Result<(), AllocError>
    ensures bytes { OnOk result (out.new.items ≡ out.old.items ++ (byte (flag_form 1 fetch.now + flag_form 2 operand.now)).bytes) }
    ensures fits { (byte (flag_form 1 fetch.now + flag_form 2 operand.now)).fits }
{
    out.push(flag_if(FETCH, fetch) + flag_if(OPERAND, operand))?;
    Ok(())
}

/// The flags of a proof of version 3.
fn put_flags_3(
    out: &mut Vec<u8>,
    fetch: &Option<Opening>,
    operand: &Option<Opening>,
    input: &Option<InOpening>,
) -> Result<(), AllocError>
    ensures bytes { OnOk result (out.new.items ≡ out.old.items ++ (byte (flag_form 1 fetch.now + flag_form 2 operand.now + flag_form 4 input.now)).bytes) }
    ensures fits { (byte (flag_form 1 fetch.now + flag_form 2 operand.now + flag_form 4 input.now)).fits }
{
    out.push(flag_if(FETCH, fetch) + flag_if(OPERAND, operand) + flag_if(INPUT, input))?;
    Ok(())
}

/// A claim behind its tag.
fn put_claim(out: &mut Vec<u8>, written: &Claim) -> Result<(), AllocError>
    ensures bytes { OnOk result (out.new.items ≡ out.old.items ++ (claim written.now).bytes) }
    ensures fits { OnOk result (claim written.now).fits }
{
    put_digest(out, &written.mem)?;
    put_digest(out, &written.regs)?;
    put_control(out, &written.ctl)?;
    put_double_word(out, written.output.len() as u64)?;
    put_block(out, written.output.as_slice())
}

/// Several roots behind their tag.
fn put_roots(out: &mut Vec<u8>, written: &RootList) -> Result<(), AllocError>
    ensures bytes { OnOk result (out.new.items ≡ out.old.items ++ (roots written.now).bytes) }
    ensures fits { OnOk result (roots written.now).fits }
{
    out.push(written.as_slice().len() as u8)?;
    put_digests(out, written.as_slice())
}

/// A proof of version 1 behind its tag.
fn put_step(out: &mut Vec<u8>, proof: &StepProof) -> Result<(), AllocError>
    ensures bytes { OnOk result (out.new.items ≡ out.old.items ++ (step_proof proof.now).bytes) }
    ensures fits { OnOk result (step_proof proof.now).fits }
{
    put_digest(out, &proof.mem)?;
    put_registers(out, &proof.regs)?;
    put_control(out, &proof.ctl)?;
    put_flags(out, &proof.fetch, &proof.operand)?;
    put_opening_if(out, &proof.fetch)?;
    put_opening_if(out, &proof.operand)
}

/// A proof of version 2 behind its tag.
fn put_step_2(out: &mut Vec<u8>, proof: &StepProof2) -> Result<(), AllocError>
    ensures bytes { OnOk result (out.new.items ≡ out.old.items ++ (step_proof_2 proof.now).bytes) }
    ensures fits { OnOk result (step_proof_2 proof.now).fits }
{
    put_digest(out, &proof.mem)?;
    put_digest(out, &proof.regs)?;
    put_control(out, &proof.ctl)?;
    put_flags(out, &proof.fetch, &proof.operand)?;
    put_count(out, &proof.named)?;
    put_opening_if(out, &proof.fetch)?;
    put_named(out, &proof.named)?;
    put_opening_if(out, &proof.operand)?;
    Ok(())
}

/// A proof of version 3 behind its tag.
fn put_step_3(out: &mut Vec<u8>, proof: &StepProof3) -> Result<(), AllocError>
    ensures bytes { OnOk result (out.new.items ≡ out.old.items ++ (step_proof_3 proof.now).bytes) }
    ensures fits { OnOk result (step_proof_3 proof.now).fits }
{
    put_digest(out, &proof.mem)?;
    put_word(out, proof.input_len)?;
    put_digest(out, &proof.input_root)?;
    put_digest(out, &proof.regs)?;
    put_control(out, &proof.ctl)?;
    put_flags_3(out, &proof.fetch, &proof.operand, &proof.input)?;
    put_count(out, &proof.named)?;
    put_opening_if(out, &proof.fetch)?;
    put_named(out, &proof.named)?;
    put_opening_if(out, &proof.operand)?;
    put_input_if(out, &proof.input)?;
    Ok(())
}

/// A proof of any version.
fn put_proof(out: &mut Vec<u8>, proof: &Proof) -> Result<(), AllocError>
    ensures bytes { OnOk result (out.new.items ≡ out.old.items ++ (proof_form proof.now).bytes) }
    ensures fits { OnOk result (proof_form proof.now).fits }
{
    match proof {
        Proof::V1(proof) => {
            out.push(STEP_TAG)?;
            put_step(out, proof)
        }
        Proof::V2(proof) => {
            out.push(STEP_2_TAG)?;
            put_step_2(out, proof)
        }
        Proof::V3(proof) => {
            out.push(STEP_3_TAG)?;
            put_step_3(out, proof)
        }
    }
}

/// An answer.
fn put_answer(out: &mut Vec<u8>, answer: &Answer) -> Result<(), AllocError>
    ensures bytes { OnOk result (out.new.items ≡ out.old.items ++ (wire_form answer.now).bytes) }
    ensures fits { OnOk result (wire_form answer.now).fits }
{
    match answer {
        Answer::Claim(claim) => {
            out.push(CLAIM_TAG)?;
            put_claim(out, claim)
        }
        Answer::Root(root) => {
            out.push(ROOT_TAG)?;
            put_digest(out, root)
        }
        Answer::Roots(roots) => {
            out.push(ROOTS_TAG)?;
            put_roots(out, roots)
        }
        Answer::Step(proof) => put_proof(out, proof.get()),
    }
}

/// The bytes of an answer. An `Err` is out of memory.
pub fn encode(alloc: Global, answer: &Answer) -> Result<Vec<u8>, Memory>
    ensures { IfOk result (λ bytes. Spells answer.now bytes.items) }
{
    let mut out = Vec::new(alloc);
    put_answer(&mut out, answer)?;
    Ok(out)
}
