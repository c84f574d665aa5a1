//! Answers from their bytes.
ghost use Rattle.std.specs.Prelude.{◌≡◌, ◌≤◌, ◌==◌, length, Ok, Err, IfOk, if◌then◌else◌};
ghost use Rattle.rd_base.specs.Results.{Gives};
ghost use Rattle.rd_base.specs.declared.answer.Answer.{Answer};
ghost use Rattle.rd_base.specs.declared.answer.Answer.TheVariants.{Step};
ghost use Rattle.rd_base.specs.declared.proof.Proof.{Proof};
ghost use Rattle.proof_wire.specs.declared.fault.WireFault.TheVariants.{Memory, TrailingBytes};
ghost use Rattle.proof_wire.specs.Wire.{Spells};
ghost use Rattle.proof_wire.specs.Reading.{IsExactly, digest_ahead, each_ahead, output_ahead, claim_ahead, root_count, roots_ahead, step_proof_ahead, step_proof_2_ahead, step_proof_3_ahead, answer_ahead, answer_in, step_in};

use crate::fault::WireFault;
use crate::fields::{
    is_set, read_byte, read_control, read_digest, read_double_word, read_input_if, read_named,
    read_opening_if, read_registers, read_word, within,
};
use crate::layout::{
    CLAIM_FIXED_BYTES, CLAIM_TAG, DIGEST_BYTES, FETCH, INPUT, MOST_FLAGS, MOST_FLAGS_3,
    MOST_REGISTERS, MOST_ROOTS, OPERAND, ROOT_TAG, ROOTS_TAG, STEP_2_FIXED_BYTES, STEP_2_TAG,
    STEP_3_FIXED_BYTES, STEP_3_TAG, STEP_FIXED_BYTES, STEP_TAG,
};
use rd_base::{
    Answer, Boxed, Claim, ClaimOutput, Digest32, MAX_OUTPUT_BYTES, Proof, RootList, StepProof,
    StepProof2, StepProof3,
};
use std::alloc::Global;

/// A claim's output of this many bytes, and the bytes behind it.
fn read_output(alloc: Global, size: u64, bytes: &[u8]) -> Result<(ClaimOutput, &[u8]), WireFault>
    ensures { Gives Memory (λ x. (x.0, x.1.now)) result (output_ahead size bytes.now) }
{
    if size > MAX_OUTPUT_BYTES as u64 {
        return Err(WireFault::BadLength);
    }
    let size = size as usize;
    if bytes.len() < size {
        return Err(WireFault::Short);
    }
    let (output, rest) = bytes.split_at(size);
    let output = ClaimOutput::new(Vec::from_slice(alloc, output)?).unwrap();
    Ok((output, rest))
}

/// A claim behind its tag, and the bytes behind it.
#[tactic(auto, unfolding(crate::specs::Reading::claim_ahead))]
fn read_claim(alloc: Global, bytes: &[u8]) -> Result<(Claim, &[u8]), WireFault>
    ensures { Gives Memory (λ x. (x.0, x.1.now)) result (claim_ahead bytes.now) }
{
    if bytes.len() < CLAIM_FIXED_BYTES {
        return Err(WireFault::Short);
    }
    let (mem, rest) = read_digest(bytes);
    let (regs, rest) = read_digest(rest);
    let (ctl, rest) = read_control(rest)?;
    let (size, rest) = read_double_word(rest);
    let (output, rest) = read_output(alloc, size, rest)?;
    let claim = Claim {
        mem,
        regs,
        ctl,
        output,
    };
    Ok((claim, rest))
}

/// A root behind its tag, and the bytes behind it.
#[tactic(auto, unfolding(crate::specs::Reading::digest_ahead))]
fn read_root(bytes: &[u8]) -> Result<(Digest32, &[u8]), WireFault>
    ensures { IsExactly (λ x. (x.0, x.1.now)) result (digest_ahead bytes.now) }
{
    if bytes.len() < DIGEST_BYTES {
        return Err(WireFault::Short);
    }
    Ok(read_digest(bytes))
}

/// How many roots there are: 1 to 15. `BadTag` comes if and only if it is another number.
fn count_of_roots(number: u8) -> Result<u8, WireFault>
    ensures read { result ≡ root_count number }
    ensures range { IfOk result (λ count. (1 ≤ count) × (count ≤ 15)) }
{
    if number == 0 {
        return Err(WireFault::BadTag);
    }
    within(MOST_ROOTS, number)
}

/// This many digests.
fn read_digests(alloc: Global, count: u8, bytes: &[u8]) -> Result<(Vec<Digest32>, &[u8]), WireFault>
    ensures read { Gives Memory (λ x. (x.0.items, x.1.now)) result (each_ahead digest_ahead count bytes.now) }
    ensures number { IfOk result (λ x. length x.0.items ≡ count) }
{
    let mut digests = Vec::new(alloc);
    let mut rest = bytes;
    for _ in 0..count {
        let (digest, after) = match read_root(rest) {
            Ok(read) => read,
            Err(fault) => return Err(fault),
        };
        digests.push(digest)?;
        rest = after;
    }
    Ok((digests, rest))
}

/// Several roots behind their tag, and the bytes behind them.
#[tactic(auto, unfolding(crate::specs::Reading::roots_ahead, crate::specs::Reading::byte_ahead))]
fn read_roots(alloc: Global, bytes: &[u8]) -> Result<(RootList, &[u8]), WireFault>
    ensures { Gives Memory (λ x. (x.0, x.1.now)) result (roots_ahead bytes.now) }
{
    match bytes {
        [] => Err(WireFault::Short),
        [number, rest @ ..] => {
            let count = count_of_roots(*number)?;
            let (digests, rest) = read_digests(alloc, count, rest)?;
            let roots = RootList::new(digests).unwrap();
            Ok((roots, rest))
        }
    }
}

/// A proof of version 1 behind its tag, and the bytes behind it.
#[tactic(auto, unfolding(crate::specs::Reading::step_proof_ahead))]
fn read_step(bytes: &[u8]) -> Result<(StepProof, &[u8]), WireFault>
    ensures { IsExactly (λ x. (x.0, x.1.now)) result (step_proof_ahead bytes.now) }
{
    if bytes.len() < STEP_FIXED_BYTES {
        return Err(WireFault::Short);
    }
    let (mem, rest) = read_digest(bytes);
    let (regs, rest) = read_registers(rest);
    let (ctl, rest) = read_control(rest)?;
    let (flags, rest) = read_byte(rest);
    let flags = within(MOST_FLAGS, flags)?;
    let (fetch, rest) = read_opening_if(is_set(FETCH, flags), rest)?;
    let (operand, rest) = read_opening_if(is_set(OPERAND, flags), rest)?;
    let proof = StepProof {
        mem,
        regs,
        ctl,
        fetch,
        operand,
    };
    Ok((proof, rest))
}

/// A proof of version 2 behind its tag, and the bytes behind it.
#[tactic(auto, unfolding(crate::specs::Reading::step_proof_2_ahead))]
fn read_step_2(bytes: &[u8]) -> Result<(StepProof2, &[u8]), WireFault>
    ensures { IsExactly (λ x. (x.0, x.1.now)) result (step_proof_2_ahead bytes.now) }
{
    if bytes.len() < STEP_2_FIXED_BYTES {
        return Err(WireFault::Short);
    }
    let (mem, rest) = read_digest(bytes);
    let (regs, rest) = read_digest(rest);
    let (ctl, rest) = read_control(rest)?;
    let (flags, rest) = read_byte(rest);
    let (count, rest) = read_byte(rest);
    let flags = within(MOST_FLAGS, flags)?;
    let count = within(MOST_REGISTERS, count)?;
    let (fetch, rest) = read_opening_if(is_set(FETCH, flags), rest)?;
    let (named, rest) = read_named(count, rest)?;
    let (operand, rest) = read_opening_if(is_set(OPERAND, flags), rest)?;
    let proof = StepProof2 {
        mem,
        regs,
        ctl,
        fetch,
        named,
        operand,
    };
    Ok((proof, rest))
}

/// A proof of version 3 behind its tag, and the bytes behind it.
#[tactic(auto, unfolding(crate::specs::Reading::step_proof_3_ahead))]
fn read_step_3(bytes: &[u8]) -> Result<(StepProof3, &[u8]), WireFault>
    ensures { IsExactly (λ x. (x.0, x.1.now)) result (step_proof_3_ahead bytes.now) }
{
    if bytes.len() < STEP_3_FIXED_BYTES {
        return Err(WireFault::Short);
    }
    let (mem, rest) = read_digest(bytes);
    let (input_len, rest) = read_word(rest);
    let (input_root, rest) = read_digest(rest);
    let (regs, rest) = read_digest(rest);
    let (ctl, rest) = read_control(rest)?;
    let (flags, rest) = read_byte(rest);
    let (count, rest) = read_byte(rest);
    let flags = within(MOST_FLAGS_3, flags)?;
    let count = within(MOST_REGISTERS, count)?;
    let (fetch, rest) = read_opening_if(is_set(FETCH, flags), rest)?;
    let (named, rest) = read_named(count, rest)?;
    let (operand, rest) = read_opening_if(is_set(OPERAND, flags), rest)?;
    let (input, rest) = read_input_if(is_set(INPUT, flags), rest)?;
    let proof = StepProof3 {
        mem,
        input_len,
        input_root,
        regs,
        ctl,
        fetch,
        named,
        operand,
        input,
    };
    Ok((proof, rest))
}

/// The answer that gives this proof. An `Err` is `Memory`.
fn step_answer(alloc: Global, proof: Proof) -> Result<Answer, WireFault>
    ensures { Gives Memory (λ answer. answer) result (Ok (Step proof)) }
{
    Ok(Answer::Step(Boxed::new(Box::new(alloc, proof)?)))
}

/// An answer, and the bytes behind it.
#[tactic(auto, unfolding(crate::specs::Reading::answer_ahead))]
fn read_answer(alloc: Global, bytes: &[u8]) -> Result<(Answer, &[u8]), WireFault>
    ensures { Gives Memory (λ x. (x.0, x.1.now)) result (answer_ahead bytes.now) }
{
    match bytes {
        [] => Err(WireFault::Short),
        [CLAIM_TAG, rest @ ..] => {
            let (claim, rest) = read_claim(alloc, rest)?;
            Ok((Answer::Claim(claim), rest))
        }
        [ROOT_TAG, rest @ ..] => {
            let (root, rest) = read_root(rest)?;
            Ok((Answer::Root(root), rest))
        }
        [STEP_TAG, rest @ ..] => match read_step(rest) {
            Ok((proof, rest)) => Ok((step_answer(alloc, Proof::V1(proof))?, rest)),
            Err(fault) => Err(fault),
        },
        [STEP_2_TAG, rest @ ..] => match read_step_2(rest) {
            Ok((proof, rest)) => Ok((step_answer(alloc, Proof::V2(proof))?, rest)),
            Err(fault) => Err(fault),
        },
        [ROOTS_TAG, rest @ ..] => {
            let (roots, rest) = read_roots(alloc, rest)?;
            Ok((Answer::Roots(roots), rest))
        }
        [STEP_3_TAG, rest @ ..] => match read_step_3(rest) {
            Ok((proof, rest)) => Ok((step_answer(alloc, Proof::V3(proof))?, rest)),
            Err(fault) => Err(fault),
        },
        [_, ..] => Err(WireFault::BadTag),
    }
}

/// An answer, and nothing behind it.
#[tactic(auto, unfolding(crate::specs::Reading::answer_in))]
fn read_whole(alloc: Global, bytes: &[u8]) -> Result<Answer, WireFault>
    ensures { Gives Memory (λ answer. answer) result (answer_in bytes.now) }
{
    let (answer, rest) = read_answer(alloc, bytes)?;
    if !rest.is_empty() {
        return Err(WireFault::TrailingBytes);
    }
    Ok(answer)
}

/// The answer with these bytes.
///
/// An `Err` is the first rule that the bytes break, tested in this order: there is a byte (`Short`); it is a tag (`BadTag`); the fixed part
/// of the answer is whole, with the tag 122 bytes of a claim, 33 of a root, 207, 116 and 152 of a proof of version 1, 2 and 3, and 2 of
/// several roots (`Short`); the status byte is at most 2, and the code of a machine that runs is 0 (`BadStatus`); the flags of a proof are
/// at most 3, of version 3 at most 7, the count of its registers is at most 3, and the count of roots is 1 to 15 (`BadTag`); the length of
/// a claim's output is at most 4,294,967,295 (`BadLength`); the output, the openings or the roots are whole (`Short`); no byte follows them
/// (`TrailingBytes`). `Memory` comes if memory ran out, and may come in place of any other answer.
pub fn decode(alloc: Global, bytes: &[u8]) -> Result<Answer, WireFault>
    // What is read has these bytes.
    ensures found { IfOk result (λ answer. Spells answer bytes.now) }
    // What has these bytes is read, unless memory runs out.
    ensures only { (answer : Answer) → Spells answer bytes.now → Gives Memory (λ read. read) result (Ok answer) }
    // A fault comes if and only if it is the first, unless memory runs out.
    ensures exact { Gives Memory (λ answer. answer) result (answer_in bytes.now) }
{
    read_whole(alloc, bytes)
}

/// A proof, if no bytes follow it. `TrailingBytes` comes if and only if some do.
fn alone(proof: Proof, rest: &[u8]) -> Result<Proof, WireFault>
    ensures { result ≡ (if length rest.now == 0 then Ok proof else Err TrailingBytes) }
{
    if !rest.is_empty() {
        return Err(WireFault::TrailingBytes);
    }
    Ok(proof)
}

/// A step, and nothing behind it.
#[tactic(auto, unfolding(crate::specs::Reading::answer_in, crate::specs::Reading::answer_ahead))]
fn read_whole_step(bytes: &[u8]) -> Result<Proof, WireFault>
    ensures { result ≡ step_in bytes.now }
{
    match bytes {
        [] => Err(WireFault::Short),
        [STEP_TAG, rest @ ..] => match read_step(rest) {
            Ok((proof, rest)) => alone(Proof::V1(proof), rest),
            Err(fault) => Err(fault),
        },
        [STEP_2_TAG, rest @ ..] => match read_step_2(rest) {
            Ok((proof, rest)) => alone(Proof::V2(proof), rest),
            Err(fault) => Err(fault),
        },
        [STEP_3_TAG, rest @ ..] => match read_step_3(rest) {
            Ok((proof, rest)) => alone(Proof::V3(proof), rest),
            Err(fault) => Err(fault),
        },
        [_, ..] => Err(WireFault::BadTag),
    }
}

/// The proof of one step that these bytes spell, as `decode` reads it. It takes no memory.
///
/// An `Err` is the fault of `decode`, or `BadTag` of bytes that begin with another answer's tag; it is never `Memory`.
pub fn decode_step(bytes: &[u8]) -> Result<Proof, WireFault>
    // What is read has these bytes.
    ensures found { IfOk result (λ proof. Spells (Step proof) bytes.now) }
    // What has these bytes is read.
    ensures only { (proof : Proof) → Spells (Step proof) bytes.now → result ≡ Ok proof }
    // It is the step that `decode` reads, or its fault.
    ensures exact { result ≡ step_in bytes.now }
{
    read_whole_step(bytes)
}
