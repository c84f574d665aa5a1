//! Rows of the collisions of two proofs, by the digest function with one value, which finds them in any two different strings.
use crate::strings::{ONE_VALUE, pair};
use crate::words::{digest, numbers_of};
use digest_core::Digester;
use open_proof::step_collision;
use rd_base::{
    Ctl, Digest32, InOpening, InPath, Opening, Path, Proof, RegOpening, RegOpenings, RegPath, Regs,
    Status, StepProof, StepProof2, StepProof3,
};
use std::alloc::Global;
use toy_rows::{Unanswered, number, word};

/// A chunk with this word at its start.
fn chunk_of(word: [u8; 4]) -> [u8; 32] {
    let [a, b, c, e] = word;
    let mut chunk = [0; 32];
    chunk[0] = a;
    chunk[1] = b;
    chunk[2] = c;
    chunk[3] = e;
    chunk
}

/// A chunk with this word at its start, and a path of digests that all are this byte, but for one at level 3.
fn opening(word: [u8; 4], byte: u8, at_3: u8) -> Opening {
    let mut siblings = [Digest32([byte; 32]); 27];
    siblings[3] = Digest32([at_3; 32]);
    Opening {
        chunk: chunk_of(word),
        path: Path(siblings),
    }
}

/// The control fields of a machine at address 0, with this length of its output.
fn control(out_len: u64) -> Ctl {
    Ctl {
        pc: 0,
        status: Status::Running,
        out_len,
        chain: Digest32::ZERO,
    }
}

/// A proof of a step that carries out `lw x10, 0(x5)`, which opens every root by the digest function with one value: what `x5` holds, the
/// control fields' output length, the fetched chunk's sibling at level 3, the first byte of the data.
fn whole(x5: u32, out_len: u32, sibling: u8, byte: u8) -> Proof {
    let mut regs = Regs::new();
    regs.set(5, x5);
    Proof::V1(StepProof {
        mem: ONE_VALUE.digest(&[]),
        regs,
        ctl: control(u64::from(out_len)),
        fetch: Some(opening([0x03, 0xa5, 0x02, 0x00], 7, sibling)),
        operand: Some(opening([byte, 0, 0, 0], 8, 8)),
    })
}

/// An opened register, all of whose siblings are this byte, but for one at level 1.
fn register(value: u32, byte: u8, at_1: u8) -> RegOpening {
    let mut siblings = [Digest32([byte; 32]); 5];
    siblings[1] = Digest32([at_1; 32]);
    RegOpening {
        value,
        path: RegPath(siblings),
    }
}

/// Two opened registers.
fn registers(first: RegOpening, second: RegOpening) -> RegOpenings {
    let mut named = RegOpenings::new();
    named.push(first);
    named.push(second);
    named
}

/// The same step in version 2: what `x5` holds, its sibling at level 1, the first byte of the data.
fn opened(x5: u32, sibling: u8, byte: u8) -> Proof {
    Proof::V2(StepProof2 {
        mem: ONE_VALUE.digest(&[]),
        regs: ONE_VALUE.digest(&[]),
        ctl: control(0),
        fetch: Some(opening([0x03, 0xa5, 0x02, 0x00], 7, 7)),
        named: registers(register(x5, 5, sibling), register(0, 6, 6)),
        operand: Some(opening([byte, 0, 0, 0], 8, 8)),
    })
}

/// A proof of version 3 of a step that carries out `ecall`, which reads byte 0 of the input: the input's length, what `x17` holds, the
/// byte.
fn reading(input_len: u32, x17: u32, byte: u8) -> Proof {
    Proof::V3(StepProof3 {
        mem: ONE_VALUE.digest(&[]),
        input_len,
        input_root: ONE_VALUE.digest(&[]),
        regs: ONE_VALUE.digest(&[]),
        ctl: control(0),
        fetch: Some(opening([0x73, 0x00, 0x00, 0x00], 7, 7)),
        named: registers(register(x17, 5, 5), register(0, 6, 6)),
        operand: None,
        input: Some(InOpening {
            chunk: chunk_of([byte, 0, 0, 0]),
            path: InPath([Digest32([9; 32]); 15]),
        }),
    })
}

/// A number as a byte.
fn byte_of(number: u32) -> Result<u8, Unanswered> {
    u8::try_from(number).or(Err(Unanswered::NoRow))
}

/// The proof that the word at a place writes: its version, and the numbers of a proof of this version.
fn proof(alloc: Global, words: &[&str], at: usize) -> Result<Proof, Unanswered> {
    let numbers = numbers_of(alloc, word(words, at)?)?;
    match numbers.as_slice() {
        [1, x5, out_len, sibling, byte] => {
            Ok(whole(*x5, *out_len, byte_of(*sibling)?, byte_of(*byte)?))
        }
        [2, x5, sibling, byte] => Ok(opened(*x5, byte_of(*sibling)?, byte_of(*byte)?)),
        [3, input_len, x17, byte] => Ok(reading(*input_len, *x17, byte_of(*byte)?)),
        _ => Err(Unanswered::NoRow),
    }
}

/// `steps_collide VERSION ROOT PROOF PROOF`: the strings of two proofs from a root, or from the one digest, that collide.
pub fn steps_collide(alloc: Global, words: &[&str]) -> Result<String, Unanswered> {
    let version = number(words, 1)?;
    let root = match word(words, 2)? {
        "one" => ONE_VALUE.digest(&[]),
        _ => digest(alloc, words, 2)?,
    };
    let first = proof(alloc, words, 3)?;
    let second = proof(alloc, words, 4)?;
    pair(
        alloc,
        step_collision(ONE_VALUE, version, root, &first, &second),
    )
}
