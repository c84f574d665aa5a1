//! Answers by the values of their fields. Each digest has one byte 32 times.

use rd_base::{
    Answer, Boxed, Claim, ClaimOutput, Ctl, Digest32, InOpening, InPath, Opening, Path, Proof,
    RegOpening, RegOpenings, RegPath, Regs, RootList, Status, StepProof, StepProof2, StepProof3,
};
use std::alloc::Global;

pub(crate) fn digest(byte: u8) -> Digest32 {
    Digest32([byte; 32])
}

/// A chunk of this byte, with one digest as each sibling.
pub(crate) fn opening(chunk: u8, sibling: u8) -> Opening {
    Opening {
        chunk: [chunk; 32],
        path: Path([digest(sibling); 27]),
    }
}

/// A chunk of the input of this byte, with one digest as each sibling.
pub(crate) fn input_opening(chunk: u8, sibling: u8) -> InOpening {
    InOpening {
        chunk: [chunk; 32],
        path: InPath([digest(sibling); 15]),
    }
}

/// The first three of these opened registers, each with its value and one digest as each sibling.
fn named(opened: &[(u32, u8)]) -> RegOpenings {
    let mut named = RegOpenings::new();
    for (value, sibling) in opened {
        if named.as_slice().len() < 3 {
            named.push(RegOpening {
                value: *value,
                path: RegPath([digest(*sibling); 5]),
            });
        }
    }
    named
}

pub(crate) fn control(pc: u32, status: Status, out_len: u64, chain: u8) -> Ctl {
    Ctl {
        pc,
        status,
        out_len,
        chain: digest(chain),
    }
}

/// A claim, unless memory runs out or the output is too long.
pub(crate) fn claim(alloc: Global, mem: u8, regs: u8, ctl: Ctl, output: &[u8]) -> Option<Answer> {
    Some(Answer::Claim(Claim {
        mem: digest(mem),
        regs: digest(regs),
        ctl,
        output: ClaimOutput::new(output.to_vec(alloc).ok()?)?,
    }))
}

/// A list of roots, unless memory runs out, or there is none or too many.
pub(crate) fn roots(alloc: Global, digests: &[Digest32]) -> Option<Answer> {
    Some(Answer::Roots(RootList::new(digests.to_vec(alloc).ok()?)?))
}

/// The answer that gives a proof, unless memory runs out.
pub(crate) fn step(alloc: Global, proof: Proof) -> Option<Answer> {
    Some(Answer::Step(Boxed::new(Box::new(alloc, proof).ok()?)))
}

/// A proof of version 1.
pub(crate) fn proof_1(
    mem: u8,
    regs: Regs,
    ctl: Ctl,
    fetch: Option<Opening>,
    operand: Option<Opening>,
) -> Proof {
    Proof::V1(StepProof {
        mem: digest(mem),
        regs,
        ctl,
        fetch,
        operand,
    })
}

/// A proof of version 2.
pub(crate) fn proof_2(
    mem: u8,
    regs: u8,
    ctl: Ctl,
    fetch: Option<Opening>,
    opened: &[(u32, u8)],
    operand: Option<Opening>,
) -> Proof {
    Proof::V2(StepProof2 {
        mem: digest(mem),
        regs: digest(regs),
        ctl,
        fetch,
        named: named(opened),
        operand,
    })
}

/// What a proof of version 3 holds of the input: its length, its root, and the chunk that is read.
#[derive(Clone, Copy)]
pub(crate) struct Input {
    pub(crate) len: u32,
    pub(crate) root: u8,
    pub(crate) read: Option<InOpening>,
}

/// A proof of version 3.
pub(crate) fn proof_3(
    mem: u8,
    input: Input,
    regs: u8,
    ctl: Ctl,
    fetch: Option<Opening>,
    opened: &[(u32, u8)],
    operand: Option<Opening>,
) -> Proof {
    Proof::V3(StepProof3 {
        mem: digest(mem),
        input_len: input.len,
        input_root: digest(input.root),
        regs: digest(regs),
        ctl,
        fetch,
        named: named(opened),
        operand,
        input: input.read,
    })
}
