//! Answers of which each field is the least, and of which each is the largest.

use crate::answers::{
    Input, claim, control, digest, input_opening, opening, proof_1, proof_2, proof_3, roots, step,
};
use crate::runs::{Run, is_form};
use rd_base::{Answer, Ctl, Opening, Regs, Status};
use std::alloc::Global;

fn least_control() -> Ctl {
    control(0, Status::Running, 0, 0)
}

/// Whether the least claim has its form.
fn least_claim(alloc: Global) -> bool {
    let least = claim(alloc, 0, 0, least_control(), b"");
    is_form(alloc, least, &[&[(1, 1), (0, 121)]])
}

/// Whether the least list of roots has its form.
fn least_roots(alloc: Global) -> bool {
    let least = roots(alloc, &[digest(0)]);
    is_form(alloc, least, &[&[(5, 1), (1, 1), (0, 32)]])
}

#[test]
fn the_least_claim_and_the_least_list_come_back(rt: HostRuntime) {
    let alloc = rt.alloc();
    let forms = [least_claim(alloc), least_roots(alloc)];
    assert_eq!(rt; forms, [true; 2]);
}

/// Whether the least proof of version 1 has its form.
fn least_1(alloc: Global) -> bool {
    let least = proof_1(0, Regs::new(), least_control(), None, None);
    is_form(alloc, step(alloc, least), &[&[(3, 1), (0, 206)]])
}

/// Whether the least proof of version 2 has its form.
fn least_2(alloc: Global) -> bool {
    let least = proof_2(0, 0, least_control(), None, &[], None);
    is_form(alloc, step(alloc, least), &[&[(4, 1), (0, 115)]])
}

/// Whether the least proof of version 3 has its form.
fn least_3(alloc: Global) -> bool {
    let input = Input {
        len: 0,
        root: 0,
        read: None,
    };
    let least = proof_3(0, input, 0, least_control(), None, &[], None);
    is_form(alloc, step(alloc, least), &[&[(6, 1), (0, 151)]])
}

#[test]
fn the_least_proof_of_each_version_comes_back(rt: HostRuntime) {
    let alloc = rt.alloc();
    let forms = [least_1(alloc), least_2(alloc), least_3(alloc)];
    assert_eq!(rt; forms, [true; 3]);
}

fn largest_control() -> Ctl {
    control(u32::MAX, Status::Trapped(u32::MAX), u64::MAX, 255)
}

fn largest_registers() -> Regs {
    let mut regs = Regs::new();
    for reg in 0..32 {
        regs.set(reg, u32::MAX);
    }
    regs
}

fn largest_opening() -> Option<Opening> {
    Some(opening(255, 255))
}

/// A root, a claim of three bytes, and fifteen roots: the tag; of the claim the bytes in front of the status byte, that byte, then the
/// code, the output's length in the control fields and the chain, the output's length, and the output.
const LARGEST_ROOT: [Run; 2] = [(2, 1), (255, 32)];

const LARGEST_CLAIM: [Run; 7] = [
    (1, 1),
    (255, 68),
    (2, 1),
    (255, 44),
    (3, 1),
    (0, 7),
    (255, 3),
];

const LARGEST_ROOTS: [Run; 3] = [(5, 1), (15, 1), (255, 480)];

/// Whether the root whose bytes are the largest has its form.
fn largest_root(alloc: Global) -> bool {
    is_form(alloc, Some(Answer::Root(digest(255))), &[&LARGEST_ROOT])
}

/// Whether the claim of which each field is the largest, with three bytes of output, has its form.
fn largest_claim(alloc: Global) -> bool {
    let largest = claim(alloc, 255, 255, largest_control(), b"\xff\xff\xff");
    is_form(alloc, largest, &[&LARGEST_CLAIM])
}

/// Whether the largest list of roots has its form.
fn largest_roots(alloc: Global) -> bool {
    is_form(alloc, roots(alloc, &[digest(255); 15]), &[&LARGEST_ROOTS])
}

#[test]
fn the_largest_claim_and_the_largest_list_come_back(rt: HostRuntime) {
    let alloc = rt.alloc();
    let forms = [
        largest_root(alloc),
        largest_claim(alloc),
        largest_roots(alloc),
    ];
    assert_eq!(rt; forms, [true; 3]);
}

/// Proofs of versions 1, 2 and 3: the tag; the bytes in front of the status byte, and that byte; the code, the output's length and the
/// chain; the flags; from version 2 on the count; the openings.
const LARGEST_PROOF: [Run; 6] = [(3, 1), (255, 160), (2, 1), (255, 44), (3, 1), (255, 1792)];

const LARGEST_PROOF_2: [Run; 6] = [(4, 1), (255, 68), (2, 1), (255, 44), (3, 2), (255, 2284)];

const LARGEST_PROOF_3: [Run; 7] = [
    (6, 1),
    (255, 104),
    (2, 1),
    (255, 44),
    (7, 1),
    (3, 1),
    (255, 2796),
];

/// Three registers of which each field is the largest.
const LARGEST_OPENED: [(u32, u8); 3] = [(u32::MAX, 255); 3];

/// Whether the largest proof of version 1 has its form.
fn largest_1(alloc: Global) -> bool {
    let (ctl, both) = (largest_control(), largest_opening());
    let largest = proof_1(255, largest_registers(), ctl, both, both);
    is_form(alloc, step(alloc, largest), &[&LARGEST_PROOF])
}

/// Whether the largest proof of version 2 has its form.
fn largest_2(alloc: Global) -> bool {
    let (ctl, both) = (largest_control(), largest_opening());
    let largest = proof_2(255, 255, ctl, both, &LARGEST_OPENED, both);
    is_form(alloc, step(alloc, largest), &[&LARGEST_PROOF_2])
}

/// Whether the largest proof of version 3 has its form.
fn largest_3(alloc: Global) -> bool {
    let (ctl, both) = (largest_control(), largest_opening());
    let input = Input {
        len: u32::MAX,
        root: 255,
        read: Some(input_opening(255, 255)),
    };
    let largest = proof_3(255, input, 255, ctl, both, &LARGEST_OPENED, both);
    is_form(alloc, step(alloc, largest), &[&LARGEST_PROOF_3])
}

#[test]
fn the_largest_proof_of_each_version_comes_back(rt: HostRuntime) {
    let alloc = rt.alloc();
    let forms = [largest_1(alloc), largest_2(alloc), largest_3(alloc)];
    assert_eq!(rt; forms, [true; 3]);
}
