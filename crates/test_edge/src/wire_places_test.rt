//! Answers of which each field differs from the others, so that its place shows.

use crate::answers::{
    Input, claim, control, digest, input_opening, opening, proof_1, proof_2, proof_3, roots, step,
};
use crate::runs::{Run, are_of_size, is_form};
use rd_base::{Answer, Ctl, Digest32, InOpening, Opening, Regs, Status};
use std::alloc::Global;

/// Control fields whose bytes, but for the chain's, are 1 to 16, with 1 for the status.
fn control_in_order() -> Ctl {
    control(
        0x0403_0201,
        Status::Exited(0x0807_0605),
        0x100f_0e0d_0c0b_0a09,
        17,
    )
}

const CONTROL_IN_ORDER: [Run; 18] = [
    (1, 1),
    (2, 1),
    (3, 1),
    (4, 1),
    (1, 1),
    (5, 1),
    (6, 1),
    (7, 1),
    (8, 1),
    (9, 1),
    (10, 1),
    (11, 1),
    (12, 1),
    (13, 1),
    (14, 1),
    (15, 1),
    (16, 1),
    (17, 32),
];

/// Whether each field of a claim stands in its place.
fn is_in_place(alloc: Global) -> bool {
    is_form(
        alloc,
        claim(alloc, 18, 19, control_in_order(), b"+-"),
        &[
            &[(1, 1), (18, 32), (19, 32)],
            &CONTROL_IN_ORDER,
            &[(2, 1), (0, 7), (43, 1), (45, 1)],
        ],
    )
}

#[test]
fn each_field_of_a_claim_stands_in_its_place(rt: HostRuntime) {
    assert!(rt; is_in_place(rt.alloc()));
}

/// Whether three roots stand in their order.
fn are_in_order(alloc: Global) -> bool {
    is_form(
        alloc,
        roots(alloc, &[digest(1), digest(2), digest(3)]),
        &[&[(5, 1), (3, 1), (1, 32), (2, 32), (3, 32)]],
    )
}

#[test]
fn roots_stand_in_their_order(rt: HostRuntime) {
    assert!(rt; are_in_order(rt.alloc()));
}

/// Registers of which each holds its number.
fn registers_in_order() -> Regs {
    let mut regs = Regs::new();
    for reg in 1..32 {
        regs.set(reg, u32::from(reg));
    }
    regs
}

/// Their bytes.
fn runs_of_registers() -> [Run; 62] {
    let mut runs = [(0, 3); 62];
    for (place, run) in runs.iter_mut().enumerate() {
        if place % 2 == 0 {
            *run = ((place / 2 + 1) as u8, 1);
        }
    }
    runs
}

/// Makes the siblings the digests of a byte, of the next one and so on.
fn number(siblings: &mut [Digest32], first: u8) {
    let mut byte = first;
    for sibling in siblings {
        *sibling = digest(byte);
        byte = byte.wrapping_add(1);
    }
}

/// The bytes of such siblings.
fn runs_of_siblings<const N: usize>(first: u8) -> [Run; N] {
    let mut runs = [(0, 32); N];
    let mut byte = first;
    for run in runs.iter_mut() {
        *run = (byte, 32);
        byte = byte.wrapping_add(1);
    }
    runs
}

/// A chunk of bytes 20 with the siblings 100, 101 and so on.
fn opening_in_order() -> Opening {
    let mut opened = opening(20, 0);
    number(&mut opened.path.0, 100);
    opened
}

/// The bytes of the other opened chunk, `opening(21, 22)`.
const OPERAND: [Run; 2] = [(21, 32), (22, 864)];

/// The runs of what is there, and else none.
fn there(is_there: bool, runs: &[Run]) -> &[Run] {
    if is_there { runs } else { &[] }
}

/// Whether a proof of version 1 that opens these chunks has these flags, and each field in its place.
fn is_in_place_1(alloc: Global, flags: u8, is_fetched: bool, is_loaded: bool) -> bool {
    let fetch = is_fetched.then_some(opening_in_order());
    let operand = is_loaded.then_some(opening(21, 22));
    let proof = proof_1(18, registers_in_order(), control_in_order(), fetch, operand);
    is_form(
        alloc,
        step(alloc, proof),
        &[
            &[(3, 1), (18, 32)],
            &runs_of_registers(),
            &CONTROL_IN_ORDER,
            &[(flags, 1)],
            there(is_fetched, &[(20, 32)]),
            there(is_fetched, &runs_of_siblings::<27>(100)),
            there(is_loaded, &OPERAND),
        ],
    )
}

#[test]
fn each_field_of_a_proof_stands_in_its_place(rt: HostRuntime) {
    let alloc = rt.alloc();
    let in_place = [
        is_in_place_1(alloc, 1, true, false),
        is_in_place_1(alloc, 2, false, true),
        is_in_place_1(alloc, 3, true, true),
    ];
    assert_eq!(rt; in_place, [true; 3]);
}

/// The bytes of registers of values 1, 2 and 3 with siblings 31, 32 and 33: of the first, of the first two, and of all.
const FIRST_REGISTER: [Run; 3] = [(1, 1), (0, 3), (31, 160)];

const TWO_REGISTERS: [Run; 6] = [(1, 1), (0, 3), (31, 160), (2, 1), (0, 3), (32, 160)];

const THREE_REGISTERS: [Run; 9] = [
    (1, 1),
    (0, 3),
    (31, 160),
    (2, 1),
    (0, 3),
    (32, 160),
    (3, 1),
    (0, 3),
    (33, 160),
];

/// A proof of version 2 that opens two chunks and these registers.
fn with_registers(alloc: Global, opened: &[(u32, u8)]) -> Option<Answer> {
    let (fetch, operand) = (Some(opening_in_order()), Some(opening(21, 22)));
    step(
        alloc,
        proof_2(18, 19, control_in_order(), fetch, opened, operand),
    )
}

/// Whether such a proof has this many bytes, this count of registers, these bytes of them, and each field in its place.
fn is_in_place_2(
    alloc: Global,
    size: usize,
    opened: &[(u32, u8)],
    count: u8,
    registers: &[Run],
) -> bool {
    let siblings = runs_of_siblings::<27>(100);
    let parts: [&[Run]; 6] = [
        &[(4, 1), (18, 32), (19, 32)],
        &CONTROL_IN_ORDER,
        &[(3, 1), (count, 1), (20, 32)],
        &siblings,
        registers,
        &OPERAND,
    ];
    is_form(alloc, with_registers(alloc, opened), &parts) & are_of_size(alloc, size, &parts)
}

/// Among the proofs is one of version 2 that stores: 2,236 bytes with two chunks and two registers.
#[test]
fn each_field_of_a_proof_of_version_2_stands_in_its_place(rt: HostRuntime) {
    let alloc = rt.alloc();
    let in_place = [
        is_in_place_2(alloc, 1908, &[], 0, &[]),
        is_in_place_2(alloc, 2072, &[(1, 31)], 1, &FIRST_REGISTER),
        is_in_place_2(alloc, 2236, &[(1, 31), (2, 32)], 2, &TWO_REGISTERS),
        is_in_place_2(
            alloc,
            2400,
            &[(1, 31), (2, 32), (3, 33)],
            3,
            &THREE_REGISTERS,
        ),
    ];
    assert_eq!(rt; in_place, [true; 4]);
}

/// An input chunk of bytes 23 with the siblings 150, 151 and so on.
fn input_in_order() -> InOpening {
    let mut opened = input_opening(23, 0);
    number(&mut opened.path.0, 150);
    opened
}

/// The bytes in front of the control fields: the tag, the digest of memory, the length and the root of the input, the registers' root.
const FRONT_OF_VERSION_3: [Run; 8] = [
    (6, 1),
    (18, 32),
    (17, 1),
    (18, 1),
    (19, 1),
    (20, 1),
    (24, 32),
    (19, 32),
];

/// A proof of version 3 with two registers that reads the input, and opens this data.
fn reading(alloc: Global, operand: Option<Opening>) -> Option<Answer> {
    let input = Input {
        len: 0x1413_1211,
        root: 24,
        read: Some(input_in_order()),
    };
    let (ctl, fetch) = (control_in_order(), Some(opening(25, 26)));
    let opened = [(1, 31), (2, 32)];
    step(alloc, proof_3(18, input, 19, ctl, fetch, &opened, operand))
}

/// Whether such a proof, which opens data or not, has this many bytes, these flags, and each field in its place.
fn is_in_place_3(alloc: Global, size: usize, flags: u8, is_loaded: bool) -> bool {
    let siblings = runs_of_siblings::<15>(150);
    let parts: [&[Run]; 7] = [
        &FRONT_OF_VERSION_3,
        &CONTROL_IN_ORDER,
        &[(flags, 1), (2, 1), (25, 32), (26, 864)],
        &TWO_REGISTERS,
        there(is_loaded, &OPERAND),
        &[(23, 32)],
        &siblings,
    ];
    let operand = is_loaded.then_some(opening(21, 22));
    is_form(alloc, reading(alloc, operand), &parts) & are_of_size(alloc, size, &parts)
}

/// Among the proofs is one of version 3 that reads the input: 1,888 bytes with flags 5 and two registers.
#[test]
fn each_field_of_a_proof_of_version_3_stands_in_its_place(rt: HostRuntime) {
    let alloc = rt.alloc();
    let in_place = [
        is_in_place_3(alloc, 1888, 5, false),
        is_in_place_3(alloc, 2784, 7, true),
    ];
    assert_eq!(rt; in_place, [true; 2]);
}
