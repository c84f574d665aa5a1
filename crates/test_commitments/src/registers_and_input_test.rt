//! The trees of registers and of the input, of `mem_tree`, and the digest of registers in each version, of `state_commit`.

use crate::nodes_test::climbs;
use digest_core::{Sha256, leaf_text, register_text};
use mem_tree::{InputTree, RegTree, input_chunk, input_root};
use rd_base::Regs;
use state_commit::{KeptRegisters, registers_digest};
use std::alloc::Global;
use std::test::Fail;
use toy_machine::first_eight;

/// Register r holds the byte r, four times.
pub(crate) fn bytes_of_numbers() -> Regs {
    let mut regs = Regs::new();
    for reg in 1..32u8 {
        regs.set(reg, u32::from_le_bytes([reg; 4]));
    }
    regs
}

/// A register holds a value, and the others 0.
pub(crate) fn one_register(reg: u8, value: u32) -> Regs {
    let mut regs = Regs::new();
    if reg < 32 {
        regs.set(reg, value);
    }
    regs
}

/// Whether registers have these digests, by their first eight bytes, in version 1 and above it: also if they are kept after others, and
/// by the tree of registers, made of them or of others before.
fn have_digests(regs: Regs, one: u64, two: u64) -> bool {
    let mut tree = RegTree::new(Sha256, &bytes_of_numbers());
    tree.refresh(&one_register(31, 5));
    tree.refresh(&regs);
    first_eight(RegTree::new(Sha256, &regs).root()) == two
        && first_eight(tree.root()) == two
        && has_digest(1, regs, one)
        && has_digest(2, regs, two)
        && has_digest(3, regs, two)
}

/// Whether registers have this digest in a version, from scratch and kept after others.
fn has_digest(version: u32, regs: Regs, want: u64) -> bool {
    let mut kept = KeptRegisters::new(Sha256, version, &one_register(5, 1));
    first_eight(registers_digest(Sha256, version, &regs)) == want
        && first_eight(kept.digest(&regs)) == want
}

/// Computed in Python, with `from hashlib import sha256`; in version 1 the digest of the registers' string, and above it their root by
///
/// ```python
///     def root(strings):
///         level = [sha256(string).digest() for string in strings]
///         while len(level) > 1:
///             pairs = zip(level[0::2], level[1::2])
///             level = [sha256(b'\1' + left + right).digest() for left, right in pairs]
///         return level[0].hex()[:16]
///     print(root([b'\7' + value.to_bytes(4, 'little') for value in registers]))
///     print(sha256(b'\2' + b''.join(value.to_bytes(4, 'little') for value in registers)).hexdigest()[:16])
/// ```
#[test]
fn registers_have_one_digest_in_version_1_and_a_root_above(rt: HostRuntime) {
    let have = [
        have_digests(Regs::new(), 0x7557_dabb_7a5e_b2da, 0x16ad_b9d5_8128_5947),
        have_digests(
            one_register(1, 1),
            0xe20b_d74d_b843_75ec,
            0x541c_06a8_d4b3_cfd0,
        ),
        have_digests(
            one_register(31, 0xffff_ffff),
            0x0e2b_e121_a480_ebc6,
            0xa83d_f148_78f6_3ad8,
        ),
        have_digests(
            bytes_of_numbers(),
            0x0b67_e67c_7f6f_6dbe,
            0x5f33_9388_ea37_05d7,
        ),
    ];
    assert_eq!(rt; have, [true; 4]);
}

/// The first of these registers whose path doesn't climb to the root.
fn first_lost_register(regs: &Regs, numbers: &[u8]) -> Option<u8> {
    let tree = RegTree::new(Sha256, regs);
    for number in numbers {
        let reg = *number % 32;
        let leaf = register_text(regs.get(reg));
        if !climbs(u32::from(reg), &leaf, &tree.path(reg).0, tree.root()) {
            return Some(reg);
        }
    }
    None
}

#[test]
fn a_path_of_a_register_climbs_to_the_root(rt: HostRuntime) {
    let lost = first_lost_register(&bytes_of_numbers(), &[0, 1, 10, 30, 31]);
    assert_eq!(rt; lost, None);
}

/// The bytes 0 to 250, again and again.
fn input_of(alloc: Global, len: usize) -> Result<Vec<u8>, Fail> {
    let mut input = Vec::new(alloc);
    for i in 0..len {
        input.push((i % 251) as u8)?;
    }
    Ok(input)
}

/// The first eight bytes of the root of such an input.
fn root_of(alloc: Global, len: usize) -> Result<u64, Fail> {
    Ok(first_eight(input_root(Sha256, &input_of(alloc, len)?)))
}

/// Lengths of inputs, and their roots, by
///
/// ```python
///     given = bytes(i % 251 for i in range(length))
///     padded = given + bytes(2**20 - length)
///     print(root([b'\0' + padded[32 * k : 32 * k + 32] for k in range(2**15)]))
/// ```
const INPUT_ROOTS: [(usize, u64); 5] = [
    (0, 0x63e8_7940_e6ad_90bd),
    // one zero more, so that the length is needed beside the root
    (1, 0x63e8_7940_e6ad_90bd),
    (32, 0xbcdc_ceba_a0b5_6695),
    (33, 0x1b36_3ba1_efd8_35bc),
    (1000, 0x6f26_9391_ecd1_7adb),
];

/// The first of these lengths whose input has another root.
fn first_other_root(alloc: Global, rows: &[(usize, u64)]) -> Result<Option<usize>, Fail> {
    for (len, want) in rows {
        if root_of(alloc, *len)? != *want {
            return Ok(Some(*len));
        }
    }
    Ok(None)
}

#[test]
fn the_root_of_an_input_is_that_of_another_program(rt: HostRuntime) -> Result<(), Fail> {
    assert_eq!(rt; first_other_root(rt.alloc(), &INPUT_ROOTS)?, None);
    Ok(())
}

/// The first of these chunks of an input whose path doesn't climb to the root.
fn first_lost_chunk(tree: &InputTree<Sha256>, input: &[u8], chunks: &[u32]) -> Option<u32> {
    for chunk in chunks {
        let chunk = *chunk % 32_768;
        let leaf = leaf_text(&input_chunk(input, chunk as usize));
        if !climbs(chunk, &leaf, &tree.path(chunk).0, input_root(Sha256, input)) {
            return Some(chunk);
        }
    }
    None
}

/// The whole chunk, the one that the input ends in, and two behind its end.
#[test]
fn a_path_of_an_input_climbs_to_the_root(rt: HostRuntime) -> Result<(), Fail> {
    let input = input_of(rt.alloc(), 33)?;
    let tree = InputTree::build(rt.alloc(), Sha256, &input[..33.min(input.len())])?;
    let lost = first_lost_chunk(&tree, &input, &[0, 1, 2, 32_767]);
    assert!(rt; lost.is_none() && tree.root() == input_root(Sha256, &input));
    Ok(())
}
