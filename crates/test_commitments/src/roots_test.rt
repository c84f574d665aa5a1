//! Roots of states in each version of the commitment, and paths that climb to the roots below them, of `state_commit`.

use crate::machines::machine_after;
use crate::nodes_test::climbs;
use crate::programs::{DIVIDES, LOOP, OVERWRITES, PUTS, READS, STORES};
use digest_core::{Sha256, leaf_text, register_text};
use mem_tree::input_chunk;
use rd_base::Digest32;
use state_commit::{Committed, state_root};
use std::alloc::Global;
use std::test::Fail;
use std::thread::Threads;
use toy_machine::first_eight;

/// A run, and the roots of its first states.
#[derive(Clone, Copy)]
struct Run {
    image: &'static [u8],
    /// The version of the machine.
    version: u32,
    input: &'static [u8],
    /// The first eight bytes of each root.
    roots: &'static [u64],
}

/// The roots of version 1, by an independent program in Python that carries out each program and hashes all of memory anew at each step.
const PUTS_ROOTS: [u64; 9] = [
    0x1839_59fe_9e22_9320,
    0xe45f_f7c5_b4c6_f88e,
    0xc46e_891b_a0a4_2817,
    0xac20_116a_59ff_9b02,
    0x591d_8c75_2c1e_ed70,
    0xa6f7_b33b_170c_0d9b,
    0x078a_dd20_bc2c_812f,
    0x078a_dd20_bc2c_812f,
    0x078a_dd20_bc2c_812f,
];

const DIVIDES_ROOTS: [u64; 17] = [
    0xd8df_3418_ada3_6861,
    0x03ff_6ed9_ead7_ee21,
    0x5d6c_9863_de0a_e148,
    0x8ce3_058f_4e9a_38c4,
    0xf6e3_f181_25b2_aad7,
    0x1f80_1a12_5bf4_75f1,
    0xc83e_9b73_d0f9_db00,
    0x9017_a4e6_9d14_5eda,
    0xe1f0_8bc5_4422_c921,
    0x7840_d581_fedc_351f,
    0xd69f_9e2d_f4ad_09e3,
    0x8e32_d4b3_a820_ba42,
    0x8e32_d4b3_a820_ba42,
    0x8e32_d4b3_a820_ba42,
    0x8e32_d4b3_a820_ba42,
    0x8e32_d4b3_a820_ba42,
    0x8e32_d4b3_a820_ba42,
];

const STORES_ROOTS: [u64; 9] = [
    0x8d82_837f_5857_b213,
    0x997e_9ec1_b44c_dfc5,
    0xeeb4_45d3_899c_a41e,
    0x65f2_d6f4_da5c_f31b,
    0xc196_fbf7_6493_e42f,
    0x477e_0161_893e_ef54,
    0x7ff5_ec3a_7f83_6b57,
    0x9c7b_e817_5706_13a3,
    0x82f8_4640_36cd_320e,
];

const LOOP_ROOTS: [u64; 4] = [
    0x23dd_e85a_1763_aa96,
    0x23dd_e85a_1763_aa96,
    0x23dd_e85a_1763_aa96,
    0x23dd_e85a_1763_aa96,
];

const EMPTY_ROOTS: [u64; 3] = [
    0xef52_070d_4b25_c00e,
    0xc1bc_d232_9ef4_3b49,
    0xc1bc_d232_9ef4_3b49,
];

const IN_VERSION_1: [Run; 5] = [
    Run {
        image: PUTS,
        version: 1,
        input: b"",
        roots: &PUTS_ROOTS,
    },
    Run {
        image: DIVIDES,
        version: 1,
        input: b"",
        roots: &DIVIDES_ROOTS,
    },
    Run {
        image: STORES,
        version: 1,
        input: b"",
        roots: &STORES_ROOTS,
    },
    Run {
        image: LOOP,
        version: 1,
        input: b"",
        roots: &LOOP_ROOTS,
    },
    Run {
        image: b"",
        version: 1,
        input: b"",
        roots: &EMPTY_ROOTS,
    },
];

/// The roots below are those of a program in Python: the machine and the roots of `checks/`, with the digest of the registers, from
/// version 2 on, and that of the storage, in version 3, by
///
/// ```python
///     def registers_digest(registers):
///         return root(b'\7' + number(register, 4) for register in registers)
///     def storage_digest(memory, given):
///         padded = given + bytes(2**20 - len(given))
///         tree = root(leaf_string(padded[32 * k : 32 * k + 32]) for k in range(2**15))
///         return digest(b'\10' + memory + number(len(given), 4) + tree)
///     def root(strings):
///         level = [digest(string) for string in strings]
///         while len(level) > 1:
///             pairs = zip(level[0::2], level[1::2])
///             level = [digest(node_string(left, right)) for left, right in pairs]
///         return level[0]
/// ```
///
/// Without a program: at the start and in its trap, and at the start with an input.
const FRESH: [Run; 6] = [
    Run {
        image: b"",
        version: 1,
        input: b"",
        roots: &[0xef52_070d_4b25_c00e, 0xc1bc_d232_9ef4_3b49],
    },
    Run {
        image: b"",
        version: 2,
        input: b"",
        roots: &[0x860f_cae0_4be1_4d8b, 0xf8ff_3dc3_53a6_24ac],
    },
    Run {
        image: b"",
        version: 3,
        input: b"",
        roots: &[0xbd56_f83b_5fc8_2841, 0x56e0_6cf8_6f48_9e64],
    },
    Run {
        image: b"",
        version: 1,
        input: b"A",
        roots: &[0xd80c_3355_8d1c_021f],
    },
    Run {
        image: b"",
        version: 2,
        input: b"A",
        roots: &[0xb406_3684_c17d_e76d],
    },
    Run {
        image: b"",
        version: 3,
        input: b"A",
        roots: &[0xae3b_8572_debe_a75a],
    },
];

const STORES_2_ROOTS: [u64; 9] = [
    0x1d36_7f5e_0f28_dc79,
    0x91ce_4ddb_e638_fb2e,
    0x3507_8050_23df_fe24,
    0x7eb0_5187_b9f5_dd96,
    0x1322_7f76_7e6a_2a1e,
    0x1af8_dc22_453c_5ba7,
    0x8c47_69b9_fefb_b1ce,
    0xd55c_58eb_31a8_ab34,
    0x7a26_ece6_2c7e_e261,
];

const STORES_3_ROOTS: [u64; 9] = [
    0x653f_c057_0c36_9493,
    0xf8d9_ca13_6564_e3b0,
    0x27d0_a97b_14dd_d381,
    0x79b2_cf15_a27a_2231,
    0x5aad_9e37_4a70_83cd,
    0x780c_f754_b0de_1429,
    0xf9b1_cf2c_6d02_e99b,
    0xedbd_2e97_f3c6_17a7,
    0xc82f_3d3f_1476_3045,
];

/// It traps in step 2.
const READS_2_ROOTS: [u64; 5] = [
    0x584f_2af6_9f14_3ce2,
    0xd9b4_87b0_4b7e_aadb,
    0x1c6d_4d2e_5fbe_a382,
    0xe225_0b7d_2524_ae38,
    0xe225_0b7d_2524_ae38,
];

const READS_3_ROOTS: [u64; 9] = [
    0xe9e6_f1b0_70b1_9892,
    0xd1f7_5aba_50c8_27d5,
    0xde0f_5e9d_0421_bb74,
    0xb090_f759_ca0d_0970,
    0x3814_0271_bb2e_c70f,
    0x6948_6292_220b_5abe,
    0xe835_82af_b4e3_7872,
    0xac6f_ecee_93f3_755b,
    0x7133_5637_169d_c2bd,
];

const OVERWRITES_1_ROOTS: [u64; 6] = [
    0xd457_e17d_1a14_e8fb,
    0x71ee_9ff4_6a4f_8a2c,
    0x3ca3_7bf5_8e65_9120,
    0x1e48_ca9b_346f_b498,
    0xc265_b425_a19c_bdba,
    0xd8ec_8fb7_2f5f_0ff9,
];

const OVERWRITES_2_ROOTS: [u64; 6] = [
    0x303e_7fe1_75ab_6f0b,
    0xca18_fb4d_a2b9_e4e5,
    0xf37c_5a3a_b748_9029,
    0x6d02_c937_8259_1d9e,
    0xb9ce_2cfb_c074_ec6b,
    0x881c_d460_46d1_72eb,
];

const OVERWRITES_3_ROOTS: [u64; 6] = [
    0x9552_91c7_d868_98be,
    0x66f3_e341_975d_5a2d,
    0x188d_280f_4f96_e37f,
    0xf863_065b_b677_d520,
    0xaa20_c8a0_2e5f_4710,
    0x118b_c17e_7f23_7ede,
];

const OF_PROGRAMS: [Run; 7] = [
    Run {
        image: STORES,
        version: 2,
        input: b"",
        roots: &STORES_2_ROOTS,
    },
    Run {
        image: STORES,
        version: 3,
        input: b"",
        roots: &STORES_3_ROOTS,
    },
    Run {
        image: READS,
        version: 2,
        input: b"A",
        roots: &READS_2_ROOTS,
    },
    Run {
        image: READS,
        version: 3,
        input: b"A",
        roots: &READS_3_ROOTS,
    },
    Run {
        image: OVERWRITES,
        version: 1,
        input: b"",
        roots: &OVERWRITES_1_ROOTS,
    },
    Run {
        image: OVERWRITES,
        version: 2,
        input: b"",
        roots: &OVERWRITES_2_ROOTS,
    },
    Run {
        image: OVERWRITES,
        version: 3,
        input: b"",
        roots: &OVERWRITES_3_ROOTS,
    },
];

/// The root of a machine from scratch in a version.
fn root_from_scratch(kept: &Committed<Sha256>, version: u32) -> Digest32 {
    state_root(Sha256, version, kept.machine())
}

/// Whether a machine has this root, kept and from scratch in a version.
fn has_root(kept: &Committed<Sha256>, version: u32, want: u64) -> bool {
    let root = kept.root();
    root.0 == root_from_scratch(kept, version).0 && first_eight(root) == want
}

/// The first state of a run whose root, kept or from scratch, is another one.
fn first_other_state<R: Threads + Sync>(
    rt: &R,
    alloc: Global,
    run: Run,
) -> Result<Option<usize>, Fail> {
    let mut kept = machine_after(rt, alloc, run.version, run.image, run.input, 0)?;
    let mut other = None;
    for (state, want) in run.roots.iter().enumerate() {
        if other.is_none() && !has_root(&kept, run.version, *want) {
            other = Some(state);
        }
        kept = kept.step()?;
    }
    Ok(other)
}

/// The first run that has another root, and its first state that has.
fn first_other_run<R: Threads + Sync>(
    rt: &R,
    alloc: Global,
    runs: &[Run],
) -> Result<Option<(usize, usize)>, Fail> {
    for (row, run) in runs.iter().enumerate() {
        if let Some(state) = first_other_state(rt, alloc, *run)? {
            return Ok(Some((row, state)));
        }
    }
    Ok(None)
}

#[test]
fn roots_of_each_state_are_those_of_another_program(rt: HostRuntime) -> Result<(), Fail> {
    let others = [
        first_other_run(&rt, rt.alloc(), &IN_VERSION_1)?,
        first_other_run(&rt, rt.alloc(), &FRESH)?,
        first_other_run(&rt, rt.alloc(), &OF_PROGRAMS)?,
    ];
    assert_eq!(rt; others, [None; 3]);
    Ok(())
}

/// Whether the paths of these chunks climb to the root of memory.
fn chunks_climb(kept: &Committed<Sha256>, chunks: &[u32]) -> bool {
    for chunk in chunks {
        let chunk = *chunk % 0x800_0000;
        let leaf = leaf_text(&kept.machine().mem.chunk(chunk));
        if !climbs(chunk, &leaf, &kept.path(chunk).0, kept.memory().root()) {
            return false;
        }
    }
    true
}

/// Whether the paths of these registers climb to their root, in a version above 1.
fn registers_climb(kept: &Committed<Sha256>, numbers: &[u8]) -> bool {
    if kept.machine().version == 1 {
        return false;
    }
    for number in numbers {
        let reg = *number % 32;
        let leaf = register_text(kept.machine().regs.get(reg));
        if !climbs(
            u32::from(reg),
            &leaf,
            &kept.register_path(reg).0,
            kept.registers_digest(),
        ) {
            return false;
        }
    }
    true
}

/// Whether the paths of these chunks of the input climb to its root, in version 3.
fn inputs_climb(kept: &Committed<Sha256>, chunks: &[u32]) -> bool {
    if kept.machine().version != 3 {
        return false;
    }
    for chunk in chunks {
        let chunk = *chunk % 32_768;
        let leaf = leaf_text(&input_chunk(&kept.machine().input, chunk as usize));
        if !climbs(
            chunk,
            &leaf,
            &kept.input().path(chunk).0,
            kept.input().root(),
        ) {
            return false;
        }
    }
    true
}

/// Whether the paths of the chunks at 0, at the program, at the byte that `STORES` stores, and at the end of memory climb.
fn memory_climbs(kept: Committed<Sha256>) -> bool {
    chunks_climb(&kept, &[0, 0x800, 0x1000, 0x7ff_ffff])
}

/// Whether paths of a machine of version 3 climb: of memory, of the registers and of the input.
fn trees_climb(kept: Committed<Sha256>) -> [bool; 3] {
    [
        chunks_climb(&kept, &[0, 0x800, 0x1000]),
        registers_climb(&kept, &[0, 6, 31]),
        inputs_climb(&kept, &[0, 1]),
    ]
}

/// After the store of `STORES`.
#[test]
fn paths_climb_to_the_roots_that_a_version_has(rt: HostRuntime) -> Result<(), Fail> {
    let first = memory_climbs(machine_after(&rt, rt.alloc(), 1, STORES, b"", 3)?);
    let third = trees_climb(machine_after(&rt, rt.alloc(), 3, STORES, b"input", 3)?);
    assert_eq!(rt; (first, third), (true, [true; 3]));
    Ok(())
}
