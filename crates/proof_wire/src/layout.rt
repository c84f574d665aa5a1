//! The numbers of the wire forms.

use rd_base::MAX_ROOTS;

/// The first byte of a claim.
pub const CLAIM_TAG: u8 = 1;

/// The first byte of a root.
pub const ROOT_TAG: u8 = 2;

/// The first byte of a proof of version 1.
pub const STEP_TAG: u8 = 3;

/// The first byte of a proof of version 2.
pub const STEP_2_TAG: u8 = 4;

/// The first byte of several roots.
pub const ROOTS_TAG: u8 = 5;

/// The first byte of a proof of version 3.
pub const STEP_3_TAG: u8 = 6;

/// How many bytes of a claim are between its tag and its output.
pub const CLAIM_FIXED_BYTES: usize = 121;

/// How many bytes of a proof of version 1 are between its tag and its openings.
pub const STEP_FIXED_BYTES: usize = 206;

/// How many bytes of a proof of version 2 are between its tag and its openings.
pub const STEP_2_FIXED_BYTES: usize = 115;

/// How many bytes of a proof of version 3 are between its tag and its openings.
pub const STEP_3_FIXED_BYTES: usize = 151;

/// How many bytes a digest has.
pub const DIGEST_BYTES: usize = 32;

/// How many bytes a chunk of memory and its Merkle path have.
pub const OPENING_BYTES: usize = 896;

/// How many bytes a register's value and its Merkle path have.
pub const REGISTER_OPENING_BYTES: usize = 164;

/// How many bytes a chunk of the input and its Merkle path have.
pub const INPUT_OPENING_BYTES: usize = 512;

/// The status byte of a machine that runs.
pub const RUNNING: u8 = 0;

/// The status byte of a machine that left by the call of exit.
pub const EXITED: u8 = 1;

/// The status byte of a machine that trapped.
pub const TRAPPED: u8 = 2;

/// The flag of a proof that opens the fetched chunk.
pub const FETCH: u8 = 1;

/// The flag of a proof that opens the data chunk.
pub const OPERAND: u8 = 2;

/// The flag of a proof that opens a chunk of the input.
pub const INPUT: u8 = 4;

/// The largest flags of a proof of version 1 or 2.
pub const MOST_FLAGS: u8 = FETCH + OPERAND;

/// The largest flags of a proof of version 3.
pub const MOST_FLAGS_3: u8 = FETCH + OPERAND + INPUT;

/// The most registers that a proof opens.
pub const MOST_REGISTERS: u8 = 3;

/// The most roots that an answer has.
pub const MOST_ROOTS: u8 = MAX_ROOTS as u8;
