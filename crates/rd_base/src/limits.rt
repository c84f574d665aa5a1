//! The limits of the numbers of a case and of a text.

/// The longest input of a program, in bytes.
pub const MAX_INPUT_BYTES: usize = 1_048_576;

/// The first version of the commitments, and the version of a case without the key.
pub const MIN_VERSION: u32 = 1;

/// The last version of the commitments.
pub const MAX_VERSION: u32 = 3;

/// The fewest parts into which a round cuts its interval, and the number of parts of a case without the key.
pub const MIN_FAN: u32 = 2;

/// The most parts into which a round cuts its interval.
pub const MAX_FAN: u32 = 16;

/// The largest stake.
pub const MAX_STAKE: u64 = 1_000_000_000;

/// The largest bound, in steps.
pub const MAX_BOUND: u64 = 4_294_967_295;

/// The largest patience, in passes.
pub const MAX_PATIENCE: u64 = 100;

/// The most provers.
pub const MAX_PROVERS: usize = 16;

/// The most tasks.
pub const MAX_TASKS: usize = 8;
