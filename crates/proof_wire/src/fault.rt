//! The faults of the bytes of an answer.
ghost use Rattle.std.specs.Prelude.{◌≡◌};
ghost use Rattle.proof_wire.specs.Fault.{wire_rule};
ghost use Rattle.proof_wire.specs.declared.fault.WireFault.TheVariants.{Memory};

use std::alloc::{AllocError, AllocFailed};
use thiserror::Error;

/// Why bytes are no answer that is decoded: the first rule that they break, or out of memory.
#[derive(Clone, Copy, Debug, PartialEq, Eq, Error)]
pub enum WireFault {
    /// There are no bytes; or the fixed part, a claim's output, an opening or a root isn't whole.
    #[error("the answer isn't whole")]
    Short,
    /// The first byte is no tag of an answer; or the flags or the count of registers of a proof are above the largest;
    /// or the count of roots isn't 1 to 15.
    #[error("the tag, the flags or the count aren't known")]
    BadTag,
    /// The status byte is above 2, or it is that of a running machine and the code isn't 0.
    #[error("the status isn't known")]
    BadStatus,
    /// There are bytes behind the answer.
    #[error("there are bytes behind the answer")]
    TrailingBytes,
    /// The length of a claim's output is above 4,294,967,295.
    #[error("the output is too long")]
    BadLength,
    /// An allocation was refused.
    #[error("out of memory")]
    Memory,
}

impl WireFault {
    /// The number of the rule that is broken, from 1 to 5 in the order of the variants, and `None` for out of memory.
    pub fn rule(self) -> Option<u32>
        ensures { result ≡ wire_rule self }
    {
        match self {
            WireFault::Short => Some(1),
            WireFault::BadTag => Some(2),
            WireFault::BadStatus => Some(3),
            WireFault::TrailingBytes => Some(4),
            WireFault::BadLength => Some(5),
            WireFault::Memory => None,
        }
    }
}

impl From<AllocError> for WireFault {
    ghost from_gives = { λ _ e. e ≡ Memory };

    fn from(_e: AllocError) -> WireFault {
        WireFault::Memory
    }
}

impl<T: Drop> From<AllocFailed<T>> for WireFault {
    ghost from_gives = { λ _ e. e ≡ Memory };

    fn from(_e: AllocFailed<T>) -> WireFault {
        WireFault::Memory
    }
}
