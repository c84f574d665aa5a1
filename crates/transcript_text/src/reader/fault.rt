//! The faults of full texts.
ghost use Rattle.std.specs.Prelude.{◌≡◌};
ghost use Rattle.transcript_text.specs.declared.reader.fault.TextFault.TheVariants.{Memory};
ghost use Rattle.transcript_text.specs.declared.reader.fault.LineFault.TheVariants as line_fault;

use std::alloc::{AllocError, AllocFailed};
use thiserror::Error;

/// Why bytes are no full text: the first fault of its lines, or out of memory.
#[derive(Clone, Copy, Debug, PartialEq, Eq, Error)]
pub enum TextFault {
    /// The first line has another form than a head's.
    #[error("the first line is no head")]
    BadHead,
    /// The line with this number, from 2, has neither the form of a move nor that of a verdict, or it follows the verdict.
    #[error("line {0} is neither a move nor the verdict")]
    BadLine(u64),
    /// The text ends before a line feed or before a verdict.
    #[error("the text is cut off")]
    Truncated,
    /// A number of the line with this number is outside its limits: one of the head in line 1, a prover's in a later line.
    #[error("a number of line {0} is out of range")]
    OutOfRange(u64),
    /// An allocation was refused.
    #[error("out of memory")]
    Memory,
}

/// Why a line isn't read.
#[derive(Clone, Copy, Debug, PartialEq, Eq)]
pub(crate) enum LineFault {
    /// It has another form.
    NoForm,
    /// An allocation was refused.
    Memory,
}

impl From<AllocError> for TextFault {
    ghost from_gives = { λ _ e. e ≡ Memory };

    fn from(_e: AllocError) -> TextFault {
        TextFault::Memory
    }
}

impl<T: Drop> From<AllocFailed<T>> for TextFault {
    ghost from_gives = { λ _ e. e ≡ Memory };

    fn from(_e: AllocFailed<T>) -> TextFault {
        TextFault::Memory
    }
}

impl From<AllocError> for LineFault {
    ghost from_gives = { λ _ e. e ≡ line_fault.Memory };

    fn from(_e: AllocError) -> LineFault {
        LineFault::Memory
    }
}
