//! The faults of an assembly text.
ghost use Rattle.std.specs.Prelude.{◌≡◌};
ghost use Rattle.rv_text.specs.Faults.{number_of_kind};
ghost use Rattle.rv_text.specs.declared.fault.AsmError.TheVariants as error;

use std::alloc::{AllocError, AllocFailed};

/// What is wrong with a line.
#[derive(Clone, Copy, Debug, PartialEq, Eq)]
pub enum FaultKind {
    /// Behind its label, if it has one, the line is neither empty nor a mnemonic with operands of its form.
    OtherForm,
    /// No instruction has this mnemonic.
    UnknownMnemonic,
    /// A name in a register's place is none of `x0` to `x31`.
    NoRegister,
    /// A written number, or the distance to a name, is out of its operand's range.
    OutOfRange,
    /// No line defines this name.
    Undefined,
    /// An earlier line defines the same name.
    DefinedTwice,
}

impl FaultKind {
    /// The number of the kind, from 1 to 6 in the order of the variants.
    pub fn number(self) -> u32
        ensures { result ≡ number_of_kind self }
    {
        match self {
            FaultKind::OtherForm => 1,
            FaultKind::UnknownMnemonic => 2,
            FaultKind::NoRegister => 3,
            FaultKind::OutOfRange => 4,
            FaultKind::Undefined => 5,
            FaultKind::DefinedTwice => 6,
        }
    }
}

/// The fault of a text.
#[derive(Clone, Copy, Debug, PartialEq, Eq)]
pub struct AsmFault {
    /// What is wrong.
    pub kind: FaultKind,
    /// In which line, from 1 on.
    pub line: u32,
}

/// Why a text wasn't assembled.
#[derive(Clone, Copy, Debug, PartialEq, Eq)]
pub enum AsmError {
    /// The text has a fault.
    Fault(AsmFault),
    /// An allocation was refused.
    Memory,
}

impl From<AllocError> for AsmError {
    ghost from_gives = { λ _ e. e ≡ error.Memory };

    fn from(_e: AllocError) -> AsmError {
        AsmError::Memory
    }
}

impl<T: Drop> From<AllocFailed<T>> for AsmError {
    ghost from_gives = { λ _ e. e ≡ error.Memory };

    fn from(_e: AllocFailed<T>) -> AsmError {
        AsmError::Memory
    }
}
