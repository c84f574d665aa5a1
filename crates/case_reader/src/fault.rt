//! The keys of a case, and the faults of cases and tasks.
ghost use Rattle.std.specs.Prelude.{◌≡◌, Some};
ghost use Rattle.case_reader.specs.Key.{key_text};
ghost use Rattle.case_reader.specs.Fault.{case_rule, whole_fault};
ghost use Rattle.case_reader.specs.declared.fault.CaseFault.TheVariants.{Memory};
ghost use Rattle.case_reader.specs.declared.fault.TaskFault.TheVariants as task;

use std::alloc::{AllocError, AllocFailed};
use std::fmt;
use thiserror::Error;

/// A key of a case, in the order in which keys are tested.
#[derive(Clone, Copy, Debug, PartialEq, Eq)]
pub enum Key {
    Tasks,
    Format,
    Image,
    Input,
    Bound,
    Patience,
    Version,
    Fan,
    Stake,
    Provers,
}

impl Key {
    /// The key as a case writes it.
    pub fn name(self) -> &'static str
        ensures { result.now ≡ key_text self }
    {
        match self {
            Key::Tasks => "tasks",
            Key::Format => "format",
            Key::Image => "image",
            Key::Input => "input",
            Key::Bound => "bound",
            Key::Patience => "patience",
            Key::Version => "version",
            Key::Fan => "fan",
            Key::Stake => "stake",
            Key::Provers => "provers",
        }
    }
}

impl fmt::Display for Key {
    ghost output = { λ key. Some (key_text key) };

    fn fmt<W: fmt::Write>(&self, f: &mut fmt::Formatter<W>) -> fmt::Result {
        f.write_str(self.name())
    }
}

/// Why bytes are no case: the first rule that is broken, or out of memory.
#[derive(Clone, Copy, Debug, PartialEq, Eq, Error)]
pub enum CaseFault {
    /// The bytes are no JSON text (RFC 8259, as `serde_json` reads it).
    #[error("the bytes are no JSON text")]
    NotJson,
    /// The text is no JSON object.
    #[error("the case is no object")]
    NotObject,
    /// The key isn't there.
    #[error("{0} is missing")]
    Missing(Key),
    /// The key's value has another type.
    #[error("{0} has another type")]
    WrongType(Key),
    /// The key's text isn't hexadecimal digits in pairs.
    #[error("{0} is no hexadecimal text")]
    BadHex(Key),
    /// The key's value is out of its range.
    #[error("{0} is out of range")]
    OutOfRange(Key),
    /// The prover of this number, counted from 1, is none that is known.
    #[error("prover {0} is none that is known")]
    BadProver(u32),
    /// An allocation was refused.
    #[error("out of memory")]
    Memory,
}

impl CaseFault {
    /// The number of the rule that is broken, from 1 to 7 in the order of the variants, and `None` if memory ran out.
    pub fn rule(self) -> Option<u32>
        ensures { result ≡ case_rule self }
    {
        match self {
            CaseFault::NotJson => Some(1),
            CaseFault::NotObject => Some(2),
            CaseFault::Missing(_) => Some(3),
            CaseFault::WrongType(_) => Some(4),
            CaseFault::BadHex(_) => Some(5),
            CaseFault::OutOfRange(_) => Some(6),
            CaseFault::BadProver(_) => Some(7),
            CaseFault::Memory => None,
        }
    }
}

impl From<AllocError> for CaseFault {
    ghost from_gives = { λ _ e. e ≡ Memory };

    fn from(_e: AllocError) -> CaseFault {
        CaseFault::Memory
    }
}

impl<T: Drop> From<AllocFailed<T>> for CaseFault {
    ghost from_gives = { λ _ e. e ≡ Memory };

    fn from(_e: AllocFailed<T>) -> CaseFault {
        CaseFault::Memory
    }
}

/// Why bytes are neither a case nor tasks: the first rule that is broken, or out of memory.
///
/// No fault within is `CaseFault::Memory`, which is `Memory` here.
#[derive(Clone, Copy, Debug, PartialEq, Eq, Error)]
pub enum TaskFault {
    /// The rule is one of the whole text.
    #[error("{0}")]
    Whole(CaseFault),
    /// The rule is one of the case of the task of this number, counted from 1.
    #[error("task {0}: {1}")]
    Task(u32, CaseFault),
    /// An allocation was refused.
    #[error("out of memory")]
    Memory,
}

/// A rule of a case that the whole text breaks.
impl From<CaseFault> for TaskFault {
    ghost from_gives = { λ fault e. e ≡ whole_fault fault };

    #[tactic(auto, using(crate::proofs::TaskLemmas::whole_rules))]
    fn from(fault: CaseFault) -> TaskFault {
        match fault {
            CaseFault::Memory => TaskFault::Memory,
            _ => TaskFault::Whole(fault),
        }
    }
}

impl From<AllocError> for TaskFault {
    ghost from_gives = { λ _ e. e ≡ task.Memory };

    fn from(_e: AllocError) -> TaskFault {
        TaskFault::Memory
    }
}

impl<T: Drop> From<AllocFailed<T>> for TaskFault {
    ghost from_gives = { λ _ e. e ≡ task.Memory };

    fn from(_e: AllocFailed<T>) -> TaskFault {
        TaskFault::Memory
    }
}
