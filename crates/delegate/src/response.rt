//! What the program answers: how it ended, what is written, and why a command isn't carried out.
ghost use Rattle.std.specs.Prelude.{◌≡◌, ◌<◌, ◌≤◌, ◌+◌, Some, IfOk, string_bytes};
ghost use Rattle.delegate.specs.declared.response.Halt.TheVariants.{Memory as halted};
ghost use Rattle.delegate.specs.declared.response.Stop.TheVariants.{Memory as stopped};
ghost use Rattle.delegate.specs.Answered.{status_number, graver};
ghost use Rattle.delegate.specs.Refusal.{subject_text};
ghost use Rattle.delegate.specs.Loading.{next_subject};
ghost use Rattle.delegate.specs.Standing.{IsEitherWay, task_number};

use rd_base::{Bytes, Memory};
use std::alloc::{AllocError, AllocFailed};
use std::fmt;

/// How the program ended.
#[derive(Clone, Copy, Debug, PartialEq, Eq)]
pub enum Answered {
    /// A claim was accepted, or the command's text was written.
    Done,
    /// The arguments name no command. Nothing was read.
    Usage,
    /// The bytes are no case, or one with a bound or a format that the command doesn't take.
    Case,
    /// The image can't be loaded.
    Image,
    /// The source failed. Nothing was written.
    ReadFault,
    /// The sink failed. It may have taken a prefix of the text.
    WriteFault,
    /// The text is no full text of a legal match.
    AuditRefused,
    /// Memory ran out. Nothing was written.
    Memory,
    /// Every prover is out.
    NoneLeft,
    /// Two different strings with one digest were found.
    Collision,
    /// The source has too many bytes.
    TooLong,
}

impl Answered {
    /// The exit status of the program.
    pub fn status(self) -> u8
        ensures { result ≡ status_number self }
    {
        match self {
            Answered::Done => 0,
            Answered::Usage => 2,
            Answered::Case => 3,
            Answered::Image => 4,
            Answered::ReadFault => 5,
            Answered::WriteFault => 6,
            Answered::AuditRefused => 8,
            Answered::Memory => 9,
            Answered::NoneLeft => 10,
            Answered::Collision => 11,
            Answered::TooLong => 12,
        }
    }

    /// The graver of two answers to tasks: a collision, else that nobody is left, else the other one.
    pub(crate) fn or_graver(self, other: Answered) -> Answered
        ensures { result ≡ graver self other }
    {
        match self {
            Answered::Collision => Answered::Collision,
            Answered::NoneLeft => match other {
                Answered::Collision => Answered::Collision,
                _ => Answered::NoneLeft,
            },
            _ => other,
        }
    }
}

/// What a refusal is about.
#[derive(Clone, Copy, Debug, PartialEq, Eq)]
pub enum Subject {
    /// All that is read.
    Whole,
    /// The task of this number, counted from 1.
    Task(u32),
}

impl Subject {
    /// The subject of the case behind this one: of tasks, the next. There are at most 8.
    pub(crate) fn next(self) -> Subject
        requires { task_number self < 9 }
        ensures next { result ≡ next_subject self }
        ensures number { task_number result ≤ task_number self + 1 }
    {
        match self {
            Subject::Whole => Subject::Whole,
            Subject::Task(number) => Subject::Task(number + 1),
        }
    }
}

/// As a refusal writes it: nothing, or `task T` and a space.
impl fmt::Display for Subject {
    ghost output = { λ subject. Some (subject_text subject) };

    fn fmt<W: fmt::Write>(&self, f: &mut fmt::Formatter<W>) -> fmt::Result {
        match self {
            Subject::Whole => f.write_str(""),
            Subject::Task(number) => write!(f, "task {number} "),
        }
    }
}

/// What is to be written, whole, and the answer once it is.
#[derive(Debug, Drop)]
pub struct Response {
    pub answered: Answered,
    pub text: Bytes,
}

/// A response with this text.
pub fn text_response(answered: Answered, text: String) -> Response
    ensures { result ≡ record { answered = answered; text = string_bytes text } }
{
    Response {
        answered,
        text: Bytes::new(text.into_bytes()),
    }
}

/// Why a command isn't carried out.
#[derive(Debug, Drop)]
pub enum Stop {
    /// It is refused, with this response.
    Refused(Response),
    /// An allocation was refused.
    Memory,
}

impl From<Memory> for Stop {
    ghost from_gives = { λ _ stop. stop ≡ stopped };

    fn from(_e: Memory) -> Stop {
        Stop::Memory
    }
}

impl From<AllocError> for Stop {
    ghost from_gives = { λ _ stop. stop ≡ stopped };

    fn from(_e: AllocError) -> Stop {
        Stop::Memory
    }
}

impl<T: Drop> From<AllocFailed<T>> for Stop {
    ghost from_gives = { λ _ stop. stop ≡ stopped };

    fn from(_e: AllocFailed<T>) -> Stop {
        Stop::Memory
    }
}

/// The response to a command, whether it was carried out or refused.
pub fn either_way(carried: Result<Response, Stop>) -> Result<Response, Memory>
    ensures { IfOk result (IsEitherWay carried) }
{
    match carried {
        Ok(response) => Ok(response),
        Err(Stop::Refused(response)) => Ok(response),
        Err(Stop::Memory) => Err(Memory),
    }
}

/// Why there is nothing to write.
#[derive(Clone, Copy, Debug, PartialEq, Eq)]
pub enum Halt {
    /// The source failed.
    ReadFault,
    /// An allocation was refused.
    Memory,
}

impl From<AllocError> for Halt {
    ghost from_gives = { λ _ halt. halt ≡ halted };

    fn from(_e: AllocError) -> Halt {
        Halt::Memory
    }
}
