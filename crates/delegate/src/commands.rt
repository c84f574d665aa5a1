//! The commands, each in a module of its own or beside one like it, and which one is carried out; and those that need no runtime, for
//! callers that have bytes in memory. An `Err` is a refusal, with the response to it, or out of memory.
ghost use Rattle.std.specs.Prelude.{◌≡◌, ℕ, List, IfOk, true};
ghost use Rattle.case_match.specs.Options.{AreAtLeastOne};
ghost use Rattle.command_line.specs.Words.{ArePositive};
ghost use Rattle.delegate.specs.declared.commands.Alone as commands;
ghost use Rattle.delegate.specs.declared.response.Response as responses;
ghost use Rattle.delegate.specs.Alone.{command_of, IsOutcomeOf};
ghost use Rattle.delegate.specs.Answered.{is_answer_of};
ghost use Rattle.delegate.specs.Outcome.{carried_out};
ghost use Rattle.delegate.specs.Standing.{Stands, DecidesInRange};

mod auditing;
mod big;
mod judge;
mod list;
mod run;

use crate::faults;
use crate::program::MAX_CASE_BYTES;
use crate::response::{Response, Stop, either_way};
use case_match::Options;
use command_line::{Command, OptionNumbers, Request, plain_words};
use rd_base::Memory;
use std::alloc::Global;
use std::sync::Wait;
use std::thread::Threads;

/// A command that starts no thread and waits for nothing, so that it needs no runtime.
#[derive(Clone, Copy, Debug, PartialEq, Eq)]
pub enum Alone {
    /// To run a case's program, and to write what its run answers.
    Run,
    /// To audit a full text, and to write what is found.
    Audit,
    /// To write the listing of a case's image.
    Listing,
}

/// How a match is played by the numbers that were given to its options.
fn options_of(numbers: OptionNumbers) -> Options
    requires { ArePositive numbers }
    ensures { AreAtLeastOne result }
{
    Options {
        workers: numbers.workers,
        posters: numbers.posters,
        every: numbers.every,
    }
}

/// Carries out a command on the bytes that were read for it. `run`, `roots`, `audit` and `list` wait for nobody.
pub fn carry_out<R: Threads + Wait + Sync>(
    rt: &R,
    alloc: Global,
    request: Request,
    bytes: Vec<u8>,
) -> Result<Response, Stop>
    requires { ArePositive request.options }
    ensures stands { Stands (λ response. response) result (carried_out request.command bytes.items) }
    ensures in_range { IfOk result (λ response. DecidesInRange (Some request.command) bytes.items) }
{
    let options = options_of(request.options);
    match request.command {
        Command::Judge(text, name) => judge::judge(rt, alloc, text, name, options, bytes),
        Command::Run => carry_out_alone(alloc, Alone::Run, bytes),
        Command::Roots => run::roots(rt, alloc, bytes),
        Command::Audit => carry_out_alone(alloc, Alone::Audit, bytes),
        Command::Listing => carry_out_alone(alloc, Alone::Listing, bytes),
        Command::Big(seed) => big::big(rt, alloc, seed, options),
    }
}

/// Carries out a command that needs no runtime on the bytes that were read for it.
fn carry_out_alone(alloc: Global, command: Alone, bytes: Vec<u8>) -> Result<Response, Stop>
    ensures { Stands (λ response. response) result (carried_out (command_of command) bytes.items) }
{
    match command {
        Alone::Run => run::run(alloc, bytes),
        Alone::Audit => auditing::check(alloc, bytes),
        Alone::Listing => list::list(alloc, bytes),
    }
}

/// The outcome of all arguments that name a command has an answer of that command, since there are such arguments.
fn outcomes_alone_are_of_the_command()
    ensures { (command : commands.Alone) (bytes : List ℕ) (response : responses.Response) → IsOutcomeOf command bytes response →
        is_answer_of (command_of command) response.answered ≡ true }
{
    plain_words();
}

/// The response of a command that needs no runtime to these bytes.
fn respond_alone(alloc: Global, command: Alone, bytes: &[u8]) -> Result<Response, Memory>
    ensures { IfOk result (IsOutcomeOf command bytes.now) }
{
    if bytes.len() > MAX_CASE_BYTES {
        return Ok(faults::too_long(alloc)?);
    }
    let given = Vec::from_slice(alloc, bytes)?;
    either_way(carry_out_alone(alloc, command, given))
}

/// What a command that needs no runtime answers on these bytes: the answer and the text of the program, given these bytes and arguments
/// that name the command, whatever else they say. More than 16,777,216 bytes are refused, as the program does (`TooLong`).
///
/// An `Err` is out of memory, which no answer is (`own`).
pub fn answer_alone(alloc: Global, command: Alone, bytes: &[u8]) -> Result<Response, Memory>
    ensures outcome { IfOk result (IsOutcomeOf command bytes.now) }
    ensures own { IfOk result (λ response. is_answer_of (command_of command) response.answered ≡ true) }
{
    outcomes_alone_are_of_the_command();
    respond_alone(alloc, command, bytes)
}
