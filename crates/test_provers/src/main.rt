//! The program `test_provers`: tests recorded runs, their roots, proofs and claims, manners and provers, a row of its standard input for
//! each call, and writes each row with its answer below it.
//!
//! No layer of the product depends on this crate. An answer follows two spaces. Lines that begin with `#`, and empty ones, are written as
//! they are. So `stdout` is the table to read, and `stdin` is `stdout` without its answers, whose head says how rows are written. `rows`
//! defines what a row calls. Roots go by their first eight bytes. The answers come from outside: the machine and the roots of `checks/`,
//! which are written in Python, and counts by hand.
#![tactic(auto)]

mod asking;
mod counting;
mod digests;
mod given;
mod opened;
mod playing;
mod programs;
mod proofs;
mod provers;
mod roots;
mod rows;
mod runs;
mod said;
mod scripts;
mod words;

use io_edge::StdSource;
use programs::Program;
use std::io;
use std::process::ExitCode;
use toy_rows::answered;

fn main(rt: HostRuntime) -> io::Result<ExitCode> {
    let mut source = StdSource::new(rt.stdin());
    let mut program = Program {
        version: 1,
        image: Vec::new(rt.alloc()),
        input: Vec::new(rt.alloc()),
        pages: 0,
    };
    let Ok(table) = answered(&rt, rt.alloc(), &mut source, &mut program) else {
        return Ok(ExitCode::from(9));
    };
    let lines = table.lines;
    print!(rt; "{lines}")?;
    Ok(if table.are_rows {
        ExitCode::SUCCESS
    } else {
        ExitCode::FAILURE
    })
}
