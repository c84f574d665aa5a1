//! The program `test_machine`: tests words, memory, steps and images, a row of its standard input for each call, and writes each row with
//! its answer below it.
//!
//! No layer of the product depends on this crate. An answer follows two spaces. Lines that begin with `#`, and empty ones, are written as
//! they are. So `stdout` is the table to read, whose head says how rows are written, and `stdin` is `stdout` without its answers. `rows`
//! defines what a row calls. A line that is no row fails. The answers come from outside: an assembler's listing, Python, and the examples
//! of the standards.
#![tactic(auto)]

mod decoding;
mod images;
mod machine;
mod memory;
mod rows;
mod words;

use io_edge::StdSource;
use std::io;
use std::process::ExitCode;
use toy_rows::answered;

fn main(rt: HostRuntime) -> io::Result<ExitCode> {
    let mut source = StdSource::new(rt.stdin());
    let mut subject = rows::empty_subject(rt.alloc());
    let Ok(table) = answered(&rt, rt.alloc(), &mut source, &mut subject) else {
        return Ok(ExitCode::from(9));
    };
    let lines = table.lines;
    print!(rt; "{lines}")?;
    Ok(if table.are_rows {
        ExitCode::SUCCESS
    } else {
        ExitCode::FAILURE
    })
}
