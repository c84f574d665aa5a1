//! The program `test_cases`: tests the reader of cases, a row of its standard input for each call, and writes each row with its answer
//! below it.
//!
//! No layer of the product depends on this crate. An answer follows two spaces. Lines that begin with `#`, and empty ones, are written as
//! they are. So `stdout` is the table to read, and `stdin` is `stdout` without its answers. `rows` defines what a row calls, `texts` how
//! it writes its text, and `answers` how what is read of it is written.
#![tactic(auto)]

mod answers;
mod rows;
mod texts;

use io_edge::StdSource;
use rows::Base;
use std::io;
use std::process::ExitCode;
use toy_rows::answered;

fn main(rt: HostRuntime) -> io::Result<ExitCode> {
    let mut source = StdSource::new(rt.stdin());
    let mut base = Base {
        text: String::new(rt.alloc()),
    };
    let Ok(table) = answered(&rt, rt.alloc(), &mut source, &mut base) else {
        return Ok(ExitCode::from(9));
    };
    let lines = table.lines;
    print!(rt; "{lines}")?;
    Ok(if table.are_rows {
        ExitCode::SUCCESS
    } else {
        ExitCode::FAILURE
    })
}
