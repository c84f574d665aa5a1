//! The program `test_proofs`: tests claims and proofs of one step, in each version of the commitment: the chain of an output, what plain
//! proofs open, changed proofs, the collisions of two, and the referee. A row of its standard input is a call. Their form as bytes is
//! tested in `test_edge`.
//!
//! No layer of the product depends on this crate. It writes each row with its answer below it, behind two spaces. Lines that begin with
//! `#`, and empty ones, are written as they are. So `stdout` is the table to read, and `stdin` is `stdout` without its answers. `rows`
//! defines what a row calls. The answers come from outside: listings by hand, Python, and what the definitions say.
#![tactic(auto)]

mod changes;
mod checks;
mod claims;
mod collisions;
mod openings;
mod rows;
mod run;
mod strings;
mod words;

use io_edge::StdSource;
use std::io;
use std::process::ExitCode;
use toy_rows::answered;

fn main(rt: HostRuntime) -> io::Result<ExitCode> {
    let mut source = StdSource::new(rt.stdin());
    let mut subject = rows::empty_subject(rt.alloc());
    let Ok(table) = answered(&rt, rt.alloc(), &mut source, &mut subject) else {
        return Ok(ExitCode::from(9));
    };
    let lines = table.lines;
    print!(rt; "{lines}")?;
    Ok(if table.are_rows {
        ExitCode::SUCCESS
    } else {
        ExitCode::FAILURE
    })
}
