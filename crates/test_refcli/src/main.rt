//! The program `test_refcli`: calls `delegate::run` over memory for each row of its standard input, and writes each row with its answer
//! below it.
//!
//! The first lines of standard input say how a row is written. Lines that begin with `#`, and empty ones, are written as they are. So
//! `stdout` is the table to read, and `stdin` is `stdout` without its answers and without the lines after the rows. `rows` defines what a
//! row calls, and `texts` how it writes its text. A line that is no row fails. The lines after the rows are of calls over devices that fail,
//! of the collisions that the program itself finds, of verdicts without a text, and of calls at the limits of what the program takes.
//!
//! A call may answer that memory ran out, so no proof shows that a body doesn't give up at some size; the last lines show it, for the largest
//! case, image, input and bound, the most loads, provers, passes and rounds, and the ends of the options. `checks/limits --lines` writes
//! them.
#![tactic(auto)]

mod answering;
mod cases;
mod changes;
mod collisions;
mod devices;
mod failing;
mod images;
mod matches;
mod mutants;
mod rows;
mod runs;
mod texts;
mod verdicts;

use io_edge::StdSource;
use rd_base::Memory;
use std::alloc::Global;
use std::io;
use std::process::ExitCode;
use std::sync::Wait;
use std::thread::Threads;

/// The lines of the calls over devices that fail, of collisions and verdicts, and of the calls at the limits.
fn lines_after_rows<R: Threads + Wait + Sync>(rt: &R, alloc: Global) -> Result<String, Memory> {
    let mut lines = String::new(alloc);
    devices::add_calls(rt, alloc, &mut lines)?;
    failing::add_calls_in_turn(rt, alloc, &mut lines)?;
    collisions::add_collisions(rt, alloc, &mut lines)?;
    verdicts::add_verdicts(rt, alloc, &mut lines)?;
    runs::add_sizes(rt, alloc, &mut lines)?;
    runs::add_runs(rt, alloc, &mut lines)?;
    matches::add_options(rt, alloc, &mut lines)?;
    matches::add_numbers(rt, alloc, &mut lines)?;
    Ok(lines)
}

fn main(rt: HostRuntime) -> io::Result<ExitCode> {
    let mut source = StdSource::new(rt.stdin());
    let Ok(table) = rows::answers_of_rows(&rt, rt.alloc(), &mut source) else {
        return Ok(ExitCode::from(9));
    };
    let rows = table.lines;
    print!(rt; "{rows}")?;
    match lines_after_rows(&rt, rt.alloc()) {
        Ok(lines) => print!(rt; "{lines}")?,
        Err(_) => return Ok(ExitCode::from(9)),
    }
    Ok(if table.are_rows {
        ExitCode::SUCCESS
    } else {
        ExitCode::FAILURE
    })
}
