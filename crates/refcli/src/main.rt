//! The program `refcli`: it gives the arguments of its command line, standard input and standard output to
//! `delegate::run_process`, and ends with that exit code.
#![tactic(auto)]

use delegate::{arguments, run_process};
use io_edge::{StdSink, StdSource};
use std::process::ExitCode;

fn main(rt: HostRuntime) -> ExitCode {
    let mut source = StdSource::new(rt.stdin());
    let mut sink = StdSink::new(rt.stdout());
    run_process(&rt, rt.alloc(), arguments(&rt), &mut source, &mut sink)
}
