//! Calls of the program over devices that fail.
use crate::answering::digest_of;
use delegate::{Answered, run, run_process};
use io_edge::{MemSink, MemSource};
use rd_base::Memory;
use std::alloc::{AllocError, Global};
use std::io;
use std::sync::Wait;
use std::thread::Threads;

/// A case of a program that puts the byte 42 and exits with status 0, in six steps.
pub const CASE: &str =
    "{\"format\":\"flat\",\"image\":\"1305a0029308100073000000130500009308d00573000000\",\"input\":\"\",\"bound\":8,\"patience\":0,\"provers\":[{}]}";

/// The number of a call that is never made.
const NEVER: u64 = 99;

/// A call of the program, over a source of `CASE` that gives 16 bytes a call and a sink that takes 10, of each of which the
/// call of one number fails.
#[derive(Clone, Copy)]
struct Call<'a> {
    name: &'a str,
    /// The arguments, of which the first is the program's name.
    arguments: &'a [&'a str],
    failing_read: u64,
    failing_write: u64,
}

/// The words as arguments, of which the first is the program's name.
pub fn arguments_of(alloc: Global, words: &[&str]) -> Result<Vec<String>, AllocError> {
    let mut arguments = Vec::new(alloc);
    for word in words {
        arguments.push(String::from_str(alloc, word)?)?;
    }
    Ok(arguments)
}

/// The program's answer, in a function of its own, so that the clauses of `run` burden no other proof.
pub fn answer_of<R: Threads + Wait + Sync>(
    rt: &R,
    alloc: Global,
    arguments: &[String],
    source: &mut MemSource,
    sink: &mut MemSink,
) -> Answered {
    run(rt, alloc, arguments, source, sink)
}

/// Adds the end of a call's line: how many bytes were written, their digest, and how many reads and writes failed.
fn add_end(
    alloc: Global,
    lines: &mut String,
    source: &MemSource,
    sink: &MemSink,
) -> Result<(), Memory> {
    let length = sink.as_slice().len();
    let digest = digest_of(alloc, sink.as_slice())?;
    let reads = source.faults();
    let writes = sink.faults();
    let written = format!(in alloc; "{length} bytes, {digest}, ")?;
    lines.push_str(written.as_str())?;
    let failed = format!(in alloc; "failed reads {reads}, failed writes {writes}\n")?;
    lines.push_str(failed.as_str())?;
    Ok(())
}

/// Adds the line of a call: the status, how many bytes were written, their digest, and how many reads and writes failed.
fn add_call<R: Threads + Wait + Sync>(
    rt: &R,
    alloc: Global,
    lines: &mut String,
    call: &Call<'_>,
) -> Result<(), Memory> {
    let arguments = arguments_of(alloc, call.arguments)?;
    let case = CASE.as_bytes().to_vec(alloc)?;
    let mut source = MemSource::new(case, 16, vec![in alloc; call.failing_read]?);
    let mut sink = MemSink::new(alloc, 4096, 10, vec![in alloc; call.failing_write]?)?;
    let answered = answer_of(rt, alloc, arguments.as_slice(), &mut source, &mut sink);
    let name = call.name;
    let status = answered.status();
    let start = format!(in alloc; "{name}: status {status}, ")?;
    lines.push_str(start.as_str())?;
    add_end(alloc, lines, &source, &sink)
}

/// The program's text if its arguments can't be read. Its exit code can't be looked at.
fn process_unreadable<R: Threads + Wait + Sync>(
    rt: &R,
    alloc: Global,
    source: &mut MemSource,
    sink: &mut MemSink,
) {
    let unreadable = Err(io::Error::from(io::ErrorKind::InvalidData));
    run_process(rt, alloc, unreadable, source, sink);
}

/// Adds the line of a process with an argument that isn't UTF-8, as that of a call, without the status.
fn add_process<R: Threads + Wait + Sync>(
    rt: &R,
    alloc: Global,
    lines: &mut String,
) -> Result<(), Memory> {
    let case = CASE.as_bytes().to_vec(alloc)?;
    let mut source = MemSource::new(case, 16, vec![in alloc; 1]?);
    let mut sink = MemSink::new(alloc, 4096, 10, vec![in alloc; NEVER]?)?;
    process_unreadable(rt, alloc, &mut source, &mut sink);
    lines.push_str("an argument that isn't UTF-8: ")?;
    add_end(alloc, lines, &source, &sink)
}

/// Adds the lines of calls over devices that fail, and of arguments that no row has. The calls that read nothing would fail in
/// their first read.
pub fn add_calls<R: Threads + Wait + Sync>(
    rt: &R,
    alloc: Global,
    lines: &mut String,
) -> Result<(), Memory> {
    let judge: &[&str] = &["refcli", "judge"];
    let rows: [(&str, &[&str], u64, u64); 12] = [
        ("no device fails", judge, NEVER, NEVER),
        ("the first read fails", judge, 1, NEVER),
        ("the second read fails", judge, 2, NEVER),
        ("the first write fails", judge, NEVER, 1),
        ("the third write fails", judge, NEVER, 3),
        ("no arguments", &[], 1, NEVER),
        ("the program's name alone", &["refcli"], 1, NEVER),
        ("an empty argument", &["refcli", ""], 1, NEVER),
        (
            "an argument with a line feed",
            &["refcli", "judge\n"],
            1,
            NEVER,
        ),
        (
            "the large workload",
            &["refcli", "big", "1", "--posters", "2"],
            1,
            NEVER,
        ),
        ("seed 0 of it", &["refcli", "big", "0"], 1, NEVER),
        (
            "seed 0 by posters and workers",
            &["refcli", "big", "0", "--posters", "8", "--workers", "4"],
            1,
            NEVER,
        ),
    ];
    for (name, arguments, failing_read, failing_write) in rows {
        let call = Call {
            name,
            arguments,
            failing_read,
            failing_write,
        };
        add_call(rt, alloc, lines, &call)?;
    }
    add_process(rt, alloc, lines)
}
