//! The row `one_honest_prover` over devices that take or give seven bytes a call, of which each call fails in turn.
use crate::devices::{CASE, answer_of, arguments_of};
use io_edge::{MemSink, MemSource};
use rd_base::Memory;
use std::alloc::Global;
use std::sync::Wait;
use std::thread::Threads;

/// How many bytes a call of a device gives or takes.
const PIECE: usize = 7;

/// More calls than a run makes of a device.
const MANY: u64 = 100;

/// What is left of a run: its status, what the sink holds, and whether a call failed.
#[derive(Drop)]
struct Left {
    status: u8,
    text: String,
    failed: bool,
}

/// A run whose source fails at one call, and whose sink at another, each counted from 1; 0 is never.
fn run_failing<R: Threads + Wait + Sync>(
    rt: &R,
    alloc: Global,
    read: u64,
    write: u64,
) -> Result<Left, Memory> {
    let arguments = arguments_of(alloc, &["refcli", "judge"])?;
    let case = CASE.as_bytes().to_vec(alloc)?;
    let mut source = MemSource::new(case, PIECE, vec![in alloc; read]?);
    let mut sink = MemSink::new(alloc, 4096, PIECE, vec![in alloc; write]?)?;
    let answered = answer_of(rt, alloc, arguments.as_slice(), &mut source, &mut sink);
    let text = String::from_utf8(sink.as_slice().to_vec(alloc)?);
    Ok(Left {
        status: answered.status(),
        text: text.unwrap_or(String::new(alloc)),
        failed: source.faults() > 0 || sink.faults() > 0,
    })
}

/// Adds a line for a run with a call that fails, with the text that the sink holds then; or, if no call failed, that there are fewer.
fn add_run(
    alloc: Global,
    lines: &mut String,
    device: &str,
    call: u64,
    left: &Left,
) -> Result<(), Memory> {
    if !left.failed {
        let line = format!(in alloc; "{device}: fewer than {call} calls\n")?;
        lines.push_str(line.as_str())?;
        return Ok(());
    }
    let status = left.status;
    let first = format!(in alloc; "{device} {call} fails: status {status}, ")?;
    lines.push_str(first.as_str())?;
    let text = left.text.as_str();
    let second = format!(in alloc; "written '{text}'\n")?;
    lines.push_str(second.as_str())?;
    Ok(())
}

/// Adds the lines of reads that fail, the first alone, the second alone, and so on, up to the last that a run makes.
fn add_reads<R: Threads + Wait + Sync>(
    rt: &R,
    alloc: Global,
    lines: &mut String,
) -> Result<(), Memory> {
    for call in 1..MANY {
        let left = run_failing(rt, alloc, call, 0)?;
        add_run(alloc, lines, "read", call, &left)?;
        if !left.failed {
            return Ok(());
        }
    }
    Ok(())
}

/// Adds the same lines of writes.
fn add_writes<R: Threads + Wait + Sync>(
    rt: &R,
    alloc: Global,
    lines: &mut String,
) -> Result<(), Memory> {
    for call in 1..MANY {
        let left = run_failing(rt, alloc, 0, call)?;
        add_run(alloc, lines, "write", call, &left)?;
        if !left.failed {
            return Ok(());
        }
    }
    Ok(())
}

/// Adds the lines of each call that fails, of the source and of the sink.
pub fn add_calls_in_turn<R: Threads + Wait + Sync>(
    rt: &R,
    alloc: Global,
    lines: &mut String,
) -> Result<(), Memory> {
    add_reads(rt, alloc, lines)?;
    add_writes(rt, alloc, lines)
}
