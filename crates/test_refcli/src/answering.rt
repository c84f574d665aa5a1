//! The program called over memory, and the line of its answer.
use delegate::{Answered, run};
use digest_core::{Digester, Sha256};
use io_edge::{MemSink, QuietSource};
use rd_base::Memory;
use std::alloc::{AllocError, Global};
use std::sync::Wait;
use std::thread::Threads;

/// The most bytes of a text.
const ROOM: usize = 1_048_576;

/// The result of a call.
#[derive(Drop)]
pub struct Outcome {
    pub answered: Answered,
    pub text: String,
}

/// The arguments of a command line: the program's name, and the words that spaces part.
fn arguments_of(alloc: Global, line: &str) -> Result<Vec<String>, AllocError> {
    let mut arguments = Vec::new(alloc);
    arguments.push(String::from_str(alloc, "refcli")?)?;
    for word in line.split(' ') {
        arguments.push(String::from_str(alloc, word)?)?;
    }
    Ok(arguments)
}

/// The program's answer, in a function of its own, so that the clauses of `run` burden no other proof.
fn answer_of<R: Threads + Wait + Sync>(
    rt: &R,
    alloc: Global,
    arguments: &[String],
    source: &mut QuietSource,
    sink: &mut MemSink,
) -> Answered {
    run(rt, alloc, arguments, source, sink)
}

/// What the program answers and writes for a command line and the bytes of a case. A text that isn't UTF-8, which never comes,
/// is empty.
pub fn outcome_of<R: Threads + Wait + Sync>(
    rt: &R,
    alloc: Global,
    line: &str,
    case: Vec<u8>,
) -> Result<Outcome, Memory> {
    let arguments = arguments_of(alloc, line)?;
    let mut source = QuietSource::new(case);
    let mut sink = MemSink::new(alloc, ROOM, ROOM, Vec::new(alloc))?;
    let answered = answer_of(rt, alloc, arguments.as_slice(), &mut source, &mut sink);
    let text = String::from_utf8(sink.as_slice().to_vec(alloc)?);
    Ok(Outcome {
        answered,
        text: text.unwrap_or(String::new(alloc)),
    })
}

/// Adds the line of an audit: the status, and the answer.
pub fn add_audit<R: Threads + Wait + Sync>(
    rt: &R,
    alloc: Global,
    answers: &mut String,
    text: Vec<u8>,
) -> Result<(), Memory> {
    let outcome = outcome_of(rt, alloc, "audit", text)?;
    let status = outcome.answered.status();
    let answer = outcome.text.as_str();
    let line = format!(in alloc; "{status} {answer}")?;
    answers.push_str(line.as_str())?;
    Ok(())
}

/// The digest of a text, in hexadecimal.
pub fn digest_of(alloc: Global, text: &[u8]) -> Result<String, AllocError> {
    let digest = Sha256.digest(text);
    hex::encode(alloc, digest.0.as_slice())
}

/// The last line of a text.
pub fn last_line(text: &str) -> &str {
    let lines = text.trim_end();
    match lines.rsplit_once('\n') {
        Some((_, line)) => line,
        None => lines,
    }
}

/// Adds a line of what a command answers: the status, how many bytes the text has, their digest, and how the text's last line
/// begins.
pub fn add_line<R: Threads + Wait + Sync>(
    rt: &R,
    alloc: Global,
    lines: &mut String,
    name: &str,
    command: &str,
    case: Result<Vec<u8>, AllocError>,
) -> Result<(), Memory> {
    let outcome = outcome_of(rt, alloc, command, case?)?;
    let status = outcome.answered.status();
    let text = outcome.text.as_str();
    let length = text.len();
    let digest = digest_of(alloc, text.as_bytes())?;
    let last = last_line(text);
    let last = last.get(..60).unwrap_or(last);
    let first = format!(in alloc; "{name}: status {status}, {length} bytes, ")?;
    lines.push_str(first.as_str())?;
    let second = format!(in alloc; "{digest}, {last}\n")?;
    lines.push_str(second.as_str())?;
    Ok(())
}
