//! Bytes as runs of one value each, and what is read of them.

use proof_wire::{decode, decode_step, encode};
use rd_base::{Answer, Memory};
use std::alloc::{AllocError, Global};

/// A byte, and how often it stands in a row.
pub(crate) type Run = (u8, usize);

/// Writes a byte this many times.
fn put(bytes: &mut Vec<u8>, byte: u8, count: usize) -> Result<(), AllocError> {
    for _ in 0..count {
        bytes.push(byte)?;
    }
    Ok(())
}

/// Writes runs, one behind another.
fn put_each(bytes: &mut Vec<u8>, runs: &[Run]) -> Result<(), AllocError> {
    for (byte, count) in runs {
        put(bytes, *byte, *count)?;
    }
    Ok(())
}

/// The runs of several parts, one behind another.
pub(crate) fn laid_out(alloc: Global, parts: &[&[Run]]) -> Result<Vec<u8>, AllocError> {
    let mut bytes = Vec::new(alloc);
    for part in parts {
        put_each(&mut bytes, part)?;
    }
    Ok(bytes)
}

/// The number of the rule that the bytes break: 0 if they are an answer, 6 if there is no memory.
pub(crate) fn broken_rule(alloc: Global, bytes: &[u8]) -> u32 {
    match decode(alloc, bytes) {
        Ok(_) => 0,
        Err(fault) => fault.rule().unwrap_or(6),
    }
}

/// The same of the reader of a step alone.
pub(crate) fn rule_of_step(bytes: &[u8]) -> u32 {
    match decode_step(bytes) {
        Ok(_) => 0,
        Err(fault) => fault.rule().unwrap_or(6),
    }
}

/// Whether these are the bytes that were written.
fn are_written(written: Result<Vec<u8>, Memory>, bytes: &[u8]) -> bool {
    match written {
        Ok(written) => written.as_slice() == bytes,
        Err(Memory) => false,
    }
}

/// Whether an answer has these bytes.
fn has_bytes(alloc: Global, answer: Answer, bytes: &[u8]) -> bool {
    are_written(encode(alloc, &answer), bytes)
}

/// Whether there is an answer, with these bytes.
fn is_with(alloc: Global, answer: Result<Answer, Memory>, bytes: &[u8]) -> bool {
    match answer {
        Ok(answer) => has_bytes(alloc, answer, bytes),
        Err(Memory) => false,
    }
}

/// Whether bytes are an answer, which has these bytes.
fn come_back(alloc: Global, bytes: &[u8]) -> bool {
    match decode(alloc, bytes) {
        Ok(answer) => has_bytes(alloc, answer, bytes),
        Err(_) => false,
    }
}

/// The length of the first shorter prefix that isn't too short.
fn first_whole(alloc: Global, bytes: &[u8]) -> Option<usize> {
    for end in 0..bytes.len() {
        if broken_rule(alloc, &bytes[..end]) != 1 {
            return Some(end);
        }
    }
    None
}

/// The rule that bytes with one more behind them break, 6 if there is no memory.
fn rule_of_more(alloc: Global, bytes: Vec<u8>) -> u32 {
    let mut more = bytes;
    match more.push(0) {
        Ok(()) => broken_rule(alloc, more.as_slice()),
        Err(_) => 6,
    }
}

/// Whether an answer has these bytes, its copy too, and they are a whole answer.
fn is_spelt(alloc: Global, answer: &Answer, bytes: Vec<u8>) -> bool {
    let is_copied = is_with(alloc, answer.copy(alloc), bytes.as_slice());
    let is_written = are_written(encode(alloc, answer), bytes.as_slice());
    is_copied & is_written & are_whole(alloc, bytes)
}

/// The same, if there was memory for the bytes.
fn are_spelt(alloc: Global, answer: &Answer, bytes: Result<Vec<u8>, AllocError>) -> bool {
    match bytes {
        Ok(bytes) => is_spelt(alloc, answer, bytes),
        Err(_) => false,
    }
}

/// The same of an answer that is let go.
fn was_spelt(alloc: Global, answer: Answer, bytes: Result<Vec<u8>, AllocError>) -> bool {
    are_spelt(alloc, &answer, bytes)
}

/// Whether bytes are an answer and come back from it, no shorter prefix of them is whole, and a byte behind them is one too many.
fn are_whole(alloc: Global, bytes: Vec<u8>) -> bool {
    let come_back = come_back(alloc, bytes.as_slice());
    let first_whole = first_whole(alloc, bytes.as_slice());
    (come_back, first_whole, rule_of_more(alloc, bytes)) == (true, None, 4)
}

/// Whether there is an answer, it and its copy have these bytes and no others, and it comes back from them. It isn't so if memory runs out.
pub(crate) fn is_form(alloc: Global, answer: Option<Answer>, parts: &[&[Run]]) -> bool {
    match answer {
        Some(answer) => was_spelt(alloc, answer, laid_out(alloc, parts)),
        None => false,
    }
}

/// Whether there are this many bytes.
pub(crate) fn are_of_size(alloc: Global, size: usize, parts: &[&[Run]]) -> bool {
    match laid_out(alloc, parts) {
        Ok(bytes) => bytes.len() == size,
        Err(_) => false,
    }
}
