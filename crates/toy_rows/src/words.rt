//! The words of a row, and what they write.
use hex::FromHexError;
use rd_base::Memory;
use std::alloc::{AllocError, AllocFailed, Global};

/// Why a row has no answer.
#[derive(Clone, Copy)]
pub enum Unanswered {
    /// It is no row of this table, or its words don't meet the conditions of its call.
    NoRow,
    /// An allocation was refused.
    Memory,
}

impl From<Memory> for Unanswered {
    fn from(_e: Memory) -> Unanswered {
        Unanswered::Memory
    }
}

impl From<AllocError> for Unanswered {
    fn from(_e: AllocError) -> Unanswered {
        Unanswered::Memory
    }
}

impl<T: Drop> From<AllocFailed<T>> for Unanswered {
    fn from(_e: AllocFailed<T>) -> Unanswered {
        Unanswered::Memory
    }
}

/// The parts of a text, between these characters.
pub fn parts_of<'a>(
    alloc: Global,
    text: &'a str,
    between: char,
) -> Result<Vec<&'a str>, Unanswered> {
    let mut parts = Vec::new(alloc);
    for part in text.split(between) {
        parts.push(part)?;
    }
    Ok(parts)
}

/// The first four parts of a text, between commas. An empty one stands for a part that isn't there.
pub fn four_of(text: &str) -> [&str; 4] {
    let (first, rest) = text.split_once(',').unwrap_or((text, ""));
    let (second, rest) = rest.split_once(',').unwrap_or((rest, ""));
    let (third, rest) = rest.split_once(',').unwrap_or((rest, ""));
    let (fourth, _) = rest.split_once(',').unwrap_or((rest, ""));
    [first, second, third, fourth]
}

/// Adds a part to a text, behind what stands between two parts, if there was one before.
pub fn add_part(text: &mut String, between: &str, part: &str) -> Result<(), Unanswered> {
    if !text.is_empty() {
        text.push_str(between)?;
    }
    Ok(text.push_str(part)?)
}

/// The word at a place.
pub fn word<'a>(words: &[&'a str], at: usize) -> Result<&'a str, Unanswered> {
    words.get(at).copied().ok_or(Unanswered::NoRow)
}

/// The number that a text writes: in decimal, or in hexadecimal behind `0x`.
pub fn long_of(text: &str) -> Result<u64, Unanswered> {
    let read = match text.strip_prefix("0x") {
        Some(digits) => u64::from_str_radix(digits, 16),
        None => u64::from_str_radix(text, 10),
    };
    read.or(Err(Unanswered::NoRow))
}

/// The same of 32 bits.
pub fn number_of(text: &str) -> Result<u32, Unanswered> {
    u32::try_from(long_of(text)?).or(Err(Unanswered::NoRow))
}

/// The same of 8 bits.
pub fn byte_of(text: &str) -> Result<u8, Unanswered> {
    u8::try_from(long_of(text)?).or(Err(Unanswered::NoRow))
}

/// The number that the word at a place writes.
pub fn long(words: &[&str], at: usize) -> Result<u64, Unanswered> {
    long_of(word(words, at)?)
}

/// The same of 32 bits.
pub fn number(words: &[&str], at: usize) -> Result<u32, Unanswered> {
    number_of(word(words, at)?)
}

/// A byte, this many times.
fn repeated(alloc: Global, byte: &str, count: &str) -> Result<Vec<u8>, Unanswered> {
    let byte = byte_of(byte)?;
    let count = number_of(count)? as usize;
    Ok(vec![in alloc; byte; count]?)
}

/// The bytes that a text writes in hexadecimal; `-` stands for none, and `BYTE*COUNT` for a byte so many times.
pub fn bytes_of(alloc: Global, text: &str) -> Result<Vec<u8>, Unanswered> {
    if text == "-" {
        return Ok(Vec::new(alloc));
    }
    if let Some((byte, count)) = text.split_once('*') {
        return repeated(alloc, byte, count);
    }
    match hex::decode(alloc, text) {
        Ok(bytes) => Ok(bytes),
        Err(FromHexError::OutOfMemory) => Err(Unanswered::Memory),
        Err(_) => Err(Unanswered::NoRow),
    }
}

/// The bytes that the word at a place writes.
pub fn bytes(alloc: Global, words: &[&str], at: usize) -> Result<Vec<u8>, Unanswered> {
    bytes_of(alloc, word(words, at)?)
}
