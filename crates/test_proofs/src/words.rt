//! The words of a row that write numbers and digests.
use rd_base::Digest32;
use std::alloc::Global;
use toy_rows::{Unanswered, bytes, number_of};

/// The numbers that a text writes, between commas; `none` stands for no number.
pub fn numbers_of(alloc: Global, text: &str) -> Result<Vec<u32>, Unanswered> {
    let mut numbers = Vec::new(alloc);
    if text == "none" {
        return Ok(numbers);
    }
    for part in text.split(',') {
        numbers.push(number_of(part)?)?;
    }
    Ok(numbers)
}

/// The index that a text writes; `none` stands for none.
pub fn index_of(text: &str) -> Result<Option<u32>, Unanswered> {
    match text {
        "none" => Ok(None),
        index => Ok(Some(number_of(index)?)),
    }
}

/// The digest that a word at a place writes: its 32 bytes, or one byte that all of them are.
pub fn digest(alloc: Global, words: &[&str], at: usize) -> Result<Digest32, Unanswered> {
    let bytes = bytes(alloc, words, at)?;
    match bytes.as_slice() {
        [byte] => Ok(Digest32([*byte; 32])),
        bytes => match <[u8; 32]>::try_from(bytes) {
            Ok(bytes) => Ok(Digest32(bytes)),
            Err(_) => Err(Unanswered::NoRow),
        },
    }
}
