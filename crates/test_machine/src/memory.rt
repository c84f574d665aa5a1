//! Rows of a memory. There are two: rows speak of the first, and `copy` and `exchange` reach the other.
use crate::words::written;
use mem_plain::PlainMem;
use std::alloc::Global;
use std::mem::{replace, swap};
use toy_rows::{Unanswered, bytes, number};

/// The two memories.
#[derive(Drop)]
pub struct Memories {
    /// That of which rows speak.
    pub first: PlainMem,
    /// The other one.
    pub other: PlainMem,
}

/// `lay ADDRESS BYTES`.
pub fn lay(alloc: Global, mem: &mut PlainMem, words: &[&str]) -> Result<String, Unanswered> {
    let addr = number(words, 1)?;
    let laid = bytes(alloc, words, 2)?;
    if laid.len() > 64 || addr > 0xffff_ff00 {
        return Err(Unanswered::NoRow);
    }
    *mem = replace(mem, PlainMem::new(alloc)).lay(addr, laid.as_slice())?;
    Ok(String::new(alloc))
}

/// `store ADDRESS WIDTH VALUE`.
pub fn store(alloc: Global, mem: &mut PlainMem, words: &[&str]) -> Result<String, Unanswered> {
    let addr = number(words, 1)?;
    let width = match number(words, 2)? {
        1 => 1,
        2 => 2,
        4 => 4,
        _ => return Err(Unanswered::NoRow),
    };
    if addr % u32::from(width) != 0 {
        return Err(Unanswered::NoRow);
    }
    mem.store(addr, width, number(words, 3)?)?;
    Ok(String::new(alloc))
}

/// `byte ADDRESS`.
pub fn byte(alloc: Global, mem: &PlainMem, words: &[&str]) -> Result<String, Unanswered> {
    let byte = mem.byte(number(words, 1)?);
    Ok(format!(in alloc; "0x{byte:02x}")?)
}

/// `half ADDRESS`.
pub fn half(alloc: Global, mem: &PlainMem, words: &[&str]) -> Result<String, Unanswered> {
    let addr = number(words, 1)?;
    if addr % 2 != 0 {
        return Err(Unanswered::NoRow);
    }
    let half = mem.half(addr);
    Ok(format!(in alloc; "0x{half:04x}")?)
}

/// `word ADDRESS`.
pub fn word(alloc: Global, mem: &PlainMem, words: &[&str]) -> Result<String, Unanswered> {
    let addr = number(words, 1)?;
    if addr % 4 != 0 {
        return Err(Unanswered::NoRow);
    }
    let word = mem.word(addr);
    Ok(format!(in alloc; "0x{word:08x}")?)
}

/// `chunk INDEX`.
pub fn chunk(alloc: Global, mem: &PlainMem, words: &[&str]) -> Result<String, Unanswered> {
    let index = number(words, 1)?;
    if index >= 0x0800_0000 {
        return Err(Unanswered::NoRow);
    }
    written(alloc, mem.chunk(index).as_slice())
}

/// `next_page FROM`.
pub fn next_page(alloc: Global, mem: &PlainMem, words: &[&str]) -> Result<String, Unanswered> {
    match mem.next_page(number(words, 1)?) {
        Some(page) => Ok(format!(in alloc; "0x{page:x}")?),
        None => Ok(String::from_str(alloc, "none")?),
    }
}

/// `put_page NUMBER FROM`: takes the other memory's page of the second number.
pub fn put_page(alloc: Global, both: &mut Memories, words: &[&str]) -> Result<String, Unanswered> {
    let to = number(words, 1)?;
    let from = number(words, 2)?;
    if to >= 0x10_0000 || from >= 0x10_0000 {
        return Err(Unanswered::NoRow);
    }
    let page = both.other.page(from)?;
    both.first.put_page(to, page)?;
    Ok(String::new(alloc))
}

/// `copy`: the other memory becomes a copy of the first.
pub fn copy(alloc: Global, both: &mut Memories) -> Result<String, Unanswered> {
    both.other = both.first.copy()?;
    Ok(String::new(alloc))
}

/// `exchange`: the first memory and the other one change places.
pub fn exchange(alloc: Global, both: &mut Memories) -> String {
    swap(&mut both.first, &mut both.other);
    String::new(alloc)
}

/// `new`: the first memory becomes an empty one.
pub fn new(alloc: Global, both: &mut Memories) -> String {
    both.first = PlainMem::new(alloc);
    String::new(alloc)
}
