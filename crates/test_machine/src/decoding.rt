//! Rows of one instruction word.
use rd_base::Regs;
use rv_decode::decode;
use rv_step::{Outcome, finish};
use std::alloc::Global;
use toy_rows::{Unanswered, add_part, bytes, number, number_of};

/// The word of four bytes, the lowest first.
fn listed(alloc: Global, words: &[&str]) -> Result<u32, Unanswered> {
    let bytes = bytes(alloc, words, 1)?;
    match bytes.as_slice() {
        [a, b, c, d] => Ok(u32::from_le_bytes([*a, *b, *c, *d])),
        _ => Err(Unanswered::NoRow),
    }
}

/// `decode WORD`, and `listed BYTES` with the four bytes of a word as a file has them, the lowest first: its instruction, as the fields
/// print; `None` if it is none.
pub fn reading(alloc: Global, words: &[&str], is_listed: bool) -> Result<String, Unanswered> {
    let word = if is_listed {
        listed(alloc, words)?
    } else {
        number(words, 1)?
    };
    Ok(format!(in alloc; "{:?}", decode(word))?)
}

/// What a word leaves in x3, with `a` in x1 and `b` in x2, and with the number that it loads.
fn result_of(word: u32, a: u32, b: u32, loaded: u32) -> Option<u32> {
    let mut regs = Regs::new();
    regs.set(1, a);
    regs.set(2, b);
    let mut pc = 0;
    match finish(&mut regs, &mut pc, &decode(word)?, loaded) {
        Outcome::Next => Some(regs.get(3)),
        _ => None,
    }
}

/// Adds a result behind a space.
fn add(alloc: Global, results: &mut String, value: Option<u32>) -> Result<(), Unanswered> {
    match value {
        Some(value) => add_part(results, " ", format!(in alloc; "0x{value:x}")?.as_str()),
        None => add_part(results, " ", "none"),
    }
}

/// The operands in a text, of x1 and x2; the second one is 0 if it is left out.
fn operands_of(text: &str) -> Result<(u32, u32), Unanswered> {
    match text.split_once(',') {
        Some((a, b)) => Ok((number_of(a)?, number_of(b)?)),
        None => Ok((number_of(text)?, 0)),
    }
}

/// `x3 WORD`: what the word leaves in x3 for each pair of operands, between spaces.
pub fn results(alloc: Global, operands: &str, words: &[&str]) -> Result<String, Unanswered> {
    let word = number(words, 1)?;
    let mut results = String::new(alloc);
    for text in operands.split(' ') {
        let (a, b) = operands_of(text)?;
        add(alloc, &mut results, result_of(word, a, b, 0))?;
    }
    Ok(results)
}

/// `x3_loaded WORD LOADED ..`: what it leaves in x3 if it loads each of these numbers.
pub fn loads(alloc: Global, words: &[&str]) -> Result<String, Unanswered> {
    let word = number(words, 1)?;
    let mut results = String::new(alloc);
    for text in words.get(2..).unwrap_or(&[]) {
        add(alloc, &mut results, result_of(word, 0, 0, number_of(text)?))?;
    }
    Ok(results)
}
