//! Words of a row that write steps.
use std::alloc::Global;
use toy_rows::{Unanswered, long_of, word};

/// The steps that the word at a place writes, with commas between them; `-` stands for none.
pub fn steps_of(alloc: Global, words: &[&str], at: usize) -> Result<Vec<u64>, Unanswered> {
    let mut steps = Vec::new(alloc);
    let text = word(words, at)?;
    if text != "-" {
        for step in text.split(',') {
            steps.push(long_of(step)?)?;
        }
    }
    Ok(steps)
}
