//! The texts that rows write.
use std::alloc::Global;
use toy_rows::{Unanswered, bytes_of};

/// Adds what a repetition writes: its count, `*`, and the piece that stands so often.
fn add_repeated(alloc: Global, text: &mut String, repetition: &str) -> Result<(), Unanswered> {
    let Some((count, piece)) = repetition.split_once('*') else {
        return Err(Unanswered::NoRow);
    };
    let Ok(count) = count.parse::<usize>() else {
        return Err(Unanswered::NoRow);
    };
    Ok(text.push_str(piece.repeat(alloc, count)?.as_str())?)
}

/// The text with each `(COUNT*PIECE)` written out.
pub fn expanded(alloc: Global, short: &str) -> Result<String, Unanswered> {
    let mut text = String::new(alloc);
    for part in short.split('(') {
        match part.split_once(')') {
            Some((repetition, rest)) => {
                add_repeated(alloc, &mut text, repetition)?;
                text.push_str(rest)?;
            }
            None => text.push_str(part)?,
        }
    }
    Ok(text)
}

/// The text with `OLD => NEW` carried out: the new part in place of the old one, wherever that stands.
fn edited(alloc: Global, text: &str, edit: &str) -> Result<String, Unanswered> {
    let Some((old, new)) = edit.split_once(" => ") else {
        return Err(Unanswered::NoRow);
    };
    if !text.contains(old) {
        return Err(Unanswered::NoRow);
    }
    let new = expanded(alloc, new)?;
    Ok(text.replace(alloc, old, new.as_str())?)
}

/// The base with each of these edits, one after the other, between the words ` and `.
fn edited_by_all(alloc: Global, base: &str, edits: &str) -> Result<String, Unanswered> {
    let mut text = String::from_str(alloc, base)?;
    for edit in edits.split(" and ") {
        text = edited(alloc, text.as_str(), edit)?;
    }
    Ok(text)
}

/// What a row writes: `bytes DIGITS`, `with EDIT and EDIT ..`, which edits the base, or the text itself.
pub fn written(alloc: Global, base: &str, words: &str) -> Result<Vec<u8>, Unanswered> {
    if let Some(digits) = words.strip_prefix("bytes") {
        bytes_of(alloc, digits.trim_start())
    } else if let Some(edits) = words.strip_prefix("with ") {
        Ok(edited_by_all(alloc, base, edits)?.into_bytes())
    } else {
        Ok(expanded(alloc, words)?.into_bytes())
    }
}
