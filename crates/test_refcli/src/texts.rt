//! The texts that rows write.
//!
//! A row writes its text as it is, or as an edit of another one. In it `<NAME>` stands for the text of that name, and `<COUNT*PIECE>` for a
//! piece that stands so often.
use std::alloc::{AllocError, Global};
use toy_rows::Unanswered;

/// A text with its name.
#[derive(Drop)]
pub struct Named {
    pub name: String,
    pub text: String,
}

impl Named {
    /// A copy of both.
    pub fn copied(alloc: Global, name: &str, text: &str) -> Result<Named, AllocError> {
        Ok(Named {
            name: String::from_str(alloc, name)?,
            text: String::from_str(alloc, text)?,
        })
    }
}

/// What rows take texts from: the last base, and the texts that have names.
#[derive(Drop)]
pub struct Texts {
    pub base: String,
    pub named: Vec<Named>,
}

/// The text of a name.
fn text_of<'a>(named: &'a [Named], name: &str) -> Result<&'a str, Unanswered> {
    for one in named {
        if one.name.as_str() == name {
            return Ok(one.text.as_str());
        }
    }
    Err(Unanswered::NoRow)
}

/// Adds what is written for the words between `<` and `>`.
fn add_inserted(
    alloc: Global,
    text: &mut String,
    named: &[Named],
    words: &str,
) -> Result<(), Unanswered> {
    let Some((count, piece)) = words.split_once('*') else {
        return Ok(text.push_str(text_of(named, words)?)?);
    };
    let Ok(count) = count.parse::<usize>() else {
        return Err(Unanswered::NoRow);
    };
    Ok(text.push_str(piece.repeat(alloc, count)?.as_str())?)
}

/// The text with each `<NAME>` and each `<COUNT*PIECE>` written out.
fn expanded(alloc: Global, named: &[Named], short: &str) -> Result<String, Unanswered> {
    let mut text = String::new(alloc);
    for part in short.split('<') {
        match part.split_once('>') {
            Some((words, rest)) => {
                add_inserted(alloc, &mut text, named, words)?;
                text.push_str(rest)?;
            }
            None => text.push_str(part)?,
        }
    }
    Ok(text)
}

/// The text with `OLD => NEW` carried out: the new part in place of the old one, wherever that stands.
fn edited(alloc: Global, named: &[Named], text: &str, edit: &str) -> Result<String, Unanswered> {
    let Some((old, new)) = edit.split_once(" => ") else {
        return Err(Unanswered::NoRow);
    };
    let old = expanded(alloc, named, old)?;
    if !text.contains(old.as_str()) {
        return Err(Unanswered::NoRow);
    }
    let new = expanded(alloc, named, new)?;
    Ok(text.replace(alloc, old.as_str(), new.as_str())?)
}

/// The text with each of these edits, one after the other, between the words ` and `.
fn edited_by_all(
    alloc: Global,
    named: &[Named],
    text: &str,
    edits: &str,
) -> Result<String, Unanswered> {
    let mut text = String::from_str(alloc, text)?;
    for edit in edits.split(" and ") {
        text = edited(alloc, named, text.as_str(), edit)?;
    }
    Ok(text)
}

/// What a row writes: `nothing`, `same NAME`, `same NAME with EDIT and EDIT ..`, `with EDIT and EDIT ..`, which edits the base, or the text
/// itself.
pub fn written(alloc: Global, texts: &Texts, words: &str) -> Result<String, Unanswered> {
    let named = texts.named.as_slice();
    if words == "nothing" {
        Ok(String::new(alloc))
    } else if let Some(edits) = words.strip_prefix("with ") {
        edited_by_all(alloc, named, texts.base.as_str(), edits)
    } else if let Some(other) = words.strip_prefix("same ") {
        match other.split_once(" with ") {
            Some((name, edits)) => edited_by_all(alloc, named, text_of(named, name)?, edits),
            None => Ok(String::from_str(alloc, text_of(named, other)?)?),
        }
    } else {
        expanded(alloc, named, words)
    }
}
