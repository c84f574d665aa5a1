//! The rows of standard input, and the answer to each.
use crate::answering::outcome_of;
use crate::texts::{Named, Texts, written};
use crate::{changes, mutants};
use io_edge::{Source, read_all};
use rd_base::Memory;
use std::alloc::{AllocError, Global};
use std::sync::Wait;
use std::thread::Threads;
use toy_rows::Unanswered;

/// The most bytes of all rows.
const MOST: usize = 1_048_576;

/// A text that is longer isn't written again.
const LONG: usize = 1_000;

/// What the rows so far leave to those below: texts, and the long ones that the program wrote for rows with a name.
#[derive(Drop)]
struct Table {
    texts: Texts,
    answers: Vec<Named>,
}

/// The rows, each with its answer below it.
#[derive(Drop)]
pub struct Answered {
    pub lines: String,
    /// Whether each line is a row, a comment or empty.
    pub are_rows: bool,
}

/// The bytes of a text, in which each `|` stands for a line feed.
fn bytes_of(alloc: Global, text: &str) -> Result<Vec<u8>, AllocError> {
    let mut bytes = Vec::new(alloc);
    for byte in text.bytes() {
        bytes.push(if byte == b'|' { b'\n' } else { byte })?;
    }
    Ok(bytes)
}

/// The name of the row for which this text was written before.
fn name_of<'a>(answers: &'a [Named], text: &str) -> Option<&'a str> {
    for one in answers {
        if one.text.as_str() == text {
            return Some(one.name.as_str());
        }
    }
    None
}

/// Adds a text that the program wrote for a row of this name; of a long one that it wrote before, only for which row.
fn add_text(
    alloc: Global,
    answer: &mut String,
    answers: &mut Vec<Named>,
    name: &str,
    text: &str,
) -> Result<(), AllocError> {
    if let Some(before) = name_of(answers.as_slice(), text) {
        answer.push_str("the text of ")?;
        answer.push_str(before)?;
        return answer.push_str("\n");
    }
    answer.push_str(text)?;
    if !name.is_empty() && text.len() > LONG {
        answers.push(Named::copied(alloc, name, text)?)?;
    }
    Ok(())
}

/// The answer to a call of the program: what it writes, and then the status.
fn called<R: Threads + Wait + Sync>(
    rt: &R,
    alloc: Global,
    answers: &mut Vec<Named>,
    name: &str,
    command: &str,
    text: &str,
) -> Result<String, Memory> {
    let outcome = outcome_of(rt, alloc, command, bytes_of(alloc, text)?)?;
    let status = outcome.answered.status();
    let mut answer = String::new(alloc);
    add_text(alloc, &mut answer, answers, name, outcome.text.as_str())?;
    let last = format!(in alloc; "status {status}\n")?;
    answer.push_str(last.as_str())?;
    Ok(answer)
}

/// The answer to a command over a text: of a call of the program, or of the audits of many texts that are made of this one.
fn answer_of<R: Threads + Wait + Sync>(
    rt: &R,
    alloc: Global,
    answers: &mut Vec<Named>,
    name: &str,
    command: &str,
    text: &str,
) -> Result<String, Memory> {
    match command {
        "each line changed" => changes::answers_of(rt, alloc, text),
        "mutants" => mutants::answers_of(rt, alloc, bytes_of(alloc, text)?.as_slice()),
        _ => called(rt, alloc, answers, name, command, text),
    }
}

/// `NAME: COMMAND < TEXT` and `COMMAND < TEXT`: the answer to the command. The text has the name from here on.
fn row_of_call<R: Threads + Wait + Sync>(
    rt: &R,
    alloc: Global,
    table: &mut Table,
    row: &str,
) -> Result<String, Unanswered> {
    let Some((call, words)) = row.split_once(" < ") else {
        return Err(Unanswered::NoRow);
    };
    let (name, command) = call.split_once(": ").unwrap_or(("", call));
    let text = written(alloc, &table.texts, words)?;
    let text = text.as_str();
    let answer = answer_of(rt, alloc, &mut table.answers, name, command, text)?;
    if !name.is_empty() {
        table.texts.named.push(Named::copied(alloc, name, text)?)?;
    }
    Ok(answer)
}

/// The answer to a row; empty to `base TEXT`, the text that the rows below edit, and to `text NAME TEXT`, a text with its name.
fn answer<R: Threads + Wait + Sync>(
    rt: &R,
    alloc: Global,
    table: &mut Table,
    row: &str,
) -> Result<String, Unanswered> {
    if let Some(words) = row.strip_prefix("base ") {
        let base = written(alloc, &table.texts, words)?;
        table.texts.base = base;
        Ok(String::new(alloc))
    } else if let Some(words) = row.strip_prefix("text ") {
        let Some((name, words)) = words.split_once(' ') else {
            return Err(Unanswered::NoRow);
        };
        let text = written(alloc, &table.texts, words)?;
        table
            .texts
            .named
            .push(Named::copied(alloc, name, text.as_str())?)?;
        Ok(String::new(alloc))
    } else {
        row_of_call(rt, alloc, table, row)
    }
}

/// Adds an answer, each of its lines behind two spaces.
fn add_answer(lines: &mut String, answer: &str) -> Result<(), AllocError> {
    for line in answer.lines() {
        lines.push_str("  ")?;
        lines.push_str(line)?;
        lines.push_str("\n")?;
    }
    Ok(())
}

/// The text of a source. `Memory` if it can't be read, too.
fn text_of<S: Source>(alloc: Global, source: &mut S) -> Result<String, Memory> {
    match read_all(alloc, source, MOST) {
        Ok(bytes) => String::from_utf8(bytes).or(Err(Memory)),
        Err(_) => Err(Memory),
    }
}

/// The rows that a source has, one a line, with their answers. `Memory` if they can't be read, too.
pub fn answers_of_rows<R: Threads + Wait + Sync, S: Source>(
    rt: &R,
    alloc: Global,
    source: &mut S,
) -> Result<Answered, Memory> {
    let rows = text_of(alloc, source)?;
    let mut table = Table {
        texts: Texts {
            base: String::new(alloc),
            named: Vec::new(alloc),
        },
        answers: Vec::new(alloc),
    };
    let mut lines = String::new(alloc);
    let mut are_rows = true;
    for row in rows.as_str().lines() {
        lines.push_str(row)?;
        lines.push_str("\n")?;
        if !row.is_empty() && !row.starts_with('#') {
            match answer(rt, alloc, &mut table, row) {
                Ok(text) => add_answer(&mut lines, text.as_str())?,
                Err(Unanswered::NoRow) => {
                    are_rows = false;
                    lines.push_str("  no such row\n")?;
                }
                Err(Unanswered::Memory) => return Err(Memory),
            }
        }
    }
    Ok(Answered { lines, are_rows })
}
