//! A table of rows, and its answers.
ghost use denote.Param.Send.{IsSync};

use crate::words::Unanswered;
use io_edge::{Source, read_all};
use rd_base::Memory;
use std::alloc::Global;
use std::thread::Threads;

/// The most bytes of all rows.
const MOST: usize = 1_048_576;

/// What answers rows. It keeps what some of them say of those below.
pub trait Table {
    /// The answer to a row; an empty one isn't written.
    fn answer<R: Threads + Sync>(
        &mut self,
        rt: &R,
        alloc: Global,
        row: &str,
    ) -> Result<String, Unanswered>
        requires { IsSync R.row };
}

/// The rows, each with its answer below it.
#[derive(Drop)]
pub struct Answers {
    pub lines: String,
    /// Whether each line is a row of the table, a comment or empty.
    pub are_rows: bool,
}

/// The text of a source. An `Err` is out of memory, or the source can't be read.
fn text_of<S: Source>(alloc: Global, source: &mut S) -> Result<String, Memory> {
    match read_all(alloc, source, MOST) {
        Ok(bytes) => String::from_utf8(bytes).or(Err(Memory)),
        Err(_) => Err(Memory),
    }
}

/// Adds an answer, if there is one, behind two spaces.
fn add_text(lines: &mut String, text: &str) -> Result<(), Memory> {
    if !text.is_empty() {
        lines.push_str("  ")?;
        lines.push_str(text)?;
        lines.push_str("\n")?;
    }
    Ok(())
}

/// Adds a row's answer, or that it is no row. The result is whether it is one.
fn add_answer(lines: &mut String, answer: Result<String, Unanswered>) -> Result<bool, Memory> {
    match answer {
        Ok(text) => {
            add_text(lines, text.as_str())?;
            Ok(true)
        }
        Err(Unanswered::NoRow) => {
            add_text(lines, "no such row")?;
            Ok(false)
        }
        Err(Unanswered::Memory) => Err(Memory),
    }
}

/// The rows of a source, one a line, each with its answer below it; `no such row` stands below a line that is none. An `Err` is out of
/// memory, or the source can't be read.
pub fn answered<R: Threads + Sync, S: Source, T: Table>(
    rt: &R,
    alloc: Global,
    source: &mut S,
    table: &mut T,
) -> Result<Answers, Memory>
    requires { IsSync R.row }
{
    let rows = text_of(alloc, source)?;
    let mut lines = String::new(alloc);
    let mut are_rows = true;
    for row in rows.as_str().lines() {
        lines.push_str(row)?;
        lines.push_str("\n")?;
        if !row.is_empty() && !row.starts_with('#') {
            let is_row = add_answer(&mut lines, table.answer(rt, alloc, row))?;
            are_rows = are_rows && is_row;
        }
    }
    Ok(Answers { lines, are_rows })
}
