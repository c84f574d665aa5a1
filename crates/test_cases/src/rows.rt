//! The rows, and what each calls.
use crate::{answers, texts};
use case_reader::{CaseFault, TaskFault};
use std::alloc::Global;
use std::thread::Threads;
use toy_rows::{Table, Unanswered};

/// What the rows below a row of `base` edit.
#[derive(Drop)]
pub struct Base {
    /// The text.
    pub text: String,
}

/// `case TEXT`: what the text is read as by `read_case`.
fn case(alloc: Global, base: &str, words: &str) -> Result<String, Unanswered> {
    let bytes = texts::written(alloc, base, words)?;
    answers::of_case(alloc, bytes.as_slice())
}

/// `tasks TEXT`: what the text is read as by `read_tasks`.
fn tasks(alloc: Global, base: &str, words: &str) -> Result<String, Unanswered> {
    let bytes = texts::written(alloc, base, words)?;
    answers::of_tasks(alloc, bytes.as_slice())
}

/// `memory case` and `memory tasks`: the text of the fault that an allocation was refused.
fn memory(alloc: Global, words: &str) -> Result<String, Unanswered> {
    match words {
        "case" => answers::fault(alloc, CaseFault::Memory),
        "tasks" => answers::fault_of_tasks(alloc, TaskFault::Memory),
        _ => Err(Unanswered::NoRow),
    }
}

/// `base TEXT`: the text that the rows below edit.
fn take_base(alloc: Global, base: &mut String, words: &str) -> Result<String, Unanswered> {
    let taken = texts::expanded(alloc, words)?;
    *base = taken;
    Ok(String::new(alloc))
}

/// The answer to a row. The first word is its call.
fn answer(alloc: Global, base: &mut String, row: &str) -> Result<String, Unanswered> {
    let Some((call, words)) = row.split_once(' ') else {
        return Err(Unanswered::NoRow);
    };
    match call {
        "base" => take_base(alloc, base, words),
        "case" => case(alloc, base.as_str(), words),
        "tasks" => tasks(alloc, base.as_str(), words),
        "memory" => memory(alloc, words),
        _ => Err(Unanswered::NoRow),
    }
}

impl Table for Base {
    fn answer<R: Threads + Sync>(
        &mut self,
        _rt: &R,
        alloc: Global,
        row: &str,
    ) -> Result<String, Unanswered> {
        answer(alloc, &mut self.text, row)
    }
}
