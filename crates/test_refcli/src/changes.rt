//! The audit of full texts of which one line is changed.
//!
//! A text is cut after each of its lines, and each line is exchanged with the next, left out and doubled. The expected lines are those of
//! another player of texts, `checks/lines.py --stored`.
use crate::answering::add_audit;
use rd_base::Memory;
use std::alloc::{AllocError, Global};
use std::sync::Wait;
use std::thread::Threads;

/// How a line is changed.
#[derive(Clone, Copy)]
enum Change {
    /// Nothing follows it.
    Cut,
    /// It is behind the next one.
    Exchanged,
    LeftOut,
    Doubled,
}

impl Change {
    /// Whether it is a change only of a line that another one follows.
    fn needs_the_next(self) -> bool {
        matches!(self, Change::Cut | Change::Exchanged)
    }
}

/// Adds this line to a text.
fn add_line(text: &mut String, line: &str) -> Result<(), AllocError> {
    text.push_str(line)?;
    text.push_str("\n")
}

/// Lines of which the one of a number, counted from 0, is changed.
fn changed(alloc: Global, lines: &[&str], at: usize, change: Change) -> Result<String, AllocError> {
    let mut text = String::new(alloc);
    for (i, line) in lines.iter().enumerate() {
        match change {
            Change::Cut => {
                if i <= at {
                    add_line(&mut text, line)?;
                }
            }
            Change::Exchanged => {
                if i != at {
                    add_line(&mut text, line)?;
                }
                if i > at && i - at == 1 {
                    if let Some(moved) = lines.get(at) {
                        add_line(&mut text, moved)?;
                    }
                }
            }
            Change::LeftOut => {
                if i != at {
                    add_line(&mut text, line)?;
                }
            }
            Change::Doubled => {
                add_line(&mut text, line)?;
                if i == at {
                    add_line(&mut text, line)?;
                }
            }
        }
    }
    Ok(text)
}

/// The audits of a row's text with one line changed, line after line, a line each. The last one is only left out and doubled.
pub fn answers_of<R: Threads + Wait + Sync>(
    rt: &R,
    alloc: Global,
    row: &str,
) -> Result<String, Memory> {
    let mut lines = Vec::new(alloc);
    for line in row.split_terminator('|') {
        lines.push(line)?;
    }
    let mut answers = String::new(alloc);
    for at in 0..lines.len() {
        for change in [
            Change::Cut,
            Change::Exchanged,
            Change::LeftOut,
            Change::Doubled,
        ] {
            if lines.len().saturating_sub(at) > 1 || !change.needs_the_next() {
                let text = changed(alloc, lines.as_slice(), at, change)?;
                add_audit(rt, alloc, &mut answers, text.into_bytes())?;
            }
        }
    }
    Ok(answers)
}
