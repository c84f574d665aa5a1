//! The rows, and what each calls.
use crate::run::{Program, Run, states_of};
use crate::{checks, claims, collisions, openings};
use std::alloc::Global;
use std::thread::Threads;
use toy_rows::{Table, Unanswered, bytes, number, parts_of, word};

/// What rows speak of: a program, and a run of it.
#[derive(Drop)]
pub struct Subject {
    program: Program,
    run: Run,
}

/// The answer to a row of claims or collisions, or of words.
fn of_words(alloc: Global, words: &[&str]) -> Result<String, Unanswered> {
    match word(words, 0)? {
        "chain" => claims::chain(alloc, words),
        "claim" => claims::claim(alloc, words),
        "root" => claims::root(alloc, words),
        "claims_collide" => claims::claims_collide(alloc, words),
        "steps_collide" => collisions::steps_collide(alloc, words),
        "names" => openings::names(alloc, words),
        _ => Err(Unanswered::NoRow),
    }
}

/// The answer to a row of the run, or to one of `of_words`.
fn of_run(alloc: Global, run: &Run, words: &[&str]) -> Result<String, Unanswered> {
    match word(words, 0)? {
        "check" => checks::check(alloc, run, words),
        "leads" => claims::leading(alloc, run),
        "judge" => claims::judged(alloc, run, words),
        "opens" => openings::opened(alloc, run, words),
        "length" => openings::length(alloc, run, words),
        _ => of_words(alloc, words),
    }
}

/// `program IMAGE INPUT`: the program of the rows below.
fn take_program(
    alloc: Global,
    program: &mut Program,
    words: &[&str],
) -> Result<String, Unanswered> {
    let image = bytes(alloc, words, 1)?;
    let input = bytes(alloc, words, 2)?;
    *program = Program { image, input };
    Ok(String::new(alloc))
}

/// `run VERSION COUNT`: the run of the rows below, of so many states of the program.
fn take_run<R: Threads + Sync>(
    rt: &R,
    alloc: Global,
    subject: &mut Subject,
    words: &[&str],
) -> Result<String, Unanswered> {
    let version = number(words, 1)?;
    let states = states_of(rt, alloc, version, &subject.program, number(words, 2)?)?;
    subject.run = Run { version, states };
    Ok(String::new(alloc))
}

/// The answer to a row.
fn answer<R: Threads + Sync>(
    rt: &R,
    alloc: Global,
    subject: &mut Subject,
    words: &[&str],
) -> Result<String, Unanswered> {
    match word(words, 0)? {
        "program" => take_program(alloc, &mut subject.program, words),
        "run" => take_run(rt, alloc, subject, words),
        _ => of_run(alloc, &subject.run, words),
    }
}

impl Table for Subject {
    fn answer<R: Threads + Sync>(
        &mut self,
        rt: &R,
        alloc: Global,
        row: &str,
    ) -> Result<String, Unanswered> {
        let words = parts_of(alloc, row, ' ')?;
        answer(rt, alloc, self, words.as_slice())
    }
}

/// What the first row speaks of: an empty program, and no state of it.
pub fn empty_subject(alloc: Global) -> Subject {
    Subject {
        program: Program {
            image: Vec::new(alloc),
            input: Vec::new(alloc),
        },
        run: Run {
            version: 1,
            states: Vec::new(alloc),
        },
    }
}
