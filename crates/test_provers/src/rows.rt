//! The rows, and what each calls.
ghost use denote.Param.Send.{IsSync};
ghost use Rattle.checkpoint_run.specs.Recorded.{AreChained};
ghost use Rattle.sha2.specs.Sha256.{sha256};

use crate::programs::{Program, program_of, run_of};
use crate::{digests, given, playing, proofs, provers, roots, runs};
use checkpoint_run::Run;
use std::alloc::Global;
use std::thread::Threads;
use toy_rows::{Table, Unanswered, number, parts_of, word};

/// The answer to a row of the digests of a run's roots.
fn of_digests<R: Threads + Sync>(
    rt: &R,
    alloc: Global,
    program: &Program,
    run: &Run,
    words: &[&str],
) -> Result<String, Unanswered>
    requires { AreChained sha256 run.now }
{
    match word(words, 0)? {
        "more" | "within" => digests::more(rt, alloc, run, words),
        "input_root" => digests::input_root(rt, alloc, program, run, words),
        "input_tree" => digests::input_tree(rt, alloc, program, run, words),
        _ => Err(Unanswered::NoRow),
    }
}

/// The answer to a row of a recorded run, or of its roots, or to one of `of_digests`.
fn of_run<R: Threads + Sync>(
    rt: &R,
    alloc: Global,
    program: &Program,
    run: &Run,
    words: &[&str],
) -> Result<String, Unanswered>
    requires { AreChained sha256 run.now }
{
    match word(words, 0)? {
        "run" => runs::last_kept(alloc, run),
        "checkpoints" => runs::checkpoints(alloc, run, words),
        "pages" => runs::pages(alloc, run, words),
        "roots" => roots::replayed(rt, alloc, run, words),
        "committed" => roots::committed(rt, alloc, run, words),
        _ => of_digests(rt, alloc, program, run, words),
    }
}

/// The answer to a row of runs, each of which records them by itself, or to one of `of_run`.
fn of_runs<R: Threads + Sync>(
    rt: &R,
    alloc: Global,
    program: &Program,
    words: &[&str],
) -> Result<String, Unanswered> {
    match word(words, 0)? {
        "alike" => roots::alike(rt, alloc, program, words),
        "kept" => digests::kept(rt, alloc, program, words),
        "wire" | "proof" | "claim" => proofs::after(rt, alloc, program, words),
        _ => {
            let run = run_of(alloc, program, words)?;
            of_run(rt, alloc, program, &run, words)
        }
    }
}

/// The answer to a row of provers, or to one of `of_runs`.
fn of_provers<R: Threads + Sync>(
    rt: &R,
    alloc: Global,
    program: &Program,
    words: &[&str],
) -> Result<String, Unanswered>
    requires { IsSync R.row }
{
    match word(words, 0)? {
        "ask" => given::ask(rt, alloc, words),
        "answers" => provers::answers(rt, alloc, program, words, false),
        "digests" => provers::answers(rt, alloc, program, words, true),
        "case" => playing::case(rt, alloc, program, words),
        "first_answer" => playing::first_answer(rt, alloc, program, words),
        "sixteen" => playing::sixteen(rt, alloc, program, words),
        _ => of_runs(rt, alloc, program, words),
    }
}

/// Says of which program the rows below speak: `program VERSION IMAGE INPUT`, `version VERSION` or `more_pages COUNT`. Whether this is such
/// a row.
fn is_taken(alloc: Global, program: &mut Program, words: &[&str]) -> Result<bool, Unanswered> {
    match word(words, 0)? {
        "program" => {
            let taken = program_of(alloc, words)?;
            *program = taken;
        }
        "version" => program.version = number(words, 1)?,
        "more_pages" => program.pages = number(words, 1)?,
        _ => return Ok(false),
    }
    Ok(true)
}

impl Table for Program {
    fn answer<R: Threads + Sync>(
        &mut self,
        rt: &R,
        alloc: Global,
        row: &str,
    ) -> Result<String, Unanswered> {
        let words = parts_of(alloc, row, ' ')?;
        let words = words.as_slice();
        if is_taken(alloc, self, words)? {
            return Ok(String::new(alloc));
        }
        of_provers(rt, alloc, self, words)
    }
}
