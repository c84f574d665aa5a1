//! Rows of one prover by its run.
ghost use denote.Param.Send.{IsSync};
ghost use Rattle.std.specs.Prelude.{◌≡◌, ℕ, [], List};

use crate::asking::{answer_of, asked_in};
use crate::counting::Counting;
use crate::programs::{Program, started};
use crate::said;
use crate::scripts::tamper_of;
use bisect_game::Answerer;
use digest_core::Sha256;
use prover_run::RunAnswerer;
use segment_replay::Replays;
use std::alloc::Global;
use std::sync::atomic::{AtomicU64, Ordering};
use std::thread::Threads;
use toy_machine::Tally;
use toy_rows::{Unanswered, add_part, number, word};

/// The prover of `NAME BOUND EVERY TAMPER WORKERS ..`.
fn prover_of<D: Replays>(
    alloc: Global,
    d: D,
    program: &Program,
    words: &[&str],
) -> Result<RunAnswerer<D>, Unanswered> {
    let bound = number(words, 1)?;
    let every = number(words, 2)?;
    let tamper = tamper_of(word(words, 3)?)?;
    let workers = number(words, 4)?;
    if every == 0 || workers == 0 {
        return Err(Unanswered::NoRow);
    }
    let machine = started(alloc, program)?;
    Ok(RunAnswerer::new(alloc, d, &machine, u64::from(bound), every, tamper, workers)?)
}

/// The answer to a question of this text, or, if that is wanted, how many digests it takes.
fn asked<R: Threads + Sync, A: Answerer>(
    rt: &R,
    alloc: Global,
    made: &AtomicU64,
    answerer: &mut A,
    text: &str,
    is_counted: bool,
) -> Result<String, Unanswered>
    requires { IsSync R.row }
{
    let before = made.load(Ordering::SeqCst);
    let answer = answer_of(rt, answerer, asked_in(text)?)?;
    if is_counted {
        let after = made.load(Ordering::SeqCst);
        return Ok(format!(in alloc; "{}", after.wrapping_sub(before))?);
    }
    said::answer(alloc, &answer, Some(text))
}

/// The answers to questions, one a line, or how many digests each takes.
pub fn asked_all<R: Threads + Sync, A: Answerer>(
    rt: &R,
    alloc: Global,
    made: &AtomicU64,
    answerer: &mut A,
    texts: &[&str],
    is_counted: bool,
) -> Result<String, Unanswered>
    requires { IsSync R.row }
{
    let between = if is_counted { " " } else { "\n  " };
    let mut said = String::new(alloc);
    for text in texts {
        let part = asked(rt, alloc, made, answerer, text, is_counted)?;
        add_part(&mut said, between, part.as_str())?;
    }
    Ok(said)
}

/// `answers BOUND EVERY TAMPER WORKERS QUESTION ..`: a prover's answers to these questions, one after another. `digests` with the same
/// words: how many digests each answer takes, but that to the first question.
pub fn answers<R: Threads + Sync>(
    rt: &R,
    alloc: Global,
    program: &Program,
    words: &[&str],
    is_counted: bool,
) -> Result<String, Unanswered>
    requires { IsSync R.row }
{
    let made = AtomicU64::new(0);
    let of = Tally {
        of: Sha256,
        made: &made,
    };
    let texts = words.get(5..).unwrap_or(&[]);
    let mut prover = prover_of(alloc, Counting { of }, program, words)?;
    let said = asked_all(rt, alloc, &made, &mut prover, texts, is_counted);
    drop(prover);
    let said = said?;
    if is_counted {
        return match said.as_str().split_once(' ') {
            Some((_, counts)) => Ok(String::from_str(alloc, counts)?),
            None => Err(Unanswered::NoRow),
        };
    }
    Ok(said)
}
