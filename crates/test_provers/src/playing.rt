//! Rows of the provers of a case: each answers by its script, and waits when its script has it wait.
ghost use denote.Param.Send.{IsSync};
ghost use Rattle.std.specs.Prelude.{◌≡◌, ◌<◌, []};
ghost use Rattle.rv_step.specs.State.{IsChained};

use crate::asking::{answer_of, asked_in};
use crate::counting::Counting;
use crate::programs::{Program, copy_with, started};
use crate::provers::asked_all;
use crate::said::waiting;
use crate::scripts::scripts_of;
use bisect_game::Provers;
use digest_core::Sha256;
use prover_run::{CaseProvers, Plan, RunAnswerer, Start, answerers_with_input};
use prover_script::Scripted;
use rd_base::Script;
use rv_step::Machine;
use segment_replay::Replays;
use state_commit::SharedInput;
use std::alloc::Global;
use std::sync::atomic::{AtomicU64, Ordering};
use std::thread::Threads;
use toy_machine::Tally;
use toy_rows::{Unanswered, long, number};

/// The plan of `NAME BOUND EVERY WORKERS ..`.
fn plan_of(words: &[&str]) -> Result<Plan, Unanswered> {
    let bound = number(words, 1)?;
    let every = number(words, 2)?;
    let workers = number(words, 3)?;
    if every == 0 || workers == 0 {
        return Err(Unanswered::NoRow);
    }
    Ok(Plan {
        bound: u64::from(bound),
        every,
        workers,
    })
}

/// The answerers of these scripts, whose runs start in a machine.
fn answerers_of<D: Replays>(
    alloc: Global,
    d: D,
    scripts: &[Script],
    machine: &Machine,
    plan: Plan,
) -> Result<Vec<Scripted<RunAnswerer<D>, D>>, Unanswered>
    requires chained { IsChained D.digest_of machine.now }
    requires silent { machine.now.output.items ≡ [] }
{
    let input = SharedInput::of(alloc, d, machine)?;
    let start = Start::new(machine, &input);
    Ok(answerers_with_input(alloc, d, scripts, &start, plan)?)
}

/// An answerer of a case.
type Playing = Scripted<RunAnswerer<Sha256>, Sha256>;

/// The provers with these scripts, and their answerers.
fn playing(
    alloc: Global,
    program: &Program,
    scripts: &[Script],
    plan: Plan,
) -> Result<(CaseProvers<Sha256>, Vec<Playing>), Unanswered> {
    if scripts.len() > 16 {
        return Err(Unanswered::NoRow);
    }
    let machine = started(alloc, program)?;
    let answerers = answerers_of(alloc, Sha256, scripts, &machine, plan)?;
    let provers = CaseProvers::new(alloc, Sha256, scripts, machine, plan.bound)?;
    Ok((provers, answerers))
}

/// The answer of the prover with this number, and whether its script has it wait.
fn said_by<R: Threads + Sync>(
    rt: &R,
    alloc: Global,
    provers: &CaseProvers<Sha256>,
    answerer: &mut Playing,
    p: u32,
    text: &str,
) -> Result<String, Unanswered>
    requires sync { IsSync R.row }
    requires some { 0 < p }
{
    let asked = asked_in(text)?;
    if p > provers.count() {
        return Err(Unanswered::NoRow);
    }
    let waits = provers.waits(p, &asked.0, asked.1);
    let answer = answer_of(rt, answerer, asked)?;
    waiting(alloc, waits, &answer, Some(text))
}

/// Adds the answers of provers to a question.
fn add_answers<R: Threads + Sync>(
    rt: &R,
    alloc: Global,
    lines: &mut String,
    provers: &CaseProvers<Sha256>,
    answerers: &mut [Playing],
    text: &str,
) -> Result<(), Unanswered>
    requires { IsSync R.row }
{
    lines.push_str("\n ")?;
    for (k, answerer) in answerers.iter_mut().enumerate() {
        let p = k.min(15) as u32 + 1;
        let said = said_by(rt, alloc, provers, answerer, p, text)?;
        lines.push_str(format!(in alloc; " {said};")?.as_str())?;
    }
    Ok(())
}

/// How many provers and answerers there are, and their answers to questions, one question a line.
fn said<R: Threads + Sync>(
    rt: &R,
    alloc: Global,
    provers: &CaseProvers<Sha256>,
    answerers: &mut [Playing],
    texts: &[&str],
) -> Result<String, Unanswered>
    requires { IsSync R.row }
{
    let (many, answering) = (provers.count(), answerers.len());
    let mut lines = format!(in alloc; "{many} provers, {answering} answerers")?;
    for text in texts {
        add_answers(rt, alloc, &mut lines, provers, answerers, text)?;
    }
    Ok(lines)
}

/// What is handed to a thread, one by reference and one by value: a call proves that threads may hold them.
fn may_cross<T: Send + Sync, U: Send>(_shared: &T, _sent: &U) {}

/// The answers of the provers with these scripts.
fn case_of<R: Threads + Sync>(
    rt: &R,
    alloc: Global,
    program: &Program,
    scripts: &[Script],
    plan: Plan,
    texts: &[&str],
) -> Result<String, Unanswered>
    requires { IsSync R.row }
{
    let (provers, mut answerers) = playing(alloc, program, scripts, plan)?;
    may_cross(&provers, &answerers);
    let said = said(rt, alloc, &provers, &mut answerers, texts);
    drop(provers);
    drop(answerers);
    said
}

/// `case BOUND EVERY WORKERS COUNT SCRIPT .. QUESTION ..`: the provers of so many scripts, and the answers of each to these questions, one
/// after another.
pub fn case<R: Threads + Sync>(
    rt: &R,
    alloc: Global,
    program: &Program,
    words: &[&str],
) -> Result<String, Unanswered>
    requires { IsSync R.row }
{
    let plan = plan_of(words)?;
    let rest = words.get(5..).unwrap_or(&[]);
    let count = number(words, 4)? as usize;
    if count > rest.len() {
        return Err(Unanswered::NoRow);
    }
    let (scripts, texts) = rest.split_at(count);
    let scripts = scripts_of(alloc, scripts)?;
    case_of(rt, alloc, program, scripts.as_slice(), plan, texts)
}

/// Of the provers with these scripts: how many digests they make until one is asked, and then until each was asked these questions.
fn digests_of<R: Threads + Sync>(
    rt: &R,
    alloc: Global,
    program: &Program,
    scripts: &[Script],
    plan: Plan,
    texts: &[&str],
) -> Result<(u64, u64), Unanswered>
    requires { IsSync R.row }
{
    let made = AtomicU64::new(0);
    let of = Tally {
        of: Sha256,
        made: &made,
    };
    let machine = started(alloc, program)?;
    let mut answerers = answerers_of(alloc, Counting { of }, scripts, &machine, plan)?;
    let before = made.load(Ordering::SeqCst);
    for answerer in answerers.iter_mut() {
        asked_all(rt, alloc, &made, answerer, texts, true)?;
    }
    Ok((before, made.load(Ordering::SeqCst)))
}

/// `first_answer BOUND EVERY WORKERS LEAST SCRIPT QUESTION ..`: how many digests are made until the prover is asked, and then until it was
/// asked these questions: at least so many, or the number.
pub fn first_answer<R: Threads + Sync>(
    rt: &R,
    alloc: Global,
    program: &Program,
    words: &[&str],
) -> Result<String, Unanswered>
    requires { IsSync R.row }
{
    let plan = plan_of(words)?;
    let least = long(words, 4)?;
    let rest = words.get(5..).unwrap_or(&[]);
    if rest.len() < 2 {
        return Err(Unanswered::NoRow);
    }
    let (script, texts) = rest.split_at(1);
    let scripts = scripts_of(alloc, script)?;
    let (before, after) = digests_of(rt, alloc, program, scripts.as_slice(), plan, texts)?;
    if least > 0 && least <= after {
        return Ok(format!(in alloc; "{before}, then at least {least}")?);
    }
    Ok(format!(in alloc; "{before}, then {after}")?)
}

/// The byte is flipped behind the last step.
const BEHIND: &str = "flip,25,0x20003,0xff/plain";

/// It is flipped at step 3.
const AT_3: &str = "flip,3,0x20003,0xff/plain";

/// Scripts of sixteen provers, every other of which has a flipped byte.
const SIXTEEN: [&str; 16] = [
    BEHIND, AT_3, BEHIND, AT_3, BEHIND, AT_3, BEHIND, AT_3, BEHIND, AT_3, BEHIND, AT_3, BEHIND,
    AT_3, BEHIND, AT_3,
];

/// `sixteen BOUND EVERY WORKERS QUESTION ..`: how many digests sixteen provers take for their answers to these questions more than without
/// an input.
pub fn sixteen<R: Threads + Sync>(
    rt: &R,
    alloc: Global,
    program: &Program,
    words: &[&str],
) -> Result<String, Unanswered>
    requires { IsSync R.row }
{
    let plan = plan_of(words)?;
    let texts = words.get(4..).unwrap_or(&[]);
    let scripts = scripts_of(alloc, &SIXTEEN)?;
    let scripts = scripts.as_slice();
    let without = copy_with(alloc, program, program.version, &[])?;
    let (_, few) = digests_of(rt, alloc, &without, scripts, plan, texts)?;
    let (_, many) = digests_of(rt, alloc, program, scripts, plan, texts)?;
    Ok(format!(in alloc; "{}", many.wrapping_sub(few))?)
}
