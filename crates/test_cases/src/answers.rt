//! What is read, in words.
use case_reader::{Case, CaseFault, TaskFault, Tasks, read_case, read_tasks};
use rd_base::{Answer, Manner, RootList, Script, Tape, TapeAnswer};
use std::alloc::Global;
use toy_rows::Unanswered;

/// The most bytes that are written, and the most answers of a tape.
const MOST: usize = 64;

/// Bytes in hexadecimal digits. Of more than these there is only their count.
fn bytes(alloc: Global, bytes: &[u8]) -> Result<String, Unanswered> {
    if bytes.len() <= MOST {
        Ok(hex::encode(alloc, bytes)?)
    } else {
        Ok(format!(in alloc; "{} bytes", bytes.len())?)
    }
}

/// Each root in hexadecimal digits.
fn roots(alloc: Global, roots: &RootList) -> Result<String, Unanswered> {
    let mut text = String::from_str(alloc, "roots")?;
    for root in roots.as_slice() {
        text.push_str(" ")?;
        text.push_str(bytes(alloc, root.0.as_slice())?.as_str())?;
    }
    Ok(text)
}

/// A root or several; no row has another answer.
fn answer(alloc: Global, answer: &Answer) -> Result<String, Unanswered> {
    match answer {
        Answer::Root(root) => {
            let root = bytes(alloc, root.0.as_slice())?;
            Ok(format!(in alloc; "root {root}")?)
        }
        Answer::Roots(several) => roots(alloc, several),
        _ => Err(Unanswered::NoRow),
    }
}

/// Adds an answer of a tape, behind the number of its question.
fn add_taped(alloc: Global, text: &mut String, taped: &TapeAnswer) -> Result<(), Unanswered> {
    let answer = answer(alloc, &taped.answer)?;
    let added = format!(in alloc; ", {}.{} {answer}", taped.qid.dispute, taped.qid.round)?;
    Ok(text.push_str(added.as_str())?)
}

/// The answers of a tape. Of more than `MOST` there is only their count.
fn tape(alloc: Global, tape: &Tape) -> Result<String, Unanswered> {
    let answers = tape.as_slice();
    let mut text = format!(in alloc; "Tape of {}", answers.len())?;
    if answers.len() <= MOST {
        for taped in answers {
            add_taped(alloc, &mut text, taped)?;
        }
    }
    Ok(text)
}

/// The manner of a prover.
fn manner(alloc: Global, manner: &Manner) -> Result<String, Unanswered> {
    match manner {
        Manner::Tape(answers) => tape(alloc, answers),
        other => Ok(format!(in alloc; "{other:?}")?),
    }
}

/// Adds a prover: its tamper and its manner.
fn add_script(alloc: Global, text: &mut String, script: &Script) -> Result<(), Unanswered> {
    let manner = manner(alloc, &script.manner)?;
    let added = format!(in alloc; "; {:?}, {manner}", script.tamper)?;
    Ok(text.push_str(added.as_str())?)
}

/// Adds a case: its keys in their order, and then each prover behind a semicolon.
fn add_case(alloc: Global, text: &mut String, case: &Case) -> Result<(), Unanswered> {
    let image = bytes(alloc, case.image.as_slice())?;
    let input = bytes(alloc, case.input.as_slice())?;
    let files = format!(in alloc; "{:?} '{image}', input '{input}'", case.format)?;
    text.push_str(files.as_str())?;
    let rounds = format!(in alloc;
        ", bound {}, patience {}, version {}",
        case.bound, case.patience, case.version
    )?;
    text.push_str(rounds.as_str())?;
    let stakes = format!(in alloc; ", fan {}, stake {:?}", case.fan, case.stake)?;
    text.push_str(stakes.as_str())?;
    for script in case.provers.as_slice() {
        add_script(alloc, text, script)?;
    }
    Ok(())
}

/// A fault of a case, behind the number of its rule.
pub fn fault(alloc: Global, fault: CaseFault) -> Result<String, Unanswered> {
    match fault.rule() {
        Some(rule) => Ok(format!(in alloc; "rule {rule}: {fault}")?),
        None => Ok(format!(in alloc; "no rule: {fault}")?),
    }
}

/// What `read_case` reads of bytes.
pub fn of_case(alloc: Global, bytes: &[u8]) -> Result<String, Unanswered> {
    let mut text = String::new(alloc);
    match read_case(alloc, bytes) {
        Ok(case) => add_case(alloc, &mut text, &case)?,
        Err(broken) => return fault(alloc, broken),
    }
    Ok(text)
}

/// The cases, a line for each.
fn of_many(alloc: Global, cases: &[Case]) -> Result<String, Unanswered> {
    let mut text = String::from_str(alloc, "tasks:")?;
    for case in cases {
        text.push_str("\n  ")?;
        add_case(alloc, &mut text, case)?;
    }
    Ok(text)
}

/// What is read of bytes as tasks.
fn in_words(alloc: Global, tasks: &Tasks) -> Result<String, Unanswered> {
    match tasks {
        Tasks::One(case) => {
            let mut text = String::from_str(alloc, "one case: ")?;
            add_case(alloc, &mut text, case)?;
            Ok(text)
        }
        Tasks::Many(cases) => of_many(alloc, cases.as_slice()),
    }
}

/// The text of a fault of tasks.
pub fn fault_of_tasks(alloc: Global, fault: TaskFault) -> Result<String, Unanswered> {
    Ok(format!(in alloc; "{fault}")?)
}

/// What `read_tasks` reads of bytes.
pub fn of_tasks(alloc: Global, bytes: &[u8]) -> Result<String, Unanswered> {
    match read_tasks(alloc, bytes) {
        Ok(tasks) => in_words(alloc, &tasks),
        Err(fault) => fault_of_tasks(alloc, fault),
    }
}
