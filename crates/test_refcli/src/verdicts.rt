//! The verdicts of cases as a library gives them, of each case alone and of all as tasks. Rows have the same cases.
ghost use Rattle.std.specs.Prelude.{◌≡◌, ℕ, List, [], All, length, IfOk};
ghost use Rattle.rv_step.specs.State.{IsChained};

use crate::cases::{case_of, flat};
use crate::images::ANSWER;
use case_reader::{Case, read_case};
use delegate::{Options, verdict_of_case, verdict_of_tasks};
use digest_core::Sha256;
use image_reader::load_flat;
use rd_base::Memory;
use rv_step::Machine;
use std::alloc::Global;
use std::sync::Wait;
use std::thread::Threads;
use tournament::{Record, Verdict};

/// A truthful prover, and one whose run has another value in x10 after step 2.
const A_LIAR: &str = "{},{\"tamper\":{\"kind\":\"reg\",\"step\":2,\"reg\":10,\"value\":43}}";

/// Two of these liars with one lie, and a truthful prover.
const TWO_LIARS: &str =
    "{\"tamper\":{\"kind\":\"reg\",\"step\":2,\"reg\":10,\"value\":43}},{\"tamper\":{\"kind\":\"reg\",\"step\":2,\"reg\":10,\"value\":43}},{}";

/// Two provers that never answer.
const ALL_SILENT: &str =
    "{\"manner\":{\"kind\":\"silent\",\"from\":0}},{\"manner\":{\"kind\":\"silent\",\"from\":0}}";

const OPTIONS: Options = Options {
    workers: 2,
    posters: 3,
    every: 2,
};

/// The case of these provers, who run `ANSWER`. It has no fault.
fn read(alloc: Global, provers: &str) -> Result<Case, Memory> {
    let text = case_of(alloc, flat(ANSWER, 8), provers)?;
    match read_case(alloc, text.as_slice()) {
        Ok(case) => Ok(case),
        Err(_) => Err(Memory),
    }
}

/// The machine in which the run of a case of a flat image starts. The image has no fault.
fn start_of(alloc: Global, case: &Case) -> Result<Machine, Memory>
    ensures chained { IfOk result (λ m. (digest : List ℕ → List ℕ) → IsChained digest m) }
    ensures silent { IfOk result (λ m. m.output.items ≡ []) }
{
    match load_flat(alloc, case.image.as_slice()) {
        Ok(loaded) => {
            let input = case.input.as_slice();
            let start = Machine::new(alloc, case.version, loaded.mem, loaded.entry, input)?;
            Ok(start)
        }
        Err(_) => Err(Memory),
    }
}

/// Adds a line of how a match ended, and how many disputes it had.
fn add_end(
    alloc: Global,
    lines: &mut String,
    played: &str,
    settled: &Record,
    verdict: &Verdict,
) -> Result<(), Memory> {
    let disputes = settled.disputes().len();
    let line = match verdict {
        Verdict::Accept(prover) => format!(in alloc;
            "{played}: prover {prover} is accepted, disputes {disputes}\n"
        )?,
        Verdict::NoneLeft => format!(in alloc; "{played}: nobody is left, disputes {disputes}\n")?,
        Verdict::Collision(_, _) => format!(in alloc; "{played}: collision\n")?,
    };
    lines.push_str(line.as_str())?;
    Ok(())
}

/// Adds the line of the case of these provers, played alone.
fn add_alone<R: Threads + Wait + Sync>(
    rt: &R,
    alloc: Global,
    lines: &mut String,
    provers: &str,
) -> Result<(), Memory> {
    let case = read(alloc, provers)?;
    let start = start_of(alloc, &case)?;
    let (settled, verdict) = verdict_of_case(rt, alloc, Sha256, &case, start, OPTIONS)?;
    add_end(alloc, lines, "alone", &settled, &verdict)
}

/// The machines in which three cases start.
fn starts_of(
    alloc: Global,
    first: &Case,
    second: &Case,
    third: &Case,
) -> Result<Vec<Machine>, Memory>
    ensures count { IfOk result (λ starts. length starts.items ≡ 3) }
    ensures chained { IfOk result (λ starts. All (λ m. (digest : List ℕ → List ℕ) → IsChained digest m) starts.items) }
    ensures silent { IfOk result (λ starts. All (λ m. m.output.items ≡ []) starts.items) }
{
    let mut starts = Vec::new(alloc);
    starts.push(start_of(alloc, first)?)?;
    starts.push(start_of(alloc, second)?)?;
    starts.push(start_of(alloc, third)?)?;
    Ok(starts)
}

/// Adds the lines of the three cases, played as tasks.
fn add_tasks<R: Threads + Wait + Sync>(
    rt: &R,
    alloc: Global,
    lines: &mut String,
) -> Result<(), Memory> {
    let first = read(alloc, A_LIAR)?;
    let second = read(alloc, TWO_LIARS)?;
    let third = read(alloc, ALL_SILENT)?;
    let starts = starts_of(alloc, &first, &second, &third)?;
    let cases = [first, second, third];
    let played = verdict_of_tasks(rt, alloc, Sha256, &cases, starts, OPTIONS)?;
    for (settled, verdict) in &played {
        add_end(alloc, lines, "as a task", settled, verdict)?;
    }
    Ok(())
}

/// Adds the lines of the verdicts without a text.
pub fn add_verdicts<R: Threads + Wait + Sync>(
    rt: &R,
    alloc: Global,
    lines: &mut String,
) -> Result<(), Memory> {
    for provers in [A_LIAR, TWO_LIARS, ALL_SILENT] {
        add_alone(rt, alloc, lines, provers)?;
    }
    add_tasks(rt, alloc, lines)
}
