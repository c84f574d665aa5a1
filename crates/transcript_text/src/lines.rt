//! Texts of one line: what a run answers, a root, and the summary of a large workload's match.
ghost use Rattle.std.specs.Prelude.{◌≡◌, ◌++◌, string_bytes, IfOk, IfSome, OnOk, OnErr};
ghost use Rattle.transcript_text.specs.Report.{answer_line_text};
ghost use Rattle.transcript_text.specs.Roots.{root_line};
ghost use Rattle.bisect_game.specs.Bisection.{rounds_of};
ghost use Rattle.transcript_text.specs.Summary.{rounds_in, workload_text, counts_text, summary_text};

use crate::reporting::{add_answer, add_verdict};
use bisect_game::{Dispute, Interval};
use rd_base::{Digest32, Memory, Status};
use std::alloc::{AllocError, Global};
use std::fmt::Write;
use tournament::{Record, Verdict};

/// The line that answers with the status and the output of a run.
pub fn answer_line(alloc: Global, status: Status, output: &[u8]) -> Result<Vec<u8>, Memory>
    ensures { IfOk result (λ text. text.items ≡ answer_line_text status output.now) }
{
    let mut text = String::from_str(alloc, "answer ")?;
    add_answer(&mut text, alloc, status, output)?;
    text.push_str("\n")?;
    Ok(text.into_bytes())
}

/// The line of a root, with its number.
fn root_line(alloc: Global, number: u64, root: Digest32) -> Result<String, AllocError>
    ensures { IfOk result (λ text. string_bytes text ≡ root_line number root.0) }
{
    let digits = hex::encode(alloc, root.0.as_slice())?;
    format!(in alloc; "{number} {digits}\n")
}

/// Adds the line of a root, with its number. An `Err` is out of memory, and leaves the text as it was.
pub fn add_root_line(
    text: &mut String,
    alloc: Global,
    number: u64,
    root: Digest32,
) -> Result<(), AllocError>
    ensures added { OnOk result (string_bytes text.new ≡ string_bytes text.old ++ root_line number root.0) }
    ensures kept { OnErr result (string_bytes text.new ≡ string_bytes text.old) }
{
    let line = root_line(alloc, number, root)?;
    text.push_str(line.as_str())
}

/// The bisection rounds of a dispute: the past ones, and the last one unless it is the proof round.
fn rounds_of(dispute: &Dispute) -> u64
    ensures { result ≡ rounds_of dispute.now }
{
    let Interval { lo, hi, .. } = dispute.interval();
    let asked_now = if hi.saturating_sub(lo) <= 1 { 0 } else { 1 };
    (dispute.rounds().len() + asked_now) as u64
}

/// The bisection rounds of all disputes. As the code shows, `None` comes only if there are 2^64 or more, which no memory holds.
fn rounds_in(disputes: &[Dispute]) -> Option<u64>
    ensures { IfSome result (λ rounds. rounds ≡ rounds_in disputes.now) }
{
    let mut rounds = 0u64;
    'disputes: for dispute in disputes {
        rounds = rounds.checked_add(rounds_of(dispute))?;
    }
    Some(rounds)
}

#[tactic(auto, unfolding(crate::specs::Summary::workload_text))]
fn add_workload(text: &mut String, seed: u32, provers: usize) -> Result<(), AllocError>
    ensures { OnOk result (string_bytes text.new ≡ string_bytes text.old ++ workload_text seed provers) }
{
    write!(text, "big {seed} provers {provers}")
}

#[tactic(auto, unfolding(crate::specs::Summary::counts_text))]
fn add_counts(text: &mut String, disputes: usize, rounds: u64) -> Result<(), AllocError>
    ensures { OnOk result (string_bytes text.new ≡ string_bytes text.old ++ counts_text disputes rounds) }
{
    write!(text, " disputes {disputes} rounds {rounds}")
}

/// The line that sums up the match of the large workload of a seed: how many play, how many disputes and bisection rounds
/// there were, and the verdict. It ends with a line feed.
///
/// An accepted claim that wasn't given leaves the verdict out, and with it the line feed.
pub fn summary(
    alloc: Global,
    seed: u32,
    match_record: &Record,
    verdict: &Verdict,
) -> Result<Vec<u8>, Memory>
    ensures { IfOk result (λ text. text.items ≡ summary_text seed match_record.now verdict.now) }
{
    let disputes = match_record.disputes();
    let rounds = rounds_in(disputes).ok_or(Memory)?;
    let mut text = String::new(alloc);
    add_workload(&mut text, seed, match_record.claims().len())?;
    add_counts(&mut text, disputes.len(), rounds)?;
    text.push_str(" ")?;
    add_verdict(&mut text, alloc, match_record.claims(), verdict)?;
    Ok(text.into_bytes())
}
