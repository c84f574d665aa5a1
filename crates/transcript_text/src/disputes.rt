//! The lines of disputes, and their words for answers.
ghost use Rattle.std.specs.Prelude.{◌≡◌, Some, ◌++◌, ◌+◌, ◌-◌, min, string_bytes, OnOk};
ghost use Rattle.transcript_text.specs.Words.{word_text, said_word, said_word_of_proof};
ghost use Rattle.bisect_game.specs.Truth.{is_put_out};
ghost use Rattle.bisect_game.specs.Bisection.{middle, roots_in, kept_part};
ghost use Rattle.transcript_text.specs.Lines.{dispute_line, lines_of_all_rounds, said_in, line_of_halves, line_of_parts, line_of_round, lines_of_rounds, line_of_step, line_of_last, line_of_stage, lines_of_dispute, lines_of_disputes};
ghost use Rattle.transcript_text.specs.Report.{said_text, parted_text, kept_text, line_text, text_if_there, lines_text};

use bisect_game::{Close, Dispute, Interval, Settled, Side, kept_part, parts_of, roots_in};
use rd_base::{Answer, same_digest};
use std::alloc::AllocError;
use std::fmt;
use std::fmt::Write;

/// What a report calls an answer of a prover.
#[derive(Clone, Copy, Debug, PartialEq, Eq)]
pub enum Word {
    /// An answer of the kind that was asked, which isn't a proof.
    Given,
    /// An answer of another kind, an unsound claim, or a list of another length than the cuts.
    Faulty,
    /// The prover passed one time more than the patience.
    Spent,
    /// A proof of a side that isn't out.
    Proved,
    /// A proof of a side that is out.
    Refuted,
}

impl fmt::Display for Word {
    ghost output = { λ word. Some (word_text word) };

    fn fmt<W: fmt::Write>(&self, f: &mut fmt::Formatter<W>) -> fmt::Result {
        match self {
            Word::Given => f.write_str("given"),
            Word::Faulty => f.write_str("faulty"),
            Word::Spent => f.write_str("spent"),
            Word::Proved => f.write_str("proved"),
            Word::Refuted => f.write_str("refuted"),
        }
    }
}

/// What an answer to a question for a root is called.
fn said_word(settled: &Settled) -> Word
    ensures { result ≡ said_word settled.now }
{
    match settled {
        Settled::Given(_) => Word::Given,
        Settled::Faulty(_) => Word::Faulty,
        Settled::Spent => Word::Spent,
    }
}

/// What an answer to a question for a proof is called, of a side that is out or not.
fn said_word_of_proof(is_out: bool, settled: &Settled) -> Word
    ensures { result ≡ said_word_of_proof is_out settled.now }
{
    match settled {
        Settled::Given(_) => { if is_out { Word::Refuted } else { Word::Proved } }
        Settled::Faulty(_) => Word::Faulty,
        Settled::Spent => Word::Spent,
    }
}

/// A round that asked for roots: its number in its dispute, from 1, the interval that it cuts, from the step `lo` to the step `hi`, and
/// what each side's answer was settled as.
#[derive(Clone, Copy)]
struct NumberedRound<'a> {
    number: usize,
    lo: u64,
    hi: u64,
    first: &'a Settled,
    second: &'a Settled,
}

/// Adds the part of a line about both sides, and ends the line.
fn add_said(
    text: &mut String,
    dispute: &Dispute,
    of_first: Word,
    of_second: Word,
) -> Result<(), AllocError>
    ensures { OnOk result (string_bytes text.new ≡ string_bytes text.old ++ said_text (said_in dispute.now of_first of_second)) }
{
    let first = dispute.prover(Side::First);
    let second = dispute.prover(Side::Second);
    write!(text, " p{first} {of_first}")?;
    write!(text, " p{second} {of_second}\n")
}

/// The step between two, rounded down.
fn middle(lo: u64, hi: u64) -> u64
    ensures { result ≡ middle lo hi }
{
    lo + hi.saturating_sub(lo) / 2
}

/// Adds the line of a round of two parts.
fn add_halves(text: &mut String, dispute: &Dispute, round: &NumberedRound) -> Result<(), AllocError>
    ensures { OnOk result (string_bytes text.new ≡ string_bytes text.old ++ line_text (line_of_halves dispute.now round.now.number (middle round.now.lo round.now.hi) round.now.first.now round.now.second.now)) }
{
    let number = round.number;
    let mid = middle(round.lo, round.hi);
    write!(text, "round {number} at {mid}")?;
    match (round.first, round.second) {
        (Settled::Given(Answer::Root(x)), Settled::Given(Answer::Root(y))) => {
            if same_digest(x, y) {
                text.push_str(" same\n")
            } else {
                text.push_str(" differ\n")
            }
        }
        _ => add_said(
            text,
            dispute,
            said_word(round.first),
            said_word(round.second),
        ),
    }
}

/// Adds which interval a round cuts, and in how many parts.
fn add_parted(
    text: &mut String,
    number: usize,
    lo: u64,
    hi: u64,
    parts: u32,
) -> Result<(), AllocError>
    ensures { OnOk result (string_bytes text.new ≡ string_bytes text.old ++ parted_text (record { number = number; lo = lo; hi = hi; parts = parts })) }
{
    write!(text, "round {number} in {lo}")?;
    write!(text, " {hi} by {parts}")
}

/// Adds which of this many parts is kept, counted from 1, and ends the line.
fn add_kept(
    text: &mut String,
    parts: u32,
    first: &Answer,
    second: &Answer,
) -> Result<(), AllocError>
    ensures { OnOk result (string_bytes text.new ≡ string_bytes text.old ++ kept_text (kept_part parts (roots_in first.now) (roots_in second.now) + 1)) }
{
    let part = u64::from(kept_part(parts, roots_in(first), roots_in(second))) + 1;
    write!(text, " keep {part}\n")
}

/// Adds the line of a round of a larger fan.
fn add_parts(text: &mut String, dispute: &Dispute, round: &NumberedRound) -> Result<(), AllocError>
    ensures { OnOk result (string_bytes text.new ≡ string_bytes text.old ++ line_text (line_of_parts dispute.now (record { number = round.now.number; lo = round.now.lo; hi = round.now.hi; parts = min dispute.now.fan (round.now.hi - round.now.lo) }) round.now.first.now round.now.second.now)) }
{
    let parts = parts_of(dispute.fan(), round.lo, round.hi);
    add_parted(text, round.number, round.lo, round.hi, parts)?;
    match (round.first, round.second) {
        (Settled::Given(x), Settled::Given(y)) => add_kept(text, parts, x, y),
        _ => add_said(
            text,
            dispute,
            said_word(round.first),
            said_word(round.second),
        ),
    }
}

/// Adds the line of a round that asked for roots.
fn add_round(text: &mut String, dispute: &Dispute, round: &NumberedRound) -> Result<(), AllocError>
    ensures { OnOk result (string_bytes text.new ≡ string_bytes text.old ++ line_text (line_of_round dispute.now round.now.number round.now.lo round.now.hi round.now.first.now round.now.second.now)) }
{
    if dispute.fan() == 2 {
        add_halves(text, dispute, round)
    } else {
        add_parts(text, dispute, round)
    }
}

/// Adds the lines of the past rounds.
fn add_rounds(text: &mut String, dispute: &Dispute) -> Result<(), AllocError>
    ensures { OnOk result (string_bytes text.new ≡ string_bytes text.old ++ lines_text (lines_of_rounds dispute.now 1 dispute.now.past)) }
{
    let rounds = dispute.rounds();
    'rounds: for (i, round) in rounds.iter().enumerate() {
        let numbered = NumberedRound {
            number: i + 1,
            lo: round.lo,
            hi: round.hi,
            first: &round.first,
            second: &round.second,
        };
        add_round(text, dispute, &numbered)?;
    }
    Ok(())
}

/// Whether a close eliminates a side.
fn is_put_out(side: Side, close: &Close) -> bool
    ensures { result ≡ is_put_out side (Some close.now) }
{
    match (side, close) {
        (Side::First, Close::Out { first, .. }) => *first,
        (Side::Second, Close::Out { second, .. }) => *second,
        _ => false,
    }
}

/// Adds the line of the proof round, if the dispute has closed.
fn add_step(
    text: &mut String,
    dispute: &Dispute,
    first: &Settled,
    second: &Settled,
) -> Result<(), AllocError>
    ensures { OnOk result (string_bytes text.new ≡ string_bytes text.old ++ text_if_there (line_of_step dispute.now dispute.now.close first.now second.now)) }
{
    let Some(close) = dispute.closed() else {
        return Ok(());
    };
    let Interval { lo, .. } = dispute.interval();
    let of_first = said_word_of_proof(is_put_out(Side::First, &close), first);
    let of_second = said_word_of_proof(is_put_out(Side::Second, &close), second);
    write!(text, "step {lo}")?;
    add_said(text, dispute, of_first, of_second)
}

/// Adds the line of the last round, if both sides are settled.
fn add_last(text: &mut String, dispute: &Dispute) -> Result<(), AllocError>
    ensures { OnOk result (string_bytes text.new ≡ string_bytes text.old ++ text_if_there (line_of_last dispute.now dispute.now.by_first dispute.now.by_second)) }
{
    let Some(first) = dispute.last_answer(Side::First) else {
        return Ok(());
    };
    let Some(second) = dispute.last_answer(Side::Second) else {
        return Ok(());
    };
    let Interval { lo, hi, .. } = dispute.interval();
    if hi.saturating_sub(lo) <= 1 {
        return add_step(text, dispute, first, second);
    }
    let number = dispute.rounds().len() + 1;
    let numbered = NumberedRound {
        number,
        lo,
        hi,
        first,
        second,
    };
    add_round(text, dispute, &numbered)
}

/// Adds the line of a stage, if it isn't that of the dispute before.
fn add_stage(text: &mut String, before: u32, stage: u32) -> Result<(), AllocError>
    ensures { OnOk result (string_bytes text.new ≡ string_bytes text.old ++ text_if_there (line_of_stage before stage)) }
{
    if stage == before {
        return Ok(());
    }
    write!(text, "stage {stage}\n")
}

/// Adds the line of a dispute.
fn add_sides(text: &mut String, dispute: &Dispute) -> Result<(), AllocError>
    ensures { OnOk result (string_bytes text.new ≡ string_bytes text.old ++ line_text (dispute_line dispute.now.number dispute.now.first dispute.now.second)) }
{
    let number = dispute.number();
    let first = dispute.prover(Side::First);
    let second = dispute.prover(Side::Second);
    write!(text, "dispute {number} p{first} p{second}\n")
}

/// Adds the lines of a dispute's rounds.
#[tactic(auto, using(crate::proofs::LineLemmas::added_last))]
fn add_all_rounds(text: &mut String, dispute: &Dispute) -> Result<(), AllocError>
    ensures { OnOk result (string_bytes text.new ≡ string_bytes text.old ++ lines_text (lines_of_all_rounds dispute.now)) }
{
    add_rounds(text, dispute)?;
    add_last(text, dispute)
}

/// Adds the lines of a dispute, after one of the stage `before`.
fn add_dispute(text: &mut String, before: u32, dispute: &Dispute) -> Result<(), AllocError>
    ensures { OnOk result (string_bytes text.new ≡ string_bytes text.old ++ lines_text (lines_of_dispute before dispute.now)) }
{
    add_stage(text, before, dispute.stage())?;
    add_sides(text, dispute)?;
    add_all_rounds(text, dispute)
}

/// Adds the lines of disputes, the first of which begins a stage.
pub(crate) fn add_disputes(text: &mut String, disputes: &[Dispute]) -> Result<(), AllocError>
    ensures { OnOk result (string_bytes text.new ≡ string_bytes text.old ++ lines_text (lines_of_disputes 0 disputes.now)) }
{
    let mut before = 0;
    'disputes: for dispute in disputes {
        add_dispute(text, before, dispute)?;
        before = dispute.stage();
    }
    Ok(())
}
