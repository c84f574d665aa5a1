//! The full text of a match: its head, a line for each settled answer, and its verdict.
ghost use Rattle.std.specs.Prelude.{◌≡◌, ◌++◌, string_bytes, OnOk, codes, IfOk};
ghost use Rattle.std.specs.Option.{option_copied};
ghost use Rattle.transcript_text.specs.MoveLists.{qid_of, move_if, moves_of_claims, moves_of_round, moves_of_dispute, moves_of_past, moves_of_disputes, moves_of};
ghost use Rattle.proof_wire.specs.Wire.{wire_form};
ghost use Rattle.transcript_text.specs.FullLines.{wire_text, settled_text, asked_text, moves_text, HasWireForm, AreWritten, start_text, refereed_text, full_text};

use crate::reporting::{add_numbers, add_verdict};
use crate::text::Head;
use bisect_game::{Dispute, Settled, Side};
use proof_wire::encode;
use rd_base::{Answer, Memory};
use std::alloc::{AllocError, Global};
use std::fmt::Write;
use tournament::{Record, Verdict};

/// Adds an answer in its wire form.
#[tactic(auto, unfolding(crate::specs::FullLines::wire_text))]
fn add_wire_form(text: &mut String, alloc: Global, answer: &Answer) -> Result<(), Memory>
    ensures text { OnOk result (string_bytes text.new ≡ string_bytes text.old ++ wire_text answer.now) }
    ensures written { OnOk result ((wire_form answer.now).fits) }
{
    let bytes = encode(alloc, answer)?;
    let digits = hex::encode(alloc, bytes.as_slice())?;
    text.push_str(digits.as_str())?;
    Ok(())
}

/// Adds what an answer is settled as.
fn add_settled(text: &mut String, alloc: Global, settled: &Settled) -> Result<(), Memory>
    ensures text { OnOk result (string_bytes text.new ≡ string_bytes text.old ++ settled_text settled.now) }
    ensures written { OnOk result (HasWireForm settled.now) }
{
    match settled {
        Settled::Given(answer) => {
            text.push_str("given ")?;
            add_wire_form(text, alloc, answer)
        }
        Settled::Faulty(answer) => {
            text.push_str("faulty ")?;
            add_wire_form(text, alloc, answer)
        }
        Settled::Spent => {
            text.push_str("spent")?;
            Ok(())
        }
    }
}

/// Adds which question and which prover a move is of.
#[tactic(auto, unfolding(crate::specs::FullLines::asked_text))]
fn add_asked(text: &mut String, dispute: u32, round: usize, prover: usize) -> Result<(), AllocError>
    ensures { OnOk result (string_bytes text.new ≡ string_bytes text.old ++ asked_text dispute round prover) }
{
    write!(text, "move {dispute} {round} p{prover} ")
}

/// Adds the line of a move, if the question is settled.
fn add_move(
    text: &mut String,
    alloc: Global,
    dispute: u32,
    round: usize,
    prover: usize,
    settled: Option<&Settled>,
) -> Result<(), Memory>
    ensures text { OnOk result (string_bytes text.new ≡ string_bytes text.old ++ moves_text (move_if (qid_of dispute round) prover (option_copied settled.entry))) }
    ensures written { OnOk result (AreWritten (move_if (qid_of dispute round) prover (option_copied settled.entry))) }
{
    let Some(settled) = settled else {
        return Ok(());
    };
    add_asked(text, dispute, round, prover)?;
    add_settled(text, alloc, settled)?;
    text.push_str("\n")?;
    Ok(())
}

/// Adds the lines of the claims.
#[tactic(auto, using(crate::proofs::MoveLemmas::joining))]
fn add_claim_moves(
    text: &mut String,
    alloc: Global,
    claims: &[Option<Settled>],
) -> Result<(), Memory>
    ensures text { OnOk result (string_bytes text.new ≡ string_bytes text.old ++ moves_text (moves_of_claims 1 claims.now)) }
    ensures written { OnOk result (AreWritten (moves_of_claims 1 claims.now)) }
{
    'claims: for (i, settled) in claims.iter().enumerate() {
        add_move(text, alloc, 0, 0, i + 1, settled.as_ref())?;
    }
    Ok(())
}

/// Adds the lines of a round of a dispute: the first side, then the second.
#[tactic(auto, using(crate::proofs::MoveLemmas::joining))]
fn add_round_moves(
    text: &mut String,
    alloc: Global,
    dispute: &Dispute,
    round: usize,
    first: Option<&Settled>,
    second: Option<&Settled>,
) -> Result<(), Memory>
    ensures text { OnOk result (string_bytes text.new ≡ string_bytes text.old ++ moves_text (moves_of_round dispute.now.number dispute.now.first dispute.now.second round (option_copied first.entry) (option_copied second.entry))) }
    ensures written { OnOk result (AreWritten (moves_of_round dispute.now.number dispute.now.first dispute.now.second round (option_copied first.entry) (option_copied second.entry))) }
{
    let number = dispute.number();
    let one = dispute.prover(Side::First) as usize;
    let other = dispute.prover(Side::Second) as usize;
    add_move(text, alloc, number, round, one, first)?;
    add_move(text, alloc, number, round, other, second)
}

/// Adds the lines of the past rounds.
#[tactic(auto, using(crate::proofs::MoveLemmas::joining))]
fn add_past_moves(text: &mut String, alloc: Global, dispute: &Dispute) -> Result<(), Memory>
    ensures text { OnOk result (string_bytes text.new ≡ string_bytes text.old ++ moves_text (moves_of_past dispute.now.number dispute.now.first dispute.now.second 1 dispute.now.past)) }
    ensures written { OnOk result (AreWritten (moves_of_past dispute.now.number dispute.now.first dispute.now.second 1 dispute.now.past)) }
{
    let rounds = dispute.rounds();
    'rounds: for (i, round) in rounds.iter().enumerate() {
        let first = Some(&round.first);
        let second = Some(&round.second);
        add_round_moves(text, alloc, dispute, i + 1, first, second)?;
    }
    Ok(())
}

/// Adds the lines of a dispute.
#[tactic(auto, using(crate::proofs::MoveLemmas::adding))]
fn add_dispute_moves(text: &mut String, alloc: Global, dispute: &Dispute) -> Result<(), Memory>
    ensures text { OnOk result (string_bytes text.new ≡ string_bytes text.old ++ moves_text (moves_of_dispute dispute.now)) }
    ensures written { OnOk result (AreWritten (moves_of_dispute dispute.now)) }
{
    add_past_moves(text, alloc, dispute)?;
    let round = dispute.rounds().len() + 1;
    let first = dispute.last_answer(Side::First);
    let second = dispute.last_answer(Side::Second);
    add_round_moves(text, alloc, dispute, round, first, second)
}

/// Adds the lines of disputes.
fn add_moves_of_disputes(
    text: &mut String,
    alloc: Global,
    disputes: &[Dispute],
) -> Result<(), Memory>
    ensures text { OnOk result (string_bytes text.new ≡ string_bytes text.old ++ moves_text (moves_of_disputes disputes.now)) }
    ensures written { OnOk result (AreWritten (moves_of_disputes disputes.now)) }
{
    'disputes: for dispute in disputes {
        add_dispute_moves(text, alloc, dispute)?;
    }
    Ok(())
}

/// Adds a line for each settled answer: the claims by prover, then by dispute, round and side.
#[tactic(auto, using(crate::proofs::MoveLemmas::adding))]
fn add_moves(text: &mut String, alloc: Global, match_record: &Record) -> Result<(), Memory>
    ensures text { OnOk result (string_bytes text.new ≡ string_bytes text.old ++ moves_text (moves_of match_record.now)) }
    ensures written { OnOk result (AreWritten (moves_of match_record.now)) }
{
    add_claim_moves(text, alloc, match_record.claims())?;
    add_moves_of_disputes(text, alloc, match_record.disputes())
}

/// Adds the root of the start state.
#[tactic(auto, unfolding(crate::specs::FullLines::start_text))]
fn add_start(text: &mut String, alloc: Global, head: &Head) -> Result<(), AllocError>
    ensures { OnOk result (string_bytes text.new ≡ string_bytes text.old ++ start_text head.now) }
{
    let root = hex::encode(alloc, head.start.0.as_slice())?;
    write!(text, " start {root}")
}

/// Adds the first line.
fn add_refereed(text: &mut String, alloc: Global, head: &Head) -> Result<(), AllocError>
    ensures { OnOk result (string_bytes text.new ≡ string_bytes text.old ++ (refereed_text head.now ++ codes "\n")) }
{
    add_numbers(text, "refereed", head)?;
    add_start(text, alloc, head)?;
    text.push_str("\n")
}

/// The full text of a match: the line of its head, one line for each settled answer, and the line of the verdict. Each line
/// ends with a line feed.
///
/// What isn't settled yet has no line, and neither has an accepted claim that wasn't given. Each answer that is written has a wire
/// form (`written`).
pub fn full(
    alloc: Global,
    head: &Head,
    match_record: &Record,
    verdict: &Verdict,
) -> Result<Vec<u8>, Memory>
    ensures text { IfOk result (λ text. text.items ≡ full_text head.now match_record.now verdict.now) }
    ensures written { OnOk result (AreWritten (moves_of match_record.now)) }
{
    let mut text = String::new(alloc);
    add_refereed(&mut text, alloc, head)?;
    add_moves(&mut text, alloc, match_record)?;
    add_verdict(&mut text, alloc, match_record.claims(), verdict)?;
    Ok(text.into_bytes())
}
