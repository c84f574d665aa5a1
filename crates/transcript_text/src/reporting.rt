//! The report of a match: its head, what is claimed, what its disputes say (`disputes`), its verdict, and the balances.
ghost use Rattle.std.specs.Prelude.{◌≡◌, ◌++◌, string_bytes, IfOk, OnOk, Some, option_copied};
ghost use Rattle.transcript_text.specs.StatedVerdict.{settled_at};
ghost use Rattle.transcript_text.specs.Lines.{accept_line, none_left_line, collision_line, line_of_stated, line_of_accepted, line_of_verdict, lines_of_record, balance_line, pool_line, lines_of_provers, lines_of_balances, out_line, line_of_claim, lines_of_claims};
ghost use Rattle.transcript_text.specs.Report.{played_text, patience_text, committed_text, numbers_text, head_line, line_text, text_if_there, lines_text, answer_text, report_text};

use crate::disputes::{Word, add_disputes};
use crate::text::{Head, Stated, settled_at};
use bisect_game::Settled;
use deposits::Balances;
use rd_base::{Answer, Memory, Status};
use std::alloc::{AllocError, Global};
use std::fmt::Write;
use tournament::{Record, Verdict};

#[tactic(auto, unfolding(crate::specs::Report::played_text))]
fn add_played(text: &mut String, word: &str, head: &Head) -> Result<(), AllocError>
    ensures { OnOk result (string_bytes text.new ≡ string_bytes text.old ++ played_text word.now head.now) }
{
    let provers = head.provers;
    let bound = head.bound;
    write!(text, "{word} provers {provers} bound {bound}")
}

#[tactic(auto, unfolding(crate::specs::Report::patience_text))]
fn add_patience(text: &mut String, head: &Head) -> Result<(), AllocError>
    ensures { OnOk result (string_bytes text.new ≡ string_bytes text.old ++ patience_text head.now) }
{
    let patience = head.patience;
    write!(text, " patience {patience}")
}

#[tactic(auto, unfolding(crate::specs::Report::committed_text))]
fn add_committed(text: &mut String, head: &Head) -> Result<(), AllocError>
    ensures { OnOk result (string_bytes text.new ≡ string_bytes text.old ++ committed_text head.now) }
{
    let version = head.version;
    let fan = head.fan;
    let digest = head.digest;
    write!(text, " version {version} fan {fan} digest {digest}")
}

/// Adds the first word of a text, and the numbers of its head.
pub(crate) fn add_numbers(text: &mut String, word: &str, head: &Head) -> Result<(), AllocError>
    ensures { OnOk result (string_bytes text.new ≡ string_bytes text.old ++ numbers_text word.now head.now) }
{
    add_played(text, word, head)?;
    add_patience(text, head)?;
    add_committed(text, head)
}

/// Adds the line of a match's head.
fn add_head(text: &mut String, head: &Head) -> Result<(), AllocError>
    ensures { OnOk result (string_bytes text.new ≡ string_bytes text.old ++ head_line head.now) }
{
    add_numbers(text, "match", head)?;
    text.push_str("\n")
}

/// The line of a match's head.
pub fn head_line(alloc: Global, head: &Head) -> Result<String, AllocError>
    ensures { IfOk result (λ text. string_bytes text ≡ head_line head.now) }
{
    let mut text = String::new(alloc);
    add_head(&mut text, head)?;
    Ok(text)
}

/// Adds a status and an output, in hexadecimal if it isn't empty.
pub(crate) fn add_answer(
    text: &mut String,
    alloc: Global,
    status: Status,
    output: &[u8],
) -> Result<(), AllocError>
    ensures { OnOk result (string_bytes text.new ≡ string_bytes text.old ++ answer_text status output.now) }
{
    write!(text, "{status} output")?;
    if output.is_empty() {
        return Ok(());
    }
    let digits = hex::encode(alloc, output)?;
    write!(text, " {digits}")
}

/// Adds the line of a prover that is out by its claim.
fn add_out(text: &mut String, prover: usize, word: Word) -> Result<(), AllocError>
    ensures { OnOk result (string_bytes text.new ≡ string_bytes text.old ++ line_text (out_line prover word)) }
{
    write!(text, "out p{prover} {word}\n")
}

/// Adds the line of a prover.
fn add_claim(
    text: &mut String,
    alloc: Global,
    prover: usize,
    settled: &Option<Settled>,
) -> Result<(), AllocError>
    ensures { OnOk result (string_bytes text.new ≡ string_bytes text.old ++ text_if_there (line_of_claim prover settled.now)) }
{
    match settled {
        Some(Settled::Given(Answer::Claim(claim))) => {
            write!(text, "p{prover} claims ")?;
            add_answer(text, alloc, claim.ctl.status, claim.output.as_slice())?;
            text.push_str("\n")
        }
        Some(Settled::Faulty(_)) => add_out(text, prover, Word::Faulty),
        Some(Settled::Spent) => add_out(text, prover, Word::Spent),
        _ => Ok(()),
    }
}

/// Adds the line of each prover whose claim is settled, of whom the first has the number 1.
fn add_claims(
    text: &mut String,
    alloc: Global,
    claims: &[Option<Settled>],
) -> Result<(), AllocError>
    ensures { OnOk result (string_bytes text.new ≡ string_bytes text.old ++ lines_text (lines_of_claims 1 claims.now)) }
{
    'claims: for (i, settled) in claims.iter().enumerate() {
        add_claim(text, alloc, i + 1, settled)?;
    }
    Ok(())
}

/// The line of each prover whose claim is settled, of whom the first has the number 1.
pub fn claim_lines(alloc: Global, claims: &[Option<Settled>]) -> Result<String, AllocError>
    ensures { IfOk result (λ text. string_bytes text ≡ lines_text (lines_of_claims 1 claims.now)) }
{
    let mut text = String::new(alloc);
    add_claims(&mut text, alloc, claims)?;
    Ok(text)
}

/// Adds the line of an accepted status and output.
fn add_accept(
    text: &mut String,
    alloc: Global,
    status: Status,
    output: &[u8],
) -> Result<(), AllocError>
    ensures { OnOk result (string_bytes text.new ≡ string_bytes text.old ++ line_text (accept_line status output.now)) }
{
    text.push_str("accept ")?;
    add_answer(text, alloc, status, output)?;
    text.push_str("\n")
}

/// Adds the line of a match in which nobody is left.
fn add_none_left(text: &mut String) -> Result<(), AllocError>
    ensures { OnOk result (string_bytes text.new ≡ string_bytes text.old ++ line_text none_left_line) }
{
    text.push_str("none left\n")
}

/// Adds the line of two strings of one digest.
fn add_collision(
    text: &mut String,
    alloc: Global,
    first: &[u8],
    second: &[u8],
) -> Result<(), AllocError>
    ensures { OnOk result (string_bytes text.new ≡ string_bytes text.old ++ line_text (collision_line first.now second.now)) }
{
    let first = hex::encode(alloc, first)?;
    let second = hex::encode(alloc, second)?;
    write!(text, "collision {first} {second}\n")
}

/// The line of a stated verdict.
pub fn stated_line(alloc: Global, stated: &Stated) -> Result<String, AllocError>
    ensures { IfOk result (λ text. string_bytes text ≡ line_text (line_of_stated stated.now)) }
{
    let mut text = String::new(alloc);
    match stated {
        Stated::Accept(status, output) => {
            add_accept(&mut text, alloc, *status, output.as_slice())?;
        }
        Stated::NoneLeft => add_none_left(&mut text)?,
        Stated::Collision(x, y) => {
            add_collision(&mut text, alloc, x.as_slice(), y.as_slice())?;
        }
    }
    Ok(text)
}

/// Adds the line of a claim that is accepted.
fn add_accepted(
    text: &mut String,
    alloc: Global,
    claims: &[Option<Settled>],
    number: u32,
) -> Result<(), AllocError>
    ensures { OnOk result (string_bytes text.new ≡ string_bytes text.old ++ text_if_there (line_of_accepted (settled_at claims.now number))) }
{
    match settled_at(claims, number) {
        Some(Some(Settled::Given(Answer::Claim(claim)))) => {
            add_accept(text, alloc, claim.ctl.status, claim.output.as_slice())
        }
        _ => Ok(()),
    }
}

/// Adds the line of a verdict, by what each prover's claim was settled as; an accepted claim that wasn't given has none.
pub(crate) fn add_verdict(
    text: &mut String,
    alloc: Global,
    claims: &[Option<Settled>],
    verdict: &Verdict,
) -> Result<(), AllocError>
    ensures { OnOk result (string_bytes text.new ≡ string_bytes text.old ++ text_if_there (line_of_verdict claims.now verdict.now)) }
{
    match verdict {
        Verdict::Accept(number) => add_accepted(text, alloc, claims, *number),
        Verdict::NoneLeft => add_none_left(text),
        Verdict::Collision(x, y) => add_collision(text, alloc, x.as_slice(), y.as_slice()),
    }
}

/// The line of a verdict, by what each prover's claim was settled as; it is empty if an accepted claim wasn't given.
pub fn verdict_line(
    alloc: Global,
    claims: &[Option<Settled>],
    verdict: &Verdict,
) -> Result<String, AllocError>
    ensures { IfOk result (λ text. string_bytes text ≡ text_if_there (line_of_verdict claims.now verdict.now)) }
{
    let mut text = String::new(alloc);
    add_verdict(&mut text, alloc, claims, verdict)?;
    Ok(text)
}

/// Adds the lines of what was settled.
#[tactic(auto, using(crate::proofs::LineLemmas::added_lines))]
fn add_record(text: &mut String, alloc: Global, match_record: &Record) -> Result<(), AllocError>
    ensures { OnOk result (string_bytes text.new ≡ string_bytes text.old ++ lines_text (lines_of_record match_record.now)) }
{
    add_claims(text, alloc, match_record.claims())?;
    add_disputes(text, match_record.disputes())
}

/// Adds what a prover has.
fn add_balance(text: &mut String, prover: usize, has: u64) -> Result<(), AllocError>
    ensures { OnOk result (string_bytes text.new ≡ string_bytes text.old ++ line_text (balance_line prover has)) }
{
    write!(text, "balance p{prover} {has}\n")
}

/// Adds what each prover has, of whom the first has the number 1.
fn add_each(text: &mut String, balances: &[u64]) -> Result<(), AllocError>
    ensures { OnOk result (string_bytes text.new ≡ string_bytes text.old ++ lines_text (lines_of_provers 1 balances.now)) }
{
    'provers: for (i, has) in balances.iter().enumerate() {
        add_balance(text, i + 1, *has)?;
    }
    Ok(())
}

/// Adds what is in the pool.
fn add_pool(text: &mut String, pool: u64) -> Result<(), AllocError>
    ensures { OnOk result (string_bytes text.new ≡ string_bytes text.old ++ line_text (pool_line pool)) }
{
    write!(text, "pool {pool}\n")
}

/// Adds what each prover has and what is in the pool.
#[tactic(auto, using(crate::proofs::LineLemmas::added_line))]
fn add_all(text: &mut String, balances: &Balances) -> Result<(), AllocError>
    ensures { OnOk result (string_bytes text.new ≡ string_bytes text.old ++ lines_text (lines_of_balances (Some balances.now))) }
{
    add_each(text, balances.of.as_slice())?;
    add_pool(text, balances.pool)
}

/// Adds what each prover has and what is in the pool, in a match with deposits.
fn add_balances(text: &mut String, balances: Option<&Balances>) -> Result<(), AllocError>
    ensures { OnOk result (string_bytes text.new ≡ string_bytes text.old ++ lines_text (lines_of_balances (option_copied balances.entry))) }
{
    match balances {
        Some(balances) => add_all(text, balances),
        None => Ok(()),
    }
}

/// The report of a match: the line of its head, one line for each prover, the disputes with their rounds, in a match with
/// deposits what each prover has and what is in the pool, and the line of the verdict. Each line ends with a line feed.
///
/// What isn't settled yet has no line, and neither has an accepted claim that wasn't given.
pub fn report(
    alloc: Global,
    head: &Head,
    match_record: &Record,
    verdict: &Verdict,
    balances: Option<&Balances>,
) -> Result<Vec<u8>, Memory>
    ensures { IfOk result (λ text. text.items ≡ report_text head.now match_record.now verdict.now (option_copied balances.entry)) }
{
    let mut text = String::new(alloc);
    add_head(&mut text, head)?;
    add_record(&mut text, alloc, match_record)?;
    add_balances(&mut text, balances)?;
    add_verdict(&mut text, alloc, match_record.claims(), verdict)?;
    Ok(text.into_bytes())
}
