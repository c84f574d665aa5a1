//! The lines of a full text: the head, a move, the verdict.
ghost use Rattle.std.specs.Prelude.{◌≡◌};
ghost use Rattle.rd_base.specs.Results.{Gives};
ghost use Rattle.transcript_text.specs.reader.Entries.{head_in, settlement_in, move_in, status_at, output_in, accepted_in, string_in, collided_in, verdict_in, entry_in};
ghost use Rattle.transcript_text.specs.reader.ReadText.{head_of_numbers, head_with};
ghost use Rattle.transcript_text.specs.Limits.{numbers_are_in_limits};

use crate::limits;
use crate::reader::fault::{LineFault, TextFault};
use crate::reader::fields::{
    behind_word, cut_at, read_answer, read_digest, read_name, read_number_after, read_small_number,
    read_some_hex, skip_word,
};
use crate::text::{Head, Stated, TextMove};
use bisect_game::Settled;
use digest_core::DigestName;
use rd_base::{Bytes, Digest32, MAX_TEXT_BYTES, OpenText, Qid, Status};
use std::alloc::Global;

/// A line of a full text but the first.
#[derive(Debug, Drop)]
pub(crate) enum Entry {
    Move(TextMove),
    Verdict(Stated),
}

/// The first line of a full text, its numbers as they are written. A number that needs more than 32 bits is 2^32.
#[derive(Clone, Copy, Debug)]
pub(crate) struct HeadNumbers {
    pub provers: u64,
    pub bound: u64,
    pub patience: u64,
    pub version: u64,
    pub fan: u64,
    pub digest: DigestName,
    pub start: Digest32,
}

/// The head of a line, whatever its numbers.
#[tactic(auto, unfolding(crate::specs::reader::Entries::head_in))]
fn head_in(alloc: Global, line: &[u8]) -> Result<HeadNumbers, LineFault>
    ensures { Gives LineFault.Memory (λ head. head) result (head_in line.now) }
{
    let (provers, rest) = read_number_after(line, b"refereed provers ")?;
    let (bound, rest) = read_number_after(rest, b" bound ")?;
    let (patience, rest) = read_number_after(rest, b" patience ")?;
    let (version, rest) = read_number_after(rest, b" version ")?;
    let (fan, rest) = read_number_after(rest, b" fan ")?;
    let (digest, rest) = read_name(skip_word(rest, b" digest ")?)?;
    let start = read_digest(alloc, skip_word(rest, b" start ")?)?;
    Ok(HeadNumbers {
        provers,
        bound,
        patience,
        version,
        fan,
        digest,
        start,
    })
}

/// Whether the numbers of a head are in their limits.
fn are_in_limits(head: &HeadNumbers) -> bool
    ensures { result ≡ numbers_are_in_limits (head_of_numbers head.now) }
{
    limits::PROVERS.holds(head.provers)
        && limits::BOUND.holds(head.bound)
        && limits::PATIENCE.holds(head.patience)
        && limits::VERSION.holds(head.version)
        && limits::FAN.holds(head.fan)
}

/// The head of a line, its numbers in their limits.
pub(crate) fn read_head(alloc: Global, line: &[u8]) -> Result<Head, TextFault>
    ensures { Gives TextFault.Memory (λ head. head) result (head_with (head_in line.now)) }
{
    let head = match head_in(alloc, line) {
        Ok(head) => head,
        Err(LineFault::NoForm) => return Err(TextFault::BadHead),
        Err(LineFault::Memory) => return Err(TextFault::Memory),
    };
    if !are_in_limits(&head) {
        return Err(TextFault::OutOfRange(1));
    }
    Ok(Head {
        provers: head.provers as u32,
        bound: head.bound,
        patience: head.patience as u32,
        version: head.version as u32,
        fan: head.fan as u32,
        digest: head.digest,
        start: head.start,
    })
}

/// What an answer is settled as.
#[tactic(auto, unfolding(crate::specs::reader::Entries::settlement_in))]
fn settlement_in(alloc: Global, bytes: &[u8]) -> Result<Settled, LineFault>
    ensures { Gives LineFault.Memory (λ settled. settled) result (settlement_in bytes.now) }
{
    if let Some(digits) = behind_word(bytes, b"given ") {
        return Ok(Settled::Given(read_answer(alloc, digits)?));
    }
    if let Some(digits) = behind_word(bytes, b"faulty ") {
        return Ok(Settled::Faulty(read_answer(alloc, digits)?));
    }
    if bytes == b"spent".as_slice() {
        Ok(Settled::Spent)
    } else {
        Err(LineFault::NoForm)
    }
}

/// A move, behind `move `.
#[tactic(auto, unfolding(crate::specs::reader::Entries::move_in))]
fn move_in(alloc: Global, bytes: &[u8]) -> Result<TextMove, LineFault>
    ensures { Gives LineFault.Memory (λ entry. entry) result (move_in bytes.now) }
{
    let (dispute, rest) = read_small_number(bytes)?;
    let (round, rest) = read_small_number(skip_word(rest, b" ")?)?;
    let (prover, rest) = read_small_number(skip_word(rest, b" p")?)?;
    let settled = settlement_in(alloc, skip_word(rest, b" ")?)?;
    Ok(TextMove {
        qid: Qid { dispute, round },
        prover,
        settled,
    })
}

/// A status.
#[tactic(auto, unfolding(crate::specs::reader::Entries::status_at))]
fn status_at(bytes: &[u8]) -> Result<(Status, &[u8]), LineFault>
    ensures { Gives LineFault.Memory (λ x. (x.0, x.1.now)) result (status_at bytes.now) }
{
    if let Some(rest) = behind_word(bytes, b"running") {
        return Ok((Status::Running, rest));
    }
    if let Some(code) = behind_word(bytes, b"exited ") {
        let (code, rest) = read_small_number(code)?;
        return Ok((Status::Exited(code), rest));
    }
    if let Some(code) = behind_word(bytes, b"trapped ") {
        let (code, rest) = read_small_number(code)?;
        return Ok((Status::Trapped(code), rest));
    }
    Err(LineFault::NoForm)
}

/// An output, which may be empty.
#[tactic(auto, unfolding(crate::specs::reader::Entries::output_in))]
fn output_in(alloc: Global, bytes: &[u8]) -> Result<Vec<u8>, LineFault>
    ensures { Gives LineFault.Memory (λ output. output.items) result (output_in bytes.now) }
{
    match bytes {
        [] => Ok(Vec::new(alloc)),
        [_, ..] => read_some_hex(alloc, skip_word(bytes, b" ")?),
    }
}

/// An accepted claim, behind `accept `.
#[tactic(auto, unfolding(crate::specs::reader::Entries::accepted_in))]
fn accepted_in(alloc: Global, bytes: &[u8]) -> Result<Stated, LineFault>
    ensures { Gives LineFault.Memory (λ stated. stated) result (accepted_in bytes.now) }
{
    let (status, rest) = status_at(bytes)?;
    let output = output_in(alloc, skip_word(rest, b" output")?)?;
    Ok(Stated::Accept(status, Bytes::new(output)))
}

/// A string that is digested: at most 129 bytes, and not none.
#[tactic(auto, unfolding(crate::specs::reader::Entries::string_in))]
fn string_in(alloc: Global, digits: &[u8]) -> Result<OpenText, LineFault>
    ensures { Gives LineFault.Memory (λ text. text) result (string_in digits.now) }
{
    let bytes = read_some_hex(alloc, digits)?;
    if MAX_TEXT_BYTES < bytes.len() {
        return Err(LineFault::NoForm);
    }
    let mut text = OpenText::new();
    text.extend(bytes.as_slice());
    Ok(text)
}

/// Two strings, behind `collision `.
#[tactic(auto, unfolding(crate::specs::reader::Entries::collided_in))]
fn collided_in(alloc: Global, bytes: &[u8]) -> Result<Stated, LineFault>
    ensures { Gives LineFault.Memory (λ stated. stated) result (collided_in bytes.now) }
{
    let Some((first, second)) = cut_at(bytes, b' ') else {
        return Err(LineFault::NoForm);
    };
    let first = string_in(alloc, first)?;
    let second = string_in(alloc, second)?;
    Ok(Stated::Collision(first, second))
}

/// A verdict.
#[tactic(auto, unfolding(crate::specs::reader::Entries::verdict_in))]
fn verdict_in(alloc: Global, bytes: &[u8]) -> Result<Stated, LineFault>
    ensures { Gives LineFault.Memory (λ stated. stated) result (verdict_in bytes.now) }
{
    if let Some(rest) = behind_word(bytes, b"accept ") {
        return accepted_in(alloc, rest);
    }
    if let Some(rest) = behind_word(bytes, b"collision ") {
        return collided_in(alloc, rest);
    }
    if bytes == b"none left".as_slice() {
        Ok(Stated::NoneLeft)
    } else {
        Err(LineFault::NoForm)
    }
}

/// A line but the first.
#[tactic(auto, unfolding(crate::specs::reader::Entries::entry_in))]
pub(crate) fn entry_in(alloc: Global, bytes: &[u8]) -> Result<Entry, LineFault>
    ensures { Gives LineFault.Memory (λ entry. entry) result (entry_in bytes.now) }
{
    match behind_word(bytes, b"move ") {
        Some(rest) => Ok(Entry::Move(move_in(alloc, rest)?)),
        None => Ok(Entry::Verdict(verdict_in(alloc, bytes)?)),
    }
}
