//! The reader of full texts: one pass over the lines, which keeps one move a line.
ghost use Rattle.std.specs.Prelude.{◌+◌, ◌<◌, ◌^◌, []};
ghost use Rattle.rd_base.specs.Results.{Gives};
ghost use Rattle.transcript_text.specs.reader.TextLines.{line as a_line, lines_of};
ghost use Rattle.transcript_text.specs.reader.ReadText.{after_verdict, later, rest_with, text_in_lines, read_text};

mod entries;
mod fault;
mod fields;

use crate::reader::entries::{Entry, entry_in, read_head};
use crate::reader::fault::LineFault;
use crate::reader::fields::cut_at;
use crate::text::{FullText, Head, Stated, TextMove};
pub use fault::TextFault;
use rd_base::Listed;
use std::alloc::Global;

/// The byte that ends a line.
const LINE_FEED: u8 = b'\n';

/// What comes of the verdict's line, which has this number, after these moves: nothing may follow it.
#[tactic(auto, using(crate::proofs::read_back::ReadLemmas::ending))]
fn end(
    number: u64,
    moves: Vec<TextMove>,
    stated: Stated,
    behind: &[u8],
) -> Result<(Vec<TextMove>, Stated), TextFault>
    requires { number + 1 < 2 ^ 64 }
    ensures { Gives TextFault.Memory (λ x. (x.0.items, x.1)) result (after_verdict number moves.items stated (lines_of behind.now)) }
{
    if behind.is_empty() {
        return Ok((moves, stated));
    }
    match cut_at(behind, LINE_FEED) {
        Some(_) => Err(TextFault::BadLine(number + 1)),
        None => Err(TextFault::Truncated),
    }
}

/// The lines but the first, of a match of this many provers.
#[tactic(auto, using(crate::proofs::read_back::ReadLemmas::reading))]
fn read_later(
    alloc: Global,
    provers: u32,
    bytes: &[u8],
) -> Result<(Vec<TextMove>, Stated), TextFault>
    ensures { Gives TextFault.Memory (λ x. (x.0.items, x.1)) result (later provers 2 [] (lines_of bytes.now)) }
{
    let mut moves = Vec::new(alloc);
    let mut number = 2;
    let mut rest = bytes;
    'lines: while let Some((line, behind)) = cut_at(rest, LINE_FEED) {
        match entry_in(alloc, line) {
            Ok(Entry::Move(entry)) => {
                if entry.prover < 1 || provers < entry.prover {
                    return Err(TextFault::OutOfRange(number));
                }
                moves.push(entry)?;
            }
            Ok(Entry::Verdict(stated)) => return end(number, moves, stated, behind),
            Err(LineFault::NoForm) => return Err(TextFault::BadLine(number)),
            Err(LineFault::Memory) => return Err(TextFault::Memory),
        }
        number += 1;
        rest = behind;
    }
    Err(TextFault::Truncated)
}

/// The lines behind the head's.
fn read_rest(alloc: Global, head: Head, bytes: &[u8]) -> Result<FullText, TextFault>
    ensures { Gives TextFault.Memory (λ text. text) result (rest_with head (lines_of bytes.now)) }
{
    let (moves, stated) = read_later(alloc, head.provers, bytes)?;
    Ok(FullText {
        head,
        moves: Listed::new(moves),
        stated,
    })
}

/// The head of the first line, and the lines behind it.
fn read_lines(alloc: Global, line: &[u8], behind: &[u8]) -> Result<FullText, TextFault>
    ensures { Gives TextFault.Memory (λ text. text) result (text_in_lines (a_line line.now (lines_of behind.now))) }
{
    let head = read_head(alloc, line)?;
    read_rest(alloc, head, behind)
}

/// The full text with these bytes.
///
/// An `Err` is the first fault of its lines in their order, or out of memory.
#[tactic(auto, using(crate::proofs::read_back::ReadLemmas::whole), unfolding(crate::specs::reader::ReadText::read_text))]
pub fn read_full(alloc: Global, bytes: &[u8]) -> Result<FullText, TextFault>
    ensures { Gives TextFault.Memory (λ text. text) result (read_text bytes.now) }
{
    match cut_at(bytes, LINE_FEED) {
        Some((line, behind)) => read_lines(alloc, line, behind),
        None => Err(TextFault::Truncated),
    }
}
