//! The audit of a full text's mutants, in each of which one byte is changed, dropped or doubled.
//!
//! The expected lines are those of another player of texts, `checks/lines.py --stored`.
ghost use Rattle.std.specs.Prelude.{◌<◌, ◌≤◌, length};

use crate::answering::add_audit;
use rd_base::Memory;
use std::alloc::{AllocError, Global};
use std::sync::Wait;
use std::thread::Threads;

/// How many mutants there are.
const MUTANTS: usize = 240;

/// This many of them are at the first bytes, one each, and then up to `AT_ENDS` at the last ones, from the end on.
const AT_START: usize = 90;

const AT_ENDS: usize = 120;

/// The others are this many bytes apart, round the text.
const STRIDE: usize = 7_919;

/// What a byte is changed to, in turn, and never itself.
const CHANGES: [u8; 10] = [b'0', b' ', b'a', b'\n', b'9', b'p', 0, b'G', b'1', b'\r'];

/// The place of the byte in which a mutant of a text of this many bytes differs.
fn place_of(mutant: usize, size: usize) -> usize
    requires mutant { mutant < 240 }
    requires long { 120 ≤ size }
    ensures { result < size }
{
    if mutant < AT_START {
        mutant
    } else if mutant < AT_ENDS {
        size - 1 - (mutant - AT_START)
    } else {
        STRIDE * (mutant - (AT_ENDS - 1)) % size
    }
}

/// What a byte is changed to in a mutant.
fn change_of(mutant: usize, byte: u8) -> u8
    requires mutant { mutant < 240 }
{
    let change = CHANGES[mutant / 3 % CHANGES.len()];
    if change == byte {
        CHANGES[(mutant / 3 + 1) % CHANGES.len()]
    } else {
        change
    }
}

/// The text with a byte changed, dropped or doubled, these three in turn.
fn mutant_of(alloc: Global, text: &[u8], mutant: usize) -> Result<Vec<u8>, AllocError>
    requires mutant { mutant < 240 }
    requires long { 120 ≤ length text.now }
{
    let place = place_of(mutant, text.len());
    let mut bytes = Vec::new(alloc);
    bytes.extend_from_slice(&text[..place])?;
    match mutant % 3 {
        0 => bytes.push(change_of(mutant, text[place]))?,
        1 => {}
        _ => {
            bytes.push(text[place])?;
            bytes.push(text[place])?;
        }
    }
    bytes.extend_from_slice(&text[place + 1..])?;
    Ok(bytes)
}

/// The audits of the mutants of a text, a line each. None for a text of fewer than 120 bytes.
pub fn answers_of<R: Threads + Wait + Sync>(
    rt: &R,
    alloc: Global,
    text: &[u8],
) -> Result<String, Memory> {
    let mut answers = String::new(alloc);
    if text.len() < AT_ENDS {
        return Ok(answers);
    }
    for mutant in 0..MUTANTS {
        add_audit(rt, alloc, &mut answers, mutant_of(alloc, text, mutant)?)?;
    }
    Ok(answers)
}
