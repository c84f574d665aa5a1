//! The listing of words.
ghost use Rattle.std.specs.Prelude.{◌≡◌, ◌++◌, ◌<◌, string_bytes, OnOk, IfOk};
ghost use Rattle.rv_text.specs.Spelling.{raw};
ghost use Rattle.rv_text.specs.Listing.{spelling_text, line_of, listing};

use crate::instruction::add_instruction;
use rd_base::Memory;
use rv_decode::{Instr, decode};
use std::alloc::{AllocError, Global};
use std::fmt::Write;

/// What the fence that orders everything keeps of its word.
const FENCE_ALL: u32 = 0x0ff0_0000;

/// The listing of words: a line for each, with its line feed, as in `addi x10, x0, 42`.
///
/// Numbers are decimal, and targets are offsets in bytes. A word that is no instruction, or a fence other than `0x0ff0000f`, is
/// `.word 0x` with eight digits in lower case. `Memory` is out of memory.
pub fn list(alloc: Global, words: &[u32]) -> Result<Vec<u8>, Memory>
    ensures { IfOk result (λ text. text.items ≡ listing words.now) }
{
    let text = list_text(alloc, words)?;
    Ok(text.into_bytes())
}

/// The listing as a string.
fn list_text(alloc: Global, words: &[u32]) -> Result<String, AllocError>
    ensures { IfOk result (λ text. string_bytes text ≡ listing words.now) }
{
    let mut text = String::new(alloc);
    for word in words {
        add_line(&mut text, *word)?;
        text.push('\n')?;
    }
    Ok(text)
}

/// Adds the line of a word.
#[tactic(auto, unfolding(crate::specs::Spelling::spelling_of))]
fn add_line(text: &mut String, word: u32) -> Result<(), AllocError>
    ensures { OnOk result (string_bytes text.new ≡ string_bytes text.old ++ line_of word) }
{
    match decode(word) {
        Some(Instr::Fence(f)) => {
            if f.fields == FENCE_ALL {
                text.push_str("fence")
            } else {
                add_raw(text, word)
            }
        }
        Some(i) => add_instruction(text, i),
        None => add_raw(text, word),
    }
}

/// Adds the line of a word that is written as such.
#[tactic(auto, using(crate::proofs::digits::HexLemmas::written_rules))]
fn add_raw(text: &mut String, word: u32) -> Result<(), AllocError>
    ensures { OnOk result (string_bytes text.new ≡ string_bytes text.old ++ spelling_text (raw word)) }
{
    write!(text, ".word 0x{word:08x}")
}
