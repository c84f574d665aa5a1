//! Both passes.
ghost use Rattle.std.specs.Prelude.{◌≡◌, ◌≤◌, ◌<◌, ◌+◌, ◌++◌, [], length, option_map, IfOk, OnOk};
ghost use Rattle.rd_base.specs.Results.{Gives, map_fault};
ghost use Rattle.rv_text.specs.Characters.{source_lines};
ghost use Rattle.rv_text.specs.Assembly.{pass, no_names, with_word, word_of_line, first_pass as the_first_pass, second_pass as the_second_pass, assembled, with_label, after_line, place_after as the_place_after};
ghost use Rattle.rv_text.specs.Places.{places_of, error_in, names_of};

use crate::class::{Class, split_run};
use crate::fault::{AsmError, AsmFault, FaultKind};
use crate::line::{code_in, split_label, word_in};
use crate::names::{Places, Scope, define, place_of};
use std::alloc::{AllocError, Global};
use std::collections::BTreeMap;

/// The most bytes that a text has.
pub const MAX_ASSEMBLY_BYTES: usize = 16_777_216;

/// The bytes of a word.
const WORD_BYTES: u32 = 4;

/// Why a line isn't taken.
#[derive(Clone, Copy, Debug, PartialEq, Eq)]
enum LineError {
    /// It has a fault.
    Fault(FaultKind),
    /// An allocation was refused.
    Memory,
}

/// The words of a text of at most `MAX_ASSEMBLY_BYTES` bytes.
///
/// `Fault` is the text's first fault: first over all lines in order, and in each line in the order of the kinds, another form,
/// an unknown mnemonic, no register, a written number out of range, a name defined twice; then over all lines in order a name
/// that isn't defined and a distance out of range. `Memory` is out of memory.
#[tactic(auto, unfolding(crate::specs::Assembly::assembled))]
pub fn assemble(alloc: Global, text: &[u8]) -> Result<Vec<u32>, AsmError>
    requires { length text.now ≤ 16777216 }
    ensures { Gives AsmError.Memory (λ words. words.items) result (map_fault AsmError.Fault (assembled text.now)) }
{
    let names = first_pass(alloc, text)?;
    second_pass(alloc, text, &names)
}

/// The first pass over a text: the places of its names.
fn first_pass<'a>(alloc: Global, text: &'a [u8]) -> Result<Places<'a>, AsmError>
    requires { length text.now ≤ 16777216 }
    ensures { Gives AsmError.Memory places_of result
        (map_fault AsmError.Fault (names_of (the_first_pass 1 (pass no_names 0) (source_lines text.now)))) }
{
    let mut names = BTreeMap::new(alloc);
    let mut rest = text;
    let mut number = 1;
    let mut place = 0;
    'lines: loop {
        let (line, behind) = split_run(rest, Class::Line);
        match place_line(&mut names, line, place) {
            Ok(next) => place = next,
            Err(error) => return Err(error_at(number, error)),
        }
        match behind {
            [_, more @ ..] => {
                rest = more;
                number += 1;
            }
            [] => return Ok(names),
        }
    }
}

/// What the first pass does with a line: it tests it, and gives its label the next word's place. The place of the word behind it.
fn place_line<'a>(names: &mut Places<'a>, line: &'a [u8], place: u32) -> Result<u32, LineError>
    requires { place < 1073741824 }
    ensures next_place { IfOk result (λ next. next ≤ place + 4) }
    ensures taken { Gives LineError.Memory (λ next. pass (places_of names.new) next) result
        (map_fault LineError.Fault (after_line (pass (places_of names.old) place) line.now)) }
{
    let (label, statement) = split_label(code_in(line));
    let word = match word_in(statement, &Scope::Near) {
        Ok(word) => word,
        Err(kind) => return Err(LineError::Fault(kind)),
    };
    define_once(names, label, place)?;
    Ok(place_after(place, word))
}

/// Gives a label the next word's place.
fn define_once<'a>(
    names: &mut Places<'a>,
    label: Option<&'a [u8]>,
    place: u32,
) -> Result<(), LineError>
    ensures { Gives LineError.Memory (λ _. places_of names.new) result
        (map_fault LineError.Fault (with_label (places_of names.old) (option_map (λ name. name.now) label.entry) place)) }
{
    let Some(name) = label else {
        return Ok(());
    };
    if place_of(names, name).is_some() {
        return Err(LineError::Fault(FaultKind::DefinedTwice));
    }
    match define(names, name, place) {
        Ok(()) => Ok(()),
        Err(_) => Err(LineError::Memory),
    }
}

/// The place of the next word behind a line.
fn place_after(place: u32, word: Option<u32>) -> u32
    requires { place < 1073741824 }
    ensures place { result ≡ the_place_after place word }
    ensures near { result ≤ place + 4 }
{
    match word {
        Some(_) => place + WORD_BYTES,
        None => place,
    }
}

/// The second pass over a text: its words.
fn second_pass(alloc: Global, text: &[u8], names: &Places<'_>) -> Result<Vec<u32>, AsmError>
    requires { length text.now ≤ 16777216 }
    ensures { Gives AsmError.Memory (λ words. words.items) result
        (map_fault AsmError.Fault (the_second_pass 1 (places_of names.now) 0 (source_lines text.now))) }
{
    let mut words = Vec::new(alloc);
    let mut rest = text;
    let mut number = 1;
    let mut here = 0;
    'lines: loop {
        let (line, behind) = split_run(rest, Class::Line);
        let word = match line_word(line, names, here) {
            Ok(word) => word,
            Err(kind) => return Err(error_at(number, LineError::Fault(kind))),
        };
        add_word(&mut words, word)?;
        here = place_after(here, word);
        match behind {
            [_, more @ ..] => {
                rest = more;
                number += 1;
            }
            [] => return Ok(words),
        }
    }
}

/// The word of a line.
fn line_word(line: &[u8], names: &Places<'_>, here: u32) -> Result<Option<u32>, FaultKind>
    ensures { result ≡ word_of_line (places_of names.now) here line.now }
{
    let (_, statement) = split_label(code_in(line));
    word_in(statement, &Scope::At(names, here))
}

/// Appends a line's word.
fn add_word(words: &mut Vec<u32>, word: Option<u32>) -> Result<(), AllocError>
    ensures { OnOk result (words.new.items ≡ words.old.items ++ with_word word []) }
{
    match word {
        Some(word) => {
            words.push(word)?;
            Ok(())
        }
        None => Ok(()),
    }
}

/// The error of a line with this number.
fn error_at(line: u32, error: LineError) -> AsmError
    ensures { result ≡ error_in line error }
{
    match error {
        LineError::Fault(kind) => AsmError::Fault(AsmFault { kind, line }),
        LineError::Memory => AsmError::Memory,
    }
}
