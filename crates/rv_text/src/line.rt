//! A line: its label, and its statement.
ghost use Rattle.std.specs.Prelude.{◌≡◌, ◌+◌, ◌<◌, ◌^◌, Some, option_map};
ghost use Rattle.rv_text.specs.Characters.{begins, is_blank, is_empty};
ghost use Rattle.rv_text.specs.Operands.{slots_of as the_slots_of};
ghost use Rattle.rv_text.specs.Rows.{most_in};
ghost use Rattle.rv_text.specs.Lines.{code_in as the_code_in, label_in, statement_in, word_of_row, word_of_statement, word_in as the_word_in};
ghost use Rattle.rv_text.specs.Places.{distances_in};

use crate::class::{Class, is_name, skip, split_run};
use crate::fault::FaultKind;
use crate::form::{Slot, slots_of};
use crate::names::Scope;
use crate::operands::operands_bits;
use crate::row::{Row, row_named};

/// A line without its comment and the blanks at its head.
pub fn code_in(line: &[u8]) -> &[u8]
    ensures { result.now ≡ the_code_in line.now }
{
    let (code, _) = split_run(line, Class::Code);
    skip(code)
}

/// The label, and what is behind it.
pub fn split_label(code: &[u8]) -> (Option<&[u8]>, &[u8])
    ensures label { option_map (λ name. name.now) result.0 ≡ label_in code.now }
    ensures statement { result.1.now ≡ statement_in code.now }
{
    let (first, rest) = split_run(code, Class::Mnemonic);
    if !is_name(first) {
        return (None, code);
    }
    match skip(rest) {
        [b':', behind @ ..] => (Some(first), skip(behind)),
        _ => (None, code),
    }
}

/// The word of the statement behind a line's label, if there is one. An `Err` is the statement's fault.
#[tactic(auto, unfolding(crate::specs::Lines::word_in))]
pub fn word_in(text: &[u8], scope: &Scope<'_, '_>) -> Result<Option<u32>, FaultKind>
    ensures { result ≡ the_word_in (distances_in scope.now) text.now }
{
    match text {
        [] => Ok(None),
        _ => Ok(Some(statement_word(text, scope)?)),
    }
}

/// The word of a statement: a mnemonic and its operands. An `Err` is the statement's fault.
fn statement_word(text: &[u8], scope: &Scope<'_, '_>) -> Result<u32, FaultKind>
    ensures { result ≡ word_of_statement (distances_in scope.now) text.now }
{
    let (mnemonic, operands) = split_run(text, Class::Mnemonic);
    match mnemonic {
        [] => Err(FaultKind::OtherForm),
        _ => match row_named(mnemonic) {
            Some(row) => row_word(row, operands, scope),
            None => Err(FaultKind::UnknownMnemonic),
        },
    }
}

/// The word of a row with the operands of a text.
#[tactic(auto, using(crate::proofs::digits::SumLemmas::word_rules))]
fn row_word(row: Row, text: &[u8], scope: &Scope<'_, '_>) -> Result<u32, FaultKind>
    requires { row.base + most_in (the_slots_of row.form) < 2 ^ 32 }
    ensures { result ≡ word_of_row (distances_in scope.now) (Some row) text.now }
{
    let slots = slots_of(row.form);
    if !has_none(slots) && !begins_blank(text) {
        return Err(FaultKind::OtherForm);
    }
    Ok(row.base + operands_bits(slots, text, scope)?)
}

/// Whether there are no slots.
fn has_none(slots: &[Slot]) -> bool
    ensures { result ≡ is_empty slots.now }
{
    match slots {
        [] => true,
        [_, ..] => false,
    }
}

/// Whether a text begins with a blank.
fn begins_blank(text: &[u8]) -> bool
    ensures { result ≡ begins is_blank text.now }
{
    match text {
        [first, ..] => *first == b' ' || *first == b'\t',
        [] => false,
    }
}
