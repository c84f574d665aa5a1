//! The operands of a line.
ghost use Rattle.std.specs.Prelude.{◌≡◌, ◌<◌, ◌≤◌, ◌^◌, ◌+◌, true, IfOk, option_map};
ghost use Rattle.rv_text.specs.declared.fault.FaultKind.TheVariants as FaultKind;
ghost use Rattle.rv_text.specs.Fields.{most_at, is_in as the_is_in, is_register as the_is_register};
ghost use Rattle.rv_text.specs.Numbers.{number_of_text};
ghost use Rattle.rv_text.specs.Faults.{earlier as the_earlier};
ghost use Rattle.rv_text.specs.Operands.{ranged as the_ranged, ranged_or, registered_in, both, operand_in, operands_in, after_operand, next_operand, after_mark as the_after_mark, after_slot as the_after_slot};
ghost use Rattle.rv_text.specs.Rows.{most_in};
ghost use Rattle.rv_text.specs.Places.{distances_in};
ghost use Rattle.rv_text.specs.Sums.{bits_of, sum_of};

use crate::class::{Class, is_name, skip, split_run};
use crate::fault::FaultKind;
use crate::field::{Field, is_in, is_register, is_target, placed_at};
use crate::form::{Mark, Slot, character, field_of};
use crate::names::{Scope, distance};
use crate::numbers::{number, register_in};

/// The bits of the operands that slots ask for. An `Err` is the fault of theirs that counts. It calls itself once for each slot, of which
/// there are at most three.
pub fn operands_bits(slots: &[Slot], text: &[u8], scope: &Scope<'_, '_>) -> Result<u32, FaultKind>
    requires { most_in slots.now < 2 ^ 32 }
    ensures bits { result ≡ sum_of slots.now (operands_in (distances_in scope.now) slots.now text.now) }
    ensures most { IfOk result (λ bits. bits ≤ most_in slots.now) }
{
    match slots {
        [] => {
            if skip(text).is_empty() {
                Ok(0)
            } else {
                Err(FaultKind::OtherForm)
            }
        }
        [slot, others @ ..] => {
            let (operand, rest) = split_operand(text);
            let first = operand_bits(field_of(*slot), operand, scope);
            let more = match after_slot(*slot, rest) {
                Some(rest) => operands_bits(others, rest, scope),
                None => Err(FaultKind::OtherForm),
            };
            plus(first, more)
        }
    }
}

/// The characters of the next operand, and what follows them.
fn split_operand(text: &[u8]) -> (&[u8], &[u8])
    ensures operand { result.0.now ≡ next_operand text.now }
    ensures rest { result.1.now ≡ after_operand text.now }
{
    let (operand, rest) = split_run(skip(text), Class::Operand);
    (operand, skip(rest))
}

/// The bits of an operand in the word.
fn operand_bits(field: Field, text: &[u8], scope: &Scope<'_, '_>) -> Result<u32, FaultKind>
    ensures bits { result ≡ bits_of field (operand_in (distances_in scope.now) field text.now) }
    ensures most { IfOk result (λ bits. bits ≤ most_at field) }
{
    Ok(placed_at(field, operand(field, text, scope)?))
}

/// The value of an operand.
fn operand(field: Field, text: &[u8], scope: &Scope<'_, '_>) -> Result<i64, FaultKind>
    ensures value { result ≡ operand_in (distances_in scope.now) field text.now }
    ensures in_range { IfOk result (λ z. the_is_in field z ≡ true) }
{
    if is_register(field) {
        register_operand(field, text)
    } else if is_target(field) && is_name(text) {
        target_operand(field, text, scope)
    } else {
        number_operand(field, text)
    }
}

/// The value of a register's operand.
#[tactic(auto, using(crate::proofs::digits::Ranges::register_rules))]
fn register_operand(field: Field, text: &[u8]) -> Result<i64, FaultKind>
    requires { the_is_register field ≡ true }
    ensures value { result ≡ registered_in text.now }
    ensures in_range { IfOk result (λ z. the_is_in field z ≡ true) }
{
    if !is_name(text) {
        return Err(FaultKind::OtherForm);
    }
    register_in(text).ok_or(FaultKind::NoRegister)
}

/// The value of a name that stands for a distance.
fn target_operand(field: Field, name: &[u8], scope: &Scope<'_, '_>) -> Result<i64, FaultKind>
    ensures value { result ≡ ranged_or FaultKind.Undefined field (distances_in scope.now name.now) }
    ensures in_range { IfOk result (λ z. the_is_in field z ≡ true) }
{
    ranged(field, distance(scope, name).ok_or(FaultKind::Undefined)?)
}

/// The value of a number's operand.
#[tactic(auto, using(crate::proofs::digits::CappedLemmas::ranged_rules))]
fn number_operand(field: Field, text: &[u8]) -> Result<i64, FaultKind>
    ensures value { result ≡ ranged_or FaultKind.OtherForm field (number_of_text text.now) }
    ensures in_range { IfOk result (λ z. the_is_in field z ≡ true) }
{
    written(field, number(text))
}

/// The value of a number, if there is one.
fn written(field: Field, number: Option<i64>) -> Result<i64, FaultKind>
    ensures value { result ≡ ranged_or FaultKind.OtherForm field number }
    ensures in_range { IfOk result (λ z. the_is_in field z ≡ true) }
{
    ranged(field, number.ok_or(FaultKind::OtherForm)?)
}

/// A number that must be in its range.
fn ranged(field: Field, value: i64) -> Result<i64, FaultKind>
    ensures value { result ≡ the_ranged field value }
    ensures in_range { IfOk result (λ z. the_is_in field z ≡ true) }
{
    if is_in(field, value) {
        Ok(value)
    } else {
        Err(FaultKind::OutOfRange)
    }
}

/// What follows a slot's mark, if it has one.
fn after_slot(slot: Slot, text: &[u8]) -> Option<&[u8]>
    ensures { option_map (λ rest. rest.now) result ≡ the_after_slot slot text.now }
{
    match slot {
        Slot::Last(_) => Some(text),
        Slot::UpTo(_, mark) => after_mark(mark, text),
    }
}

/// What follows a mark, if the mark comes next.
fn after_mark(mark: Mark, text: &[u8]) -> Option<&[u8]>
    ensures { option_map (λ rest. rest.now) result ≡ the_after_mark mark text.now }
{
    match text {
        [first, rest @ ..] => {
            if *first == character(mark) {
                Some(rest)
            } else {
                None
            }
        }
        [] => None,
    }
}

/// The bits of two parts of the operands, or the fault that counts.
fn plus(one: Result<u32, FaultKind>, other: Result<u32, FaultKind>) -> Result<u32, FaultKind>
    requires { IfOk one (λ m. IfOk other (λ n. m + n < 2 ^ 32)) }
    ensures { result ≡ both ◌+◌ one other }
{
    match (one, other) {
        (Ok(m), Ok(n)) => Ok(m + n),
        (Ok(_), Err(kind)) | (Err(kind), Ok(_)) => Err(kind),
        (Err(kind), Err(another)) => Err(earlier(kind, another)),
    }
}

/// The one of two faults of a line that counts.
fn earlier(one: FaultKind, other: FaultKind) -> FaultKind
    ensures { result ≡ the_earlier one other }
{
    if other.number() < one.number() {
        other
    } else {
        one
    }
}
