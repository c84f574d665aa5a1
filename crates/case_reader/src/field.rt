//! The values of keys: of a case, with a fault that names the key (`text_of`, `number_of` and their like), and of the parts of a script,
//! with `None` for each fault (`text_at`, `word_at`, `byte_at`).
ghost use Rattle.std.specs.Prelude.{◌≤◌, map, Ok, IfOk, IfSome, ◌≡◌};
ghost use Rattle.std.specs.Option.{option_map};
ghost use Rattle.serde_json.specs.View.{view};
ghost use Rattle.rd_base.specs.Results.{Gives};
ghost use Rattle.rd_base.specs.declared.tamper.Tamper.TheVariants.{Register};
ghost use Rattle.rd_base.specs.declared.script.Manner.TheVariants.{Forge};
ghost use Rattle.case_reader.specs.Fields.{field, text_field, bytes_field, number_of, number_field, optional_number_field, array_field, hex_of};
ghost use Rattle.case_reader.specs.Scripts.{text_of_key, number_of_key, word_of_key, register_in, forge_in};

use crate::fault::{CaseFault, Key};
use hex::FromHexError;
use rd_base::{Bytes, RegisterNumber};
use serde_json::Value;
use std::alloc::Global;

/// At which step a register gets which value.
#[derive(Clone, Copy, Debug)]
pub struct RegisterChange {
    /// The step's number.
    pub step: u32,
    /// The register.
    pub reg: RegisterNumber,
    /// Its value.
    pub value: u32,
}

/// The text of a key. `Missing` comes if the key isn't there, and `WrongType` if its value is no string.
#[tactic(auto, unfolding(crate::specs::Fields::text_field))]
pub fn text_of<'v>(tree: &'v Value, key: Key) -> Result<&'v str, CaseFault>
    ensures { Gives CaseFault.Memory (λ text. text.now) result (text_field key (view tree.now)) }
{
    let value = value_of(tree, key)?;
    value.as_str().ok_or(CaseFault::WrongType(key))
}

/// The bytes of a key whose text is hexadecimal digits. `Missing` and `WrongType` come as in `text_of`, `BadHex` if the text isn't such
/// digits in pairs, and `Memory` if memory ran out.
#[tactic(auto, unfolding(crate::specs::Fields::bytes_field))]
pub fn bytes_of(alloc: Global, tree: &Value, key: Key) -> Result<Bytes, CaseFault>
    ensures { Gives CaseFault.Memory (λ bytes. bytes) result (bytes_field key (view tree.now)) }
{
    let text = text_of(tree, key)?;
    hex_bytes(alloc, text)?.ok_or(CaseFault::BadHex(key))
}

/// The bytes of a text of hexadecimal digits in pairs; `None` if it isn't one. An `Err` is `Memory`.
pub fn hex_bytes(alloc: Global, text: &str) -> Result<Option<Bytes>, CaseFault>
    ensures { Gives CaseFault.Memory (λ bytes. bytes) result (Ok (hex_of text.now)) }
{
    match hex::decode(alloc, text) {
        Ok(bytes) => Ok(Some(Bytes::new(bytes))),
        Err(FromHexError::OutOfMemory) => Err(CaseFault::Memory),
        Err(_) => Ok(None),
    }
}

/// The number of a key, from `low` to `high`. `Missing` comes if the key isn't there, `WrongType` if its value isn't an unsigned number of
/// 64 bits, and `OutOfRange` if the number is outside the range.
#[tactic(auto, unfolding(crate::specs::Fields::number_field))]
pub fn number_of(tree: &Value, key: Key, low: u64, high: u64) -> Result<u64, CaseFault>
    ensures value { Gives CaseFault.Memory (λ n. n) result (number_field key low high (view tree.now)) }
    ensures from { IfOk result (λ n. low ≤ n) }
    ensures to { IfOk result (λ n. n ≤ high) }
{
    let value = value_of(tree, key)?;
    number_in_range(value, key, low, high)
}

/// The number of a key that may be missing, from `low` to `high`. `WrongType` and `OutOfRange` come as in `number_of`.
#[tactic(auto, unfolding(crate::specs::Fields::optional_number_field))]
pub fn optional_number_of(
    tree: &Value,
    key: Key,
    low: u64,
    high: u64,
) -> Result<Option<u64>, CaseFault>
    ensures value { Gives CaseFault.Memory (λ number. number) result (optional_number_field key low high (view tree.now)) }
    ensures from { IfOk result (λ number. IfSome number (λ n. low ≤ n)) }
    ensures to { IfOk result (λ number. IfSome number (λ n. n ≤ high)) }
{
    let Some(value) = tree.get(key.name()) else {
        return Ok(None);
    };
    Ok(Some(number_in_range(value, key, low, high)?))
}

/// The number that a key's value is, from `low` to `high`.
#[tactic(auto, unfolding(crate::specs::Fields::number_of))]
fn number_in_range(value: &Value, key: Key, low: u64, high: u64) -> Result<u64, CaseFault>
    ensures value { Gives CaseFault.Memory (λ n. n) result (number_of key low high (view «value».now)) }
    ensures from { IfOk result (λ n. low ≤ n) }
    ensures to { IfOk result (λ n. n ≤ high) }
{
    let number = value.as_u64().ok_or(CaseFault::WrongType(key))?;
    if low <= number && number <= high {
        Ok(number)
    } else {
        Err(CaseFault::OutOfRange(key))
    }
}

/// The items of a key whose value is an array. `Missing` comes if the key isn't there, and `WrongType` if its value is no array.
#[tactic(auto, unfolding(crate::specs::Fields::array_field))]
pub fn array_of(tree: &Value, key: Key) -> Result<&[Value], CaseFault>
    ensures { Gives CaseFault.Memory (λ items. map view items.now) result (array_field key (view tree.now)) }
{
    let value = value_of(tree, key)?;
    match value.as_array() {
        Some(items) => Ok(items.as_slice()),
        None => Err(CaseFault::WrongType(key)),
    }
}

/// The value of a key. `Missing` comes if the tree isn't an object with this key.
fn value_of<'v>(tree: &'v Value, key: Key) -> Result<&'v Value, CaseFault>
    ensures { Gives CaseFault.Memory (λ v. view v.now) result (field key (view tree.now)) }
{
    tree.get(key.name()).ok_or(CaseFault::Missing(key))
}

/// The text of a key, if the tree is an object with this key and the value is a string.
pub fn text_at<'v>(tree: &'v Value, key: &str) -> Option<&'v str>
    ensures { option_map (λ text. text.now) result ≡ text_of_key key.now (view tree.now) }
{
    tree.get(key).and_then(Value::as_str)
}

/// The change of the keys `step`, `reg` and `value`, of a tamper or of a manner.
#[tactic(auto, using(crate::proofs::RangeLemmas::range_rules), unfolding(crate::specs::Scripts::register_in, crate::specs::Scripts::forge_in))]
pub fn register_change_of(tree: &Value) -> Option<RegisterChange>
    ensures tamper { option_map (λ c. Register c.step c.reg c.value) result ≡ register_in (view tree.now) }
    ensures manner { option_map (λ c. Forge c.step c.reg c.value) result ≡ forge_in (view tree.now) }
{
    let step = word_at(tree, "step")?;
    let number = byte_at(tree, "reg")?;
    let reg = RegisterNumber::new(number)?;
    let value = word_at(tree, "value")?;
    Some(RegisterChange { step, reg, value })
}

/// The number of a key, below 2^32.
pub fn word_at(tree: &Value, key: &str) -> Option<u32>
    ensures { result ≡ word_of_key key.now (view tree.now) }
{
    Some(number_at(tree, key, u64::from(u32::MAX))? as u32)
}

/// The number of a key, below 256.
pub fn byte_at(tree: &Value, key: &str) -> Option<u8>
    ensures { result ≡ number_of_key key.now 0 255 (view tree.now) }
{
    Some(number_at(tree, key, u64::from(u8::MAX))? as u8)
}

/// The number of a key, if the tree is an object with this key and the value a whole number of at most this size.
#[tactic(auto, unfolding(crate::specs::Scripts::number_of_key))]
fn number_at(tree: &Value, key: &str, most: u64) -> Option<u64>
    ensures value { result ≡ number_of_key key.now 0 most (view tree.now) }
    ensures to { IfSome result (λ n. n ≤ most) }
{
    let number = tree.get(key)?.as_u64()?;
    if number <= most { Some(number) } else { None }
}
