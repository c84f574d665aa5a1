//! A case from its bytes, key by key.
ghost use Rattle.std.specs.Prelude.{◌≡◌, ◌≤◌, length, map, IfOk};
ghost use Rattle.std.specs.Option.{ok_or};
ghost use Rattle.serde_json.specs.View.{view};
ghost use Rattle.rd_base.specs.Results.{Gives};
ghost use Rattle.case_reader.specs.Fields.{has_tasks, text_field, format_in, image_in, input_in, version_in, fan_in, provers_in};
ghost use Rattle.case_reader.specs.Case.{case_of, case_at, tree_of, data_of};
ghost use Rattle.case_reader.specs.declared.fault.CaseFault.TheVariants.{NotJson};

use crate::case::{Case, Format};
use crate::fault::{CaseFault, Key};
use crate::field::{array_of, bytes_of, number_of, optional_number_of, text_of};
use crate::prover::scripts_of;
use rd_base::{
    Bytes, MAX_BOUND, MAX_FAN, MAX_INPUT_BYTES, MAX_PATIENCE, MAX_PROVERS, MAX_STAKE, MAX_VERSION,
    MIN_FAN, MIN_VERSION,
};
use serde_json::Value;
use std::alloc::Global;

/// Reads a case.
///
/// What comes back is the case that the bytes hold. A fault is the first rule that is broken: the bytes are a JSON
/// text (`NotJson`) that is an object (`NotObject`) without the key `tasks` (`OutOfRange`); then of each key in its order that it is
/// there (`Missing`; `version`, `fan` and `stake` may be missing), has its type (`WrongType`), its hexadecimal digits (`BadHex`; the
/// image of an assembly text has none) and its range (`OutOfRange`); and last that each prover is known (`BadProver`, by its number).
/// `Memory` comes if memory ran out.
#[tactic(auto, unfolding(crate::specs::Case::case_at))]
pub fn read_case(alloc: Global, bytes: &[u8]) -> Result<Case, CaseFault>
    ensures { Gives CaseFault.Memory data_of result (case_at bytes.now) }
{
    let tree = tree_of_bytes(alloc, bytes)?;
    case_of_tree(alloc, &tree)
}

/// The JSON tree of bytes. `NotJson` comes if there is none, and `Memory` if memory ran out.
pub fn tree_of_bytes(alloc: Global, bytes: &[u8]) -> Result<Value, CaseFault>
    ensures { Gives CaseFault.Memory view result (ok_or (tree_of bytes.now) NotJson) }
{
    match Value::from_slice(alloc, bytes) {
        Ok(tree) => Ok(tree),
        Err(error) => {
            if error.is_memory() {
                Err(CaseFault::Memory)
            } else {
                Err(CaseFault::NotJson)
            }
        }
    }
}

/// The case of a tree. A fault is the first rule that the tree breaks, as in `read_case`, or `Memory`.
#[tactic(auto, unfolding(crate::specs::Case::case_of))]
pub fn case_of_tree(alloc: Global, tree: &Value) -> Result<Case, CaseFault>
    ensures { Gives CaseFault.Memory data_of result (case_of (view tree.now)) }
{
    if !tree.is_object() {
        return Err(CaseFault::NotObject);
    }
    if has_tasks(tree) {
        return Err(CaseFault::OutOfRange(Key::Tasks));
    }
    let format = format_of(tree)?;
    let image = image_of(alloc, tree, format)?;
    let input = input_of(alloc, tree)?;
    let bound = number_of(tree, Key::Bound, 1, MAX_BOUND)?;
    let patience = number_of(tree, Key::Patience, 0, MAX_PATIENCE)? as u32;
    let version = version_of(tree)?;
    let fan = fan_of(tree)?;
    let stake = optional_number_of(tree, Key::Stake, 0, MAX_STAKE)?;
    let provers = provers_of(tree)?;
    let provers = scripts_of(alloc, provers)?;
    Ok(Case {
        image,
        format,
        input,
        bound,
        patience,
        version,
        fan,
        stake,
        provers,
    })
}

/// Whether the tree is an object with the key `tasks`.
pub fn has_tasks(tree: &Value) -> bool
    ensures { result ≡ has_tasks (view tree.now) }
{
    tree.get(Key::Tasks.name()).is_some()
}

#[tactic(auto, unfolding(crate::specs::Fields::format_in))]
fn format_of(tree: &Value) -> Result<Format, CaseFault>
    ensures { Gives CaseFault.Memory (λ format. format) result (format_in (view tree.now)) }
{
    match text_of(tree, Key::Format)? {
        "flat" => Ok(Format::Flat),
        "elf" => Ok(Format::Elf),
        "asm" => Ok(Format::Asm),
        _ => Err(CaseFault::OutOfRange(Key::Format)),
    }
}

#[tactic(auto, unfolding(crate::specs::Fields::image_in))]
fn image_of(alloc: Global, tree: &Value, format: Format) -> Result<Bytes, CaseFault>
    ensures { Gives CaseFault.Memory (λ image. image) result (image_in format (view tree.now)) }
{
    match format {
        Format::Asm => text_bytes_of(alloc, tree, Key::Image),
        Format::Flat | Format::Elf => bytes_of(alloc, tree, Key::Image),
    }
}

/// The bytes of a key's text.
fn text_bytes_of(alloc: Global, tree: &Value, key: Key) -> Result<Bytes, CaseFault>
    ensures { Gives CaseFault.Memory (λ bytes. bytes) result (text_field key (view tree.now)) }
{
    let text = text_of(tree, key)?;
    Ok(Bytes::new(Vec::from_slice(alloc, text.as_bytes())?))
}

#[tactic(auto, unfolding(crate::specs::Fields::input_in))]
fn input_of(alloc: Global, tree: &Value) -> Result<Bytes, CaseFault>
    ensures value { Gives CaseFault.Memory (λ input. input) result (input_in (view tree.now)) }
    ensures short { IfOk result (λ input. length input ≤ MAX_INPUT_BYTES) }
{
    let input = bytes_of(alloc, tree, Key::Input)?;
    if input.len() <= MAX_INPUT_BYTES {
        Ok(input)
    } else {
        Err(CaseFault::OutOfRange(Key::Input))
    }
}

#[tactic(auto, unfolding(crate::specs::Fields::version_in))]
fn version_of(tree: &Value) -> Result<u32, CaseFault>
    ensures value { Gives CaseFault.Memory (λ version. version) result (version_in (view tree.now)) }
    ensures first { IfOk result (λ version. 1 ≤ version) }
    ensures last { IfOk result (λ version. version ≤ 3) }
{
    match optional_number_of(
        tree,
        Key::Version,
        u64::from(MIN_VERSION),
        u64::from(MAX_VERSION),
    )? {
        Some(version) => Ok(version as u32),
        None => Ok(MIN_VERSION),
    }
}

#[tactic(auto, unfolding(crate::specs::Fields::fan_in))]
fn fan_of(tree: &Value) -> Result<u32, CaseFault>
    ensures value { Gives CaseFault.Memory (λ fan. fan) result (fan_in (view tree.now)) }
    ensures parted { IfOk result (λ fan. 2 ≤ fan) }
    ensures few { IfOk result (λ fan. fan ≤ 16) }
{
    match optional_number_of(tree, Key::Fan, u64::from(MIN_FAN), u64::from(MAX_FAN))? {
        Some(fan) => Ok(fan as u32),
        None => Ok(MIN_FAN),
    }
}

#[tactic(auto, unfolding(crate::specs::Fields::provers_in))]
fn provers_of(tree: &Value) -> Result<&[Value], CaseFault>
    ensures value { Gives CaseFault.Memory (λ provers. map view provers.now) result (provers_in (view tree.now)) }
    ensures some { IfOk result (λ provers. 1 ≤ length provers.now) }
    ensures few { IfOk result (λ provers. length provers.now ≤ MAX_PROVERS) }
{
    let provers = array_of(tree, Key::Provers)?;
    if 1 <= provers.len() && provers.len() <= MAX_PROVERS {
        Ok(provers)
    } else {
        Err(CaseFault::OutOfRange(Key::Provers))
    }
}
