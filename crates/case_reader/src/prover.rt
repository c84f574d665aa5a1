//! The script of a prover: its tamper and its manner.
ghost use Rattle.std.specs.Prelude.{◌≡◌, ◌≤◌, length, map, IfOk, Ok, codes};
ghost use Rattle.serde_json.specs.Find.{get};
ghost use Rattle.serde_json.specs.View.{view};
ghost use Rattle.rd_base.specs.Results.{Gives};
ghost use Rattle.case_reader.specs.Scripts.{tamper_or_untouched, manner_or_plain, script_in, flip_in, register_in, early_in, tamper_in};
ghost use Rattle.case_reader.specs.Provers.{scripts_in};

use crate::fault::CaseFault;
use crate::field::{RegisterChange, byte_at, register_change_of, text_at, word_at};
use crate::manner::manner_of;
use rd_base::{Listed, Manner, Script, Tamper};
use serde_json::Value;
use std::alloc::Global;

/// The scripts of provers, numbered from 1, of which there are at most 16. `BadProver` comes with the number of the first that isn't known,
/// and `Memory` if memory ran out.
pub fn scripts_of(alloc: Global, provers: &[Value]) -> Result<Listed<Script>, CaseFault>
    requires { length provers.now ≤ 16 }
    ensures value { Gives CaseFault.Memory (λ scripts. scripts) result (scripts_in 1 (map view provers.now)) }
    ensures count { IfOk result (λ scripts. length scripts ≡ length provers.now) }
{
    let mut scripts = Vec::new(alloc);
    'provers: for (i, prover) in provers.iter().enumerate() {
        let Some(script) = script_of(alloc, prover)? else {
            return Err(CaseFault::BadProver(i as u32 + 1));
        };
        scripts.push(script)?;
    }
    Ok(Listed::new(scripts))
}

#[tactic(auto, unfolding(crate::specs::Scripts::script_in))]
fn script_of(alloc: Global, prover: &Value) -> Result<Option<Script>, CaseFault>
    ensures { Gives CaseFault.Memory (λ known. known) result (Ok (script_in (view prover.now))) }
{
    if !prover.is_object() {
        return Ok(None);
    }
    let Some(tamper) = tamper_or_untouched(prover) else {
        return Ok(None);
    };
    match manner_or_plain(alloc, prover)? {
        Some(manner) => Ok(Some(Script { tamper, manner })),
        None => Ok(None),
    }
}

/// The tamper of a prover, if it is known or there is none.
fn tamper_or_untouched(prover: &Value) -> Option<Tamper>
    ensures { result ≡ tamper_or_untouched (get (codes "tamper") (view prover.now)) }
{
    match prover.get("tamper") {
        Some(tamper) => tamper_of(tamper),
        None => Some(Tamper::Untouched),
    }
}

/// The tamper of a value, if it is one that is known.
#[tactic(auto, unfolding(crate::specs::Scripts::tamper_in))]
fn tamper_of(tamper: &Value) -> Option<Tamper>
    ensures { result ≡ tamper_in (view tamper.now) }
{
    match text_at(tamper, "kind")? {
        "flip" => flip_of(tamper),
        "reg" => register_of(tamper),
        "early" => early_of(tamper),
        _ => None,
    }
}

/// The keys of the kind `flip`.
#[tactic(auto, unfolding(crate::specs::Scripts::flip_in))]
fn flip_of(tamper: &Value) -> Option<Tamper>
    ensures { result ≡ flip_in (view tamper.now) }
{
    Some(Tamper::Flip {
        step: word_at(tamper, "step")?,
        addr: word_at(tamper, "addr")?,
        mask: byte_at(tamper, "mask")?,
    })
}

/// The keys of the kind `reg`.
fn register_of(tamper: &Value) -> Option<Tamper>
    ensures { result ≡ register_in (view tamper.now) }
{
    let RegisterChange { step, reg, value } = register_change_of(tamper)?;
    Some(Tamper::Register { step, reg, value })
}

/// The keys of the kind `early`.
#[tactic(auto, unfolding(crate::specs::Scripts::early_in))]
fn early_of(tamper: &Value) -> Option<Tamper>
    ensures { result ≡ early_in (view tamper.now) }
{
    Some(Tamper::Early {
        steps: word_at(tamper, "steps")?,
    })
}

/// The manner of a prover, if it is known or there is none.
fn manner_or_plain(alloc: Global, prover: &Value) -> Result<Option<Manner>, CaseFault>
    ensures { Gives CaseFault.Memory (λ known. known) result (Ok (manner_or_plain (get (codes "manner") (view prover.now)))) }
{
    match prover.get("manner") {
        Some(manner) => manner_of(alloc, manner),
        None => Ok(Some(Manner::Plain)),
    }
}
