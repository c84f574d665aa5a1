//! The manner of a prover.
ghost use Rattle.std.specs.Prelude.{◌≡◌, Ok, codes};
ghost use Rattle.std.specs.Option.{option_map};
ghost use Rattle.serde_json.specs.View.{view};
ghost use Rattle.rd_base.specs.Results.{Gives};
ghost use Rattle.rd_base.specs.declared.script.Manner.TheVariants.{Late, Silent, Output, Noise, Tape};
ghost use Rattle.case_reader.specs.Scripts.{number_of_key, word_of_key, output_bytes_in, forge_in, tape_in, manner_in};

use crate::fault::CaseFault;
use crate::field::{RegisterChange, hex_bytes, register_change_of, text_at, word_at};
use crate::tape::tape_of;
use rd_base::{ClaimOutput, FirstSilentRound, Manner, PassCount};
use serde_json::Value;
use std::alloc::Global;

/// The manner of a value, if it is one that is known. An `Err` is `Memory`.
#[tactic(auto, unfolding(crate::specs::Scripts::manner_in))]
pub fn manner_of(alloc: Global, manner: &Value) -> Result<Option<Manner>, CaseFault>
    ensures { Gives CaseFault.Memory (λ known. known) result (Ok (manner_in (view manner.now))) }
{
    let Some(kind) = text_at(manner, "kind") else {
        return Ok(None);
    };
    match kind {
        "late" => Ok(late_of(manner)),
        "silent" => Ok(silent_of(manner)),
        "output" => output_of(alloc, manner),
        "forge" => Ok(forge_of(manner)),
        "noise" => Ok(noise_of(manner)),
        "tape" => taped_of(alloc, manner),
        _ => Ok(None),
    }
}

/// The key of the kind `late`.
#[tactic(auto, using(crate::proofs::RangeLemmas::range_rules))]
fn late_of(manner: &Value) -> Option<Manner>
    ensures { result ≡ option_map Late (number_of_key (codes "passes") 0 1000 (view manner.now)) }
{
    let passes = word_at(manner, "passes")?;
    Some(Manner::Late(PassCount::new(passes)?))
}

/// The key of the kind `silent`.
#[tactic(auto, using(crate::proofs::RangeLemmas::range_rules))]
fn silent_of(manner: &Value) -> Option<Manner>
    ensures { result ≡ option_map Silent (number_of_key (codes "from") 0 64 (view manner.now)) }
{
    let from = word_at(manner, "from")?;
    Some(Manner::Silent(FirstSilentRound::new(from)?))
}

/// The key of the kind `output`.
#[tactic(auto, unfolding(crate::specs::Scripts::output_bytes_in))]
fn output_of(alloc: Global, manner: &Value) -> Result<Option<Manner>, CaseFault>
    ensures { Gives CaseFault.Memory (λ known. known) result (Ok (option_map Output (output_bytes_in (view manner.now)))) }
{
    let Some(text) = text_at(manner, "bytes") else {
        return Ok(None);
    };
    match hex_bytes(alloc, text)? {
        Some(bytes) => Ok(ClaimOutput::new(bytes.into_vec()).map(Manner::Output)),
        None => Ok(None),
    }
}

/// The keys of the kind `forge`.
fn forge_of(manner: &Value) -> Option<Manner>
    ensures { result ≡ forge_in (view manner.now) }
{
    let RegisterChange { step, reg, value } = register_change_of(manner)?;
    Some(Manner::Forge { step, reg, value })
}

/// The key of the kind `noise`.
fn noise_of(manner: &Value) -> Option<Manner>
    ensures { result ≡ option_map Noise (word_of_key (codes "seed") (view manner.now)) }
{
    Some(Manner::Noise {
        seed: word_at(manner, "seed")?,
    })
}

/// The key of the kind `tape`.
fn taped_of(alloc: Global, manner: &Value) -> Result<Option<Manner>, CaseFault>
    ensures { Gives CaseFault.Memory (λ known. known) result (Ok (option_map Tape (tape_in (view manner.now)))) }
{
    Ok(tape_of(alloc, manner)?.map(Manner::Tape))
}
