//! The provers of the large workload.
ghost use Rattle.std.specs.Prelude.{◌≡◌, ◌<◌, map, IfOk, if◌then◌else◌};
ghost use Rattle.serde_json.specs.Data.{object, no_members};
ghost use Rattle.serde_json.specs.View.{view};
ghost use Rattle.workload.specs.Draws.{draw, first_values};
ghost use Rattle.workload.specs.Workload.{prover_tree, tampering, step_of, value_of};

use crate::draws::Draws;
use serde_json::{Value, json};
use std::alloc::{AllocError, Global};

/// The tree of a prover whose register `x10` is tampered with.
fn tampering_prover(alloc: Global, step: u32, value: u32) -> Result<Value, AllocError>
    ensures { IfOk result (λ v. view v ≡ tampering step value) }
{
    json!(in alloc; {"tamper": {"kind": "reg", "reg": 10u32, "step": step, "value": value}})
}

/// The tree of the prover at a place, by its two draws.
fn prover(
    alloc: Global,
    is_truthful: bool,
    place: u32,
    first: u32,
    second: u32,
) -> Result<Value, AllocError>
    requires { place < 8 }
    ensures { IfOk result (λ v. view v ≡
        (if is_truthful then object no_members else tampering (step_of place first) (value_of second))) }
{
    if is_truthful {
        json!(in alloc; {})
    } else {
        tampering_prover(
            alloc,
            4_096 * place + 8 + first % 4_088,
            0x8000_0000 + (second >> 16),
        )
    }
}

/// The trees of the provers, after the draws of the input.
pub fn provers(alloc: Global, seed: u32, draws: &mut Draws) -> Result<Vec<Value>, AllocError>
    requires { draws.old.last ≡ draw seed 4096 }
    ensures { IfOk result (λ provers. map view provers.items ≡ first_values 8 (prover_tree seed)) }
{
    let mut provers = Vec::with_capacity(alloc, 8)?;
    for place in 0..8u32 {
        let first = draws.draw();
        let second = draws.draw();
        provers.push(prover(alloc, place == seed % 8, place, first, second)?)?;
    }
    Ok(provers)
}
