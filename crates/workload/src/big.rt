//! The case of the large workload.
ghost use Rattle.std.specs.Prelude.{◌≡◌, Ok, IfOk, OnOk};
ghost use Rattle.serde_json.specs.View.{view};
ghost use Rattle.serde_json.specs.Written.{compact_text};
ghost use Rattle.case_reader.specs.Case.{case_at};
ghost use Rattle.workload.specs.Draws.{draw};
ghost use Rattle.workload.specs.Workload.{input_of, big_tree, big_data};

use crate::draws::Draws;
use crate::program::image;
use crate::provers::provers;
use rd_base::{Bytes, Memory};
use serde_json::{Value, json};
use std::alloc::{AllocError, Global};

/// The input's bytes, by the first 4,096 draws.
#[tactic(auto, unfolding(crate::specs::Workload::input_of))]
fn input(alloc: Global, draws: &mut Draws) -> Result<Vec<u8>, AllocError>
    ensures bytes { IfOk result (λ bytes. bytes.items ≡ input_of draws.old.last) }
    ensures after { OnOk result (draws.new.last ≡ draw draws.old.last 4096) }
{
    let mut bytes = Vec::with_capacity(alloc, 4_096)?;
    for _ in 0..4_096u32 {
        bytes.push((draws.draw() >> 24) as u8)?;
    }
    Ok(bytes)
}

/// The workload's tree.
#[tactic(auto, unfolding(crate::specs::Workload::big_tree))]
fn tree(alloc: Global, seed: u32) -> Result<Value, AllocError>
    ensures { IfOk result (λ tree. view tree ≡ big_tree seed) }
{
    let mut draws = Draws { last: seed };
    let input = input(alloc, &mut draws)?;
    let provers = provers(alloc, seed, &mut draws)?;
    let image = image(alloc)?;
    let input = hex::encode(alloc, input.as_slice())?;
    json!(in alloc; {
        "bound": 65_536u32,
        "format": "flat",
        "image": image,
        "input": input,
        "patience": 0u32,
        "provers": provers
    })
}

/// The text of the large workload's case for a seed.
///
/// It is the compact text of the workload's tree (`text`), and reading it as a case gives the workload's case
/// (`reads`).
pub fn big_case(alloc: Global, seed: u32) -> Result<Bytes, Memory>
    ensures text { IfOk result (λ text. text ≡ compact_text (big_tree seed)) }
    ensures reads { IfOk result (λ text. case_at text ≡ Ok (big_data seed)) }
{
    let tree = tree(alloc, seed)?;
    Ok(Bytes::new(tree.to_vec(alloc)?))
}
