//! What proofs open, in words.
use digest_core::{Digester, Sha256, leaf_text, register_text, registers_text, storage_text};
use merkle_nodes::climb;
use out_chain::parts_root;
use rd_base::{Digest32, OpenText, Opening, Proof, RegOpenings, StepProof3};
use std::alloc::Global;
use toy_machine::first_eight;
use toy_rows::{Unanswered, number, parts_of};

/// The root of the state whose parts a proof has.
pub fn root_of(proof: &Proof) -> Digest32 {
    match proof {
        Proof::V1(p) => {
            let regs = Sha256.digest(registers_text(&p.regs).as_slice());
            parts_root(Sha256, p.mem, regs, &p.ctl)
        }
        Proof::V2(p) => parts_root(Sha256, p.mem, p.regs, &p.ctl),
        Proof::V3(p) => {
            let string = storage_text(&p.mem, p.input_len, &p.input_root);
            parts_root(Sha256, Sha256.digest(string.as_slice()), p.regs, &p.ctl)
        }
    }
}

/// Whether a leaf climbs by its path to a root, as what stands before its name.
fn climbs(index: u32, leaf: &OpenText, siblings: &[Digest32], root: Digest32) -> &'static str {
    if climb(Sha256, index, leaf, siblings) == root {
        ""
    } else {
        "another "
    }
}

/// Adds the first word of a chunk that is opened, which has this index.
fn add_chunk(
    alloc: Global,
    text: &mut String,
    name: &str,
    opened: &Option<Opening>,
    index: u32,
    root: Digest32,
) -> Result<(), Unanswered> {
    if let Some(opened) = opened {
        let is = climbs(index, &leaf_text(&opened.chunk), &opened.path.0, root);
        let [first, second, third, fourth, ..] = opened.chunk;
        let word = u32::from_le_bytes([first, second, third, fourth]);
        text.push_str(format!(in alloc; ", {is}{name} 0x{word:08x}")?.as_str())?;
    }
    Ok(())
}

/// Adds the chunk of the word, from 0x10000 on, and that of its operand, from 0x20000 on.
fn add_chunks(
    alloc: Global,
    text: &mut String,
    fetch: &Option<Opening>,
    operand: &Option<Opening>,
    mem: Digest32,
) -> Result<(), Unanswered> {
    add_chunk(alloc, text, "word", fetch, 0x800, mem)?;
    add_chunk(alloc, text, "operand", operand, 0x1000, mem)
}

/// Adds what the opened registers hold, which should have these numbers.
fn add_registers(
    alloc: Global,
    text: &mut String,
    root: Digest32,
    named: &RegOpenings,
    numbers: &[&str],
) -> Result<(), Unanswered> {
    for (k, opened) in named.as_slice().iter().enumerate() {
        let reg = number(numbers, k)?;
        let is = climbs(reg, &register_text(opened.value), &opened.path.0, root);
        text.push_str(format!(in alloc; ", {is}x{reg} 0x{:x}", opened.value)?.as_str())?;
    }
    Ok(())
}

/// Adds the first chunk of the input, if it is opened.
fn add_input(alloc: Global, text: &mut String, proof: &StepProof3) -> Result<(), Unanswered> {
    if let Some(opened) = &proof.input {
        let is = climbs(
            0,
            &leaf_text(&opened.chunk),
            &opened.path.0,
            proof.input_root,
        );
        let bytes = hex::encode(alloc, opened.chunk.as_slice())?;
        text.push_str(format!(in alloc; ", {is}input of {}: {bytes}", proof.input_len)?.as_str())?;
    }
    Ok(())
}

/// The root of the state whose parts a proof has, and what it opens: chunks of memory, the registers, which should have these numbers, and
/// the input.
pub fn said(alloc: Global, proof: &Proof, numbers: &[&str]) -> Result<String, Unanswered> {
    let mut text = format!(in alloc; "proof of {:016x}", first_eight(root_of(proof)))?;
    match proof {
        Proof::V1(p) => add_chunks(alloc, &mut text, &p.fetch, &p.operand, p.mem)?,
        Proof::V2(p) => {
            add_chunks(alloc, &mut text, &p.fetch, &p.operand, p.mem)?;
            add_registers(alloc, &mut text, p.regs, &p.named, numbers)?;
        }
        Proof::V3(p) => {
            add_chunks(alloc, &mut text, &p.fetch, &p.operand, p.mem)?;
            add_registers(alloc, &mut text, p.regs, &p.named, numbers)?;
            add_input(alloc, &mut text, p)?;
        }
    }
    Ok(text)
}

/// What opened registers hold.
fn values(alloc: Global, named: &RegOpenings) -> Result<String, Unanswered> {
    let mut text = String::from_str(alloc, "registers")?;
    for opened in named.as_slice() {
        text.push_str(format!(in alloc; " {}", opened.value)?.as_str())?;
    }
    Ok(text)
}

/// What x5 and x6 hold if a proof has all registers, and else what the opened ones hold.
fn held(alloc: Global, proof: &Proof) -> Result<String, Unanswered> {
    match proof {
        Proof::V1(p) => {
            let (x5, x6) = (p.regs.get(5), p.regs.get(6));
            Ok(format!(in alloc; "x5 {x5}, x6 {x6}")?)
        }
        Proof::V2(p) => values(alloc, &p.named),
        Proof::V3(p) => values(alloc, &p.named),
    }
}

/// What a proof opens, if the text of its question says behind the step which registers that should be, and else what its registers hold.
pub fn answered(alloc: Global, proof: &Proof, text: Option<&str>) -> Result<String, Unanswered> {
    match text {
        Some(text) => {
            let parts = parts_of(alloc, text, ',')?;
            said(alloc, proof, parts.as_slice().get(2..).unwrap_or(&[]))
        }
        None => held(alloc, proof),
    }
}
