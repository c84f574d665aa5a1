//! Changes of the parts of a proof.
use crate::run::{Run, state_at};
use open_proof::{Facts, HeldRegisters, facts_of};
use rd_base::{Digest32, InOpening, Opening, RegOpening, RegOpenings, Status};
use toy_rows::{Unanswered, number_of};

/// The digest with its last bit changed.
fn changed(digest: Digest32) -> Digest32 {
    let mut bytes = digest.0;
    bytes[31] ^= 1;
    Digest32(bytes)
}

/// Changes the last bit of a digest, at `changed`.
fn change_digest(digest: &mut Digest32, value: &str) -> Result<(), Unanswered> {
    if value != "changed" {
        return Err(Unanswered::NoRow);
    }
    *digest = changed(*digest);
    Ok(())
}

/// Changes a bit of the byte at a place.
fn change_byte(chunk: &mut [u8], place: &str) -> Result<(), Unanswered> {
    match chunk.get_mut(number_of(place)? as usize) {
        Some(byte) => {
            *byte ^= 1;
            Ok(())
        }
        None => Err(Unanswered::NoRow),
    }
}

/// Changes a bit of the sibling at a level.
fn change_sibling(siblings: &mut [Digest32], level: &str) -> Result<(), Unanswered> {
    match siblings.get_mut(number_of(level)? as usize) {
        Some(sibling) => {
            *sibling = changed(*sibling);
            Ok(())
        }
        None => Err(Unanswered::NoRow),
    }
}

/// What the plain proof of a step holds.
fn facts_at(run: &Run, step: &str) -> Result<Facts, Unanswered> {
    let state = state_at(run, number_of(step)?)?;
    Ok(facts_of(&state.proof))
}

/// A chunk of memory: `none`, or `fetch@STEP` or `data@STEP`, that of the plain proof of a step.
fn chunk_of(run: &Run, text: &str) -> Result<Option<Opening>, Unanswered> {
    match text.split_once('@') {
        Some(("fetch", step)) => Ok(facts_at(run, step)?.fetch),
        Some(("data", step)) => Ok(facts_at(run, step)?.operand),
        None if text == "none" => Ok(None),
        _ => Err(Unanswered::NoRow),
    }
}

/// A chunk of the input: `none`, or that of the plain proof of a step.
fn input_of(run: &Run, text: &str) -> Result<Option<InOpening>, Unanswered> {
    match text {
        "none" => Ok(None),
        step => Ok(facts_at(run, step)?.input),
    }
}

/// An opened register: the place of one that the plain proof opens, with `.value` or `.siblingLEVEL` behind it if that is changed.
fn register_of(opened: &[RegOpening], text: &str) -> Result<RegOpening, Unanswered> {
    let (place, change) = text.split_once('.').unwrap_or((text, "plain"));
    let Some(opening) = opened.get(number_of(place)? as usize) else {
        return Err(Unanswered::NoRow);
    };
    let mut opening = *opening;
    if let Some(level) = change.strip_prefix("sibling") {
        change_sibling(&mut opening.path.0, level)?;
    } else if change == "value" {
        opening.value ^= 1;
    } else if change != "plain" {
        return Err(Unanswered::NoRow);
    }
    Ok(opening)
}

/// At most three opened registers between commas, or `none`.
fn registers_of(opened: &[RegOpening], text: &str) -> Result<RegOpenings, Unanswered> {
    let mut registers = RegOpenings::new();
    if text == "none" {
        return Ok(registers);
    }
    for part in text.split(',') {
        if registers.as_slice().len() >= 3 {
            return Err(Unanswered::NoRow);
        }
        registers.push(register_of(opened, part)?);
    }
    Ok(registers)
}

/// Changes what is held of the registers: `x31` of all of them, and `registers`, their root, and `named` of opened ones.
fn change_registers(held: &mut HeldRegisters, name: &str, value: &str) -> Result<(), Unanswered> {
    match held {
        HeldRegisters::Whole(regs) => match name {
            "x31" => regs.set(31, number_of(value)?),
            _ => return Err(Unanswered::NoRow),
        },
        HeldRegisters::Opened(root, named) => match name {
            "registers" => change_digest(root, value)?,
            "named" => *named = registers_of(named.as_slice(), value)?,
            _ => return Err(Unanswered::NoRow),
        },
    }
    Ok(())
}

/// Changes the length or the root of the input, or what is held of the registers.
fn change_trees(facts: &mut Facts, name: &str, value: &str) -> Result<(), Unanswered> {
    let Some(tree) = &mut facts.input_tree else {
        return change_registers(&mut facts.regs, name, value);
    };
    match name {
        "input_len" => tree.len = number_of(value)?,
        "input_root" => change_digest(&mut tree.root, value)?,
        _ => return change_registers(&mut facts.regs, name, value),
    }
    Ok(())
}

/// Changes a control field, the root of memory, or what `change_trees` does.
fn change_fields(facts: &mut Facts, name: &str, value: &str) -> Result<(), Unanswered> {
    match name {
        "memory" => change_digest(&mut facts.mem, value)?,
        "pc" => facts.ctl.pc = number_of(value)?,
        "exited" => facts.ctl.status = Status::Exited(number_of(value)?),
        "out_len" => facts.ctl.out_len = u64::from(number_of(value)?),
        "chain" => change_digest(&mut facts.ctl.chain, value)?,
        _ => return change_trees(facts, name, value),
    }
    Ok(())
}

/// Changes a part of an opened chunk: the byte at a place, or the sibling at a level.
fn change_inside(
    chunk: &mut [u8],
    siblings: &mut [Digest32],
    part: &str,
    place: &str,
) -> Result<(), Unanswered> {
    match part {
        "byte" => change_byte(chunk, place),
        "sibling" => change_sibling(siblings, place),
        _ => Err(Unanswered::NoRow),
    }
}

/// Changes a part of a chunk of memory.
fn change_chunk(opened: &mut Option<Opening>, part: &str, place: &str) -> Result<(), Unanswered> {
    match opened {
        Some(opening) => change_inside(&mut opening.chunk, &mut opening.path.0, part, place),
        None => Err(Unanswered::NoRow),
    }
}

/// Changes a part of a chunk of the input.
fn change_input(opened: &mut Option<InOpening>, part: &str, place: &str) -> Result<(), Unanswered> {
    match opened {
        Some(opening) => change_inside(&mut opening.chunk, &mut opening.path.0, part, place),
        None => Err(Unanswered::NoRow),
    }
}

/// Changes which chunk is there, or what `change_fields` does.
fn change_part(run: &Run, facts: &mut Facts, name: &str, value: &str) -> Result<(), Unanswered> {
    match name {
        "fetch" => facts.fetch = chunk_of(run, value)?,
        "data" => facts.operand = chunk_of(run, value)?,
        "input" => facts.input = input_of(run, value)?,
        _ => return change_fields(facts, name, value),
    }
    Ok(())
}

/// Changes what a proof holds: `NAME=VALUE`, or `NAME.PART=PLACE` inside a chunk.
pub fn change(run: &Run, facts: &mut Facts, name: &str, value: &str) -> Result<(), Unanswered> {
    match name.split_once('.') {
        Some((chunk, part)) => match chunk {
            "fetch" => change_chunk(&mut facts.fetch, part, value),
            "data" => change_chunk(&mut facts.operand, part, value),
            "input" => change_input(&mut facts.input, part, value),
            _ => Err(Unanswered::NoRow),
        },
        None => change_part(run, facts, name, value),
    }
}
