//! Rows of what plain proofs open.
use crate::run::{Run, State, state_at};
use crate::words::{index_of, numbers_of};
use digest_core::{Sha256, leaf_text, register_text};
use merkle_nodes::climb;
use open_proof::{Facts, HeldRegisters, facts_of};
use proof_wire::encode;
use rd_base::{Answer, Boxed, Digest32, OpenText, Opening, RegOpening};
use rv_decode::decode;
use rv_step::named_by;
use std::alloc::Global;
use toy_rows::{Unanswered, add_part, number, word};

/// Whether a leaf climbs by its path to a root.
fn climbs(index: u32, leaf: &OpenText, siblings: &[Digest32], root: Digest32) -> bool {
    climb(Sha256, index, leaf, siblings) == root
}

/// Whether a chunk is there with this index, and climbs to the root of memory; or, without an index, isn't there.
fn opens(chunk: &Option<Opening>, index: Option<u32>, mem: Digest32) -> bool {
    match (chunk, index) {
        (Some(opening), Some(index)) => {
            climbs(index, &leaf_text(&opening.chunk), &opening.path.0, mem)
        }
        (None, None) => true,
        _ => false,
    }
}

/// Whether a proof opens these chunks: `FETCHED`, or `FETCHED+DATA`.
fn chunks_open(facts: &Facts, wanted: &str) -> Result<bool, Unanswered> {
    let (fetch, data) = wanted.split_once('+').unwrap_or((wanted, "none"));
    let is_fetched = opens(&facts.fetch, index_of(fetch)?, facts.mem);
    let is_there = opens(&facts.operand, index_of(data)?, facts.mem);
    Ok(is_fetched && is_there)
}

/// Whether opened registers climb to a root, by their numbers.
fn each_opens(named: &[u32], opened: &[RegOpening], root: Digest32) -> bool {
    if named.len() != opened.len() {
        return false;
    }
    for (reg, opening) in named.iter().zip(opened.iter()) {
        if !climbs(*reg, &register_text(opening.value), &opening.path.0, root) {
            return false;
        }
    }
    true
}

/// Whether a proof opens these registers, and no others.
fn registers_open(alloc: Global, facts: &Facts, wanted: &str) -> Result<bool, Unanswered> {
    let named = numbers_of(alloc, wanted)?;
    match &facts.regs {
        HeldRegisters::Whole(_regs) => Ok(false),
        HeldRegisters::Opened(root, opened) => {
            Ok(each_opens(named.as_slice(), opened.as_slice(), *root))
        }
    }
}

/// Whether a proof opens the chunk of the input with this index, or none.
fn input_opens(facts: &Facts, index: Option<u32>) -> bool {
    match (&facts.input_tree, &facts.input, index) {
        (Some(tree), Some(opening), Some(index)) => climbs(
            index,
            &leaf_text(&opening.chunk),
            &opening.path.0,
            tree.root,
        ),
        (Some(_tree), None, None) => true,
        _ => false,
    }
}

/// Whether the plain proof of a state opens this.
fn state_opens(alloc: Global, state: &State, kind: &str, wanted: &str) -> Result<bool, Unanswered> {
    let facts = facts_of(&state.proof);
    match kind {
        "chunks" => chunks_open(&facts, wanted),
        "registers" => registers_open(alloc, &facts, wanted),
        "input" => Ok(input_opens(&facts, index_of(wanted)?)),
        _ => Err(Unanswered::NoRow),
    }
}

/// `opens chunks|registers|input WANTED ..`: for how many states, from the first on, the plain proof opens what is wanted of it.
pub fn opened(alloc: Global, run: &Run, words: &[&str]) -> Result<String, Unanswered> {
    let kind = word(words, 1)?;
    let wanted = words.get(2..).unwrap_or(&[]);
    let mut count = 0u32;
    for (state, text) in run.states.iter().zip(wanted.iter()) {
        if state_opens(alloc, state, kind, text)? {
            count = count.saturating_add(1);
        }
    }
    Ok(format!(in alloc; "{count} of {}", wanted.len())?)
}

/// `length STEP`: how many bytes the wire form of the plain proof has.
pub fn length(alloc: Global, run: &Run, words: &[&str]) -> Result<String, Unanswered> {
    let state = state_at(run, number(words, 1)?)?;
    let answer = Answer::Step(Boxed::new(Box::new(alloc, state.proof.copy())?));
    let bytes = encode(alloc, &answer)?;
    Ok(format!(in alloc; "{} bytes", bytes.len())?)
}

/// `names WORD`: the registers that the instruction of a word names, in their order.
pub fn names(alloc: Global, words: &[&str]) -> Result<String, Unanswered> {
    let named = named_by(&decode(number(words, 1)?));
    let mut text = String::new(alloc);
    for reg in named.as_slice() {
        add_part(&mut text, " ", format!(in alloc; "x{reg}")?.as_str())?;
    }
    if text.is_empty() {
        text.push_str("none")?;
    }
    Ok(text)
}
