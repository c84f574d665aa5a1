//! Rows of true proofs and claims.
use crate::opened::{root_of, said};
use crate::programs::{Program, started};
use crate::said::claim;
use digest_core::Sha256;
use open_proof::{make_claim, make_proof};
use proof_wire::encode;
use rd_base::{Answer, Boxed, Claim, Digest32, Proof};
use state_commit::Committed;
use std::alloc::Global;
use std::thread::Threads;
use toy_rows::{Unanswered, number, word};

/// The program with its trees after this many steps.
fn program_after<R: Threads + Sync>(
    rt: &R,
    alloc: Global,
    program: &Program,
    steps: u32,
) -> Result<Committed<Sha256>, Unanswered> {
    let machine = started(alloc, program)?;
    let mut committed = Committed::new(rt, alloc, Sha256, machine)?;
    for _ in 0..steps {
        committed = committed.step()?;
    }
    Ok(committed)
}

/// The true claim of a machine with few bytes of output.
fn claim_made(alloc: Global, committed: &Committed<Sha256>) -> Result<Claim, Unanswered> {
    if committed.machine().output.len() > 255 {
        return Err(Unanswered::NoRow);
    }
    Ok(make_claim(alloc, committed)?)
}

/// `wire STEP PLACE`: of the wire form of the step's true proof the first byte, the length, and the two bytes at a place.
fn wire(alloc: Global, proof: Proof, words: &[&str]) -> Result<String, Unanswered> {
    let place = number(words, 2)? as usize;
    let wire = encode(alloc, &Answer::Step(Boxed::new(Box::new(alloc, proof)?)))?;
    let bytes = wire.as_slice();
    match (bytes.first(), bytes.get(place), bytes.get(place + 1)) {
        (Some(form), Some(flags), Some(next)) => {
            Ok(format!(in alloc; "{form}, {} bytes, {flags} {next}", bytes.len())?)
        }
        _ => Err(Unanswered::NoRow),
    }
}

/// `proof STEP REGISTER ..`: the step's true proof, if it is of the state before the step, and what it opens.
fn from_root(
    alloc: Global,
    proof: &Proof,
    root: Digest32,
    words: &[&str],
) -> Result<String, Unanswered> {
    if root_of(proof) != root {
        return Ok(String::from_str(alloc, "proof of another state")?);
    }
    said(alloc, proof, words.get(2..).unwrap_or(&[]))
}

/// `wire STEP PLACE`, `proof STEP REGISTER ..`, or `claim STEPS`: the true claim of the program after this many steps.
pub fn after<R: Threads + Sync>(
    rt: &R,
    alloc: Global,
    program: &Program,
    words: &[&str],
) -> Result<String, Unanswered> {
    let committed = program_after(rt, alloc, program, number(words, 1)?)?;
    let (proof, root) = (make_proof(&committed), committed.root());
    let made = claim_made(alloc, &committed);
    drop(committed);
    match word(words, 0)? {
        "wire" => wire(alloc, proof, words),
        "proof" => from_root(alloc, &proof, root, words),
        _ => claim(alloc, &made?),
    }
}
