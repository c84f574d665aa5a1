//! Two strings of one digest: both collisions of the digest of eight bits, searched and judged by the program itself.
//!
//! What is searched is a pair of claims of one root, among those of liars with the multiples of 4 from 0 to 1,024, and a step of which two
//! different proofs lead from one root. The lines behind each are of the match of the two provers: the strings that their answers open, each
//! behind its digest, the last line of the full text, and the audit of that text. All of them were computed outside with SHA-256 alone, by
//! `checks/collisions.py`.
use crate::answering::{add_audit, last_line, outcome_of};
use crate::cases::{case_of, flat};
use digest_core::{Digester, Weak8};
use rd_base::Memory;
use std::alloc::{AllocError, Global};
use std::sync::Wait;
use std::thread::Threads;

/// JALR x0, 0(x5).
const JUMP: &str = "67800200";

/// What is around the value of a liar.
const LIAR: &str = "{\"tamper\":{\"kind\":\"reg\",\"step\":0,\"reg\":5,\"value\":";

const LIAR_END: &str = "}}";

/// How many liars there are, and how many of them play one match.
const LIARS: u32 = 257;

const GROUP: u32 = 16;

/// The most candidates of the second search.
const CANDIDATES: u32 = 65_536;

/// The wire form of a claim: the memory digest and the registers digest are the bytes 1 to 64, and the control fields those from 65 to 113.
const CLAIM: u8 = 1;

const CLAIM_DIGESTS: usize = 65;

const CLAIM_CONTROL: usize = 114;

/// The wire form of a proof of a step: the registers `x1` to `x31` are the bytes 33 to 156.
const PROOF_MEMORY: usize = 33;

const PROOF_REGISTERS: usize = 157;

/// A prover that puts this value into x5 before the first step, and takes true steps from there.
fn liar(alloc: Global, value: u32) -> Result<String, AllocError> {
    format!(in alloc; "{LIAR}{value}{LIAR_END}")
}

/// The liars of the match of this number, from 0 on.
fn group(alloc: Global, number: u32) -> Result<String, AllocError> {
    let mut provers = String::new(alloc);
    for place in 0..LIARS {
        if place / GROUP == number {
            if !provers.is_empty() {
                provers.push_str(",")?;
            }
            provers.push_str(liar(alloc, place * 4)?.as_str())?;
        }
    }
    Ok(provers)
}

/// What a command writes of the match of these provers over the one step, without patience.
fn judged<R: Threads + Wait + Sync>(
    rt: &R,
    alloc: Global,
    command: &str,
    provers: &str,
) -> Result<String, Memory> {
    let case = case_of(alloc, flat(JUMP, 1), provers)?;
    let outcome = outcome_of(rt, alloc, command, case)?;
    Ok(outcome.text)
}

/// The first byte of a digest.
fn digest_byte(string: &[u8]) -> u8 {
    Weak8.digest(string).0[0]
}

/// The string that an answer of this wire form opens: of a claim its state, which is `04`, the memory digest, the registers digest and the
/// control digest, and of a proof `02` and its registers, of which `x0` is 0. Empty for shorter bytes.
fn string_opened(alloc: Global, answer: &[u8]) -> Result<Vec<u8>, AllocError> {
    let mut string = Vec::new(alloc);
    if answer.first() == Some(&CLAIM) && answer.len() >= CLAIM_CONTROL {
        let mut control = Vec::new(alloc);
        control.push(3)?;
        control.extend_from_slice(&answer[CLAIM_DIGESTS..CLAIM_CONTROL])?;
        string.push(4)?;
        string.extend_from_slice(&answer[1..CLAIM_DIGESTS])?;
        string.extend_from_slice(Weak8.digest(control.as_slice()).0.as_slice())?;
    } else if answer.len() >= PROOF_REGISTERS {
        string.extend_from_slice(&[2, 0, 0, 0, 0])?;
        string.extend_from_slice(&answer[PROOF_MEMORY..PROOF_REGISTERS])?;
    }
    Ok(string)
}

/// The strings that the given answers to these questions open, in the order of a full text.
fn strings_opened(alloc: Global, text: &str, question: &str) -> Result<Vec<Vec<u8>>, Memory> {
    let mut strings = Vec::new(alloc);
    for line in text.lines() {
        if let Some((by, wire)) = line.split_once(" given ") {
            if by.starts_with(question) {
                let Ok(answer) = hex::decode(alloc, wire) else {
                    return Err(Memory);
                };
                strings.push(string_opened(alloc, answer.as_slice())?)?;
            }
        }
    }
    Ok(strings)
}

/// The value of a liar, and the first byte of the root of its claim.
#[derive(Clone, Copy)]
struct Claimed {
    value: u32,
    root: u8,
}

/// What the liars claim, by their values, from 0 on, as the program wrote these claims.
fn claimed_roots<R: Threads + Wait + Sync>(rt: &R, alloc: Global) -> Result<Vec<Claimed>, Memory> {
    let mut roots = Vec::new(alloc);
    let mut value: u32 = 0;
    for number in 0..17 {
        let provers = group(alloc, number)?;
        let text = judged(rt, alloc, "judge --digest weak8 --full", provers.as_str())?;
        let strings = strings_opened(alloc, text.as_str(), "move 0 0 ")?;
        for string in strings.iter() {
            let root = digest_byte(string.as_slice());
            roots.push(Claimed { value, root })?;
            value = value.wrapping_add(4);
        }
    }
    Ok(roots)
}

/// The least value whose root comes again, and the least with which it does.
fn least_pair(roots: &[Claimed]) -> Option<(u32, u32)> {
    for first in roots {
        for second in roots {
            if first.value < second.value && first.root == second.root {
                return Some((first.value, second.value));
            }
        }
    }
    None
}

/// The first multiple of 4, from 4 on, with whose liar an honest prover's match ends in a step that both prove: the liar's first state
/// has the root of the start, and its second another root than the honest one.
fn first_proved_twice<R: Threads + Wait + Sync>(
    rt: &R,
    alloc: Global,
) -> Result<Option<u32>, Memory> {
    for place in 0..CANDIDATES {
        let value = place * 4 + 4;
        let provers = pair(alloc, "{}", liar(alloc, value)?.as_str())?;
        let report = judged(rt, alloc, "judge --digest weak8", provers.as_str())?;
        if report.as_str().contains("\nstep 0 p1 proved p2 proved\n") {
            return Ok(Some(value));
        }
    }
    Ok(None)
}

/// Two provers.
fn pair(alloc: Global, first: &str, second: &str) -> Result<String, AllocError> {
    format!(in alloc; "{first},{second}")
}

/// Adds the lines of the match of these provers: what the answers to these questions open, the last line of the full text, and its audit.
fn add_match<R: Threads + Wait + Sync>(
    rt: &R,
    alloc: Global,
    lines: &mut String,
    provers: &str,
    question: &str,
) -> Result<(), Memory> {
    let text = judged(rt, alloc, "judge --digest weak8 --full", provers)?;
    let strings = strings_opened(alloc, text.as_str(), question)?;
    for string in strings.iter() {
        let digest = digest_byte(string.as_slice());
        let digits = hex::encode(alloc, string.as_slice())?;
        let line = format!(in alloc; "{digest:02x} is the digest of {digits}\n")?;
        lines.push_str(line.as_str())?;
    }
    lines.push_str(last_line(text.as_str()))?;
    lines.push_str("\n")?;
    add_audit(rt, alloc, lines, text.into_bytes())
}

/// Adds the lines of the claims: how many there are, and the least two of one root.
fn add_claims<R: Threads + Wait + Sync>(
    rt: &R,
    alloc: Global,
    lines: &mut String,
) -> Result<(), Memory> {
    let roots = claimed_roots(rt, alloc)?;
    let count = roots.len();
    let Some((first, second)) = least_pair(roots.as_slice()) else {
        return Ok(());
    };
    let line = format!(in alloc; "{count} claims, the least two of one root: {first} {second}\n")?;
    lines.push_str(line.as_str())?;
    let provers = pair(
        alloc,
        liar(alloc, first)?.as_str(),
        liar(alloc, second)?.as_str(),
    )?;
    add_match(rt, alloc, lines, provers.as_str(), "move 0 0 ")
}

/// Adds the lines of both collisions. None for one that isn't found.
pub fn add_collisions<R: Threads + Wait + Sync>(
    rt: &R,
    alloc: Global,
    lines: &mut String,
) -> Result<(), Memory> {
    add_claims(rt, alloc, lines)?;
    let Some(value) = first_proved_twice(rt, alloc)? else {
        return Ok(());
    };
    let line = format!(in alloc; "the first step that both prove: 0 {value}\n")?;
    lines.push_str(line.as_str())?;
    let provers = pair(alloc, "{}", liar(alloc, value)?.as_str())?;
    add_match(rt, alloc, lines, provers.as_str(), "move 1 1 ")
}
