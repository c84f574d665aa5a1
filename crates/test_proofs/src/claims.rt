//! Rows of claims and their collisions, of the chain of an output, and of the judge.
use crate::run::{Run, State, state_at};
use crate::strings::{ONE_VALUE, pair};
use crate::words::digest;
use bisect_game::Judge;
use digest_core::{Digester, Sha256};
use out_chain::{
    ClaimCheck, chain_of, check_claim, claim_collision, parts_root, parts_text, root_of_claim,
};
use rd_base::{Claim, ClaimOutput, Ctl, Digest32, Status};
use std::alloc::Global;
use step_referee::MachineJudge;
use toy_rows::{Unanswered, bytes, bytes_of, number};

/// Whether the plain proof of a state leads to the next root for the judge of a version.
fn leads(version: u32, state: &State, next: Digest32) -> bool {
    match MachineJudge::new(Sha256, version).leads(state.root, &state.proof) {
        Some(to) => to == next,
        None => false,
    }
}

/// Whether it leads nowhere for that of another version.
fn leads_nowhere(version: u32, state: &State) -> bool {
    let other = if version == 3 {
        1
    } else {
        version.saturating_add(1)
    };
    MachineJudge::new(Sha256, other)
        .leads(state.root, &state.proof)
        .is_none()
}

/// `leads`: for how many steps of the run the plain proof leads to the next root for the judge of its version, and nowhere for that of
/// another one.
pub fn leading(alloc: Global, run: &Run) -> Result<String, Unanswered> {
    let states = run.states.as_slice();
    let next = states.get(1..).unwrap_or(&[]);
    let mut count = 0u32;
    for (state, next) in states.iter().zip(next.iter()) {
        if leads(run.version, state, next.root) && leads_nowhere(run.version, state) {
            count = count.saturating_add(1);
        }
    }
    Ok(format!(in alloc; "{count} of {}", next.len())?)
}

/// These bytes as an output.
fn output_of(bytes: Vec<u8>) -> Result<ClaimOutput, Unanswered> {
    match ClaimOutput::new(bytes) {
        Some(output) => Ok(output),
        None => Err(Unanswered::NoRow),
    }
}

/// A claim with another output, if there is one.
fn with_output(alloc: Global, claim: &Claim, output: Option<&&str>) -> Result<Claim, Unanswered> {
    let mut other = claim.copy(alloc)?;
    if let Some(output) = output {
        other.output = output_of(bytes_of(alloc, output)?)?;
    }
    Ok(other)
}

/// How the judge of a version rules on a claim of a state.
fn ruling(alloc: Global, version: u32, state: &State, claim: &Claim) -> Result<String, Unanswered> {
    let judge = MachineJudge::new(Sha256, version);
    let sound = if judge.sound(claim) {
        "sound"
    } else {
        "not sound"
    };
    let root = if judge.root_of(claim) == state.root {
        "of the state's root"
    } else {
        "of another root"
    };
    let collides = if judge.claim_collision(claim, claim).is_none()
        && judge
            .step_collision(state.root, &state.proof, &state.proof)
            .is_none()
    {
        "without a collision"
    } else {
        "with a collision"
    };
    Ok(format!(in alloc; "{sound}, {root}, {collides}")?)
}

/// `judge STEP`, `judge STEP OUTPUT`: how the judge rules on the claim of the state after a number of steps, or on it with another output:
/// whether it is sound, whether its root is that of the state, and whether it and the plain proof each collide with themselves.
pub fn judged(alloc: Global, run: &Run, words: &[&str]) -> Result<String, Unanswered> {
    let state = state_at(run, number(words, 1)?)?;
    let claim = with_output(alloc, &state.claim, words.get(2))?;
    ruling(alloc, run.version, state, &claim)
}

/// `chain BYTES`: the chain of an output.
pub fn chain(alloc: Global, words: &[&str]) -> Result<String, Unanswered> {
    let output = bytes(alloc, words, 1)?;
    let chain = chain_of(Sha256, output.as_slice());
    Ok(hex::encode(alloc, &chain.0)?)
}

/// The claim of these words, of a machine that exited with 0.
fn claim_of(alloc: Global, words: &[&str]) -> Result<Claim, Unanswered> {
    Ok(Claim {
        mem: digest(alloc, words, 1)?,
        regs: digest(alloc, words, 2)?,
        ctl: Ctl {
            pc: number(words, 3)?,
            status: Status::Exited(0),
            out_len: u64::from(number(words, 4)?),
            chain: digest(alloc, words, 5)?,
        },
        output: output_of(bytes(alloc, words, 6)?)?,
    })
}

/// `claim MEMORY REGISTERS PC LENGTH CHAIN OUTPUT`: the result of its check.
pub fn claim(alloc: Global, words: &[&str]) -> Result<String, Unanswered> {
    let claim = claim_of(alloc, words)?;
    let result = match check_claim(Sha256, &claim) {
        ClaimCheck::Sound => "sound",
        ClaimCheck::WrongLength => "wrong length",
        ClaimCheck::WrongChain => "wrong chain",
    };
    Ok(String::from_str(alloc, result)?)
}

/// `root` and the words of a claim: whether the judge finds it sound, and its root, as the digest of its string, of its parts, of itself
/// and as the judge has it.
pub fn root(alloc: Global, words: &[&str]) -> Result<String, Unanswered> {
    let claim = claim_of(alloc, words)?;
    let text = parts_text(Sha256, claim.mem, claim.regs, &claim.ctl);
    let judge = MachineJudge::new(Sha256, 1);
    let root = Sha256.digest(text.as_slice());
    let others = [
        parts_root(Sha256, claim.mem, claim.regs, &claim.ctl),
        root_of_claim(Sha256, &claim),
        judge.root_of(&claim),
    ];
    if others != [root; 3] || !judge.sound(&claim) {
        return Ok(String::from_str(alloc, "not sound, or of two roots")?);
    }
    Ok(format!(in alloc; "sound, {}", hex::encode(alloc, &root.0)?)?)
}

/// A claim that is sound by the digest function with one value, of three words: its digest of memory, its pc, its output.
fn near_claim(alloc: Global, words: &[&str]) -> Result<Claim, Unanswered> {
    let output = bytes(alloc, words, 2)?;
    Ok(Claim {
        mem: digest(alloc, words, 0)?,
        regs: Digest32([2; 32]),
        ctl: Ctl {
            pc: number(words, 1)?,
            status: Status::Exited(0),
            out_len: output.len() as u64,
            chain: ONE_VALUE.digest(&[]),
        },
        output: output_of(output)?,
    })
}

/// The strings of two claims that collide by a digest function, and those for its judge if they are others.
fn colliding<D: Digester>(alloc: Global, d: D, x: &Claim, y: &Claim) -> Result<String, Unanswered> {
    let found = pair(alloc, claim_collision(d, x, y))?;
    let judged = pair(alloc, MachineJudge::new(d, 1).claim_collision(x, y))?;
    if found == judged {
        return Ok(found);
    }
    Ok(format!(in alloc; "{found}, but {judged} for the judge")?)
}

/// `claims_collide MEMORY PC OUTPUT MEMORY PC OUTPUT`: the strings of two claims that collide by the digest function with one value, and
/// by SHA-256.
pub fn claims_collide(alloc: Global, words: &[&str]) -> Result<String, Unanswered> {
    let x = near_claim(alloc, words.get(1..).unwrap_or(&[]))?;
    let y = near_claim(alloc, words.get(4..).unwrap_or(&[]))?;
    let by_one = colliding(alloc, ONE_VALUE, &x, &y)?;
    let by_sha = colliding(alloc, Sha256, &x, &y)?;
    Ok(format!(in alloc; "{by_one}; by SHA-256 {by_sha}")?)
}
