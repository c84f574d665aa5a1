//! The run of a program: its states, with their roots, plain proofs and claims.
ghost use Rattle.std.specs.Prelude.{◌≡◌, ◌≤◌, IfOk};
ghost use Rattle.rv_step.specs.State.{IsChained};

use digest_core::Sha256;
use mem_plain::PlainMem;
use open_proof::{make_claim, make_proof};
use rd_base::{Claim, Digest32, Proof};
use rv_step::Machine;
use state_commit::Committed;
use std::alloc::Global;
use std::thread::Threads;
use toy_rows::Unanswered;

/// A state of a machine.
#[derive(Drop)]
pub struct State {
    /// Its root.
    pub root: Digest32,
    /// The plain proof of its step.
    pub proof: Proof,
    /// Its claim.
    pub claim: Claim,
}

/// A program.
#[derive(Drop)]
pub struct Program {
    /// The bytes that lie at 0x10000, where it begins.
    pub image: Vec<u8>,
    /// Its input.
    pub input: Vec<u8>,
}

/// The run of a program.
#[derive(Drop)]
pub struct Run {
    /// The version of the commitment.
    pub version: u32,
    /// The states from the first on.
    pub states: Vec<State>,
}

/// The machine before the first step, with the trees of its version.
fn started<R: Threads + Sync>(
    rt: &R,
    alloc: Global,
    version: u32,
    program: &Program,
) -> Result<Committed<Sha256>, Unanswered> {
    let image = program.image.as_slice();
    let input = program.input.as_slice();
    if version < 1 || version > 3 || image.len() > 256 || input.len() > 256 {
        return Err(Unanswered::NoRow);
    }
    let mem = PlainMem::new(alloc).lay(0x1_0000, image)?;
    let machine = Machine::new(alloc, version, mem, 0x1_0000, input)?;
    Ok(Committed::new(rt, alloc, Sha256, machine)?)
}

/// The state of a machine.
fn state_of(alloc: Global, committed: &Committed<Sha256>) -> Result<State, Unanswered> {
    if committed.machine().output.len() > 256 {
        return Err(Unanswered::NoRow);
    }
    Ok(State {
        root: committed.root(),
        proof: make_proof(committed),
        claim: make_claim(alloc, committed)?,
    })
}

/// Adds a machine's state to those before it, and makes a step.
fn add_state(
    alloc: Global,
    states: &mut Vec<State>,
    committed: Committed<Sha256>,
) -> Result<Committed<Sha256>, Unanswered> {
    states.push(state_of(alloc, &committed)?)?;
    Ok(committed.step()?)
}

/// The states of a program, from the first one on.
pub fn states_of<R: Threads + Sync>(
    rt: &R,
    alloc: Global,
    version: u32,
    program: &Program,
    count: u32,
) -> Result<Vec<State>, Unanswered> {
    let mut committed = started(rt, alloc, version, program)?;
    let mut states = Vec::new(alloc);
    for _state in 0..count {
        committed = add_state(alloc, &mut states, committed)?;
    }
    Ok(states)
}

/// The state after a number of steps.
pub fn state_at(run: &Run, step: u32) -> Result<&State, Unanswered> {
    match run.states.get(step as usize) {
        Some(state) => Ok(state),
        None => Err(Unanswered::NoRow),
    }
}
