//! The program of rows, its machine at the start, and its recorded run.
ghost use Rattle.std.specs.Prelude.{◌≡◌, ◌<◌, ℕ, [], List, IfOk};
ghost use Rattle.rv_step.specs.State.{IsChained, state_of};
ghost use Rattle.checkpoint_run.specs.Recorded.{AreChained};
ghost use Rattle.checkpoint_run.specs.TamperedRun.{tampered};
ghost use Rattle.sha2.specs.Sha256.{sha256};

use crate::scripts::tamper_of;
use checkpoint_run::{Run, record_run};
use digest_core::Sha256;
use mem_plain::PlainMem;
use rd_base::{Memory, Tamper};
use rv_step::Machine;
use std::alloc::Global;
use toy_rows::{Unanswered, bytes, number, word};

/// A program to run.
#[derive(Drop)]
pub struct Program {
    /// The version of the commitment.
    pub version: u32,
    /// The bytes that lie at 0x10000, where it begins.
    pub image: Vec<u8>,
    /// Its input.
    pub input: Vec<u8>,
    /// How many pages its memory holds besides, the last of which has the byte 0 alone, and the others a 1.
    pub pages: u32,
}

/// `program VERSION IMAGE INPUT`, without further pages.
pub fn program_of(alloc: Global, words: &[&str]) -> Result<Program, Unanswered> {
    Ok(Program {
        version: number(words, 1)?,
        image: bytes(alloc, words, 2)?,
        input: bytes(alloc, words, 3)?,
        pages: 0,
    })
}

/// The program in a version, with an input.
pub fn copy_with(
    alloc: Global,
    program: &Program,
    version: u32,
    input: &[u8],
) -> Result<Program, Unanswered> {
    Ok(Program {
        version,
        image: program.image.as_slice().to_vec(alloc)?,
        input: input.to_vec(alloc)?,
        pages: program.pages,
    })
}

/// The memory with more pages, at most 1,000. The program's is at 0x10000.
fn with_pages(mut mem: PlainMem, pages: u32) -> Result<PlainMem, Unanswered> {
    if pages == 0 {
        return Ok(mem);
    }
    for page in 1..pages.min(1000) {
        mem.store(0xffff_ffff - 8192 * page, 1, 1)?;
    }
    mem.store(0, 1, 0)?;
    Ok(mem)
}

/// The machine before the first instruction.
pub fn started(alloc: Global, program: &Program) -> Result<Machine, Unanswered>
    ensures chained { IfOk result (λ m. (digest : List ℕ → List ℕ) → IsChained digest m) }
    ensures silent { IfOk result (λ m. m.output.items ≡ []) }
{
    let Program {
        version,
        image,
        input,
        pages,
    } = program;
    let is_known = *version >= 1 && *version <= 3;
    if !is_known || image.len() > 64 || input.len() > 4096 || *pages > 1000 {
        return Err(Unanswered::NoRow);
    }
    let mem = PlainMem::new(alloc).lay(0x1_0000, image.as_slice())?;
    let mem = with_pages(mem, *pages)?;
    Ok(Machine::new(alloc, *version, mem, 0x1_0000, input.as_slice())?)
}

/// The run from a machine. An `Err` is out of memory.
pub fn run_from(
    alloc: Global,
    machine: &Machine,
    bound: u32,
    every: u32,
    tamper: Tamper,
) -> Result<Run, Memory>
    requires chained { IsChained sha256 machine.now }
    requires every { 0 < every }
    ensures chained { IfOk result (λ r. AreChained sha256 r) }
    ensures first { IfOk result (λ r. r.first ≡ tampered tamper 0 (state_of machine.now)) }
{
    record_run(alloc, Sha256, machine, u64::from(bound), every, tamper)
}

/// The run of `NAME BOUND EVERY TAMPER ..`.
pub fn run_of(alloc: Global, program: &Program, words: &[&str]) -> Result<Box<Run>, Unanswered>
    ensures { IfOk result (λ r. AreChained sha256 r.value) }
{
    let bound = number(words, 1)?;
    let every = number(words, 2)?;
    let tamper = tamper_of(word(words, 3)?)?;
    if every == 0 {
        return Err(Unanswered::NoRow);
    }
    let machine = started(alloc, program)?;
    let run = run_from(alloc, &machine, bound, every, tamper)?;
    Ok(Box::new(alloc, run)?)
}
