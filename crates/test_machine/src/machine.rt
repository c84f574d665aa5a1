//! Rows of a program's run.
ghost use Rattle.std.specs.Prelude.{ℕ, ◌≤◌, List, length, IfOk};
ghost use Rattle.rv_step.specs.State.{IsChained};

use crate::words::written;
use digest_core::Sha256;
use mem_plain::PlainMem;
use rd_base::Memory;
use rv_step::{Machine, advance, step, touches};
use std::alloc::Global;
use toy_rows::{Unanswered, add_part, byte_of, bytes, number, number_of};

/// A program to run.
#[derive(Drop)]
pub struct Program {
    /// The version of the machine.
    pub version: u32,
    /// The bytes that lie at 0x10000, where it begins.
    pub image: Vec<u8>,
    /// Its input.
    pub input: Vec<u8>,
}

/// `program VERSION IMAGE INPUT`.
pub fn make_program(alloc: Global, words: &[&str]) -> Result<Program, Unanswered> {
    Ok(Program {
        version: number(words, 1)?,
        image: bytes(alloc, words, 2)?,
        input: bytes(alloc, words, 3)?,
    })
}

/// The machine before the first instruction.
fn started(alloc: Global, program: &Program) -> Result<Machine, Unanswered>
    ensures { IfOk result (λ m. (digest : List ℕ → List ℕ) → IsChained digest m) }
{
    let Program {
        version,
        image,
        input,
    } = program;
    if *version < 1 || *version > 3 || image.len() > 64 || input.len() > 64 {
        return Err(Unanswered::NoRow);
    }
    let mem = PlainMem::new(alloc).lay(0x1_0000, image.as_slice())?;
    Ok(Machine::new(alloc, *version, mem, 0x1_0000, input.as_slice())?)
}

/// The machine after a number of steps.
fn machine_after(alloc: Global, program: &Program, steps: u32) -> Result<Machine, Unanswered> {
    let mut machine = started(alloc, program)?;
    advance(&mut machine, &Sha256, u64::from(steps))?;
    Ok(machine)
}

/// The page that is stored to, if there is one.
fn page(alloc: Global, page: Option<u32>) -> Result<String, Unanswered> {
    match page {
        Some(page) => Ok(format!(in alloc; "0x{page:x}")?),
        None => Ok(String::from_str(alloc, "none")?),
    }
}

/// A register or a number of memory: `xNUMBER`, `byte@ADDRESS` or `word@ADDRESS`.
fn place(alloc: Global, machine: &Machine, name: &str) -> Result<String, Unanswered> {
    let value = if let Some(number) = name.strip_prefix("x") {
        let number = byte_of(number)?;
        if number >= 32 {
            return Err(Unanswered::NoRow);
        }
        machine.regs.get(number)
    } else if let Some(addr) = name.strip_prefix("byte@") {
        u32::from(machine.mem.byte(number_of(addr)?))
    } else if let Some(addr) = name.strip_prefix("word@") {
        let addr = number_of(addr)?;
        if addr % 4 != 0 {
            return Err(Unanswered::NoRow);
        }
        machine.mem.word(addr)
    } else {
        return Err(Unanswered::NoRow);
    };
    Ok(format!(in alloc; "0x{value:x}")?)
}

/// What a machine has by a name: a control field, the page that its next step stores to, its output, or a `place`.
fn fact(alloc: Global, machine: &Machine, name: &str) -> Result<String, Unanswered> {
    match name {
        "status" => Ok(format!(in alloc; "{}", machine.ctl.status)?),
        "pc" => Ok(format!(in alloc; "0x{:x}", machine.ctl.pc)?),
        "touches" => page(alloc, touches(machine)),
        "output" => written(alloc, machine.output.as_slice()),
        "out_len" => Ok(format!(in alloc; "{}", machine.ctl.out_len)?),
        "chain" => written(alloc, machine.ctl.chain.0.as_slice()),
        _ => place(alloc, machine, name),
    }
}

/// What a machine has by each of these names, with a comma behind it.
fn facts(alloc: Global, machine: &Machine, names: &[&str]) -> Result<String, Unanswered> {
    let mut facts = String::new(alloc);
    for name in names {
        add_part(&mut facts, " ", fact(alloc, machine, name)?.as_str())?;
        facts.push_str(",")?;
    }
    Ok(facts)
}

/// `after STEPS NAME ..`: what the machine then has by these names.
pub fn after(alloc: Global, program: &Program, words: &[&str]) -> Result<String, Unanswered> {
    let machine = machine_after(alloc, program, number(words, 1)?)?;
    facts(alloc, &machine, words.get(2..).unwrap_or(&[]))
}

/// `step`: the page that the first step answers.
pub fn first_step(alloc: Global, program: &Program) -> Result<String, Unanswered> {
    let mut machine = started(alloc, program)?;
    let stored = step(&mut machine, &Sha256)?;
    page(alloc, stored)
}

/// A machine after a store of 1 at its address 0x2000 and one step, and a copy of it from before both.
fn parted(alloc: Global, program: &Program) -> Result<(Machine, Machine), Unanswered> {
    let mut machine = started(alloc, program)?;
    let copy = machine.copy()?;
    machine.mem.store(0x2000, 1, 1)?;
    advance(&mut machine, &Sha256, 1)?;
    Ok((machine, copy))
}

/// `original NAME ..`: what the machine that was copied has by these names.
pub fn of_original(alloc: Global, program: &Program, words: &[&str]) -> Result<String, Unanswered> {
    let (machine, _) = parted(alloc, program)?;
    facts(alloc, &machine, words.get(1..).unwrap_or(&[]))
}

/// `copied NAME ..`: what its copy has.
pub fn of_copy(alloc: Global, program: &Program, words: &[&str]) -> Result<String, Unanswered> {
    let (_, copy) = parted(alloc, program)?;
    facts(alloc, &copy, words.get(1..).unwrap_or(&[]))
}
