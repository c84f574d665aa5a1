//! A machine from an image, and the trees of its commitment.
ghost use Rattle.std.specs.Prelude.{◌≡◌, ◌≤◌, ℕ, List, length, IfOk};
ghost use Rattle.rv_step.specs.State.{state_of, IsChained};
ghost use Rattle.rv_step.specs.Step.{state_at};

use digest_core::Digester;
use image_reader::{ImageFault, load_elf};
use rd_base::Memory;
use rv_step::{Machine, advance};
use state_commit::Committed;
use std::alloc::Global;
use std::thread::Threads;

/// A machine that is about to run an ELF file, with an input of at most 1,048,576 bytes. A fault is the first rule that the file breaks, or
/// `Memory`.
pub fn start(alloc: Global, image: &[u8], input: &[u8]) -> Result<Machine, ImageFault>
    requires { length input.now ≤ 1048576 }
    ensures { IfOk result (λ m. (digest : List ℕ → List ℕ) → IsChained digest m) }
{
    let loaded = load_elf(alloc, image)?;
    let machine = Machine::new(alloc, 1, loaded.mem, loaded.entry, input)?;
    Ok(machine)
}

/// The machine after this many steps, kept with the trees of its commitment. An `Err` is out of memory.
pub fn commit_after<R: Threads + Sync, D: Digester>(
    rt: &R,
    alloc: Global,
    d: D,
    machine: Machine,
    steps: u64,
) -> Result<Committed<D>, Memory>
where
    D: Send + Sync,
    requires { IsChained D.digest_of machine }
    ensures { IfOk result (λ c. c ≡ state_at (state_of machine) steps) }
{
    let mut machine = machine;
    advance(&mut machine, &d, steps)?;
    Committed::new(rt, alloc, d, machine)
}
