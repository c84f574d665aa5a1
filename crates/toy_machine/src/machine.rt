//! A machine for tests.
ghost use Rattle.std.specs.Prelude.{ℕ, ◌≤◌, List, length, IfOk};
ghost use Rattle.rv_step.specs.State.{IsChained};

use mem_plain::PlainMem;
use rd_base::Memory;
use rv_step::Machine;
use std::alloc::Global;

/// A machine at the start of an image of at most 64 bytes, which lies at 0x10000, without input. An `Err` is out of memory.
pub fn machine_of(alloc: Global, image: &[u8]) -> Result<Machine, Memory>
    requires { length image.now ≤ 64 }
    ensures { IfOk result (λ m. (digest : List ℕ → List ℕ) → IsChained digest m) }
{
    let mem = PlainMem::new(alloc).lay(0x1_0000, image)?;
    Machine::new(alloc, 1, mem, 0x1_0000, &[])
}
