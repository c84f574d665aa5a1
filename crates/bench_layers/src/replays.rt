//! The subject `replays`: a run of a small program is recorded, and roots are asked of it. Its numbers are how many pages the program
//! stores to, the bound, how many steps lie between two checkpoints, how many roots are asked, at even distances up to the bound, and how
//! many workers there are. With no steps between two checkpoints the program runs plainly, and with no roots the run is recorded alone.
//! `bench/replays` measures it.
ghost use Rattle.std.specs.Prelude.{ℕ, List, IfOk};
ghost use Rattle.rv_step.specs.State.{IsChained};

use checkpoint_run::{machine_at, record_run};
use digest_core::Sha256;
use mem_plain::PlainMem;
use rd_base::{Memory, Tamper};
use rv_step::{Machine, advance};
use segment_replay::roots;
use std::alloc::Global;
use std::thread::Threads;

/// lui x6, 0x20; lui x8, 0x20 + `pages`; then add x28, x6, x0, and on from there sw x5, 0(x28); addi x5, x5, 1;
/// addi x28, x28, 256; bne x28, x8, -12; jal x0, -20: it stores its count to every 64th word of the pages from 0x20000 on,
/// again and again
const PROGRAM: &[u8] =
    b"\x37\x03\x02\x00\x37\x04\x02\x00\x33\x0e\x03\x00\x23\x20\x5e\x00\x93\x82\x12\x00\x13\x0e\x0e\x10\xe3\x1a\x8e\xfe\x6f\xf0\xdf\xfe";

/// The numbers of the subject.
#[derive(Clone, Copy)]
struct Work {
    pages: u32,
    bound: u32,
    every: u32,
    roots: u32,
    workers: u32,
}

/// The machine at the start of the program that stores to this many pages.
fn machine_of(alloc: Global, pages: u32) -> Result<Machine, Memory>
    ensures { IfOk result (λ m. (digest : List ℕ → List ℕ) → IsChained digest m) }
{
    let end = pages.wrapping_add(0x20).wrapping_mul(4096) | 0x437;
    let mem = PlainMem::new(alloc)
        .lay(0x1_0000, PROGRAM)?
        .lay(0x1_0004, &end.to_le_bytes())?;
    Machine::new(alloc, 1, mem, 0x1_0000, &[])
}

/// The first four bytes of the last root as a number; if no root is asked, the last count, which is that of the stores.
fn worked<R: Threads + Sync>(rt: &R, alloc: Global, work: Work) -> Result<u32, Memory> {
    let mut machine = machine_of(alloc, work.pages)?;
    if work.every == 0 {
        advance(&mut machine, &Sha256, u64::from(work.bound))?;
        return Ok(machine.regs.get(5));
    }
    let run = record_run(
        alloc,
        Sha256,
        &machine,
        u64::from(work.bound),
        work.every,
        Tamper::Untouched,
    )?;
    if work.roots == 0 || work.workers == 0 {
        let last = run.still() / u64::from(run.every());
        return Ok(machine_at(&run, last)?.regs.get(5));
    }
    let mut steps = Vec::new(alloc);
    for k in 0..work.roots {
        steps.push(u64::from(work.bound) * (u64::from(k) + 1) / u64::from(work.roots))?;
    }
    let found = roots(rt, alloc, Sha256, &run, &steps, work.workers)?;
    match found.last() {
        Some(root) => {
            let [a, b, c, d, ..] = root.0;
            Ok(u32::from_be_bytes([a, b, c, d]))
        }
        None => Ok(0),
    }
}

/// The numbers of the subject, with which the words begin.
fn work_of(words: &[String]) -> Option<Work> {
    Some(Work {
        pages: words.first()?.as_str().parse::<u32>().ok()?,
        bound: words.get(1)?.as_str().parse::<u32>().ok()?,
        every: words.get(2)?.as_str().parse::<u32>().ok()?,
        roots: words.get(3)?.as_str().parse::<u32>().ok()?,
        workers: words.get(4)?.as_str().parse::<u32>().ok()?,
    })
}

/// The first four bytes of the last root as a number, or the last count, as a line. `None` if the words don't begin with the subject's
/// numbers, or memory ran out.
pub fn line<R: Threads + Sync>(rt: &R, alloc: Global, words: &[String]) -> Option<String> {
    let number = worked(rt, alloc, work_of(words)?).ok()?;
    format!(in alloc; "{number}\n").ok()
}
