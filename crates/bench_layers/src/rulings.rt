//! The subject `rulings`: the proof of one step is judged again and again. Its numbers are the version of the commitment, after how many
//! steps of a small program the proof is made, and how many rulings there are: after 2 steps a byte is stored, after 3 a word is loaded,
//! after 4 memory isn't used. `bench/rulings` measures it.
ghost use Rattle.std.specs.Prelude.{◌≤◌};

use bisect_game::Judge;
use digest_core::Sha256;
use mem_plain::PlainMem;
use open_proof::make_proof;
use rd_base::Memory;
use rv_step::Machine;
use state_commit::Committed;
use std::alloc::Global;
use std::thread::Threads;
use step_referee::MachineJudge;

/// lui x5, 0x20; addi x6, x0, 122; sb x6, 3(x5); lw x10, 0(x5); srli x10, x10, 24
const PROGRAM: &[u8] =
    b"\xb7\x02\x02\x00\x13\x03\xa0\x07\xa3\x81\x62\x00\x03\xa5\x02\x00\x13\x55\x85\x01";

/// How many of `rulings` rulings in a version on the step after `steps` steps lead to a root.
fn led<R: Threads + Sync>(
    rt: &R,
    alloc: Global,
    version: u32,
    steps: u64,
    rulings: u64,
) -> Result<u64, Memory>
    requires { (1 ≤ version) × (version ≤ 3) }
{
    let mem = PlainMem::new(alloc).lay(0x1_0000, PROGRAM)?;
    let machine = Machine::new(alloc, version, mem, 0x1_0000, &[])?;
    let mut committed = Committed::new(rt, alloc, Sha256, machine)?;
    for _ in 0..steps {
        committed = committed.step()?;
    }
    let root = committed.root();
    let proof = make_proof(&committed);
    let judge = MachineJudge::new(Sha256, version);
    let mut led: u64 = 0;
    for _ in 0..rulings {
        if judge.leads(root, &proof).is_some() {
            led = led.wrapping_add(1);
        }
    }
    Ok(led)
}

/// How often the proof led, as a line. `None` if the words don't begin with the subject's numbers, or memory ran out.
pub fn line<R: Threads + Sync>(rt: &R, alloc: Global, words: &[String]) -> Option<String> {
    let version = words.first()?.as_str().parse::<u32>().ok()?;
    let steps = words.get(1)?.as_str().parse::<u64>().ok()?;
    let rulings = words.get(2)?.as_str().parse::<u64>().ok()?;
    if version < 1 || version > 3 {
        return None;
    }
    let led = led(rt, alloc, version, steps, rulings).ok()?;
    format!(in alloc; "{led}\n").ok()
}
