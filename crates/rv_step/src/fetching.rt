//! What the next step of a state calls for: the word at an address, and what the instruction asks of memory or of the input.
ghost use Rattle.std.specs.Prelude.{◌≡◌, ◌⊎◌, ◌+◌, ◌≤◌, ◌%◌, IfSome};
ghost use Rattle.mem_plain.specs.Page.{number_in};
ghost use Rattle.rv_step.specs.NextEffect as next;
ghost use Rattle.rv_step.specs.NextNeed as needs;
ghost use Rattle.rv_step.specs.Parts.{IsAligned};

use crate::access::StateAccess;
use crate::asked::Need;
use crate::parts::need_by;
use rv_decode::{Instr, decode};

/// The number of 1, 2 or 4 bytes from a place of a chunk on, the least byte first.
pub fn number_in_chunk(chunk: &[u8; 32], at: usize, width: u8) -> u32
    requires width { (width ≡ 1) ⊎ (width ≡ 2) ⊎ (width ≡ 4) }
    requires fits { at + width ≤ 32 }
    ensures { result ≡ number_in chunk.now at width }
{
    match width {
        1 => u32::from(chunk[at]),
        2 => u32::from(u16::from_le_bytes([chunk[at], chunk[at + 1]])),
        _ => u32::from_le_bytes([chunk[at], chunk[at + 1], chunk[at + 2], chunk[at + 3]]),
    }
}

/// The address of the word that the next step fetches: `pc`, if the state is running and `pc` is a multiple of 4.
#[inline(always)]
pub fn fetch_address<A: StateAccess>(state: &A) -> Option<u32>
    ensures value { result ≡ next.address_fetched (A.seen state.now).status (A.seen state.now).pc }
    ensures aligned { IfSome result (λ addr. addr % 4 ≡ 0) }
{
    if state.status().is_running() && state.pc() % 4 == 0 {
        Some(state.pc())
    } else {
        None
    }
}

/// The instruction that the next step of a state fetches, whoever holds the state. `None` if it fetches no word, or one that is no
/// instruction. No register is read.
#[inline(always)]
pub fn fetched<A: StateAccess>(state: &A) -> Option<Instr>
    ensures { result ≡ next.fetched (A.seen state.now) }
{
    match fetch_address(state) {
        Some(addr) => decode(state.fetch(addr)),
        None => None,
    }
}

/// What the next step of a state needs of memory or of the input, whoever holds the state: what the instruction that it fetches needs,
/// and nothing if it fetches none. Neither memory is loaded from nor the input read.
pub fn next_need<A: StateAccess>(state: &A) -> Need
    ensures value { result ≡ needs.next_need (A.seen state.now) }
    ensures aligned { IsAligned result }
{
    match fetched(state) {
        Some(instr) => need_by(state.input_scheme(), state.registers(), &instr),
        None => Need::Nothing,
    }
}
