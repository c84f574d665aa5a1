//! What a step reads of a state, whoever holds the state.
ghost use Rattle.std.specs.Prelude.{◌≡◌, ◌⊎◌, ◌%◌};
ghost use Rattle.rv_step.specs.State.{state_of};
ghost use Rattle.rv_step.specs.NextEffect.{Seen, seen_of};
ghost use Rattle.mem_plain.specs.Contents.{number_at};
ghost use Rattle.rv_step.specs.Offer.{byte_or_ones};

use crate::machine::Machine;
use mem_plain::PlainMem;
use rd_base::{InputScheme, Regs, Scheme, Status};

/// A state as a step sees it, whoever holds it: a machine, or the opened parts of a proof. Nothing else of a state is read by its
/// step, and reading changes nothing.
pub trait StateAccess {
    /// What a step sees of the state.
    ghost seen: { Self → Seen };

    /// Whether the state is running, and how it has stopped if it isn't.
    fn status(&self) -> Status
        ensures { result ≡ (seen self.now).status };

    /// The address of the next instruction.
    fn pc(&self) -> u32
        ensures { result ≡ (seen self.now).pc };

    /// The registers.
    fn registers(&self) -> &Regs
        ensures { result.now ≡ (seen self.now).regs };

    /// How the input is held: one that is a tree is offered to a call, byte by byte.
    fn input_scheme(&self) -> InputScheme
        ensures { result ≡ (seen self.now).input_scheme };

    /// The word at an address that is a multiple of 4, for the fetch.
    fn fetch(&self, addr: u32) -> u32
        requires { addr % 4 ≡ 0 }
        ensures { result ≡ (seen self.now).word addr };

    /// The number of `width` bytes (1, 2 or 4) at an address that is a multiple of the width, for a load.
    fn load(&self, addr: u32, width: u8) -> u32
        requires width { (width ≡ 1) ⊎ (width ≡ 2) ⊎ (width ≡ 4) }
        requires aligned { addr % width ≡ 0 }
        ensures { result ≡ (seen self.now).number addr width };

    /// The byte of the input with this number, counted from 0, and `ffffffff` if the input has no such byte.
    fn input_byte(&self, index: u32) -> u32
        ensures { result ≡ (seen self.now).byte index };
}

/// The number of `width` bytes (1, 2 or 4) at an address that is a multiple of the width, the least byte first.
fn number(mem: &PlainMem, addr: u32, width: u8) -> u32
    requires width { (width ≡ 1) ⊎ (width ≡ 2) ⊎ (width ≡ 4) }
    requires aligned { addr % width ≡ 0 }
    ensures { result ≡ number_at mem.now addr width }
{
    match width {
        1 => u32::from(mem.byte(addr)),
        2 => mem.half(addr),
        _ => mem.word(addr),
    }
}

/// The byte of an input with this number, and `ffffffff` if it has no such byte.
fn byte_of(input: &[u8], index: u32) -> u32
    ensures { result ≡ byte_or_ones input.now index }
{
    match input.get(index as usize) {
        Some(byte) => u32::from(*byte),
        None => u32::MAX,
    }
}

impl StateAccess for Machine {
    ghost seen = { λ m. seen_of (state_of m) };

    #[inline(always)]
    fn status(&self) -> Status {
        self.ctl.status
    }

    #[inline(always)]
    fn pc(&self) -> u32 {
        self.ctl.pc
    }

    #[inline(always)]
    fn registers(&self) -> &Regs {
        &self.regs
    }

    #[inline(always)]
    fn input_scheme(&self) -> InputScheme {
        Scheme::of(self.version).input
    }

    #[inline(always)]
    fn fetch(&self, addr: u32) -> u32 {
        self.mem.word(addr)
    }

    #[inline(always)]
    fn load(&self, addr: u32, width: u8) -> u32 {
        number(&self.mem, addr, width)
    }

    #[inline(always)]
    fn input_byte(&self, index: u32) -> u32 {
        byte_of(&self.input, index)
    }
}
