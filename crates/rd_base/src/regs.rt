//! Register files.
ghost use Rattle.std.specs.Prelude.{◌≡◌, ◌<◌, slice_index};
ghost use Rattle.rd_base.specs.Regs.{no_registers_set, with_register};

use std::marker::Model;

/// The registers `x0` to `x31`, of 32 bits each. `x0` is always 0 (RV32I, section 2.1).
#[derive(Clone, Copy, Debug)]
pub struct Regs {
    pub(crate) x: [u32; 32],
}

impl Model for Regs {
    ghost use Rattle.std.specs.Prelude.{◌≡◌, ◌<◌, ◌^◌, List, ℕ, slice_index};

    ghost Value = { List ℕ };

    ghost view = { λ r. r.x };

    ghost invariant = { λ r. (slice_index r.x 0 ≡ 0) × ((k : ℕ) → slice_index r.x k < 2 ^ 32) };

    ghost inverse = { λ xs. record { x = xs } };
}

impl Regs {
    /// A register file in which every register is 0.
    pub fn new() -> Self
        ensures { result ≡ no_registers_set }
    {
        Regs { x: [0; 32] }
    }

    /// What register `reg` holds, for 0 to 31.
    pub fn get(&self, reg: u8) -> u32
        requires { reg < 32 }
        ensures { result ≡ slice_index self.now reg }
    {
        self.x[reg as usize]
    }

    /// Register `reg` (0 to 31) holds `value` from now on, and the others stay. A write to `x0` is dropped.
    pub fn set(&mut self, reg: u8, value: u32)
        requires { reg < 32 }
        ensures { self.new ≡ with_register self.old reg value }
    {
        if reg != 0 {
            self.x[reg as usize] = value;
        }
    }
}
