//! Tampers.
ghost use Rattle.std.specs.Prelude.{◌≡◌, ◌≤◌, ◌↔◌, IsSome, IfSome};

use std::marker::Model;

/// The number of a register other than `x0`: 1 to 31.
///
/// Contracts see it as that number.
#[derive(Clone, Copy, Debug)]
pub struct RegisterNumber {
    number: u8,
}

impl Model for RegisterNumber {
    ghost use Rattle.std.specs.Prelude.{ℕ, ◌≤◌};

    ghost Value = { ℕ };

    ghost view = { λ r. r.number };

    ghost invariant = { λ r. (1 ≤ r.number) × (r.number ≤ 31) };

    ghost inverse = { λ n. record { number = n } };
}

impl RegisterNumber {
    /// The register of a number. `None` comes if and only if it isn't from 1 to 31.
    pub fn new(number: u8) -> Option<RegisterNumber>
        ensures there { IsSome result ↔ ((1 ≤ number) × (number ≤ 31)) }
        ensures value { IfSome result (λ r. r ≡ number) }
    {
        if 1 <= number && number <= 31 {
            Some(RegisterNumber { number })
        } else {
            None
        }
    }

    /// The number, from 1 to 31.
    pub fn get(self) -> u8
        ensures value { result ≡ self }
        ensures least { 1 ≤ result }
        ensures most { result ≤ 31 }
    {
        self.number
    }
}

/// What is wrong with a prover's run.
#[derive(Clone, Copy, Debug)]
pub enum Tamper {
    /// Nothing: it is the sequential run.
    Untouched,
    /// At the state `step` the byte at `addr` is xored with `mask`, and the steps follow from there.
    Flip {
        /// The state's number.
        step: u32,
        /// The byte's address.
        addr: u32,
        /// What the byte is xored with.
        mask: u8,
    },
    /// At the state `step` register `reg` holds `value`, and the steps follow from there.
    Register {
        /// The state's number.
        step: u32,
        /// Which register.
        reg: RegisterNumber,
        /// What it holds.
        value: u32,
    },
    /// The run stands still from the state `steps` on.
    Early {
        /// How many steps are made.
        steps: u32,
    },
}
