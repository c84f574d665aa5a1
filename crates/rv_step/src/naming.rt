//! The registers that an instruction names.
ghost use Rattle.std.specs.Prelude.{◌≡◌, ◌<◌, ◌≤◌, ◌++◌, [], length};
ghost use Rattle.rv_step.specs.Named as named;

use crate::effect::{ARGUMENT_REGISTER, CALL_REGISTER};
use crate::laws::names_are_registers;
use arrayvec::ArrayVec;
use rv_decode::{Fields, Instr, fields_of};
use std::marker::Model;

/// At most three registers, in their order, held inline: it takes no memory.
///
/// Contracts see them as the list of their numbers.
#[derive(Debug, Drop)]
pub struct Names {
    registers: ArrayVec<u8, 3>,
}

impl Model for Names {
    ghost use Rattle.std.specs.Prelude.{List, ℕ};

    ghost Value = { List ℕ };

    ghost view = { λ n. n.registers.items };
}

impl Names {
    /// No register.
    fn new() -> Self
        ensures { result ≡ [] }
    {
        Names {
            registers: ArrayVec::new(),
        }
    }

    /// Appends a register to fewer than three, if it is to be kept.
    fn push(&mut self, kept: bool, reg: u8)
        requires { length self.old < 3 }
        ensures { self.new ≡ self.old ++ named.if_named kept reg }
    {
        if kept {
            self.registers.push(reg);
        }
    }

    /// The numbers, in their order: at most three.
    pub fn as_slice(&self) -> &[u8]
        ensures value { result.now ≡ self.now }
        ensures few { length self.now ≤ 3 }
    {
        self.registers.as_slice()
    }
}

/// The first and the second register that an instruction reads, and the one that it writes; `x0` if it has no such field.
#[tactic(auto, unfolding(crate::specs::Named::first_source, crate::specs::Named::second_source, crate::specs::Named::destination))]
fn registers_of(instr: &Instr) -> (u8, u8, u8)
    ensures first { result.0 ≡ named.first_source instr.now }
    ensures second { result.1 ≡ named.second_source instr.now }
    ensures last { result.2 ≡ named.destination instr.now }
{
    match fields_of(instr) {
        Fields::R(i) => (i.rs1, i.rs2, i.rd),
        Fields::I(i) => (i.rs1, 0, i.rd),
        Fields::Shift(i) => (i.rs1, 0, i.rd),
        Fields::S(i) => (i.rs1, i.rs2, 0),
        Fields::B(i) => (i.rs1, i.rs2, 0),
        Fields::U(i) => (0, 0, i.rd),
        Fields::J(i) => (0, 0, i.rd),
        Fields::Call => (CALL_REGISTER, ARGUMENT_REGISTER, ARGUMENT_REGISTER),
        Fields::Nothing => (0, 0, 0),
    }
}

/// Those of three registers that aren't `x0`, each where it comes first.
fn once(a: u8, b: u8, c: u8) -> Names
    ensures { result ≡ named.once a b c }
{
    let mut names = Names::new();
    names.push(a != 0, a);
    names.push(b != 0 && b != a, b);
    names.push(c != 0 && c != a && c != b, c);
    names
}

/// The registers that an instruction names, in the order of its fields.
#[tactic(auto, unfolding(crate::specs::Named::named))]
fn named(instr: &Instr) -> Names
    ensures { result ≡ named.named instr.now }
{
    let (first, second, last) = registers_of(instr);
    once(first, second, last)
}

/// The registers that the instruction which is fetched names, in the order of its fields: none if none is fetched.
pub fn named_by(instr: &Option<Instr>) -> Names
    ensures value { result ≡ named.named_by instr.now }
    ensures registers { named.AreRegisters result }
{
    names_are_registers();
    match instr {
        Some(instr) => named(instr),
        None => Names::new(),
    }
}
