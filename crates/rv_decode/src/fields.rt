//! The fields of an instruction, by the form of its word.
ghost use Rattle.std.specs.Prelude.{◌≡◌};
ghost use Rattle.rv_decode.specs.Fields as fields;

use crate::instr::{BType, IType, Instr, JType, RType, SType, ShiftType, UType};

/// The fields of an instruction, whichever instruction of its form it is.
#[derive(Clone, Copy, Debug)]
pub enum Fields {
    /// Those of an instruction that computes from two registers.
    R(RType),
    /// Those of an instruction that computes from one register and a number, of a load, and of `jalr`.
    I(IType),
    /// Those of a shift by a number.
    Shift(ShiftType),
    /// Those of a store.
    S(SType),
    /// Those of a branch.
    B(BType),
    /// Those of an instruction with the upper bits of a number.
    U(UType),
    /// Those of `jal`.
    J(JType),
    /// An `ecall` has no fields: the environment decides what it reads and writes.
    Call,
    /// The bits of a fence, which a machine of one thread ignores, and those of an `ebreak` name no register and no number.
    Nothing,
}

/// The fields of an instruction.
#[tactic(auto, unfolding(crate::specs::Fields::fields_of))]
pub fn fields_of(instr: &Instr) -> Fields
    ensures { result ≡ fields.fields_of instr.now }
{
    match instr {
        Instr::Lui(i) => Fields::U(*i),
        Instr::Auipc(i) => Fields::U(*i),
        Instr::Jal(i) => Fields::J(*i),
        Instr::Jalr(i) => Fields::I(*i),
        Instr::Beq(i) => Fields::B(*i),
        Instr::Bne(i) => Fields::B(*i),
        Instr::Blt(i) => Fields::B(*i),
        Instr::Bge(i) => Fields::B(*i),
        Instr::Bltu(i) => Fields::B(*i),
        Instr::Bgeu(i) => Fields::B(*i),
        Instr::Lb(i) => Fields::I(*i),
        Instr::Lh(i) => Fields::I(*i),
        Instr::Lw(i) => Fields::I(*i),
        Instr::Lbu(i) => Fields::I(*i),
        Instr::Lhu(i) => Fields::I(*i),
        Instr::Sb(i) => Fields::S(*i),
        Instr::Sh(i) => Fields::S(*i),
        Instr::Sw(i) => Fields::S(*i),
        Instr::Addi(i) => Fields::I(*i),
        Instr::Slti(i) => Fields::I(*i),
        Instr::Sltiu(i) => Fields::I(*i),
        Instr::Xori(i) => Fields::I(*i),
        Instr::Ori(i) => Fields::I(*i),
        Instr::Andi(i) => Fields::I(*i),
        Instr::Slli(i) => Fields::Shift(*i),
        Instr::Srli(i) => Fields::Shift(*i),
        Instr::Srai(i) => Fields::Shift(*i),
        Instr::Add(i) => Fields::R(*i),
        Instr::Sub(i) => Fields::R(*i),
        Instr::Sll(i) => Fields::R(*i),
        Instr::Slt(i) => Fields::R(*i),
        Instr::Sltu(i) => Fields::R(*i),
        Instr::Xor(i) => Fields::R(*i),
        Instr::Srl(i) => Fields::R(*i),
        Instr::Sra(i) => Fields::R(*i),
        Instr::Or(i) => Fields::R(*i),
        Instr::And(i) => Fields::R(*i),
        Instr::Mul(i) => Fields::R(*i),
        Instr::Mulh(i) => Fields::R(*i),
        Instr::Mulhsu(i) => Fields::R(*i),
        Instr::Mulhu(i) => Fields::R(*i),
        Instr::Div(i) => Fields::R(*i),
        Instr::Divu(i) => Fields::R(*i),
        Instr::Rem(i) => Fields::R(*i),
        Instr::Remu(i) => Fields::R(*i),
        Instr::Fence(_) => Fields::Nothing,
        Instr::Ecall => Fields::Call,
        Instr::Ebreak => Fields::Nothing,
    }
}
