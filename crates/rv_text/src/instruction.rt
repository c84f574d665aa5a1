//! The line of an instruction.
ghost use Rattle.std.specs.Prelude.{◌≡◌, ◌++◌, ◌/◌, ◌^◌, false, string_bytes, OnOk};
ghost use Rattle.rv_decode.specs.Bits.{twos_complement};
ghost use Rattle.rv_text.specs.Spelling.{spelled_registers, spelled_immediate, spelled_shifted, spelled_based, spelled_stored, spelled_branch, spelled_jump, spelled_upper, is_fence, spelling_of};
ghost use Rattle.rv_text.specs.Listing.{spelling_text};

use rv_decode::{BType, IType, Instr, JType, RType, SType, ShiftType, UType};
use std::alloc::AllocError;
use std::fmt::Write;

/// Adds the line of an instruction that isn't a fence.
#[tactic(auto, unfolding(crate::specs::Spelling::spelling_of))]
pub fn add_instruction(text: &mut String, i: Instr) -> Result<(), AllocError>
    requires { is_fence i ≡ false }
    ensures { OnOk result (string_bytes text.new ≡ string_bytes text.old ++ spelling_text (spelling_of i)) }
{
    match i {
        Instr::Lui(t) => add_upper(text, "lui", t),
        Instr::Auipc(t) => add_upper(text, "auipc", t),
        Instr::Jal(t) => add_jump(text, "jal", t),
        Instr::Jalr(t) => add_based(text, "jalr", t),
        Instr::Beq(t) => add_branch(text, "beq", t),
        Instr::Bne(t) => add_branch(text, "bne", t),
        Instr::Blt(t) => add_branch(text, "blt", t),
        Instr::Bge(t) => add_branch(text, "bge", t),
        Instr::Bltu(t) => add_branch(text, "bltu", t),
        Instr::Bgeu(t) => add_branch(text, "bgeu", t),
        Instr::Lb(t) => add_based(text, "lb", t),
        Instr::Lh(t) => add_based(text, "lh", t),
        Instr::Lw(t) => add_based(text, "lw", t),
        Instr::Lbu(t) => add_based(text, "lbu", t),
        Instr::Lhu(t) => add_based(text, "lhu", t),
        Instr::Sb(t) => add_stored(text, "sb", t),
        Instr::Sh(t) => add_stored(text, "sh", t),
        Instr::Sw(t) => add_stored(text, "sw", t),
        Instr::Addi(t) => add_immediate(text, "addi", t),
        Instr::Slti(t) => add_immediate(text, "slti", t),
        Instr::Sltiu(t) => add_immediate(text, "sltiu", t),
        Instr::Xori(t) => add_immediate(text, "xori", t),
        Instr::Ori(t) => add_immediate(text, "ori", t),
        Instr::Andi(t) => add_immediate(text, "andi", t),
        Instr::Slli(t) => add_shifted(text, "slli", t),
        Instr::Srli(t) => add_shifted(text, "srli", t),
        Instr::Srai(t) => add_shifted(text, "srai", t),
        Instr::Add(t) => add_registers(text, "add", t),
        Instr::Sub(t) => add_registers(text, "sub", t),
        Instr::Sll(t) => add_registers(text, "sll", t),
        Instr::Slt(t) => add_registers(text, "slt", t),
        Instr::Sltu(t) => add_registers(text, "sltu", t),
        Instr::Xor(t) => add_registers(text, "xor", t),
        Instr::Srl(t) => add_registers(text, "srl", t),
        Instr::Sra(t) => add_registers(text, "sra", t),
        Instr::Or(t) => add_registers(text, "or", t),
        Instr::And(t) => add_registers(text, "and", t),
        Instr::Mul(t) => add_registers(text, "mul", t),
        Instr::Mulh(t) => add_registers(text, "mulh", t),
        Instr::Mulhsu(t) => add_registers(text, "mulhsu", t),
        Instr::Mulhu(t) => add_registers(text, "mulhu", t),
        Instr::Div(t) => add_registers(text, "div", t),
        Instr::Divu(t) => add_registers(text, "divu", t),
        Instr::Rem(t) => add_registers(text, "rem", t),
        Instr::Remu(t) => add_registers(text, "remu", t),
        Instr::Fence(_) => Ok(()),
        Instr::Ecall => text.push_str("ecall"),
        Instr::Ebreak => text.push_str("ebreak"),
    }
}

/// Adds a mnemonic with `rd, rs1, rs2`.
fn add_registers(text: &mut String, name: &str, t: RType) -> Result<(), AllocError>
    ensures { OnOk result (string_bytes text.new ≡ string_bytes text.old ++ spelling_text (spelled_registers name.now t)) }
{
    write!(text, "{name} x{}, x{}, x{}", t.rd, t.rs1, t.rs2)
}

/// Adds a mnemonic with `rd, rs1, imm`.
fn add_immediate(text: &mut String, name: &str, t: IType) -> Result<(), AllocError>
    ensures { OnOk result (string_bytes text.new ≡ string_bytes text.old ++ spelling_text (spelled_immediate name.now t)) }
{
    write!(text, "{name} x{}, x{}, {}", t.rd, t.rs1, t.imm)
}

/// Adds a mnemonic with `rd, rs1, shamt`.
fn add_shifted(text: &mut String, name: &str, t: ShiftType) -> Result<(), AllocError>
    ensures { OnOk result (string_bytes text.new ≡ string_bytes text.old ++ spelling_text (spelled_shifted name.now t)) }
{
    write!(text, "{name} x{}, x{}, {}", t.rd, t.rs1, t.imm)
}

/// Adds a mnemonic with `rd, imm(rs1)`.
fn add_based(text: &mut String, name: &str, t: IType) -> Result<(), AllocError>
    ensures { OnOk result (string_bytes text.new ≡ string_bytes text.old ++ spelling_text (spelled_based name.now t)) }
{
    write!(text, "{name} x{}, {}(x{})", t.rd, t.imm, t.rs1)
}

/// Adds a mnemonic with `rs2, imm(rs1)`.
fn add_stored(text: &mut String, name: &str, t: SType) -> Result<(), AllocError>
    ensures { OnOk result (string_bytes text.new ≡ string_bytes text.old ++ spelling_text (spelled_stored name.now t)) }
{
    write!(text, "{name} x{}, {}(x{})", t.rs2, t.imm, t.rs1)
}

/// Adds a mnemonic with `rs1, rs2, target`.
fn add_branch(text: &mut String, name: &str, t: BType) -> Result<(), AllocError>
    ensures { OnOk result (string_bytes text.new ≡ string_bytes text.old ++ spelling_text (spelled_branch name.now t)) }
{
    write!(text, "{name} x{}, x{}, {}", t.rs1, t.rs2, t.imm)
}

/// Adds a mnemonic with `rd, target`.
fn add_jump(text: &mut String, name: &str, t: JType) -> Result<(), AllocError>
    ensures { OnOk result (string_bytes text.new ≡ string_bytes text.old ++ spelling_text (spelled_jump name.now t)) }
{
    write!(text, "{name} x{}, {}", t.rd, t.imm)
}

/// Adds a mnemonic with `rd, imm`.
fn add_upper(text: &mut String, name: &str, t: UType) -> Result<(), AllocError>
    ensures { OnOk result (string_bytes text.new ≡ string_bytes text.old ++ spelling_text (spelled_upper name.now t)) }
{
    let upper = upper_of(t.imm);
    write!(text, "{name} x{}, {upper}", t.rd)
}

/// The upper twenty bits of a number.
fn upper_of(imm: i32) -> u32
    ensures { result ≡ twos_complement 32 imm / 2 ^ 12 }
{
    if imm >= 0 {
        imm as u32 / 4_096
    } else {
        1_048_575 - (-1 - imm) as u32 / 4_096
    }
}
