//! The rows of the mnemonics.
ghost use Rattle.std.specs.Prelude.{◌≡◌, ◌+◌, ◌<◌, ◌^◌, Some, IfSome};
ghost use Rattle.rv_text.specs.Rows.{row_in, register_rows, multiply_rows, immediate_rows, memory_rows, branch_rows, other_rows, row_named as the_row_named, most_in};
ghost use Rattle.rv_text.specs.Operands.{slots_of};

use crate::form::Form;

/// A mnemonic's operands, and its word without them.
#[derive(Clone, Copy, Debug, PartialEq, Eq)]
pub struct Row {
    /// How the operands are written.
    pub form: Form,
    /// The word whose operands are all 0.
    pub base: u32,
}

/// The row of a mnemonic.
pub fn row_named(name: &[u8]) -> Option<Row>
    ensures value { result ≡ the_row_named name.now }
    ensures fits { IfSome result (λ r. r.base + most_in (slots_of r.form) < 2 ^ 32) }
{
    first_row(name)
}

/// The row of a mnemonic, by groups.
#[tactic(auto, unfolding(crate::specs::Rows::row_named))]
fn first_row(name: &[u8]) -> Option<Row>
    ensures { result ≡ the_row_named name.now }
{
    immediate_row(name)
        .or_else(|| register_row(name))
        .or_else(|| memory_row(name))
        .or_else(|| branch_row(name))
        .or_else(|| other_row(name))
        .or_else(|| multiply_row(name))
}

/// Integer register-immediate instructions (2.4).
fn immediate_row(name: &[u8]) -> Option<Row>
    ensures { result ≡ row_in name.now immediate_rows }
{
    match name {
        b"addi" => make_row(Form::Immediate, 0x0000_0013),
        b"slti" => make_row(Form::Immediate, 0x0000_2013),
        b"sltiu" => make_row(Form::Immediate, 0x0000_3013),
        b"xori" => make_row(Form::Immediate, 0x0000_4013),
        b"ori" => make_row(Form::Immediate, 0x0000_6013),
        b"andi" => make_row(Form::Immediate, 0x0000_7013),
        b"slli" => make_row(Form::Shift, 0x0000_1013),
        b"srli" => make_row(Form::Shift, 0x0000_5013),
        b"srai" => make_row(Form::Shift, 0x4000_5013),
        _ => None,
    }
}

/// Integer register-register operations (RV32I, 2.4).
fn register_row(name: &[u8]) -> Option<Row>
    ensures { result ≡ row_in name.now register_rows }
{
    match name {
        b"add" => make_row(Form::Registers, 0x0000_0033),
        b"sub" => make_row(Form::Registers, 0x4000_0033),
        b"sll" => make_row(Form::Registers, 0x0000_1033),
        b"slt" => make_row(Form::Registers, 0x0000_2033),
        b"sltu" => make_row(Form::Registers, 0x0000_3033),
        b"xor" => make_row(Form::Registers, 0x0000_4033),
        b"srl" => make_row(Form::Registers, 0x0000_5033),
        b"sra" => make_row(Form::Registers, 0x4000_5033),
        b"or" => make_row(Form::Registers, 0x0000_6033),
        b"and" => make_row(Form::Registers, 0x0000_7033),
        _ => None,
    }
}

/// Loads, stores (2.6) and the jump to a register (2.5).
fn memory_row(name: &[u8]) -> Option<Row>
    ensures { result ≡ row_in name.now memory_rows }
{
    match name {
        b"lb" => make_row(Form::Based, 0x0000_0003),
        b"lh" => make_row(Form::Based, 0x0000_1003),
        b"lw" => make_row(Form::Based, 0x0000_2003),
        b"lbu" => make_row(Form::Based, 0x0000_4003),
        b"lhu" => make_row(Form::Based, 0x0000_5003),
        b"jalr" => make_row(Form::Based, 0x0000_0067),
        b"sb" => make_row(Form::Store, 0x0000_0023),
        b"sh" => make_row(Form::Store, 0x0000_1023),
        b"sw" => make_row(Form::Store, 0x0000_2023),
        _ => None,
    }
}

/// Jumps and branches (2.5).
fn branch_row(name: &[u8]) -> Option<Row>
    ensures { result ≡ row_in name.now branch_rows }
{
    match name {
        b"jal" => make_row(Form::Jump, 0x0000_006f),
        b"beq" => make_row(Form::Branch, 0x0000_0063),
        b"bne" => make_row(Form::Branch, 0x0000_1063),
        b"blt" => make_row(Form::Branch, 0x0000_4063),
        b"bge" => make_row(Form::Branch, 0x0000_5063),
        b"bltu" => make_row(Form::Branch, 0x0000_6063),
        b"bgeu" => make_row(Form::Branch, 0x0000_7063),
        _ => None,
    }
}

/// Upper immediates (2.4), the fence that orders everything (2.7), calls (2.8), and a word that is written as such.
fn other_row(name: &[u8]) -> Option<Row>
    ensures { result ≡ row_in name.now other_rows }
{
    match name {
        b"lui" => make_row(Form::Upper, 0x0000_0037),
        b"auipc" => make_row(Form::Upper, 0x0000_0017),
        b"fence" => make_row(Form::Alone, 0x0ff0_000f),
        b"ecall" => make_row(Form::Alone, 0x0000_0073),
        b"ebreak" => make_row(Form::Alone, 0x0010_0073),
        b".word" => make_row(Form::Word, 0x0000_0000),
        _ => None,
    }
}

/// RV32M (7.1 and 7.2).
fn multiply_row(name: &[u8]) -> Option<Row>
    ensures { result ≡ row_in name.now multiply_rows }
{
    match name {
        b"mul" => make_row(Form::Registers, 0x0200_0033),
        b"mulh" => make_row(Form::Registers, 0x0200_1033),
        b"mulhsu" => make_row(Form::Registers, 0x0200_2033),
        b"mulhu" => make_row(Form::Registers, 0x0200_3033),
        b"div" => make_row(Form::Registers, 0x0200_4033),
        b"divu" => make_row(Form::Registers, 0x0200_5033),
        b"rem" => make_row(Form::Registers, 0x0200_6033),
        b"remu" => make_row(Form::Registers, 0x0200_7033),
        _ => None,
    }
}

/// The row with these parts.
fn make_row(form: Form, base: u32) -> Option<Row>
    ensures { result ≡ Some (record { form = form; base = base }) }
{
    Some(Row { form, base })
}
