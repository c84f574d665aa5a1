//! The operands of a mnemonic.
ghost use Rattle.std.specs.Prelude.{◌≡◌};
ghost use Rattle.rv_text.specs.Operands.{slots_of as the_slots_of, field_of as the_field_of, character as the_character};

use crate::field::Field;

/// A mark between operands.
#[derive(Clone, Copy, Debug, PartialEq, Eq)]
pub enum Mark {
    /// `,`
    Comma,
    /// `(`
    Open,
    /// `)`
    Close,
}

/// An operand's place.
#[derive(Clone, Copy, Debug, PartialEq, Eq)]
pub enum Slot {
    /// The last one, to the end of the line.
    Last(Field),
    /// One that ends at a mark.
    UpTo(Field, Mark),
}

/// How the operands of a mnemonic are written.
#[derive(Clone, Copy, Debug, PartialEq, Eq)]
pub enum Form {
    /// `rd, rs1, rs2`
    Registers,
    /// `rd, rs1, imm`
    Immediate,
    /// `rd, rs1, shamt`
    Shift,
    /// `rd, imm(rs1)`
    Based,
    /// `rs2, imm(rs1)`
    Store,
    /// `rs1, rs2, target`
    Branch,
    /// `rd, target`
    Jump,
    /// `rd, imm`
    Upper,
    /// No operand.
    Alone,
    /// A number, which is the word.
    Word,
}

/// The operands of a form.
pub fn slots_of(form: Form) -> &'static [Slot]
    ensures { result.now ≡ the_slots_of form }
{
    use Field::{
        BranchTarget, Immediate, JumpTarget, Rd, Rs1, Rs2, Shift, StoreOffset, Upper, Word,
    };
    use Mark::{Close, Comma, Open};
    use Slot::{Last, UpTo};
    match form {
        Form::Registers => &[UpTo(Rd, Comma), UpTo(Rs1, Comma), Last(Rs2)],
        Form::Immediate => &[UpTo(Rd, Comma), UpTo(Rs1, Comma), Last(Immediate)],
        Form::Shift => &[UpTo(Rd, Comma), UpTo(Rs1, Comma), Last(Shift)],
        Form::Based => &[UpTo(Rd, Comma), UpTo(Immediate, Open), UpTo(Rs1, Close)],
        Form::Store => &[UpTo(Rs2, Comma), UpTo(StoreOffset, Open), UpTo(Rs1, Close)],
        Form::Branch => &[UpTo(Rs1, Comma), UpTo(Rs2, Comma), Last(BranchTarget)],
        Form::Jump => &[UpTo(Rd, Comma), Last(JumpTarget)],
        Form::Upper => &[UpTo(Rd, Comma), Last(Upper)],
        Form::Alone => &[],
        Form::Word => &[Last(Word)],
    }
}

/// The field of a slot's operand.
pub fn field_of(slot: Slot) -> Field
    ensures { result ≡ the_field_of slot }
{
    match slot {
        Slot::Last(field) => field,
        Slot::UpTo(field, _) => field,
    }
}

/// The character of a mark.
pub fn character(mark: Mark) -> u8
    ensures { result ≡ the_character mark }
{
    match mark {
        Mark::Comma => b',',
        Mark::Open => b'(',
        Mark::Close => b')',
    }
}
