//! What an operand may be, and where its value goes in the word.
ghost use Rattle.std.specs.Prelude.{◌≡◌, ◌<◌, ◌≤◌, ◌^◌, true, unsigned_abs};
ghost use Rattle.rv_decode.specs.Bits.{twos_complement};
ghost use Rattle.rv_text.specs.Fields.{is_in as the_is_in, is_register as the_is_register, is_target as the_is_target, store_bits as the_store_bits, branch_bits as the_branch_bits, jump_bits as the_jump_bits, placed_at as the_placed_at, most_at};

/// What an operand is: a part of the word with its range.
#[derive(Clone, Copy, Debug, PartialEq, Eq)]
pub enum Field {
    /// The register that is written.
    Rd,
    /// The first register that is read.
    Rs1,
    /// The second register that is read.
    Rs2,
    /// The number of the I-type.
    Immediate,
    /// By how many places is shifted.
    Shift,
    /// The number of the S-type.
    StoreOffset,
    /// Where a branch goes.
    BranchTarget,
    /// Where a jump goes.
    JumpTarget,
    /// The upper twenty bits.
    Upper,
    /// A whole word.
    Word,
}

/// Whether a value is in the field's range.
pub fn is_in(field: Field, value: i64) -> bool
    ensures { result ≡ the_is_in field value }
{
    match field {
        Field::Rd | Field::Rs1 | Field::Rs2 | Field::Shift => 0 <= value && value <= 31,
        Field::Immediate | Field::StoreOffset => -2_048 <= value && value <= 2_047,
        Field::BranchTarget => -4_096 <= value && value <= 4_094 && value % 2 == 0,
        Field::JumpTarget => -1_048_576 <= value && value <= 1_048_574 && value % 2 == 0,
        Field::Upper => 0 <= value && value <= 1_048_575,
        Field::Word => 0 <= value && value <= 4_294_967_295,
    }
}

/// Whether the operand is a register.
pub fn is_register(field: Field) -> bool
    ensures { result ≡ the_is_register field }
{
    matches!(field, Field::Rd | Field::Rs1 | Field::Rs2)
}

/// Whether the operand may be a name.
pub fn is_target(field: Field) -> bool
    ensures { result ≡ the_is_target field }
{
    matches!(field, Field::BranchTarget | Field::JumpTarget)
}

/// The bits of a field's value in the word.
pub fn placed_at(field: Field, value: i64) -> u32
    requires { the_is_in field value ≡ true }
    ensures placed { result ≡ the_placed_at field value }
    ensures most { result ≤ most_at field }
{
    match field {
        Field::Rd => (value as u32) << 7,
        Field::Rs1 => (value as u32) << 15,
        Field::Rs2 | Field::Shift => (value as u32) << 20,
        Field::Immediate => twos_complement(12, value) << 20,
        Field::StoreOffset => store_bits(twos_complement(12, value)),
        Field::BranchTarget => branch_bits(twos_complement(13, value)),
        Field::JumpTarget => jump_bits(twos_complement(21, value)),
        Field::Upper => (value as u32) << 12,
        Field::Word => value as u32,
    }
}

/// A number in two's complement of this many bits.
fn twos_complement(width: u32, value: i64) -> u32
    requires width_to { width ≤ 31 }
    requires value_fits { unsigned_abs value < 2 ^ width }
    ensures { result ≡ twos_complement width value }
{
    if value >= 0 {
        value as u32
    } else {
        ((1i64 << width) + value) as u32
    }
}

/// The bits of a store's offset in the word: 4 to 0, and 11 to 5.
fn store_bits(n: u32) -> u32
    requires { n < 2 ^ 12 }
    ensures { result ≡ the_store_bits n }
{
    (n % 32 << 7) + (n / 32 << 25)
}

/// The bits of a branch's offset in the word: 11, 4 to 1, 10 to 5 and 12.
fn branch_bits(n: u32) -> u32
    requires { n < 2 ^ 13 }
    ensures { result ≡ the_branch_bits n }
{
    (n / 2_048 % 2 << 7) + (n / 2 % 16 << 8) + (n / 32 % 64 << 25) + (n / 4_096 << 31)
}

/// The bits of a jump's offset in the word: 19 to 12, 11, 10 to 1 and 20.
fn jump_bits(n: u32) -> u32
    requires { n < 2 ^ 21 }
    ensures { result ≡ the_jump_bits n }
{
    (n / 4_096 % 256 << 12) + (n / 2_048 % 2 << 20) + (n / 2 % 1_024 << 21) + (n / 1_048_576 << 31)
}
