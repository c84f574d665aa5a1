//! Laws of the arithmetic on words in the manual's sentences (RISC-V Unprivileged ISA 20191213, chapters 2 and 7), each the contract of
//! a function that changes nothing.
ghost use Rattle.std.specs.Prelude.{◌≡◌, ℕ, ◌^◌, ◌<◌, ◌≤◌};
ghost use Rattle.std.specs.Int.{bit_at};
ghost use Rattle.mem_plain.specs.Contents.{Contents};
ghost use Rattle.rv_step.specs.ArithmeticLaws.{AreSums, AreProducts, DividesUnsigned, DividesSigned, MovesBits, ExtendsBits, CombinesBits, IsLoadedBack};

use mem_plain::laying_bytes;

/// Sums and differences of words are those of their values as far as these are in range, and else modulo 2^32, signed or unsigned (ADD,
/// ADDI, SUB).
pub fn sums_are_of_values()
    ensures { (a b : ℕ) → a < 2 ^ 32 → b < 2 ^ 32 → AreSums a b }
{}

/// The high and the low word of a product are the product of the values, in each form (MUL, MULH, MULHSU, MULHU).
pub fn products_have_two_words()
    ensures { (a b : ℕ) → a < 2 ^ 32 → b < 2 ^ 32 → AreProducts a b }
{}

/// The dividend is the divisor times the quotient plus the remainder, modulo 2^32, by every divisor. By zero all bits of the quotient are
/// set, and the remainder is the dividend. By another divisor a remainder is smaller than it, signed ones by absolute values, and a signed
/// one is 0 or has the sign of the dividend (DIV, DIVU, REM, REMU).
pub fn dividends_come_back()
    ensures unsigned { (a b : ℕ) → a < 2 ^ 32 → b < 2 ^ 32 → DividesUnsigned a b }
    ensures signed { (a b : ℕ) → a < 2 ^ 32 → b < 2 ^ 32 → DividesSigned a b }
{}

/// Each bit of a shifted word is a bit of that word, 0, or the sign bit (SLL, SRL, SRA and those by a number in the instruction).
pub fn shifts_move_bits()
    ensures { (a places : ℕ) → a < 2 ^ 32 → places < 32 → MovesBits a places }
{}

/// Each bit of an extended number is one of its own, 0, or its highest bit (LB, LH, LBU, LHU).
pub fn extensions_keep_bits()
    ensures { (width n : ℕ) → 1 ≤ width → width ≤ 4 → ExtendsBits width n }
{}

/// Each bit of AND, OR and XOR is made of the two bits at its place (`combined`), and two words with the same bits are one (`same`).
pub fn words_are_their_bits()
    ensures combined { (a b : ℕ) → CombinesBits a b }
    ensures same { (a b : ℕ) → a < 2 ^ 32 → b < 2 ^ 32 → ((i : ℕ) → i < 32 → bit_at a i ≡ bit_at b i) → a ≡ b }
{}

/// What is loaded is what was stored at that address by a store of the same width (LB, LH, LW, LBU, LHU after SB, SH, SW).
pub fn stores_are_loaded()
    ensures { (m : Contents) (addr width value : ℕ) → IsLoadedBack m addr width value }
{
    laying_bytes();
}
