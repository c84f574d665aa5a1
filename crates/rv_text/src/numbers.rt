//! Numbers and registers as they are written. A number of 2^32 or more counts as 2^32, which is in no range.
ghost use Rattle.std.specs.Prelude.{◌≡◌, ◌≤◌, option_map, pos, neg_ℤ, true, IfSome};
ghost use Rattle.rv_text.specs.Fields.{within};
ghost use Rattle.std.specs.Char.{digit_value as the_digit_value};
ghost use Rattle.std.specs.Str.Parse.{digits_value};
ghost use Rattle.rv_text.specs.Numbers.{natural_of_text, hex_of_text, number_of_text, register_of_text as the_register_in};
ghost use Rattle.rv_text.specs.Capped.{capped as the_capped, capped_integer};

use crate::class::{Class, is_every};

/// What larger numbers count as.
const CAP: u64 = 4_294_967_296;

/// The number that a text is, capped on both sides: decimal with an optional `-`, or `0x` and hexadecimal digits.
pub fn number(text: &[u8]) -> Option<i64>
    ensures { result ≡ option_map capped_integer (number_of_text text.now) }
{
    match text {
        [b'-', digits @ ..] => negative(digits),
        [b'0', b'x', digits @ ..] => hexadecimal(digits),
        _ => positive(text),
    }
}

/// The number that a text is in decimal, capped.
fn positive(text: &[u8]) -> Option<i64>
    ensures { result ≡ option_map capped_integer (option_map pos (natural_of_text text.now)) }
{
    Some(signed(natural(text)?))
}

/// A capped number as an integer.
fn signed(n: u64) -> i64
    requires { n ≤ 4294967296 }
    ensures { result ≡ pos n }
{
    n as i64
}

/// The number that a text is in decimal behind a `-`, capped.
#[tactic(auto, using(crate::proofs::digits::CappedLemmas::sign_rules))]
fn negative(digits: &[u8]) -> Option<i64>
    ensures { result ≡ option_map capped_integer (option_map (λ n. neg_ℤ (pos n)) (natural_of_text digits.now)) }
{
    Some(negated(natural(digits)?))
}

/// The negative of a capped number.
fn negated(n: u64) -> i64
    requires { n ≤ 4294967296 }
    ensures { result ≡ neg_ℤ (pos n) }
{
    -(n as i64)
}

/// The number that hexadecimal digits are, capped.
fn hexadecimal(digits: &[u8]) -> Option<i64>
    ensures { result ≡ option_map capped_integer (option_map pos (hex_of_text digits.now)) }
{
    if !digits.is_empty() && is_every(digits, Class::Hexadecimal) {
        Some(signed(value_in(16, digits)))
    } else {
        None
    }
}

/// The number of a register, `x0` to `x31`, and `None` if the text is none of them.
pub fn register_in(text: &[u8]) -> Option<i64>
    ensures value { result ≡ the_register_in text.now }
    ensures in_range { IfSome result (λ z. within (pos 0) (pos 31) z ≡ true) }
{
    match text {
        [b'x', digits @ ..] => {
            let n = natural(digits)?;
            if n < 32 { Some(n as i64) } else { None }
        }
        _ => None,
    }
}

/// The natural number that a text is in decimal, capped, and `None` if it is another text or has leading zeros.
fn natural(text: &[u8]) -> Option<u64>
    ensures { result ≡ option_map the_capped (natural_of_text text.now) }
{
    let is_form = match text {
        [] => false,
        [b'0', _, ..] => false,
        _ => is_every(text, Class::Decimal),
    };
    if is_form {
        Some(value_in(10, text))
    } else {
        None
    }
}

/// The number that digits are in a base, capped.
#[tactic(auto, using(crate::proofs::digits::CappedLemmas::value_rules))]
fn value_in(base: u32, digits: &[u8]) -> u64
    ensures value { result ≡ the_capped (digits_value base digits.now) }
    ensures most { result ≤ 4294967296 }
{
    let mut n = 0;
    'digits: for c in digits {
        n = capped(n * base as u64 + digit_value(*c));
    }
    n
}

/// The number, but at most the cap.
fn capped(n: u64) -> u64
    ensures value { result ≡ the_capped n }
    ensures most { result ≤ 4294967296 }
{
    if n < CAP { n } else { CAP }
}

/// The value of a digit, and 36 of another character.
fn digit_value(c: u8) -> u64
    ensures value { result ≡ the_digit_value c }
    ensures most { result ≤ 36 }
{
    match c {
        b'0'..=b'9' => (c - b'0') as u64,
        b'A'..=b'Z' => (c - b'A' + 10) as u64,
        b'a'..=b'z' => (c - b'a' + 10) as u64,
        _ => 36,
    }
}
