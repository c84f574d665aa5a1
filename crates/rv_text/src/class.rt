//! Runs of characters.
ghost use Rattle.std.specs.Prelude.{◌≡◌};
ghost use Rattle.std.specs.List.{list_all};
ghost use Rattle.rv_text.specs.Characters.{run, behind, skip as the_skip, is_name as the_is_name};
ghost use Rattle.rv_text.specs.Classes.{is_of as the_is_of};

/// A class of characters.
#[derive(Clone, Copy, Debug, PartialEq, Eq)]
pub enum Class {
    /// Space and tab.
    Blank,
    /// The digits of a decimal number.
    Decimal,
    /// The digits of a hexadecimal number, of either case.
    Hexadecimal,
    /// Letters, digits and `_`.
    Name,
    /// Letters, digits, `_` and `.`.
    Mnemonic,
    /// Letters, digits, `_`, `.` and `-`.
    Operand,
    /// All but `#`.
    Code,
    /// All but the line feed.
    Line,
}

/// The longest run of such characters that a text begins with, and what is behind it.
pub fn split_run(text: &[u8], class: Class) -> (&[u8], &[u8])
    ensures run { result.0.now ≡ run (the_is_of class) text.now }
    ensures behind { result.1.now ≡ behind (the_is_of class) text.now }
{
    let mut n = 0;
    while n < text.len() && is_of(class, text[n]) {
        n += 1;
    }
    (&text[..n], &text[n..])
}

/// Whether a character is of a class.
fn is_of(class: Class, c: u8) -> bool
    ensures { result ≡ the_is_of class c }
{
    match class {
        Class::Blank => c == b' ' || c == b'\t',
        Class::Decimal => c.is_ascii_digit(),
        Class::Hexadecimal => c.is_ascii_hexdigit(),
        Class::Name => c.is_ascii_alphanumeric() || c == b'_',
        Class::Mnemonic => c.is_ascii_alphanumeric() || c == b'_' || c == b'.',
        Class::Operand => c.is_ascii_alphanumeric() || c == b'_' || c == b'.' || c == b'-',
        Class::Code => c != b'#',
        Class::Line => c != b'\n',
    }
}

/// The text without the blanks that it begins with.
pub fn skip(text: &[u8]) -> &[u8]
    ensures { result.now ≡ the_skip text.now }
{
    let (_, rest) = split_run(text, Class::Blank);
    rest
}

/// Whether it is a name: a letter or `_`, then letters, digits and `_`.
pub fn is_name(text: &[u8]) -> bool
    ensures { result ≡ the_is_name text.now }
{
    match text {
        [first, rest @ ..] => {
            (first.is_ascii_alphabetic() || *first == b'_') && is_every(rest, Class::Name)
        }
        [] => false,
    }
}

/// Whether all characters are of a class.
#[tactic(auto, using(crate::proofs::Runs::every_rules))]
pub fn is_every(text: &[u8], class: Class) -> bool
    ensures { result ≡ list_all (the_is_of class) text.now }
{
    let (_, rest) = split_run(text, class);
    rest.is_empty()
}
