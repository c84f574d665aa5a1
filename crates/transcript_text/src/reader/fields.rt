//! Fields at the front of a line, and where bytes are cut. Each reader of a field gives it and the bytes behind it.
ghost use Rattle.std.specs.Prelude.{◌≡◌, ◌≤◌, IfOk, ◌<◌, length, IfSome};
ghost use Rattle.std.specs.Option.{option_copied, option_map};
ghost use Rattle.rd_base.specs.Results.{Gives};
ghost use Rattle.transcript_text.specs.reader.Fields.{behind_word, skip_word, digits_at, decimal_at, small_number_at, number_after, are_lower, bytes_in_hex, some_bytes_in_hex, digest_in_hex, answer_in_hex, name_among, name_at};
ghost use Rattle.transcript_text.specs.reader.TextLines.{cut_at};

use crate::reader::fault::LineFault;
use digest_core::DigestName;
use hex::FromHexError;
use proof_wire::{WireFault, decode};
use rd_base::{Answer, Digest32};
use std::alloc::Global;

/// The least number that needs more than 32 bits.
const TOO_LARGE: u64 = 4_294_967_296;

/// The bytes behind a word, if they begin with it.
pub(crate) fn behind_word<'a>(bytes: &'a [u8], word: &[u8]) -> Option<&'a [u8]>
    ensures { option_copied result ≡ behind_word word.now bytes.now }
{
    let mut rest = bytes;
    'word: for letter in word {
        match rest {
            [] => return None,
            [first, others @ ..] => {
                if first != letter {
                    return None;
                }
                rest = others;
            }
        }
    }
    Some(rest)
}

/// The bytes behind a word.
pub(crate) fn skip_word<'a>(bytes: &'a [u8], word: &[u8]) -> Result<&'a [u8], LineFault>
    ensures { Gives LineFault.Memory (λ rest. rest.now) result (skip_word word.now bytes.now) }
{
    behind_word(bytes, word).ok_or(LineFault::NoForm)
}

/// The digits at the front, after those of the number so far.
fn read_digits(so_far: u64, bytes: &[u8]) -> (u64, &[u8])
    requires { so_far ≤ 4294967296 }
    ensures is { digits_at so_far bytes.now ≡ (result.0, result.1.now) }
    ensures small { result.0 ≤ 4294967296 }
{
    let mut number = so_far;
    'digits: for (i, byte) in bytes.iter().enumerate() {
        if *byte < b'0' || b'9' < *byte {
            return (number, &bytes[i..]);
        }
        number = (10 * number + u64::from(*byte - b'0')).min(TOO_LARGE);
    }
    (number, &bytes[bytes.len()..])
}

/// A number. One that needs more than 32 bits is 2^32.
#[tactic(auto, unfolding(crate::specs::reader::Fields::decimal_at))]
fn read_number(bytes: &[u8]) -> Result<(u64, &[u8]), LineFault>
    ensures is { Gives LineFault.Memory (λ x. (x.0, x.1.now)) result (decimal_at bytes.now) }
    ensures small { IfOk result (λ x. x.0 ≤ 4294967296) }
{
    match bytes {
        [] => Err(LineFault::NoForm),
        [byte, rest @ ..] => {
            if *byte == b'0' {
                Ok((0, rest))
            } else if b'0' <= *byte && *byte <= b'9' {
                Ok(read_digits(u64::from(*byte - b'0'), rest))
            } else {
                Err(LineFault::NoForm)
            }
        }
    }
}

/// A number of at most 32 bits.
#[tactic(auto, unfolding(crate::specs::reader::Fields::small_number_at))]
pub(crate) fn read_small_number(bytes: &[u8]) -> Result<(u32, &[u8]), LineFault>
    ensures { Gives LineFault.Memory (λ x. (x.0, x.1.now)) result (small_number_at bytes.now) }
{
    let (number, rest) = read_number(bytes)?;
    if number < TOO_LARGE {
        Ok((number as u32, rest))
    } else {
        Err(LineFault::NoForm)
    }
}

/// A number behind a word.
#[tactic(auto, unfolding(crate::specs::reader::Fields::number_after))]
pub(crate) fn read_number_after<'a>(
    bytes: &'a [u8],
    word: &[u8],
) -> Result<(u64, &'a [u8]), LineFault>
    ensures { Gives LineFault.Memory (λ x. (x.0, x.1.now)) result (number_after word.now bytes.now) }
{
    let behind = skip_word(bytes, word)?;
    read_number(behind)
}

/// Whether no byte is a digit of upper case.
fn are_lower(digits: &[u8]) -> bool
    ensures { result ≡ are_lower digits.now }
{
    'digits: for digit in digits {
        if b'A' <= *digit && *digit <= b'F' {
            return false;
        }
    }
    true
}

/// The bytes of hexadecimal digits of lower case.
#[tactic(auto, unfolding(crate::specs::reader::Fields::bytes_in_hex))]
fn read_hex(alloc: Global, digits: &[u8]) -> Result<Vec<u8>, LineFault>
    ensures { Gives LineFault.Memory (λ bytes. bytes.items) result (bytes_in_hex digits.now) }
{
    if !are_lower(digits) {
        return Err(LineFault::NoForm);
    }
    match hex::decode(alloc, digits) {
        Ok(bytes) => Ok(bytes),
        Err(FromHexError::OutOfMemory) => Err(LineFault::Memory),
        Err(_) => Err(LineFault::NoForm),
    }
}

/// At least one byte, of hexadecimal digits of lower case.
#[tactic(auto, unfolding(crate::specs::reader::Fields::some_bytes_in_hex))]
pub(crate) fn read_some_hex(alloc: Global, digits: &[u8]) -> Result<Vec<u8>, LineFault>
    ensures { Gives LineFault.Memory (λ bytes. bytes.items) result (some_bytes_in_hex digits.now) }
{
    let bytes = read_hex(alloc, digits)?;
    if bytes.len() == 0 {
        return Err(LineFault::NoForm);
    }
    Ok(bytes)
}

/// A digest, of 64 digits.
#[tactic(auto, unfolding(crate::specs::reader::Fields::digest_in_hex))]
pub(crate) fn read_digest(alloc: Global, digits: &[u8]) -> Result<Digest32, LineFault>
    ensures { Gives LineFault.Memory (λ digest. digest) result (digest_in_hex digits.now) }
{
    let bytes = read_hex(alloc, digits)?;
    if bytes.len() != 32 {
        return Err(LineFault::NoForm);
    }
    let mut digest = [0; 32];
    digest.copy_from_slice(bytes.as_slice());
    Ok(Digest32(digest))
}

/// An answer, of the digits of its wire form.
#[tactic(auto, unfolding(crate::specs::reader::Fields::answer_in_hex))]
pub(crate) fn read_answer(alloc: Global, digits: &[u8]) -> Result<Answer, LineFault>
    ensures { Gives LineFault.Memory (λ answer. answer) result (answer_in_hex digits.now) }
{
    let bytes = read_hex(alloc, digits)?;
    match decode(alloc, bytes.as_slice()) {
        Ok(answer) => Ok(answer),
        Err(WireFault::Memory) => Err(LineFault::Memory),
        Err(_) => Err(LineFault::NoForm),
    }
}

/// The first of these digests with whose name the bytes begin.
fn read_name_among<'a>(
    names: &[DigestName],
    bytes: &'a [u8],
) -> Result<(DigestName, &'a [u8]), LineFault>
    ensures { Gives LineFault.Memory (λ x. (x.0, x.1.now)) result (name_among names.now bytes.now) }
{
    'names: for name in names {
        if let Some(rest) = behind_word(bytes, name.text().as_bytes()) {
            return Ok((*name, rest));
        }
    }
    Err(LineFault::NoForm)
}

/// The name of a digest.
#[tactic(auto, unfolding(crate::specs::reader::Fields::name_at))]
pub(crate) fn read_name(bytes: &[u8]) -> Result<(DigestName, &[u8]), LineFault>
    ensures { Gives LineFault.Memory (λ x. (x.0, x.1.now)) result (name_at bytes.now) }
{
    read_name_among(&DigestName::ALL, bytes)
}

/// The bytes before the first byte of this value, and those behind it. `None` if there is no such byte.
#[tactic(auto, using(crate::proofs::read_back::LineLemmas::cuts))]
pub(crate) fn cut_at(bytes: &[u8], value: u8) -> Option<(&[u8], &[u8])>
    ensures is { option_map (λ x. (x.0.now, x.1.now)) result ≡ cut_at value bytes.now }
    ensures shorter { IfSome result (λ x. length x.1.now < length bytes.now) }
{
    'bytes: for (i, byte) in bytes.iter().enumerate() {
        if *byte == value {
            return Some((&bytes[..i], &bytes[i + 1..]));
        }
    }
    None
}
