//! Fields at the front of some bytes. Each function gives the field and the bytes behind it.
ghost use Rattle.std.specs.Prelude.{◌≡◌, ◌≤◌, ◌+◌, ◌*◌, length, Ok, IfOk};
ghost use Rattle.proof_wire.specs.Reading.{IsExactly, block_ahead, byte_ahead, word_ahead, double_word_ahead, digest_ahead, each_ahead, status_of, status_ahead, control_ahead, registers_ahead, opening_ahead, register_opening_ahead, input_opening_ahead, optional_ahead, at_most, has_flag};

use crate::fault::WireFault;
use crate::layout::{
    EXITED, INPUT_OPENING_BYTES, OPENING_BYTES, REGISTER_OPENING_BYTES, RUNNING, TRAPPED,
};
use rd_base::{
    Ctl, Digest32, InOpening, InPath, Opening, Path, RegOpening, RegOpenings, RegPath, Regs, Status,
};

/// A byte.
#[tactic(auto, unfolding(crate::specs::Reading::byte_ahead))]
pub fn read_byte(bytes: &[u8]) -> (u8, &[u8])
    requires { 1 ≤ length bytes.now }
    ensures read { byte_ahead bytes.now ≡ Ok (result.0, result.1.now) }
    ensures rest { length bytes.now ≡ length result.1.now + 1 }
{
    (bytes[0], &bytes[1..])
}

/// A number of four bytes.
#[tactic(auto, unfolding(crate::specs::Reading::word_ahead))]
pub fn read_word(bytes: &[u8]) -> (u32, &[u8])
    requires { 4 ≤ length bytes.now }
    ensures read { word_ahead bytes.now ≡ Ok (result.0, result.1.now) }
    ensures rest { length bytes.now ≡ length result.1.now + 4 }
{
    let (front, rest) = bytes.split_at(4);
    let number = u32::from_le_bytes([front[0], front[1], front[2], front[3]]);
    (number, rest)
}

/// A number of eight bytes.
#[tactic(auto, unfolding(crate::specs::Reading::double_word_ahead))]
pub fn read_double_word(bytes: &[u8]) -> (u64, &[u8])
    requires { 8 ≤ length bytes.now }
    ensures read { double_word_ahead bytes.now ≡ Ok (result.0, result.1.now) }
    ensures rest { length bytes.now ≡ length result.1.now + 8 }
{
    let (front, rest) = bytes.split_at(8);
    let number = u64::from_le_bytes([
        front[0], front[1], front[2], front[3], front[4], front[5], front[6], front[7],
    ]);
    (number, rest)
}

/// 32 bytes as they are.
fn read_block(bytes: &[u8]) -> ([u8; 32], &[u8])
    requires { 32 ≤ length bytes.now }
    ensures read { block_ahead 32 bytes.now ≡ Ok (result.0, result.1.now) }
    ensures rest { length bytes.now ≡ length result.1.now + 32 }
{
    let (front, rest) = bytes.split_at(32);
    let mut block = [0; 32];
    block.copy_from_slice(front);
    (block, rest)
}

/// A digest.
#[tactic(auto, unfolding(crate::specs::Reading::digest_ahead))]
pub fn read_digest(bytes: &[u8]) -> (Digest32, &[u8])
    requires { 32 ≤ length bytes.now }
    ensures read { digest_ahead bytes.now ≡ Ok (result.0, result.1.now) }
    ensures rest { length bytes.now ≡ length result.1.now + 32 }
{
    let (digest, rest) = read_block(bytes);
    (Digest32(digest), rest)
}

/// The status with this byte and this code. `BadStatus` comes if and only if there is none.
fn status_with(byte: u8, code: u32) -> Result<Status, WireFault>
    ensures { result ≡ status_of byte code }
{
    match (byte, code) {
        (RUNNING, 0) => Ok(Status::Running),
        (EXITED, code) => Ok(Status::Exited(code)),
        (TRAPPED, code) => Ok(Status::Trapped(code)),
        _ => Err(WireFault::BadStatus),
    }
}

/// A status with its code.
#[tactic(auto, unfolding(crate::specs::Reading::status_ahead))]
fn read_status(bytes: &[u8]) -> Result<(Status, &[u8]), WireFault>
    requires { 5 ≤ length bytes.now }
    ensures read { IsExactly (λ x. (x.0, x.1.now)) result (status_ahead bytes.now) }
    ensures rest { IfOk result (λ x. length bytes.now ≡ length x.1.now + 5) }
{
    let (byte, rest) = read_byte(bytes);
    let (code, rest) = read_word(rest);
    let status = status_with(byte, code)?;
    Ok((status, rest))
}

/// The control fields of a state. `BadStatus` comes if and only if their status byte and code are no status.
#[tactic(auto, unfolding(crate::specs::Reading::control_ahead))]
pub fn read_control(bytes: &[u8]) -> Result<(Ctl, &[u8]), WireFault>
    requires { 49 ≤ length bytes.now }
    ensures read { IsExactly (λ x. (x.0, x.1.now)) result (control_ahead bytes.now) }
    ensures rest { IfOk result (λ x. length bytes.now ≡ length x.1.now + 49) }
{
    let (pc, rest) = read_word(bytes);
    let (status, rest) = read_status(rest)?;
    let (out_len, rest) = read_double_word(rest);
    let (chain, rest) = read_digest(rest);
    let ctl = Ctl {
        pc,
        status,
        out_len,
        chain,
    };
    Ok((ctl, rest))
}

/// The registers `x1` to `x31`.
#[tactic(auto, unfolding(crate::specs::Reading::registers_ahead))]
pub fn read_registers(bytes: &[u8]) -> (Regs, &[u8])
    requires { 124 ≤ length bytes.now }
    ensures read { registers_ahead bytes.now ≡ Ok (result.0, result.1.now) }
    ensures rest { length bytes.now ≡ length result.1.now + 124 }
{
    let mut regs = Regs::new();
    let mut rest = bytes;
    for reg in 1..32 {
        let (value, after) = read_word(rest);
        regs.set(reg, value);
        rest = after;
    }
    (regs, rest)
}

/// The siblings of a Merkle path over `N` levels, the leaf's first.
fn read_siblings<const N: usize>(bytes: &[u8]) -> ([Digest32; N], &[u8])
    requires { 32 * N ≤ length bytes.now }
    ensures { each_ahead digest_ahead N bytes.now ≡ Ok (result.0, result.1.now) }
{
    let mut siblings = [Digest32::ZERO; N];
    let mut rest = bytes;
    for sibling in siblings.iter_mut() {
        let (digest, after) = read_digest(rest);
        *sibling = digest;
        rest = after;
    }
    (siblings, rest)
}

/// A chunk of memory and its Merkle path.
#[tactic(auto, unfolding(crate::specs::Reading::opening_ahead))]
fn read_opening(bytes: &[u8]) -> Result<(Opening, &[u8]), WireFault>
    ensures { IsExactly (λ x. (x.0, x.1.now)) result (opening_ahead bytes.now) }
{
    if bytes.len() < OPENING_BYTES {
        return Err(WireFault::Short);
    }
    let (chunk, rest) = read_block(bytes);
    let (siblings, rest) = read_siblings::<27>(rest);
    let path = Path(siblings);
    Ok((Opening { chunk, path }, rest))
}

/// A register's value and its Merkle path.
#[tactic(auto, unfolding(crate::specs::Reading::register_opening_ahead))]
fn read_register_opening(bytes: &[u8]) -> Result<(RegOpening, &[u8]), WireFault>
    ensures { IsExactly (λ x. (x.0, x.1.now)) result (register_opening_ahead bytes.now) }
{
    if bytes.len() < REGISTER_OPENING_BYTES {
        return Err(WireFault::Short);
    }
    let (value, rest) = read_word(bytes);
    let (siblings, rest) = read_siblings::<5>(rest);
    let path = RegPath(siblings);
    Ok((RegOpening { value, path }, rest))
}

/// A chunk of the input and its Merkle path.
#[tactic(auto, unfolding(crate::specs::Reading::input_opening_ahead))]
fn read_input_opening(bytes: &[u8]) -> Result<(InOpening, &[u8]), WireFault>
    ensures { IsExactly (λ x. (x.0, x.1.now)) result (input_opening_ahead bytes.now) }
{
    if bytes.len() < INPUT_OPENING_BYTES {
        return Err(WireFault::Short);
    }
    let (chunk, rest) = read_block(bytes);
    let (siblings, rest) = read_siblings::<15>(rest);
    let path = InPath(siblings);
    Ok((InOpening { chunk, path }, rest))
}

/// A chunk of memory and its Merkle path if they are there, and else nothing. `Short` comes if they aren't whole.
#[tactic(auto, unfolding(crate::specs::Reading::optional_ahead))]
pub fn read_opening_if(is_there: bool, bytes: &[u8]) -> Result<(Option<Opening>, &[u8]), WireFault>
    ensures { IsExactly (λ x. (x.0, x.1.now)) result (optional_ahead opening_ahead is_there bytes.now) }
{
    if !is_there {
        return Ok((None, bytes));
    }
    let (opening, rest) = read_opening(bytes)?;
    Ok((Some(opening), rest))
}

/// A chunk of the input and its Merkle path if they are there, and else nothing. `Short` comes if they aren't whole.
#[tactic(auto, unfolding(crate::specs::Reading::optional_ahead))]
pub fn read_input_if(is_there: bool, bytes: &[u8]) -> Result<(Option<InOpening>, &[u8]), WireFault>
    ensures { IsExactly (λ x. (x.0, x.1.now)) result (optional_ahead input_opening_ahead is_there bytes.now) }
{
    if !is_there {
        return Ok((None, bytes));
    }
    let (opening, rest) = read_input_opening(bytes)?;
    Ok((Some(opening), rest))
}

/// This many opened registers. `Short` comes if they aren't whole.
pub fn read_named(count: u8, bytes: &[u8]) -> Result<(RegOpenings, &[u8]), WireFault>
    requires { count ≤ 3 }
    ensures { IsExactly (λ x. (x.0, x.1.now)) result (each_ahead register_opening_ahead count bytes.now) }
{
    let mut named = RegOpenings::new();
    let mut rest = bytes;
    for _ in 0..count {
        let (opening, after) = match read_register_opening(rest) {
            Ok(read) => read,
            Err(fault) => return Err(fault),
        };
        named.push(opening);
        rest = after;
    }
    Ok((named, rest))
}

/// The number itself if it isn't above the largest. `BadTag` comes if and only if it is.
pub fn within(largest: u8, number: u8) -> Result<u8, WireFault>
    ensures { result ≡ at_most largest number }
{
    if number <= largest {
        Ok(number)
    } else {
        Err(WireFault::BadTag)
    }
}

/// Whether a flag, 1, 2 or 4, is among these.
pub fn is_set(flag: u8, flags: u8) -> bool
    requires { 1 ≤ flag }
    ensures { result ≡ has_flag flag flags }
{
    flags / flag % 2 == 1
}
