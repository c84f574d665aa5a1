//! The strings that are digested, and a link of the chain of an output.
ghost use Rattle.std.specs.Prelude.{◌≡◌, ◌+◌, ◌≤◌, ◌++◌, length};
ghost use Rattle.byteorder.specs.Endian.{little_bytes};
ghost use Rattle.digest_core.specs.Text as text;

use crate::digester::Digester;
use byteorder::{ByteOrder, LittleEndian};
use rd_base::{Ctl, Digest32, OpenText, Regs, Status, registers_are_32};

/// The first byte of the string of a leaf of the trees of memory and of the input. Each kind of string begins with a byte of its own.
const LEAF: u8 = 0;

/// The first byte of the string of an inner node.
const NODE: u8 = 1;

/// The first byte of the string of all registers.
const REGISTERS: u8 = 2;

/// The first byte of the string of the control fields.
const CONTROL: u8 = 3;

/// The first byte of the string of a state.
const STATE: u8 = 4;

/// The first byte of the string of a link of the chain.
const LINK: u8 = 5;

/// The first byte of the string of noise.
const NOISE: u8 = 6;

/// The first byte of the string of a leaf of the register tree.
const REGISTER: u8 = 7;

/// The first byte of the string of a state's storage.
const STORAGE: u8 = 8;

/// Appends a number of 32 bits, the least byte first.
fn append_u32(string: &mut OpenText, number: u32)
    requires { length string.old + 4 ≤ 129 }
    ensures { string.new ≡ string.old ++ little_bytes 4 number }
{
    let mut bytes = [0; 4];
    LittleEndian::write_u32(&mut bytes, number);
    string.extend(&bytes);
}

/// Appends a number of 64 bits, the least byte first.
fn append_u64(string: &mut OpenText, number: u64)
    requires { length string.old + 8 ≤ 129 }
    ensures { string.new ≡ string.old ++ little_bytes 8 number }
{
    let mut bytes = [0; 8];
    LittleEndian::write_u64(&mut bytes, number);
    string.extend(&bytes);
}

/// The string of a leaf of the tree of memory or of the input, from its chunk: 33 bytes.
pub fn leaf_text(chunk: &[u8; 32]) -> OpenText
    ensures { result ≡ text.leaf_text chunk.now }
{
    let mut string = OpenText::new();
    string.push(LEAF);
    string.extend(chunk);
    string
}

/// The string of an inner node of a tree, from the digests of its children: 65 bytes.
pub fn node_text(left: &Digest32, right: &Digest32) -> OpenText
    ensures { result ≡ text.node_text left.now.0 right.now.0 }
{
    let mut string = OpenText::new();
    string.push(NODE);
    string.extend(&left.0);
    string.extend(&right.0);
    string
}

/// The string of the registers: 129 bytes.
#[tactic(auto, unfolding(crate::specs::Text::registers_text))]
pub fn registers_text(regs: &Regs) -> OpenText
    ensures { result ≡ text.registers_text regs.now }
{
    registers_are_32(regs);
    let mut string = OpenText::new();
    string.push(REGISTERS);
    'regs: for reg in 0..32u8 {
        append_u32(&mut string, regs.get(reg));
    }
    string
}

/// The byte of a status, and its code.
fn status_parts(status: Status) -> (u8, u32)
    ensures byte { result.0 ≡ text.status_byte status }
    ensures code { result.1 ≡ text.status_code status }
{
    match status {
        Status::Running => (0, 0),
        Status::Exited(code) => (1, code),
        Status::Trapped(code) => (2, code),
    }
}

/// The string of the control fields: 50 bytes.
#[tactic(auto, unfolding(crate::specs::Text::control_text))]
pub fn control_text(ctl: &Ctl) -> OpenText
    ensures { result ≡ text.control_text ctl.now.pc ctl.now.status ctl.now.out_len ctl.now.chain.0 }
{
    let mut string = OpenText::new();
    string.push(CONTROL);
    append_u32(&mut string, ctl.pc);
    let (status, code) = status_parts(ctl.status);
    string.push(status);
    append_u32(&mut string, code);
    append_u64(&mut string, ctl.out_len);
    string.extend(&ctl.chain.0);
    string
}

/// The string of a state, from the digest of what it stores (the root of memory, or in version 3 of the commitment the digest of the
/// storage string), that of its registers (of their string in version 1, else the root of their tree) and that of its control string: 97
/// bytes.
pub fn state_text(memory: &Digest32, registers: &Digest32, control: &Digest32) -> OpenText
    ensures { result ≡ text.state_text memory.now.0 registers.now.0 control.now.0 }
{
    let mut string = OpenText::new();
    string.push(STATE);
    string.extend(&memory.0);
    string.extend(&registers.0);
    string.extend(&control.0);
    string
}

/// The string of a link of the chain, from the chain before and the byte of output: 34 bytes.
pub fn link_text(chain: &Digest32, byte: u8) -> OpenText
    ensures { result ≡ text.link_text chain.now.0 byte }
{
    let mut string = OpenText::new();
    string.push(LINK);
    string.extend(&chain.0);
    string.push(byte);
    string
}

/// The string of noise, from a seed and the dispute and the round of a question: 13 bytes.
pub fn noise_text(seed: u32, dispute: u32, round: u32) -> OpenText
    ensures { result ≡ text.noise_text seed dispute round }
{
    let mut string = OpenText::new();
    string.push(NOISE);
    append_u32(&mut string, seed);
    append_u32(&mut string, dispute);
    append_u32(&mut string, round);
    string
}

/// The string of a leaf of the register tree, from what the register holds: 5 bytes.
pub fn register_text(value: u32) -> OpenText
    ensures { result ≡ text.register_text value }
{
    let mut string = OpenText::new();
    string.push(REGISTER);
    append_u32(&mut string, value);
    string
}

/// The string of a state's storage, from the root of its memory, the length of its input and the root of its input: 69 bytes.
pub fn storage_text(memory: &Digest32, input_len: u32, input: &Digest32) -> OpenText
    ensures { result ≡ text.storage_text memory.now.0 input_len input.now.0 }
{
    let mut string = OpenText::new();
    string.push(STORAGE);
    string.extend(&memory.0);
    append_u32(&mut string, input_len);
    string.extend(&input.0);
    string
}

/// The chain of an output after one more byte, from the chain before: the digest of their link string.
///
/// It isn't inlined, so that a step without output carries none of the code of a digest.
#[inline(never)]
pub fn link<D: Digester>(d: D, chain: Digest32, byte: u8) -> Digest32
    ensures { result.0 ≡ D.digest_of (text.link_text chain.0 byte) }
{
    d.digest(link_text(&chain, byte).as_slice())
}
