//! The header of an ELF32 file, and its program headers.
ghost use Rattle.std.specs.Prelude.{◌≡◌, ◌+◌, ◌*◌, ◌≤◌, length, Ok};
ghost use Rattle.rd_base.specs.Results.{Gives};
ghost use Rattle.image_reader.specs.Elf.{header_at, program_header_at, header_in, loads_from, loads_in, is_bad_table};

use crate::fault::ImageFault;
use crate::loading::MAX_IMAGE_BYTES;
use byteorder::{ByteOrder, LittleEndian};
use std::alloc::Global;

/// How many bytes the header has (TIS ELF 1.2, 'ELF Header').
pub const HEADER_BYTES: usize = 52;

/// How many bytes a program header has ('Program Header').
pub const PROGRAM_HEADER_BYTES: usize = 32;

/// How a 32-bit little-endian file of version 1 begins ('ELF Identification').
pub const IDENT: [u8; 7] = [0x7f, 0x45, 0x4c, 0x46, 1, 1, 1];

/// The type of an executable (`e_type`, 'ELF Header').
pub const ET_EXEC: u16 = 2;

/// RISC-V, as the psABI for RISC-V numbers it (`e_machine`, 'ELF Header').
pub const EM_RISCV: u16 = 243;

/// The type of a segment that is loaded (`p_type`, 'Program Header').
pub const PT_LOAD: u32 = 1;

/// The fields of a file's header that are read ('ELF Header').
#[derive(Clone, Copy, Debug)]
pub struct Header {
    pub e_type: u16,
    pub e_machine: u16,
    pub e_entry: u32,
    pub e_phoff: u32,
    pub e_phentsize: u16,
    pub e_phnum: u16,
}

/// The fields of a program header that are read ('Program Header').
#[derive(Clone, Copy, Debug)]
pub struct ProgramHeader {
    pub p_type: u32,
    pub p_offset: u32,
    pub p_vaddr: u32,
    pub p_filesz: u32,
    pub p_memsz: u32,
}

impl Header {
    /// The header of a file that is long enough.
    #[tactic(auto, unfolding(crate::specs::Elf::header_at))]
    fn read(bytes: &[u8]) -> Header
        requires { 52 ≤ length bytes.now }
        ensures { result ≡ header_at bytes.now }
    {
        Header {
            e_type: LittleEndian::read_u16(&bytes[16..]),
            e_machine: LittleEndian::read_u16(&bytes[18..]),
            e_entry: LittleEndian::read_u32(&bytes[24..]),
            e_phoff: LittleEndian::read_u32(&bytes[28..]),
            e_phentsize: LittleEndian::read_u16(&bytes[42..]),
            e_phnum: LittleEndian::read_u16(&bytes[44..]),
        }
    }

    /// Whether the program headers have another size than theirs, or aren't all in the file.
    fn is_bad_table(&self, file_bytes: usize) -> bool
        ensures { result ≡ is_bad_table file_bytes self.now }
    {
        let end = u64::from(self.e_phoff) + 32 * u64::from(self.e_phnum);
        self.e_phentsize as usize != PROGRAM_HEADER_BYTES || end > file_bytes as u64
    }
}

impl ProgramHeader {
    /// The program header at an offset in a file.
    #[tactic(auto, unfolding(crate::specs::Elf::program_header_at))]
    fn read(bytes: &[u8], offset: usize) -> ProgramHeader
        requires { offset + 32 ≤ length bytes.now }
        ensures { result ≡ program_header_at bytes.now offset }
    {
        ProgramHeader {
            p_type: LittleEndian::read_u32(&bytes[offset..]),
            p_offset: LittleEndian::read_u32(&bytes[offset + 4..]),
            p_vaddr: LittleEndian::read_u32(&bytes[offset + 8..]),
            p_filesz: LittleEndian::read_u32(&bytes[offset + 16..]),
            p_memsz: LittleEndian::read_u32(&bytes[offset + 20..]),
        }
    }
}

/// The header of a file that isn't too large and meets rules 1 to 4. A fault is the first of rule 11 and then these that is broken.
#[tactic(auto, unfolding(crate::specs::Elf::header_in))]
pub fn header_of(bytes: &[u8]) -> Result<Header, ImageFault>
    ensures { Gives ImageFault.Memory (λ header. header) result (header_in bytes.now) }
{
    if bytes.len() > MAX_IMAGE_BYTES {
        return Err(ImageFault::ImageTooLarge);
    }
    if bytes.len() < HEADER_BYTES {
        return Err(ImageFault::Short);
    }
    if !bytes.starts_with(&IDENT) {
        return Err(ImageFault::NotElf32Le);
    }
    let header = Header::read(bytes);
    if header.e_type != ET_EXEC {
        return Err(ImageFault::NotExecutable);
    }
    if header.e_machine != EM_RISCV {
        return Err(ImageFault::NotRiscv);
    }
    Ok(header)
}

/// The loads among this many program headers from an offset on.
fn collect_loads(
    alloc: Global,
    bytes: &[u8],
    offset: usize,
    count: u16,
) -> Result<Vec<ProgramHeader>, ImageFault>
    requires { offset + 32 * count ≤ length bytes.now }
    ensures { Gives ImageFault.Memory (λ loads. loads.items) result (Ok (loads_from bytes.now offset count)) }
{
    let mut loads = Vec::new(alloc);
    'headers: for k in 0..count {
        let header = ProgramHeader::read(bytes, offset + PROGRAM_HEADER_BYTES * k as usize);
        if header.p_type == PT_LOAD {
            loads.push(header)?;
        }
    }
    Ok(loads)
}

/// The loads of a file whose program headers meet rule 5. `BadTable` comes if they don't, and `Memory` if memory ran out.
#[tactic(auto, unfolding(crate::specs::Elf::loads_in))]
pub fn loads_of(
    alloc: Global,
    bytes: &[u8],
    header: &Header,
) -> Result<Vec<ProgramHeader>, ImageFault>
    ensures { Gives ImageFault.Memory (λ loads. loads.items) result (loads_in bytes.now header.now) }
{
    if header.e_phnum == 0 {
        return Ok(Vec::new(alloc));
    }
    if header.is_bad_table(bytes.len()) {
        return Err(ImageFault::BadTable);
    }
    collect_loads(alloc, bytes, header.e_phoff as usize, header.e_phnum)
}
