//! Loading of flat and of ELF32 files.
ghost use Rattle.std.specs.Prelude.{◌≡◌, length, false, IfOk};
ghost use Rattle.std.specs.List.{list_any};
ghost use Rattle.mem_plain.specs.Contents.{contents_with, laid};
ghost use Rattle.rd_base.specs.Results.{Gives};
ghost use Rattle.image_reader.specs.Image.{loaded_of, flat_at};
ghost use Rattle.image_reader.specs.Elf.{is_outside_file, has_larger_file, is_past_end, part_of, byte_of_loads, elf_at};

use crate::fault::ImageFault;
use crate::header::{ProgramHeader, header_of, loads_of};
use crate::rules::check_loads;
use mem_plain::{PlainMem, contents_of_a_function};
use rd_base::Memory;
use std::alloc::Global;

/// The most bytes that a file has.
pub const MAX_IMAGE_BYTES: usize = 4_194_304;

/// Where a flat file is laid, and entered.
pub const IMAGE_BASE: u32 = 0x0001_0000;

/// A program in memory.
#[derive(Drop)]
pub struct Loaded {
    /// The memory, with 0 wherever nothing was loaded.
    pub mem: PlainMem,
    /// The address at which the program is entered.
    pub entry: u32,
}

/// Loads a flat file: its byte `k` is at `IMAGE_BASE + k`, and its first byte is the entry.
///
/// `ImageTooLarge` comes if the file has more than `MAX_IMAGE_BYTES` bytes, and `Memory` if memory ran out.
#[tactic(auto, unfolding(crate::specs::Image::flat_at))]
pub fn load_flat(alloc: Global, bytes: &[u8]) -> Result<Loaded, ImageFault>
    ensures { Gives ImageFault.Memory loaded_of result (flat_at bytes.now) }
{
    if bytes.len() > MAX_IMAGE_BYTES {
        return Err(ImageFault::ImageTooLarge);
    }
    let mem = PlainMem::new(alloc).lay(IMAGE_BASE, bytes)?;
    Ok(Loaded {
        mem,
        entry: IMAGE_BASE,
    })
}

/// Lays a load's part of the file.
fn lay_load(mem: PlainMem, bytes: &[u8], load: &ProgramHeader) -> Result<PlainMem, Memory>
    requires inside { is_outside_file (length bytes.now) load.now ≡ false }
    requires smaller { has_larger_file load.now ≡ false }
    requires before_end { is_past_end load.now ≡ false }
    ensures { IfOk result (λ m. m ≡ laid mem load.now.p_vaddr (part_of bytes.now load.now)) }
{
    if load.p_filesz == 0 {
        return Ok(mem);
    }
    let from = load.p_offset as usize;
    mem.lay(load.p_vaddr, &bytes[from..from + load.p_filesz as usize])
}

/// Lays the loads, from the last to the first.
fn lay_loads(alloc: Global, bytes: &[u8], loads: &[ProgramHeader]) -> Result<PlainMem, Memory>
    requires inside { list_any (is_outside_file (length bytes.now)) loads.now ≡ false }
    requires smaller { list_any has_larger_file loads.now ≡ false }
    requires before_end { list_any is_past_end loads.now ≡ false }
    ensures { IfOk result (λ mem. mem ≡ contents_with (byte_of_loads bytes.now loads.now)) }
{
    contents_of_a_function();
    let mut mem = PlainMem::new(alloc);
    'loads: for k in (0..loads.len()).rev() {
        mem = lay_load(mem, bytes, &loads[k])?;
    }
    Ok(mem)
}

/// Loads an ELF32 executable (TIS ELF 1.2, 'Program Loading').
///
/// Each program header of type `PT_LOAD` is loaded: from `p_vaddr` on the `p_filesz` bytes of the file from
/// `p_offset` on. All other bytes of memory are 0, and the entry is `e_entry`. Other program headers, flags and
/// sections are ignored.
///
/// A fault is the first rule that the file breaks: first `ImageTooLarge`, more than `MAX_IMAGE_BYTES` bytes; then
/// `Short` to `EntryMisaligned` in the order of the variants of `ImageFault`, each tested over all program headers
/// before the next. `Memory` comes if memory ran out.
#[tactic(auto, unfolding(crate::specs::Elf::elf_at))]
pub fn load_elf(alloc: Global, bytes: &[u8]) -> Result<Loaded, ImageFault>
    ensures { Gives ImageFault.Memory loaded_of result (elf_at bytes.now) }
{
    let header = header_of(bytes)?;
    let loads = loads_of(alloc, bytes, &header)?;
    check_loads(alloc, bytes.len(), &loads)?;
    if header.e_entry % 4 != 0 {
        return Err(ImageFault::EntryMisaligned);
    }
    let mem = lay_loads(alloc, bytes, &loads)?;
    Ok(Loaded {
        mem,
        entry: header.e_entry,
    })
}
