//! Rows of an image. What is loaded becomes the first memory.
use crate::memory::Memories;
use image_reader::{ImageFault, Loaded, load_elf, load_flat};
use std::alloc::Global;
use toy_rows::{Unanswered, byte_of, number, number_of};

/// What a file is loaded as: its entry, or the fault.
fn loaded(
    alloc: Global,
    both: &mut Memories,
    file: &[u8],
    is_flat: bool,
) -> Result<String, Unanswered> {
    let read = if is_flat {
        load_flat(alloc, file)
    } else {
        load_elf(alloc, file)
    };
    match read {
        Ok(Loaded { mem, entry }) => {
            both.first = mem;
            Ok(format!(in alloc; "entry 0x{entry:08x}")?)
        }
        Err(fault) => Ok(format!(in alloc; "{fault:?}")?),
    }
}

/// Changes the byte at a place.
fn change(file: &mut [u8], place: &str, byte: &str) -> Result<(), Unanswered> {
    let value = byte_of(byte)?;
    match file.get_mut(number_of(place)? as usize) {
        Some(changed) => {
            *changed = value;
            Ok(())
        }
        None => Err(Unanswered::NoRow),
    }
}

/// Leaves the first bytes of the file, which has so many.
fn shorten(file: &mut Vec<u8>, length: usize) -> Result<(), Unanswered> {
    if length > file.len() {
        return Err(Unanswered::NoRow);
    }
    file.truncate(length);
    Ok(())
}

/// The file with an edit: `LENGTH` leaves its first bytes, and `PLACE=BYTE` puts another byte at a place.
fn edit(file: &mut Vec<u8>, edit: &str) -> Result<(), Unanswered> {
    match edit.split_once('=') {
        Some((place, byte)) => change(file.as_mut_slice(), place, byte),
        None => shorten(file, number_of(edit)? as usize),
    }
}

/// `elf` and `flat`: loads the file. `elf LENGTH` loads its first bytes, and `elf PLACE=BYTE ..` the file with other bytes at these places.
pub fn load(
    alloc: Global,
    both: &mut Memories,
    file: &[u8],
    words: &[&str],
    is_flat: bool,
) -> Result<String, Unanswered> {
    let mut edited = file.to_vec(alloc)?;
    for text in words.get(1..).unwrap_or(&[]) {
        edit(&mut edited, text)?;
    }
    loaded(alloc, both, edited.as_slice(), is_flat)
}

/// `elf_zeros COUNT` and `flat_zeros COUNT`: loads a file of zeros.
pub fn load_zeros(
    alloc: Global,
    both: &mut Memories,
    words: &[&str],
    is_flat: bool,
) -> Result<String, Unanswered> {
    let count = number(words, 1)? as usize;
    let zeros = vec![in alloc; 0u8; count]?;
    loaded(alloc, both, zeros.as_slice(), is_flat)
}

/// Adds the fields that a text writes, four bytes each, the lowest first.
fn add_fields(made: &mut Vec<u8>, fields: &str) -> Result<(), Unanswered> {
    for field in fields.split(',') {
        made.extend_from_slice(&number_of(field)?.to_le_bytes())?;
    }
    Ok(())
}

/// `headers FIELD,FIELD,.. ..`: loads a file of the file's header and these program headers, each of which has eight fields.
pub fn load_headers(
    alloc: Global,
    both: &mut Memories,
    file: &[u8],
    words: &[&str],
) -> Result<String, Unanswered> {
    let headers = words.get(1..).unwrap_or(&[]);
    let mut made = file.get(..44).unwrap_or(&[]).to_vec(alloc)?;
    made.push((headers.len() % 256) as u8)?;
    made.extend_from_slice(file.get(45..52).unwrap_or(&[]))?;
    for header in headers {
        add_fields(&mut made, header)?;
    }
    loaded(alloc, both, made.as_slice(), false)
}

/// The faults, in the order of their rules.
const FAULTS: [ImageFault; 12] = [
    ImageFault::Short,
    ImageFault::NotElf32Le,
    ImageFault::NotExecutable,
    ImageFault::NotRiscv,
    ImageFault::BadTable,
    ImageFault::SegmentOutsideFile,
    ImageFault::FileLargerThanMemory,
    ImageFault::SegmentPastEnd,
    ImageFault::SegmentsOverlap,
    ImageFault::EntryMisaligned,
    ImageFault::ImageTooLarge,
    ImageFault::Memory,
];

/// `fault NUMBER`: the fault with this number, counted from 0, its rule and its text.
pub fn fault(alloc: Global, words: &[&str]) -> Result<String, Unanswered> {
    match FAULTS.get(number(words, 1)? as usize) {
        Some(fault) => Ok(format!(in alloc; "{fault:?}, {:?}: {fault}", fault.rule())?),
        None => Err(Unanswered::NoRow),
    }
}
