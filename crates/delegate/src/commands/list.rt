//! `list`: to write the listing of a case's image.
ghost use Rattle.std.specs.Prelude.{◌≡◌, ◌<◌, length, slice_index, IfOk};
ghost use Rattle.case_reader.specs.declared.fault.CaseFault.TheVariants.{OutOfRange};
ghost use Rattle.case_reader.specs.declared.fault.Key.TheVariants as key;
ghost use Rattle.delegate.specs.Refusal.{case_refusal};
ghost use Rattle.delegate.specs.declared.response.Subject.TheVariants.{Whole};
ghost use Rattle.delegate.specs.commands.List.{word_in_file, words_in_file, words_by, list_response};
ghost use Rattle.delegate.specs.Standing.{Stands};

use crate::faults;
use crate::loading::{AsmImageFault, case_in, flat_image, loadable_words};
use crate::response::{Answered, Response, Stop, Subject};
use case_reader::{Case, CaseFault, Format, Key};
use rd_base::{Bytes, Memory};
use std::alloc::{AllocError, Global};

/// The byte at a place, and 0 behind the end.
fn byte_at(bytes: &[u8], place: usize) -> u8
    ensures { result ≡ slice_index bytes.now place }
{
    match bytes.get(place) {
        Some(byte) => *byte,
        None => 0,
    }
}

/// The word at a place, its least byte first. Bytes behind the end are 0.
fn word_in_file(bytes: &[u8], place: usize) -> u32
    requires { place < length bytes.now }
    ensures { result ≡ word_in_file bytes.now place }
{
    u32::from_le_bytes([
        byte_at(bytes, place),
        byte_at(bytes, place + 1),
        byte_at(bytes, place + 2),
        byte_at(bytes, place + 3),
    ])
}

/// The words of bytes, four bytes each; the last one is filled with zeros.
fn words_in_file(alloc: Global, bytes: &[u8]) -> Result<Vec<u32>, Memory>
    ensures { IfOk result (λ words. words.items ≡ words_in_file bytes.now) }
{
    let mut words = Vec::new(alloc);
    'words: for k in 0..bytes.len().div_ceil(4) {
        words.push(word_in_file(bytes, 4 * k))?;
    }
    Ok(words)
}

/// The words of a flat file, which breaks no rule of images.
fn words_of_flat(alloc: Global, file: &[u8]) -> Result<Vec<u32>, Stop>
    ensures { Stands (λ words. words.items) result (words_by Format.Flat file.now) }
{
    flat_image(alloc, Subject::Whole, file)?;
    Ok(words_in_file(alloc, file)?)
}

/// The words of an assembly text, whose image breaks no rule.
fn words_of_asm(alloc: Global, text: &[u8]) -> Result<Vec<u32>, Stop>
    ensures { Stands (λ words. words.items) result (words_by Format.Asm text.now) }
{
    match loadable_words(alloc, text) {
        Ok(words) => Ok(words),
        Err(AsmImageFault::Memory) => Err(Stop::Memory),
        Err(fault) => Err(Stop::Refused(faults::asm_refusal(alloc, Subject::Whole, fault)?)),
    }
}

/// The response to a format that has no listing.
fn format_refusal(alloc: Global) -> Result<Response, AllocError>
    ensures { IfOk result (λ response. response ≡ case_refusal Whole (OutOfRange key.Format)) }
{
    faults::case_refusal(alloc, Subject::Whole, CaseFault::OutOfRange(Key::Format))
}

/// The words of the case's image.
fn words_in(alloc: Global, case: &Case) -> Result<Vec<u32>, Stop>
    ensures { Stands (λ words. words.items) result (words_by case.now.format case.now.image) }
{
    let file = case.image.as_slice();
    match case.format {
        Format::Flat => words_of_flat(alloc, file),
        Format::Elf => Err(Stop::Refused(format_refusal(alloc)?)),
        Format::Asm => words_of_asm(alloc, file),
    }
}

/// Lists the image of the case of the bytes, and answers with the listing.
#[tactic(auto, unfolding(crate::specs::commands::List::list_response))]
pub fn list(alloc: Global, bytes: Vec<u8>) -> Result<Response, Stop>
    ensures { Stands (λ response. response) result (list_response bytes.items) }
{
    let case = case_in(alloc, bytes)?;
    let words = words_in(alloc, &case)?;
    let text = rv_text::list(alloc, words.as_slice())?;
    Ok(Response {
        answered: Answered::Done,
        text: Bytes::new(text),
    })
}
