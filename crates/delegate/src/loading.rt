//! How every command on a case reads it and loads its image, and how tasks are read and loaded. An image that is given as assembly text is
//! the flat one of the words that the text is assembled to. An `Err` is a refusal, with the response to it, or out of memory.
ghost use Rattle.std.specs.Prelude.{◌≡◌, ◌+◌, ◌<◌, ◌≤◌, Ok, map, length, IfOk};
ghost use Rattle.std.specs.List.{All};
ghost use Rattle.rd_base.specs.Results.{◌>>=◌ as and_then, Gives};
ghost use Rattle.rv_step.specs.State.{state_of};
ghost use Rattle.case_reader.specs.Case.{data_of};
ghost use Rattle.case_reader.specs.Tasks.{tasks_data, AreFew};
ghost use Rattle.image_reader.specs.Image.{loaded_of};
ghost use Rattle.case_match.specs.TruthfulInCase.{IsInRange};
ghost use Rattle.delegate.specs.AsmImage.{bytes_of as bytes_of_words, words_at, asm_words, asm_at};
ghost use Rattle.delegate.specs.Loading.{case_or_refusal, tasks_or_refusal, image_by, start_or_refusal, cases_of_tasks, first_subject, loads_or_refusal};
ghost use Rattle.delegate.specs.Standing.{Stands, IsFreshStart, IsReadyToPlay, loaded_data, task_number};

use crate::faults;
use crate::response::{Stop, Subject};
use case_match::LoadedCase;
use case_reader::{Case, CaseFault, Format, TaskFault, Tasks, read_case, read_tasks};
use image_reader::{ImageFault, Loaded, load_elf, load_flat};
use rd_base::Memory;
use rv_step::{Machine, machines_are_valid};
use rv_text::{AsmError, AsmFault, MAX_ASSEMBLY_BYTES, assemble};
use std::alloc::Global;
use std::slice;

/// Why an assembly text is no image that is loaded.
#[derive(Clone, Copy, Debug, PartialEq, Eq)]
pub enum AsmImageFault {
    /// The text isn't assembled, and this is its first fault.
    Text(AsmFault),
    /// The flat image of its words breaks a rule.
    Image(ImageFault),
    /// An allocation was refused.
    Memory,
}

/// The case of the bytes.
pub fn case_in(alloc: Global, bytes: Vec<u8>) -> Result<Case, Stop>
    ensures { Stands data_of result (case_or_refusal bytes.items) }
{
    match read_case(alloc, bytes.as_slice()) {
        Ok(case) => Ok(case),
        Err(CaseFault::Memory) => Err(Stop::Memory),
        Err(fault) => Err(Stop::Refused(faults::case_refusal(alloc, Subject::Whole, fault)?)),
    }
}

/// What the bytes hold: one case, or those of tasks.
pub fn tasks_in(alloc: Global, bytes: Vec<u8>) -> Result<Tasks, Stop>
    ensures stands { Stands tasks_data result (tasks_or_refusal bytes.items) }
    ensures few { IfOk result AreFew }
{
    match read_tasks(alloc, bytes.as_slice()) {
        Ok(tasks) => Ok(tasks),
        Err(TaskFault::Memory) => Err(Stop::Memory),
        Err(fault) => Err(Stop::Refused(faults::task_refusal(alloc, fault)?)),
    }
}

/// The image of a flat file.
pub fn flat_image(alloc: Global, subject: Subject, file: &[u8]) -> Result<Loaded, Stop>
    ensures { Stands loaded_of result (image_by subject Format.Flat file.now) }
{
    match load_flat(alloc, file) {
        Ok(loaded) => Ok(loaded),
        Err(ImageFault::Memory) => Err(Stop::Memory),
        Err(fault) => Err(Stop::Refused(faults::image_refusal(alloc, subject, fault)?)),
    }
}

/// The image of an ELF file.
fn elf_image(alloc: Global, subject: Subject, file: &[u8]) -> Result<Loaded, Stop>
    ensures { Stands loaded_of result (image_by subject Format.Elf file.now) }
{
    match load_elf(alloc, file) {
        Ok(loaded) => Ok(loaded),
        Err(ImageFault::Memory) => Err(Stop::Memory),
        Err(fault) => Err(Stop::Refused(faults::image_refusal(alloc, subject, fault)?)),
    }
}

/// The bytes of words, four each, the least first.
fn bytes_of(alloc: Global, words: &[u32]) -> Result<Vec<u8>, Memory>
    ensures { IfOk result (λ bytes. bytes.items ≡ bytes_of_words words.now) }
{
    let mut bytes = Vec::new(alloc);
    'words: for word in words {
        bytes.extend_from_slice(&word.to_le_bytes())?;
    }
    Ok(bytes)
}

/// The words of a text. One of more bytes than are assembled is an image that is too large.
#[tactic(auto, unfolding(crate::specs::AsmImage::asm_words))]
fn asm_words(alloc: Global, text: &[u8]) -> Result<Vec<u32>, AsmImageFault>
    ensures { Gives AsmImageFault.Memory (λ words. words.items) result (asm_words text.now) }
{
    if text.len() > MAX_ASSEMBLY_BYTES {
        return Err(AsmImageFault::Image(ImageFault::ImageTooLarge));
    }
    match assemble(alloc, text) {
        Ok(words) => Ok(words),
        Err(AsmError::Fault(fault)) => Err(AsmImageFault::Text(fault)),
        Err(AsmError::Memory) => Err(AsmImageFault::Memory),
    }
}

/// Loads the flat image of words.
fn load_words(alloc: Global, words: &[u32]) -> Result<Loaded, AsmImageFault>
    ensures { Gives AsmImageFault.Memory loaded_of result (words_at words.now) }
{
    let Ok(bytes) = bytes_of(alloc, words) else {
        return Err(AsmImageFault::Memory);
    };
    match load_flat(alloc, bytes.as_slice()) {
        Ok(loaded) => Ok(loaded),
        Err(ImageFault::Memory) => Err(AsmImageFault::Memory),
        Err(fault) => Err(AsmImageFault::Image(fault)),
    }
}

/// Loads the image of an assembly text: the flat one of its words.
///
/// A text of more than 16,777,216 bytes isn't assembled: it is `Image` with the fault of an image that is too large. Else `Text` is the
/// text's first fault, and if it has none, `Image` is the first rule of images that its words break: they have more than 4,194,304 bytes.
/// `Memory` comes if memory ran out.
#[tactic(auto, unfolding(crate::specs::AsmImage::asm_at))]
fn load_asm(alloc: Global, text: &[u8]) -> Result<Loaded, AsmImageFault>
    ensures { Gives AsmImageFault.Memory loaded_of result (asm_at text.now) }
{
    let words = asm_words(alloc, text)?;
    load_words(alloc, words.as_slice())
}

/// The words of an assembly text whose image is loaded without a fault, or the fault.
pub fn loadable_words(alloc: Global, text: &[u8]) -> Result<Vec<u32>, AsmImageFault>
    ensures { Gives AsmImageFault.Memory (λ words. words.items) result (and_then (asm_words text.now) (λ words. and_then (words_at words) (λ image. Ok words))) }
{
    let words = asm_words(alloc, text)?;
    load_words(alloc, words.as_slice())?;
    Ok(words)
}

/// The image of an assembly text.
fn asm_image(alloc: Global, subject: Subject, text: &[u8]) -> Result<Loaded, Stop>
    ensures { Stands loaded_of result (image_by subject Format.Asm text.now) }
{
    match load_asm(alloc, text) {
        Ok(loaded) => Ok(loaded),
        Err(AsmImageFault::Memory) => Err(Stop::Memory),
        Err(fault) => Err(Stop::Refused(faults::asm_refusal(alloc, subject, fault)?)),
    }
}

/// The image of the case, loaded.
fn image_in(alloc: Global, subject: Subject, case: &Case) -> Result<Loaded, Stop>
    ensures { Stands loaded_of result (image_by subject (data_of case.now).format (data_of case.now).image) }
{
    let file = case.image.as_slice();
    match case.format {
        Format::Flat => flat_image(alloc, subject, file),
        Format::Elf => elf_image(alloc, subject, file),
        Format::Asm => asm_image(alloc, subject, file),
    }
}

/// The machine in which the run of the case starts, of the case's version. It is fresh: it has no output, and its chain is that of no
/// output by every digester. A refusal names this subject.
#[tactic(auto, unfolding(crate::specs::Loading::start_or_refusal))]
pub fn start_in(alloc: Global, subject: Subject, case: &Case) -> Result<Machine, Stop>
    ensures stands { Stands state_of result (start_or_refusal subject (data_of case.now)) }
    ensures fresh { IfOk result IsFreshStart }
    ensures in_range { IfOk result (λ start. IsInRange (data_of case.now) (state_of start)) }
{
    let loaded = image_in(alloc, subject, case)?;
    let input = case.input.as_slice();
    let start = Machine::new(alloc, case.version, loaded.mem, loaded.entry, input)?;
    machines_are_valid(&start);
    Ok(start)
}

/// The cases of what was read, of one or of tasks, each with the machine in which its run starts, as of `start_in`. The first image that
/// has a fault is refused, of its task if there are tasks.
pub fn loads_in(alloc: Global, tasks: &Tasks) -> Result<Vec<LoadedCase>, Stop>
    requires { AreFew tasks.now }
    ensures stands { Stands (λ loads. map loaded_data loads.items) result
        (loads_or_refusal (first_subject (tasks_data tasks.now)) (cases_of_tasks (tasks_data tasks.now))) }
    ensures some { IfOk result (λ loads. 0 < length loads.items) }
    ensures few { IfOk result (λ loads. length loads.items ≤ 8) }
    ensures ready { IfOk result (λ loads. All IsReadyToPlay loads.items) }
{
    let cases = cases_of_tasks(tasks);
    loads_from(alloc, first_subject(tasks), cases)
}

/// The cases of what was read.
fn cases_of_tasks(tasks: &Tasks) -> &[Case]
    requires { AreFew tasks.now }
    ensures cases { map data_of result.now ≡ cases_of_tasks (tasks_data tasks.now) }
    ensures some { 0 < length result.now }
    ensures few { length result.now ≤ 8 }
{
    match tasks {
        Tasks::One(case) => slice::from_ref(case),
        Tasks::Many(cases) => cases.as_slice(),
    }
}

/// The subject of the first case of what was read.
pub fn first_subject(tasks: &Tasks) -> Subject
    ensures subject { result ≡ first_subject (tasks_data tasks.now) }
    ensures number { task_number result ≤ 1 }
{
    match tasks {
        Tasks::One(_) => Subject::Whole,
        Tasks::Many(_) => Subject::Task(1),
    }
}

/// These cases, loaded. The first of them is of this subject.
#[tactic(auto, unfolding(crate::specs::Loading::loads_or_refusal))]
fn loads_from<'a>(
    alloc: Global,
    subject: Subject,
    cases: &'a [Case],
) -> Result<Vec<LoadedCase<'a>>, Stop>
    requires { task_number subject + length cases.now ≤ 9 }
    ensures stands { Stands (λ loads. map loaded_data loads.items) result (loads_or_refusal subject (map data_of cases.now)) }
    ensures count { IfOk result (λ loads. length loads.items ≡ length cases.now) }
    ensures ready { IfOk result (λ loads. All IsReadyToPlay loads.items) }
{
    let [case, later @ ..] = cases else {
        return Ok(Vec::new(alloc));
    };
    let start = start_in(alloc, subject, case)?;
    let mut loads = loads_from(alloc, subject.next(), later)?;
    loads.insert(0, LoadedCase { case, start })?;
    Ok(loads)
}
