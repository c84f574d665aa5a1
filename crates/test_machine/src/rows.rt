//! The rows, and what each calls.
use crate::machine::Program;
use crate::memory::Memories;
use crate::{decoding, images, machine, memory};
use mem_plain::PlainMem;
use std::alloc::Global;
use std::thread::Threads;
use toy_rows::{Table, Unanswered, bytes, parts_of, word};

/// What rows speak of: two memories, a program, a file, and the operands of a word.
#[derive(Drop)]
pub struct Subject {
    memories: Memories,
    program: Program,
    file: Vec<u8>,
    operands: String,
}

/// The answer to a row that reads the first memory.
fn of_bytes(alloc: Global, mem: &PlainMem, words: &[&str]) -> Result<String, Unanswered> {
    match word(words, 0)? {
        "byte" => memory::byte(alloc, mem, words),
        "half" => memory::half(alloc, mem, words),
        "word" => memory::word(alloc, mem, words),
        "chunk" => memory::chunk(alloc, mem, words),
        "next_page" => memory::next_page(alloc, mem, words),
        _ => Err(Unanswered::NoRow),
    }
}

/// The answer to a row that changes the first memory, or to one of `of_bytes`.
fn of_stores(alloc: Global, mem: &mut PlainMem, words: &[&str]) -> Result<String, Unanswered> {
    match word(words, 0)? {
        "lay" => memory::lay(alloc, mem, words),
        "store" => memory::store(alloc, mem, words),
        _ => of_bytes(alloc, mem, words),
    }
}

/// The answer to a row of both memories, or to one of `of_stores`.
fn of_memories(alloc: Global, both: &mut Memories, words: &[&str]) -> Result<String, Unanswered> {
    match word(words, 0)? {
        "new" => Ok(memory::new(alloc, both)),
        "copy" => memory::copy(alloc, both),
        "exchange" => Ok(memory::exchange(alloc, both)),
        "put_page" => memory::put_page(alloc, both, words),
        _ => of_stores(alloc, &mut both.first, words),
    }
}

/// The answer to a row of an image, or to one of `of_memories`.
fn of_images(
    alloc: Global,
    both: &mut Memories,
    file: &[u8],
    words: &[&str],
) -> Result<String, Unanswered> {
    match word(words, 0)? {
        "elf" => images::load(alloc, both, file, words, false),
        "flat" => images::load(alloc, both, file, words, true),
        "elf_zeros" => images::load_zeros(alloc, both, words, false),
        "flat_zeros" => images::load_zeros(alloc, both, words, true),
        "headers" => images::load_headers(alloc, both, file, words),
        _ => of_memories(alloc, both, words),
    }
}

/// The answer to a row of a program.
fn of_machines(alloc: Global, program: &Program, words: &[&str]) -> Result<String, Unanswered> {
    match word(words, 0)? {
        "after" => machine::after(alloc, program, words),
        "step" => machine::first_step(alloc, program),
        "original" => machine::of_original(alloc, program, words),
        "copied" => machine::of_copy(alloc, program, words),
        _ => Err(Unanswered::NoRow),
    }
}

/// The answer to a row that speaks of nothing that is kept, or to one of `of_machines`.
fn of_words(
    alloc: Global,
    program: &Program,
    operands: &str,
    words: &[&str],
) -> Result<String, Unanswered> {
    match word(words, 0)? {
        "decode" => decoding::reading(alloc, words, false),
        "listed" => decoding::reading(alloc, words, true),
        "x3" => decoding::results(alloc, operands, words),
        "x3_loaded" => decoding::loads(alloc, words),
        "fault" => images::fault(alloc, words),
        _ => of_machines(alloc, program, words),
    }
}

/// The answer to a row that calls.
fn answer_to_call(
    alloc: Global,
    subject: &mut Subject,
    words: &[&str],
) -> Result<String, Unanswered> {
    match of_words(alloc, &subject.program, subject.operands.as_str(), words) {
        Err(Unanswered::NoRow) => {
            of_images(alloc, &mut subject.memories, subject.file.as_slice(), words)
        }
        answered => answered,
    }
}

/// `file BYTES`: the file of the rows below.
fn take_file(alloc: Global, file: &mut Vec<u8>, words: &[&str]) -> Result<String, Unanswered> {
    let taken = bytes(alloc, words, 1)?;
    *file = taken;
    Ok(String::new(alloc))
}

/// `program VERSION IMAGE INPUT`: the program of the rows below.
fn take_program(
    alloc: Global,
    program: &mut Program,
    words: &[&str],
) -> Result<String, Unanswered> {
    let taken = machine::make_program(alloc, words)?;
    *program = taken;
    Ok(String::new(alloc))
}

/// `operands A,B ..`: the operands of the rows `x3` below.
fn take_operands(alloc: Global, operands: &mut String, row: &str) -> Result<String, Unanswered> {
    let Some(text) = row.strip_prefix("operands ") else {
        return Err(Unanswered::NoRow);
    };
    let taken = String::from_str(alloc, text)?;
    *operands = taken;
    Ok(String::new(alloc))
}

/// The answer to a row that says of what the rows below it speak, or to one that calls.
fn answer(
    alloc: Global,
    subject: &mut Subject,
    row: &str,
    words: &[&str],
) -> Result<String, Unanswered> {
    match word(words, 0)? {
        "operands" => take_operands(alloc, &mut subject.operands, row),
        "file" => take_file(alloc, &mut subject.file, words),
        "program" => take_program(alloc, &mut subject.program, words),
        _ => answer_to_call(alloc, subject, words),
    }
}

impl Table for Subject {
    fn answer<R: Threads + Sync>(
        &mut self,
        _rt: &R,
        alloc: Global,
        row: &str,
    ) -> Result<String, Unanswered> {
        let words = parts_of(alloc, row, ' ')?;
        answer(alloc, self, row, words.as_slice())
    }
}

/// What the first row speaks of: empty memories, program, file and operands.
pub fn empty_subject(alloc: Global) -> Subject {
    Subject {
        memories: Memories {
            first: PlainMem::new(alloc),
            other: PlainMem::new(alloc),
        },
        program: Program {
            version: 1,
            image: Vec::new(alloc),
            input: Vec::new(alloc),
        },
        file: Vec::new(alloc),
        operands: String::new(alloc),
    }
}
