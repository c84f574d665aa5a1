//! Lines about sizes and about runs.
use crate::answering::add_line;
use crate::cases::{case_of, flat, repeated, spaced};
use crate::images::{ANSWER, INPUT, OUTPUTS, PAGES, file_of_loads};
use rd_base::Memory;
use std::alloc::{AllocError, Global};
use std::sync::Wait;
use std::thread::Threads;

/// A case of this many bytes, most of them spaces.
fn case_of_length(alloc: Global, length: usize) -> Result<Vec<u8>, AllocError> {
    spaced(case_of(alloc, flat(ANSWER, 8), "{}")?, length)
}

/// A case whose image has this many bytes, none of them an instruction.
fn case_of_image(alloc: Global, length: u32) -> Result<Vec<u8>, AllocError> {
    let image = repeated(alloc, "01", length)?;
    case_of(alloc, flat(image.as_str(), 16_777_216), "{}")
}

/// A case whose assembly text has this many instructions, each a call that traps.
fn case_of_calls(alloc: Global, count: u32) -> Result<Vec<u8>, AllocError> {
    let text = repeated(alloc, "ecall\\n", count)?;
    let mut parts = flat(text.as_str(), 8);
    parts.format = "asm";
    case_of(alloc, parts, "{}")
}

/// A case with this many bytes of input.
fn case_of_input(alloc: Global, length: u32) -> Result<Vec<u8>, AllocError> {
    let input = repeated(alloc, "07", length)?;
    let mut parts = flat(INPUT, 16);
    parts.input = input.as_str();
    case_of(alloc, parts, "{}")
}

/// A case with the most loads.
fn case_of_loads(alloc: Global) -> Result<Vec<u8>, AllocError> {
    let file = file_of_loads(alloc)?;
    let mut parts = flat(file.as_str(), 8);
    parts.format = "elf";
    case_of(alloc, parts, "{}")
}

/// Adds the lines about the size of a case, of its image and of its input.
pub fn add_sizes<R: Threads + Wait + Sync>(
    rt: &R,
    alloc: Global,
    lines: &mut String,
) -> Result<(), Memory> {
    let run = "run";
    let case = case_of_length(alloc, 16_777_216);
    add_line(rt, alloc, lines, "a case of 16777216 bytes", run, case)?;
    let case = case_of_length(alloc, 16_777_217);
    add_line(rt, alloc, lines, "a case of 16777217 bytes", run, case)?;
    let case = case_of_image(alloc, 4_194_304);
    add_line(rt, alloc, lines, "an image of 4194304 bytes", run, case)?;
    let case = case_of_image(alloc, 4_194_305);
    add_line(rt, alloc, lines, "an image of 4194305 bytes", run, case)?;
    let case = case_of_calls(alloc, 1_048_576);
    add_line(rt, alloc, lines, "1048576 words of assembly", run, case)?;
    let case = case_of_calls(alloc, 1_048_577);
    add_line(rt, alloc, lines, "1048577 words of assembly", run, case)?;
    let case = case_of_input(alloc, 1_048_576);
    add_line(rt, alloc, lines, "an input of 1048576 bytes", run, case)?;
    let case = case_of_input(alloc, 1_048_577);
    add_line(rt, alloc, lines, "an input of 1048577 bytes", run, case)
}

/// Adds the lines about loads, pages, outputs and roots.
pub fn add_runs<R: Threads + Wait + Sync>(
    rt: &R,
    alloc: Global,
    lines: &mut String,
) -> Result<(), Memory> {
    let run = "run";
    let roots = "roots";
    add_line(rt, alloc, lines, "65535 loads", run, case_of_loads(alloc))?;
    let case = case_of(alloc, flat(PAGES, 20_000), "{}");
    add_line(rt, alloc, lines, "3000 pages", run, case)?;
    let case = case_of(alloc, flat(OUTPUTS, 400_000), "{}");
    add_line(rt, alloc, lines, "an output of 102400 bytes", run, case)?;
    let case = case_of(alloc, flat(OUTPUTS, 400_000), "{}");
    add_line(rt, alloc, lines, "a claim of 102400 bytes", "judge", case)?;
    let case = case_of(alloc, flat(ANSWER, 4_096), "{}");
    add_line(rt, alloc, lines, "roots of 4096 steps", roots, case)?;
    let case = case_of(alloc, flat(ANSWER, 4_097), "{}");
    add_line(rt, alloc, lines, "roots of 4097 steps", roots, case)
}
