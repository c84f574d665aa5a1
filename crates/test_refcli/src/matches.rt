//! Lines about provers, options, patience and the bound.
use crate::answering::add_line;
use crate::cases::{case_of, flat, repeated};
use crate::images::ANSWER;
use rd_base::Memory;
use std::alloc::{AllocError, Global};
use std::sync::Wait;
use std::thread::Threads;

/// A prover whose run puts 43, and a comma.
const LIAR: &str = "{\"tamper\":{\"kind\":\"reg\",\"step\":2,\"reg\":10,\"value\":43}},";

/// The same, which passes a hundred times on each question.
const LATE_LIAR: &str =
    "{\"tamper\":{\"kind\":\"reg\",\"step\":2,\"reg\":10,\"value\":43},\"manner\":{\"kind\":\"late\",\"passes\":100}},";

/// An honest prover that passes a hundred times.
const LATE: &str = "{\"manner\":{\"kind\":\"late\",\"passes\":100}}";

/// A prover that passes a hundred and one times, and a comma.
const SPENT: &str = "{\"manner\":{\"kind\":\"late\",\"passes\":101}},";

/// A case of this many provers of one script, and one after them.
fn case_of_provers(
    alloc: Global,
    bound: u32,
    patience: u32,
    count: u32,
    script: &str,
    last: &str,
) -> Result<Vec<u8>, AllocError> {
    let mut provers = repeated(alloc, script, count)?;
    provers.push_str(last)?;
    let mut parts = flat(ANSWER, bound);
    parts.patience = patience;
    case_of(alloc, parts, provers.as_str())
}

/// Adds the lines about the number of provers, and about the options.
pub fn add_options<R: Threads + Wait + Sync>(
    rt: &R,
    alloc: Global,
    lines: &mut String,
) -> Result<(), Memory> {
    let plain = "judge";
    let posters = "judge --posters 16";
    let least = "judge --workers 64 --every 1";
    let most = "judge --posters 16 --workers 64 --every 65536";
    let case = case_of_provers(alloc, 8, 0, 15, LIAR, "{}");
    add_line(rt, alloc, lines, "16 provers", plain, case)?;
    let case = case_of_provers(alloc, 8, 0, 16, LIAR, "{}");
    add_line(rt, alloc, lines, "17 provers", plain, case)?;
    let case = case_of_provers(alloc, 8, 0, 15, LIAR, "{}");
    add_line(rt, alloc, lines, "16 provers, 16 posters", posters, case)?;
    let case = case_of_provers(alloc, 8, 0, 15, LIAR, "{}");
    add_line(
        rt,
        alloc,
        lines,
        "16 provers, 64 workers, each step",
        least,
        case,
    )?;
    let case = case_of_provers(alloc, 8, 0, 15, LIAR, "{}");
    add_line(
        rt,
        alloc,
        lines,
        "16 provers, all options at their most",
        most,
        case,
    )
}

/// Adds the lines about patience and the bound.
pub fn add_numbers<R: Threads + Wait + Sync>(
    rt: &R,
    alloc: Global,
    lines: &mut String,
) -> Result<(), Memory> {
    let judge = "judge";
    let case = case_of_provers(alloc, 8, 100, 15, LATE_LIAR, LATE);
    add_line(
        rt,
        alloc,
        lines,
        "16 provers, 100 passes on each question",
        judge,
        case,
    )?;
    let case = case_of_provers(alloc, 8, 100, 15, SPENT, "{}");
    add_line(
        rt,
        alloc,
        lines,
        "16 provers, 101 passes of 15",
        judge,
        case,
    )?;
    let case = case_of_provers(alloc, 8, 101, 0, LIAR, "{}");
    add_line(rt, alloc, lines, "patience 101", judge, case)?;
    let case = case_of_provers(alloc, 4_294_967_295, 0, 1, LIAR, "{}");
    add_line(
        rt,
        alloc,
        lines,
        "a bound of 4294967295 steps, 32 rounds",
        judge,
        case,
    )
}
