//! Answers in words.
use crate::opened;
use digest_core::Sha256;
use out_chain::{ClaimCheck, check_claim, parts_root};
use rd_base::{Answer, Claim, Digest32};
use std::alloc::Global;
use toy_machine::first_eight;
use toy_rows::Unanswered;

/// A name, and how roots begin, each behind a space.
pub fn begins(alloc: Global, name: &str, roots: &[Digest32]) -> Result<String, Unanswered> {
    let mut text = String::from_str(alloc, name)?;
    for root in roots {
        text.push_str(format!(in alloc; " {:016x}", first_eight(*root))?.as_str())?;
    }
    Ok(text)
}

/// The root of the state that a claim names, if it agrees with itself, and its output.
pub fn claim(alloc: Global, claim: &Claim) -> Result<String, Unanswered> {
    let root = match check_claim(Sha256, claim) {
        ClaimCheck::Sound => begins(
            alloc,
            "",
            &[parts_root(Sha256, claim.mem, claim.regs, &claim.ctl)],
        )?,
        _ => String::from_str(alloc, " no state")?,
    };
    let output = hex::encode(alloc, claim.output.as_slice())?;
    let between = if output.is_empty() { "" } else { " " };
    Ok(format!(in alloc; "claim of{root}, output{between}{output}")?)
}

/// An answer, or a pass. Of a proof the root of its state and what it opens, if the text of the question says which registers that should
/// be, and else what its registers hold.
pub fn answer(
    alloc: Global,
    answer: &Option<Answer>,
    text: Option<&str>,
) -> Result<String, Unanswered> {
    match answer {
        None => Ok(String::from_str(alloc, "pass")?),
        Some(Answer::Root(root)) => begins(alloc, "root", &[*root]),
        Some(Answer::Roots(list)) => begins(alloc, "roots", list.as_slice()),
        Some(Answer::Claim(named)) => claim(alloc, named),
        Some(Answer::Step(proof)) => opened::answered(alloc, proof.get(), text),
    }
}

/// An answer, and before it whether its prover's manner has it wait.
pub fn waiting(
    alloc: Global,
    waits: bool,
    said: &Option<Answer>,
    text: Option<&str>,
) -> Result<String, Unanswered> {
    let said = answer(alloc, said, text)?;
    let wait = if waits { "waits: " } else { "" };
    Ok(format!(in alloc; "{wait}{said}")?)
}
