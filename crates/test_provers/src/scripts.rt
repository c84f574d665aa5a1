//! Tampers, manners and scripts, as rows write them.
use crate::asking::qid_of;
use rd_base::{
    Answer, Claim, ClaimOutput, Ctl, Digest32, FirstSilentRound, Manner, PassCount, RegisterNumber,
    Script, Status, Tamper, Tape, TapeAnswer,
};
use std::alloc::Global;
use toy_rows::{Unanswered, byte_of, bytes_of, four_of, number_of};

/// `untouched`, `flip,STEP,ADDRESS,MASK`, `register,STEP,NUMBER,VALUE` or `early,STEPS`.
pub fn tamper_of(text: &str) -> Result<Tamper, Unanswered> {
    let [name, first, second, third] = four_of(text);
    if name == "untouched" {
        return Ok(Tamper::Untouched);
    }
    let step = number_of(first)?;
    match name {
        "early" => Ok(Tamper::Early { steps: step }),
        "flip" => Ok(Tamper::Flip {
            step,
            addr: number_of(second)?,
            mask: byte_of(third)?,
        }),
        "register" => Ok(Tamper::Register {
            step,
            reg: register_of(second)?,
            value: number_of(third)?,
        }),
        _ => Err(Unanswered::NoRow),
    }
}

/// The number of a register.
fn register_of(text: &str) -> Result<RegisterNumber, Unanswered> {
    RegisterNumber::new(byte_of(text)?).ok_or(Unanswered::NoRow)
}

/// Control fields of a running machine that has written a byte.
pub const CTL: Ctl = Ctl {
    pc: 65536,
    status: Status::Running,
    out_len: 1,
    chain: Digest32([3; 32]),
};

/// The output that a text writes.
fn output_of(alloc: Global, text: &str) -> Result<ClaimOutput, Unanswered> {
    ClaimOutput::new(bytes_of(alloc, text)?).ok_or(Unanswered::NoRow)
}

/// A claim of the output that a text writes, which doesn't agree with its chain.
pub fn claim_of(alloc: Global, text: &str) -> Result<Answer, Unanswered> {
    Ok(Answer::Claim(Claim {
        mem: Digest32([1; 32]),
        regs: Digest32([2; 32]),
        ctl: CTL,
        output: output_of(alloc, text)?,
    }))
}

/// `claim`, of the output `2b`, or a byte, which stands for the root of this byte 32 times.
fn taped(alloc: Global, text: &str) -> Result<Answer, Unanswered> {
    if text == "claim" {
        return claim_of(alloc, "2b");
    }
    Ok(Answer::Root(Digest32([byte_of(text)?; 32])))
}

/// `DISPUTE.ROUND=ANSWER`.
fn entry_of(alloc: Global, text: &str) -> Result<TapeAnswer, Unanswered> {
    let (qid, answer) = text.split_once('=').ok_or(Unanswered::NoRow)?;
    Ok(TapeAnswer {
        qid: qid_of(qid)?,
        answer: taped(alloc, answer)?,
    })
}

/// A tape of the entries between commas.
fn tape_of(alloc: Global, text: &str) -> Result<Manner, Unanswered> {
    let mut answers = Vec::new(alloc);
    for entry in text.split(',') {
        answers.push(entry_of(alloc, entry)?)?;
    }
    match Tape::new(answers) {
        Some(tape) => Ok(Manner::Tape(tape)),
        None => Err(Unanswered::NoRow),
    }
}

/// `late,PASSES`, `silent,ROUND`, `forge,STEP,REGISTER,VALUE` or `noise,SEED`.
fn of_numbers(text: &str) -> Result<Manner, Unanswered> {
    let [name, first, second, third] = four_of(text);
    let first = number_of(first)?;
    match name {
        "late" => Ok(Manner::Late(PassCount::new(first).ok_or(Unanswered::NoRow)?)),
        "silent" => Ok(Manner::Silent(FirstSilentRound::new(first).ok_or(Unanswered::NoRow)?)),
        "noise" => Ok(Manner::Noise { seed: first }),
        "forge" => Ok(Manner::Forge {
            step: first,
            reg: register_of(second)?,
            value: number_of(third)?,
        }),
        _ => Err(Unanswered::NoRow),
    }
}

/// `plain`, `output,BYTES`, `tape,ENTRY,..`, or a manner of numbers.
pub fn manner_of(alloc: Global, text: &str) -> Result<Manner, Unanswered> {
    let (name, rest) = text.split_once(',').unwrap_or((text, ""));
    match name {
        "plain" => Ok(Manner::Plain),
        "output" => Ok(Manner::Output(output_of(alloc, rest)?)),
        "tape" => tape_of(alloc, rest),
        _ => of_numbers(text),
    }
}

/// `TAMPER/MANNER`.
fn script_of(alloc: Global, text: &str) -> Result<Script, Unanswered> {
    let (tamper, manner) = text.split_once('/').ok_or(Unanswered::NoRow)?;
    Ok(Script {
        tamper: tamper_of(tamper)?,
        manner: manner_of(alloc, manner)?,
    })
}

/// The scripts that these texts write.
pub fn scripts_of(alloc: Global, texts: &[&str]) -> Result<Vec<Script>, Unanswered> {
    let mut scripts = Vec::new(alloc);
    for text in texts {
        scripts.push(script_of(alloc, text)?)?;
    }
    Ok(scripts)
}
