//! An answerer that gives one answer to each question, under a manner.
ghost use denote.Param.Send.{IsSync};

use crate::asking::{answer_of, asked_in};
use crate::said::waiting;
use crate::scripts::{CTL, claim_of, manner_of};
use bisect_game::{Answerer, Question};
use digest_core::Sha256;
use prover_script::{Scripted, waits};
use rd_base::{
    Answer, Boxed, Digest32, Memory, Opening, Path, Proof, RegOpening, RegOpenings, RegPath, Regs,
    RootList, StepProof, StepProof2, StepProof3,
};
use std::alloc::Global;
use std::thread::Threads;
use toy_rows::{Unanswered, four_of, number_of, word};

/// An answerer that gives one answer to each question, or passes on each.
#[derive(Drop)]
struct Fixed {
    alloc: Global,
    answer: Option<Answer>,
}

impl Answerer for Fixed {
    ghost answers = { λ f question passes. f.answer };

    fn answer<R: Threads + Sync>(
        &mut self,
        _rt: &R,
        _question: &Question,
        _passes: u32,
    ) -> Result<Option<Answer>, Memory> {
        match &self.answer {
            Some(answer) => Ok(Some(answer.copy(self.alloc)?)),
            None => Ok(None),
        }
    }
}

/// A proof in which x5 holds 5 and x6 holds 6.
fn proof_of_version_1() -> Proof {
    let mut regs = Regs::new();
    regs.set(5, 5);
    regs.set(6, 6);
    Proof::V1(StepProof {
        mem: Digest32([1; 32]),
        regs,
        ctl: CTL,
        fetch: None,
        operand: None,
    })
}

/// The chunk at 65536, which begins with the word of an instruction, or `none`.
fn chunk_of(text: &str) -> Result<Option<Opening>, Unanswered> {
    if text == "none" {
        return Ok(None);
    }
    let mut chunk = [0; 32];
    let [first, second, third, fourth] = number_of(text)?.to_le_bytes();
    chunk[0] = first;
    chunk[1] = second;
    chunk[2] = third;
    chunk[3] = fourth;
    Ok(Some(Opening {
        chunk,
        path: Path([Digest32([4; 32]); 27]),
    }))
}

/// `3` opened registers, which hold 1, 2 and 3, or `0`.
fn registers_of(text: &str) -> Result<RegOpenings, Unanswered> {
    let path = RegPath([Digest32([5; 32]); 5]);
    let mut named = RegOpenings::new();
    if text == "3" {
        named.push(RegOpening { value: 1, path });
        named.push(RegOpening { value: 2, path });
        named.push(RegOpening { value: 3, path });
    } else if text != "0" {
        return Err(Unanswered::NoRow);
    }
    Ok(named)
}

/// A proof of version 2 that opens this.
fn proof_of_version_2(fetch: Option<Opening>, named: RegOpenings) -> Proof {
    Proof::V2(StepProof2 {
        mem: Digest32([1; 32]),
        regs: Digest32([2; 32]),
        ctl: CTL,
        fetch,
        named,
        operand: None,
    })
}

/// A proof of version 3 that opens this.
fn proof_of_version_3(fetch: Option<Opening>, named: RegOpenings) -> Proof {
    Proof::V3(StepProof3 {
        mem: Digest32([1; 32]),
        input_len: 0,
        input_root: Digest32([6; 32]),
        regs: Digest32([2; 32]),
        ctl: CTL,
        fetch,
        named,
        operand: None,
        input: None,
    })
}

/// `proof1`, or `proof2,WORD,REGISTERS` or `proof3,WORD,REGISTERS`: a proof that opens the chunk of an instruction's word, unless that is
/// `none`, and 3 registers or 0.
fn proof_of(text: &str) -> Result<Proof, Unanswered> {
    let [name, chunk, registers, _] = four_of(text);
    if name == "proof1" {
        return Ok(proof_of_version_1());
    }
    let fetch = chunk_of(chunk)?;
    let named = registers_of(registers)?;
    match name {
        "proof2" => Ok(proof_of_version_2(fetch, named)),
        "proof3" => Ok(proof_of_version_3(fetch, named)),
        _ => Err(Unanswered::NoRow),
    }
}

/// What an answerer without a manner gives: `claim`, of the output `2a`; `root`, of sevens; `roots`, three of sevens; or a proof.
fn given(alloc: Global, text: &str) -> Result<Answer, Unanswered> {
    let sevens = Digest32([7; 32]);
    match text {
        "claim" => claim_of(alloc, "2a"),
        "root" => Ok(Answer::Root(sevens)),
        "roots" => match RootList::new(vec![in alloc; sevens; 3]?) {
            Some(roots) => Ok(Answer::Roots(roots)),
            None => Err(Unanswered::NoRow),
        },
        _ => Ok(Answer::Step(Boxed::new(Box::new(alloc, proof_of(text)?)?))),
    }
}

/// `ask MANNER GIVEN QUESTION`: the answer of a prover with this manner, which would give this answer without it, or `pass`, and whether
/// the manner has it wait.
pub fn ask<R: Threads + Sync>(rt: &R, alloc: Global, words: &[&str]) -> Result<String, Unanswered>
    requires { IsSync R.row }
{
    let asked = asked_in(word(words, 3)?)?;
    let answer = match word(words, 2)? {
        "pass" => None,
        text => Some(given(alloc, text)?),
    };
    let manner = manner_of(alloc, word(words, 1)?)?;
    let waits = waits(&manner, &asked.0, asked.1);
    let mut scripted = Scripted::new(alloc, Sha256, Fixed { alloc, answer }, manner);
    let answer = answer_of(rt, &mut scripted, asked);
    drop(scripted);
    waiting(alloc, waits, &answer?, None)
}
