//! Rows of the referee: the checks of changed proofs.
ghost use Rattle.std.specs.Prelude.{◌≡◌};

use crate::changes::change;
use crate::run::{Run, state_at};
use digest_core::Sha256;
use open_proof::{Facts, HeldInput, HeldRegisters, facts_of};
use rd_base::{Digest32, Proof, StepProof, StepProof2, StepProof3, Steps};
use std::alloc::Global;
use std::marker::Brand;
use std::sync::ledger::{Blank, Ledger};
use step_referee::{StepCheck, check_step};
use toy_rows::{Unanswered, number, number_of};

/// What the referee is asked.
#[derive(Drop)]
struct Question {
    /// The version of the referee.
    version: u32,
    /// The root that the proof is to open.
    root: Digest32,
    /// What the proof holds.
    facts: Facts,
}

/// The proof that holds this.
fn proof_of(facts: Facts) -> Proof {
    let Facts {
        version: _,
        mem,
        input_tree,
        regs,
        ctl,
        fetch,
        operand,
        input,
    } = facts;
    match regs {
        HeldRegisters::Whole(regs) => Proof::V1(StepProof {
            mem,
            regs,
            ctl,
            fetch,
            operand,
        }),
        HeldRegisters::Opened(regs, named) => match input_tree {
            None => Proof::V2(StepProof2 {
                mem,
                regs,
                ctl,
                fetch,
                named,
                operand,
            }),
            Some(HeldInput { len, root }) => Proof::V3(StepProof3 {
                mem,
                input_len: len,
                input_root: root,
                regs,
                ctl,
                fetch,
                named,
                operand,
                input,
            }),
        },
    }
}

fn checked_in<L: Ledger>(version: u32, a: Digest32, proof: &Proof, blank: Blank) -> StepCheck
    requires name { blank.name ≡ L.name }
    requires parts { blank.parts ≡ L.parts }
    requires one { L.parts ≡ 1 }
{
    let mut steps = Steps::<L>::new(blank);
    check_step(Sha256, version, a, proof, &mut steps)
}

/// The result of the check of a proof from a root, for a referee of a version.
fn checked(version: u32, a: Digest32, proof: &Proof) -> StepCheck {
    checked_in::<Brand>(version, a, proof, Blank::new(1))
}

/// The root that a proof is to open: `next`, that of the next state, or `zero`.
fn root_of(text: &str, next: Digest32) -> Result<Digest32, Unanswered> {
    match text {
        "next" => Ok(next),
        "zero" => Ok(Digest32::ZERO),
        _ => Err(Unanswered::NoRow),
    }
}

/// Changes what is asked: `referee=VERSION`, `from=ROOT`, or a change of the proof.
fn change_question(
    run: &Run,
    question: &mut Question,
    next: Digest32,
    edit: &str,
) -> Result<(), Unanswered> {
    let Some((name, value)) = edit.split_once('=') else {
        return Err(Unanswered::NoRow);
    };
    match name {
        "referee" => question.version = number_of(value)?,
        "from" => question.root = root_of(value, next)?,
        _ => return change(run, &mut question.facts, name, value),
    }
    Ok(())
}

/// The answer of the referee, to a proof from a root.
fn said(checked: StepCheck, root: Digest32, next: Digest32) -> &'static str {
    match checked {
        StepCheck::Leads(to) => {
            if to == root {
                "leads to the same root"
            } else if to == next {
                "leads to the next root"
            } else {
                "leads to another root"
            }
        }
        StepCheck::NotOpen => "not open",
        StepCheck::WrongShape => "wrong shape",
    }
}

/// `check STEP CHANGE ..`: the answer of the referee to the plain proof of a step after these changes. Without one it is asked about the
/// proof itself and about the one that its parts make, as the changed ones are made.
pub fn check(alloc: Global, run: &Run, words: &[&str]) -> Result<String, Unanswered> {
    let step = number(words, 1)?;
    let state = state_at(run, step)?;
    let next = state_at(run, step.saturating_add(1))?.root;
    if words.len() == 2 {
        let result = checked(run.version, state.root, &state.proof);
        let of_parts = proof_of(facts_of(&state.proof));
        if checked(run.version, state.root, &of_parts) != result {
            return Ok(String::from_str(alloc, "the parts make another proof")?);
        }
        return Ok(String::from_str(alloc, said(result, state.root, next))?);
    }
    let mut question = Question {
        version: run.version,
        root: state.root,
        facts: facts_of(&state.proof),
    };
    for edit in words.get(2..).unwrap_or(&[]) {
        change_question(run, &mut question, next, edit)?;
    }
    let Question {
        version,
        root,
        facts,
    } = question;
    let result = checked(version, root, &proof_of(facts));
    Ok(String::from_str(alloc, said(result, root, next))?)
}
