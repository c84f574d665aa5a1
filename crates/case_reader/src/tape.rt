//! The tape of a prover.
ghost use Rattle.std.specs.Prelude.{◌≡◌, map, Ok, codes};
ghost use Rattle.std.specs.Option.{option_map, option_and_then};
ghost use Rattle.serde_json.specs.Find.{get, as_array};
ghost use Rattle.serde_json.specs.View.{view};
ghost use Rattle.rd_base.specs.Results.{Gives};
ghost use Rattle.case_reader.specs.Fields.{listed};
ghost use Rattle.case_reader.specs.Scripts.{answer_of_key, tape_answer_in, tape_answers_in, tape_in};

use crate::fault::CaseFault;
use crate::field::{hex_bytes, text_at, word_at};
use proof_wire::{WireFault, decode};
use rd_base::{Answer, MAX_TAPE_ANSWERS, Qid, Tape, TapeAnswer};
use serde_json::Value;
use std::alloc::Global;

/// The answers of the kind `tape`, if they are known. An `Err` is `Memory`.
#[tactic(auto, unfolding(crate::specs::Scripts::tape_in))]
pub fn tape_of(alloc: Global, manner: &Value) -> Result<Option<Tape>, CaseFault>
    ensures { Gives CaseFault.Memory (λ known. known) result (Ok (tape_in (view manner.now))) }
{
    let Some(elements) = elements_of(manner) else {
        return Ok(None);
    };
    if elements.len() > MAX_TAPE_ANSWERS {
        return Ok(None);
    }
    Ok(answers_of(alloc, elements)?.and_then(Tape::new))
}

/// The elements of a tape.
fn elements_of(manner: &Value) -> Option<&[Value]>
    ensures { option_map (λ elements. map view elements.now) result
        ≡ option_and_then (λ value. option_map listed (as_array value)) (get (codes "answers") (view manner.now)) }
{
    elements_in(manner.get("answers")?)
}

/// The elements of a value that is an array.
fn elements_in(value: &Value) -> Option<&[Value]>
    ensures { option_map (λ elements. map view elements.now) result ≡ option_map listed (as_array (view value.now)) }
{
    match value.as_array() {
        Some(elements) => Some(elements.as_slice()),
        None => None,
    }
}

/// The answers of a tape, if all are known.
fn answers_of(alloc: Global, elements: &[Value]) -> Result<Option<Vec<TapeAnswer>>, CaseFault>
    ensures { Gives CaseFault.Memory (option_map (λ answers. answers.items)) result (Ok (tape_answers_in (map view elements.now))) }
{
    let mut answers = Vec::new(alloc);
    'elements: for element in elements {
        let Some(answer) = tape_answer_of(alloc, element)? else {
            return Ok(None);
        };
        answers.push(answer)?;
    }
    Ok(Some(answers))
}

/// An answer of a tape, and the number of its question.
#[tactic(auto, unfolding(crate::specs::Scripts::tape_answer_in))]
fn tape_answer_of(alloc: Global, element: &Value) -> Result<Option<TapeAnswer>, CaseFault>
    ensures { Gives CaseFault.Memory (λ known. known) result (Ok (tape_answer_in (view element.now))) }
{
    let Some(dispute) = word_at(element, "dispute") else {
        return Ok(None);
    };
    let Some(round) = word_at(element, "round") else {
        return Ok(None);
    };
    match answer_at(alloc, element, "answer")? {
        Some(answer) => Ok(Some(TapeAnswer {
            qid: Qid { dispute, round },
            answer,
        })),
        None => Ok(None),
    }
}

/// The answer of a key whose text is the digits of a wire form.
#[tactic(auto, unfolding(crate::specs::Scripts::answer_of_key))]
fn answer_at(alloc: Global, element: &Value, key: &str) -> Result<Option<Answer>, CaseFault>
    ensures { Gives CaseFault.Memory (λ known. known) result (Ok (answer_of_key key.now (view element.now))) }
{
    let Some(text) = text_at(element, key) else {
        return Ok(None);
    };
    let Some(bytes) = hex_bytes(alloc, text)? else {
        return Ok(None);
    };
    match decode(alloc, bytes.as_slice()) {
        Ok(answer) => Ok(Some(answer)),
        Err(WireFault::Memory) => Err(CaseFault::Memory),
        Err(_) => Ok(None),
    }
}
