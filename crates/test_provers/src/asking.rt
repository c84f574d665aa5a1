//! Questions, as rows write them, and asking them.
ghost use denote.Param.Send.{IsSync};

use bisect_game::{Answerer, Kind, Question};
use rd_base::{Answer, Memory, Qid};
use std::thread::Threads;
use toy_rows::{Unanswered, four_of, long_of, number_of};

/// A question, and the passes on it so far.
pub type Asked = (Question, u32);

/// `DISPUTE.ROUND`.
pub fn qid_of(text: &str) -> Result<Qid, Unanswered> {
    let (dispute, round) = text.split_once('.').ok_or(Unanswered::NoRow)?;
    Ok(Qid {
        dispute: number_of(dispute)?,
        round: number_of(round)?,
    })
}

/// `claim`, `root,STEP`, `roots,FROM,TO,PARTS` or `proof,STEP`.
fn kind_of(text: &str) -> Result<Kind, Unanswered> {
    let [name, step, to, parts] = four_of(text);
    if name == "claim" {
        return Ok(Kind::Claim);
    }
    let step = long_of(step)?;
    match name {
        "root" => Ok(Kind::Root(step)),
        "proof" => Ok(Kind::Proof(step)),
        "roots" => Ok(Kind::Roots {
            lo: step,
            hi: long_of(to)?,
            parts: number_of(parts)?,
        }),
        _ => Err(Unanswered::NoRow),
    }
}

/// `DISPUTE.ROUND:KIND`, and behind `+` the passes on the question so far, if there are any.
pub fn asked_in(text: &str) -> Result<Asked, Unanswered> {
    let (question, passes) = text.split_once('+').unwrap_or((text, "0"));
    let (qid, kind) = question.split_once(':').ok_or(Unanswered::NoRow)?;
    let question = Question {
        qid: qid_of(qid)?,
        kind: kind_of(kind)?,
    };
    Ok((question, number_of(passes)?))
}

/// What an answerer answers. No clause states what, so that the proofs of rows don't carry it. An `Err` is out of memory.
pub fn answer_of<R: Threads + Sync, A: Answerer>(
    rt: &R,
    answerer: &mut A,
    asked: Asked,
) -> Result<Option<Answer>, Memory>
    requires { IsSync R.row }
{
    answerer.answer(rt, &asked.0, asked.1)
}
