//! The true answer of a case's own run to a question of a match.
ghost use Rattle.std.specs.Prelude.{◌≡◌, ◌≢◌, IfOk};
ghost use Rattle.delegate.specs.declared.response.Answered.TheVariants as answered;
ghost use Rattle.coshalit_c.specs.Texts.{IsWrittenTo, IsUntouched};
ghost use Rattle.coshalit_c.specs.Questions.{kind_numbered, response_on};

use crate::texts::{CoshalitAnswer, out_of_memory, written};
use bisect_game::Kind;
use delegate::{Response, answer_truly, no_question};
use rd_base::Memory;
use std::alloc::Global;

/// The question with this number and these steps, if there is one.
fn kind_numbered(kind: u32, low: u64, high: u64, parts: u32) -> Option<Kind>
    ensures { result ≡ kind_numbered kind low high parts }
{
    match kind {
        1 => Some(Kind::Claim),
        2 => Some(Kind::Root(low)),
        3 => Some(Kind::Proof(low)),
        5 => Some(Kind::Roots {
            lo: low,
            hi: high,
            parts,
        }),
        _ => None,
    }
}

/// The response to a question, if it is one.
fn response_on(alloc: Global, question: Option<Kind>, case: &[u8]) -> Result<Response, Memory>
    ensures response { IfOk result (λ response. response ≡ response_on question case.now) }
    ensures own { IfOk result (λ response. response.answered ≢ answered.Memory) }
{
    match question {
        Some(kind) => answer_truly(alloc, kind, case),
        None => no_question(alloc),
    }
}

/// The true answer of a case's own run to a question of a match of the case, in the case's version and by SHA-256. The case is the bytes
/// `case`.
///
/// The question is by `kind`: 1 the claim; 2 the root of the state after `low` steps; 3 the proof of step `low`, which leads from state
/// `low` to state `low` + 1; 5 the roots at the cuts of the interval from `low` to `high` in `parts` parts. Numbers that a kind doesn't use
/// are ignored.
///
/// - 0: the text is the answer's wire form. What is written to `room`, and `length`, are as of `coshalit_audit`.
/// - 2: no match of the case asks this. The text is the line `fault usage`.
/// - 3, 4, 12: the case is refused. The status and the text are those of `coshalit_run`.
/// - 9: memory ran out. `length` is 0, and `room` stays as it was.
#[unsafe(no_mangle)]
pub extern "C" fn coshalit_answer(
    alloc: Global,
    case: &[u8],
    kind: u32,
    low: u64,
    high: u64,
    parts: u32,
    room: &mut [u8],
) -> CoshalitAnswer
    ensures response { result.status ≢ 9 → IsWrittenTo (response_on (kind_numbered kind low high parts) case.now) result room.old room.new }
    ensures memory { result.status ≡ 9 → IsUntouched result room.old room.new }
{
    match response_on(alloc, kind_numbered(kind, low, high, parts), case) {
        Ok(response) => written(&response, room),
        Err(_) => out_of_memory(),
    }
}
