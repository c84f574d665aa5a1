//! Answers that come as bytes, posted.
ghost use Rattle.std.specs.Prelude.{◌≡◌, ◌<◌, ◌≤◌, IfErr, IfOk};
ghost use Rattle.std.specs.Result.{result_ok};
ghost use Rattle.proof_wire.specs.Reading.{answer_in};
ghost use Rattle.tournament.specs.Posting.{posted, reply_to};
ghost use Rattle.tournament.specs.Match.{rules_in};

use bisect_game::Judge;
use proof_wire::{WireFault, decode};
use rd_base::{Answer, Memory, Qid};
use std::alloc::Global;
use tournament::{Match, Reply, move_of};

/// The answer with these bytes, if there is one.
fn answer_with(alloc: Global, bytes: &[u8]) -> Result<Option<Answer>, Memory>
    ensures { IfOk result (λ a. a ≡ result_ok (answer_in bytes.now)) }
{
    match decode(alloc, bytes) {
        Ok(answer) => Ok(Some(answer)),
        Err(WireFault::Memory) => Err(Memory),
        Err(WireFault::Short) => Ok(None),
        Err(WireFault::BadTag) => Ok(None),
        Err(WireFault::BadStatus) => Ok(None),
        Err(WireFault::TrailingBytes) => Ok(None),
        Err(WireFault::BadLength) => Ok(None),
    }
}

/// Posts what another process sent as prover p's answer to a question: the bytes of an answer. Bytes that are none count as a pass.
/// An `Err` is out of memory, and changes nothing.
pub fn post_bytes<J: Judge + Drop>(
    alloc: Global,
    game: &mut Match<J>,
    p: u32,
    qid: Qid,
    bytes: &[u8],
) -> Result<Reply, Memory>
    requires some { 0 < p }
    requires few { p ≤ game.old.setup.provers }
    ensures setup { game.new.setup ≡ game.old.setup }
    ensures unchanged { IfErr result (λ _. game.new ≡ game.old) }
    ensures state { IfOk result (λ _. game.new.game ≡ posted (rules_in J.ruling game.old) game.old.game p qid (result_ok (answer_in bytes.now))) }
    ensures reply { IfOk result (λ r. r ≡ reply_to (rules_in J.ruling game.old) game.old.game p qid (result_ok (answer_in bytes.now))) }
{
    let turn = move_of(answer_with(alloc, bytes)?);
    Ok(game.post(p, qid, turn))
}
