//! The full text of a match among a host's own parties.
ghost use Rattle.std.specs.Prelude.{◌≡◌, ◌≢◌, true, false};
ghost use Rattle.audit.specs.LineByLine.{setup_of_head};
ghost use Rattle.tournament.specs.Bracket.{is_complete};
ghost use Rattle.coshalit_c.specs.Texts.{IsUntouched};
ghost use Rattle.coshalit_c.specs.HostMatch.{head_of_match, IsTextOfMatch, IsTextFound, IsStillOpen, IsNoLogAnywhere};
ghost use Rattle.transcript_text.specs.Limits.{numbers_are_in_limits};

use crate::found::{BAD_LOG, BAD_NUMBERS, OUT_OF_MEMORY, STILL_OPEN, ending};
use crate::numbers::{CoshalitNumbers, head_of};
use crate::texts::{CoshalitAnswer, write_bytes};
use digest_core::Sha256;
use open_match::{LogFault, after, machine_text};
use std::alloc::Global;
use step_referee::MachineJudge;
use tournament::Match;
use transcript_text::Head;

/// No text, for this reason.
fn no_text(status: u32) -> CoshalitAnswer
    ensures { result ≡ record { status = status; length = 0 } }
{
    CoshalitAnswer { status, length: 0 }
}

/// The text of a match, if it is over.
fn text_of(
    alloc: Global,
    head: &Head,
    game: &Match<MachineJudge<Sha256>>,
    room: &mut [u8],
) -> CoshalitAnswer
    requires limits { numbers_are_in_limits head.now ≡ true }
    requires version { game.now.judge.version ≡ head.now.version }
    requires numbers { game.now.setup ≡ setup_of_head head.now }
    ensures over { result.status ≢ 9 → result.status ≢ 13 → IsTextOfMatch head.now game.now.game result room.old room.new }
    ensures open_ { result.status ≡ 13 → is_complete game.now.game.record_ ≡ false }
    ensures others { (result.status ≢ 14) × (result.status ≢ 15) }
    ensures memory { result.status ≡ 9 → IsUntouched result room.old room.new }
    ensures waits { result.status ≡ 13 → IsUntouched result room.old room.new }
{
    match machine_text(alloc, head, game) {
        Ok(Some(text)) => {
            let (status, _) = ending(game);
            write_bytes(text.as_slice(), room);
            CoshalitAnswer {
                status,
                length: text.as_slice().len(),
            }
        }
        Ok(None) => no_text(STILL_OPEN),
        Err(_) => no_text(OUT_OF_MEMORY),
    }
}

/// The full text of the match of these numbers after a log of posts, once it is over, which `coshalit_audit` confirms if it has at most
/// 16,777,216 bytes.
///
/// The status is that of `coshalit_match`. What is written to `room`, and `length`, are as of `coshalit_audit`. Unless the status is 0, 10 or
/// 11 there is no text: `length` is 0, and `room` stays as it was.
#[unsafe(no_mangle)]
pub extern "C" fn coshalit_match_text(
    alloc: Global,
    numbers: &CoshalitNumbers,
    log: &[u8],
    room: &mut [u8],
) -> CoshalitAnswer
    ensures text { result.status ≢ 9 → result.status ≢ 13 → result.status ≢ 14 → result.status ≢ 15 → IsTextFound (head_of_match numbers.now) log.now result room.old room.new }
    ensures open_ { result.status ≡ 13 → IsStillOpen (head_of_match numbers.now) log.now }
    ensures numbers { result.status ≡ 14 → numbers_are_in_limits (head_of_match numbers.now) ≡ false }
    ensures log { result.status ≡ 15 → IsNoLogAnywhere (head_of_match numbers.now) log.now }
    ensures memory { result.status ≡ 9 → IsUntouched result room.old room.new }
    ensures unwritten_open { result.status ≡ 13 → IsUntouched result room.old room.new }
    ensures unwritten_numbers { result.status ≡ 14 → IsUntouched result room.old room.new }
    ensures unwritten_log { result.status ≡ 15 → IsUntouched result room.old room.new }
{
    let head = head_of(numbers);
    match after(alloc, &head, MachineJudge::new(Sha256, head.version), log) {
        Ok(open) => text_of(alloc, &head, &open.game, room),
        Err(LogFault::BadHead) => no_text(BAD_NUMBERS),
        Err(LogFault::BadEntry { .. }) => no_text(BAD_LOG),
        Err(LogFault::Memory) => no_text(OUT_OF_MEMORY),
    }
}
