//! A match among a host's own parties: what it has come to after a log of posts.
ghost use Rattle.std.specs.Prelude.{◌≡◌, ◌≢◌, ◌≤◌, false, IfOk, IfErr};
ghost use Rattle.tournament.specs.Match.{rules_in};
ghost use Rattle.coshalit_c.specs.HostMatch.{head_of_match, IsMatchWritten, IsMatchFound, IsNoLogFound};
ghost use Rattle.transcript_text.specs.Limits.{numbers_are_in_limits};

use crate::asked::{CoshalitQuestion, questions, write_questions};
use crate::found::{
    BAD_LOG, BAD_NUMBERS, CoshalitMatch, OUT_OF_MEMORY, cause_number, ending, reply_number,
    rule_number,
};
use crate::numbers::{CoshalitNumbers, head_of};
use bisect_game::Judge;
use digest_core::Sha256;
use open_match::{LogFault, OpenMatch, after};
use rd_base::Memory;
use std::alloc::Global;
use step_referee::MachineJudge;

/// What is found of a match of at most 16 provers. An `Err` writes nothing.
fn found_of<J: Judge + Drop>(
    alloc: Global,
    game: &OpenMatch<J>,
    asked: &mut [CoshalitQuestion],
) -> Result<(u32, CoshalitMatch), Memory>
    requires few { game.now.game.setup.provers ≤ 16 }
    ensures found { IfOk result (λ x. IsMatchWritten (rules_in J.ruling game.now.game) game.now.game.setup.provers game.now.game.game game.now.reply x.0 x.1 asked.old asked.new) }
    ensures unwritten { IfErr result (λ _. asked.new ≡ asked.old) }
{
    let open_questions = questions(alloc, &game.game)?;
    let (status, accepted) = ending(&game.game);
    let found = CoshalitMatch {
        reply: reply_number(game.reply),
        accepted,
        asked: open_questions.len() as u32,
        cause: 0,
        rule: 0,
        at: 0,
    };
    write_questions(open_questions.as_slice(), asked);
    Ok((status, found))
}

/// The match of these numbers after a log of posts, before the referee of the machine and by SHA-256.
///
/// - 0, 10, 11: it is over, and a prover is accepted, or none is left, or two different strings of one digest were shown. The reply to
///   the last post and the number of the accepted prover are written to `found`, and nothing to `asked`.
/// - 13: a question is open. The open questions are written to `asked`, in the order of their provers, as many as there is room for. The
///   reply to the last post and how many questions there are are written to `found`. Room for 16 is always enough.
/// - 14: a number is beyond its limit. Nothing is written.
/// - 15: the bytes are no log. Where and why is written to `found`, and nothing to `asked`.
/// - 9: memory ran out. Nothing is written.
#[unsafe(no_mangle)]
pub extern "C" fn coshalit_match(
    alloc: Global,
    numbers: &CoshalitNumbers,
    log: &[u8],
    found: &mut CoshalitMatch,
    asked: &mut [CoshalitQuestion],
) -> u32
    ensures found { result ≢ 9 → result ≢ 14 → result ≢ 15 → IsMatchFound (head_of_match numbers.now) log.now result found.new asked.old asked.new }
    ensures numbers { result ≡ 14 → numbers_are_in_limits (head_of_match numbers.now) ≡ false }
    ensures log { result ≡ 15 → IsNoLogFound (head_of_match numbers.now) log.now found.new }
    ensures unwritten { result ≡ 9 → (found.new ≡ found.old) × (asked.new ≡ asked.old) }
    ensures kept { result ≡ 14 → (found.new ≡ found.old) × (asked.new ≡ asked.old) }
    ensures unasked { result ≡ 15 → asked.new ≡ asked.old }
{
    let head = head_of(numbers);
    match after(alloc, &head, MachineJudge::new(Sha256, head.version), log) {
        Ok(open) => match found_of(alloc, &open, asked) {
            Ok((status, come_to)) => {
                *found = come_to;
                status
            }
            Err(_) => OUT_OF_MEMORY,
        },
        Err(LogFault::BadHead) => BAD_NUMBERS,
        Err(LogFault::BadEntry { at, cause }) => {
            *found = CoshalitMatch {
                reply: 0,
                accepted: 0,
                asked: 0,
                cause: cause_number(cause),
                rule: rule_number(cause),
                at,
            };
            BAD_LOG
        }
        Err(LogFault::Memory) => OUT_OF_MEMORY,
    }
}
