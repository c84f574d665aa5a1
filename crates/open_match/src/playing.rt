//! A log is played.
ghost use Rattle.std.specs.Prelude.{◌≡◌, true, IfOk, IfErr};
ghost use Rattle.audit.specs.LineByLine.{rules_of_head, setup_of_head};
ghost use Rattle.open_match.specs.declared.playing.LogFault.TheVariants as fault;
ghost use Rattle.open_match.specs.OpenMatch.{IsAfterLog, IsRefused};
ghost use Rattle.transcript_text.specs.Limits.{numbers_are_in_limits};

use crate::entry::{EntryFault, post_entry};
use bisect_game::Judge;
use rd_base::{
    MAX_BOUND, MAX_FAN, MAX_PATIENCE, MAX_PROVERS, MAX_VERSION, MIN_FAN, MIN_VERSION, Memory,
};
use std::alloc::Global;
use tournament::{Match, Reply};
use transcript_text::Head;

/// A match in progress.
#[derive(Drop)]
pub struct OpenMatch<J: Judge + Drop> {
    /// The match after the posts of the log.
    pub game: Match<J>,
    /// The reply to the last of them; `None` if there is none.
    pub reply: Option<Reply>,
}

/// Why there is no match after a log, or out of memory.
#[derive(Clone, Copy, Debug)]
pub enum LogFault {
    /// A number of the head is beyond the limits of a text.
    BadHead,
    /// The bytes after whole entries, from the place `at` on, don't begin with an entry, for this cause. Places count bytes from 0.
    BadEntry { at: u64, cause: EntryFault },
    /// An allocation was refused.
    Memory,
}

impl From<Memory> for LogFault {
    ghost from_gives = { λ _ e. e ≡ fault.Memory };

    fn from(_e: Memory) -> LogFault {
        LogFault::Memory
    }
}

/// Whether each number of a head is within the limits of a text.
fn numbers_are_in_limits(head: &Head) -> bool
    ensures { result ≡ numbers_are_in_limits head.now }
{
    1 <= head.provers
        && head.provers as usize <= MAX_PROVERS
        && 1 <= head.bound
        && head.bound <= MAX_BOUND
        && u64::from(head.patience) <= MAX_PATIENCE
        && MIN_VERSION <= head.version
        && head.version <= MAX_VERSION
        && MIN_FAN <= head.fan
        && head.fan <= MAX_FAN
}

/// The match after a log of posts, by the numbers of this head and before this judge, and the reply to the last post.
///
/// An `Err` is `BadHead` exactly if a number is beyond its limit, and else `BadEntry` with the first place at which the log is none;
/// `Memory` may come in place of any other answer.
pub fn after<J: Judge + Drop>(
    alloc: Global,
    head: &Head,
    judge: J,
    log: &[u8],
) -> Result<OpenMatch<J>, LogFault>
    ensures head { IfOk result (λ m. (numbers_are_in_limits head.now ≡ true) × (m.game.judge ≡ J.names judge) × (m.game.setup ≡ setup_of_head head.now)) }
    ensures state { IfOk result (λ m. IsAfterLog (rules_of_head (J.ruling (J.names judge)) head.now) log.now m.game.game m.reply) }
    ensures refused { IfErr result (λ e. IsRefused head.now log.now e) }
{
    if !numbers_are_in_limits(head) {
        return Err(LogFault::BadHead);
    }
    let mut game = Match::new(
        alloc,
        judge,
        head.provers,
        head.bound,
        head.fan,
        head.patience,
        head.start,
    )?;
    let mut reply = None;
    let mut rest = log;
    'entries: while !rest.is_empty() {
        let (replied, behind) = match post_entry(alloc, &mut game, rest) {
            Ok(posted) => posted,
            Err(EntryFault::Memory) => return Err(LogFault::Memory),
            Err(cause) => {
                return Err(LogFault::BadEntry {
                    at: (log.len() - rest.len()) as u64,
                    cause,
                });
            }
        };
        reply = Some(replied);
        rest = behind;
    }
    Ok(OpenMatch { game, reply })
}
