//! What a match of a host has come to after a log of posts.
ghost use Rattle.std.specs.Prelude.{◌≡◌};
ghost use Rattle.tournament.specs.Match.{rules_in};
ghost use Rattle.coshalit_c.specs.HostMatch.{reply_number, status_of_match, accepted_of_match, entry_cause_number, entry_rule_number};

use bisect_game::Judge;
use open_match::EntryFault;
use tournament::{Match, Reply, Verdict};

/// What a match has come to after a log, or where the log is none.
#[repr(C)]
#[derive(Clone, Copy, Drop)]
pub struct CoshalitMatch {
    /// The reply to the last post: 0 there is none, 1 taken, 2 faulty, 3 spent, 4 stale.
    pub reply: u32,
    /// The number of the accepted prover; 0 if no prover is accepted.
    pub accepted: u32,
    /// How many provers have an open question.
    pub asked: u32,
    /// Why the bytes are no log: 1 they end within an entry, 2 no prover has the number, 3 the bytes of an answer are no wire form. 0 if
    /// they are a log.
    pub cause: u32,
    /// The rule that the bytes of an answer break, 1 to 5; 0 if there is none.
    pub rule: u32,
    /// Where the first entry begins that is none, in bytes from the start of the log; 0 if the bytes are a log.
    pub at: u64,
}

/// A question of the match is open.
pub(crate) const STILL_OPEN: u32 = 13;
/// A number of the match is beyond its limit.
pub(crate) const BAD_NUMBERS: u32 = 14;
/// The bytes are no log.
pub(crate) const BAD_LOG: u32 = 15;
/// Memory ran out.
pub(crate) const OUT_OF_MEMORY: u32 = 9;

/// The number of a reply.
pub(crate) fn reply_number(reply: Option<Reply>) -> u32
    ensures { result ≡ reply_number reply }
{
    match reply {
        None => 0,
        Some(Reply::Taken) => 1,
        Some(Reply::Faulty) => 2,
        Some(Reply::Spent) => 3,
        Some(Reply::Stale(_)) => 4,
    }
}

/// The status of a match, which is that of the program for a verdict, and the number of the accepted prover.
pub(crate) fn ending<J: Judge + Drop>(game: &Match<J>) -> (u32, u32)
    ensures status { result.0 ≡ status_of_match (rules_in J.ruling game.now) game.now.game.record_ }
    ensures accepted { result.1 ≡ accepted_of_match (rules_in J.ruling game.now) game.now.game.record_ }
{
    match game.verdict() {
        None => (STILL_OPEN, 0),
        Some(Verdict::Accept(number)) => (0, number),
        Some(Verdict::NoneLeft) => (10, 0),
        Some(Verdict::Collision(_, _)) => (11, 0),
    }
}

/// The number of why bytes don't begin with an entry.
pub(crate) fn cause_number(cause: EntryFault) -> u32
    ensures { result ≡ entry_cause_number cause }
{
    match cause {
        EntryFault::Cut => 1,
        EntryFault::NoProver => 2,
        EntryFault::NoAnswer(_) => 3,
        EntryFault::Memory => 0,
    }
}

/// The number of the rule that the bytes of an answer break.
pub(crate) fn rule_number(cause: EntryFault) -> u32
    ensures { result ≡ entry_rule_number cause }
{
    match cause {
        EntryFault::NoAnswer(fault) => match fault.rule() {
            Some(rule) => rule,
            None => 0,
        },
        EntryFault::Cut => 0,
        EntryFault::NoProver => 0,
        EntryFault::Memory => 0,
    }
}
