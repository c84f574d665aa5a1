//! The entries of a log.
ghost use Rattle.std.specs.Prelude.{◌≡◌, ◌+◌, ◌<◌, ◌≤◌, length, IfOk, IfErr};
ghost use Rattle.rd_base.specs.Results.{Gives};
ghost use Rattle.open_match.specs.declared.entry.EntryFault.TheVariants.{Memory};
ghost use Rattle.tournament.specs.Match.{rules_in};
ghost use Rattle.open_match.specs.Log.{front_number, answer_given, entry_at};
ghost use Rattle.open_match.specs.OpenMatch.{IsPosted, IsNoEntry};

use bisect_game::Judge;
use proof_wire::{WireFault, decode};
use rd_base::{Answer, Qid};
use std::alloc::Global;
use tournament::{Match, Reply, move_of};

/// A post in a log.
#[derive(Debug, Drop)]
pub struct Entry {
    /// The number of the prover in whose name it is posted, from 1.
    pub prover: u32,
    /// The number of the question.
    pub qid: Qid,
    /// The answer; `None` is a pass.
    pub answer: Option<Answer>,
}

/// Why bytes don't begin with an entry, or out of memory.
#[derive(Clone, Copy, Debug)]
pub enum EntryFault {
    /// The bytes end within an entry.
    Cut,
    /// No prover has the number.
    NoProver,
    /// The bytes of the answer are no wire form: the entry is neither a move nor a pass.
    NoAnswer(WireFault),
    /// An allocation was refused.
    Memory,
}

/// How many bytes an entry has before its answer.
const FRONT_BYTES: usize = 16;

/// The number of four bytes at a place.
fn front_number(bytes: &[u8], place: usize) -> u32
    requires { place + 4 ≤ length bytes.now }
    ensures { result ≡ front_number place bytes.now }
{
    let front = &bytes[place..];
    u32::from_le_bytes([front[0], front[1], front[2], front[3]])
}

/// The answer with these bytes; `None`, which is a pass, if there are none.
fn answer_given(alloc: Global, wire: &[u8]) -> Result<Option<Answer>, EntryFault>
    ensures { Gives Memory (λ a. a) result (answer_given wire.now) }
{
    if wire.is_empty() {
        return Ok(None);
    }
    match decode(alloc, wire) {
        Ok(answer) => Ok(Some(answer)),
        Err(WireFault::Memory) => Err(EntryFault::Memory),
        Err(fault) => Err(EntryFault::NoAnswer(fault)),
    }
}

/// The entry at the front of some bytes, in a match of this many provers, and the bytes behind it.
///
/// An `Err` is the first of these that holds: the bytes end within the entry (`Cut`), no prover has its number (`NoProver`), the bytes of
/// its answer are no wire form (`NoAnswer`). `Memory` may come in place of any other answer.
#[tactic(auto, unfolding(crate::specs::Log::entry_at))]
pub fn read_entry(alloc: Global, provers: u32, bytes: &[u8]) -> Result<(Entry, &[u8]), EntryFault>
    ensures read { Gives Memory (λ x. (x.0, x.1.now)) result (entry_at provers bytes.now) }
    ensures known { IfOk result (λ x. (0 < x.0.prover) × (x.0.prover ≤ provers)) }
    ensures shorter { IfOk result (λ x. length x.1.now + 16 ≤ length bytes.now) }
{
    if bytes.len() < FRONT_BYTES {
        return Err(EntryFault::Cut);
    }
    let size = front_number(bytes, 12) as usize;
    let (_, behind) = bytes.split_at(FRONT_BYTES);
    if behind.len() < size {
        return Err(EntryFault::Cut);
    }
    let prover = front_number(bytes, 0);
    if prover == 0 || provers < prover {
        return Err(EntryFault::NoProver);
    }
    let (wire, rest) = behind.split_at(size);
    let answer = answer_given(alloc, wire)?;
    let qid = Qid {
        dispute: front_number(bytes, 4),
        round: front_number(bytes, 8),
    };
    let entry = Entry {
        prover,
        qid,
        answer,
    };
    Ok((entry, rest))
}

/// Posts the entry at the front of some bytes: the reply, and the bytes behind it. An `Err` is that of `read_entry`, and changes nothing.
pub fn post_entry<'a, J: Judge + Drop>(
    alloc: Global,
    game: &mut Match<J>,
    bytes: &'a [u8],
) -> Result<(Reply, &'a [u8]), EntryFault>
    ensures names { game.new.judge ≡ game.old.judge }
    ensures setup { game.new.setup ≡ game.old.setup }
    ensures posted { IfOk result (λ x. IsPosted (rules_in J.ruling game.old) game.old.game bytes.now game.new.game x.0 x.1.now) }
    ensures shorter { IfOk result (λ x. length x.1.now + 16 ≤ length bytes.now) }
    ensures unchanged { IfErr result (λ _. game.new ≡ game.old) }
    ensures refused { IfErr result (λ e. IsNoEntry game.old.setup.provers bytes.now e) }
{
    let (entry, behind) = read_entry(alloc, game.setup().provers(), bytes)?;
    let reply = game.post(entry.prover, entry.qid, move_of(entry.answer));
    Ok((reply, behind))
}
