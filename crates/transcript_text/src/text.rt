//! The parts of texts.
ghost use Rattle.std.specs.Prelude.{◌≡◌};
ghost use Rattle.std.specs.Option.{option_copied};
ghost use Rattle.transcript_text.specs.StatedVerdict.{settled_at};

use bisect_game::Settled;
use digest_core::DigestName;
use rd_base::{Bytes, Digest32, Listed, OpenText, Qid, Status};

/// What a match is played over.
#[derive(Clone, Copy, Debug)]
pub struct Head {
    /// How many provers there are.
    pub provers: u32,
    /// How many steps the run has.
    pub bound: u64,
    /// How many passes each question allows.
    pub patience: u32,
    /// The version of the commitments.
    pub version: u32,
    /// Into how many parts a round cuts its interval at most.
    pub fan: u32,
    pub digest: DigestName,
    /// The root of the state at step 0, from which all provers start.
    pub start: Digest32,
}

/// What a prover's answer to a question was settled as.
#[derive(Debug, Drop)]
pub struct TextMove {
    /// The number of the question.
    pub qid: Qid,
    /// The number of the prover, from 1.
    pub prover: u32,
    pub settled: Settled,
}

/// The verdict as a text states it.
#[derive(Debug, Drop)]
pub enum Stated {
    /// A claim with this status and this output is accepted.
    Accept(Status, Bytes),
    /// Nobody is left.
    NoneLeft,
    /// Two different strings have one digest.
    Collision(OpenText, OpenText),
}

/// A full text: what a match was played over, each settled answer, and the verdict.
#[derive(Debug, Drop)]
pub struct FullText {
    pub head: Head,
    /// The settled answers, in the order of the text.
    pub moves: Listed<TextMove>,
    pub stated: Stated,
}

/// What is settled of a prover's claim, by its number from 1; `None` if no prover has the number.
pub fn settled_at(claims: &[Option<Settled>], number: u32) -> Option<&Option<Settled>>
    ensures { option_copied result ≡ settled_at claims.now number }
{
    claims.get((number as usize).checked_sub(1)?)
}
