//! Laws of the texts and of reading them, each the contract of a function that does nothing.
ghost use Rattle.std.specs.Prelude.{◌≡◌, ℕ, List, Err};
ghost use Rattle.transcript_text.specs.StatedVerdict.{VerdictsAreStated};
ghost use Rattle.transcript_text.specs.TaskParts.{TextsAreTaskParts};
ghost use Rattle.transcript_text.specs.Laws.{NothingIsSaidAgainstTheTruthful, FullTextIsThatOfItsParts};
ghost use Rattle.transcript_text.specs.reader.Laws.{ReadsExactly, AlikeIsEqual, StatedVerdictsAreOneLine, ReadVerdictsAreOneLine, ReadsRecordsBack, MatchesAreReadBack};
ghost use Rattle.transcript_text.specs.reader.ReadText.{read_text};

use crate::reader::TextFault;
use proof_wire::{reading_is_spelling, spelled_in_bytes};
use tournament::{a_match_has_few_disputes_and_rounds, a_record_is_of_its_provers};

/// If a prover's settled answers are given and true and it isn't out, as the dispute theorem proves for each truthful prover, no line of a
/// report calls it faulty, spent or refuted.
pub fn nothing_is_said_against_the_truthful()
    ensures { NothingIsSaidAgainstTheTruthful }
{}

/// The full text of a record is that of its head, its moves and what is stated of the verdict.
pub fn a_full_text_is_that_of_its_parts()
    ensures { FullTextIsThatOfItsParts }
{}

/// Each report and each full text ends its last line, and none of its lines begins with `task `: so texts that stand one below the other,
/// each under a line `task K`, can be told apart.
#[tactic(auto, using(crate::proofs::TaskPartLemmas::texts_are_task_parts))]
pub fn texts_are_task_parts()
    ensures { TextsAreTaskParts }
{}

/// Each verdict of a record is stated: an accepted claim is one that was given.
pub fn a_verdict_is_stated()
    ensures { VerdictsAreStated }
{}

/// Bytes are read as a text if and only if it is within the limits and they are its bytes (`exactly`), so that two texts that
/// read alike are equal (`alike`).
pub fn reading_is_the_inverse_of_writing()
    ensures exactly { ReadsExactly }
    ensures alike { AlikeIsEqual }
{
    reading_is_spelling();
    spelled_in_bytes();
}

/// The line of a stated verdict ends with its only line feed, if its parts are bytes and numbers of 32 bits (`stated`). So does
/// that of each text that was read (`read`).
pub fn stated_verdicts_are_one_line()
    ensures stated { StatedVerdictsAreOneLine }
    ensures read { ReadVerdictsAreOneLine }
{
    reading_is_the_inverse_of_writing();
}

/// The full text of a record and a verdict is read as their parts, if these are within the limits (`records`). That of a
/// match is, whatever was posted, if the head's numbers are within the limits and the two strings of a collision have 1 to 129 bytes each
/// (`matches`); that its answers have wire forms is a clause of `full`.
pub fn a_full_text_is_read_back()
    ensures records { ReadsRecordsBack }
    ensures matches { MatchesAreReadBack }
{
    reading_is_the_inverse_of_writing();
    a_full_text_is_that_of_its_parts();
    a_verdict_is_stated();
    a_record_is_of_its_provers();
    a_match_has_few_disputes_and_rounds();
}

/// No bytes have out of memory as their fault: it comes of reading them, and is no fault of a text.
#[tactic(auto, using(crate::proofs::read_back::FaultLemmas::no_fault_is_memory))]
pub fn no_fault_of_a_text_is_out_of_memory()
    ensures { (bytes : List ℕ) → ¬ (read_text bytes ≡ Err TextFault.Memory) }
{}
