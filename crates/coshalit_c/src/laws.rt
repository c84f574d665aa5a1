//! The law that joins the match of a host and the answers of a prover of one's own, the contract of a function that does nothing.
ghost use Rattle.coshalit_c.specs.GivenAnswers.{GivenAnswersAreRight, QuestionsAreAnswered};

use checkpoint_run::tampered_runs;
use delegate::plain_answers_are_true;
use digest_core::Sha256;
use open_match::{heads_are_playable, open_matches_are_right, true_answers_have_wire_forms};
use proof_wire::reading_is_spelling;
use prover_run::outputs_grow_slowly;
use tournament::questions_are_within_the_bound;

/// Given answers are right: whoever posts what `coshalit_answer` gives on each question that `coshalit_match` writes, or passes no more often
/// on it than the patience allows, is never out, whatever everybody else posts; and a match that is over accepts the status and the output
/// of the case's own run, or shows two strings of one digest (`right`). Each question that a match of the case asks is given an answer
/// (`answered`).
///
/// The numbers of the match are the case's version, its bound and what `coshalit_start_root` gives; provers, fan and patience may be any within
/// their limits. Nobody else posts in the prover's name.
pub fn given_answers_are_right()
    ensures right { GivenAnswersAreRight }
    ensures answered { QuestionsAreAnswered }
{
    heads_are_playable();
    open_matches_are_right::<Sha256>();
    true_answers_have_wire_forms::<Sha256>();
    plain_answers_are_true();
    reading_is_spelling();
    outputs_grow_slowly();
    tampered_runs();
    questions_are_within_the_bound();
}
