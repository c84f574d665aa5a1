//! Laws of the match of a case, each the contract of a function that does nothing.
ghost use Rattle.std.specs.Prelude.{ℕ, List};
ghost use Rattle.case_match.specs.TruthfulInCase.{TruthfulProversOfCasesAreSafe};
ghost use Rattle.case_match.specs.Match.{RecordsOfCasesAreSettledUp};
ghost use Rattle.case_match.specs.Ended.{RecordsOfCasesHaveEnded};
ghost use Rattle.case_match.specs.HonestScripts.{UntouchedProversAreTruthful, TrueTapesAreTruthful};
ghost use Rattle.case_match.specs.PlainTruth.{PlainAnswersAreTrue};
ghost use Rattle.case_match.specs.Earnings.{WhoLivesInACaseWinsAll};
ghost use Rattle.case_match.specs.RefutedTampers.{TampersAreRefuted, TampersOfCasesAreInRange, ReadTampersAreRefuted};
ghost use Rattle.case_match.specs.PartingRuns.{DisputesOfCasesEndWhereRunsPart};

use bisect_game::cuts_divide;
use case_reader::tampers_are_read_in_range;
use checkpoint_run::{
    tampered_runs, tampered_runs_keep_the_input, tampered_runs_keep_valid_states,
};
use deposits::{a_match_that_has_ended_is_settled_up, who_lives_wins_all};
use digest_core::Digester;
use prover_run::{harmless_manners, outputs_grow_slowly, untouched_provers};
use step_referee::machine_runs_are_true;
use tournament::{
    answers_are_of_their_run, lies_are_found, nobody_asked_means_over, one_record_of_a_case,
    questions_are_within_the_bound, spare_is_enough, there_is_a_most_number_of_rounds,
    truthful_provers_are_safe,
};

/// In the record of each case whose numbers are in range, and whose run starts in a valid state without output, a prover that claims and
/// answers as the machine's definition says, within its patience, is safe: nothing is open, it is live at the end, its answers are true,
/// and the verdict is right.
pub fn truthful_provers_of_cases_are_safe<D: Digester>()
    ensures { TruthfulProversOfCasesAreSafe D.digest_of }
{
    spare_is_enough();
    nobody_asked_means_over();
    there_is_a_most_number_of_rounds();
    one_record_of_a_case();
    truthful_provers_are_safe();
    machine_runs_are_true::<D>();
}

/// Whatever the provers of a match say, the record of its case is that of a match that is over: some posts come to it, and nothing is open.
pub fn records_of_cases_have_ended()
    ensures { RecordsOfCasesHaveEnded }
{
    spare_is_enough();
    nobody_asked_means_over();
    there_is_a_most_number_of_rounds();
    one_record_of_a_case();
}

/// So it meets the condition of `balances`: one settled claim a prover, disputes between two of them, and nobody is put out twice.
pub fn records_of_cases_are_settled_up()
    ensures { RecordsOfCasesAreSettledUp }
{
    spare_is_enough();
    nobody_asked_means_over();
    there_is_a_most_number_of_rounds();
    one_record_of_a_case();
    a_match_that_has_ended_is_settled_up();
}

/// Who is live in the record of a case has its stake and one more for each of its disputes but that of a collision, of which there is one
/// at most, and the others and the pool have exactly the rest, whatever the provers say.
pub fn who_lives_in_a_case_wins_all()
    ensures { WhoLivesInACaseWinsAll }
{
    spare_is_enough();
    nobody_asked_means_over();
    there_is_a_most_number_of_rounds();
    one_record_of_a_case();
    who_lives_wins_all();
}

/// A tampered run is refuted where it was tampered with. In each dispute of a case between a prover that claims and answers as the
/// machine's definition says and one that answers by its own tampered run, at once or after no more passes than the patience, the second
/// alone is out, or the dispute has closed by a collision of their two proofs: two different strings of one digest. It is out in the
/// proof of step s - 1 if a byte or a register is changed in the state of step s, which is that of step 0 if s is 0; and if its run ends
/// early at step s, in that of step s, or of a later one before which the sequential run has come back to the root of step s (`refuted`).
/// Each dispute between two provers that answer by their own runs, tampered with or not, closes, if it does, in the proof of step 0 or of a
/// step from which these part, by their proofs of it (`part`); in the record of a case each has closed (`records_of_cases_have_ended`). The
/// case's numbers are in range, and the tampers' too, as those of each case that is read (`tampers_of_cases_are_in_range`).
pub fn tampers_are_refuted<D: Digester>()
    ensures refuted { TampersAreRefuted D.digest_of }
    ensures part { DisputesOfCasesEndWhereRunsPart D.digest_of }
{
    machine_runs_are_true::<D>();
    tampered_runs();
    tampered_runs_keep_the_input();
    tampered_runs_keep_valid_states();
    outputs_grow_slowly();
    untouched_provers();
    cuts_divide();
    questions_are_within_the_bound();
    spare_is_enough();
    nobody_asked_means_over();
    there_is_a_most_number_of_rounds();
    one_record_of_a_case();
    answers_are_of_their_run();
    lies_are_found();
}

/// The tampers of a case that is read are in range.
pub fn tampers_of_cases_are_in_range()
    ensures { TampersOfCasesAreInRange }
{
    tampers_are_read_in_range();
}

/// So each tampered run of a case that is read is refuted where it was tampered with, as `tampers_are_refuted` says it.
pub fn tampers_of_cases_are_refuted<D: Digester>()
    ensures { ReadTampersAreRefuted D.digest_of }
{
    tampers_are_refuted::<D>();
    tampers_of_cases_are_in_range();
}

/// Which provers answer truly in every case, by any digest function: those with an untouched run that answer at once, after no more
/// passes than the patience, with the sequential run's output, with a forgery that changes nothing, or with noise in a run of one step,
/// of which no root is asked (`untouched`); and those with a tape of true answers (`tape`). A prover with the script `{}` is one of the
/// first.
pub fn untouched_provers_are_truthful()
    ensures untouched { (digest : List ℕ → List ℕ) → UntouchedProversAreTruthful digest }
    ensures tape { (digest : List ℕ → List ℕ) → TrueTapesAreTruthful digest }
{
    untouched_provers();
    harmless_manners();
    cuts_divide();
    questions_are_within_the_bound();
}

/// The plain answer of a case's sequential run, by any digest function, to what is asked within the case's bound is the true one.
pub fn plain_answers_within_the_bound_are_true()
    ensures { (digest : List ℕ → List ℕ) → PlainAnswersAreTrue digest }
{
    cuts_divide();
}
