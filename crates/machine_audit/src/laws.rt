//! The laws that tie the audit to the machine, each the contract of a function that does nothing.
ghost use Rattle.machine_audit.specs.MachineAudit.{ConfirmedCasesAreRight};
ghost use Rattle.machine_audit.specs.WrittenCases.{CollisionsOfPostsHaveStrings, CollisionsOfCasesHaveStrings, MachineCasesAreConfirmed};

use audit::{a_confirmed_text_is_right, read_texts_may_be_audited};
use digest_core::Digester;
use step_referee::machine_runs_are_true;
use transcript_text::reading_is_the_inverse_of_writing;

/// For every case with the stated root at step 0, in the head's version, in which one prover's lines are all given and true, a confirmed
/// text states the answer of the run, or two different strings of bytes with one digest.
pub fn confirmed_cases_are_right<D: Digester>()
    ensures { ConfirmedCasesAreRight D.digest_of }
{
    machine_runs_are_true::<D>();
    a_confirmed_text_is_right();
    read_texts_may_be_audited();
    reading_is_the_inverse_of_writing();
}

/// Each collision that the machine's judge calls, in each version, is of two strings of 1 to 129 bytes, as a text can state: in a match
/// after any posts (`matches`), and in every case, whatever its provers say (`cases`), if the answers have wire forms.
pub fn collisions_of_the_machine_have_strings<D: Digester>()
    ensures matches { CollisionsOfPostsHaveStrings D.digest_of }
    ensures cases { CollisionsOfCasesHaveStrings D.digest_of }
{}

/// What `transcript_text::full` writes of the record of every case of the machine is read, and the text that is read is confirmed before
/// the judge of the head's version, if the head's numbers are within the limits. By a clause of `full`, each answer has a wire form.
pub fn written_cases_are_confirmed<D: Digester>()
    ensures { MachineCasesAreConfirmed D.digest_of }
{
    collisions_of_the_machine_have_strings::<D>();
    audit::written_cases_are_confirmed();
}
