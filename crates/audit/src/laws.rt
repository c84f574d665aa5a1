//! Laws of the audit, each the contract of a function that does nothing.
ghost use Rattle.std.specs.Prelude.{◌≡◌, ◌<◌, ◌≤◌, ◌^◌, Ok};
ghost use Rattle.transcript_text.specs.reader.ReadText.{read_text};
ghost use Rattle.audit.specs.Auditable.{ReadTextsMayBeAudited};
ghost use Rattle.audit.specs.LineByLine.{AreOfProvers};
ghost use Rattle.audit.specs.OwnMatch.{ConfirmedExactly, CaseTextsAreConfirmed, WrittenCasesAreConfirmed};
ghost use Rattle.audit.specs.TrueLines.{ConfirmedTextIsRight};

use tournament::{
    a_number_names_one_question, nobody_asked_means_over, one_record_of_a_case, spare_is_enough,
    the_verdict_is_right, there_is_a_most_number_of_rounds, true_moves_are_true_answers,
};
use transcript_text::{FullText, a_full_text_is_read_back, reading_is_the_inverse_of_writing};

/// A text is confirmed if and only if it is the full text of the match whose provers say what the text says, and the stated verdict is
/// that match's.
pub fn confirmed_exactly()
    ensures { ConfirmedExactly }
{
    one_record_of_a_case();
    spare_is_enough();
    there_is_a_most_number_of_rounds();
    nobody_asked_means_over();
}

/// The full text of every case is confirmed, with its verdict, whatever its provers say.
pub fn case_texts_are_confirmed()
    ensures { CaseTextsAreConfirmed }
{
    one_record_of_a_case();
    spare_is_enough();
    there_is_a_most_number_of_rounds();
    nobody_asked_means_over();
}

/// What `transcript_text::full` writes of the record of every case is read, and the text that is read is confirmed, if the head's
/// numbers are within the limits, and the strings of a collision have 1 to 129 bytes. By a clause of `full`, each answer has a wire form.
pub fn written_cases_are_confirmed()
    ensures { WrittenCasesAreConfirmed }
{
    one_record_of_a_case();
    spare_is_enough();
    there_is_a_most_number_of_rounds();
    nobody_asked_means_over();
    a_full_text_is_read_back();
}

/// A confirmed text is right: if one prover's lines are all given and true of a run, the text states the run's status and output, or
/// two different strings of one digest that answers of the text open.
pub fn a_confirmed_text_is_right()
    ensures { ConfirmedTextIsRight }
{
    one_record_of_a_case();
    the_verdict_is_right();
    true_moves_are_true_answers();
    a_number_names_one_question();
}

/// The conditions of `audit` hold for every text that was read, whatever its bytes are.
pub fn read_texts_may_be_audited()
    ensures { ReadTextsMayBeAudited }
{
    reading_is_the_inverse_of_writing();
}

/// A text that was read may be audited: the conditions of `audit` hold for it.
pub fn a_read_text_may_be_audited(bytes: &[u8], text: &FullText)
    requires { read_text bytes.now ≡ Ok text.now }
    ensures some { 0 < text.now.head.provers }
    ensures few { text.now.head.provers ≤ 2 ^ 16 }
    ensures steps { 0 < text.now.head.bound }
    ensures short { text.now.head.bound < 2 ^ 32 }
    ensures parted { 1 < text.now.head.fan }
    ensures few_parts { text.now.head.fan ≤ 16 }
    ensures provers { AreOfProvers text.now.head.provers text.now.moves }
{
    read_texts_may_be_audited();
}
