//! Laws of the definitions, each the contract of a function that does nothing.
ghost use Rattle.std.specs.Prelude.{◌≡◌, ◌<◌, ◌≤◌, ◌++◌, ℕ, List, codes, length, slice_index};
ghost use Rattle.rd_base.specs.Results.{map_fault};
ghost use Rattle.image_reader.specs.Image.{flat_at};
ghost use Rattle.rv_text.specs.Listing.{listing};
ghost use Rattle.rv_step.specs.Step.{state_at};
ghost use Rattle.workload.specs.Workload.{input_of};
ghost use Rattle.guests.specs.Sum.{summed_bytes};
ghost use Rattle.delegate.specs.InShort.{accepting, big_start, big_bound};
ghost use Rattle.delegate.specs.Guests.{exited_with, ChecksumsAreAccepted, ChecksumsAreAcceptedPlainly};
ghost use Rattle.delegate.specs.AsmImage.{asm_at};
ghost use Rattle.delegate.specs.declared.loading.AsmImageFault.TheVariants as fault;
ghost use Rattle.delegate.specs.commands.List.{words_in_file};
ghost use Rattle.delegate.specs.Answering.{EachCommandHasItsAnswers, EachRefusalSaysWhy};
ghost use Rattle.delegate.specs.Confirmed.{ConfirmedTextsAreRight};
ghost use Rattle.delegate.specs.Headline.{HeadlineOfCases};
ghost use Rattle.delegate.specs.Sharing.{OutcomesAreOfTheCommand, JudgingIsSharedOut, BigIsSharedOut};
ghost use Rattle.delegate.specs.Auditable.{WrittenTextsAreConfirmed, JudgesEndAlike};
ghost use Rattle.delegate.specs.InShortLaw.{HeadlineInShort, JudgeAcceptsWhatRunPrints, InShortSaysPlainly, BigInShort};

use case_match::{
    truthful_provers_of_cases_are_safe, untouched_provers_are_truthful,
    who_lives_in_a_case_wins_all,
};
use case_reader::{
    inputs_are_read_in_range, no_fault_of_a_case_is_out_of_memory,
    no_fault_of_tasks_is_out_of_memory,
};
use command_line::{options_are_taken, plain_options_are_taken, plain_words};
use digest_core::{Sha256, Weak8};
use guests::{adler32_is_computed, workload_adds_up_its_input};
use machine_audit::{confirmed_cases_are_right, written_cases_are_confirmed};
use mem_plain::contents_of_a_function;
use rv_text::listing_is_read_back;
use transcript_text::{
    a_verdict_is_stated, no_fault_of_a_text_is_out_of_memory, nothing_is_said_against_the_truthful,
    stated_verdicts_are_one_line,
};

/// The headline, for what is written of each case whose numbers are in range, whose run starts in a valid state without output, and
/// whose verdict shows strings of bytes if it is a collision, by the digest of each name: a prover that claims and answers as the
/// machine's definition says, within its patience, is not eliminated, has its stake and one more for each of its disputes but that of a
/// collision, if there are deposits, and the text accepts the sequential run's status and output or shows a collision of two different
/// strings of bytes. Without the condition on the strings, such a prover is safe in the record (`truthful_provers_of_cases_are_safe`).
pub fn the_headline()
    ensures { HeadlineOfCases }
{
    truthful_provers_of_cases_are_safe::<Sha256>();
    truthful_provers_of_cases_are_safe::<Weak8>();
    nothing_is_said_against_the_truthful();
    who_lives_in_a_case_wins_all();
}

/// The same in short, for a case with a prover `{}`: whatever the others say, the last line of what is written accepts what the
/// machine's definition computes, or shows two different strings of one digest.
/// The line of the large workload of each seed ends so (`big`), since one of its provers is `{}`.
pub fn the_headline_in_short()
    ensures short { HeadlineInShort }
    ensures big { BigInShort }
{
    the_headline();
    untouched_provers_are_truthful();
}

/// What the sentence in short says of all arguments, it says of plain words: of `PROGRAM judge` with its options, each at most once and its
/// number in decimal, and of `PROGRAM run`.
pub fn in_short_is_said_plainly()
    ensures { InShortSaysPlainly }
{
    plain_options_are_taken();
    plain_words();
}

/// What is accepted of the large workload's run is the sum of its input's bytes: exit status 0, and the sum's two low bytes, the lowest first.
pub fn big_accepts_the_sum()
    ensures { (seed : ℕ) → accepting (state_at (big_start seed) big_bound) ≡ codes "accept " ++ exited_with (summed_bytes (input_of seed)) }
{
    workload_adds_up_its_input();
}

/// Of a case of the file `guest/adler32/program.elf`, with any input and with a bound that its run doesn't reach, the sentence in short
/// says a checksum, for all arguments (`in_short`) and for plain words (`plainly`): if one prover is `{}`, the last line that `judge`
/// writes accepts the Adler-32 of the input, or shows two different strings of one digest. So does the text of each such task, and `run`
/// answers with the checksum.
pub fn checksums_are_accepted()
    ensures in_short { ChecksumsAreAccepted }
    ensures plainly { ChecksumsAreAcceptedPlainly }
{
    adler32_is_computed();
    inputs_are_read_in_range();
}

/// `judge` accepts what `run` prints of the same bytes, if one prover is `{}`, or it shows two different strings of one digest.
pub fn judge_accepts_what_run_prints()
    ensures { JudgeAcceptsWhatRunPrints }
{}

/// What `audit` confirms is right: for every run with the stated root at step 0 in which one prover's lines are all given and true, the
/// text states the status and the output, or two different strings of one digest that answers of the text open.
pub fn confirmed_texts_are_right()
    ensures { ConfirmedTextsAreRight }
{
    confirmed_cases_are_right::<Sha256>();
    confirmed_cases_are_right::<Weak8>();
}

/// What `judge --full` writes of a case in range whose answers have wire forms is confirmed by `audit` with its last line, if it isn't
/// longer than what is read.
pub fn written_texts_are_confirmed()
    ensures { WrittenTextsAreConfirmed }
{
    written_cases_are_confirmed::<Sha256>();
    written_cases_are_confirmed::<Weak8>();
    stated_verdicts_are_one_line();
}

/// `judge` and `judge --full` of one case have one answer and one last line.
pub fn judges_end_alike()
    ensures { JudgesEndAlike }
{
    a_verdict_is_stated();
}

/// An outcome depends on the bytes and on the command that the arguments choose; so the program's name, `--workers`, `--posters`,
/// `--every` and the order of options change nothing.
pub fn sharing_out_changes_nothing()
    ensures command { OutcomesAreOfTheCommand }
    ensures judge { JudgingIsSharedOut }
    ensures big { BigIsSharedOut }
{
    options_are_taken();
}

/// Each outcome has an answer of the command that the arguments name (`own`). Each refusal of arguments, of a case, of its image or of
/// a full text says why: no rule is that memory ran out, so that no text of a refusal is empty (`why`).
pub fn answers_are_those_of_the_command()
    ensures own { EachCommandHasItsAnswers }
    ensures why { EachRefusalSaysWhy }
{
    no_fault_of_a_case_is_out_of_memory();
    no_fault_of_tasks_is_out_of_memory();
    no_fault_of_a_text_is_out_of_memory();
}

/// The listing of a flat file, taken as an assembly text, is loaded as the file is: the same memory and entry, or the same rule is broken.
/// The listing has to be no longer than a text may be.
pub fn listed_files_load_alike()
    ensures { (file : List ℕ) → ((k : ℕ) → slice_index file k < 256) → length (listing (words_in_file file)) ≤ 16777216 →
        asm_at (listing (words_in_file file)) ≡ map_fault fault.Image (flat_at file) }
{
    listing_is_read_back();
    contents_of_a_function();
}
