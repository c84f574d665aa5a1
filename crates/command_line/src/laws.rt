//! Which arguments name a command.
ghost use Rattle.std.specs.Prelude.{◌≡◌, ◌≤◌, ℕ, List, [], ◌∷◌, ◌++◌, All, true, Some, None, codes, option_map, if◌then◌else◌};
ghost use Rattle.std.specs.List.{list_all};
ghost use Rattle.digest_core.specs.declared.name.DigestName.TheVariants.{Sha256, Weak8};
ghost use Rattle.command_line.specs.Words.{chosen, seed_in};
ghost use Rattle.command_line.specs.Options.{Given, IsOfJudge, IsOfBig, begins_with_digit, words_of, are_taken, judge_of, ArePlain, help_words, plain_commands, is_refused};

use crate::request::{Command, MatchText};

/// The program's name, whatever it is, and the name of a command are arguments that name it. `judge` alone asks for the report, by
/// SHA-256, and `--full` for the full text.
#[tactic(auto, using(crate::proofs::WordsLemmas::judge_is_taken, crate::proofs::WordsLemmas::full_is_taken, crate::proofs::WordsLemmas::run_is_taken, crate::proofs::WordsLemmas::roots_is_taken, crate::proofs::WordsLemmas::audit_is_taken, crate::proofs::WordsLemmas::list_is_taken))]
pub fn plain_words()
    ensures judge { (program : List ℕ) → chosen (program ∷ codes "judge" ∷ []) ≡ Some (Command.Judge MatchText.Report Sha256) }
    ensures full { (program : List ℕ) → chosen (program ∷ codes "judge" ∷ codes "--full" ∷ []) ≡ Some (Command.Judge MatchText.Full Sha256) }
    ensures run { (program : List ℕ) → chosen (program ∷ codes "run" ∷ []) ≡ Some Command.Run }
    ensures roots { (program : List ℕ) → chosen (program ∷ codes "roots" ∷ []) ≡ Some Command.Roots }
    ensures audit { (program : List ℕ) → chosen (program ∷ codes "audit" ∷ []) ≡ Some Command.Audit }
    ensures list { (program : List ℕ) → chosen (program ∷ codes "list" ∷ []) ≡ Some Command.Listing }
{}

/// No arguments name no command, and neither does the program's name alone.
#[tactic(auto, using(crate::proofs::WordsLemmas::nothing_is_refused, crate::proofs::WordsLemmas::name_alone_is_refused))]
pub fn a_command_is_required()
    ensures nothing { chosen [] ≡ None }
    ensures name_alone { (program : List ℕ) → chosen (program ∷ []) ≡ None }
{}

/// `--help`, `-h`, `help`, `--version` and `-V` are refused, alone and behind each command.
#[tactic(auto, using(crate::proofs::WordsLemmas::help_is_refused_alone, crate::proofs::WordsLemmas::help_is_refused_behind))]
pub fn help_is_refused()
    ensures alone { (program : List ℕ) → list_all (λ word. is_refused program (word ∷ [])) help_words ≡ true }
    ensures behind { (program : List ℕ) → list_all (λ word. list_all (λ command. is_refused program (command ++ word ∷ [])) plain_commands) help_words ≡ true }
{}

/// `--full=true` is refused, as the option takes no value; and so is `--full` alone, or `--digest sha256` alone, behind each command but
/// `judge`.
#[tactic(auto, using(crate::proofs::WordsLemmas::valued_full_is_refused, crate::proofs::WordsLemmas::full_of_big_is_refused, crate::proofs::WordsLemmas::full_of_run_is_refused, crate::proofs::WordsLemmas::full_of_roots_is_refused, crate::proofs::WordsLemmas::full_of_audit_is_refused, crate::proofs::WordsLemmas::full_of_list_is_refused, crate::proofs::WordsLemmas::digest_of_big_is_refused, crate::proofs::WordsLemmas::digest_of_run_is_refused, crate::proofs::WordsLemmas::digest_of_roots_is_refused, crate::proofs::WordsLemmas::digest_of_audit_is_refused, crate::proofs::WordsLemmas::digest_of_list_is_refused))]
pub fn own_options()
    ensures valued { (program : List ℕ) → chosen (program ∷ codes "judge" ∷ codes "--full=true" ∷ []) ≡ None }
    ensures full_of_big { (program : List ℕ) → chosen (program ∷ codes "big" ∷ codes "0" ∷ codes "--full" ∷ []) ≡ None }
    ensures full_of_run { (program : List ℕ) → chosen (program ∷ codes "run" ∷ codes "--full" ∷ []) ≡ None }
    ensures full_of_roots { (program : List ℕ) → chosen (program ∷ codes "roots" ∷ codes "--full" ∷ []) ≡ None }
    ensures full_of_audit { (program : List ℕ) → chosen (program ∷ codes "audit" ∷ codes "--full" ∷ []) ≡ None }
    ensures full_of_list { (program : List ℕ) → chosen (program ∷ codes "list" ∷ codes "--full" ∷ []) ≡ None }
    ensures digest_of_big { (program : List ℕ) → chosen (program ∷ codes "big" ∷ codes "0" ∷ codes "--digest" ∷ codes "sha256" ∷ []) ≡ None }
    ensures digest_of_run { (program : List ℕ) → chosen (program ∷ codes "run" ∷ codes "--digest" ∷ codes "sha256" ∷ []) ≡ None }
    ensures digest_of_roots { (program : List ℕ) → chosen (program ∷ codes "roots" ∷ codes "--digest" ∷ codes "sha256" ∷ []) ≡ None }
    ensures digest_of_audit { (program : List ℕ) → chosen (program ∷ codes "audit" ∷ codes "--digest" ∷ codes "sha256" ∷ []) ≡ None }
    ensures digest_of_list { (program : List ℕ) → chosen (program ∷ codes "list" ∷ codes "--digest" ∷ codes "sha256" ∷ []) ≡ None }
{}

/// The seed of `big` is taken at the ends of its range, and refused one above it; it has to be given once.
#[tactic(auto, using(crate::proofs::WordsLemmas::least_seed_is_taken, crate::proofs::WordsLemmas::most_seed_is_taken, crate::proofs::WordsLemmas::larger_seeds_are_refused, crate::proofs::WordsLemmas::no_seed_is_refused, crate::proofs::WordsLemmas::two_seeds_are_refused))]
pub fn plain_seeds()
    ensures least { (program : List ℕ) → chosen (program ∷ codes "big" ∷ codes "0" ∷ []) ≡ Some (Command.Big 0) }
    ensures most { (program : List ℕ) → chosen (program ∷ codes "big" ∷ codes "4294967295" ∷ codes "--posters" ∷ codes "8" ∷ []) ≡ Some (Command.Big 4294967295) }
    ensures larger { (program : List ℕ) → chosen (program ∷ codes "big" ∷ codes "4294967296" ∷ []) ≡ None }
    ensures none { (program : List ℕ) → chosen (program ∷ codes "big" ∷ []) ≡ None }
    ensures two { (program : List ℕ) → chosen (program ∷ codes "big" ∷ codes "0" ∷ codes "0" ∷ []) ≡ None }
{}

/// A seed that begins with a decimal digit is taken if and only if the whole word is a number below 2^32, and is that number.
#[tactic(auto, using(crate::proofs::NumberLemmas::seeds_are_numbers))]
pub fn seeds_are_numbers()
    ensures { (program : List ℕ) (digit : ℕ) (rest : List ℕ) → 48 ≤ digit → digit ≤ 57 →
        chosen (program ∷ codes "big" ∷ (digit ∷ rest) ∷ []) ≡ option_map Command.Big (seed_in (digit ∷ rest)) }
{}

/// `--digest` chooses a digest by its name, as `weak8`. `md5`, which no digest has, is refused, and so are `SHA256`, `WEAK8` and no name.
#[tactic(auto, using(crate::proofs::WordsLemmas::weak8_is_taken, crate::proofs::WordsLemmas::md5_is_refused, crate::proofs::WordsLemmas::upper_case_is_refused, crate::proofs::WordsLemmas::weak8_in_capitals_is_refused, crate::proofs::WordsLemmas::no_name_is_refused))]
pub fn digests_by_name()
    ensures weak8 { (program : List ℕ) → chosen (program ∷ codes "judge" ∷ codes "--digest" ∷ codes "weak8" ∷ []) ≡ Some (Command.Judge MatchText.Report Weak8) }
    ensures md5 { (program : List ℕ) → chosen (program ∷ codes "judge" ∷ codes "--digest" ∷ codes "md5" ∷ []) ≡ None }
    ensures upper_case { (program : List ℕ) → chosen (program ∷ codes "judge" ∷ codes "--digest" ∷ codes "SHA256" ∷ []) ≡ None }
    ensures weak8_in_capitals { (program : List ℕ) → chosen (program ∷ codes "judge" ∷ codes "--digest" ∷ codes "WEAK8" ∷ []) ≡ None }
    ensures no_name { (program : List ℕ) → chosen (program ∷ codes "judge" ∷ codes "--digest" ∷ []) ≡ None }
{}

/// Options of `judge` and of `big`, however many and in whatever order, are taken if and only if each is given once and its number's
/// word is a number in its option's range: so no option disturbs another. Each number's word, and the seed's, begins with a decimal
/// digit.
#[tactic(auto, using(crate::proofs::TakenLemmas::judge_options_are_taken, crate::proofs::BigLemmas::big_options_are_taken))]
pub fn options_are_taken()
    ensures judge { (program : List ℕ) (given : List Given) → All IsOfJudge given →
        chosen (program ∷ codes "judge" ∷ words_of given) ≡ (if are_taken given then Some (judge_of given) else None) }
    ensures big { (program seed : List ℕ) (given : List Given) → begins_with_digit seed ≡ true → All IsOfBig given →
        chosen (program ∷ codes "big" ∷ seed ∷ words_of given) ≡ (if are_taken given then option_map Command.Big (seed_in seed) else None) }
{}

/// Options of `judge` that are plainly written, each at most once, in any order, choose the text and the digest that they ask for: the
/// report and SHA-256, if they ask for no other.
pub fn plain_options_are_taken()
    ensures { (program : List ℕ) (given : List Given) → ArePlain given → chosen (program ∷ codes "judge" ∷ words_of given) ≡ Some (judge_of given) }
{
    options_are_taken();
}
