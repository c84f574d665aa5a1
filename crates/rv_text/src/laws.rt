//! Laws about the definitions, each a function that does nothing.
ghost use Rattle.std.specs.Prelude.{◌≡◌, ◌<◌, ◌^◌, ◌↔◌, ◌⊎◌, ℕ, List, Option, Ok, Err, Some};
ghost use Rattle.rv_decode.specs.Word.{word_of};
ghost use Rattle.rv_decode.specs.Reading.{reading_of};
ghost use Rattle.rv_decode.specs.declared.instr.Instr.{Instr};
ghost use Rattle.rv_text.specs.Operands.{Distances};
ghost use Rattle.rv_text.specs.Lines.{word_of_statement, word_in};
ghost use Rattle.rv_text.specs.Spelling.{spelling_of};
ghost use Rattle.rv_text.specs.Meaning.{IsSpelledBy, StandsForWord};
ghost use Rattle.std.specs.List.{AllByRecursion};
ghost use Rattle.rv_text.specs.Listing.{listing};
ghost use Rattle.rv_text.specs.Assembly.{assembled, near, Pass, pass, no_names, first_pass};
ghost use Rattle.rv_text.specs.Labels.{IsPlace};
ghost use Rattle.rv_text.specs.Causes.{HasUnknownMnemonic, HasFaultyOperand, IsUndefined, IsFar, HasFault, IsLeast};
ghost use Rattle.rv_text.specs.Characters.{source_lines};
ghost use Rattle.rv_text.specs.LineFaults.{IsAssembled, IsFaultOf};
ghost use Rattle.rv_text.specs.declared.fault.AsmFault.{AsmFault};
ghost use Rattle.rv_text.specs.declared.fault.FaultKind.{FaultKind};
ghost use Rattle.rv_text.specs.declared.fault.FaultKind.TheVariants as FaultKind;

use rv_decode::one_reading;

/// The listing of any words is assembled to them.
pub fn listing_is_read_back()
    ensures { (words : List ℕ) → AllByRecursion (λ w. w < 2 ^ 32) words → assembled (listing words) ≡ Ok words }
{
    one_reading();
}

/// A statement has a word if and only if it is how an instruction with that word is written, or a word as such. So each written
/// instruction is assembled to its word, which reads as that instruction.
pub fn each_word_is_said()
    ensures word { (distances : Distances) (text : List ℕ) (w : ℕ) →
        (word_of_statement distances text ≡ Ok w) ↔ StandsForWord distances text w }
    ensures instruction { (distances : Distances) (text : List ℕ) (i : Instr) → IsSpelledBy distances text (spelling_of i) →
        word_of_statement distances text ≡ Ok (word_of i) }
    ensures reading { (i : Instr) → reading_of (word_of i) ≡ Some i }
{
    one_reading();
}

/// A statement that passed before places were known has no fault later but that of the name in its target's place (`of_name`): its distance
/// is out of range (`far`), or nothing defines it (`undefined`). Each comes if and only if it is so, as a statement has one target at most.
pub fn only_names_fail_later()
    ensures of_name { (distances : Distances) (text : List ℕ) (w : Option ℕ) (k : FaultKind) → word_in near text ≡ Ok w →
        word_in distances text ≡ Err k → (k ≡ FaultKind.Undefined) ⊎ (k ≡ FaultKind.OutOfRange) }
    ensures far { (distances : Distances) (text : List ℕ) (w : Option ℕ) → word_in near text ≡ Ok w →
        (word_in distances text ≡ Err FaultKind.OutOfRange) ↔ HasFaultyOperand (IsFar distances) text }
    ensures undefined { (distances : Distances) (text : List ℕ) (w : Option ℕ) → word_in near text ≡ Ok w →
        (word_in distances text ≡ Err FaultKind.Undefined) ↔ HasFaultyOperand (IsUndefined distances) text }
{}

/// After a first pass without a fault each label stands for the place of the next word, four bytes for each word of the lines before it,
/// and no other name has a place.
pub fn labels_stand_for_places()
    ensures { (lines : List (List ℕ)) (p : Pass) (name : List ℕ) (place : ℕ) → first_pass 1 (pass no_names 0) lines ≡ Ok p →
        (p.names name ≡ Some place) ↔ IsPlace lines name place }
{}

/// A statement has an unknown mnemonic if and only if it begins with a run of letters, digits, `.` and `_` that is no mnemonic, whatever
/// follows.
pub fn unknown_mnemonics_have_no_row()
    ensures { (distances : Distances) (text : List ℕ) →
        (word_in distances text ≡ Err FaultKind.UnknownMnemonic) ↔ HasUnknownMnemonic text }
{}

/// The fault of a statement is the one with the least number among those that it has, whatever the distances of names are.
pub fn least_fault_counts()
    ensures { (distances : Distances) (text : List ℕ) (k : FaultKind) →
        (word_in distances text ≡ Err k) ↔ IsLeast (λ j. HasFault distances text j) k }
{}

/// A text has a fault if and only if a line has one: the first such line counts, first before places are known and then by the places of
/// names (`fault`). It has these words if and only if no line has a fault, and each word is that of a statement, in their order: names
/// stand for the distances from the place of the word, four bytes for each word before it (`words`).
pub fn texts_have_words_or_a_fault()
    ensures words { (text words : List ℕ) → (assembled text ≡ Ok words) ↔ IsAssembled (source_lines text) words }
    ensures fault { (text : List ℕ) (f : AsmFault) → (assembled text ≡ Err f) ↔ IsFaultOf (source_lines text) f }
{
    one_reading();
}
