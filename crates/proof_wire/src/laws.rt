//! Laws of the wire forms, each the contract of a function that does nothing.
ghost use Rattle.std.specs.Prelude.{◌≡◌, ℕ, ◌<◌, List, [], ◌++◌, slice_index, Ok};
ghost use Rattle.std.specs.Result.{result_err};
ghost use Rattle.rd_base.specs.declared.answer.Answer.{Answer};
ghost use Rattle.proof_wire.specs.Wire.{Spells};
ghost use Rattle.proof_wire.specs.Reading.{answer_in};
ghost use Rattle.proof_wire.specs.FirstFault.{first_fault, tests_of};

/// What is read of bytes is the answer that they spell.
pub fn reading_is_spelling()
    ensures read { (answer : Answer) (bytes : List ℕ) → Spells answer bytes → answer_in bytes ≡ Ok answer }
    ensures spelled { (answer : Answer) (bytes : List ℕ) → ((k : ℕ) → slice_index bytes k < 256) → answer_in bytes ≡ Ok answer → Spells answer bytes }
{}

/// An answer has one spelling, and no other answer has it.
pub fn one_spelling()
    ensures bytes { (answer : Answer) (first second : List ℕ) → Spells answer first → Spells answer second → first ≡ second }
    ensures answer { (first second : Answer) (bytes : List ℕ) → Spells first bytes → Spells second bytes → first ≡ second }
{}

/// No answer's bytes are a proper prefix of another's.
pub fn no_proper_prefix()
    ensures { (first second : Answer) (bytes rest : List ℕ) → Spells first bytes → Spells second (bytes ++ rest) → rest ≡ [] }
{}

/// The fault of bytes is that of the first test of lengths and places that they don't pass, and bytes that pass all
/// are read.
pub fn faults_by_places()
    ensures { (bytes : List ℕ) → result_err (answer_in bytes) ≡ first_fault (tests_of bytes) }
{}

/// The bytes of an answer are bytes.
pub fn spelled_in_bytes()
    ensures { (answer : Answer) (bytes : List ℕ) → Spells answer bytes → (k : ℕ) → slice_index bytes k < 256 }
{}
