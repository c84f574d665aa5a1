//! Laws of the definitions, each the contract of a function that does nothing.
ghost use Rattle.std.specs.Prelude.{◌≡◌, ℕ, ◌<◌, length, slice_index, Ok};
ghost use Rattle.case_reader.specs.Case.{case_of};
ghost use Rattle.workload.specs.Workload.{input_of, big_tree, big_data};

/// The tree of each seed is the seed's case (`case`), and its input has 4,096 bytes (`input`, `bytes`).
pub fn workload_is_a_case()
    ensures case { (seed : ℕ) → case_of (big_tree seed) ≡ Ok (big_data seed) }
    ensures input { (seed : ℕ) → length (input_of seed) ≡ 4096 }
    ensures bytes { (seed k : ℕ) → slice_index (input_of seed) k < 256 }
{}
