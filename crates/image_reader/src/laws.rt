//! Laws of the definitions, each of them the contract of a function that does nothing.
ghost use Rattle.std.specs.Prelude.{◌≡◌, ◌⊎◌, ℕ, ◌+◌, ◌^◌, ◌<◌, ◌≤◌, ◌↔◌, List, true, false, length, slice_index, slice_index_or};
ghost use Rattle.std.specs.List.{list_any, count_by};
ghost use Rattle.mem_plain.specs.Contents.{byte_at, laid, no_bytes, contents_with};
ghost use Rattle.image_reader.specs.declared.header.ProgramHeader.{ProgramHeader};
ghost use Rattle.image_reader.specs.Elf.{has_larger_file, some_share, occupies, covers, byte_of_load, byte_of_loads};

use mem_plain::{contents_of_a_function, laying_bytes};

/// Memory has byte `k` of a flat file at `0x10000 + k`, and 0 at every other address.
pub fn flat_memory()
    ensures inside { (file : List ℕ) (k : ℕ) → k < length file → byte_at (laid no_bytes 0x10000 file) (0x10000 + k) ≡ slice_index file k }
    ensures outside { (file : List ℕ) (a : ℕ) → (a < 0x10000) ⊎ (0x10000 + length file ≤ a) → byte_at (laid no_bytes 0x10000 file) a ≡ 0 }
{
    laying_bytes();
}

/// No two loads share an address if and only if each address is in at most one of them.
pub fn sharing_loads()
    ensures { (loads : List ProgramHeader) → (some_share loads ≡ false) ↔ ((a : ℕ) → count_by (λ load. occupies load a) loads ≤ 1) }
{}

/// Memory has at each address what the loads have there (`bytes`). If no load has more bytes in the file than in memory and no two share an
/// address, that is the byte of whichever load covers the address (`whichever`).
pub fn elf_memory()
    ensures bytes { (file : List ℕ) (loads : List ProgramHeader) (a : ℕ) → a < 2 ^ 32 → byte_at (contents_with (byte_of_loads file loads)) a ≡ byte_of_loads file loads a }
    ensures whichever { (file : List ℕ) (loads : List ProgramHeader) (a i : ℕ) (d : ProgramHeader) → list_any has_larger_file loads ≡ false → some_share loads ≡ false → i < length loads → covers (slice_index_or loads i d) a ≡ true → byte_of_loads file loads a ≡ byte_of_load file (slice_index_or loads i d) a }
{
    contents_of_a_function();
}
