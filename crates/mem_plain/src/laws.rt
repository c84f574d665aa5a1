//! Laws of the definitions, each the contract of a function that does nothing.
ghost use Rattle.std.specs.Prelude.{◌≡◌, ◌≢◌, ℕ, ◌+◌, ◌-◌, ◌*◌, ◌/◌, ◌%◌, ◌^◌, ◌<◌, ◌≤◌, List, length, slice_index, if◌then◌else◌};
ghost use Rattle.mem_plain.specs.Contents.{Contents, no_bytes, byte_at, laid, number_at, with_number, chunk_at, is_among, contents_with};
ghost use Rattle.mem_plain.specs.Memory.{IsMemory};
ghost use Rattle.mem_plain.specs.Page.{number_in, with_number_in};

/// Bytes that are laid from an address on are there, and every other byte stays as it was (`laid`); and so are the
/// low bytes of a number that is stored, the least first (`stored`). If nothing is kept each byte is 0 (`nothing`).
pub fn laying_bytes()
    ensures laid { (m : Contents) (a : ℕ) (bytes : List ℕ) (q : ℕ) →
        byte_at (laid m a bytes) q ≡ (if is_among a (length bytes) q then slice_index bytes (q - a) else byte_at m q) }
    ensures stored { (m : Contents) (a width value q : ℕ) →
        byte_at (with_number m a width value) q ≡ (if is_among a width q then value / 256 ^ (q - a) % 256 else byte_at m q) }
    ensures nothing { (q : ℕ) → byte_at no_bytes q ≡ 0 }
{}

/// The contents that are made of a function have its byte at each address below 2^32 (`inside`) and 0 from there on
/// (`beyond`). Functions that are alike below 2^32 make the same contents (`alike`), and one that is 0 there makes no
/// bytes (`nothing`). Bytes laid over the contents of a function make those of the function with these bytes (`laid`).
pub fn contents_of_a_function()
    ensures inside { (f : ℕ → ℕ) (q : ℕ) → q < 2 ^ 32 → byte_at (contents_with f) q ≡ f q }
    ensures beyond { (f : ℕ → ℕ) (q : ℕ) → 2 ^ 32 ≤ q → byte_at (contents_with f) q ≡ 0 }
    ensures alike { (f g : ℕ → ℕ) → ((q : ℕ) → q < 2 ^ 32 → f q ≡ g q) → contents_with f ≡ contents_with g }
    ensures nothing { (f : ℕ → ℕ) → ((q : ℕ) → q < 2 ^ 32 → f q ≡ 0) → contents_with f ≡ no_bytes }
    ensures laid { (f : ℕ → ℕ) (a : ℕ) (bytes : List ℕ) → a + length bytes ≤ 2 ^ 32 →
        laid (contents_with f) a bytes ≡ contents_with (λ q. if is_among a (length bytes) q then slice_index bytes (q - a) else f q) }
{}

/// Two memories with the same bytes are one (`same`). The contents of a function whose values are bytes are a memory
/// (`made`), and a memory stays one if a number is stored below 2^32 (`stored`).
pub fn memories_are_their_bytes()
    ensures same { (m n : Contents) → IsMemory m → IsMemory n → ((q : ℕ) → q < 2 ^ 32 → byte_at m q ≡ byte_at n q) → m ≡ n }
    ensures made { (f : ℕ → ℕ) → ((q : ℕ) → q < 2 ^ 32 → f q < 256) → IsMemory (contents_with f) }
    ensures stored { (m : Contents) (a width value : ℕ) → IsMemory m → a + width ≤ 2 ^ 32 → IsMemory (with_number m a width value) }
{}

/// A number that lies in one chunk is read in its 32 bytes (`read`). One that is stored there changes this chunk as it
/// would these bytes (`stored`), and no other chunk (`elsewhere`).
pub fn numbers_lie_in_chunks()
    ensures read { (m : Contents) (index place width : ℕ) → place + width ≤ 32 →
        number_in (chunk_at m index) place width ≡ number_at m (32 * index + place) width }
    ensures stored { (m : Contents) (index place width value : ℕ) → place + width ≤ 32 →
        with_number_in (chunk_at m index) place width value ≡ chunk_at (with_number m (32 * index + place) width value) index }
    ensures elsewhere { (m : Contents) (index place width value other : ℕ) → place + width ≤ 32 → other ≢ index →
        chunk_at (with_number m (32 * index + place) width value) other ≡ chunk_at m other }
{}
