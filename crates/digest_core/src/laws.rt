//! Laws of the definitions, and of what the parts of the strings are by their types, each of them the contract of a function that
//! changes nothing.
ghost use Rattle.std.specs.Prelude.{◌≡◌, ◌≢◌, ℕ, ◌^◌, ◌<◌, List, [], ◌∷◌, ◌++◌, codes, length, replicate, slice_index};
ghost use Rattle.sha2.specs.Sha256.{sha256};
ghost use Rattle.rd_base.specs.declared.status.Status.{Status};
ghost use Rattle.digest_core.specs.Text.{leaf_text, node_text, registers_text, control_text, status_code, state_text, link_text, noise_text, register_text, storage_text};
ghost use Rattle.digest_core.specs.Kinds.{Kind, IsOfKind, size_of};
ghost use Rattle.digest_core.specs.Chain.{chain_of};

use rd_base::{Digest32, Status};

/// A string of each kind has the length of that kind (`length`), no two kinds have one length (`apart`), and so no string is of two
/// kinds (`differ`).
pub fn kinds_have_lengths()
    ensures length { (k : Kind) (s : List ℕ) → IsOfKind k s → length s ≡ size_of k }
    ensures apart { (k l : Kind) → k ≢ l → size_of k ≢ size_of l }
    ensures differ { (k l : Kind) (s t : List ℕ) → k ≢ l → IsOfKind k s → IsOfKind l t → s ≢ t }
{}

/// Two strings of one kind with different parts differ, since a string determines its parts.
#[tactic(auto, using(crate::specs::TextLaws::cons_parts, crate::specs::TextLaws::append_parts, crate::specs::TextLaws::registers_text_same, crate::specs::TextLaws::control_text_same, crate::specs::TextLaws::state_text_same, crate::specs::TextLaws::noise_text_same, crate::specs::TextLaws::register_text_same, crate::specs::TextLaws::storage_text_same))]
pub fn texts_determine_their_parts()
    ensures leaf { (c d : List ℕ) → leaf_text c ≡ leaf_text d → c ≡ d }
    ensures node { (l r m s : List ℕ) → length l ≡ length m → node_text l r ≡ node_text m s → (l ≡ m) × (r ≡ s) }
    ensures registers { (xs ys : List ℕ) →
        ((r : ℕ) → slice_index xs r < 2 ^ 32) → ((r : ℕ) → slice_index ys r < 2 ^ 32) →
        registers_text xs ≡ registers_text ys → xs ≡ ys }
    ensures control { (p q : ℕ) (s t : Status) (m n : ℕ) (c d : List ℕ) →
        p < 2 ^ 32 → q < 2 ^ 32 → status_code s < 2 ^ 32 → status_code t < 2 ^ 32 → m < 2 ^ 64 → n < 2 ^ 64 →
        control_text p s m c ≡ control_text q t n d → (p ≡ q) × (s ≡ t) × (m ≡ n) × (c ≡ d) }
    ensures state { (m r c n s d : List ℕ) → length m ≡ length n → length r ≡ length s →
        state_text m r c ≡ state_text n s d → (m ≡ n) × (r ≡ s) × (c ≡ d) }
    ensures link { (c d : List ℕ) (b e : ℕ) → link_text c b ≡ link_text d e → (c ≡ d) × (b ≡ e) }
    ensures noise { (p q m n r s : ℕ) → p < 2 ^ 32 → q < 2 ^ 32 → m < 2 ^ 32 → n < 2 ^ 32 → r < 2 ^ 32 → s < 2 ^ 32 →
        noise_text p m r ≡ noise_text q n s → (p ≡ q) × (m ≡ n) × (r ≡ s) }
    ensures register { (v w : ℕ) → v < 2 ^ 32 → w < 2 ^ 32 → register_text v ≡ register_text w → v ≡ w }
    ensures storage { (m n i j : List ℕ) (k l : ℕ) → length m ≡ length n → k < 2 ^ 32 → l < 2 ^ 32 →
        storage_text m k i ≡ storage_text n l j → (m ≡ n) × (k ≡ l) × (i ≡ j) }
{}

/// The chain is 32 zero bytes for no output, else the digest of the link string of the chain before and the last byte.
/// It has 32 bytes if each digest has.
#[tactic(auto, using(crate::proofs::ChainLemmas::chain_of_none, crate::proofs::ChainLemmas::chain_of_more, crate::proofs::ChainLemmas::length_chain_of))]
pub fn chain_grows()
    ensures none { (digest : List ℕ → List ℕ) → chain_of digest [] ≡ replicate 32 0 }
    ensures more { (digest : List ℕ → List ℕ) (output : List ℕ) (byte : ℕ) →
        chain_of digest (output ++ byte ∷ []) ≡ digest (link_text (chain_of digest output) byte) }
    ensures length { (digest : List ℕ → List ℕ) → ((bytes : List ℕ) → length (digest bytes) ≡ 32) →
        (output : List ℕ) → length (chain_of digest output) ≡ 32 }
{}

/// The definition that `Sha256` has gives the digests of the standard's examples (FIPS 180-4): of three bytes, which one block holds
/// (`one_block`), and of 56 bytes, whose padding takes a second block (`two_blocks`). The toolchain's crate `sha2` proves both of its
/// definition, as `digest_of_abc_256` and `digest_of_two_blocks_256` of its file `proofs/Facts256.antt`. There it also proves that its
/// constants are the first bits of the roots of primes (`round_constants-cube_roots`, `initial_hash_256-square_roots`).
pub fn sha256_has_the_digests_of_the_standard()
    ensures one_block { sha256 (codes "abc") ≡
        0xBA ∷ 0x78 ∷ 0x16 ∷ 0xBF ∷ 0x8F ∷ 0x01 ∷ 0xCF ∷ 0xEA ∷ 0x41 ∷ 0x41 ∷ 0x40 ∷ 0xDE ∷ 0x5D ∷ 0xAE ∷ 0x22 ∷ 0x23 ∷
        0xB0 ∷ 0x03 ∷ 0x61 ∷ 0xA3 ∷ 0x96 ∷ 0x17 ∷ 0x7A ∷ 0x9C ∷ 0xB4 ∷ 0x10 ∷ 0xFF ∷ 0x61 ∷ 0xF2 ∷ 0x00 ∷ 0x15 ∷ 0xAD ∷ [] }
    ensures two_blocks { sha256 (codes "abcdbcdecdefdefgefghfghighijhijkijkljklmklmnlmnomnopnopq") ≡
        0x24 ∷ 0x8D ∷ 0x6A ∷ 0x61 ∷ 0xD2 ∷ 0x06 ∷ 0x38 ∷ 0xB8 ∷ 0xE5 ∷ 0xC0 ∷ 0x26 ∷ 0x93 ∷ 0x0C ∷ 0x3E ∷ 0x60 ∷ 0x39 ∷
        0xA3 ∷ 0x3C ∷ 0xE4 ∷ 0x59 ∷ 0x64 ∷ 0xFF ∷ 0x21 ∷ 0x67 ∷ 0xF6 ∷ 0xEC ∷ 0xED ∷ 0xD4 ∷ 0x19 ∷ 0xDB ∷ 0x06 ∷ 0xC1 ∷ [] }
{}

/// A digest has 32 bytes.
pub fn digests_are_32_bytes(digest: &Digest32)
    ensures { length digest.now.0 ≡ 32 }
{
    let _first = digest.0[0];
}

/// The code of a status fits in 32 bits.
pub fn codes_fit(status: Status)
    ensures { status_code status < 2 ^ 32 }
{
    match status {
        Status::Running => {}
        Status::Exited(_code) => {}
        Status::Trapped(_code) => {}
    }
}
