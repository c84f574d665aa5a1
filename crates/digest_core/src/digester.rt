//! Digest functions, and digests that are counted.
ghost use Rattle.std.specs.Prelude.{◌≡◌, ◌+◌, ◌<◌, ℕ, List, ◌∷◌, length, replicate, slice_index};
ghost use Rattle.sha2.specs.Sha256.{sha256};
ghost use Rattle.sha2.proofs.Facts256.{length-sha256};
ghost use Rattle.digest_core.specs.Sha256Bytes.{byte-sha256};
ghost use Rattle.digest_core.specs.Weak8.{weak8};
ghost use Rattle.digest_core.specs.Weak8Bytes.{length-weak8, byte-weak8};

use rd_base::{Digest32, OpenText, Steps};
use sha2::Digest;
use std::sync::ledger::Ledger;

/// A digest function, which the type alone names: two values of one type give the same digests.
pub trait Digester: Copy {
    /// The digest of a list of bytes.
    ghost digest_of: { List ℕ → List ℕ };

    /// The digest of the bytes. It takes no memory.
    fn digest(&self, bytes: &[u8]) -> Digest32
        ensures { result.0 ≡ digest_of bytes.now };

    /// A digest has 32 bytes.
    ghost is_digest: { (bytes : List ℕ) → length (digest_of bytes) ≡ 32 };

    /// Each number of a digest is below 256.
    ghost is_bytes: { (bytes : List ℕ) (k : ℕ) → slice_index (digest_of bytes) k < 256 };
}

/// SHA-256 (FIPS 180-4, section 6.2). It has the digests of the standard's examples (`sha256_has_the_digests_of_the_standard`).
#[derive(Clone, Copy, Debug)]
pub struct Sha256;

impl Digester for Sha256 {
    ghost digest_of = { sha256 };

    ghost is_digest = { length-sha256 };

    ghost is_bytes = { byte-sha256 };

    fn digest(&self, bytes: &[u8]) -> Digest32 {
        Digest32(sha2::Sha256::digest(bytes))
    }
}

/// A digest of eight bits: the first byte of SHA-256, and 31 zeros. Two strings with one digest are soon found, so that tests can show what
/// a match does with them.
#[derive(Clone, Copy, Debug)]
pub struct Weak8;

/// A byte, and 31 zeros.
fn padded(first: u8) -> [u8; 32]
    ensures { result ≡ first ∷ replicate 31 0 }
{
    let mut bytes = [0; 32];
    bytes[0] = first;
    bytes
}

impl Digester for Weak8 {
    ghost digest_of = { weak8 };

    ghost is_digest = { length-weak8 };

    ghost is_bytes = { byte-weak8 };

    #[tactic(auto, unfolding(crate::specs::Weak8::weak8))]
    fn digest(&self, bytes: &[u8]) -> Digest32 {
        Digest32(padded(Digester::digest(&Sha256, bytes).0[0]))
    }
}

/// A digest function that can't be called without a counter, which each digest counts up by 1. A function that gets a `Counted` and
/// no `Digester` makes no digest of that function, by its type, without a counter; that it names no other digester, such as `Sha256`, one
/// reads. A clause on its own counter says how many those are that it counted there. Each `Digester` is one.
pub trait Counted: Copy {
    /// The digest of a list of bytes.
    ghost digest_of: { List ℕ → List ℕ };

    /// The digest of a string, which is counted as one step. It takes no memory.
    fn digest<L: Ledger>(&self, text: &OpenText, steps: &mut Steps<L>) -> Digest32
        ensures digest { result.0 ≡ digest_of text.now }
        ensures steps { steps.new ≡ steps.old + 1 };
}

impl<D: Digester> Counted for D {
    ghost digest_of = { D.digest_of };

    fn digest<L: Ledger>(&self, text: &OpenText, steps: &mut Steps<L>) -> Digest32 {
        steps.tick();
        Digester::digest(self, text.as_slice())
    }
}
