//! Digest functions for tests.
ghost use Rattle.std.specs.Prelude.{◌≡◌, [], take};
ghost use Rattle.std.specs.Int.{w64, from_be_bytes};

use digest_core::Digester;
use rd_base::Digest32;
use std::sync::atomic::{AtomicU64, Ordering};

/// A digest function that adds 1 to a number for each digest.
#[derive(Clone, Copy)]
pub struct Tally<'a, D> {
    /// The digest function.
    pub of: D,
    /// How many digests it has made.
    pub made: &'a AtomicU64,
}

impl<D: Digester> Digester for Tally<'_, D> {
    ghost digest_of = { D.digest_of };

    ghost is_digest = { D.is_digest };

    ghost is_bytes = { D.is_bytes };

    fn digest(&self, bytes: &[u8]) -> Digest32 {
        self.made.fetch_add(1, Ordering::SeqCst);
        self.of.digest(bytes)
    }
}

/// A digest function with one value: another one's digest of nothing.
#[derive(Clone, Copy)]
pub struct OneValue<D> {
    /// The other one.
    pub of: D,
}

impl<D: Digester> Digester for OneValue<D> {
    ghost digest_of = { λ _. D.digest_of [] };

    ghost is_digest = { λ _. D.is_digest [] };

    ghost is_bytes = { λ _. D.is_bytes [] };

    fn digest(&self, _bytes: &[u8]) -> Digest32 {
        self.of.digest(&[])
    }
}

/// The first eight bytes of a digest as a number, the first one highest.
pub fn first_eight(digest: Digest32) -> u64
    ensures { result ≡ from_be_bytes w64 (take 8 digest.0) }
{
    let [a, b, c, d, e, f, g, h, ..] = digest.0;
    u64::from_be_bytes([a, b, c, d, e, f, g, h])
}
