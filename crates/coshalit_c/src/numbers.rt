//! The numbers by which a match of a host is played.
ghost use Rattle.std.specs.Prelude.{◌≡◌};
ghost use Rattle.coshalit_c.specs.HostMatch.{head_of_match};

use digest_core::DigestName;
use rd_base::Digest32;
use transcript_text::Head;

/// The numbers by which a match of the machine is played, by SHA-256.
#[repr(C)]
#[derive(Clone, Copy, Drop)]
pub struct CoshalitNumbers {
    /// The version of the commitments, 1 to 3.
    pub version: u32,
    /// How many provers there are, 1 to 16.
    pub provers: u32,
    /// Into how many parts a round cuts its interval at most, 2 to 16.
    pub fan: u32,
    /// How many passes each question allows, 0 to 100.
    pub patience: u32,
    /// How many steps the run has, 1 to 4,294,967,295.
    pub bound: u64,
    /// The root of the state at step 0.
    pub start: [u8; 32],
}

/// The head of these numbers.
pub(crate) fn head_of(numbers: &CoshalitNumbers) -> Head
    ensures { result ≡ head_of_match numbers.now }
{
    Head {
        provers: numbers.provers,
        bound: numbers.bound,
        patience: numbers.patience,
        version: numbers.version,
        fan: numbers.fan,
        digest: DigestName::Sha256,
        start: Digest32(numbers.start),
    }
}
