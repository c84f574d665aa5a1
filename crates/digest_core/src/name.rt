//! The digests that a match may be played by, each by its name.
ghost use Rattle.std.specs.Prelude.{◌≡◌, bytes_eq, find, Some};
ghost use Rattle.digest_core.specs.Name.{digest_text, digest_named};

use std::fmt;

/// The digest of a match's commitments.
#[derive(Clone, Copy, Debug, PartialEq, Eq)]
pub enum DigestName {
    /// SHA-256 (FIPS 180-4).
    Sha256,
    /// The first byte of SHA-256 and 31 zero bytes: for matches in which two strings have one digest.
    Weak8,
}

impl DigestName {
    /// Every digest that has a name, in the order in which names are tried.
    pub const ALL: [DigestName; 2] = [DigestName::Sha256, DigestName::Weak8];

    /// The name as texts write it.
    pub fn text(self) -> &'static str
        ensures { result.now ≡ digest_text self }
    {
        match self {
            DigestName::Sha256 => "sha256",
            DigestName::Weak8 => "weak8",
        }
    }

    /// The digest of this name; `None` if no digest has it.
    pub fn named(name: &str) -> Option<DigestName>
        ensures { result ≡ digest_named name.now }
    {
        digest_among(&DigestName::ALL, name)
    }
}

impl fmt::Display for DigestName {
    ghost output = { λ digest. Some (digest_text digest) };

    fn fmt<W: fmt::Write>(&self, f: &mut fmt::Formatter<W>) -> fmt::Result {
        f.write_str(self.text())
    }
}

/// The first of these digests with this name.
fn digest_among(digests: &[DigestName], name: &str) -> Option<DigestName>
    ensures { result ≡ find (λ digest. bytes_eq name.now (digest_text digest)) digests.now }
{
    'digests: for digest in digests {
        if name == digest.text() {
            return Some(*digest);
        }
    }
    None
}
