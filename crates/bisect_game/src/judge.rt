//! The trait of a judge.
ghost use Rattle.std.specs.Prelude.{◌≡◌};
ghost use Rattle.bisect_game.specs.Ruling.{Ruling, IsFair};

use rd_base::{Claim, Digest32, OpenText, Proof};

/// Who decides about answers.
pub trait Judge {
    /// Plain data that identifies the judge. Names and type fix what it decides.
    type Names: Copy;

    ghost names: { Self → Self.Names };

    /// Its decisions, as functions.
    ghost ruling: { Self.Names → Ruling };

    /// Whether a claim agrees with itself.
    fn sound(&self, claim: &Claim) -> bool
        ensures { result ≡ (ruling (names self.now)).is_sound claim.now };

    /// The root of the state that a claim names.
    fn root_of(&self, claim: &Claim) -> Digest32
        ensures { result ≡ (ruling (names self.now)).root_of claim.now };

    /// The root to which a proof leads from the root `from`; `None` if it leads nowhere.
    fn leads(&self, from: Digest32, proof: &Proof) -> Option<Digest32>
        ensures { result ≡ (ruling (names self.now)).leads from proof.now };

    /// Of two sound claims: two different strings of one digest, the first opened by the first claim, the second by the second; `None` if
    /// and only if the claims are equal or have two roots.
    fn claim_collision(&self, first: &Claim, second: &Claim) -> Option<(OpenText, OpenText)>
        ensures { result ≡ (ruling (names self.now)).claim_collision first.now second.now };

    /// Of two proofs that both lead from the root `from`: two different strings of one digest, the first opened by the first proof, the
    /// second by the second. It isn't `None` if they lead to two roots.
    fn step_collision(
        &self,
        from: Digest32,
        first: &Proof,
        second: &Proof,
    ) -> Option<(OpenText, OpenText)>
        ensures { result ≡ (ruling (names self.now)).step_collision from first.now second.now };

    /// Its laws.
    ghost is_fair: { (n : Self.Names) → IsFair (ruling n) };
}
