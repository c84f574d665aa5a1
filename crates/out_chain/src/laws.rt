//! Laws of chains and claims, each of them the contract of a function that does nothing.
ghost use Rattle.std.specs.Prelude.{◌≡◌, ◌≢◌, ◌⊎◌, ℕ, List, length, true, Some, None};
ghost use Rattle.rd_base.specs.declared.claim.Claim.{Claim};
ghost use Rattle.digest_core.specs.Chain.{chain_of};
ghost use Rattle.out_chain.specs.Root.{root_of_claim};
ghost use Rattle.out_chain.specs.Soundness.{is_sound};
ghost use Rattle.out_chain.specs.Collision.{claim_collision, IsClaimCollision, LinksSplit};

/// The length and the chain of an output bind it: two outputs with one length and one chain are the same, or a link string of the one
/// and a different link string of the other have one digest.
#[tactic(auto, using(crate::specs::ClaimLaws::outputs_bound))]
pub fn chains_bind_outputs()
    ensures outputs { (digest : List ℕ → List ℕ) → ((bytes : List ℕ) → length (digest bytes) ≡ 32) → (output other : List ℕ) →
        length output ≡ length other → chain_of digest output ≡ chain_of digest other →
        (output ≡ other) ⊎ LinksSplit digest output other }
{}

/// Two sound claims have no collision if and only if their roots differ (`two_roots`) or they are equal (`equal`,
/// `without`). What is called their collision is one (`collision`).
#[tactic(auto, using(crate::specs::ClaimLaws::no_collision_of_two_roots, crate::specs::ClaimLaws::no_collision_of_equal, crate::specs::ClaimLaws::claims_without_collision, crate::specs::ClaimLaws::claims_collide))]
pub fn claims_of_one_root()
    ensures two_roots { (digest : List ℕ → List ℕ) (x y : Claim) →
        root_of_claim digest x ≢ root_of_claim digest y → claim_collision digest x y ≡ None }
    ensures equal { (digest : List ℕ → List ℕ) (x : Claim) → claim_collision digest x x ≡ None }
    ensures without { (digest : List ℕ → List ℕ) → ((bytes : List ℕ) → length (digest bytes) ≡ 32) → (x y : Claim) →
        is_sound digest x ≡ true → is_sound digest y ≡ true →
        root_of_claim digest x ≡ root_of_claim digest y → claim_collision digest x y ≡ None → x ≡ y }
    ensures collision { (digest : List ℕ → List ℕ) (x y : Claim) (pair : List ℕ × List ℕ) →
        claim_collision digest x y ≡ Some pair → IsClaimCollision digest x y pair }
{}
