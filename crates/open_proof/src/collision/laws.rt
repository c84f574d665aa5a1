//! The law of two proofs, the contract of a function that does nothing.
ghost use Rattle.std.specs.Prelude.{◌≡◌, ◌≢◌, ℕ, List, length, Some, None, true};
ghost use Rattle.rd_base.specs.declared.digest.Digest32.{Digest32};
ghost use Rattle.rd_base.specs.declared.proof.Proof.{Proof};
ghost use Rattle.open_proof.specs.Conditions.{LeadsFrom};
ghost use Rattle.open_proof.specs.Facts.{facts_of};
ghost use Rattle.open_proof.specs.InRange.{is_in_range};
ghost use Rattle.open_proof.specs.declared.facts.Facts.{Facts};
ghost use Rattle.open_proof.specs.Collision.{step_collision, IsStepCollision};

/// Two proofs of a version, in the ranges of their types, that lead from one root have no collision if and only if they are equal
/// (`equal`, `without`), and so they have one if they lead to different roots (`apart`). What is called their collision is one
/// (`collision`).
pub fn proofs_from_one_root()
    ensures equal { (digest : List ℕ → List ℕ) (version : ℕ) (a : Digest32) (x : Facts) → step_collision digest version a x x ≡ None }
    ensures without { (digest : List ℕ → List ℕ) → ((bytes : List ℕ) → length (digest bytes) ≡ 32) →
        (version : ℕ) (a b c : Digest32) (x y : Proof) → is_in_range x ≡ true → is_in_range y ≡ true →
        LeadsFrom digest version a (facts_of x) b → LeadsFrom digest version a (facts_of y) c →
        step_collision digest version a (facts_of x) (facts_of y) ≡ None → x ≡ y }
    ensures apart { (digest : List ℕ → List ℕ) → ((bytes : List ℕ) → length (digest bytes) ≡ 32) →
        (version : ℕ) (a b c : Digest32) (x y : Proof) → is_in_range x ≡ true → is_in_range y ≡ true →
        LeadsFrom digest version a (facts_of x) b → LeadsFrom digest version a (facts_of y) c → b ≢ c →
        (pair : List ℕ × List ℕ) × (step_collision digest version a (facts_of x) (facts_of y) ≡ Some pair) }
    ensures collision { (digest : List ℕ → List ℕ) (version : ℕ) (a : Digest32) (x y : Facts) (pair : List ℕ × List ℕ) →
        step_collision digest version a x y ≡ Some pair → IsStepCollision digest x y pair }
{}
