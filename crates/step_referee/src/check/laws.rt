//! The law of the answer by tests, the contract of a function that does nothing.
ghost use Rattle.std.specs.Prelude.{◌≡◌, ◌↔◌, ℕ, List};
ghost use Rattle.rd_base.specs.declared.digest.Digest32.{Digest32};
ghost use Rattle.open_proof.specs.Conditions.{LeadsFrom};
ghost use Rattle.open_proof.specs.declared.facts.Facts.{Facts};
ghost use Rattle.step_referee.specs.Tests.{checked};

use crate::check::StepCheck;

/// Whether what a proof holds leads from a root, and to which, is decided by the tests of `check_step`: they answer that it leads to a
/// root if and only if its conditions hold and this is the root that is made of its parts after the step.
pub fn leading_is_decided()
    ensures { (digest : List ℕ → List ℕ) (version : ℕ) (a b : Digest32) (facts : Facts) →
        (checked digest version a facts ≡ StepCheck.Leads b) ↔ LeadsFrom digest version a facts b }
{}
