//! Laws of manners, each of them the contract of a function that does nothing.
ghost use Rattle.std.specs.Prelude.{ℕ, List};
ghost use Rattle.rd_base.specs.declared.script.Manner.{Manner};
ghost use Rattle.prover_script.specs.Manners.{Behaviour, IsSteady, says};

/// A prover that stays with its answers, giving one that it gave after more passes on the question too, does so with any manner.
#[tactic(auto, using(crate::specs::Steadiness::manners_are_steady))]
pub fn manners_are_steady()
    ensures { (digest : List ℕ → List ℕ) (m : Manner) (inner : Behaviour) → IsSteady inner → IsSteady (says digest m inner) }
{}
