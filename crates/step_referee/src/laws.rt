//! The laws that tie the judge to the conditions of proofs and the machine to the game, each the contract of a function that does nothing.
ghost use Rattle.std.specs.Prelude.{◌≡◌, ◌↔◌, ◌+◌, ◌^◌, ◌<◌, ℕ, List, Some, length, true};
ghost use Rattle.rd_base.specs.declared.digest.Digest32.{Digest32};
ghost use Rattle.rd_base.specs.declared.proof.Proof.{Proof};
ghost use Rattle.rv_step.specs.State.{State};
ghost use Rattle.rv_step.specs.Valid.{IsValid};
ghost use Rattle.state_commit.specs.StateRoot.{root_in};
ghost use Rattle.bisect_game.specs.Rules.{Rules};
ghost use Rattle.bisect_game.specs.Truth.{IsRun};
ghost use Rattle.open_proof.specs.Conditions.{LeadsFrom};
ghost use Rattle.open_proof.specs.Facts.{facts_of};
ghost use Rattle.open_proof.specs.InRange.{is_in_range};
ghost use Rattle.step_referee.specs.MachineRuling.{leads_in, machine_ruling};
ghost use Rattle.step_referee.specs.MachineTruth.{machine_truth};

use digest_core::{Digester, chain_grows};
use open_proof::{plain_proofs_hold_the_parts, plain_proofs_lead};
use rv_step::{runs_go_on, runs_keep_the_input};

/// By the judge of a version a proof leads from a root to another if and only if it is in the ranges of its types, as each proof that a
/// program holds, and its conditions for this version hold.
pub fn judged_leading_is_exact()
    ensures { (digest : List ℕ → List ℕ) (version : ℕ) (a b : Digest32) (proof : Proof) →
        (leads_in digest version a proof ≡ Some b) ↔ ((is_in_range proof ≡ true) × LeadsFrom digest version a (facts_of proof) b) }
{}

/// A run of the machine is a true run for the game that the judge of its version decides: each plain proof leads from a root of the run to
/// the next, and the claim at the bound is sound and has the last root. The run starts from any valid state; its output stays below 2^64
/// bytes.
pub fn machine_runs_are_true<D: Digester>()
    ensures { (s : State) (rules : Rules) → IsValid s → length s.output + rules.setup.bound < 2 ^ 64 →
        rules.ruling ≡ machine_ruling D.digest_of s.version → rules.setup.start.0 ≡ root_in D.digest_of s.version s →
        IsRun rules (machine_truth D.digest_of s rules.setup.bound) }
{
    chain_grows();
    runs_go_on();
    runs_keep_the_input();
    plain_proofs_lead();
    plain_proofs_hold_the_parts();
}
