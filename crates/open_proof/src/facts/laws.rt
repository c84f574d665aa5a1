//! Laws of the definitions, each the contract of a function that does nothing.
ghost use Rattle.std.specs.Prelude.{◌≡◌, ◌⊎◌, ℕ, List, length, true};
ghost use Rattle.rd_base.specs.declared.digest.Digest32.{Digest32};
ghost use Rattle.rd_base.specs.declared.proof.Proof.{Proof};
ghost use Rattle.rv_step.specs.Alike.{named_at};
ghost use Rattle.rv_step.specs.State.{State};
ghost use Rattle.rv_step.specs.Step.{step};
ghost use Rattle.rv_step.specs.Valid.{IsValid};
ghost use Rattle.state_commit.specs.StateRoot.{root_in};
ghost use Rattle.open_proof.specs.Conditions.{LeadsFrom};
ghost use Rattle.open_proof.specs.Facts.{facts_of, named_called};
ghost use Rattle.open_proof.specs.InRange.{is_in_range};
ghost use Rattle.open_proof.specs.LawsBelow.{StepLaws, RegisterLaws, TreeLaws};
ghost use Rattle.open_proof.specs.Next.{root_next};
ghost use Rattle.open_proof.specs.PlainProof.{plain_facts, plain_proof};
ghost use Rattle.open_proof.specs.Shown.{ShowsState};
ghost use Rattle.open_proof.specs.StateCollision.{IsStateCollision};
ghost use Rattle.open_proof.specs.declared.facts.Facts.{Facts};

use digest_core::chain_grows;
use mem_plain::numbers_lie_in_chunks;
use mem_tree::{input_bytes_lie_in_chunks, memory_nodes};
use merkle_nodes::{
    changed_leaves_climb_with_old_siblings, nodes_depend_on_leaves_below, paths_climb_to_nodes,
    paths_open_strings_of_the_tree,
};
use rv_step::{
    effects_read_named_registers, names_are_registers, runs_keep_the_input,
    steps_read_named_registers, two_parts_are_the_step,
};

/// The laws of the crates below that those of this crate rest on.
fn laws_below()
    ensures steps { StepLaws }
    ensures registers { RegisterLaws }
    ensures trees { TreeLaws }
{
    two_parts_are_the_step();
    numbers_lie_in_chunks();
    memory_nodes();
    chain_grows();
    input_bytes_lie_in_chunks();
    steps_read_named_registers();
    effects_read_named_registers();
    names_are_registers();
    runs_keep_the_input();
    nodes_depend_on_leaves_below();
    paths_climb_to_nodes();
    changed_leaves_climb_with_old_siblings();
    paths_open_strings_of_the_tree();
}

/// What a proof shows of a valid state leads to the root of the next state, in the state's version: the step on what is held depends on
/// the opened parts alone, and is the step of the machine.
pub fn shown_states_lead()
    ensures { (digest : List ℕ → List ℕ) (facts : Facts) (s : State) → IsValid s → ShowsState digest facts s →
        root_next digest facts ≡ root_in digest s.version (step s) }
{
    laws_below();
}

/// The plain proof of a valid state holds exactly the parts of the state.
pub fn plain_proofs_hold_the_parts()
    ensures { (digest : List ℕ → List ℕ) (s : State) → IsValid s → facts_of (plain_proof digest s) ≡ plain_facts digest s }
{}

/// The plain proof of a valid state, in the state's version, leads from the state's root to the root of the next state.
pub fn plain_proofs_lead()
    ensures { (digest : List ℕ → List ℕ) (s : State) (a b : Digest32) → IsValid s →
        a.0 ≡ root_in digest s.version s → b.0 ≡ root_in digest s.version (step s) →
        LeadsFrom digest s.version a (facts_of (plain_proof digest s)) b }
{
    laws_below();
}

/// A proof in the ranges of its types that leads from the root of a valid state, in the state's version, to a root: this is the root of
/// the next state, or a string that the proof opens and a different string of the state have one digest.
pub fn proofs_lead_to_the_next_state()
    ensures { (digest : List ℕ → List ℕ) → ((bytes : List ℕ) → length (digest bytes) ≡ 32) →
        (proof : Proof) (s : State) (a b : Digest32) → is_in_range proof ≡ true → IsValid s →
        a.0 ≡ root_in digest s.version s → LeadsFrom digest s.version a (facts_of proof) b →
        (b.0 ≡ root_in digest s.version (step s)) ⊎ ((pair : List ℕ × List ℕ) × IsStateCollision digest (facts_of proof) s pair) }
{
    laws_below();
}

/// The plain proof of a state names the registers that the state's next instruction names.
pub fn plain_proofs_name_registers()
    ensures { (digest : List ℕ → List ℕ) (s : State) → named_called (plain_facts digest s) ≡ named_at s }
{
    laws_below();
}
