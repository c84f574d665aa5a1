//! Laws of the root of a state, each the contract of a function that does nothing.
ghost use Rattle.std.specs.Prelude.{◌≡◌, ◌⊎◌, ℕ, ◌^◌, ◌<◌, List, length};
ghost use Rattle.rv_step.specs.State.{State};
ghost use Rattle.rv_step.specs.Valid.{IsValid};
ghost use Rattle.state_commit.specs.StateRoot.{root_in};
ghost use Rattle.state_commit.specs.Binding.{StatesSplit, committed_part};

use merkle_nodes::roots_bind_trees;
use out_chain::chains_bind_outputs;

/// A root binds its state. Two valid states of one version, with outputs below 2^64 bytes and one root, are the same state, in versions
/// 1 and 2 but for the input, which lies in memory there; or a string of the one and a different string of the other have one digest.
/// Nothing is assumed of the digest function but that its digests have 32 bytes.
pub fn a_root_binds()
    ensures binds { (digest : List ℕ → List ℕ) → ((bytes : List ℕ) → length (digest bytes) ≡ 32) → (s t : State) →
        IsValid s → IsValid t → s.version ≡ t.version → length s.output < 2 ^ 64 → length t.output < 2 ^ 64 →
        root_in digest s.version s ≡ root_in digest t.version t →
        (committed_part s ≡ committed_part t) ⊎ StatesSplit digest s t }
{
    roots_bind_trees();
    chains_bind_outputs();
}
