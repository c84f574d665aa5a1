//! Laws of tampered runs, each the contract of a function that does nothing.
ghost use Rattle.std.specs.Prelude.{◌≡◌, ◌⊎◌, ◌↔◌, ℕ, ◌+◌, ◌<◌, ◌≤◌, ◌∷◌, [], List, Option, None, length, get_or, min, true, false};
ghost use Rattle.rd_base.specs.declared.tamper.Tamper.{Tamper};
ghost use Rattle.rd_base.specs.declared.tamper.Tamper.TheVariants.{Untouched, Flip, Register, Early};
ghost use Rattle.rv_step.specs.State.{State};
ghost use Rattle.rv_step.specs.Step.{state_at};
ghost use Rattle.checkpoint_run.specs.NamedPages.{IsNamed};
ghost use Rattle.checkpoint_run.specs.TamperedRun.{run_from, run_at, tampered, first_stop, still};
ghost use Rattle.checkpoint_run.specs.ValidRuns.{TamperedRunsKeepValidStates};
ghost use Rattle.checkpoint_run.specs.AtRest.{rests};
ghost use Rattle.rd_base.specs.Status.{is_running};

use mem_plain::memories_are_their_bytes;
use rv_step::{runs_keep_the_input, steps_keep_valid_states, stopped_states_stay};

/// The run of a prover in the words of the machine's own. Without a tamper it is the machine's (`plain`). Before the step at
/// which a byte is flipped or a register set it is the machine's too (`flip_before`, `register_before`); there the state is
/// the machine's with that change (`flip_at`, `register_at`), and from there on the machine's steps follow (`flip_after`,
/// `register_after`). With an early end it is the machine's up to that step, and stays there (`early`). The step from which
/// a run stands still is not above the bound (`within`), and each state from there up to the bound is the same (`stands`).
pub fn tampered_runs()
    ensures plain { (s : State) (i : ℕ) → run_at Untouched s i ≡ state_at s i }
    ensures flip_before { (at addr mask : ℕ) (s : State) (i : ℕ) → i < at → run_at (Flip at addr mask) s i ≡ state_at s i }
    ensures flip_at { (at addr mask : ℕ) (s : State) → run_at (Flip at addr mask) s at ≡ tampered (Flip at addr mask) at (state_at s at) }
    ensures flip_after { (at addr mask : ℕ) (s : State) (k : ℕ) → run_at (Flip at addr mask) s (at + k) ≡ state_at (run_at (Flip at addr mask) s at) k }
    ensures register_before { (at reg value : ℕ) (s : State) (i : ℕ) → i < at → run_at (Register at reg value) s i ≡ state_at s i }
    ensures register_at { (at reg value : ℕ) (s : State) → run_at (Register at reg value) s at ≡ tampered (Register at reg value) at (state_at s at) }
    ensures register_after { (at reg value : ℕ) (s : State) (k : ℕ) → run_at (Register at reg value) s (at + k) ≡ state_at (run_at (Register at reg value) s at) k }
    ensures early { (steps : ℕ) (s : State) (i : ℕ) → run_at (Early steps) s i ≡ state_at s (min i steps) }
    ensures within { (t : Tamper) (first : State) (bound : ℕ) → still t first bound ≤ bound }
    ensures stands { (t : Tamper) (first : State) (bound i : ℕ) → still t first bound ≤ i → i ≤ bound → run_from t first i ≡ run_from t first (still t first bound) }
{
    stopped_states_stay();
}

/// A tamper changes neither the version nor the input (`version_at`, `input_at`), and so each state of a run has those of the first
/// one (`version`, `input`).
pub fn tampered_runs_keep_the_input()
    ensures version_at { (t : Tamper) (i : ℕ) (s : State) → (tampered t i s).version ≡ s.version }
    ensures input_at { (t : Tamper) (i : ℕ) (s : State) → (tampered t i s).input ≡ s.input }
    ensures version { (t : Tamper) (first : State) (i : ℕ) → (run_from t first i).version ≡ first.version }
    ensures input { (t : Tamper) (first : State) (i : ℕ) → (run_from t first i).input ≡ first.input }
{
    runs_keep_the_input();
}

/// A tamper whose numbers are in range makes no invalid state: each state of the run from a valid one is valid.
pub fn tampered_runs_keep_valid_states()
    ensures { TamperedRunsKeepValidStates }
{
    memories_are_their_bytes();
    steps_keep_valid_states();
}

/// The first stop of a run below a step is the first: below it each state runs (`runs_before`), and if it is itself below
/// the step, its state has stopped (`stops`). A run rests at no step before the one from which it stands still (`moves_before`), and there
/// it rests if it isn't at the bound (`rests_there`).
pub fn stops_come_first()
    ensures runs_before { (t : Tamper) (first : State) (n k : ℕ) → k < first_stop t first n → is_running (run_from t first k).status ≡ true }
    ensures stops { (t : Tamper) (first : State) (n : ℕ) → first_stop t first n < n → is_running (run_from t first (first_stop t first n)).status ≡ false }
    ensures moves_before { (t : Tamper) (first : State) (bound k : ℕ) → k < still t first bound → rests t bound k (run_from t first k) ≡ false }
    ensures rests_there { (t : Tamper) (first : State) (bound : ℕ) → still t first bound < bound → rests t bound (still t first bound) (run_from t first (still t first bound)) ≡ true }
{
    stopped_states_stay();
}

/// A page that is named in one of two places is named in the first of them or in the second.
pub fn pages_of_two_places()
    ensures { (pages : List (Option ℕ)) (page : ℕ) → length pages ≡ 2 →
        IsNamed page pages ↔ (IsNamed page (get_or pages 0 None ∷ []) ⊎ IsNamed page (get_or pages 1 None ∷ [])) }
{}
