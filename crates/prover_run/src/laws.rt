//! Laws of what provers say, each of them the contract of a function that does nothing.
ghost use Rattle.std.specs.Prelude.{◌≡◌, ◌≤◌, ◌<◌, ℕ, ◌-◌, List, Some, slice_get, slice_index, min, false};
ghost use Rattle.rd_base.specs.declared.script.Script.{Script};
ghost use Rattle.rd_base.specs.declared.script.Manner.TheVariants.{Plain, Late, Silent, Output, Forge, Noise, Tape};
ghost use Rattle.rd_base.specs.declared.tape.TapeAnswer.{TapeAnswer};
ghost use Rattle.rd_base.specs.declared.tamper.Tamper.{Tamper};
ghost use Rattle.rd_base.specs.declared.tamper.Tamper.TheVariants.{Untouched};
ghost use Rattle.rv_step.specs.State.{State};
ghost use Rattle.rv_step.specs.Step.{state_at};
ghost use Rattle.bisect_game.specs.declared.settled.Kind.TheVariants as kind;
ghost use Rattle.bisect_game.specs.declared.settled.Question.{Question};
ghost use Rattle.plain_answers.specs.Plain.{plain};
ghost use Rattle.prover_script.specs.Manners.{IsSteady, asks_roots, written};
ghost use Rattle.prover_run.specs.CaseScripts.{script_says, case_says};
ghost use Rattle.prover_run.specs.Growing.{OutputGrowsSlowly};

use checkpoint_run::tampered_runs;
use open_proof::plain_proofs_name_registers;

/// A run writes one byte of output a step at most, whatever the tamper.
pub fn outputs_grow_slowly()
    ensures { OutputGrowsSlowly }
{}

/// If nothing is wrong with its run, a prover gives the plain answers of the machine's own run: at once if its manner
/// is plain (`plain`); after its number of passes on the question if it is late (`late`); in rounds before the first silent one
/// (`silent`); and if it states the run's own output (`output`). The prover of a case says what its script says (`by_script`).
pub fn untouched_provers()
    ensures plain { (digest : List ℕ → List ℕ) (start : State) (bound : ℕ) (q : Question) (passes : ℕ) →
        script_says digest start bound (record { tamper = Untouched; manner = Plain }) q passes ≡ Some (plain digest (state_at start) bound q.kind) }
    ensures late { (digest : List ℕ → List ℕ) (start : State) (bound many : ℕ) (q : Question) (passes : ℕ) → many ≤ passes →
        script_says digest start bound (record { tamper = Untouched; manner = Late many }) q passes ≡ Some (plain digest (state_at start) bound q.kind) }
    ensures silent { (digest : List ℕ → List ℕ) (start : State) (bound from : ℕ) (q : Question) (passes : ℕ) → q.qid.round < from →
        script_says digest start bound (record { tamper = Untouched; manner = Silent from }) q passes ≡ Some (plain digest (state_at start) bound q.kind) }
    ensures output { (digest : List ℕ → List ℕ) (start : State) (bound : ℕ) (q : Question) (passes : ℕ) →
        script_says digest start bound (record { tamper = Untouched; manner = Output (state_at start bound).output }) q passes ≡ Some (plain digest (state_at start) bound q.kind) }
    ensures by_script { (digest : List ℕ → List ℕ) (start : State) (bound : ℕ) (scripts : List Script) (p : ℕ) (script : Script) →
        slice_get scripts (p - 1) ≡ Some script → case_says digest start bound scripts p ≡ script_says digest start bound script }
{
    tampered_runs();
}

/// If nothing is wrong with its run, a prover gives the plain answers of the machine's own run with a manner that changes
/// nothing of them: with a forgery that shows what the register holds, if it is asked for the proof of that step (`forge`), and
/// with noise if it is asked for no root (`noise`). One with a tape says what is written down for the question, whatever its run (`tape`).
pub fn harmless_manners()
    ensures forge { (digest : List ℕ → List ℕ) (start : State) (bound step reg value : ℕ) (q : Question) (passes : ℕ) → (q.kind ≡ kind.Proof step → slice_index (state_at start (min step bound)).regs reg ≡ value) →
        script_says digest start bound (record { tamper = Untouched; manner = Forge step reg value }) q passes ≡ Some (plain digest (state_at start) bound q.kind) }
    ensures noise { (digest : List ℕ → List ℕ) (start : State) (bound seed : ℕ) (q : Question) (passes : ℕ) → asks_roots q.kind ≡ false →
        script_says digest start bound (record { tamper = Untouched; manner = Noise seed }) q passes ≡ Some (plain digest (state_at start) bound q.kind) }
    ensures tape { (digest : List ℕ → List ℕ) (start : State) (bound : ℕ) (tamper : Tamper) (entries : List TapeAnswer) (q : Question) (passes : ℕ) →
        script_says digest start bound (record { tamper = tamper; manner = Tape entries }) q passes ≡ written entries q.qid }
{
    tampered_runs();
    plain_proofs_name_registers();
}

/// Each prover of a case stays with its answer: once it has given it, it gives it after more passes too.
#[tactic(auto, using(crate::specs::OneAnswer::case_provers_are_steady))]
pub fn provers_are_steady()
    ensures { (digest : List ℕ → List ℕ) (start : State) (bound : ℕ) (scripts : List Script) (p : ℕ) → IsSteady (case_says digest start bound scripts p) }
{}
