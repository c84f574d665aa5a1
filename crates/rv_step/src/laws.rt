//! Laws of the definitions, each the contract of a function that changes nothing.
ghost use Rattle.std.specs.Prelude.{◌≡◌, ◌≢◌, ℕ, ◌+◌, ◌++◌, ◌/◌, ◌<◌, ◌≤◌, ◌^◌, List, map, length, slice_index, Option, Some, None, false};
ghost use Rattle.rd_base.specs.Status.{is_running, HasWordCode};
ghost use Rattle.rv_decode.specs.declared.instr.Instr.{Instr};
ghost use Rattle.mem_plain.specs.Contents.{byte_at};
ghost use Rattle.rv_step.specs.State.{State, state_of};
ghost use Rattle.rv_step.specs.Valid.{IsValid};
ghost use Rattle.rv_step.specs.Effect.{effect, effect_with};
ghost use Rattle.rd_base.specs.Scheme.{scheme_of};
ghost use Rattle.rd_base.specs.declared.scheme.InputScheme.{InputScheme};
ghost use Rattle.rv_step.specs.Offer.{offered};
ghost use Rattle.rv_step.specs.NextEffect.{effect_at};
ghost use Rattle.rv_step.specs.Step.{step, state_at, after_effect};
ghost use Rattle.rv_step.specs.Parts.{needed, needed_in, by_parts, finished, Meets, Finishes, ReadsAsNeeded, AsksAsNeeded, IsAligned};
ghost use Rattle.rv_step.specs.Touched.{touched};
ghost use Rattle.rv_step.specs.Named.{named, named_by, destination, AreRegisters, WritesOnly};
ghost use Rattle.rv_step.specs.Alike.{with_registers, Shows, StepAlike, ChangesNamed};

use crate::machine::Machine;
use mem_plain::{laying_bytes, memories_are_their_bytes};
use rd_base::{Status, registers_are_32};

/// The two parts of a step are the step, for every state and instruction (`step`): what `need` names is read or
/// written, and `finish` does the rest, with the number that was read, or with any if none was.
///
/// If no input is offered, the effect of an instruction is as its need says, whatever memory gives (`any_reader`): it reads
/// nothing or that one number, and leaves memory as it is; or it is that store; or it is that trap. What is read or written is
/// 1, 2 or 4 bytes at a multiple of their number (`aligned`). Whatever memory gives and whatever is offered of the input, the
/// effect is what `finish` makes of the number that is needed, or it is that store or that trap (`any_offer`).
pub fn two_parts_are_the_step()
    ensures step { (s : State) (i : Instr) (any : ℕ) → by_parts s i any (needed_in (scheme_of s.version).input s.regs i) ≡ after_effect s (effect_at s i) }
    ensures any_reader { (xs : List ℕ) (pc : ℕ) (read : ℕ → ℕ → ℕ) (i : Instr) →
        Meets (λ memory. effect xs pc memory i) read (needed xs i) }
    ensures any_offer { (input : InputScheme) (byte : ℕ → ℕ) (xs : List ℕ) (pc : ℕ) (read : ℕ → ℕ → ℕ) (i : Instr) →
        Finishes (effect_with (offered input byte) xs pc read i) (λ loaded. finished xs pc loaded i) read byte (needed_in input xs i) }
    ensures aligned { (input : InputScheme) (xs : List ℕ) (i : Instr) → IsAligned (needed_in input xs i) }
{}

/// What is needed is what an effect depends on. If a load is named, the effect depends on what memory gives, and if none is named it
/// doesn't (`memory`). If a byte of the input is named, the effect depends on what is offered of the input, and if none is named it
/// doesn't (`input`).
pub fn needs_tell_what_is_read()
    ensures memory { (input : InputScheme) (byte : ℕ → ℕ) (xs : List ℕ) (pc : ℕ) (i : Instr) →
        ReadsAsNeeded (λ memory. effect_with (offered input byte) xs pc memory i) (needed_in input xs i) }
    ensures input { (input : InputScheme) (xs : List ℕ) (pc : ℕ) (read : ℕ → ℕ → ℕ) (i : Instr) →
        AsksAsNeeded (λ byte. effect_with (offered input byte) xs pc read i) (needed_in input xs i) }
{}

/// What an instruction does and what it needs depend only on `x0` and the registers that it names. If two register files hold the
/// same in these, the instruction has the same effect over both (`effect`), and the same need (`needed`). It writes no register
/// but its destination (`writes`).
pub fn effects_read_named_registers()
    ensures effect { (offer : Option (ℕ → ℕ)) (xs ys : List ℕ) (pc : ℕ) (read : ℕ → ℕ → ℕ) (i : Instr) → slice_index xs 0 ≡ slice_index ys 0 →
        map (λ r. slice_index xs r) (named i) ≡ map (λ r. slice_index ys r) (named i) → effect_with offer xs pc read i ≡ effect_with offer ys pc read i }
    ensures needed { (input : InputScheme) (xs ys : List ℕ) (i : Instr) → slice_index xs 0 ≡ slice_index ys 0 →
        map (λ r. slice_index xs r) (named i) ≡ map (λ r. slice_index ys r) (named i) → needed_in input xs i ≡ needed_in input ys i }
    ensures writes { (offer : Option (ℕ → ℕ)) (xs : List ℕ) (pc : ℕ) (read : ℕ → ℕ → ℕ) (i : Instr) → WritesOnly (destination i) (effect_with offer xs pc read i) }
{}

/// Each register that an instruction names is one of `x0` to `x31`.
pub fn names_are_registers()
    ensures { (o : Option Instr) → AreRegisters (named_by o) }
{}

/// A step depends only on `x0` and the registers that its instruction names (`alike`). Let the state have another register file
/// that holds the same in these: after the step everything but the registers is the same in both states, and so is each register
/// that was the same before it. A step changes at most one register, one that its instruction names (`changes`).
pub fn steps_read_named_registers()
    ensures alike { (xs : List ℕ) (s : State) → Shows xs s → StepAlike xs s (step (with_registers xs s)) (step s) }
    ensures changes { (s : State) → ChangesNamed s }
{}

/// A run keeps the version and the input.
pub fn runs_keep_the_input()
    ensures version { (s : State) (n : ℕ) → (state_at s n).version ≡ s.version }
    ensures input { (s : State) (n : ℕ) → (state_at s n).input ≡ s.input }
{}

/// A step changes no byte outside the page that `touched` names (`elsewhere`), and no memory if it names none
/// (`kept`). The page is below 2^20 (`below`).
pub fn one_page_changes()
    ensures kept { (s : State) → touched s ≡ None → (step s).memory ≡ s.memory }
    ensures elsewhere { (s : State) (page q : ℕ) → touched s ≡ Some page → q / 4096 ≢ page → byte_at (step s).memory q ≡ byte_at s.memory q }
    ensures below { (s : State) (page : ℕ) → touched s ≡ Some page → page < 2 ^ 20 }
{
    laying_bytes();
}

/// A state that has stopped steps to itself.
pub fn stopped_states_stay()
    ensures { (s : State) → is_running s.status ≡ false → step s ≡ s }
{}

/// A step keeps the output, or appends bytes to it.
pub fn output_only_grows()
    ensures { (s : State) → (more : List ℕ) × ((step s).output ≡ s.output ++ more) }
{}

/// A step keeps valid states, which are those with 32 words as registers of which the first is 0, a word as `pc` and
/// as the code of the status, bytes in memory, output and input, an input of at most 1,048,576 bytes, and one of the versions.
pub fn steps_keep_valid_states()
    ensures { (s : State) → IsValid s → IsValid (step s) }
{
    memories_are_their_bytes();
}

/// A run goes on from where it is (`further`), keeps states valid (`valid`), and puts out at most one byte a step (`output`).
pub fn runs_go_on()
    ensures further { (s : State) (n k : ℕ) → state_at s (n + k) ≡ state_at (state_at s n) k }
    ensures valid { (s : State) (n : ℕ) → IsValid s → IsValid (state_at s n) }
    ensures output { (s : State) (n : ℕ) → length (state_at s n).output ≤ length s.output + n }
{
    steps_keep_valid_states();
}

/// The state of each machine is valid.
pub fn machines_are_valid(machine: &Machine)
    ensures { IsValid (state_of machine.now) }
{
    registers_are_32(&machine.regs);
    codes_are_words(&machine.ctl.status);
    bytes_are_small(&machine.output);
    bytes_are_small(&machine.input);
    machine.mem.is_memory();
    let _pc = machine.ctl.pc;
}

/// The code of a status is a word.
fn codes_are_words(status: &Status)
    ensures { HasWordCode status.now }
{
    match status {
        Status::Running => {}
        Status::Exited(code) => {
            let _word = *code;
        }
        Status::Trapped(code) => {
            let _word = *code;
        }
    }
}

/// Bytes are below 256.
fn bytes_are_small(bytes: &[u8])
    ensures { (k : ℕ) → slice_index bytes.now k < 256 }
{}
