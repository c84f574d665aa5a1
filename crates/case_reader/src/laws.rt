//! Laws of the definitions, each the contract of a function that does nothing.
ghost use Rattle.std.specs.Prelude.{◌≡◌, ℕ, List, Err};
ghost use Rattle.case_reader.specs.Case.{case_at};
ghost use Rattle.case_reader.specs.Tasks.{tasks_at, CasesAreTasks};
ghost use Rattle.case_reader.specs.ReadTampers.{TampersAreRead};
ghost use Rattle.case_reader.specs.ReadInputs.{InputsAreRead, InputsOfTasksAreRead};

use crate::fault::{CaseFault, TaskFault};

/// No bytes have out of memory as their fault: it comes of reading them, and is no rule of a case.
#[tactic(auto, using(crate::proofs::FaultLemmas::no_fault_is_memory))]
pub fn no_fault_of_a_case_is_out_of_memory()
    ensures { (bytes : List ℕ) → ¬ (case_at bytes ≡ Err CaseFault.Memory) }
{}

/// Nor is it a fault of bytes that are read as tasks, of the whole text or of a task.
pub fn no_fault_of_tasks_is_out_of_memory()
    ensures none { (bytes : List ℕ) → ¬ (tasks_at bytes ≡ Err TaskFault.Memory) }
    ensures whole { (bytes : List ℕ) → ¬ (tasks_at bytes ≡ Err (TaskFault.Whole CaseFault.Memory)) }
    ensures task { (bytes : List ℕ) (number : ℕ) → ¬ (tasks_at bytes ≡ Err (TaskFault.Task number CaseFault.Memory)) }
{}

/// Bytes are read as one task if and only if they are read as a case.
pub fn cases_are_read_as_one_task()
    ensures { CasesAreTasks }
{}

/// The numbers of each tamper of a case that is read are in the ranges of its keys: steps, addresses and values are words, a mask is a
/// byte, and a register is one of x1 to x31.
pub fn tampers_are_read_in_range()
    ensures { TampersAreRead }
{}

/// The input of each case that is read has at most 1,048,576 bytes, each below 256 (`case`), and so has that of each task (`tasks`).
pub fn inputs_are_read_in_range()
    ensures case { InputsAreRead }
    ensures tasks { InputsOfTasksAreRead }
{}
