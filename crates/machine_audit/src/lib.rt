//! What follows from a confirmed full text for a run of the machine.
//!
//! The layers above may rely on this: for every case with the stated root at step 0, and with the numbers of the text's head, in which one
//! prover's lines are all given and true, a text that is confirmed before the judge of the machine states the status and the output of the
//! run, or two different strings of one digest that answers of the text open. The law states it for any digester, and for the bytes that
//! were read, in each version of the commitment that a head may name. And what is written of a case that this judge decides is read and
//! confirmed, if the head's numbers are within the limits and the answers have wire forms: whatever collision it calls, a text can state
//! its two strings. Read `specs/MachineAudit.antt` and `specs/WrittenCases.antt`.
#![tactic(auto)]

mod laws;

pub use laws::{
    collisions_of_the_machine_have_strings, confirmed_cases_are_right, written_cases_are_confirmed,
};
