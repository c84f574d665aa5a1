//! The root of a machine's state, which commits to registers, control fields, output, memory and input.
//!
//! There are three versions of the commitment, and a state has one (`specs/StateRoot.antt`). The layers above may rely on this:
//! `state_root` is the definition's root of a machine's state, computed from scratch and without memory; a `Committed` is a machine that is
//! kept with the trees that its version has, so that after each step its roots and its paths are those of the definition. Only the page
//! that the step stored to and the register that it changed are digested anew, as the code of `committed` shows. `specs/Strings.antt`
//! defines the strings of a state; two valid states of one version with one root and outputs below 2^64 bytes are the same, in versions 1
//! and 2 but for the input, which lies in memory, or two different strings of them have one digest (`a_root_binds`). A `KeptRegisters`
//! serves a caller that asks for the roots of many states. A `SharedInput`, the tree of an input, serves all callers that ask for states of
//! machines with this input. Read `specs/StateRoot.antt` first, then `root` and `committed`. An `Err` that no comment names is out of
//! memory.
#![tactic(auto)]

mod committed;
mod kept_registers;
mod laws;
mod root;
mod shared_input;

pub use committed::Committed;
pub use kept_registers::KeptRegisters;
pub use laws::a_root_binds;
pub use root::{Parts, registers_digest, root_of_parts, state_root, state_root_with};
pub use shared_input::{SharedInput, one_input_has_one_tree};
