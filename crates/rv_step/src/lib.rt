//! The machine: RV32IM and its three environment calls, one step at a time (RISC-V Unprivileged ISA 20191213, chapters
//! 2 and 7).
//!
//! The layers above may rely on this: `step` is the definition of the step, and returns the page that it stored to; `advance` makes as
//! many of them as are asked, or fewer if it runs out of memory. Both keep the output's chain by the digester that is handed to them, and
//! `Machine::new` begins it for every digester. `touches` gives the page that the next step stores to.
//!
//! `next_effect` is the one function that fetches, decodes and computes: it finds what the next step of a state does, and changes
//! nothing. It sees the state through the trait `StateAccess`, so whoever holds a state has its step by this very function: a machine
//! its memory and its input, a referee the opened parts of a proof. `apply` is the other half that they share: it changes registers, pc
//! and status by an effect. What is left to each of them is a store and a byte of output.
//!
//! `need` and `finish` are the same step, cut in another place. `need` finds, from registers only, the one number of memory that an
//! instruction reads or writes, or the byte of the input that it reads. `finish` changes registers and pc, and returns what is left to do.
//! Both together are the step, whoever holds memory and the input (`two_parts_are_the_step`), and nothing else is read
//! (`needs_tell_what_is_read`). `need_by` is `need` by how the input is held.
//!
//! The program runs `step`, and in it `next_effect`, `need_by` and `apply`. `need` and `finish`, which it doesn't call, are there for a
//! caller who fetches the needed number between the two, and `touches` for one who asks for the page before the step.
//!
//! What a step calls for is asked over the same access. `fetched` gives the instruction that it fetches, and is the first thing that
//! `next_effect` asks; `next_need` gives what that instruction needs of memory or of the input. `fetch_address` gives the address of the
//! word at `pc`, and `named_by` the registers that an instruction names. So these functions say what a proof of a step has to open.
//!
//! A machine has a version, that of the commitment to its states. In versions 1 and 2 its input lies in memory; in version 3
//! it is offered to a call, byte by byte.
//!
//! The other laws are in `laws`: that a step reads only the registers that its instruction names and changes at most one of
//! them, which bytes a step leaves, that a stopped state stays and output only grows, that a run keeps version and input and
//! puts out at most one byte a step, and that each machine's state is valid and steps keep it so. `arithmetic_laws` has the
//! manual's sentences on arithmetic, of all words: sums, products, divisions, shifts, extensions, and that what was stored is loaded.
//!
//! Read `specs/Effect.antt` first, which defines what each instruction does, `specs/NextEffect.antt`, which says what a step sees of a
//! state and which effect it has, and `specs/Step.antt`, which makes a step of that. Then read `stepping`.
#![tactic(auto)]

mod access;
mod arithmetic;
mod arithmetic_laws;
mod asked;
mod effect;
mod fetching;
mod laws;
mod machine;
mod naming;
mod parts;
mod stepping;
mod touching;

pub use access::StateAccess;
pub use arithmetic_laws::{
    dividends_come_back, extensions_keep_bits, products_have_two_words, shifts_move_bits,
    stores_are_loaded, sums_are_of_values, words_are_their_bits,
};
pub use asked::{Need, Outcome};
pub use effect::{Effect, ILLEGAL_INSTRUCTION, MISALIGNED_JUMP};
pub use fetching::{fetch_address, fetched, next_need, number_in_chunk};
pub use laws::{
    effects_read_named_registers, machines_are_valid, names_are_registers, needs_tell_what_is_read,
    one_page_changes, output_only_grows, runs_go_on, runs_keep_the_input, steps_keep_valid_states,
    steps_read_named_registers, stopped_states_stay, two_parts_are_the_step,
};
pub use machine::{INPUT_BASE, Machine};
pub use naming::{Names, named_by};
pub use parts::{finish, need, need_by};
pub use stepping::{advance, apply, next_effect, step};
pub use touching::touches;
