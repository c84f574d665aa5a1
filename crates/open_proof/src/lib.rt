//! What a proof of one step is, how it is made, and the collisions of two of them, in every version of the commitment.
//!
//! - `facts`: what a proof holds, opens and leads to. The three versions have one set of definitions: `Facts` is made of any proof, and
//!   everything above speaks of it alone. A proof's conditions are a list in their order, each with the refusal that it is
//!   (`specs/Conditions.antt`); what it opens are ways up to the roots of trees (`specs/Openings.antt`), of which one walk of any number
//!   of levels serves memory, registers and input.
//! - `shown` and `called`: a state as far as a proof shows it answers to a step as a machine does (`ShownState`). So for which openings a
//!   step calls is asked once, of a proof and of a machine, by the machine's own `fetched` and `next_need`.
//! - `parts`: the root that a proof's parts make, where each digest is counted.
//! - `proving`: the two answers that are true of a state, its claim and the plain proof of its step, in the version of the state.
//! - `collision`: two different proofs that lead from one root open two different strings of one digest, which `step_collision` finds.
//!
//! The layers above may rely on this: the step on what is held of a state (`specs/Held.antt`) depends on the opened parts alone and is
//! the step of the machine (`shown_states_lead`); each proof that a program holds is in the ranges of its types (`proofs_are_in_range`);
//! `make_proof` gives the plain proof of a state, which leads from the root of the state to the root of the next (`plain_proofs_lead`);
//! what `step_collision` gives is a pair of different strings of one digest, the first opened by the first proof, the second by the
//! second (`proofs_from_one_root`), and of two that lead from one root it gives none if and only if they are equal. Only a claim takes
//! memory, for its output. Read `specs/Held.antt`, `specs/SeenHeld.antt`, `specs/Facts.antt`, `specs/Next.antt` and
//! `specs/Conditions.antt`, then `facts`, `shown`, `called`, `proving` and `specs/Collision.antt`.
#![tactic(auto)]

mod called;
mod collision;
mod facts;
mod parts;
mod proving;
mod shown;
mod ways;

pub use called::{Called, called_by};
pub use collision::{proofs_from_one_root, step_collision};
pub use facts::{
    Facts, HeldInput, HeldRegisters, facts_of, plain_proofs_hold_the_parts, plain_proofs_lead,
    plain_proofs_name_registers, proof_of, proofs_are_in_range, proofs_lead_to_the_next_state,
    shown_states_lead,
};
pub use parts::{root_before, storage_held};
pub use proving::{make_claim, make_proof};
pub use shown::ShownState;
pub use ways::{
    Way, changed_chunk, changed_register, climb, fetch_way, named_ways, operand_way, read_way,
    root_after, ways_climb,
};
