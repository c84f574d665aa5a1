//! Deposits: each prover of a match puts down a stake, and a prover that is out loses exactly its own.
//!
//! It knows no machine and no hash, only the record of a match. The layers above may rely on this: `balances` is the
//! closed form of `specs/Balances.antt`, by which the other side of a dispute wins a loser's stake, and `burned` that of
//! `specs/Burning.antt`, by which nobody does. A `Ledger` moves stakes one event at a time (`specs/Accounts.antt`), never below 0
//! and in any order (`laws`). Read `settling` first, then `ledger`. An `Err` that no comment names is out of memory.
#![tactic(auto)]

mod amounts;
mod laws;
mod ledger;
mod settling;

pub use amounts::Balances;
pub use laws::{
    a_match_that_has_ended_is_settled_up, balances_and_pool_add_up, balances_are_in_closed_form,
    burned_stakes_add_up, each_event_adds_its_own_amounts, events_come_in_any_order,
    stages_burn_stakes, stalls_are_free, the_first_is_paid_for_stages,
    truthful_provers_keep_their_stakes, who_lives_wins_all,
};
pub use ledger::Ledger;
pub use settling::{balances, burned};
