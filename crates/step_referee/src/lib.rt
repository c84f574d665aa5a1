//! The referee of one step, and the judge that the game calls to decide about claims and proofs, in every version of the commitment.
//!
//! - `check`: whether a proof of one step leads from a root, and to which. `check_step` answers exactly when a proof leads (`open_proof`,
//!   `LeadsFrom`), and if it leads nowhere, which of its conditions fails first; the counter ticks at most 91, 101 or 103 times, by the
//!   version, and exactly as often as `specs/Ticks.antt` defines: for the digests of the conditions up to the first that fails, and, if a
//!   proof leads, for its step too. The functions that check get a `Counted` and no digester, so that by type they make no digest of the
//!   function that is handed in without a counter; `check_step` hands its digester in by one line, and none is named beside, as one reads.
//!   The step is the machine's own, run on the opened parts (`open_proof::ShownState`): `check/carrying` calls `rv_step::next_effect` and
//!   `rv_step::apply`, of which the machine's `step` is made, so no instruction is fetched, decoded or computed by a second function. Of
//!   the four specified parts of a step, `need`, `finish`, `step` and `touches`, the referee calls none.
//! - `judge`: `MachineJudge` decides by `specs/MachineRuling.antt`, which keeps the laws of a judge; a proof leads by it if and only if its
//!   conditions hold (`judged_leading_is_exact`); and a run of the machine is a true run for it (`machine_runs_are_true`).
//!
//! No call takes memory. Read `check` first, then `specs/MachineRuling.antt`, `specs/MachineTruth.antt` and `judge`.
#![tactic(auto)]

mod check;
mod judge;
mod laws;

pub use check::{StepCheck, check_step, leading_is_decided};
pub use judge::{MachineJudge, MachineNames};
pub use laws::{judged_leading_is_exact, machine_runs_are_true};
