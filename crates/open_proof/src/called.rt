//! For which openings a state calls, whoever holds it: a machine, or a proof as far as it shows a state.
ghost use Rattle.std.specs.Prelude.{◌≡◌};
ghost use Rattle.open_proof.specs.Called as chunks;
ghost use Rattle.open_proof.specs.Facts as facts;
ghost use Rattle.rv_step.specs.Fetching.{fetch_address as fetch_of};
ghost use Rattle.rv_step.specs.Named.{AreRegisters, named_by as names_of};
ghost use Rattle.rv_step.specs.NextEffect as next;
ghost use Rattle.rv_step.specs.NextNeed.{next_need as need_of};

use crate::facts::{Facts, HeldInput};
use crate::shown::{ShownState, file_of_facts};
use rd_base::Regs;
use rv_step::{Names, Need, StateAccess, fetch_address, fetched, named_by, next_need};

/// For which openings a state calls, and the registers by which it does.
#[derive(Debug, Drop)]
pub struct Called {
    /// The address of the word that it fetches.
    pub fetch: Option<u32>,
    /// The registers that its instruction names.
    pub names: Names,
    /// The register file: that of the state, or that which a proof shows.
    pub file: Regs,
    /// The address of the instruction's data.
    pub operand: Option<u32>,
    /// The number of the input's byte that the instruction reads.
    pub input: Option<u32>,
}

/// The address of the data that is needed.
fn address_needed(need: Need) -> Option<u32>
    ensures { result ≡ chunks.address_needed need }
{
    match need {
        Need::Nothing => None,
        Need::Load { addr, .. } => Some(addr),
        Need::Store { addr, .. } => Some(addr),
        Need::Input { .. } => None,
        Need::Trap(_code) => None,
    }
}

/// The number of the input's byte that is needed, if the input has it.
fn byte_needed(tree: &Option<HeldInput>, need: Need) -> Option<u32>
    ensures { result ≡ facts.byte_needed tree.now need }
{
    match tree {
        Some(tree) => match need {
            Need::Nothing => None,
            Need::Load { .. } => None,
            Need::Store { .. } => None,
            Need::Input { index } => { if index < tree.len { Some(index) } else { None } }
            Need::Trap(_code) => None,
        },
        None => None,
    }
}

/// For which openings a state calls, whoever holds it. `tree` is what is held of the input, if its version has the input as a tree.
pub(crate) fn called_of<A: StateAccess>(state: &A, tree: &Option<HeldInput>) -> Called
    ensures fetch { result.fetch ≡ next.address_fetched (A.seen state.now).status (A.seen state.now).pc }
    ensures names { result.names ≡ names_of (next.fetched (A.seen state.now)) }
    ensures registers { AreRegisters result.names }
    ensures file { result.file ≡ (A.seen state.now).regs }
    ensures operand { result.operand ≡ chunks.address_needed (need_of (A.seen state.now)) }
    ensures input { result.input ≡ facts.byte_needed tree.now (need_of (A.seen state.now)) }
{
    let needed = next_need(state);
    Called {
        fetch: fetch_address(state),
        names: named_by(&fetched(state)),
        file: *state.registers(),
        operand: address_needed(needed),
        input: byte_needed(tree, needed),
    }
}

/// For which openings a proof's parts call, by the chunk that it fetches and the registers that it shows.
pub fn called_by(proof: &Facts) -> Called
    ensures fetch { result.fetch ≡ fetch_of proof.now.ctl }
    ensures names { result.names ≡ facts.named_called proof.now }
    ensures registers { AreRegisters result.names }
    ensures file { result.file ≡ facts.file_of_facts proof.now }
    ensures operand { result.operand ≡ facts.operand_called proof.now }
    ensures input { result.input ≡ facts.input_called proof.now }
{
    let state = ShownState {
        facts: proof,
        regs: file_of_facts(proof),
    };
    called_of(&state, &proof.input_tree)
}
