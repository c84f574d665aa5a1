//! A state as far as a proof shows it. It answers to a step as a machine does, so the machine's own functions find what its step does and
//! what it calls for.
ghost use Rattle.std.specs.Prelude.{◌≡◌, ◌⊎◌, ◌+◌, ◌≤◌, ◌%◌};
ghost use Rattle.open_proof.specs.Facts as facts;
ghost use Rattle.open_proof.specs.SeenHeld as seen_held;
ghost use Rattle.rv_step.specs.Named.{AreRegisters};

use crate::facts::{CHUNK_BYTES, Facts, HeldInput, HeldRegisters};
use rd_base::{InOpening, InputScheme, Opening, RegOpening, Regs, Status};
use rv_step::{StateAccess, fetched, named_by, number_in_chunk};

/// A state as far as a proof shows it. It answers to a step as a machine does. A chunk that isn't shown is read as 0.
#[derive(Drop)]
pub struct ShownState<'a> {
    /// What the proof holds.
    pub facts: &'a Facts,
    /// The register file that the proof shows.
    pub regs: Regs,
}

/// The number of 1, 2 or 4 bytes at an address, in the opened chunk that holds them; 0 if no chunk is there.
fn number_shown(chunk: &Option<Opening>, addr: u32, width: u8) -> u32
    requires width { (width ≡ 1) ⊎ (width ≡ 2) ⊎ (width ≡ 4) }
    requires within { addr % 32 + width ≤ 32 }
    ensures { result ≡ seen_held.number_shown chunk.now addr width }
{
    match chunk {
        Some(opening) => number_in_chunk(&opening.chunk, (addr % CHUNK_BYTES) as usize, width),
        None => 0,
    }
}

/// How the input is held.
fn offering(tree: &Option<HeldInput>) -> InputScheme
    ensures { result ≡ seen_held.offering tree.now }
{
    match tree {
        Some(_tree) => InputScheme::Tree,
        None => InputScheme::InMemory,
    }
}

/// A byte of the opened chunk of the input, and 0 if none is there.
fn byte_in(input: &Option<InOpening>, k: u32) -> u32
    ensures { result ≡ seen_held.opened_byte input.now k }
{
    match input {
        Some(opening) => u32::from(opening.chunk[(k % CHUNK_BYTES) as usize]),
        None => 0,
    }
}

/// A byte of the input as far as it is shown, and all ones if the input has no such byte.
fn byte_shown(tree: &Option<HeldInput>, input: &Option<InOpening>, k: u32) -> u32
    ensures { result ≡ seen_held.byte_shown tree.now input.now k }
{
    match tree {
        Some(tree) => {
            if k < tree.len {
                byte_in(input, k)
            } else {
                u32::MAX
            }
        }
        None => u32::MAX,
    }
}

impl<'a> StateAccess for ShownState<'a> {
    ghost seen = { λ s. facts.seen_shown s.facts.now s.regs };

    fn status(&self) -> Status {
        self.facts.ctl.status
    }

    fn pc(&self) -> u32 {
        self.facts.ctl.pc
    }

    fn registers(&self) -> &Regs {
        &self.regs
    }

    fn input_scheme(&self) -> InputScheme {
        offering(&self.facts.input_tree)
    }

    fn fetch(&self, addr: u32) -> u32 {
        number_shown(&self.facts.fetch, addr, 4)
    }

    fn load(&self, addr: u32, width: u8) -> u32 {
        number_shown(&self.facts.operand, addr, width)
    }

    fn input_byte(&self, index: u32) -> u32 {
        byte_shown(&self.facts.input_tree, &self.facts.input, index)
    }
}

/// The register file in which these registers hold what is opened, and all others 0.
fn file_of(names: &[u8], opened: &[RegOpening]) -> Regs
    requires { AreRegisters names.now }
    ensures { result ≡ facts.file_of names.now (facts.values_of opened.now) }
{
    match names {
        [] => Regs::new(),
        [reg, more @ ..] => match opened {
            [] => Regs::new(),
            [opening, others @ ..] => {
                let mut file = file_of(more, others);
                file.set(*reg, opening.value);
                file
            }
        },
    }
}

/// The register file that is shown: all registers, or those that are opened, by their names, and 0 for all others.
fn file_shown(names: &[u8], regs: &HeldRegisters) -> Regs
    requires { AreRegisters names.now }
    ensures { result ≡ facts.file_shown names.now regs.now }
{
    match regs {
        HeldRegisters::Whole(regs) => *regs,
        HeldRegisters::Opened(_root, named) => file_of(names, named.as_slice()),
    }
}

/// The register file that a proof shows: all registers, or those that its instruction names. To find the instruction no register is read.
pub(crate) fn file_of_facts(proof: &Facts) -> Regs
    ensures { result ≡ facts.file_of_facts proof.now }
{
    let without = ShownState {
        facts: proof,
        regs: Regs::new(),
    };
    let names = named_by(&fetched(&without));
    file_shown(names.as_slice(), &proof.regs)
}
