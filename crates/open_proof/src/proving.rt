//! The two answers that are true of a state, its claim and the plain proof of its step, and the openings of that proof.
ghost use Rattle.std.specs.Prelude.{◌≡◌, ◌+◌, ◌<◌, ◌≤◌, ◌++◌, map, length, IfOk, IfSome};
ghost use Rattle.rd_base.specs.Scheme.{scheme_of};
ghost use Rattle.rd_base.specs.declared.digest.Digest32.{Digest32};
ghost use Rattle.rd_base.specs.declared.scheme.InputScheme.TheVariants as InputScheme;
ghost use Rattle.rd_base.specs.declared.scheme.RegisterScheme.TheVariants as RegisterScheme;
ghost use Rattle.rv_step.specs.Step.{step};
ghost use Rattle.rv_step.specs.Alike.{named_at};
ghost use Rattle.rv_step.specs.Named.{AreRegisters};
ghost use Rattle.state_commit.specs.StateRoot.{ctl_of, root_in};
ghost use Rattle.open_proof.specs.Conditions.{LeadsFrom};
ghost use Rattle.open_proof.specs.Facts.{facts_of};
ghost use Rattle.open_proof.specs.PlainProof as plain;
ghost use Rattle.open_proof.specs.PlainClaim.{plain_claim};
ghost use Rattle.open_proof.specs.OpenedChunk as openings;
ghost use Rattle.open_proof.specs.Shown as shown;

use crate::called::{Called, called_of};
use crate::facts::{CHUNK_BYTES, Facts, HeldInput, HeldRegisters, plain_proofs_lead, proof_of};
use digest_core::Digester;
use mem_tree::input_chunk;
use rd_base::{
    Claim, ClaimOutput, Ctl, Digest32, InOpening, InputScheme, Memory, Opening, Proof, RegOpening,
    RegOpenings, RegisterScheme, Scheme, paths_have_5_levels, paths_have_15_levels,
    paths_have_27_levels,
};
use rv_step::machines_are_valid;
use state_commit::Committed;
use std::alloc::Global;

/// The control fields of a machine's state.
fn ctl_of<D: Digester>(committed: &Committed<D>) -> Ctl
    ensures { result ≡ ctl_of D.digest_of committed.now }
{
    let machine = committed.machine();
    let _out_len = machine.ctl.out_len;
    machine.ctl
}

/// The claim that is true of a machine's state, in its version. The output is at most 4,294,967,295 bytes long. An `Err` is out of
/// memory.
pub fn make_claim<D: Digester>(alloc: Global, committed: &Committed<D>) -> Result<Claim, Memory>
    requires { length committed.now.output ≤ 4294967295 }
    ensures { IfOk result (λ c. c ≡ plain_claim D.digest_of committed.now) }
{
    let output = committed.machine().output.as_slice().to_vec(alloc)?;
    Ok(Claim {
        mem: committed.storage_digest(),
        regs: committed.registers_digest(),
        ctl: ctl_of(committed),
        output: ClaimOutput::new(output).unwrap(),
    })
}

/// The registers as a machine's version holds them, with those opened that are named.
fn registers_opened<D: Digester>(committed: &Committed<D>, names: &[u8]) -> HeldRegisters
    requires registers { AreRegisters names.now }
    requires few { length names.now ≤ 3 }
    ensures { result ≡ plain.registers_opened D.digest_of (scheme_of committed.now.version).registers committed.now.regs names.now }
{
    let machine = committed.machine();
    match Scheme::of(machine.version).registers {
        RegisterScheme::Whole => HeldRegisters::Whole(machine.regs),
        RegisterScheme::Tree => HeldRegisters::Opened(
            committed.registers_digest(),
            named_openings(committed, names),
        ),
    }
}

/// A state's parts as its version has them, with the openings that they call for.
fn plain_facts<D: Digester>(committed: &Committed<D>) -> Facts
    ensures { result ≡ plain.plain_facts D.digest_of committed.now }
{
    let called = called_by_state(committed);
    Facts {
        version: committed.machine().version,
        mem: committed.memory().root(),
        input_tree: tree_of(committed),
        regs: registers_opened(committed, called.names.as_slice()),
        ctl: ctl_of(committed),
        fetch: opening_at(committed, called.fetch),
        operand: opening_at(committed, called.operand),
        input: input_opening_at(committed, called.input),
    }
}

/// The plain proof of the step from a machine's state, in the state's version: the state's parts; the chunk that holds the word at
/// `pc` if the machine is running and `pc` is a multiple of 4; from version 2 on the registers that the instruction names, in
/// their order; the chunk of its data if it is an aligned load or store; and in version 3 the chunk of the input's byte that it
/// reads. It leads from the root of this state to the root of the next. It takes no memory.
#[tactic(auto, unfolding(crate::specs::PlainProof::plain_proof))]
pub fn make_proof<D: Digester>(committed: &Committed<D>) -> Proof
    ensures plain { result ≡ plain.plain_proof D.digest_of committed.now }
    ensures leads { (a b : Digest32) → a.0 ≡ root_in D.digest_of committed.now.version committed.now →
        b.0 ≡ root_in D.digest_of committed.now.version (step committed.now) →
        LeadsFrom D.digest_of committed.now.version a (facts_of result) b }
{
    plain_proofs_lead();
    let machine = committed.machine();
    machines_are_valid(machine);
    proof_of(plain_facts(committed))
}

/// What a state has of the input as a tree.
fn tree_of<D: Digester>(committed: &Committed<D>) -> Option<HeldInput>
    ensures value { result ≡ shown.tree_of_state D.digest_of committed.now }
    ensures short { IfSome result (λ t. t.len ≤ 1048576) }
{
    let machine = committed.machine();
    match Scheme::of(machine.version).input {
        InputScheme::Tree => Some(HeldInput {
            len: machine.input.len() as u32,
            root: committed.input().root(),
        }),
        InputScheme::InMemory => None,
    }
}

/// For which openings a machine's state calls.
fn called_by_state<D: Digester>(committed: &Committed<D>) -> Called
    ensures fetch { result.fetch ≡ openings.fetch_of_state committed.now }
    ensures names { result.names ≡ named_at committed.now }
    ensures registers { AreRegisters result.names }
    ensures operand { result.operand ≡ shown.operand_of_state committed.now }
    ensures input { result.input ≡ shown.input_of_state D.digest_of committed.now }
    ensures inside { IfSome result.input (λ k. k < 1048576) }
    ensures offered { IfSome result.input (λ _. (scheme_of committed.now.version).input ≡ InputScheme.Tree) }
{
    called_of(committed.machine(), &tree_of(committed))
}

/// The chunk of memory that holds an address, with its path.
fn opening_of<D: Digester>(committed: &Committed<D>, addr: u32) -> Opening
    ensures { result ≡ openings.opening_of D.digest_of committed.now.memory addr }
{
    let index = addr / CHUNK_BYTES;
    let chunk = committed.machine().mem.chunk(index);
    let path = committed.memory().path(index);
    paths_have_27_levels(&path);
    Opening { chunk, path }
}

/// The chunk of memory that holds an address, with its path, if one is called for.
fn opening_at<D: Digester>(committed: &Committed<D>, address: Option<u32>) -> Option<Opening>
    ensures { result ≡ openings.opening_at D.digest_of committed.now.memory address }
{
    match address {
        Some(addr) => Some(opening_of(committed, addr)),
        None => None,
    }
}

/// A register, with its path.
fn register_opening<D: Digester>(committed: &Committed<D>, reg: u8) -> RegOpening
    requires reg { reg < 32 }
    requires version { (scheme_of committed.now.version).registers ≡ RegisterScheme.Tree }
    ensures { result ≡ plain.opened_register D.digest_of committed.now.regs reg }
{
    let value = committed.machine().regs.get(reg);
    let path = committed.register_path(reg);
    paths_have_5_levels(&path);
    RegOpening { value, path }
}

/// Puts registers behind others, with their paths: at most three altogether.
fn put_openings<D: Digester>(committed: &Committed<D>, names: &[u8], opened: &mut RegOpenings)
    requires registers { AreRegisters names.now }
    requires version { (scheme_of committed.now.version).registers ≡ RegisterScheme.Tree }
    requires few { length opened.old + length names.now ≤ 3 }
    ensures { opened.new ≡ opened.old ++ map (plain.opened_register D.digest_of committed.now.regs) names.now }
{
    match names {
        [] => {}
        [reg, more @ ..] => {
            opened.push(register_opening(committed, *reg));
            put_openings(committed, more, opened);
        }
    }
}

/// The registers of these numbers, with their paths.
fn named_openings<D: Digester>(committed: &Committed<D>, names: &[u8]) -> RegOpenings
    requires registers { AreRegisters names.now }
    requires version { (scheme_of committed.now.version).registers ≡ RegisterScheme.Tree }
    requires few { length names.now ≤ 3 }
    ensures { result ≡ map (plain.opened_register D.digest_of committed.now.regs) names.now }
{
    let mut opened = RegOpenings::new();
    put_openings(committed, names, &mut opened);
    opened
}

/// The chunk of the input that holds a byte, with its path.
fn input_opening_of<D: Digester>(committed: &Committed<D>, byte: u32) -> InOpening
    requires byte { byte < 1048576 }
    requires version { (scheme_of committed.now.version).input ≡ InputScheme.Tree }
    ensures { result ≡ plain.input_opening_of D.digest_of committed.now.input byte }
{
    let index = byte / CHUNK_BYTES;
    let chunk = input_chunk(&committed.machine().input, index as usize);
    let path = committed.input().path(index);
    paths_have_15_levels(&path);
    InOpening { chunk, path }
}

/// The chunk of the input that holds a byte, with its path, if one is called for.
fn input_opening_at<D: Digester>(committed: &Committed<D>, byte: Option<u32>) -> Option<InOpening>
    requires byte { IfSome byte (λ k. k < 1048576) }
    requires version { IfSome byte (λ _. (scheme_of committed.now.version).input ≡ InputScheme.Tree) }
    ensures { result ≡ plain.input_opening_at D.digest_of committed.now.input byte }
{
    match byte {
        Some(k) => Some(input_opening_of(committed, k)),
        None => None,
    }
}
