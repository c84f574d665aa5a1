//! Proofs of one step.
ghost use Rattle.std.specs.Prelude.{◌≡◌};

use crate::digest::Digest32;
use crate::opened::{InOpening, Opening, RegOpenings};
use crate::regs::Regs;
use crate::status::Ctl;

/// What a prover opens of one state in commitment version 1, in which the registers are digested as one string, so that
/// one step can be made from it.
#[derive(Clone, Copy, Debug)]
pub struct StepProof {
    /// The digest of memory.
    pub mem: Digest32,
    /// The registers.
    pub regs: Regs,
    /// The control fields.
    pub ctl: Ctl,
    /// The chunk that holds the word at `pc`.
    pub fetch: Option<Opening>,
    /// The chunk that the instruction loads from or stores to.
    pub operand: Option<Opening>,
}

/// What a prover opens of one state in commitment version 2, in which the registers are a tree: of the registers only
/// those that the instruction names.
#[derive(Debug, Drop)]
pub struct StepProof2 {
    /// The digest of memory.
    pub mem: Digest32,
    /// The root of the registers' tree.
    pub regs: Digest32,
    /// The control fields.
    pub ctl: Ctl,
    /// The chunk that holds the word at `pc`.
    pub fetch: Option<Opening>,
    /// The registers that the instruction names, in their order.
    pub named: RegOpenings,
    /// The chunk that the instruction loads from or stores to.
    pub operand: Option<Opening>,
}

/// What a prover opens of one state in commitment version 3, in which the input is a tree of its own, too.
#[derive(Debug, Drop)]
pub struct StepProof3 {
    /// The root of memory's tree.
    pub mem: Digest32,
    /// How many bytes the input has.
    pub input_len: u32,
    /// The root of the input's tree.
    pub input_root: Digest32,
    /// The root of the registers' tree.
    pub regs: Digest32,
    /// The control fields.
    pub ctl: Ctl,
    /// The chunk that holds the word at `pc`.
    pub fetch: Option<Opening>,
    /// The registers that the instruction names, in their order.
    pub named: RegOpenings,
    /// The chunk that the instruction loads from or stores to.
    pub operand: Option<Opening>,
    /// The chunk of the input that the instruction reads a byte of.
    pub input: Option<InOpening>,
}

/// The proof of one step, in the commitment version that it is made for.
#[derive(Debug, Drop)]
pub enum Proof {
    /// Of version 1: it shows all registers.
    V1(StepProof),
    /// Of version 2: it opens the registers that the instruction names.
    V2(StepProof2),
    /// Of version 3: it opens those registers, and a chunk of the input if a byte of it is read.
    V3(StepProof3),
}

impl StepProof2 {
    /// A copy of the proof. It takes no memory.
    pub fn copy(&self) -> StepProof2
        ensures { result ≡ self.now }
    {
        StepProof2 {
            mem: self.mem,
            regs: self.regs,
            ctl: self.ctl,
            fetch: self.fetch,
            named: self.named.copy(),
            operand: self.operand,
        }
    }
}

impl StepProof3 {
    /// A copy of the proof. It takes no memory.
    pub fn copy(&self) -> StepProof3
        ensures { result ≡ self.now }
    {
        StepProof3 {
            mem: self.mem,
            input_len: self.input_len,
            input_root: self.input_root,
            regs: self.regs,
            ctl: self.ctl,
            fetch: self.fetch,
            named: self.named.copy(),
            operand: self.operand,
            input: self.input,
        }
    }
}

impl Proof {
    /// A copy of the proof. It takes no memory.
    pub fn copy(&self) -> Proof
        ensures { result ≡ self.now }
    {
        match self {
            Proof::V1(proof) => Proof::V1(*proof),
            Proof::V2(proof) => Proof::V2(proof.copy()),
            Proof::V3(proof) => Proof::V3(proof.copy()),
        }
    }
}
