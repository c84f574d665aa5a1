//! What a proof of one step holds, whatever the version of the commitment that it is made for.
ghost use Rattle.std.specs.Prelude.{◌≡◌};
ghost use Rattle.open_proof.specs.Facts as facts;

mod laws;
mod ranges;

pub use laws::{
    plain_proofs_hold_the_parts, plain_proofs_lead, plain_proofs_name_registers,
    proofs_lead_to_the_next_state, shown_states_lead,
};
pub use ranges::proofs_are_in_range;
use rd_base::{
    Ctl, Digest32, InOpening, Opening, Proof, RegOpenings, Regs, StepProof, StepProof2, StepProof3,
};

/// How many bytes a chunk has, of memory or of the input.
pub(crate) const CHUNK_BYTES: u32 = 32;

/// How a proof holds the registers.
#[derive(Debug, Drop)]
pub enum HeldRegisters {
    /// All of them.
    Whole(Regs),
    /// The root of their tree, and those that are opened, in their order.
    Opened(Digest32, RegOpenings),
}

/// What a proof holds of the input, in a version that has the input as a tree.
#[derive(Clone, Copy, Debug)]
pub struct HeldInput {
    /// How many bytes the input has.
    pub len: u32,
    /// The root of its tree.
    pub root: Digest32,
}

/// What a proof of one step holds.
#[derive(Debug, Drop)]
pub struct Facts {
    /// The version of the commitment that the proof is made for.
    pub version: u32,
    /// The root of memory.
    pub mem: Digest32,
    /// The length and the root of the input, if the version has the input as a tree.
    pub input_tree: Option<HeldInput>,
    /// The registers.
    pub regs: HeldRegisters,
    /// The control fields.
    pub ctl: Ctl,
    /// The chunk that holds the word at `pc`.
    pub fetch: Option<Opening>,
    /// The chunk that the instruction loads from or stores to.
    pub operand: Option<Opening>,
    /// The chunk of the input that the instruction reads a byte of.
    pub input: Option<InOpening>,
}

/// What a proof holds. It takes no memory.
pub fn facts_of(proof: &Proof) -> Facts
    ensures { result ≡ facts.facts_of proof.now }
{
    match proof {
        Proof::V1(p) => Facts {
            version: 1,
            mem: p.mem,
            input_tree: None,
            regs: HeldRegisters::Whole(p.regs),
            ctl: p.ctl,
            fetch: p.fetch,
            operand: p.operand,
            input: None,
        },
        Proof::V2(p) => Facts {
            version: 2,
            mem: p.mem,
            input_tree: None,
            regs: HeldRegisters::Opened(p.regs, p.named.copy()),
            ctl: p.ctl,
            fetch: p.fetch,
            operand: p.operand,
            input: None,
        },
        Proof::V3(p) => Facts {
            version: 3,
            mem: p.mem,
            input_tree: Some(HeldInput {
                len: p.input_len,
                root: p.input_root,
            }),
            regs: HeldRegisters::Opened(p.regs, p.named.copy()),
            ctl: p.ctl,
            fetch: p.fetch,
            operand: p.operand,
            input: p.input,
        },
    }
}

/// The proof that holds this: by what it holds of registers and input it is of one version. It takes no memory.
pub fn proof_of(held: Facts) -> Proof
    ensures { result ≡ facts.proof_of held }
{
    let Facts {
        version: _,
        mem,
        input_tree,
        regs,
        ctl,
        fetch,
        operand,
        input,
    } = held;
    match regs {
        HeldRegisters::Whole(regs) => Proof::V1(StepProof {
            mem,
            regs,
            ctl,
            fetch,
            operand,
        }),
        HeldRegisters::Opened(regs, named) => match input_tree {
            None => Proof::V2(StepProof2 {
                mem,
                regs,
                ctl,
                fetch,
                named,
                operand,
            }),
            Some(tree) => Proof::V3(StepProof3 {
                mem,
                input_len: tree.len,
                input_root: tree.root,
                regs,
                ctl,
                fetch,
                named,
                operand,
                input,
            }),
        },
    }
}
