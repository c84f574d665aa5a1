//! The state string and the root that a proof's parts make. Each digest is counted.
ghost use Rattle.std.specs.Prelude.{◌≡◌, ◌+◌};
ghost use Rattle.open_proof.specs.Next as next;
ghost use Rattle.open_proof.specs.Next.{registers_digests, storage_digests};

use crate::facts::{Facts, HeldInput, HeldRegisters};
use digest_core::{Counted, control_text, registers_text, state_text, storage_text};
use rd_base::{Digest32, OpenText, Steps};
use std::sync::ledger::Ledger;

/// The digest of what is stored: the root of memory, or the digest of the storage string.
pub fn storage_held<C: Counted, L: Ledger>(
    c: C,
    tree: &Option<HeldInput>,
    mem: &Digest32,
    steps: &mut Steps<L>,
) -> Digest32
    ensures digest { result.0 ≡ next.storage_held C.digest_of tree.now mem.now.0 }
    ensures steps { steps.new ≡ steps.old + storage_digests tree.now }
{
    match tree {
        Some(tree) => c.digest(&storage_text(mem, tree.len, &tree.root), steps),
        None => *mem,
    }
}

/// The digest of the registers: that of their string, or the root that is held.
fn registers_held<C: Counted, L: Ledger>(
    c: C,
    regs: &HeldRegisters,
    steps: &mut Steps<L>,
) -> Digest32
    ensures digest { result.0 ≡ next.registers_held C.digest_of regs.now }
    ensures steps { steps.new ≡ steps.old + registers_digests regs.now }
{
    match regs {
        HeldRegisters::Whole(regs) => c.digest(&registers_text(regs), steps),
        HeldRegisters::Opened(root, _named) => *root,
    }
}

/// The state string that a proof's parts make.
pub(crate) fn text_before<C: Counted, L: Ledger>(
    c: C,
    facts: &Facts,
    steps: &mut Steps<L>,
) -> OpenText
    ensures text { result ≡ next.text_before C.digest_of facts.now }
    ensures steps { steps.new ≡ steps.old + registers_digests facts.now.regs + storage_digests facts.now.input_tree + 1 }
{
    let regs = registers_held(c, &facts.regs, steps);
    let storage = storage_held(c, &facts.input_tree, &facts.mem, steps);
    let control = c.digest(&control_text(&facts.ctl), steps);
    state_text(&storage, &regs, &control)
}

/// The root that a proof's parts make.
pub fn root_before<C: Counted, L: Ledger>(c: C, facts: &Facts, steps: &mut Steps<L>) -> Digest32
    ensures digest { result.0 ≡ next.root_before C.digest_of facts.now }
    ensures steps { steps.new ≡ steps.old + registers_digests facts.now.regs + storage_digests facts.now.input_tree + 2 }
{
    c.digest(&text_before(c, facts, steps), steps)
}
