//! What the fields of a proof are by their types.
ghost use Rattle.std.specs.Prelude.{◌≡◌, true, length};
ghost use Rattle.open_proof.specs.InRange.{are_digests, are_openings_in_range, are_words, is_ctl_in_range, is_in_range, is_input_in_range, is_opening_in_range};

use digest_core::{codes_fit, digests_are_32_bytes};
use rd_base::{Ctl, Digest32, InOpening, Opening, Proof, RegOpening, Regs, registers_are_32};

/// Control fields are in the ranges of their types.
fn ctls_are_in_range(ctl: &Ctl)
    ensures { is_ctl_in_range ctl.now ≡ true }
{
    codes_fit(ctl.status);
    digests_are_32_bytes(&ctl.chain);
    let _pc = ctl.pc;
    let _out_len = ctl.out_len;
}

/// Registers hold words.
#[tactic(auto, using(crate::specs::RangeLaws::words_are))]
fn files_are_in_range(regs: &Regs)
    ensures count { length regs.now ≡ 32 }
    ensures words { are_words regs.now ≡ true }
{
    registers_are_32(regs);
}

/// Digests have 32 bytes.
fn digests_are_in_range(digests: &[Digest32])
    ensures { are_digests digests.now ≡ true }
{
    'digests: for i in 0..digests.len() {
        digests_are_32_bytes(&digests[i]);
    }
}

/// An opened chunk has 32 bytes, and its path 27 digests.
fn openings_are_in_range(opening: &Option<Opening>)
    ensures { is_opening_in_range opening.now ≡ true }
{
    match opening {
        Some(o) => {
            let _first = o.chunk[0];
            let _sibling = o.path.0[0];
            digests_are_in_range(&o.path.0);
        }
        None => {}
    }
}

/// An opened chunk of the input has 32 bytes, and its path 15 digests.
fn inputs_are_in_range(opening: &Option<InOpening>)
    ensures { is_input_in_range opening.now ≡ true }
{
    match opening {
        Some(o) => {
            let _first = o.chunk[0];
            let _sibling = o.path.0[0];
            digests_are_in_range(&o.path.0);
        }
        None => {}
    }
}

/// An opened register holds a word, and its path has 5 digests.
fn each_is_in_range(openings: &[RegOpening])
    ensures { are_openings_in_range openings.now ≡ true }
{
    match openings {
        [] => {}
        [o, others @ ..] => {
            let _value = o.value;
            let _sibling = o.path.0[0];
            digests_are_in_range(&o.path.0);
            each_is_in_range(others);
        }
    }
}

/// Each proof that a program holds is in the ranges of its types.
#[tactic(auto, unfolding(crate::specs::InRange::are_facts_in_range))]
pub fn proofs_are_in_range(proof: &Proof)
    ensures { is_in_range proof.now ≡ true }
{
    match proof {
        Proof::V1(p) => {
            digests_are_32_bytes(&p.mem);
            files_are_in_range(&p.regs);
            ctls_are_in_range(&p.ctl);
            openings_are_in_range(&p.fetch);
            openings_are_in_range(&p.operand);
        }
        Proof::V2(p) => {
            digests_are_32_bytes(&p.mem);
            digests_are_32_bytes(&p.regs);
            each_is_in_range(p.named.as_slice());
            ctls_are_in_range(&p.ctl);
            openings_are_in_range(&p.fetch);
            openings_are_in_range(&p.operand);
        }
        Proof::V3(p) => {
            let _len = p.input_len;
            digests_are_32_bytes(&p.mem);
            digests_are_32_bytes(&p.input_root);
            digests_are_32_bytes(&p.regs);
            each_is_in_range(p.named.as_slice());
            ctls_are_in_range(&p.ctl);
            openings_are_in_range(&p.fetch);
            openings_are_in_range(&p.operand);
            inputs_are_in_range(&p.input);
        }
    }
}
