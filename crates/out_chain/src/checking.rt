//! The state string and the root of a state from its parts, the root that a claim names, the chain of an output, and whether a claim
//! agrees with itself.
ghost use Rattle.std.specs.Prelude.{◌≡◌, true};
ghost use Rattle.digest_core.specs.Chain as chain;
ghost use Rattle.out_chain.specs.Soundness.{claim_check, says_sound, is_claim_in_range, is_sound};
ghost use Rattle.out_chain.specs.Root as root;

use digest_core::{
    Digester, chain_grows, codes_fit, control_text, digests_are_32_bytes, link, state_text,
};
use rd_base::{Claim, Ctl, Digest32, OpenText, same_digest};

/// The state string of the state with these digests of memory and registers, and these control fields: its digest is the state's root.
pub fn parts_text<D: Digester>(d: D, mem: Digest32, regs: Digest32, ctl: &Ctl) -> OpenText
    ensures { result ≡ root.parts_text D.digest_of mem.0 regs.0 ctl.now }
{
    let control = d.digest(control_text(ctl).as_slice());
    state_text(&mem, &regs, &control)
}

/// The root of the state with these digests of memory and registers, and these control fields.
pub fn parts_root<D: Digester>(d: D, mem: Digest32, regs: Digest32, ctl: &Ctl) -> Digest32
    ensures { result.0 ≡ root.parts_root D.digest_of mem.0 regs.0 ctl.now }
{
    d.digest(parts_text(d, mem, regs, ctl).as_slice())
}

/// The root of the state that a claim names: the digest of the claim's state string. It takes no memory.
pub fn root_of_claim<D: Digester>(d: D, claim: &Claim) -> Digest32
    ensures { result.0 ≡ root.root_of_claim D.digest_of claim.now }
{
    parts_root(d, claim.mem, claim.regs, &claim.ctl)
}

/// The chain of an output: 32 zero bytes for no byte, else the digest of the link string of the chain before and the
/// last byte.
pub fn chain_of<D: Digester>(d: D, output: &[u8]) -> Digest32
    ensures { result.0 ≡ chain.chain_of D.digest_of output.now }
{
    chain_grows();
    let mut chain = Digest32::ZERO;
    'bytes: for byte in output {
        chain = link(d, chain, *byte);
    }
    chain
}

/// Whether a claim agrees with itself.
#[derive(Clone, Copy, Debug, PartialEq, Eq)]
pub enum ClaimCheck {
    /// The control fields have the length and the chain of the output.
    Sound,
    /// The control fields have another length than the output has.
    WrongLength,
    /// The length is right, and the control fields have another chain than the output has.
    WrongChain,
}

impl ClaimCheck {
    /// Whether it is `Sound`.
    pub fn is_sound(self) -> bool
        ensures { result ≡ says_sound self }
    {
        match self {
            ClaimCheck::Sound => true,
            ClaimCheck::WrongLength | ClaimCheck::WrongChain => false,
        }
    }
}

/// The digests of a claim have 32 bytes, and its numbers fit in their types.
fn claims_are_in_range(claim: &Claim)
    ensures { is_claim_in_range claim.now ≡ true }
{
    digests_are_32_bytes(&claim.mem);
    digests_are_32_bytes(&claim.regs);
    digests_are_32_bytes(&claim.ctl.chain);
    codes_fit(claim.ctl.status);
    let _pc = claim.ctl.pc;
    let _out_len = claim.ctl.out_len;
}

/// Checks that a claim's control fields have the length and the chain of its output, the length first.
#[tactic(auto, unfolding(crate::specs::Soundness::is_sound))]
pub fn check_claim<D: Digester>(d: D, claim: &Claim) -> ClaimCheck
    ensures value { result ≡ claim_check D.digest_of claim.now }
    ensures sound { says_sound result ≡ is_sound D.digest_of claim.now }
{
    claims_are_in_range(claim);
    if claim.ctl.out_len != claim.output.len() as u64 {
        return ClaimCheck::WrongLength;
    }
    if !same_digest(&claim.ctl.chain, &chain_of(d, claim.output.as_slice())) {
        return ClaimCheck::WrongChain;
    }
    ClaimCheck::Sound
}
