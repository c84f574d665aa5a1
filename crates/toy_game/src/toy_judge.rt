//! The judge of the toy game.
ghost use Rattle.std.specs.Prelude.{◌≡◌, ◌∷◌, []};
ghost use Rattle.toy_game.specs.Toy.{root, number, next, is_plain, opened_root, mark_of, leads_to, toy_ruling};
ghost use Rattle.toy_game.specs.Fair.{toy_is_fair};

use bisect_game::Judge;
use rd_base::{Claim, Digest32, OpenText, Proof, same_digest};

/// The root with this number.
pub fn root(number: u8) -> Digest32
    ensures { result ≡ root number }
{
    let mut bytes = [0; 32];
    bytes[0] = number;
    Digest32(bytes)
}

/// The number of a root.
fn number(root: &Digest32) -> u8
    ensures { result ≡ number root.now }
{
    root.0[0]
}

/// The number after this one in the true run.
fn next(number: u8) -> u8
    ensures { result ≡ next number }
{
    if number == 6 {
        6
    } else {
        number.wrapping_add(1)
    }
}

/// The string of one byte.
fn string(byte: u8) -> OpenText
    ensures { result ≡ byte ∷ [] }
{
    let mut text = OpenText::new();
    text.push(byte);
    text
}

/// Whether a claim has nothing but a root and a mark.
fn is_plain(claim: &Claim) -> bool
    ensures { result ≡ is_plain claim.now }
{
    same_digest(&claim.regs, &Digest32::ZERO)
        && (claim.ctl.status.is_running()
            && (claim.ctl.out_len == 0
                && (same_digest(&claim.ctl.chain, &Digest32::ZERO) && claim.output.len() == 0)))
}

/// The root that a proof opens.
fn opened_root(proof: &Proof) -> Digest32
    ensures { result ≡ opened_root proof.now }
{
    match proof {
        Proof::V1(proof) => proof.mem,
        Proof::V2(proof) => proof.mem,
        Proof::V3(proof) => proof.mem,
    }
}

/// The mark of a proof.
fn mark_of(proof: &Proof) -> u32
    ensures { result ≡ mark_of proof.now }
{
    match proof {
        Proof::V1(proof) => proof.ctl.pc,
        Proof::V2(proof) => proof.ctl.pc,
        Proof::V3(proof) => proof.ctl.pc,
    }
}

/// Where a proof leads.
fn leads_to(from: Digest32, proof: &Proof) -> Option<Digest32>
    ensures { result ≡ leads_to from proof.now }
{
    if !same_digest(&opened_root(proof), &from) {
        return None;
    }
    let mark = mark_of(proof);
    if mark == 0 {
        Some(root(next(number(&from))))
    } else {
        Some(root((mark % 256) as u8))
    }
}

/// A judge over numbers.
#[derive(Clone, Copy, Debug)]
pub struct ToyJudge {
    /// Which one it is; all decide alike.
    pub name: u8,
}

impl Judge for ToyJudge {
    type Names = u8;

    ghost names = { λ j. j.name };

    ghost ruling = { toy_ruling };

    ghost is_fair = { toy_is_fair };

    fn sound(&self, claim: &Claim) -> bool {
        is_plain(claim)
    }

    fn root_of(&self, claim: &Claim) -> Digest32 {
        claim.mem
    }

    fn leads(&self, from: Digest32, proof: &Proof) -> Option<Digest32> {
        leads_to(from, proof)
    }

    fn claim_collision(&self, first: &Claim, second: &Claim) -> Option<(OpenText, OpenText)> {
        if same_digest(&first.mem, &second.mem) && first.ctl.pc != second.ctl.pc {
            Some((string(1), string(2)))
        } else {
            None
        }
    }

    fn step_collision(
        &self,
        _from: Digest32,
        first: &Proof,
        second: &Proof,
    ) -> Option<(OpenText, OpenText)> {
        if mark_of(first) == mark_of(second) {
            None
        } else {
            Some((string(1), string(2)))
        }
    }
}
