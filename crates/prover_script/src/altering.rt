//! What manners make of an answer.
ghost use Rattle.std.specs.Prelude.{◌≡◌, ◌≤◌, ◌+◌, ◌++◌, IfOk, length, map};
ghost use Rattle.prover_script.specs.Manners as manners;
ghost use Rattle.prover_script.specs.Manners.{with_output, with_shown, with_forgery, noise, with_roots};

use bisect_game::Kind;
use digest_core::{Digester, noise_text};
use open_proof::{called_by, facts_of};
use rd_base::{
    Answer, Boxed, Claim, ClaimOutput, Digest32, Memory, Proof, Qid, RegOpening, RegOpenings,
    RegisterNumber, RootList,
};
use std::alloc::Global;

/// A claim that answers the claim's question, with another output; any other answer stays.
pub fn with_output(
    alloc: Global,
    output: &ClaimOutput,
    kind: Kind,
    answer: Answer,
) -> Result<Answer, Memory>
    ensures { IfOk result (λ a. a ≡ with_output output.now kind answer) }
{
    match (kind, answer) {
        (Kind::Claim, Answer::Claim(claim)) => Ok(Answer::Claim(Claim {
            mem: claim.mem,
            regs: claim.regs,
            ctl: claim.ctl,
            output: output.copy(alloc)?,
        })),
        (_, answer) => Ok(answer),
    }
}

/// Puts opened registers behind others, at most three altogether, with another value in the register `reg`, if it is named at the
/// place of one.
fn put_opened(reg: u8, value: u32, opened: &[RegOpening], names: &[u8], altered: &mut RegOpenings)
    requires { length altered.old + length opened.now ≤ 3 }
    ensures { altered.new ≡ altered.old ++ manners.with_opened reg value opened.now names.now }
{
    match opened {
        [] => {}
        [opening, others @ ..] => match names {
            [] => {
                altered.push(*opening);
                put_opened(reg, value, others, names, altered);
            }
            [name, more @ ..] => {
                altered.push(if *name == reg {
                    RegOpening {
                        value,
                        path: opening.path,
                    }
                } else {
                    *opening
                });
                put_opened(reg, value, others, more, altered);
            }
        },
    }
}

/// Opened registers with another value in the register `reg`, if it is named at the place of one.
fn with_opened(reg: u8, value: u32, opened: &RegOpenings, names: &[u8]) -> RegOpenings
    ensures { result ≡ manners.with_opened reg value opened.now names.now }
{
    let mut altered = RegOpenings::new();
    put_opened(reg, value, opened.as_slice(), names, &mut altered);
    altered
}

/// A proof with another value in a register, if it shows that register. It takes no memory.
fn with_shown(reg: RegisterNumber, value: u32, proof: &Proof) -> Proof
    ensures { result ≡ with_shown reg value proof.now }
{
    let called = called_by(&facts_of(proof));
    let names = called.names.as_slice();
    match proof {
        Proof::V1(proof) => {
            let mut shown = *proof;
            shown.regs.set(reg.get(), value);
            Proof::V1(shown)
        }
        Proof::V2(proof) => {
            let mut shown = proof.copy();
            shown.named = with_opened(reg.get(), value, &proof.named, names);
            Proof::V2(shown)
        }
        Proof::V3(proof) => {
            let mut shown = proof.copy();
            shown.named = with_opened(reg.get(), value, &proof.named, names);
            Proof::V3(shown)
        }
    }
}

/// A proof that answers the question for this step, with another value in a register; any other answer stays.
pub fn with_forgery(
    alloc: Global,
    step: u32,
    reg: RegisterNumber,
    value: u32,
    kind: Kind,
    answer: Answer,
) -> Result<Answer, Memory>
    ensures { IfOk result (λ a. a ≡ with_forgery step reg value kind answer) }
{
    match (kind, answer) {
        (Kind::Proof(asked), Answer::Step(proof)) => {
            if asked != u64::from(step) {
                return Ok(Answer::Step(proof));
            }
            let forged = with_shown(reg, value, proof.get());
            Ok(Answer::Step(Boxed::new(Box::new(alloc, forged)?)))
        }
        (_, answer) => Ok(answer),
    }
}

/// The digest of a string that no state has, from a seed and the question's number. It takes no memory.
pub fn noise<D: Digester>(d: D, seed: u32, qid: Qid) -> Digest32
    ensures { result ≡ noise D.digest_of seed qid }
{
    d.digest(noise_text(seed, qid.dispute, qid.round).as_slice())
}

/// One root in place of each of these.
fn each_is(alloc: Global, root: Digest32, roots: &RootList) -> Result<RootList, Memory>
    ensures { IfOk result (λ l. l ≡ map (λ _. root) roots.now) }
{
    let mut same = Vec::new(alloc);
    'roots: for _ in roots.as_slice() {
        same.push(root)?;
    }
    Ok(RootList::new(same).unwrap())
}

/// One digest in place of the root, or of each of the roots, that answers a question for roots; any other answer stays.
pub fn with_roots(
    alloc: Global,
    root: Digest32,
    kind: Kind,
    answer: Answer,
) -> Result<Answer, Memory>
    ensures { IfOk result (λ a. a ≡ with_roots root kind answer) }
{
    match (kind, answer) {
        (Kind::Root(_), Answer::Root(_)) => Ok(Answer::Root(root)),
        (Kind::Roots { .. }, Answer::Roots(roots)) => {
            Ok(Answer::Roots(each_is(alloc, root, &roots)?))
        }
        (_, answer) => Ok(answer),
    }
}
