//! The judge of the machine, by a digester and a version of the commitment.
ghost use Rattle.std.specs.Prelude.{◌≡◌, ◌↔◌};
ghost use Rattle.rd_base.specs.declared.digest.Digest32.{Digest32};
ghost use Rattle.open_proof.specs.Conditions.{LeadsFrom};
ghost use Rattle.open_proof.specs.Facts as facts_of_proof;
ghost use Rattle.step_referee.specs.declared.check.StepCheck.TheVariants as StepCheck;
ghost use Rattle.step_referee.specs.MachineRuling.{machine_ruling};
ghost use Rattle.step_referee.specs.MachineFair.{machine_ruling_is_fair};

use crate::check::{StepCheck, check_step, leading_is_decided};
use bisect_game::Judge;
use digest_core::Digester;
use open_proof::proofs_are_in_range;
use out_chain::{check_claim, claim_collision, root_of_claim};
use rd_base::{Claim, Digest32, OpenText, Proof, Steps};
use std::marker::Brand;
use std::sync::ledger::{Blank, Ledger};

/// The result of the check of a proof, with a counter of its own.
fn checked<D: Digester, L: Ledger>(
    d: D,
    version: u32,
    from: Digest32,
    proof: &Proof,
    blank: Blank,
) -> StepCheck
    requires name { blank.name ≡ L.name }
    requires parts { blank.parts ≡ L.parts }
    requires one { L.parts ≡ 1 }
    ensures { (b : Digest32) → (result ≡ StepCheck.Leads b) ↔ LeadsFrom D.digest_of version from (facts_of_proof.facts_of proof.now) b }
{
    let mut steps = Steps::<L>::new(blank);
    check_step(d, version, from, proof, &mut steps)
}

/// The names of the judge of the machine: the version of the commitment. The judge's type fixes all else that it decides by.
#[derive(Clone, Copy, Debug)]
pub struct MachineNames {
    /// The version of the commitment: 1, 2 or 3. In another one no proof leads anywhere.
    pub version: u32,
}

/// The judge of the machine: claims and proofs of its steps in a version of the commitment, with digests by `D`. It takes no memory.
#[derive(Clone, Copy, Debug)]
pub struct MachineJudge<D> {
    /// The digester of strings. Its type alone fixes the digest function.
    pub digester: D,
    /// The version of the commitment.
    pub version: u32,
}

impl<D: Digester> MachineJudge<D> {
    /// The judge of a version that digests by `d`.
    pub fn new(d: D, version: u32) -> Self
        ensures digester { result.digester ≡ d }
        ensures version { result.version ≡ version }
    {
        MachineJudge {
            digester: d,
            version,
        }
    }
}

impl<D: Digester> Judge for MachineJudge<D> {
    type Names = MachineNames;

    ghost names = { λ j. record { version = j.version } };

    ghost ruling = { λ n. machine_ruling D.digest_of n.version };

    ghost is_fair = { λ n. machine_ruling_is_fair D.digest_of D.is_digest n.version };

    fn sound(&self, claim: &Claim) -> bool {
        check_claim(self.digester, claim).is_sound()
    }

    fn root_of(&self, claim: &Claim) -> Digest32 {
        root_of_claim(self.digester, claim)
    }

    fn leads(&self, from: Digest32, proof: &Proof) -> Option<Digest32> {
        leading_is_decided();
        proofs_are_in_range(proof);
        match checked::<D, Brand>(self.digester, self.version, from, proof, Blank::new(1)) {
            StepCheck::Leads(b) => Some(b),
            StepCheck::NotOpen => None,
            StepCheck::WrongShape => None,
        }
    }

    fn claim_collision(&self, first: &Claim, second: &Claim) -> Option<(OpenText, OpenText)> {
        claim_collision(self.digester, first, second)
    }

    fn step_collision(
        &self,
        from: Digest32,
        first: &Proof,
        second: &Proof,
    ) -> Option<(OpenText, OpenText)> {
        open_proof::step_collision(self.digester, self.version, from, first, second)
    }
}
