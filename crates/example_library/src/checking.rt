//! A proof of one step, checked.
ghost use Rattle.std.specs.Prelude.{◌≡◌, ◌↔◌};
ghost use Rattle.rd_base.specs.declared.digest.Digest32.{Digest32};
ghost use Rattle.open_proof.specs.Conditions.{LeadsFrom};
ghost use Rattle.open_proof.specs.Facts.{facts_of};

use digest_core::Digester;
use rd_base::{Digest32, Proof, Steps};
use std::marker::Brand;
use std::sync::ledger::{Blank, Ledger};
use step_referee::{StepCheck, check_step};

fn check_in<D: Digester, L: Ledger>(d: D, root: Digest32, proof: &Proof, blank: Blank) -> StepCheck
    requires name { blank.name ≡ L.name }
    requires parts { blank.parts ≡ L.parts }
    requires one { L.parts ≡ 1 }
    ensures { (b : Digest32) → (result ≡ StepCheck.Leads b) ↔ LeadsFrom D.digest_of 1 root (facts_of proof.now) b }
{
    let mut steps = Steps::<L>::new(blank);
    check_step(d, 1, root, proof, &mut steps)
}

/// Where a proof of version 1 leads from a root. Nothing but the two is looked at, and no memory is taken.
pub fn check<D: Digester>(d: D, root: Digest32, proof: &Proof) -> StepCheck
    ensures { (b : Digest32) → (result ≡ StepCheck.Leads b) ↔ LeadsFrom D.digest_of 1 root (facts_of proof.now) b }
{
    check_in::<D, Brand>(d, root, proof, Blank::new(1))
}
