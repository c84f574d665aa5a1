//! Claims.
ghost use Rattle.std.specs.Prelude.{◌≡◌, ◌≤◌, ◌↔◌, length, IfOk, IfSome, IsSome};

use crate::digest::Digest32;
use crate::memory::Memory;
use crate::status::Ctl;
use std::alloc::Global;
use std::marker::Model;

/// The longest output that a claim may state, in bytes.
pub const MAX_OUTPUT_BYTES: usize = 4_294_967_295;

/// The output that a claim states: at most 4,294,967,295 bytes.
///
/// Contracts see it as the list of its bytes.
#[derive(Debug, Drop)]
pub struct ClaimOutput {
    bytes: Vec<u8>,
}

impl Model for ClaimOutput {
    ghost use Rattle.std.specs.Prelude.{List, ℕ, ◌≤◌, length};

    ghost Value = { List ℕ };

    ghost view = { λ o. o.bytes.items };

    ghost invariant = { λ o. length o.bytes.items ≤ 4294967295 };
}

impl ClaimOutput {
    /// The bytes as an output. `None` comes if and only if there are more than 4,294,967,295. It takes no memory.
    pub fn new(bytes: Vec<u8>) -> Option<ClaimOutput>
        ensures there { IsSome result ↔ (length bytes.items ≤ 4294967295) }
        ensures value { IfSome result (λ o. o ≡ bytes.items) }
    {
        if bytes.len() <= MAX_OUTPUT_BYTES {
            Some(ClaimOutput { bytes })
        } else {
            None
        }
    }

    /// How many bytes there are.
    pub fn len(&self) -> usize
        ensures value { result ≡ length self.now }
        ensures within { result ≤ 4294967295 }
    {
        self.bytes.len()
    }

    /// The bytes, in their order.
    pub fn as_slice(&self) -> &[u8]
        ensures { result.now ≡ self.now }
    {
        self.bytes.as_slice()
    }

    /// A copy of the output.
    pub fn copy(&self, alloc: Global) -> Result<ClaimOutput, Memory>
        ensures { IfOk result (λ o. o ≡ self.now) }
    {
        Ok(ClaimOutput {
            bytes: self.bytes.to_vec(alloc)?,
        })
    }
}

/// What a prover claims of the last state of its run: the digests of what is stored and of the registers, the control fields, and
/// the output itself.
#[derive(Debug, Drop)]
pub struct Claim {
    /// The digest of what is stored: the root of the memory's Merkle tree, or in version 3 of the commitment the digest of the storage
    /// string, which has that root and the input's.
    pub mem: Digest32,
    /// The digest of the registers: of their string in version 1, and from version 2 on the root of their tree.
    pub regs: Digest32,
    /// The control fields.
    pub ctl: Ctl,
    /// The whole output.
    pub output: ClaimOutput,
}

impl Claim {
    /// A copy of the claim.
    pub fn copy(&self, alloc: Global) -> Result<Claim, Memory>
        ensures { IfOk result (λ c. c ≡ self.now) }
    {
        Ok(Claim {
            mem: self.mem,
            regs: self.regs,
            ctl: self.ctl,
            output: self.output.copy(alloc)?,
        })
    }
}
