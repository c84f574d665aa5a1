//! A digest function that counts its digests, by which provers replay their runs.
use digest_core::{Digester, Sha256};
use rd_base::{Digest32, Memory};
use segment_replay::{KeptRun, Replays};
use state_commit::Committed;
use std::alloc::Global;
use std::thread::Threads;
use toy_machine::Tally;

/// A tally by which runs can be replayed.
#[derive(Clone, Copy)]
pub struct Counting<'a, D> {
    /// The tally.
    pub of: Tally<'a, D>,
}

impl<D: Digester> Digester for Counting<'_, D> {
    ghost digest_of = { D.digest_of };

    ghost is_digest = { D.is_digest };

    ghost is_bytes = { D.is_bytes };

    fn digest(&self, bytes: &[u8]) -> Digest32 {
        self.of.digest(bytes)
    }
}

impl Replays for Counting<'_, Sha256> {
    fn roots_of<R: Threads + Sync>(
        self,
        rt: &R,
        alloc: Global,
        run: &mut KeptRun<Self>,
        steps: &[u64],
        workers: u32,
    ) -> Result<Vec<Digest32>, Memory> {
        run.roots(rt, alloc, steps, workers)
    }

    fn committed_of<R: Threads + Sync>(
        self,
        rt: &R,
        alloc: Global,
        run: &mut KeptRun<Self>,
        step: u64,
    ) -> Result<Committed<Self>, Memory> {
        run.committed(rt, alloc, step)
    }
}
