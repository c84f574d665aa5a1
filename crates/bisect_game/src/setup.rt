//! The numbers of a match, whose limits are those of `rd_base`.
ghost use Rattle.std.specs.Prelude.{◌≡◌, ◌<◌, ◌≤◌, ◌^◌};
ghost use Rattle.bisect_game.specs.Setup.{AreInRange};

use rd_base::Digest32;
use std::marker::Model;

/// The numbers by which a match is played. Those that have a range are in it.
///
/// Contracts see them as a record (`specs/Setup.antt`).
#[derive(Clone, Copy, Debug)]
pub struct Setup {
    provers: u32,
    bound: u64,
    fan: u32,
    patience: u32,
    start: Digest32,
}

impl Model for Setup {
    ghost use Rattle.bisect_game.specs.Setup.{Setup, AreInRange};

    ghost Value = { Setup };

    ghost view = { λ s. record { provers = s.provers; bound = s.bound; fan = s.fan; patience = s.patience; start = s.start } };

    ghost invariant = { λ s. AreInRange (record { provers = s.provers; bound = s.bound; fan = s.fan; patience = s.patience; start = s.start }) };

    ghost inverse = { λ s. record { provers = s.provers; bound = s.bound; fan = s.fan; patience = s.patience; start = s.start } };
}

impl Setup {
    /// The numbers of a match of `provers` provers (1 to 65,536), over `bound` steps (1 to `MAX_BOUND`) from the root `start`, of which a
    /// round cuts its interval in `fan` parts (`MIN_FAN` to `MAX_FAN`), with `patience` passes allowed on a question.
    pub fn new(provers: u32, bound: u64, fan: u32, patience: u32, start: Digest32) -> Setup
        requires some { 0 < provers }
        requires few { provers ≤ 2 ^ 16 }
        requires steps { 0 < bound }
        requires short { bound < 2 ^ 32 }
        requires parted { 1 < fan }
        requires few_parts { fan ≤ 16 }
        ensures { result ≡ record { provers = provers; bound = bound; fan = fan; patience = patience; start = start } }
    {
        Setup {
            provers,
            bound,
            fan,
            patience,
            start,
        }
    }

    /// How many provers there are, from 1 to 65,536. Their numbers count from 1.
    pub fn provers(self) -> u32
        ensures is { result ≡ self.provers }
        ensures some { 0 < result }
        ensures few { result ≤ 2 ^ 16 }
    {
        self.provers
    }

    /// The bound: how many steps the disputed run has, from 1 to `MAX_BOUND`.
    pub fn bound(self) -> u64
        ensures is { result ≡ self.bound }
        ensures steps { 0 < result }
        ensures short { result < 2 ^ 32 }
    {
        self.bound
    }

    /// In how many parts a round cuts its interval: `MIN_FAN` to `MAX_FAN`.
    pub fn fan(self) -> u32
        ensures is { result ≡ self.fan }
        ensures parted { 1 < result }
        ensures few_parts { result ≤ 16 }
    {
        self.fan
    }

    /// How many passes a question allows.
    pub fn patience(self) -> u32
        ensures { result ≡ self.patience }
    {
        self.patience
    }

    /// The root at step 0.
    pub fn start(self) -> Digest32
        ensures { result ≡ self.start }
    {
        self.start
    }

    /// Its numbers are in their ranges.
    pub fn is_in_range(self)
        ensures { AreInRange self }
    {
        let _ = self.fan;
    }
}
