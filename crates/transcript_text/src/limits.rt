//! The limits of the numbers of a head.
ghost use Rattle.std.specs.Prelude.{◌≡◌};
ghost use Rattle.transcript_text.specs.Limits.{is_in_limit};

use rd_base::{MAX_BOUND, MAX_FAN, MAX_PATIENCE, MAX_PROVERS, MAX_VERSION, MIN_FAN, MIN_VERSION};

/// The least and the most that a number may be.
#[derive(Clone, Copy, Debug, PartialEq, Eq)]
pub struct Limit {
    pub least: u64,
    pub most: u64,
}

impl Limit {
    /// Whether a number is neither less nor more.
    pub fn holds(self, number: u64) -> bool
        ensures { result ≡ is_in_limit self number }
    {
        self.least <= number && number <= self.most
    }
}

/// How many provers may play.
pub const PROVERS: Limit = Limit {
    least: 1,
    most: MAX_PROVERS as u64,
};
/// How many steps a run may have.
pub const BOUND: Limit = Limit {
    least: 1,
    most: MAX_BOUND,
};
/// How many passes a question may allow.
pub const PATIENCE: Limit = Limit {
    least: 0,
    most: MAX_PATIENCE,
};
/// Which versions of the commitments there are.
pub const VERSION: Limit = Limit {
    least: MIN_VERSION as u64,
    most: MAX_VERSION as u64,
};
/// Into how many parts a round may cut its interval.
pub const FAN: Limit = Limit {
    least: MIN_FAN as u64,
    most: MAX_FAN as u64,
};
