//! How a match is played.

/// How a match is played. No option changes what is answered.
#[derive(Clone, Copy, Debug, PartialEq, Eq)]
pub struct Options {
    /// In how many pieces at most a prover makes, side by side, the roots that one question asks; at least 1.
    pub workers: u32,
    /// How many threads post the provers' answers, at least 1.
    pub posters: u32,
    /// How many steps lie between two checkpoints of a prover's run, at least 1.
    pub every: u32,
}
