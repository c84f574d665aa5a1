//! What each prover has at the end.
use rd_base::Listed;

/// What each prover has once a match has ended, and what is in the pool.
#[derive(Debug, Drop)]
pub struct Balances {
    /// What each prover has, by number: prover 1 is the first.
    pub of: Listed<u64>,
    /// What is in the pool.
    pub pool: u64,
}
