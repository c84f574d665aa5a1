//! How a player of the toy game plays.

/// How a toy prover plays. Its run is the true one up to step `from`, and from there the step's number plus `shift`.
#[derive(Clone, Copy, Debug)]
pub struct Player {
    /// The first step at which its run is shifted.
    pub from: u64,
    pub shift: u8,
    /// The mark of its claim; 0 is the true one.
    pub claim_mark: u32,
    /// The mark of its proofs; 0 is the true one, and another leads to that number.
    pub proof_mark: u32,
    /// How often it passes on each question.
    pub late: u32,
    /// The round from which it passes for ever; the claim is round 0.
    pub silent_from: u32,
}

/// A player that answers truly at once.
pub const HONEST: Player = Player {
    from: 4_294_967_295,
    shift: 0,
    claim_mark: 0,
    proof_mark: 0,
    late: 0,
    silent_from: 4_294_967_295,
};

/// A player whose run is another one from step 2 on.
pub const LIAR: Player = Player {
    from: 2,
    shift: 100,
    claim_mark: 0,
    proof_mark: 0,
    late: 0,
    silent_from: 4_294_967_295,
};

/// A player that never answers.
pub const SILENT: Player = Player {
    from: 0,
    shift: 0,
    claim_mark: 0,
    proof_mark: 0,
    late: 0,
    silent_from: 0,
};
