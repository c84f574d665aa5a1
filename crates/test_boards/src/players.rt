//! Players whose disputes end in another way than by a lie found.
use toy_game::{HONEST, LIAR, Player};

/// A player that passes for ever from round 2 on.
pub(crate) const FALLS_SILENT: Player = Player {
    silent_from: 2,
    ..HONEST
};

pub(crate) const LIAR_FALLS_SILENT: Player = Player {
    silent_from: 2,
    ..LIAR
};

/// A player whose roots are others from step 1 on, and which proves them.
pub(crate) const FORGER: Player = Player {
    from: 1,
    shift: 20,
    proof_mark: 21,
    ..HONEST
};
