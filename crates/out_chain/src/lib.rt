//! The chain of an output, the state string and the root of a state's parts, and claims checked and compared.
//!
//! The layers above may rely on this: `chain_of`, `parts_text`, `parts_root` and `root_of_claim` return what their definitions
//! say (`digest_core`'s `Chain`, and `specs/Root.antt`); `check_claim` tests whether a claim agrees with itself
//! (`specs/Soundness.antt`); `claim_collision` is the first pair of different strings with one digest among those that two claims
//! of one root open (`specs/Collision.antt`). Two sound claims of one root that differ have such a pair (`laws`). None of these calls
//! takes memory. Read `specs/Root.antt` and `specs/Collision.antt` first, then `checking`.
#![tactic(auto)]

mod checking;
mod colliding;
mod laws;

pub use checking::{ClaimCheck, chain_of, check_claim, parts_root, parts_text, root_of_claim};
pub use colliding::{claim_collision, collides};
pub use laws::{chains_bind_outputs, claims_of_one_root};
