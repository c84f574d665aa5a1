//! Wire forms: a prover's answer as bytes, and back.
//!
//! The layers above may rely on this: a grammar defines which bytes an answer has (`specs/Wire.antt`), and `encode` writes them. `decode`
//! gives the answer that bytes spell, or the first rule that they break, as lengths and places decide it (`specs/FirstFault.antt`), unless
//! memory runs out; `decode_step` reads a step alone, and takes no memory. An answer has one spelling, bytes spell one answer, and no
//! answer's bytes are a proper prefix of another's (`laws`). Read `fault` first, then `reading` and `writing`.
#![tactic(auto)]

mod fault;
mod fields;
mod laws;
mod layout;
mod reading;
mod writing;

pub use fault::WireFault;
pub use laws::{
    faults_by_places, no_proper_prefix, one_spelling, reading_is_spelling, spelled_in_bytes,
};
pub use reading::{decode, decode_step};
pub use writing::encode;
