//! Digests of byte strings, and the strings that are digested.
//!
//! A `Digester` is a digest function that its type alone names: whatever value of the type is asked, the digest is
//! `digest_of` the bytes. Every definition above this crate takes that function as its argument, and no clause
//! anywhere assumes that a digest is hard to find or to repeat. `Sha256` is the one of FIPS 180-4, by the definition of
//! `sha2`; `Weak8` is its first byte alone, for matches in which two strings have one digest. A `Counted` is a digest function that
//! counts each of its digests.
//!
//! The layers above may rely on this: each kind of string has one definition in `specs/Text.antt` and one function
//! here that makes it, without memory; each kind has its length, no string is of two kinds (`specs/Kinds.antt`), and a string
//! determines its parts, which are in the ranges of their types (`laws`). The chain of an output is defined in
//! `specs/Chain.antt`, and `link` adds a byte to it. The digests that a match may be played by have names, a table
//! (`specs/Name.antt`, `DigestName::ALL`). Read `specs/Text.antt` and `specs/Chain.antt` first, then `digester`, `text`, `name`.
#![tactic(auto)]

mod digester;
mod laws;
mod name;
mod text;

pub use digester::{Counted, Digester, Sha256, Weak8};
pub use laws::{
    chain_grows, codes_fit, digests_are_32_bytes, kinds_have_lengths,
    sha256_has_the_digests_of_the_standard, texts_determine_their_parts,
};
pub use name::DigestName;
pub use text::{
    control_text, leaf_text, link, link_text, node_text, noise_text, register_text, registers_text,
    state_text, storage_text,
};
