//! Images of programs: a file becomes a memory and an entry address, or the first rule that it breaks.
//!
//! The layers above may rely on this: what is loaded is what a definition of `specs/` makes of the file's bytes, a
//! refusal is the first broken rule, and but for running out of memory each answer is determined by the file alone. A flat
//! file is laid at one address; of an ELF32 executable (TIS ELF 1.2) the segments of type `PT_LOAD` are. Read
//! `fault` first, then `header`, `rules` and `loading`; `laws` states what follows from the definitions.
#![tactic(auto)]

mod fault;
mod header;
mod laws;
mod loading;
mod overlap;
mod rules;

pub use fault::ImageFault;
pub use laws::{elf_memory, flat_memory, sharing_loads};
pub use loading::{IMAGE_BASE, Loaded, MAX_IMAGE_BYTES, load_elf, load_flat};
