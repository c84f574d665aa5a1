//! Guests that are proved: what the run of a program puts out, for every input.
//!
//! The layers above may rely on this: the program of the large workload puts out the sum of its input's bytes, for every input and so for
//! that of each seed (`workload_adds_up_its_input`), and the file `guest/adler32/program.elf` puts out the Adler-32 of its input
//! (`adler32_is_computed`). There is no code here. `specs/` has what is to believe: `Guest` what it is to put out bytes, `Sum`, `Adler32` and
//! `Adler32File` the two guests. `proofs/` has a kit by which a third is proved: `RunLemmas` steps and runs, `BytesLemmas` bytes that stay in
//! memory, `BlockLemmas` many instructions at once. Read `docs/GUESTS.md` first, which leads through the workload.
#![tactic(auto)]

mod laws;

pub use laws::{adler32_is_computed, workload_adds_up_its_input};
