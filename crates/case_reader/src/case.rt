//! A case, and the tasks of a text.
ghost use Rattle.std.proofs.Props.{props};
ghost use Rattle.std.specs.Prelude.{◌≤◌, length, IfSome};

use rd_base::{Bytes, Listed, Script};

/// The format of an image.
#[derive(Clone, Copy, Debug, PartialEq, Eq)]
pub enum Format {
    /// A flat file, whose bytes lie in memory as they are.
    Flat,
    /// An ELF file (ELF32), whose program headers fix what lies where.
    Elf,
    /// A program in assembly, which loads as the flat file of its words.
    Asm,
}

/// A case, with each number in its range.
#[derive(Debug, Drop)]
pub struct Case {
    /// The image's bytes; of assembly those of its text.
    pub image: Bytes,
    /// The image's format.
    pub format: Format,
    /// The program's input.
    pub input: Bytes,
    /// How many steps the run has.
    pub bound: u64,
    /// How many passes each question allows.
    pub patience: u32,
    /// The version of the commitments.
    pub version: u32,
    /// Into how many parts a round cuts its interval at most.
    pub fan: u32,
    /// What each prover puts down, if there are deposits.
    pub stake: Option<u64>,
    /// The provers, by number from 1.
    pub provers: Listed<Script>,
    ghost input_is_short: { length input ≤ 1048576 },
    ghost bound_is_positive: { 1 ≤ bound },
    ghost bound_in_range: { bound ≤ 4294967295 },
    ghost patience_in_range: { patience ≤ 100 },
    ghost version_is_positive: { 1 ≤ version },
    ghost version_in_range: { version ≤ 3 },
    ghost parted: { 2 ≤ fan },
    ghost few_parts: { fan ≤ 16 },
    ghost small_stake: { IfSome stake (λ s. s ≤ 1000000000) } by { Prim.hlevel props },
    ghost somebody_plays: { 1 ≤ length provers },
    ghost few_play: { length provers ≤ 16 },
}

/// What a text holds: one case, or the cases of 1 to 8 tasks, in their order.
#[derive(Debug, Drop)]
pub enum Tasks {
    One(Case),
    Many(Vec<Case>),
}
