//! Ways: opened leaves of any tree, up to the roots that they are to open. They are made without a digest.
ghost use Rattle.std.specs.Prelude.{◌≡◌, ◌↔◌, ◌+◌, ◌%◌, ◌/◌, ◌≤◌, ℕ, List, [], ◌∷◌, length, slice_get};
ghost use Rattle.digest_core.specs.Text.{leaf_text as text_of_leaf};
ghost use Rattle.mem_plain.specs.Page.{with_number_in};
ghost use Rattle.merkle_nodes.specs.Node.{digest_at};
ghost use Rattle.merkle_nodes.specs.Opening.{Opens};
ghost use Rattle.rv_step.specs.Fetching.{fetch_address as fetch_address_of};
ghost use Rattle.rv_step.specs.Named.{AreRegisters};
ghost use Rattle.open_proof.specs.Facts as facts_of_proof;
ghost use Rattle.open_proof.specs.Openings as openings;
ghost use Rattle.open_proof.specs.Ways as way_specs;
ghost use Rattle.open_proof.specs.Slots as slots;
ghost use Rattle.open_proof.specs.Slots.{digest_after, digests_after, there};

use crate::called::Called;
use crate::facts::{CHUNK_BYTES, Facts, HeldInput, HeldRegisters};
use digest_core::{Counted, Digester, leaf_text, register_text};
use merkle_nodes::{climb_counted, climbing_is_opening, joined_text};
use rd_base::{
    Digest32, InOpening, OpenText, Opening, Path, RegOpening, Regs, Steps, paths_have_27_levels,
    same_digest,
};
use std::marker::Model;
use std::sync::ledger::Ledger;

/// An opened leaf of any tree: its string, its index, its siblings from its own up, and the root that it is to open.
///
/// Contracts see a way of the definitions, whose tree has as many levels as there are siblings.
#[derive(Drop)]
pub struct Way<'a> {
    pub(crate) text: OpenText,
    index: u32,
    siblings: &'a [Digest32],
    root: Digest32,
}

impl<'a> Model for Way<'a> {
    ghost use Rattle.std.specs.Prelude.{length};
    ghost use Rattle.open_proof.specs.Ways as ways;

    ghost Value = { ways.Way };

    ghost view = { λ w. record { text = w.text; index = w.index; siblings = w.siblings.now; levels = length w.siblings.now; root = w.root.0 } };
}

impl<'a> Way<'a> {
    /// The rest of the way above its string, by the digest of the string; `None` at the root.
    pub(crate) fn above(&self, digest: &Digest32) -> Option<Way<'a>>
        ensures { result ≡ slots.way_above self.now digest.now.0 }
    {
        match self.siblings {
            [] => None,
            [sibling, others @ ..] => Some(Way {
                text: joined_text(self.index % 2, digest, sibling),
                index: self.index / 2,
                siblings: others,
                root: self.root,
            }),
        }
    }

    /// The digest to which the way climbs, by a digest for each level and one for the leaf.
    fn top<C: Counted, L: Ledger>(&self, c: C, steps: &mut Steps<L>) -> Digest32
        ensures digest { result.0 ≡ C.digest_of (way_specs.way_text C.digest_of self.now self.now.levels) }
        ensures steps { steps.new ≡ steps.old + (self.now.levels + 1) }
    {
        climb_counted(c, self.index, &self.text, self.siblings, steps)
    }

    /// Whether the way climbs to its root, by a digest for each level and one for the leaf.
    fn climbs<C: Counted, L: Ledger>(&self, c: C, steps: &mut Steps<L>) -> bool
        ensures value { result ≡ way_specs.way_climbs C.digest_of self.now }
        ensures steps { steps.new ≡ steps.old + (self.now.levels + 1) }
    {
        same_digest(&self.root, &self.top(c, steps))
    }
}

/// Whether the ways of some slots climb to their roots. All of them are climbed, be the first of them wrong or the last.
pub fn ways_climb<C: Counted, L: Ledger>(c: C, ways: &[Option<Way>], steps: &mut Steps<L>) -> bool
    ensures value { result ≡ way_specs.ways_climb C.digest_of (there ways.now) }
    ensures steps { steps.new ≡ steps.old + way_specs.ways_digests (there ways.now) }
{
    match ways {
        [] => true,
        [slot, others @ ..] => match slot {
            Some(way) => {
                let climbs = way.climbs(c, steps);
                let rest = ways_climb(c, others, steps);
                climbs && rest
            }
            None => ways_climb(c, others, steps),
        },
    }
}

/// The digest of a tree after a change: that to which the changed way climbs with the same siblings, or its root if nothing has changed.
pub fn root_after<C: Counted, L: Ledger>(
    c: C,
    root: Digest32,
    changed: &Option<Way>,
    steps: &mut Steps<L>,
) -> Digest32
    ensures digest { result.0 ≡ digest_after C.digest_of root.0 changed.now }
    ensures steps { steps.new ≡ steps.old + digests_after changed.now }
{
    match changed {
        Some(way) => way.top(c, steps),
        None => root,
    }
}

/// The digest to which a chunk of memory climbs along its path: the root of memory, if it is the chunk with this index there. Bit l of
/// `index` is 0 if the path is on the left at level l. It takes no memory.
pub fn climb<D: Digester>(d: D, index: u32, chunk: [u8; 32], path: &Path) -> Digest32
    ensures { (root : List ℕ) → Opens D.digest_of (text_of_leaf chunk) (digest_at path.now.0) 27 index root ↔ (root ≡ result.0) }
{
    climbing_is_opening();
    paths_have_27_levels(path);
    merkle_nodes::climb(d, index, &leaf_text(&chunk), &path.0)
}

/// The way of a chunk, of memory or of the input, that holds the byte at a place.
fn chunk_way<'a>(root: Digest32, chunk: &[u8; 32], siblings: &'a [Digest32], place: u32) -> Way<'a>
    ensures { result ≡ record { text = text_of_leaf chunk.now; index = place / 32; siblings = siblings.now; levels = length siblings.now; root = root.0 } }
{
    Way {
        text: leaf_text(chunk),
        index: place / CHUNK_BYTES,
        siblings,
        root,
    }
}

/// The way of a chunk of memory that holds an address, if it is there and called for.
fn memory_way<'a>(
    root: Digest32,
    chunk: &'a Option<Opening>,
    address: Option<u32>,
) -> Option<Way<'a>>
    ensures { result ≡ slice_get (openings.chunk_ways root.0 chunk.now address) 0 }
{
    let opening = chunk.as_ref()?;
    Some(chunk_way(root, &opening.chunk, &opening.path.0, address?))
}

/// The way of a chunk of the input that holds a byte, if it is there and called for.
fn input_way<'a>(
    tree: &Option<HeldInput>,
    chunk: &'a Option<InOpening>,
    byte: Option<u32>,
) -> Option<Way<'a>>
    ensures { result ≡ slice_get (openings.input_ways tree.now chunk.now byte) 0 }
{
    let root = tree.as_ref()?.root;
    let opening = chunk.as_ref()?;
    Some(chunk_way(root, &opening.chunk, &opening.path.0, byte?))
}

/// The way of a register that holds a value.
fn register_way<'a>(root: Digest32, reg: u8, value: u32, opening: &'a RegOpening) -> Way<'a>
    ensures { result ≡ openings.register_way root.0 reg (record opening.now { value = value }) }
{
    Way {
        text: register_text(value),
        index: u32::from(reg),
        siblings: &opening.path.0,
        root,
    }
}

/// The way of an opened register, by its place among those that are named.
#[tactic(auto, using(crate::proofs::SlotLemmas::each_at, crate::proofs::SlotLemmas::each_none))]
fn named_way<'a>(names: &[u8], regs: &'a HeldRegisters, k: usize) -> Option<Way<'a>>
    ensures { result ≡ slice_get (openings.register_ways names.now regs.now) k }
{
    match regs {
        HeldRegisters::Whole(_regs) => None,
        HeldRegisters::Opened(root, named) => {
            let opened = named.as_slice();
            if k < names.len() && k < opened.len() {
                Some(register_way(*root, names[k], opened[k].value, &opened[k]))
            } else {
                None
            }
        }
    }
}

/// The way of the fetched chunk of a proof, if it is there and called for. No digest is made.
#[tactic(auto, using(crate::proofs::SlotLemmas::chunk_alone))]
pub fn fetch_way<'a>(facts: &'a Facts, called: &Called) -> Option<Way<'a>>
    requires { called.now.fetch ≡ fetch_address_of facts.now.ctl }
    ensures { there (result ∷ []) ≡ openings.fetch_ways facts.now }
{
    memory_way(facts.mem, &facts.fetch, called.fetch)
}

/// The ways of the registers that a proof opens, from the first place on: at most three. No digest is made.
#[tactic(auto, using(crate::proofs::SlotLemmas::three_there, crate::proofs::SlotLemmas::named_few))]
pub fn named_ways<'a>(facts: &'a Facts, called: &Called) -> [Option<Way<'a>>; 3]
    requires { called.now.names ≡ facts_of_proof.named_called facts.now }
    ensures named { there result ≡ openings.named_ways facts.now }
    ensures places { result ≡ slots.first_three (openings.named_ways facts.now) }
    ensures few { length (openings.named_ways facts.now) ≤ 3 }
{
    let names = called.names.as_slice();
    [
        named_way(names, &facts.regs, 0),
        named_way(names, &facts.regs, 1),
        named_way(names, &facts.regs, 2),
    ]
}

/// The way of the chunk of data of a proof, if it is there and called for. No digest is made.
#[tactic(auto, using(crate::proofs::SlotLemmas::chunk_alone))]
pub fn operand_way<'a>(facts: &'a Facts, called: &Called) -> Option<Way<'a>>
    requires { called.now.operand ≡ facts_of_proof.operand_called facts.now }
    ensures { there (result ∷ []) ≡ openings.operand_ways facts.now }
{
    memory_way(facts.mem, &facts.operand, called.operand)
}

/// The way of the chunk of the input of a proof, if it is there and called for. No digest is made.
#[tactic(auto, using(crate::proofs::SlotLemmas::input_alone))]
pub fn read_way<'a>(facts: &'a Facts, called: &Called) -> Option<Way<'a>>
    requires { called.now.input ≡ facts_of_proof.input_called facts.now }
    ensures { there (result ∷ []) ≡ openings.read_ways facts.now }
{
    input_way(&facts.input_tree, &facts.input, called.input)
}

/// The chunk with the low `width` bytes of a value from a place on, the least byte first.
fn with_number(chunk: [u8; 32], at: usize, width: u8, value: u32) -> [u8; 32]
    requires { at + width ≤ 32 }
    ensures { result ≡ with_number_in chunk at width value }
{
    let mut bytes = chunk;
    let mut rest = value;
    'bytes: for k in 0..width {
        bytes[at + k as usize] = (rest % 256) as u8;
        rest /= 256;
    }
    bytes
}

/// The way of an opened chunk of memory after a number was stored in it. `None` if no chunk is there.
pub fn changed_chunk<'a>(
    root: Digest32,
    chunk: &'a Option<Opening>,
    addr: u32,
    width: u8,
    value: u32,
) -> Option<Way<'a>>
    requires { addr % 32 + width ≤ 32 }
    ensures { result ≡ slots.changed_chunk root.0 chunk.now addr width value }
{
    let opening = chunk.as_ref()?;
    let changed = with_number(opening.chunk, (addr % CHUNK_BYTES) as usize, width, value);
    Some(chunk_way(root, &changed, &opening.path.0, addr))
}

/// The way of the first opened register that a step has changed, after the step. `None` if none has changed.
pub fn changed_register<'a>(
    root: Digest32,
    names: &[u8],
    opened: &'a [RegOpening],
    before: &Regs,
    after: &Regs,
) -> Option<Way<'a>>
    requires { AreRegisters names.now }
    ensures { result ≡ slots.changed_register root.0 names.now opened.now before.now after.now }
{
    match names {
        [] => None,
        [reg, more @ ..] => match opened {
            [] => None,
            [opening, others @ ..] => {
                let value = after.get(*reg);
                if before.get(*reg) == value {
                    changed_register(root, more, others, before, after)
                } else {
                    Some(register_way(root, *reg, value, opening))
                }
            }
        },
    }
}
