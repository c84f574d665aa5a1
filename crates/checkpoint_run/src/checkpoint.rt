//! Checkpoints of a run, and the versions of its pages: of all versions of a page that come before a checkpoint, the last one is the page.
ghost use Rattle.std.specs.Prelude.{◌≡◌, ℕ, ◌+◌, ◌*◌, ◌<◌, ◌≤◌, ◌^◌, ◌++◌, ◌∷◌, [], List, length, take, slice_index, true, IfOk, OnOk, IfSome, IfNone};
ghost use Rattle.mem_plain.specs.Contents.{IsUsed, has_page};
ghost use Rattle.checkpoint_run.specs.Versions.{pictured, pages_of, AreBelow, IsShownBut};
ghost use Rattle.checkpoint_run.specs.Places.{IsIndex, IsPut, ArePlaces, IsLastBelow, HasNone, Ascend};
ghost use Rattle.checkpoint_run.specs.declared.version.Version.{Version};
ghost use Rattle.checkpoint_run.specs.Keeping.{IsAdded, found_at};

use crate::version::Version;
use mem_plain::{PlainMem, contents_of_a_function, laying_bytes};
use rd_base::{Ctl, Memory, Regs};
use rv_step::Machine;
use std::alloc::Global;
use std::collections::{BTreeMap, BTreeSet};

/// Adds the place of a version of a page, behind all that were added.
fn add_place(
    alloc: Global,
    index: &mut BTreeMap<u32, Vec<usize>>,
    page: u32,
    place: usize,
) -> Result<(), Memory>
    ensures { (pages : List ℕ) → slice_index pages place ≡ page → IsIndex index.old.entries pages place → OnOk result (IsIndex index.new.entries pages (place + 1)) }
{
    index.entry(page)?.or_insert(Vec::new(alloc)).push(place)?;
    Ok(())
}

/// The places of the versions of each page that has one, in their order.
pub fn index_of(alloc: Global, versions: &[Version]) -> Result<BTreeMap<u32, Vec<usize>>, Memory>
    ensures { IfOk result (λ x. IsIndex x.entries (pages_of versions.now) (length versions.now)) }
{
    let mut index = BTreeMap::new(alloc);
    'versions: for place in 0..versions.len() {
        add_place(alloc, &mut index, versions[place].page, place)?;
    }
    Ok(index)
}

/// The last of some places, which ascend, that is below a number; `None` if there is none.
fn last_below(places: &[usize], count: usize) -> Option<usize>
    ensures below { Ascend places.now → IfSome result (λ k. k < count) }
    ensures some { (pages : List ℕ) (n page : ℕ) → ArePlaces pages n page places.now → count ≤ n → IfSome result (λ k. IsLastBelow pages page count k) }
    ensures none { (pages : List ℕ) (n page : ℕ) → ArePlaces pages n page places.now → count ≤ n → IfNone result (HasNone pages page count) }
{
    let below = places.partition_point(|place| *place < count);
    if below == 0 {
        return None;
    }
    Some(places[below - 1])
}

/// A state of a run: a step that has it, its registers and control fields, and how many versions of pages come before it. Its output
/// is a prefix of the run's output.
#[derive(Drop)]
pub struct Checkpoint {
    pub step: u64,
    pub regs: Regs,
    pub ctl: Ctl,
    pub versions: usize,
}

/// The pages of a memory that have a byte other than 0, and no others.
pub fn used_pages(alloc: Global, mem: &PlainMem) -> Result<BTreeSet<u32>, Memory>
    ensures pages { IfOk result (λ s. AreBelow s.keys) }
    ensures shown { IfOk result (λ s. IsShownBut [] s.keys mem.now) }
    ensures only { IfOk result (λ s. (p : ℕ) → has_page s.keys p ≡ true → IsUsed mem.now p) }
{
    let mut pages = BTreeSet::new(alloc);
    let mut from = 0;
    'pages: while let Some(page) = mem.next_page(from) {
        pages.insert(page)?;
        from = page + 1;
    }
    Ok(pages)
}

/// Adds one version of each page that changed, and no other. An `Err` is out of memory, after some were added.
fn add_versions(
    versions: &mut Vec<Version>,
    changed: &BTreeSet<u32>,
    mem: &PlainMem,
) -> Result<(), Memory>
    requires pages { AreBelow changed.now.keys }
    requires shown { IsShownBut versions.old.items changed.now.keys mem.now }
    ensures shown { OnOk result (IsShownBut versions.new.items [] mem.now) }
    ensures more { OnOk result ((added : List Version) × (versions.new.items ≡ versions.old.items ++ added)) }
    ensures one { OnOk result (pages_of versions.new.items ≡ pages_of versions.old.items ++ changed.now.keys) }
{
    'pages: for page in changed.iter() {
        let bytes = mem.page(*page)?;
        versions.push(Version { page: *page, bytes })?;
    }
    Ok(())
}

/// Adds the checkpoint of a step with the state of a machine, with one version of each page in `changed` and of no other. Outside these
/// pages the memory is what the versions so far show. `changed` is empty then.
pub fn add_checkpoint(
    step: u64,
    machine: &Machine,
    changed: &mut BTreeSet<u32>,
    versions: &mut Vec<Version>,
    checkpoints: &mut Vec<Checkpoint>,
) -> Result<(), Memory>
    requires pages { AreBelow changed.old.keys }
    requires shown { IsShownBut versions.old.items changed.old.keys machine.now.mem }
    ensures none { OnOk result (changed.new.keys ≡ []) }
    ensures shown { OnOk result (IsShownBut versions.new.items [] machine.now.mem) }
    ensures more { OnOk result ((added : List Version) × (versions.new.items ≡ versions.old.items ++ added)) }
    ensures one { OnOk result (pages_of versions.new.items ≡ pages_of versions.old.items ++ changed.old.keys) }
    ensures added { OnOk result (IsAdded checkpoints.old.items checkpoints.new.items versions.new.items step machine.now.regs machine.now.ctl machine.now.mem) }
{
    add_versions(versions, changed, &machine.mem)?;
    changed.clear();
    checkpoints.push(Checkpoint {
        step,
        regs: machine.regs,
        ctl: machine.ctl,
        versions: versions.len(),
    })?;
    contents_of_a_function();
    machine.mem.is_memory();
    Ok(())
}

/// The place at which the checkpoint with a number is found. Its step is below 2^64.
pub fn place_of(checkpoints: &[Checkpoint], every: u32, checkpoint: u64) -> usize
    requires some { 0 < length checkpoints.now }
    requires room { checkpoint * every < 2 ^ 64 }
    ensures place { result ≡ found_at checkpoints.now every checkpoint }
    ensures below { result < length checkpoints.now }
{
    let last = (checkpoints.len() - 1).min(checkpoint as usize);
    if checkpoints[last].step <= checkpoint * u64::from(every) {
        last
    } else {
        last.saturating_sub(1)
    }
}

/// Puts the last version of a page that is below a place into a memory, if there is one. The page has its versions at `places`.
fn put_last(
    versions: &[Version],
    places: &[usize],
    page: u32,
    count: usize,
    mem: &mut PlainMem,
) -> Result<(), Memory>
    requires count { count ≤ length versions.now }
    requires places { ArePlaces (pages_of versions.now) (length versions.now) page places.now }
    ensures { (put : List ℕ) → IsPut (take count versions.now) put mem.old → OnOk result (IsPut (take count versions.now) (put ++ page ∷ []) mem.new) }
{
    match last_below(places, count) {
        Some(place) => {
            mem.put_page(page, versions[place].bytes.clone()?)?;
            Ok(())
        }
        None => Ok(()),
    }
}

/// The memory that the first `count` of some versions stand for. It copies the last version of each page, which is found by the page's
/// places.
pub fn restored(
    alloc: Global,
    versions: &[Version],
    index: &BTreeMap<u32, Vec<usize>>,
    count: usize,
) -> Result<PlainMem, Memory>
    requires count { count ≤ length versions.now }
    requires index { IsIndex index.now.entries (pages_of versions.now) (length versions.now) }
    ensures { IfOk result (λ m. m ≡ pictured (take count versions.now)) }
{
    contents_of_a_function();
    laying_bytes();
    let mut mem = PlainMem::new(alloc);
    'pages: for (page, places) in index.iter() {
        put_last(versions, places, *page, count, &mut mem)?;
    }
    mem.is_memory();
    Ok(mem)
}
