//! The nodes above changed pages, renewed level by level, each once.
ghost use Rattle.std.specs.Prelude.{◌≡◌, ◌≢◌, ◌⊎◌, ◌+◌, ◌*◌, ◌/◌, ◌≤◌, ◌<◌, ◌^◌, ℕ, List, [], length, OnOk, OnErr, IfOk, false, true};
ghost use Rattle.mem_plain.specs.Contents.{has_page};
ghost use Rattle.mem_tree.specs.Page.{AreEmpty};
ghost use Rattle.mem_tree.specs.Tree.{kept_of, upper_at, IsJoinedAbove, IsJoinedBut};
ghost use Rattle.mem_tree.specs.Levels.{IsJoinedFrom, others_before};
ghost use Rattle.mem_tree.specs.Costs.{kept_above, kept_among, parents as parents_of};

use crate::kept::Nodes;
use crate::nodes::UPPER_LEVELS;
use digest_core::Counted;
use rd_base::{Memory, Steps};
use std::alloc::Global;
use std::sync::ledger::Ledger;

/// Adds a place to others, unless it is the last of them. An `Err` is out of memory.
fn add_once(places: &mut Vec<u32>, place: u32) -> Result<(), Memory>
    ensures { OnOk result (places.new.items ≡ others_before places.old.items place) }
{
    let count = places.len();
    if count > 0 && places[count - 1] == place {
        return Ok(());
    }
    places.push(place)?;
    Ok(())
}

/// The places of the nodes above nodes of a level, each once if the places are in order. An `Err` is out of memory.
fn parents(alloc: Global, places: &[u32]) -> Result<Vec<u32>, Memory>
    ensures exactly { IfOk result (λ v. v.items ≡ parents_of places.now) }
    ensures above { IfOk result (λ v. (q : ℕ) → has_page places.now q ≡ true → has_page v.items (q / 2) ≡ true) }
    ensures below { IfOk result (λ v. (h : ℕ) → has_page v.items h ≡ true → (q : ℕ) × (has_page places.now q ≡ true) × (q / 2 ≡ h)) }
    ensures few { IfOk result (λ v. length v.items ≤ length places.now) }
    ensures some { OnErr result (0 < length places.now) }
{
    let mut above = Vec::new(alloc);
    'places: for i in 0..places.len() {
        add_once(&mut above, places[i] / 2)?;
    }
    Ok(above)
}

impl Nodes {
    /// Joins the nodes at these places of a level anew, from the two below each, with a step for each digest. An `Err` is out of memory, and
    /// leaves all nodes at other places.
    fn join_places<C: Counted, L: Ledger>(
        &mut self,
        c: C,
        above: u8,
        places: &[u32],
        steps: &mut Steps<L>,
    ) -> Result<(), Memory>
        requires level { above < 20 }
        requires places { (k : ℕ) → has_page places.now k ≡ true → k < 2 ^ 20 }
        requires empty { AreEmpty C.digest_of self.old.empties }
        ensures joined { OnOk result ((k : ℕ) → has_page places.now k ≡ true → IsJoinedAbove C.digest_of (kept_of self.new) above k) }
        ensures elsewhere { (n k : ℕ) → (n ≢ above + 1) ⊎ (has_page places.now k ≡ false) → upper_at (kept_of self.new) n k ≡ upper_at (kept_of self.old) n k }
        ensures pages { self.new.pages ≡ self.old.pages }
        ensures empties { self.new.empties ≡ self.old.empties }
        ensures some { OnErr result (0 < length places.now) }
        ensures exactly { OnOk result (steps.new ≡ steps.old + kept_among (kept_of self.new) (above + 1) places.now) }
        ensures steps { steps.new ≤ steps.old + length places.now }
        ensures more { steps.old ≤ steps.new }
    {
        'places: for i in 0..places.len() {
            let node = self.joined(c, above, places[i], steps);
            self.put_upper(above + 1, places[i], node)?;
        }
        Ok(())
    }

    /// Joins the nodes above pages anew, whose roots stand in their places: level by level, each node once, with a step for each digest, so
    /// that pages beside each other share them. An `Err` is out of memory, and leaves all nodes that are above none of the pages.
    pub(crate) fn raise_all<C: Counted, L: Ledger>(
        &mut self,
        c: C,
        alloc: Global,
        pages: Vec<u32>,
        steps: &mut Steps<L>,
    ) -> Result<(), Memory>
        requires pages { (p : ℕ) → has_page pages.items p ≡ true → p < 2 ^ 20 }
        requires empty { AreEmpty C.digest_of self.old.empties }
        ensures joined { OnOk result (IsJoinedFrom C.digest_of (kept_of self.old) 0 pages.items → IsJoinedBut C.digest_of (kept_of self.new) []) }
        ensures elsewhere { (n k : ℕ) → ((p : ℕ) → has_page pages.items p ≡ true → p / 2 ^ n ≢ k) → upper_at (kept_of self.new) n k ≡ upper_at (kept_of self.old) n k }
        ensures top { (n k : ℕ) → 20 < n → upper_at (kept_of self.new) n k ≡ upper_at (kept_of self.old) n k }
        ensures pages { self.new.pages ≡ self.old.pages }
        ensures empties { self.new.empties ≡ self.old.empties }
        ensures some { OnErr result (0 < length pages.items) }
        ensures exactly { OnOk result (steps.new ≡ steps.old + kept_above (kept_of self.new) 20 pages.items) }
        ensures steps { steps.new ≤ steps.old + 20 * length pages.items }
        ensures more { steps.old ≤ steps.new }
    {
        let mut places = pages;
        'levels: for above in 0..UPPER_LEVELS {
            places = parents(alloc, &places)?;
            self.join_places(c, above, &places, steps)?;
        }
        Ok(())
    }
}
