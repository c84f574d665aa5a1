//! The nodes of a tree that are kept, and how they are brought up to a memory.
ghost use Rattle.std.specs.Prelude.{◌≡◌, ◌≢◌, ◌⊎◌, ◌+◌, ◌*◌, ◌/◌, ◌≤◌, ◌<◌, ◌^◌, ◌||◌, ◌++◌, ◌∷◌, ℕ, List, [], length, IfOk, IfSome, IfNone, OnOk, OnErr, None, is_some, false, true};
ghost use Rattle.digest_core.specs.Text.{node_text as node_string};
ghost use Rattle.mem_plain.specs.Contents.{IsUsed, has_page};
ghost use Rattle.merkle_nodes.specs.Node.{beside, digest_at};
ghost use Rattle.mem_tree.specs.Page.{AreEmpty, IsMadeTree, IsPageOf, kept_or};
ghost use Rattle.mem_tree.specs.Tree.{kept_of, page_at, page_node as node_in_page, upper_at, upper_node as node_above, AllMade, IsJoinedBut, IsRoot};
ghost use Rattle.mem_tree.specs.Renewed.{IsRenewed};
ghost use Rattle.mem_tree.specs.Costs.{changed_chunks, has_changed, kept_above, page_changes, page_digests, page_renewals, stale_pages};
ghost use Rattle.mem_tree.specs.Levels.{IsJoinedFrom, as_number};

use crate::kept::{Nodes, PageTree, Renewed};
use crate::page::{PAGE_CHUNKS, PageOf, new_page_tree, renew, root_of, tree_root};
use digest_core::{Counted, node_text};
use mem_plain::PlainMem;
use merkle_nodes::{fill_heap_path, heaps_are_trees, renewals_are_few};
use rd_base::{Digest32, Memory, Steps};
use std::alloc::Global;
use std::collections::BTreeSet;
use std::sync::ledger::Ledger;

/// The level of the pages' roots.
pub const PAGE_LEVEL: u8 = 7;

/// How many levels are above the pages' roots.
pub const UPPER_LEVELS: u8 = 20;

/// A node, or the empty one of its level if it isn't kept.
fn or_empty(node: Option<Digest32>, empty: Digest32) -> Digest32
    ensures { result.0 ≡ kept_or node empty.0 }
{
    match node {
        Some(node) => node,
        None => empty,
    }
}

/// The pages that were touched since a refresh last succeeded, and whether one has run out of memory since.
#[derive(Drop)]
pub(crate) struct Touched<'a> {
    pub(crate) pages: &'a BTreeSet<u32>,
    pub(crate) failed: bool,
}

/// Adds a page to others, or not. An `Err` is out of memory.
fn add_if(pages: &mut Vec<u32>, page: u32, is_one: bool) -> Result<(), Memory>
    ensures added { OnOk result (is_one ≡ true → pages.new.items ≡ pages.old.items ++ page ∷ []) }
    ensures kept { is_one ≡ false → pages.new.items ≡ pages.old.items }
{
    if is_one {
        pages.push(page)?;
    }
    Ok(())
}

impl Nodes {
    /// Writes the siblings of a chunk at the levels below its page's root, the leaf's first. It looks the page up once.
    pub(crate) fn fill_page_path(&self, chunk: u32, siblings: &mut [Digest32])
        requires { length siblings.old ≡ 7 }
        ensures len { length siblings.new ≡ 7 }
        ensures nodes { (digest : List ℕ → List ℕ) → AllMade digest (kept_of self.now) → (l : ℕ) → l < 7 →
            digest_at siblings.new l ≡ node_in_page (kept_of self.now) l (beside (chunk / 2 ^ l)) }
    {
        heaps_are_trees();
        match self.pages.get(&(chunk / PAGE_CHUNKS as u32)) {
            Some(tree) => fill_heap_path(&tree.nodes, siblings, chunk % PAGE_CHUNKS as u32),
            None => siblings.copy_from_slice(&self.empties[..PAGE_LEVEL as usize]),
        }
    }

    /// The node this many levels above the pages' roots, if it is kept.
    fn kept_upper(&self, above: u8, k: u32) -> Option<Digest32>
        ensures { result ≡ upper_at (kept_of self.now) above k }
    {
        self.upper.get(&(above, k)).copied()
    }

    /// The node this many levels above the pages' roots.
    pub(crate) fn upper_node(&self, above: u8, k: u32) -> Digest32
        requires { above ≤ 20 }
        ensures { result.0 ≡ node_above (kept_of self.now) above k }
    {
        or_empty(
            self.kept_upper(above, k),
            self.empties[(PAGE_LEVEL + above) as usize],
        )
    }

    /// Takes a page's subtree out, if one is kept.
    fn take_page(&mut self, page: u32) -> Option<PageTree>
        ensures taken { result ≡ page_at (kept_of self.old) page }
        ensures here { page_at (kept_of self.new) page ≡ None }
        ensures elsewhere { (p : ℕ) → p ≢ page → page_at (kept_of self.new) p ≡ page_at (kept_of self.old) p }
        ensures upper { self.new.upper ≡ self.old.upper }
        ensures empties { self.new.empties ≡ self.old.empties }
    {
        self.pages.remove(&page)
    }

    /// Keeps a page's subtree, or none if the page is empty. An `Err` is out of memory, and changes nothing.
    fn put_page(&mut self, page: u32, tree: Option<PageTree>) -> Result<(), Memory>
        ensures here { OnOk result (page_at (kept_of self.new) page ≡ tree) }
        ensures err { OnErr result (page_at (kept_of self.new) page ≡ page_at (kept_of self.old) page) }
        ensures elsewhere { (p : ℕ) → p ≢ page → page_at (kept_of self.new) p ≡ page_at (kept_of self.old) p }
        ensures upper { self.new.upper ≡ self.old.upper }
        ensures empties { self.new.empties ≡ self.old.empties }
    {
        match tree {
            Some(tree) => {
                self.pages.insert(page, tree)?;
                Ok(())
            }
            None => {
                self.pages.remove(&page);
                Ok(())
            }
        }
    }

    /// Keeps a node above the pages' roots, or none if it is the empty one. An `Err` is out of memory, and changes nothing.
    pub(crate) fn put_upper(
        &mut self,
        above: u8,
        k: u32,
        node: Option<Digest32>,
    ) -> Result<(), Memory>
        ensures here { OnOk result (upper_at (kept_of self.new) above k ≡ node) }
        ensures err { OnErr result (upper_at (kept_of self.new) above k ≡ upper_at (kept_of self.old) above k) }
        ensures elsewhere { (n q : ℕ) → (n ≢ above) ⊎ (q ≢ k) → upper_at (kept_of self.new) n q ≡ upper_at (kept_of self.old) n q }
        ensures pages { self.new.pages ≡ self.old.pages }
        ensures empties { self.new.empties ≡ self.old.empties }
    {
        match node {
            Some(node) => {
                self.upper.insert((above, k), node)?;
                Ok(())
            }
            None => {
                self.upper.remove(&(above, k));
                Ok(())
            }
        }
    }

    /// The node over nodes 2 * k and 2 * k + 1 of a level, with a step for its digest; or `None`, with none, if neither is kept.
    pub(crate) fn joined<C: Counted, L: Ledger>(
        &self,
        c: C,
        above: u8,
        k: u32,
        steps: &mut Steps<L>,
    ) -> Option<Digest32>
        requires level { above < 20 }
        requires place { k < 2 ^ 20 }
        requires empty { AreEmpty C.digest_of self.now.empties }
        ensures node { kept_or result (digest_at self.now.empties (7 + (above + 1))) ≡ C.digest_of
            (node_string (node_above (kept_of self.now) above (2 * k)) (node_above (kept_of self.now) above (2 * k + 1))) }
        ensures kept { is_some result ≡ (is_some (upper_at (kept_of self.now) above (2 * k)) || is_some (upper_at (kept_of self.now) above (2 * k + 1))) }
        ensures counted { is_some result ≡ true → steps.new ≡ steps.old + 1 }
        ensures none { is_some result ≡ false → steps.new ≡ steps.old }
        ensures steps { steps.new ≤ steps.old + 1 }
        ensures more { steps.old ≤ steps.new }
    {
        let left = self.kept_upper(above, 2 * k);
        let right = self.kept_upper(above, 2 * k + 1);
        if left.is_none() && right.is_none() {
            return None;
        }
        let empty = self.empties[(PAGE_LEVEL + above) as usize];
        let text = node_text(&or_empty(left, empty), &or_empty(right, empty));
        Some(c.digest(&text, steps))
    }

    /// Puts a page's subtree and its root into their places; the nodes above it stay. An `Err` is out of memory, and leaves all other pages
    /// and nodes.
    pub(crate) fn set_page<C: Counted>(
        &mut self,
        _c: C,
        page: u32,
        tree: Option<PageTree>,
    ) -> Result<(), Memory>
        ensures here { OnOk result (page_at (kept_of self.new) page ≡ tree) }
        ensures root { OnOk result (IsRoot (upper_at (kept_of self.new) 0 page) tree) }
        ensures elsewhere { (p : ℕ) → p ≢ page → page_at (kept_of self.new) p ≡ page_at (kept_of self.old) p }
        ensures upper { (n k : ℕ) → (n ≢ 0) ⊎ (k ≢ page) → upper_at (kept_of self.new) n k ≡ upper_at (kept_of self.old) n k }
        ensures made { AllMade C.digest_of (kept_of self.old) → IsMadeTree C.digest_of tree → AllMade C.digest_of (kept_of self.new) }
        ensures empties { self.new.empties ≡ self.old.empties }
    {
        let root = root_of(&tree);
        self.put_page(page, tree)?;
        self.put_upper(0, page, root)?;
        Ok(())
    }

    /// Makes the subtree of a page in use that of a memory, in its place, if one is kept, with a step for each changed chunk and each node
    /// above one; `None`, with no step, if none is kept.
    fn renew_kept<C: Counted, L: Ledger>(
        &mut self,
        c: C,
        of: &PageOf<'_>,
        steps: &mut Steps<L>,
    ) -> Option<Renewed>
        requires made { AllMade C.digest_of (kept_of self.old) }
        requires used { IsUsed of.now.mem.now of.now.page }
        ensures renewed { IfSome result (λ r. IsRenewed C.digest_of (page_at (kept_of self.old) of.now.page) (page_at (kept_of self.new) of.now.page) r of.now.mem.now of.now.page) }
        ensures none { IfNone result (page_at (kept_of self.old) of.now.page ≡ None) }
        ensures stays { IfNone result (self.new.pages ≡ self.old.pages) }
        ensures elsewhere { (p : ℕ) → p ≢ of.now.page → page_at (kept_of self.new) p ≡ page_at (kept_of self.old) p }
        ensures upper { self.new.upper ≡ self.old.upper }
        ensures empties { self.new.empties ≡ self.old.empties }
        ensures exactly { IfSome result (λ r. steps.new ≡ steps.old + page_renewals (page_at (kept_of self.old) of.now.page) of.now.mem.now of.now.page) }
        ensures uncounted { IfNone result (steps.new ≡ steps.old) }
    {
        renewals_are_few();
        match self.pages.get_mut(&of.page) {
            Some(tree) => {
                let changed = renew(c, tree, of, steps);
                Some(Renewed {
                    root: Some(tree_root(tree)),
                    changed,
                })
            }
            None => None,
        }
    }

    /// Makes the subtree of a page that of a memory, with a step for each changed chunk and each node above one, if the page isn't empty. One
    /// that is kept is changed in its place. An `Err` is out of memory, and comes only if none was kept: none is then.
    fn renew_tree<C: Counted, L: Ledger>(
        &mut self,
        c: C,
        alloc: Global,
        of: &PageOf<'_>,
        steps: &mut Steps<L>,
    ) -> Result<Renewed, Memory>
        requires empty { AreEmpty C.digest_of self.old.empties }
        requires made { AllMade C.digest_of (kept_of self.old) }
        ensures renewed { IfOk result (λ r. IsRenewed C.digest_of (page_at (kept_of self.old) of.now.page) (page_at (kept_of self.new) of.now.page) r of.now.mem.now of.now.page) }
        ensures err { OnErr result (page_at (kept_of self.new) of.now.page ≡ page_at (kept_of self.old) of.now.page) }
        ensures elsewhere { (p : ℕ) → p ≢ of.now.page → page_at (kept_of self.new) p ≡ page_at (kept_of self.old) p }
        ensures upper { self.new.upper ≡ self.old.upper }
        ensures empties { self.new.empties ≡ self.old.empties }
        ensures exactly { OnOk result (steps.new ≡ steps.old + page_renewals (page_at (kept_of self.old) of.now.page) of.now.mem.now of.now.page) }
        ensures within { steps.new ≤ steps.old + page_renewals (page_at (kept_of self.old) of.now.page) of.now.mem.now of.now.page }
        ensures more { steps.old ≤ steps.new }
    {
        renewals_are_few();
        if !of.mem.is_used(of.page) {
            let before = self.take_page(of.page);
            return Ok(Renewed {
                root: None,
                changed: before.is_some(),
            });
        }
        match self.renew_kept(c, of, steps) {
            Some(renewed) => Ok(renewed),
            None => {
                let tree = new_page_tree(c, alloc, &self.empties, of, steps)?;
                let root = tree_root(&tree);
                self.put_page(of.page, Some(tree))?;
                Ok(Renewed {
                    root: Some(root),
                    changed: true,
                })
            }
        }
    }

    /// Makes a page that of a memory, and puts its root into its place, with a step for each digest; a page that hasn't changed takes none.
    /// The result is whether the nodes above it are to be joined anew: if the page has changed, or an earlier refresh failed. An `Err` is
    /// out of memory, and leaves all nodes but the page's.
    fn renew_page<C: Counted, L: Ledger>(
        &mut self,
        c: C,
        alloc: Global,
        of: &PageOf<'_>,
        failed: bool,
        steps: &mut Steps<L>,
    ) -> Result<bool, Memory>
        requires empty { AreEmpty C.digest_of self.old.empties }
        requires made { AllMade C.digest_of (kept_of self.old) }
        ensures page { IfOk result (λ stale. IsPageOf (page_at (kept_of self.new) of.now.page) of.now.mem.now of.now.page) }
        ensures elsewhere { (p : ℕ) → p ≢ of.now.page → page_at (kept_of self.new) p ≡ page_at (kept_of self.old) p }
        ensures made { AllMade C.digest_of (kept_of self.new) }
        ensures upper { (n k : ℕ) → (n ≢ 0) ⊎ (k ≢ of.now.page) → upper_at (kept_of self.new) n k ≡ upper_at (kept_of self.old) n k }
        ensures stale { IfOk result (λ stale. stale ≡ true → IsRoot (upper_at (kept_of self.new) 0 of.now.page) (page_at (kept_of self.new) of.now.page)) }
        ensures fresh { IfOk result (λ stale. stale ≡ false → failed ≡ false × (IsRoot (upper_at (kept_of self.old) 0 of.now.page) (page_at (kept_of self.old) of.now.page) →
            IsRoot (upper_at (kept_of self.new) 0 of.now.page) (page_at (kept_of self.new) of.now.page)) × (upper_at (kept_of self.new) 0 of.now.page ≡ upper_at (kept_of self.old) 0 of.now.page)) }
        ensures empties { self.new.empties ≡ self.old.empties }
        ensures choice { IfOk result (λ stale. stale ≡ (has_changed (page_at (kept_of self.old) of.now.page) of.now.mem.now of.now.page || failed)) }
        ensures exactly { OnOk result (steps.new ≡ steps.old + page_renewals (page_at (kept_of self.old) of.now.page) of.now.mem.now of.now.page) }
        ensures steps { steps.new ≤ steps.old + 255 }
        ensures few { failed ≡ false → IfOk result (λ stale. steps.new + 20 * as_number stale ≤ steps.old + 28 * page_changes (page_at (kept_of self.old) of.now.page) of.now.mem.now of.now.page) }
        ensures few_in_all { failed ≡ false → steps.new ≤ steps.old + 28 * page_changes (page_at (kept_of self.old) of.now.page) of.now.mem.now of.now.page }
        ensures more { steps.old ≤ steps.new }
    {
        renewals_are_few();
        let renewed = self.renew_tree(c, alloc, of, steps)?;
        if renewed.changed || failed {
            self.put_upper(0, of.page, renewed.root)?;
            return Ok(true);
        }
        Ok(false)
    }

    /// Makes the touched pages those of a memory, and puts their roots into their places, with a step for each digest. The result is the pages
    /// above which the nodes are to be joined anew. An `Err` is out of memory, and leaves all nodes but those of touched pages.
    fn renew_pages<C: Counted, L: Ledger>(
        &mut self,
        c: C,
        alloc: Global,
        touched: &Touched<'_>,
        mem: &PlainMem,
        steps: &mut Steps<L>,
    ) -> Result<Vec<u32>, Memory>
        requires pages { (p : ℕ) → has_page touched.now.pages.now.keys p ≡ true → p < 2 ^ 20 }
        requires empty { AreEmpty C.digest_of self.old.empties }
        requires made { AllMade C.digest_of (kept_of self.old) }
        requires joined { IsJoinedBut C.digest_of (kept_of self.old) touched.now.pages.now.keys }
        requires whole { touched.now.failed ≡ false → IsJoinedBut C.digest_of (kept_of self.old) [] }
        ensures pages { IfOk result (λ stale. ((p : ℕ) → has_page touched.now.pages.now.keys p ≡ false → IsPageOf (page_at (kept_of self.old) p) mem.now p) →
            (p : ℕ) → IsPageOf (page_at (kept_of self.new) p) mem.now p) }
        ensures others { (p : ℕ) → has_page touched.now.pages.now.keys p ≡ false → page_at (kept_of self.new) p ≡ page_at (kept_of self.old) p }
        ensures made { AllMade C.digest_of (kept_of self.new) }
        ensures joined { IsJoinedBut C.digest_of (kept_of self.new) touched.now.pages.now.keys }
        ensures stale { IfOk result (λ stale. IsJoinedFrom C.digest_of (kept_of self.new) 0 stale.items) }
        ensures among { IfOk result (λ stale. (p : ℕ) → has_page stale.items p ≡ true → has_page touched.now.pages.now.keys p ≡ true) }
        ensures empties { self.new.empties ≡ self.old.empties }
        ensures count { IfOk result (λ stale. length stale.items ≤ length touched.now.pages.now.keys) }
        ensures choice { IfOk result (λ stale. stale.items ≡ stale_pages touched.now.failed (kept_of self.old) mem.now touched.now.pages.now.keys) }
        ensures exactly { OnOk result (steps.new ≡ steps.old + page_digests (kept_of self.old) mem.now touched.now.pages.now.keys) }
        ensures steps { steps.new ≤ steps.old + 255 * length touched.now.pages.now.keys }
        ensures few { touched.now.failed ≡ false → IfOk result (λ stale. steps.new + 20 * length stale.items ≤ steps.old + 28 * changed_chunks (kept_of self.old) mem.now touched.now.pages.now.keys) }
        ensures few_in_all { touched.now.failed ≡ false → steps.new ≤ steps.old + 28 * changed_chunks (kept_of self.old) mem.now touched.now.pages.now.keys }
        ensures more { steps.old ≤ steps.new }
        ensures some { OnErr result (0 < length touched.now.pages.now.keys) }
    {
        let mut stale = Vec::new(alloc);
        'pages: for page in touched.pages.iter() {
            let of = PageOf { mem, page: *page };
            let is_stale = self.renew_page(c, alloc, &of, touched.failed, steps)?;
            add_if(&mut stale, *page, is_stale)?;
        }
        Ok(stale)
    }

    /// Makes the touched pages and the nodes above them those of a memory, with a step for each digest. Each page that hasn't changed takes
    /// none, unless an earlier refresh failed. An `Err` is out of memory, and leaves all nodes that are neither in nor above a touched
    /// page.
    pub(crate) fn refresh<C: Counted, L: Ledger>(
        &mut self,
        c: C,
        alloc: Global,
        touched: &Touched<'_>,
        mem: &PlainMem,
        steps: &mut Steps<L>,
    ) -> Result<(), Memory>
        requires pages { (p : ℕ) → has_page touched.now.pages.now.keys p ≡ true → p < 2 ^ 20 }
        requires empty { AreEmpty C.digest_of self.old.empties }
        requires made { AllMade C.digest_of (kept_of self.old) }
        requires joined { IsJoinedBut C.digest_of (kept_of self.old) touched.now.pages.now.keys }
        requires whole { touched.now.failed ≡ false → IsJoinedBut C.digest_of (kept_of self.old) [] }
        ensures pages { OnOk result (((p : ℕ) → has_page touched.now.pages.now.keys p ≡ false → IsPageOf (page_at (kept_of self.old) p) mem.now p) →
            (p : ℕ) → IsPageOf (page_at (kept_of self.new) p) mem.now p) }
        ensures others { (p : ℕ) → has_page touched.now.pages.now.keys p ≡ false → page_at (kept_of self.new) p ≡ page_at (kept_of self.old) p }
        ensures made { AllMade C.digest_of (kept_of self.new) }
        ensures joined { IsJoinedBut C.digest_of (kept_of self.new) touched.now.pages.now.keys }
        ensures whole { OnOk result (IsJoinedBut C.digest_of (kept_of self.new) []) }
        ensures empties { self.new.empties ≡ self.old.empties }
        ensures exactly { OnOk result (steps.new ≡ steps.old + page_digests (kept_of self.old) mem.now touched.now.pages.now.keys
            + kept_above (kept_of self.new) 20 (stale_pages touched.now.failed (kept_of self.old) mem.now touched.now.pages.now.keys)) }
        ensures steps { steps.new ≤ steps.old + 275 * length touched.now.pages.now.keys }
        ensures few { touched.now.failed ≡ false → steps.new ≤ steps.old + 28 * changed_chunks (kept_of self.old) mem.now touched.now.pages.now.keys }
        ensures more { steps.old ≤ steps.new }
        ensures some { OnErr result (0 < length touched.now.pages.now.keys) }
    {
        let stale = self.renew_pages(c, alloc, touched, mem, steps)?;
        self.raise_all(c, alloc, stale, steps)?;
        Ok(())
    }
}
