//! The nodes of a memory, from scratch.
ghost use Rattle.std.specs.Prelude.{◌≡◌, ◌<◌, ◌^◌, ℕ, [], length, IfOk, All, true};
ghost use Rattle.std.specs.List.{AllZip};
ghost use Rattle.mem_plain.specs.Contents.{IsUsed, no_bytes, has_page};
ghost use Rattle.mem_tree.specs.Page.{AreEmpty, IsPageOf, IsPageTree};
ghost use Rattle.mem_tree.specs.Tree.{kept_of, page_at, AllMade, IsJoinedBut};

use crate::kept::{Nodes, PageTree};
use crate::page::{CHUNK_BYTES, PageOf, new_page_tree};
use digest_core::{Counted, Digester, leaf_text};
use mem_plain::PlainMem;
use merkle_nodes::fill_empty_nodes;
use rayon::prelude::*;
use rd_base::{Digest32, Memory, Steps};
use std::alloc::{AllocError, Global};
use std::collections::BTreeMap;
use std::marker::Brand;
use std::sync::ledger::{Blank, Ledger};
use std::thread::Threads;

/// The pages that hold a byte other than 0, in order.
fn used_pages(alloc: Global, mem: &PlainMem) -> Result<Vec<u32>, Memory>
    ensures used { IfOk result (λ pages. (p : ℕ) → IsUsed mem.now p → has_page pages.items p ≡ true) }
    ensures pages { IfOk result (λ pages. All (λ page. page < 2 ^ 20) pages.items) }
{
    let mut pages = Vec::new(alloc);
    let mut from = 0;
    'pages: while let Some(page) = mem.next_page(from) {
        pages.push(page)?;
        from = page + 1;
    }
    Ok(pages)
}

/// The subtree of a page, or none if every byte of the page is 0, with a counter of its own.
fn counted_page_tree<C: Counted, L: Ledger>(
    c: C,
    alloc: Global,
    empties: &[Digest32],
    of: &PageOf<'_>,
    blank: Blank,
) -> Result<Option<PageTree>, Memory>
    requires name { blank.name ≡ L.name }
    requires parts { blank.parts ≡ L.parts }
    requires one { L.parts ≡ 1 }
    requires levels { length empties.now ≡ 28 }
    requires empty { AreEmpty C.digest_of empties.now }
    ensures { IfOk result (λ tree. IsPageTree C.digest_of tree of.now.mem.now of.now.page) }
{
    let mut steps = Steps::<L>::new(blank);
    if !of.mem.is_used(of.page) {
        return Ok(None);
    }
    let tree = new_page_tree(c, alloc, empties, of, &mut steps)?;
    Ok(Some(tree))
}

/// The subtree of a page, or none if every byte of the page is 0, uncounted.
fn plain_page_tree<D: Digester>(
    d: D,
    alloc: Global,
    empties: &[Digest32],
    of: &PageOf<'_>,
) -> Result<Option<PageTree>, Memory>
    requires levels { length empties.now ≡ 28 }
    requires empty { AreEmpty D.digest_of empties.now }
    ensures { IfOk result (λ tree. IsPageTree D.digest_of tree of.now.mem.now of.now.page) }
{
    counted_page_tree::<D, Brand>(d, alloc, empties, of, Blank::new(1))
}

/// The subtrees of pages, in their order, computed side by side. An `Err`, of all or of one subtree, is out of memory.
fn trees_of<R: Threads + Sync, D: Digester + Send + Sync>(
    rt: &R,
    alloc: Global,
    d: D,
    empties: &[Digest32],
    mem: &PlainMem,
    pages: &[u32],
) -> Result<Vec<Result<Option<PageTree>, Memory>>, AllocError>
    requires pages { All (λ page. page < 2 ^ 20) pages.now }
    requires levels { length empties.now ≡ 28 }
    requires empty { AreEmpty D.digest_of empties.now }
    ensures { IfOk result (λ trees. AllZip (λ page tree. IfOk tree (λ t. IsPageTree D.digest_of t mem.now page))
        pages.now trees.items) }
{
    pages
        .par_iter()
        .map(
            |page: &u32| -> Result<Option<PageTree>, Memory>
                requires page { page.now < 2 ^ 20 }
                requires levels { length empties.now ≡ 28 }
                requires empty { AreEmpty D.digest_of empties.now }
                ensures { IfOk result (λ tree. IsPageTree D.digest_of tree mem.entry.now page.now) }
            { plain_page_tree(d, alloc, empties, &PageOf { mem, page: *page }) },
        )
        .collect(rt, alloc)
}

/// The nodes of a memory in which every byte is 0: none is kept.
fn no_nodes<D: Digester>(alloc: Global, d: D) -> Nodes
    ensures pages { result.pages.entries ≡ [] }
    ensures upper { result.upper.entries ≡ [] }
    ensures empty { AreEmpty D.digest_of result.empties }
{
    let mut empties = [Digest32::ZERO; 28];
    fill_empty_nodes(d, &leaf_text(&[0; CHUNK_BYTES]), &mut empties);
    Nodes {
        pages: BTreeMap::new(alloc),
        upper: BTreeMap::new(alloc),
        empties,
    }
}

/// The nodes of a memory in which every byte is 0.
pub(crate) fn nodes_of_zeros<D: Digester>(alloc: Global, d: D) -> Nodes
    ensures pages { (p : ℕ) → IsPageOf (page_at (kept_of result) p) no_bytes p }
    ensures made { AllMade D.digest_of (kept_of result) }
    ensures joined { IsJoinedBut D.digest_of (kept_of result) [] }
    ensures empty { AreEmpty D.digest_of result.empties }
{
    no_nodes(alloc, d)
}

/// The nodes of a memory, whose pages' subtrees are computed side by side, with a counter of its own.
pub(crate) fn nodes_in<R: Threads + Sync, D: Digester + Send + Sync, L: Ledger>(
    rt: &R,
    alloc: Global,
    d: D,
    mem: &PlainMem,
    blank: Blank,
) -> Result<Nodes, Memory>
    requires name { blank.name ≡ L.name }
    requires parts { blank.parts ≡ L.parts }
    requires one { L.parts ≡ 1 }
    ensures pages { IfOk result (λ nodes. (p : ℕ) → IsPageOf (page_at (kept_of nodes) p) mem.now p) }
    ensures made { IfOk result (λ nodes. AllMade D.digest_of (kept_of nodes)) }
    ensures joined { IfOk result (λ nodes. IsJoinedBut D.digest_of (kept_of nodes) []) }
    ensures empty { IfOk result (λ nodes. AreEmpty D.digest_of nodes.empties) }
{
    let mut steps = Steps::<L>::new(blank);
    let mut left = used_pages(alloc, mem)?;
    let mut nodes = no_nodes(alloc, d);
    let mut trees = trees_of(rt, alloc, d, &nodes.empties, mem, &left)?;
    let mut placed = Vec::new(alloc);
    'pages: while let Some(page) = left.pop() {
        let Some(tree) = trees.pop() else {
            unreachable!()
        };
        nodes.set_page(d, page, tree?)?;
        placed.push(page)?;
    }
    nodes.raise_all(d, alloc, placed, &mut steps)?;
    Ok(nodes)
}
