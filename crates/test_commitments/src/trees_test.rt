//! The tree of memory, of `mem_tree`.
ghost use Rattle.std.specs.Prelude.{◌≡◌, []};

use crate::nodes_test::climbs;
use digest_core::{Digester, Sha256, leaf_text};
use mem_plain::PlainMem;
use mem_tree::MemTree;
use rd_base::Memory;
use std::alloc::Global;
use std::test::Fail;
use std::thread::Threads;
use toy_machine::first_eight;

/// What is done to a memory and its tree, or asked of them. A tree is refreshed before it is asked, and what is asked of it is asked of
/// one that is built anew too.
#[derive(Clone, Copy)]
enum Act {
    /// A byte is stored at an address.
    Byte(u32, u32),
    /// A word is stored at an address, which is a multiple of 4.
    Word(u32, u32),
    /// The root begins with these eight bytes.
    Root(u64),
    /// The tree has the root of one that is built anew.
    Same,
    /// The subtree of a page is kept.
    Kept(u32),
    /// The subtree of a page isn't kept.
    Dropped(u32),
    /// The path of a chunk climbs to the root.
    Climbs(u32),
}

/// Stores a byte, and touches its page.
pub(crate) fn store_byte<D: Digester>(
    mem: &mut PlainMem,
    tree: &mut MemTree<D>,
    addr: u32,
    byte: u32,
) -> Result<(), Memory> {
    mem.store(addr, 1, byte)?;
    tree.touch(addr / 4096)
}

/// Stores a word, and touches its page.
fn store_word(
    mem: &mut PlainMem,
    tree: &mut MemTree<Sha256>,
    addr: u32,
    value: u32,
) -> Result<(), Memory> {
    mem.store(4 * (addr / 4), 4, value)?;
    tree.touch(addr / 4096)
}

/// Whether a tree without a touched page is as an act requires.
fn is_so(mem: &PlainMem, tree: &MemTree<Sha256>, other: &MemTree<Sha256>, act: Act) -> bool
    requires tree { tree.now.touched ≡ [] }
    requires other { other.now.touched ≡ [] }
{
    match act {
        Act::Root(want) => first_eight(tree.root()) == want,
        Act::Same => tree.root().0 == other.root().0,
        Act::Kept(page) => tree.is_kept(page),
        Act::Dropped(page) => !tree.is_kept(page),
        Act::Climbs(chunk) => {
            let chunk = chunk % 0x800_0000;
            let text = leaf_text(&mem.chunk(chunk));
            climbs(chunk, &text, &tree.path(chunk).0, tree.root())
        }
        _ => true,
    }
}

/// Whether a tree and one that is built anew are as an act requires.
fn are_so(mem: &PlainMem, tree: &MemTree<Sha256>, built: MemTree<Sha256>, act: Act) -> (bool, bool)
    requires tree { tree.now.touched ≡ [] }
    requires built { built.touched ≡ [] }
{
    (is_so(mem, tree, &built, act), is_so(mem, &built, tree, act))
}

/// Whether what an act asks is so.
fn is_held<R: Threads + Sync>(
    rt: &R,
    alloc: Global,
    mem: &PlainMem,
    tree: &mut MemTree<Sha256>,
    act: Act,
) -> Result<bool, Memory> {
    tree.refresh(mem)?;
    let both = are_so(mem, tree, MemTree::build(rt, alloc, Sha256, mem)?, act);
    Ok(both == (true, true))
}

/// Does an act, and whether what it asks is so.
fn holds<R: Threads + Sync>(
    rt: &R,
    alloc: Global,
    mem: &mut PlainMem,
    tree: &mut MemTree<Sha256>,
    act: Act,
) -> Result<bool, Memory> {
    match act {
        Act::Byte(addr, byte) => store_byte(mem, tree, addr, byte)?,
        Act::Word(addr, value) => store_word(mem, tree, addr, value)?,
        _ => return is_held(rt, alloc, mem, tree, act),
    }
    Ok(true)
}

/// The first of these acts that doesn't hold.
fn first_failed_of<R: Threads + Sync>(
    rt: &R,
    alloc: Global,
    mem: &mut PlainMem,
    tree: &mut MemTree<Sha256>,
    acts: &[Act],
) -> Result<Option<usize>, Memory> {
    for (k, act) in acts.iter().enumerate() {
        if !holds(rt, alloc, mem, tree, *act)? {
            return Ok(Some(k));
        }
    }
    Ok(None)
}

/// The first of these acts on an empty memory that doesn't hold.
fn first_failed<R: Threads + Sync>(
    rt: &R,
    alloc: Global,
    acts: &[Act],
) -> Result<Option<usize>, Memory> {
    let mut mem = PlainMem::new(alloc);
    let mut tree = MemTree::build(rt, alloc, Sha256, &mem)?;
    first_failed_of(rt, alloc, &mut mem, &mut tree, acts)
}

/// The root of a memory of zeros.
const EMPTY: u64 = 0x42cf_a9b6_ff39_0040;

/// Computed by this program in Python:
///
/// ```python
///     from hashlib import sha256
///     leaf = lambda chunk: sha256(b'\0' + bytes(chunk)).digest()
///     node = lambda a, b: sha256(b'\1' + a + b).digest()
///     empty = [leaf(bytes(32))]
///     for level in range(27):
///         empty.append(node(empty[level], empty[level]))
///
///     def root(memory):
///         nodes = {}
///         for address, byte in memory.items():
///             nodes.setdefault(address // 32, bytearray(32))[address % 32] = byte
///         nodes = {k: leaf(chunk) for k, chunk in nodes.items()}
///         for level in range(27):
///             at = lambda k: nodes.get(k, empty[level])
///             nodes = {k // 2: node(at(k & ~1), at(k | 1)) for k in nodes}
///         return nodes.get(0, empty[27])
///
///     for memory in {}, {0: 1}, {0xffffffff: 0xff}, {0x1000: 7, 0x70000000: 9}:
///         print(root(memory).hex()[:16])
/// ```
const ROOTS: [&[Act]; 4] = [
    &[Act::Root(EMPTY)],
    &[Act::Byte(0, 1), Act::Root(0x23b1_1f6d_3ba0_f407)],
    &[
        Act::Byte(0xffff_ffff, 0xff),
        Act::Root(0xd234_c9d9_c27f_443f),
    ],
    &[
        Act::Byte(0x1000, 7),
        Act::Byte(0x7000_0000, 9),
        Act::Root(0xfa77_0ae9_3af5_19f8),
    ],
];

/// Chunks of pages that are kept, and of such as are not, next to these and far from them.
const PATHS: [Act; 15] = [
    Act::Byte(0x0000_0fe0, 1),
    Act::Byte(0x7000_0020, 2),
    Act::Byte(0xffff_ffff, 3),
    Act::Climbs(0x7f),
    Act::Climbs(0),
    Act::Climbs(1),
    Act::Climbs(0x80),
    Act::Climbs(0x100),
    Act::Climbs(0x380_0001),
    Act::Climbs(0x380_0000),
    Act::Climbs(0x37f_ffff),
    Act::Climbs(0x7ff_ffff),
    Act::Climbs(0x7ff_ff80),
    Act::Climbs(0x7ff_ff7f),
    Act::Climbs(0x555_5555),
];

/// A page that is filled with zeros is no longer kept.
const ZEROS: [Act; 9] = [
    Act::Word(0x1234_5678, 0x0403_0201),
    Act::Kept(0x12345),
    Act::Dropped(0x12344),
    Act::Word(0x1234_5678, 0),
    Act::Root(EMPTY),
    Act::Dropped(0x12345),
    Act::Word(0x1234_5678, 0x0403_0201),
    Act::Kept(0x12345),
    Act::Same,
];

/// The first of these lists of acts with an act that doesn't hold on an empty memory, and this act.
fn first_failed_list<R: Threads + Sync>(
    rt: &R,
    alloc: Global,
    lists: &[&[Act]],
) -> Result<Option<(usize, usize)>, Memory> {
    for (list, acts) in lists.iter().enumerate() {
        if let Some(act) = first_failed(rt, alloc, acts)? {
            return Ok(Some((list, act)));
        }
    }
    Ok(None)
}

#[test]
fn roots_are_those_of_the_definition_paths_climb_to_them_and_pages_of_zeros_are_not_kept(
    rt: HostRuntime,
) -> Result<(), Fail> {
    let failed = [
        first_failed_list(&rt, rt.alloc(), &ROOTS)?,
        first_failed_list(&rt, rt.alloc(), &[&PATHS, &ZEROS])?,
    ];
    assert_eq!(rt; failed, [None; 2]);
    Ok(())
}

/// The next of a fixed sequence of numbers that look random (Numerical Recipes' multiplier and increment).
fn next(seed: u32) -> u32 {
    seed.wrapping_mul(1_664_525).wrapping_add(1_013_904_223)
}

/// One of 16 bytes of one of 32 pages, some beside one another and some far apart.
fn address(seed: u32) -> u32 {
    let page = (seed >> 27) % 4 + 0x4000 * ((seed >> 24) % 8);
    4096 * (page % 0x10_0000) + (seed >> 8) % 16
}

/// Whether a tree is that of the memory after a round of stores: after each third one by the path of a chunk, and after each twentieth by
/// its root too.
fn is_right_after<R: Threads + Sync>(
    rt: &R,
    alloc: Global,
    mem: &mut PlainMem,
    tree: &mut MemTree<Sha256>,
    round: u32,
    chunk: u32,
) -> Result<bool, Memory> {
    let last = round % 20 == 19;
    if last && !holds(rt, alloc, mem, tree, Act::Same)? {
        return Ok(false);
    }
    if last || round % 3 == 0 {
        return holds(rt, alloc, mem, tree, Act::Climbs(chunk));
    }
    Ok(true)
}

/// The first of 100 rounds of stores after which the tree isn't that of the memory.
fn first_failed_round_of<R: Threads + Sync>(
    rt: &R,
    alloc: Global,
    mem: &mut PlainMem,
    tree: &mut MemTree<Sha256>,
) -> Result<Option<u32>, Memory> {
    let mut seed = 7;
    for round in 0..100u32 {
        seed = next(seed);
        let addr = address(seed);
        store_byte(mem, tree, addr, (seed >> 16) % 2)?;
        if !is_right_after(rt, alloc, mem, tree, round, addr / 32)? {
            return Ok(Some(round));
        }
    }
    Ok(None)
}

/// The same of rounds on an empty memory.
fn first_failed_round<R: Threads + Sync>(rt: &R, alloc: Global) -> Result<Option<u32>, Memory> {
    let mut mem = PlainMem::new(alloc);
    let mut tree = MemTree::build(rt, alloc, Sha256, &mem)?;
    first_failed_round_of(rt, alloc, &mut mem, &mut tree)
}

#[test]
fn refreshes_between_stores_give_the_tree_of_a_build(rt: HostRuntime) -> Result<(), Fail> {
    assert_eq!(rt; first_failed_round(&rt, rt.alloc())?, None);
    Ok(())
}
