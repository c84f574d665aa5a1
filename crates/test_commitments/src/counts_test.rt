//! How many digests are made for the trees of memory and of registers.
ghost use Rattle.std.specs.Prelude.{◌≡◌, ◌+◌, ◌≤◌, []};

use crate::registers_and_input_test::{bytes_of_numbers, one_register};
use crate::trees_test::store_byte;
use digest_core::{Digester, Sha256};
use mem_plain::PlainMem;
use mem_tree::{MemTree, RegTree};
use rd_base::{Memory, Regs, Steps};
use state_commit::KeptRegisters;
use std::alloc::Global;
use std::sync::atomic::{AtomicU64, Ordering};
use std::sync::ledger::Ledger;
use std::test::Fail;
use std::thread::Threads;
use toy_machine::Tally;

/// Bytes that are stored, and how many digests the refresh then takes.
#[derive(Clone, Copy)]
struct Stores {
    /// The address of each, and the byte.
    bytes: &'static [(u32, u32)],
    digests: u64,
}

/// An empty tree takes 28 digests, one for each level. A page with one chunk takes one for it, 7 for the nodes over it in the page and
/// 20 for the nodes above. A page of zeros takes none, and none above it, once no page below them holds a byte other than 0.
const PAGES_OF_ZEROS: [Stores; 7] = [
    Stores {
        bytes: &[],
        digests: 28,
    },
    Stores {
        bytes: &[(0x1234_5678, 1)],
        digests: 28,
    },
    Stores {
        bytes: &[(0x1234_5678, 0)],
        digests: 0,
    },
    Stores {
        bytes: &[(0x1234_5678, 0)],
        digests: 0,
    },
    Stores {
        bytes: &[(0x1234_5678, 0x80)],
        digests: 28,
    },
    // the page beside it; and once that holds zeros again, the nodes above the two pages
    Stores {
        bytes: &[(0x1234_4000, 7)],
        digests: 28,
    },
    Stores {
        bytes: &[(0x1234_4000, 0)],
        digests: 20,
    },
];

/// A refresh digests the chunks that differ from those that are kept, and each node above one of them once: of a store to one chunk
/// 28, of two stores that leave the chunk as it was none, of the first and the last chunk of a page 2 leaves, 12 nodes below the page's
/// root, this and the 20 above it; and the nodes above several pages once.
const CHUNKS: [Stores; 8] = [
    Stores {
        bytes: &[],
        digests: 28,
    },
    Stores {
        bytes: &[(0x7000, 1)],
        digests: 28,
    },
    Stores {
        bytes: &[(0x7000, 1)],
        digests: 0,
    },
    Stores {
        bytes: &[(0x7000, 2), (0x7000, 1)],
        digests: 0,
    },
    Stores {
        bytes: &[(0x7000, 3), (0x7001, 3)],
        digests: 28,
    },
    Stores {
        bytes: &[(0x7000, 4), (0x7fff, 4)],
        digests: 35,
    },
    // pages 7 and 8, each with 8 digests of its own; they meet four levels up, so that 6 nodes of the three levels below stand above
    // one of them, and 17 above both
    Stores {
        bytes: &[(0x7000, 5), (0x8000, 5)],
        digests: 39,
    },
    // pages 2 and 3, which have their 20 nodes above in common
    Stores {
        bytes: &[(0x2000, 5), (0x3000, 5)],
        digests: 36,
    },
];

/// Stores bytes, and refreshes the tree.
fn store_all<D: Digester>(
    tree: &mut MemTree<D>,
    mem: &mut PlainMem,
    stores: &[(u32, u32)],
) -> Result<(), Memory> {
    for (addr, byte) in stores {
        store_byte(mem, tree, *addr, *byte)?;
    }
    tree.refresh(mem)
}

/// The first row of stores that takes another number of digests; all that are made so far count for the first row.
fn first_other<D: Digester>(
    tree: &mut MemTree<D>,
    mem: &mut PlainMem,
    made: &AtomicU64,
    rows: &[Stores],
) -> Result<Option<usize>, Memory> {
    let mut before = 0;
    for (place, row) in rows.iter().enumerate() {
        store_all(tree, mem, row.bytes)?;
        let after = made.load(Ordering::SeqCst);
        if after.wrapping_sub(before) != row.digests {
            return Ok(Some(place));
        }
        before = after;
    }
    Ok(None)
}

/// The same of a tree of an empty memory, whose build counts.
fn first_other_count<R: Threads + Sync>(
    rt: &R,
    alloc: Global,
    rows: &[Stores],
) -> Result<Option<usize>, Memory> {
    let made = AtomicU64::new(0);
    let counted = Tally {
        of: Sha256,
        made: &made,
    };
    let mut mem = PlainMem::new(alloc);
    let mut tree = MemTree::build(rt, alloc, counted, &mem)?;
    first_other(&mut tree, &mut mem, &made, rows)
}

#[test]
fn a_refresh_digests_changed_chunks_and_the_nodes_above(rt: HostRuntime) -> Result<(), Fail> {
    let others = [
        first_other_count(&rt, rt.alloc(), &PAGES_OF_ZEROS)?,
        first_other_count(&rt, rt.alloc(), &CHUNKS)?,
    ];
    assert_eq!(rt; others, [None; 2]);
    Ok(())
}

/// Its clauses are the test: two touched pages take at most 550 digests, however often they are touched.
fn refresh_two_pages<D: Digester, L: Ledger>(
    tree: &mut MemTree<D>,
    mem: &PlainMem,
    steps: &mut Steps<L>,
) -> Result<(), Memory>
    requires { tree.old.touched ≡ [] }
    ensures { steps.new ≤ steps.old + 550 }
{
    tree.touch(0x12345)?;
    tree.touch(0x7)?;
    tree.touch(0x12345)?;
    tree.refresh_counted(mem, steps)
}

/// And no touched page takes none.
fn refresh_no_page<D: Digester, L: Ledger>(
    tree: &mut MemTree<D>,
    mem: &PlainMem,
    steps: &mut Steps<L>,
) -> Result<(), Memory>
    requires { tree.old.touched ≡ [] }
    ensures { steps.new ≤ steps.old }
{
    tree.refresh_counted(mem, steps)
}

/// How many digests a tree of registers makes after another one.
fn digests_between(before: Regs, after: Regs) -> u64 {
    let made = AtomicU64::new(0);
    let counted = Tally {
        of: Sha256,
        made: &made,
    };
    let mut tree = RegTree::new(counted, &before);
    let first = made.load(Ordering::SeqCst);
    tree.refresh(&after);
    made.load(Ordering::SeqCst).wrapping_sub(first)
}

/// A leaf has five nodes above it; two leaves share those above both.
#[test]
fn leaves_that_differ_and_the_nodes_above_are_digested(rt: HostRuntime) {
    let zeros = Regs::new();
    let made = [
        digests_between(zeros, zeros),
        digests_between(zeros, one_register(5, 1)),
        digests_between(one_register(5, 1), one_register(5, 2)),
        // neighbours, and the two halves
        digests_between(one_register(2, 1), one_register(3, 1)),
        digests_between(one_register(1, 1), one_register(31, 1)),
        // all but x0, which has a leaf of its own
        digests_between(zeros, bytes_of_numbers()),
    ];
    assert_eq!(rt; made, [0, 6, 6, 7, 11, 62]);
}

/// How many digests the digest of registers takes that differ in one from those before.
fn digests_of_one_change(version: u32) -> u64 {
    let made = AtomicU64::new(0);
    let counted = Tally {
        of: Sha256,
        made: &made,
    };
    let mut kept = KeptRegisters::new(counted, version, &bytes_of_numbers());
    kept.digest(&one_register(7, 1));
    let first = made.load(Ordering::SeqCst);
    kept.digest(&one_register(7, 2));
    made.load(Ordering::SeqCst).wrapping_sub(first)
}

/// In version 1 the string of all registers, and above it a leaf and five nodes.
#[test]
fn one_changed_register_takes_its_leaf_and_five_nodes(rt: HostRuntime) {
    let made = [
        digests_of_one_change(1),
        digests_of_one_change(2),
        digests_of_one_change(3),
    ];
    assert_eq!(rt; made, [1, 6, 6]);
}
