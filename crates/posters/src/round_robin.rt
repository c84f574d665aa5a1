//! Many items served by a few servers, each in a thread of its own: server t of k serves the items whose number leaves t when it is
//! divided by k.
//!
//! A server is handed items of its own class alone, each with its number; what the servers keep of themselves and what serving keeps of the
//! item at each place is afterwards as before. No clause states that a server serves anything, that a second thread ran, or that the
//! servers come to an end. The code shows that each item itself is at its place again, and that no thread is started if there is one
//! server. Nothing here knows what is served, or where.
ghost use Rattle.std.specs.Prelude.{◌≡◌, ℕ, ◌+◌, ◌%◌, ◌^◌, ◌<◌, ◌≤◌, All, [], length, slice_index, map, take, drop};
ghost use Rattle.std.specs.List.{range_with_len};
ghost use Rattle.std.specs.Thread.{IsSync};
ghost use Rattle.posters.specs.Classes.{HaveClasses};
ghost use Rattle.posters.specs.Swaps.{swapped, swapped_back};
ghost use Rattle.posters.specs.ByClass.{IsByClass, Suits};

use std::alloc::{AllocError, Global};
use std::sync::Wait;
use std::thread::{Threads, join_mut};

/// Serves the items of one class at a board. The servers of this crate are its posters: their items are the answerers of the provers, and
/// their board is the hall that they share.
pub trait ClassServer<Board, Item> {
    /// What stays of a server while it serves.
    ghost Kept: { Type 0 };

    /// What stays of an item while it is served.
    ghost Meaning: { Type 0 };

    ghost stays: { Self → Self.Kept };

    ghost meaning: { Item → Self.Meaning };

    /// Which class a server serves.
    ghost class_of: { Self.Kept → ℕ };

    /// A server may serve items at this board whose meanings are the values of this function at their numbers.
    ghost ready: { Board → Self.Kept → (ℕ → Self.Meaning) → Type 0 };

    /// Which class it serves.
    fn class(&self) -> u32
        ensures { result ≡ class_of (stays self.now) };

    /// Serves these items, which have these numbers. Each number is of the server's class, one of `classes`.
    fn serve<R: Threads + Wait + Sync>(
        &mut self,
        rt: &R,
        board: &Board,
        classes: u32,
        numbers: &[u32],
        items: &mut [Item],
    )
        requires sync { IsSync R.row }
        requires ready { (says : ℕ → Self.Meaning) × ready board.now (stays self.old) says × (map meaning items.old ≡ map says numbers.now) }
        requires class { All (λ n. n % classes ≡ class_of (stays self.old)) numbers.now }
        ensures server { stays self.new ≡ stays self.old }
        ensures items { map meaning items.new ≡ map meaning items.old };
}

/// The numbers of items, in the order of their classes.
#[derive(Drop)]
struct Order {
    /// How many classes there are. The class of a number is what it leaves when divided by this.
    classes: u32,
    numbers: Vec<u32>,
}

/// Puts numbers and items into the order of the classes. Swap m changed the places m and `swaps[m]`.
fn arrange<A>(classes: u32, numbers: &mut Vec<u32>, items: &mut [A], swaps: &mut Vec<usize>)
    requires some { 0 < classes }
    requires long { length numbers.old.items ≡ length items.old }
    requires room { (swaps.old.items ≡ []) × (length items.old ≤ swaps.old.cap) }
    ensures few { length swaps.new.items ≤ length items.old }
    ensures places { All (λ j. j < length items.old) swaps.new.items }
    ensures numbers { numbers.new.items ≡ swapped 0 swaps.new.items numbers.old.items }
    ensures items { items.new ≡ swapped 0 swaps.new.items items.old }
    ensures by_class { IsByClass classes numbers.new.items }
{
    for class in 0..classes {
        let mut i = swaps.len();
        while i < items.len() {
            if numbers[i] % classes == class {
                let place = swaps.len();
                numbers.swap(place, i);
                items.swap(place, i);
                swaps.push_reserved(i);
            }
            i += 1;
        }
    }
}

/// Takes the swaps back, the last first.
fn restore<A>(mut swaps: Vec<usize>, items: &mut [A])
    requires few { length swaps.items ≤ length items.old }
    requires places { All (λ j. j < length items.old) swaps.items }
    ensures { items.new ≡ swapped_back 0 swaps.items items.old }
{
    while let Some(j) = swaps.pop() {
        items.swap(swaps.len(), j);
    }
}

/// How many of the first numbers are of a class below this one.
fn count_below(classes: u32, class: u32, numbers: &[u32]) -> usize
    requires some { 0 < classes }
    ensures within { result ≤ length numbers.now }
    ensures below { (j : ℕ) → j < result → slice_index numbers.now j % classes < class }
    ensures at { result < length numbers.now → class ≤ slice_index numbers.now result % classes }
{
    let mut i = 0;
    while i < numbers.len() && numbers[i] % classes < class {
        i += 1;
    }
    i
}

/// The one server that there is serves all these items.
fn serve_alone<Board, Item, Server: ClassServer<Board, Item>, R: Threads + Wait + Sync>(
    rt: &R,
    board: &Board,
    classes: u32,
    numbers: &[u32],
    servers: &mut [Server],
    items: &mut [Item],
)
    requires sync { IsSync R.row }
    requires ready { (says : ℕ → Server.Meaning) × All (λ server. Server.ready board.now (Server.stays server) says) servers.old × (map Server.meaning items.old ≡ map says numbers.now) }
    requires class { All (λ server. All (λ n. n % classes ≡ Server.class_of (Server.stays server)) numbers.now) servers.old }
    ensures servers { map Server.stays servers.new ≡ map Server.stays servers.old }
    ensures items { map Server.meaning items.new ≡ map Server.meaning items.old }
{
    if let Some(server) = servers.first_mut() {
        server.serve(rt, board, classes, numbers, items);
    }
}

/// Each server serves its class in a thread of its own. The numbers from place `from` on are those of the items.
fn serve_classes<
    Board: Sync,
    Item: Send,
    Server: ClassServer<Board, Item> + Send,
    R: Threads + Wait + Sync,
>(rt: &R, board: &Board, order: &Order, from: usize, servers: &mut [Server], items: &mut [Item])
    requires ready { (says : ℕ → Server.Meaning) × All (λ server. Server.ready board.now (Server.stays server) says) servers.old × (map Server.meaning items.old ≡ map says (take (length items.old) (drop from order.now.numbers.items))) }
    requires few { (0 < order.now.classes) × (from + length items.old ≤ length order.now.numbers.items) }
    requires classes { Suits (λ server. Server.class_of (Server.stays server)) order.now.classes order.now.numbers.items from (length items.old) servers.old }
    ensures servers { map Server.stays servers.new ≡ map Server.stays servers.old }
    ensures items { map Server.meaning items.new ≡ map Server.meaning items.old }
{
    let (block, _) = order
        .numbers
        .as_slice()
        .split_at(from)
        .1
        .split_at(items.len());
    if servers.len() < 2 {
        serve_alone(rt, board, order.classes, block, servers, items);
        return;
    }
    let half = servers.len() / 2;
    let place = count_below(order.classes, servers[half].class(), block);
    let next = from + place;
    let (left, right) = servers.split_at_mut(half);
    let (near, far) = items.split_at_mut(place);
    join_mut(
        rt,
        &mut ||
            requires { IsSync R.row × ((says : ℕ → Server.Meaning) × All (λ server. Server.ready board.now (Server.stays server) says) left.now × (map Server.meaning near.now ≡ map says (take (length near.now) (drop from order.now.numbers.items)))) × (0 < order.now.classes) × (from + length near.now ≤ length order.now.numbers.items) × Suits (λ server. Server.class_of (Server.stays server)) order.now.classes order.now.numbers.items from (length near.now) left.now }
            ensures { (map Server.stays left.exit.now ≡ map Server.stays left.entry.now) × (map Server.meaning near.exit.now ≡ map Server.meaning near.entry.now) }
        { serve_classes(rt, board, order, from, left, near) },
        &mut ||
            requires { IsSync R.row × ((says : ℕ → Server.Meaning) × All (λ server. Server.ready board.now (Server.stays server) says) right.now × (map Server.meaning far.now ≡ map says (take (length far.now) (drop next order.now.numbers.items)))) × (0 < order.now.classes) × (next + length far.now ≤ length order.now.numbers.items) × Suits (λ server. Server.class_of (Server.stays server)) order.now.classes order.now.numbers.items next (length far.now) right.now }
            ensures { (map Server.stays right.exit.now ≡ map Server.stays right.entry.now) × (map Server.meaning far.exit.now ≡ map Server.meaning far.entry.now) }
        { serve_classes(rt, board, order, next, right, far) },
    );
}

/// As the code shows, server t of k serves the items t, t + k, t + 2 k and so on, each server in a thread of its own if one can be made.
/// There are fewer than 2^32 items and fewer than 2^32 servers.
///
/// Afterwards each item is at its place again, as far as what serving keeps of an item tells them apart. An `Err` is out of
/// memory; as the code shows, nothing was served then.
pub fn serve_all<
    Board: Sync,
    Item: Send,
    Server: ClassServer<Board, Item> + Send,
    R: Threads + Wait + Sync,
>(
    rt: &R,
    alloc: Global,
    board: &Board,
    servers: &mut [Server],
    items: &mut [Item],
) -> Result<(), AllocError>
    requires ready { (says : ℕ → Server.Meaning) × All (λ server. Server.ready board.now (Server.stays server) says) servers.old × (map Server.meaning items.old ≡ map says (range_with_len 0 (length items.old))) }
    requires classes { HaveClasses (λ server. Server.class_of (Server.stays server)) 0 servers.old }
    requires few { (length items.old < 2 ^ 32) × (length servers.old < 2 ^ 32) }
    ensures servers { map Server.stays servers.new ≡ map Server.stays servers.old }
    ensures items { map Server.meaning items.new ≡ map Server.meaning items.old }
{
    let classes = servers.len() as u32;
    if classes == 0 {
        return Ok(());
    }
    let mut numbers = Vec::with_capacity(alloc, items.len())?;
    let mut swaps = Vec::with_capacity(alloc, items.len())?;
    for number in 0..items.len() as u32 {
        numbers.push_reserved(number);
    }
    arrange(classes, &mut numbers, items, &mut swaps);
    let order = Order { classes, numbers };
    serve_classes(rt, board, &order, 0, servers, items);
    restore(swaps, items);
    Ok(())
}
