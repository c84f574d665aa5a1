//! Tests of the lock.
ghost use Rattle.std.specs.Prelude.{◌≡◌, ◌≤◌, [], length, All, IfOk};

use rd_base::Memory;
use seat_lock::{Job, Logged, Seat, SeatLock};
use std::alloc::Global;
use std::sync::Wait;
use std::test::Fail;
use std::thread;
use std::thread::Threads;

/// How many entries each thread adds.
const EACH: u64 = 1000;

/// A list of numbers, each of them an entry.
#[derive(Drop)]
struct Notes {
    numbers: Vec<u64>,
}

impl Logged for Notes {
    ghost use Rattle.std.specs.Prelude.{map, [], ◌∷◌};

    type Head = ();

    ghost log = { λ notes. map (λ n. n ∷ []) notes.numbers.items };

    ghost head = { λ _. tt };
}

/// Adds a number and answers its place, if there is room.
#[derive(Drop)]
struct Add {
    number: u64,
}

impl Job<Notes> for Add {
    type Out = Option<usize>;

    ghost fits = { λ _ _. Unit {0} };

    ghost does = { λ _ _ _ _. Unit {0} };

    fn act(self, notes: &mut Notes) -> Option<usize> {
        let place = notes.numbers.len();
        if place < notes.numbers.capacity() {
            notes.numbers.push_reserved(self.number);
            Some(place)
        } else {
            None
        }
    }
}

/// Answers how many numbers there are, and adds none.
#[derive(Drop)]
struct Count;

impl Job<Notes> for Count {
    ghost use Rattle.std.specs.Prelude.{◌≡◌, vec_len};

    type Out = usize;

    ghost fits = { λ _ _. Unit {0} };

    ghost does = { λ _ before after count. (after ≡ before) × (count ≡ vec_len before.numbers) };

    fn act(self, notes: &mut Notes) -> usize {
        notes.numbers.len()
    }
}

/// One thread's seat, the first of its numbers, and the places that it was answered.
#[derive(Drop)]
struct Worker {
    seat: Seat<Notes>,
    first: u64,
    places: Vec<usize>,
}

impl Worker {
    /// Adds EACH numbers, one after another.
    fn add_all<R: Wait>(&mut self, rt: &R, lock: &SeatLock<Notes>)
        requires { self.old.seat.lock ≡ lock.now }
        ensures { self.new.seat.lock ≡ lock.now }
    {
        for k in 0..EACH {
            let number = self.first.wrapping_add(k);
            let place = lock.with_turn(rt, &mut self.seat, Add { number });
            if self.places.len() < self.places.capacity() {
                self.places.push_reserved(place.unwrap_or(usize::MAX));
            }
        }
    }
}

/// Splits a seat off for each worker.
fn seat_workers(
    alloc: Global,
    lock: &SeatLock<Notes>,
    seat: &mut Seat<Notes>,
    count: u64,
) -> Result<Vec<Worker>, Memory>
    requires seat { (seat.old.lock ≡ lock.now) × (seat.old.number ≡ 0) × (seat.old.out ≡ 0) }
    requires few { count ≤ 16 }
    ensures seat { IfOk result (λ workers. (seat.new.lock ≡ lock.now) × (seat.new.number ≡ 0) × (seat.new.out ≡ length workers.items)) }
    ensures workers { IfOk result (λ workers. All (λ w. w.seat.lock ≡ lock.now) workers.items) }
{
    let mut workers = Vec::with_capacity(alloc, count as usize)?;
    for number in 0..count {
        let places = Vec::with_capacity(alloc, EACH as usize)?;
        let seat = lock.split(seat);
        workers.push_reserved(Worker {
            seat,
            first: number * EACH,
            places,
        });
    }
    Ok(workers)
}

/// Joins the seats in again, the last first. The result is what each worker was answered.
fn join_workers(
    alloc: Global,
    lock: &SeatLock<Notes>,
    seat: &mut Seat<Notes>,
    mut workers: Vec<Worker>,
) -> Result<Vec<(u64, Vec<usize>)>, Memory>
    requires seat { (seat.old.lock ≡ lock.now) × (seat.old.number ≡ 0) × (seat.old.out ≡ length workers.items) }
    requires workers { All (λ w. w.seat.lock ≡ lock.now) workers.items }
    ensures { IfOk result (λ _. (seat.new.lock ≡ lock.now) × (seat.new.number ≡ 0) × (seat.new.out ≡ 0)) }
{
    let mut answers = Vec::new(alloc);
    while let Some(worker) = workers.pop() {
        let Worker {
            seat: other,
            first,
            places,
        } = worker;
        lock.join(seat, other);
        answers.push((first, places))?;
    }
    Ok(answers)
}

/// Threads add their numbers, each by a seat of its own, and for each of them comes back the first of its numbers and the places that it
/// was answered.
fn add_by_turns<R: Threads + Wait + Sync>(
    rt: &R,
    alloc: Global,
    lock: &SeatLock<Notes>,
    seat: &mut Seat<Notes>,
    threads: u64,
) -> Result<Vec<(u64, Vec<usize>)>, Memory>
    requires seat { (seat.old.lock ≡ lock.now) × (seat.old.number ≡ 0) × (seat.old.out ≡ 0) }
    requires few { threads ≤ 16 }
    ensures { IfOk result (λ _. (seat.new.lock ≡ lock.now) × (seat.new.number ≡ 0) × (seat.new.out ≡ 0)) }
{
    let mut workers = seat_workers(alloc, lock, seat, threads)?;
    thread::for_each_mut(
        rt,
        workers.as_mut_slice(),
        16,
        &|_, worker| worker.add_all(rt, lock),
    );
    join_workers(alloc, lock, seat, workers)
}

/// What the threads leave, and for each of them the first of its numbers and the places that it was answered.
fn added_by<R: Threads + Wait + Sync>(
    rt: &R,
    alloc: Global,
    threads: u64,
) -> Result<(Notes, Vec<(u64, Vec<usize>)>), Memory>
    requires { threads ≤ 16 }
{
    let numbers = Vec::with_capacity(alloc, (threads * EACH) as usize)?;
    let (lock, mut seat) = SeatLock::new(alloc, Notes { numbers })?;
    match add_by_turns(rt, alloc, &lock, &mut seat, threads) {
        Ok(answers) => Ok((lock.close(seat), answers)),
        Err(memory) => {
            drop(lock);
            drop(seat);
            Err(memory)
        }
    }
}

/// How many different places these threads were answered if each has its numbers at its places, one after another, and each place comes
/// behind the one before; and how many entries there are.
fn places_of<R: Threads + Wait + Sync>(
    rt: &R,
    alloc: Global,
    threads: u64,
) -> Result<Option<(usize, usize)>, Memory>
    requires { threads ≤ 16 }
{
    let (notes, answers) = added_by(rt, alloc, threads)?;
    let mut answered = Vec::new(alloc);
    for (first, places) in answers.iter() {
        for (place, number) in places.iter().zip(*first..) {
            if notes.numbers.get(*place) != Some(&number) {
                return Ok(None);
            }
        }
        if places.len() != EACH as usize || !places.is_sorted() {
            return Ok(None);
        }
        answered.extend_from_slice(places)?;
    }
    answered.sort_unstable();
    answered.dedup();
    Ok(Some((answered.len(), notes.numbers.len())))
}

#[test]
fn each_entry_stands_once_at_the_place_answered_and_in_its_threads_order(
    rt: HostRuntime,
) -> Result<(), Fail> {
    for (threads, count) in [(2, 2_000), (16, 16_000)] {
        let places = places_of(&rt, rt.alloc(), threads)?;
        assert!(rt; places == Some((count, count)), "{threads}");
    }
    Ok(())
}

/// What turns, a split, a join and an idle turn answer, and the numbers that are left.
type Turns = ([Option<usize>; 4], usize, Notes);

fn turns_of_two<R: Wait>(rt: &R, alloc: Global) -> Result<Turns, Memory> {
    let numbers = Vec::with_capacity(alloc, 3)?;
    let (lock, mut a) = SeatLock::new(alloc, Notes { numbers })?;
    let first = lock.with_turn(rt, &mut a, Add { number: 70 });
    let mut b = lock.split(&mut a);
    let second = lock.with_turn(rt, &mut b, Add { number: 80 });
    lock.join(&mut a, b);
    let count = lock.with_turn(rt, &mut a, Count);
    let third = lock.with_turn(rt, &mut a, Add { number: 90 });
    let fourth = lock.with_turn(rt, &mut a, Add { number: 95 });
    let places = [first, second, third, fourth];
    Ok((places, count, lock.close(a)))
}

/// What the turns of four seats answer, in their order, and the numbers that are left.
fn turns_of_four<R: Wait>(rt: &R, alloc: Global) -> Result<([Option<usize>; 5], Notes), Memory> {
    let numbers = Vec::with_capacity(alloc, 6)?;
    let (lock, mut a) = SeatLock::new(alloc, Notes { numbers })?;
    let mut b = lock.split(&mut a);
    let mut c = lock.split(&mut a);
    let first = lock.with_turn(rt, &mut c, Add { number: 3 });
    let second = lock.with_turn(rt, &mut b, Add { number: 2 });
    lock.join(&mut a, b);
    let mut d = lock.split(&mut a);
    let third = lock.with_turn(rt, &mut d, Add { number: 4 });
    let fourth = lock.with_turn(rt, &mut c, Add { number: 5 });
    lock.join(&mut a, d);
    let fifth = lock.with_turn(rt, &mut a, Add { number: 1 });
    lock.join(&mut a, c);
    let places = [first, second, third, fourth, fifth];
    Ok((places, lock.close(a)))
}

/// Of two seats an idle turn answers from the value, and the last turn finds no room. Four seats are split off and joined in another order.
#[test]
fn seats_that_are_split_off_and_joined_add_in_the_order_of_their_turns(
    rt: HostRuntime,
) -> Result<(), Fail> {
    let (places, count, notes) = turns_of_two(&rt, rt.alloc())?;
    let are_two = places == [Some(0), Some(1), Some(2), None]
        && count == 2
        && notes.numbers.as_slice() == [70, 80, 90].as_slice();
    assert!(rt; are_two);
    let (places, notes) = turns_of_four(&rt, rt.alloc())?;
    let are_four = places == [Some(0), Some(1), Some(2), Some(3), Some(4)]
        && notes.numbers.as_slice() == [3, 2, 4, 5, 1].as_slice();
    assert!(rt; are_four);
    Ok(())
}
