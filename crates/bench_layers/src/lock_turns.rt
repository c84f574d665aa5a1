//! The subject `lock`: many threads add to one counter under a lock, one a turn. Its numbers are how many threads there are, at most 16,
//! and how many turns each takes. `bench/lock` measures it.
ghost use Rattle.std.specs.Prelude.{◌≡◌, ◌≤◌, All, IfOk};

use rd_base::Memory;
use seat_lock::{Job, Logged, Seat, SeatLock};
use std::alloc::Global;
use std::sync::Wait;
use std::thread;
use std::thread::Threads;

/// The most threads that there may be.
const MOST: u64 = 16;

/// What the threads add to. It has no entries.
#[derive(Drop)]
struct Counter {
    count: u64,
}

impl Logged for Counter {
    ghost use Rattle.std.specs.Prelude.{[]};

    type Head = ();

    ghost log = { λ _. [] };

    ghost head = { λ _. tt };
}

/// Adds a number, and answers the count.
#[derive(Drop)]
struct Add {
    number: u64,
}

impl Job<Counter> for Add {
    type Out = u64;

    ghost fits = { λ _ _. Unit {0} };

    ghost does = { λ _ _ _ _. Unit {0} };

    fn act(self, counter: &mut Counter) -> u64 {
        counter.count = counter.count.wrapping_add(self.number);
        counter.count
    }
}

/// One thread's seat, and how many turns it takes.
#[derive(Drop)]
struct Worker {
    seat: Seat<Counter>,
    turns: u64,
}

impl Worker {
    fn take_turns<R: Wait>(&mut self, rt: &R, lock: &SeatLock<Counter>)
        requires { self.old.seat.lock ≡ lock.now }
    {
        for _ in 0..self.turns {
            lock.with_turn(rt, &mut self.seat, Add { number: 1 });
        }
    }
}

/// Splits a seat off for each worker.
fn seat_workers(
    alloc: Global,
    lock: &SeatLock<Counter>,
    seat: &mut Seat<Counter>,
    threads: u64,
    turns: u64,
) -> Result<Vec<Worker>, Memory>
    requires seat { (seat.old.lock ≡ lock.now) × (seat.old.number ≡ 0) × (seat.old.out ≡ 0) }
    requires few { threads ≤ 16 }
    ensures seat { IfOk result (λ _. seat.new.lock ≡ lock.now) }
    ensures workers { IfOk result (λ workers. All (λ w. w.seat.lock ≡ lock.now) workers.items) }
{
    let mut workers = Vec::with_capacity(alloc, threads as usize)?;
    for _ in 0..threads {
        let seat = lock.split(seat);
        workers.push_reserved(Worker { seat, turns });
    }
    Ok(workers)
}

/// The counter's number after all turns.
fn count<R: Threads + Wait + Sync>(
    rt: &R,
    alloc: Global,
    threads: u64,
    turns: u64,
) -> Result<u64, Memory>
    requires { threads ≤ 16 }
{
    let (lock, mut seat) = SeatLock::new(alloc, Counter { count: 0 })?;
    let mut workers = seat_workers(alloc, &lock, &mut seat, threads, turns)?;
    thread::for_each_mut(
        rt,
        workers.as_mut_slice(),
        16,
        &|_, worker| worker.take_turns(rt, &lock),
    );
    Ok(lock.with_turn(rt, &mut seat, Add { number: 0 }))
}

/// The counter's number after all turns, as a line. `None` if the words don't begin with the subject's numbers, or memory ran out.
pub fn line<R: Threads + Wait + Sync>(rt: &R, alloc: Global, words: &[String]) -> Option<String> {
    let threads = words.first()?.as_str().parse::<u64>().ok()?;
    let turns = words.get(1)?.as_str().parse::<u64>().ok()?;
    if threads > MOST {
        return None;
    }
    let count = count(rt, alloc, threads, turns).ok()?;
    format!(in alloc; "{count}\n").ok()
}
