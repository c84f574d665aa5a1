//! The lock and its seats.
ghost use Rattle.std.specs.Prelude.{◌≡◌, ◌↔◌, ◌+◌, ◌-◌, ◌*◌, ◌^◌, ◌<◌, ◌≤◌, [], ◌∷◌, length, min, Some, IfSome, IsNone, MatchBool};
ghost use Rattle.std.specs.List.{All};
ghost use Rattle.seat_lock.specs.History.{History, log_of, Begins, NoneTwice};
ghost use Rattle.seat_lock.specs.Seats.{IfMade, AreEachOnce, first_seat, after_split, split_off, after_join};
ghost use Rattle.seat_lock.specs.Turned.{Turned};
ghost use Rattle.seat_lock.specs.Views.{view_of, lent_to, WaitsFor, InTurn, IsAtRest, StillWaits, BeginsTurn, EndsTurn, with_ticket};

use crate::logged::{Job, Logged};
use crate::view::{DrawTicket, EndTurn, JoinIn, LockRule, LookAtServed, SplitOff, View};
use atomic_table::Table;
use rd_base::Memory;
use std::alloc::Global;
use std::marker::Model;
use std::snapshot::Snapshot;
use std::sync::Wait;
use std::thread;
use std::time::Duration;

/// The word of the table that holds the next ticket.
const TICKET: usize = 0;

/// The word of the table that holds the number served.
const SERVING: usize = 1;

/// The slot of the table, which holds the value.
const VALUE: usize = 0;

/// How often a waiter looks at the number served before it lets another thread run.
const LOOKS: u32 = 64;

/// A waiter with more turns than this ahead of its own sleeps.
const MOST_AWAKE: u64 = 2;

/// For how long a waiter sleeps for each turn ahead of its own, in microseconds.
const SLEEP_FOR_EACH_TURN: u64 = 10;

/// The longest that a waiter sleeps at a time, in microseconds, however many turns are ahead of its own. Turns go by ticket, so one that
/// sleeps past its own turn holds up all behind it, for about this long at most.
const LONGEST_SLEEP: u64 = 1_000;

type LockTable<T> = Table<Option<T>, View<<T as Logged>::Head>, Snapshot<T>, LockRule, Global>;

type TableSeat<T> = atomic_table::Seat<Option<T>, View<<T as Logged>::Head>>;

/// A value that seats take turns with, shared by reference. Contracts see which lock it is.
#[derive(Drop)]
pub struct SeatLock<T: Logged> {
    table: Table<Option<T>, View<T::Head>, Snapshot<T>, LockRule, Global>,
}

impl<T: Logged> Model for SeatLock<T> {
    ghost use Rattle.std.specs.Prelude.{◌≡◌};
    ghost use Rattle.seat_lock.specs.Seats.{LockId};

    ghost Value = { LockId };

    ghost view = { λ lock. lock.table.shared.table_id };

    ghost invariant = { λ lock. (lock.table.shared.table_id.words ≡ 2) × (lock.table.shared.table_id.slots ≡ 1) };
}

/// A seat at a lock, to take turns with. It has no bytes. Contracts see what it knows.
///
/// A seat that is dropped stays out: the lock can then only be dropped, and not be closed.
#[derive(Drop)]
pub struct Seat<T: Logged> {
    raw: atomic_table::Seat<Option<T>, View<T::Head>>,
}

impl<T: Logged> Model for Seat<T> {
    ghost use Rattle.seat_lock.specs.Seats.{Known};
    ghost use Rattle.seat_lock.specs.Views.{known, IsAtRest};

    ghost Value = { Known T.Head };

    ghost view = { λ seat. known seat.raw };

    ghost invariant = { λ seat. IsAtRest seat.raw };
}

/// Draws the next ticket.
fn draw_ticket<T: Logged>(table: &LockTable<T>, seat: &mut TableSeat<T>) -> u64
    requires lock { (seat.old.table_id ≡ table.now.shared.table_id) × (table.now.shared.table_id.words ≡ 2) }
    requires rest { IsAtRest seat.old }
    ensures same { (seat.new.table_id ≡ seat.old.table_id) × (seat.new.id ≡ seat.old.id) }
    ensures drawn { seat.new.me ≡ (with_ticket result (view_of seat.old.me), []) }
{
    table.shared.fetch_add::<DrawTicket>(seat, TICKET, 1)
}

/// Looks at the number served a few times, until it is the seat's ticket. The result is whether it is: then the seat's turn has begun.
fn look_for_turn<T: Logged>(table: &LockTable<T>, seat: &mut TableSeat<T>, ticket: u64) -> bool
    requires lock { (seat.old.table_id ≡ table.now.shared.table_id) × (table.now.shared.table_id.words ≡ 2) }
    requires waits { WaitsFor ticket seat.old.me }
    ensures same { (seat.new.table_id ≡ seat.old.table_id) × (seat.new.id ≡ seat.old.id) }
    ensures begins { MatchBool result (BeginsTurn T.head T.log seat.old.me ticket seat.new.me) (StillWaits ticket seat.old.me seat.new.me) }
{
    for _ in 0..LOOKS {
        if table.shared.load::<LookAtServed>(seat, SERVING) == ticket {
            return true;
        }
    }
    false
}

/// For how long a waiter sleeps at a time, in microseconds, by its ticket and the number served: 10 for each turn ahead of its own, and at
/// most 1,000. With at most two turns ahead it stays awake, which is `None`.
fn sleep_for(ticket: u64, served: u64) -> Option<u64>
    ensures awake { IsNone result ↔ (ticket - served ≤ 2) }
    ensures asleep { IfSome result (λ time. time ≡ min (ticket - served) 100 * 10) }
{
    let ahead = ticket.saturating_sub(served);
    if ahead <= MOST_AWAKE {
        return None;
    }
    Some(ahead.min(LONGEST_SLEEP / SLEEP_FOR_EACH_TURN) * SLEEP_FOR_EACH_TURN)
}

/// Lets other threads run. With many turns ahead of its ticket the caller sleeps for about as long as they take, so that few threads look
/// at the number served at a time. Nobody has to wake it.
fn stand_back<T: Logged, R: Wait>(rt: &R, table: &LockTable<T>, ticket: u64)
    requires lock { table.now.shared.table_id.words ≡ 2 }
{
    let words = &table.shared;
    let served = words.peek(SERVING);
    match sleep_for(ticket, served) {
        Some(time) => {
            words.park_timeout(
                rt,
                SERVING,
                (served & 0xffff_ffff) as u32,
                Duration::from_micros(time),
            );
        }
        None => thread::yield_now(),
    }
}

/// Waits until the number served is the seat's ticket. The seat has the slot then.
fn wait_for_turn<T: Logged, R: Wait>(
    rt: &R,
    table: &LockTable<T>,
    seat: &mut TableSeat<T>,
    ticket: u64,
)
    requires lock { (seat.old.table_id ≡ table.now.shared.table_id) × (table.now.shared.table_id.words ≡ 2) }
    requires waits { WaitsFor ticket seat.old.me }
    ensures same { (seat.new.table_id ≡ seat.old.table_id) × (seat.new.id ≡ seat.old.id) }
    ensures begins { BeginsTurn T.head T.log seat.old.me ticket seat.new.me }
{
    for _ in rt.forever() {
        if look_for_turn(table, seat, ticket) {
            return;
        }
        stand_back(rt, table, ticket);
    }
    unreachable!()
}

/// Does the job on the value in the slot, which the seat has, and ends the turn.
fn act_in_turn<T: Logged, J: Job<T>>(
    table: &LockTable<T>,
    seat: &mut TableSeat<T>,
    job: J,
) -> J::Out
    requires lock { (seat.old.table_id ≡ table.now.shared.table_id) × (table.now.shared.table_id.words ≡ 2) }
    requires turn { InTurn (view_of seat.old.me) }
    requires value { (x : T) × (lent_to seat.old.me ≡ (0, Some x) ∷ []) × J.fits job (T.head x) × ((view_of seat.old.me).head ≡ Some (T.head x)) × (T.log x ≡ log_of (view_of seat.old.me).seen) }
    ensures same { (seat.new.table_id ≡ seat.old.table_id) × (seat.new.id ≡ seat.old.id) }
    ensures acted { (x : T) × (y : T) × (lent_to seat.old.me ≡ (0, Some x) ∷ []) × J.does job x y result × (T.head y ≡ T.head x) × EndsTurn T.log seat.old.me y seat.new.me }
    ensures none_twice { NoneTwice (view_of seat.new.me).receipts }
{
    let words = &table.shared;
    let mut value = match words.exchange(seat, VALUE, None) {
        Some(value) => value,
        None => unreachable!(),
    };
    let out = job.act(&mut value);
    match words.exchange(seat, VALUE, Some(value)) {
        None => {}
        Some(_) => unreachable!(),
    }
    words.fetch_add::<EndTurn>(seat, SERVING, 1);
    out
}

impl<T: Logged> SeatLock<T> {
    /// A lock over the value, and its first seat, which has seen the value's log.
    ///
    /// An `Err` is out of memory, and drops the value.
    pub fn new(alloc: Global, value: T) -> Result<(SeatLock<T>, Seat<T>), Memory>
    where
        T: Drop,
        ensures { IfMade result (λ lock seat. seat ≡ first_seat lock (T.head value) (T.log value)) }
    {
        let about = Snapshot::of(&value);
        let mut slots = Vec::with_capacity(alloc, 1)?;
        slots.push_reserved(Some(value));
        match Table::new(alloc, &[0, 0], slots, &about) {
            Ok((table, raw)) => Ok((SeatLock { table }, Seat { raw })),
            Err(_) => Err(Memory),
        }
    }

    /// Waits for a turn of the seat, does the job on the value, and answers what the job answers. It takes one turn, no more.
    ///
    /// The job may rest on all that is known of the seat's head.
    pub fn with_turn<R: Wait, J: Job<T>>(&self, rt: &R, seat: &mut Seat<T>, job: J) -> J::Out
        requires lock { seat.old.lock ≡ self.now }
        requires fits { (head : T.Head) → seat.old.head ≡ Some head → J.fits job head }
        ensures { (found : T) × (left : T) × J.does job found left result × Turned T.head T.log seat.old found left seat.new }
    {
        let raw = &mut seat.raw;
        let ticket = draw_ticket(&self.table, raw);
        wait_for_turn(rt, &self.table, raw, ticket);
        act_in_turn(&self.table, raw, job)
    }

    /// Splits a seat off the first one, of which fewer than 2^64 - 2 are out. It has seen the same, and has no receipts. It takes no memory.
    pub fn split(&self, seat: &mut Seat<T>) -> Seat<T>
        requires lock { seat.old.lock ≡ self.now }
        requires first { seat.old.number ≡ 0 }
        requires few { seat.old.out + 2 < 2 ^ 64 }
        ensures first { seat.new ≡ after_split seat.old }
        ensures other { result ≡ split_off seat.old result.number }
    {
        let raw = self.table.shared.split_seat::<SplitOff>(&mut seat.raw);
        Seat { raw }
    }

    /// Joins a seat that was split off into the first one, which takes its receipts behind its own.
    pub fn join(&self, seat: &mut Seat<T>, other: Seat<T>)
        requires lock { (seat.old.lock ≡ self.now) × (other.lock ≡ self.now) }
        requires first { seat.old.number ≡ 0 }
        ensures { seat.new ≡ after_join seat.old other }
    {
        let Seat { raw } = other;
        self.table.shared.join_seat::<JoinIn>(&mut seat.raw, raw);
    }

    /// The value, once every seat that was split off the first one is joined in again. Its head is the seat's, and its log begins with all
    /// that the seat, and each seat joined into it, had seen.
    ///
    /// The seat has the receipts of all seats then. No place is in them twice, and each is a place of the log (`receipts`). They are the
    /// places of all entries that the log gained since `new`, each once, so that each of these entries was added in a turn (`added`).
    pub fn close(self, seat: Seat<T>) -> T
        requires lock { seat.lock ≡ self }
        requires first { seat.number ≡ 0 }
        requires none_out { seat.out ≡ 0 }
        ensures head { seat.head ≡ Some (T.head result) }
        ensures history { (history : History) × (T.log result ≡ log_of history) × Begins seat.seen history × All (λ seen. Begins seen history) seat.joined }
        ensures log { Begins (log_of seat.seen) (T.log result) × All (λ seen. Begins (log_of seen) (T.log result)) seat.joined }
        ensures receipts { NoneTwice seat.receipts × All (λ place. place < length (T.log result)) seat.receipts }
        ensures added { AreEachOnce seat.began (length (T.log result)) seat.receipts }
    {
        let SeatLock { table } = self;
        let Seat { raw } = seat;
        let mut closed = table.close_with(raw);
        let value = closed.take(VALUE);
        closed.free();
        match value {
            Some(value) => value,
            None => unreachable!(),
        }
    }
}
