//! The board of many tasks, and its seats.
ghost use Rattle.std.specs.Prelude.{◌≡◌, ◌+◌, ◌^◌, ◌<◌, length, List, Some};
ghost use Rattle.std.specs.List.{All};
ghost use Rattle.seat_lock.specs.History.{log_of, Begins, NoneTwice};
ghost use Rattle.seat_lock.specs.Seats.{IfMade, AreEachOnce, first_seat, after_split, split_off, after_join};
ghost use Rattle.board_book.specs.declared.book.Opening.{Opening};
ghost use Rattle.tournament.specs.Posting.{answer_of};
ghost use Rattle.board_book.specs.Tasks.{openings, tasks_of_openings};
ghost use Rattle.dispute_board.specs.OneHistory.{log_of_journal, MayPostFor, IsThere, AsksOnBoard, PostsOnBoard};

use crate::turns::{Asking, Locked, Posted, Posting};
use bisect_game::{Judge, Provers};
use board_book::{Ask, Books};
use rd_base::{Memory, Qid};
use seat_lock::SeatLock;
use std::alloc::Global;
use std::marker::Model;
use std::sync::Wait;
use tournament::Move;

/// A seat at the board of many tasks, to ask and post with. It has no bytes. Contracts see the openings of the tasks' books (`head`), what
/// the seat has seen of the journal of all tasks, and the places of its own posts there (`receipts`).
///
/// A seat that is dropped stays out: the board can then only be dropped.
pub type TaskSeat<J, P> = seat_lock::Seat<Locked<J, P>>;

/// The books of many tasks under one lock, which threads share by reference. Contracts see which lock it is.
#[derive(Drop)]
pub struct TaskBoard<J: Judge + Drop, P: Provers + Drop> {
    lock: SeatLock<Locked<J, P>>,
}

impl<J: Judge + Drop, P: Provers + Drop> Model for TaskBoard<J, P> {
    ghost use Rattle.seat_lock.specs.Seats.{LockId};

    ghost Value = { LockId };

    ghost view = { λ board. board.lock };
}

impl<J: Judge + Drop, P: Provers + Drop> TaskBoard<J, P> {
    /// A board over the books, and its first seat, which has seen their journal. An `Err` is out of memory; the books are then
    /// dropped.
    pub fn new(
        alloc: Global,
        books: Books<J, P>,
    ) -> Result<(TaskBoard<J, P>, TaskSeat<J, P>), Memory>
        ensures { IfMade result (λ board seat. seat ≡ first_seat board (openings books.books) (log_of_journal books.journal)) }
    {
        let (lock, seat) = SeatLock::new(alloc, Locked { books })?;
        Ok((TaskBoard { lock }, seat))
    }

    /// Asks in one turn what prover `p` of task `t` is asked. The answer is that of the task's book at that point of the journal,
    /// which the task's own entries decide.
    pub fn ask<R: Wait>(&self, rt: &R, seat: &mut TaskSeat<J, P>, t: u32, p: u32) -> Ask
        requires lock { seat.old.lock ≡ self.now }
        requires there { (heads : List (Opening J.Names P.Names)) → seat.old.head ≡ Some heads → IsThere (tasks_of_openings J.ruling P.says heads) t p }
        ensures { (heads : List (Opening J.Names P.Names)) × (seat.old.head ≡ Some heads) × AsksOnBoard (tasks_of_openings J.ruling P.says heads) seat.old t p result seat.new }
    {
        self.lock.with_turn(rt, seat, Asking { t, p })
    }

    /// Posts in one turn a move of prover `p` of task `t` on the question of this number.
    ///
    /// If the task's case asks the prover a question of that number, the move is what the prover says to it after some number of
    /// passes. The reply is that of the task's book if the prover says this move after the passes at that point, and else
    /// `Stale` with the open question, if there is one, and nothing changes. No other task changes.
    pub fn post<R: Wait>(
        &self,
        rt: &R,
        seat: &mut TaskSeat<J, P>,
        t: u32,
        p: u32,
        qid: Qid,
        turn: Move,
    ) -> Posted
        requires lock { seat.old.lock ≡ self.now }
        requires there { (heads : List (Opening J.Names P.Names)) → seat.old.head ≡ Some heads → IsThere (tasks_of_openings J.ruling P.says heads) t p }
        requires may { (heads : List (Opening J.Names P.Names)) → seat.old.head ≡ Some heads → MayPostFor (tasks_of_openings J.ruling P.says heads) t p qid (answer_of turn) }
        ensures { (heads : List (Opening J.Names P.Names)) × (seat.old.head ≡ Some heads) × PostsOnBoard (tasks_of_openings J.ruling P.says heads) seat.old t p qid (answer_of turn) result seat.new }
    {
        self.lock.with_turn(rt, seat, Posting { t, p, qid, turn })
    }

    /// Splits a seat off the first one, of which fewer than 2^64 - 2 are out. It has seen the same and has no receipts. It takes no memory.
    pub fn split(&self, seat: &mut TaskSeat<J, P>) -> TaskSeat<J, P>
        requires lock { seat.old.lock ≡ self.now }
        requires first { seat.old.number ≡ 0 }
        requires few { seat.old.out + 2 < 2 ^ 64 }
        ensures first { seat.new ≡ after_split seat.old }
        ensures other { result ≡ split_off seat.old result.number }
    {
        self.lock.split(seat)
    }

    /// Joins a seat that was split off into the first one, which takes its receipts behind its own.
    pub fn join(&self, seat: &mut TaskSeat<J, P>, other: TaskSeat<J, P>)
        requires lock { (seat.old.lock ≡ self.now) × (other.lock ≡ self.now) }
        requires first { seat.old.number ≡ 0 }
        ensures { seat.new ≡ after_join seat.old other }
    {
        self.lock.join(seat, other);
    }

    /// The books, once every seat that was split off is joined in again. Their openings are those of the seat, and their journal begins
    /// with all that was seen. The seat has the receipts of all seats then: no place is in them twice, and each is a place of the
    /// journal (`receipts`). They are the places of all entries since `new`, each once: each of these entries is one post of one seat
    /// (`posted`).
    pub fn into_books(self, seat: TaskSeat<J, P>) -> Books<J, P>
        requires lock { seat.lock ≡ self }
        requires first { seat.number ≡ 0 }
        requires none_out { seat.out ≡ 0 }
        ensures openings { seat.head ≡ Some (openings result.books) }
        ensures journal { Begins (log_of seat.seen) (log_of_journal result.journal) }
        ensures joined { All (λ seen. Begins (log_of seen) (log_of_journal result.journal)) seat.joined }
        ensures receipts { NoneTwice seat.receipts × All (λ place. place < length result.journal) seat.receipts }
        ensures posted { AreEachOnce seat.began (length result.journal) seat.receipts }
    {
        let TaskBoard { lock } = self;
        let Locked { books } = lock.close(seat);
        books
    }
}
