//! The board of one task.
ghost use Rattle.std.specs.Prelude.{◌≡◌, ◌+◌, ◌^◌, ◌<◌, ◌≤◌, [], ◌∷◌, length, Some};
ghost use Rattle.std.specs.List.{All};
ghost use Rattle.seat_lock.specs.History.{log_of, Begins, NoneTwice};
ghost use Rattle.seat_lock.specs.Seats.{IfMade, AreEachOnce, first_seat, after_split, split_off, after_join};
ghost use Rattle.board_book.specs.declared.book.Opening.{Opening};
ghost use Rattle.tournament.specs.Posting.{answer_of};
ghost use Rattle.bisect_game.specs.Rules.{rules_of};
ghost use Rattle.board_book.specs.Tasks.{task_of, of_task};
ghost use Rattle.dispute_board.specs.OneHistory.{log_of_journal, MayPost, AsksOnBoard, PostsOnBoard};

use crate::task_board::{TaskBoard, TaskSeat};
use crate::turns::Posted;
use bisect_game::{Judge, Provers};
use board_book::{Ask, Book, Books};
use rd_base::{Memory, Qid};
use std::alloc::Global;
use std::marker::Model;
use std::sync::Wait;
use tournament::Move;

/// A book under a lock, which threads share by reference: the board of one task, whose number is 1. Contracts see which lock it is.
#[derive(Drop)]
pub struct Board<J: Judge + Drop, P: Provers + Drop> {
    tasks: TaskBoard<J, P>,
}

impl<J: Judge + Drop, P: Provers + Drop> Model for Board<J, P> {
    ghost use Rattle.seat_lock.specs.Seats.{LockId};

    ghost Value = { LockId };

    ghost view = { λ board. board.tasks };
}

/// A seat at the board of one task, to ask and post with. It has no bytes. Contracts see the opening of the book (`head`), what the
/// seat has seen of the journal, and the places of its own posts there (`receipts`).
///
/// A seat that is dropped stays out: the board can then only be dropped.
#[derive(Drop)]
pub struct Seat<J: Judge + Drop, P: Provers + Drop> {
    tasks: TaskSeat<J, P>,
}

impl<J: Judge + Drop, P: Provers + Drop> Model for Seat<J, P> {
    ghost use Rattle.board_book.specs.declared.book.Opening.{Opening};
    ghost use Rattle.seat_lock.specs.Seats.{Known};
    ghost use Rattle.dispute_board.specs.OneTask.{of_one, HasOneTask};

    ghost Value = { Known (Opening J.Names P.Names) };

    ghost view = { λ seat. of_one seat.tasks };

    ghost invariant = { λ seat. HasOneTask seat.tasks };
}

impl<J: Judge + Drop, P: Provers + Drop> Board<J, P> {
    /// A board over the book, and its first seat, which has seen the book's journal. An `Err` is out of memory; the book is then
    /// dropped.
    pub fn new(alloc: Global, book: Book<J, P>) -> Result<(Board<J, P>, Seat<J, P>), Memory>
        ensures { IfMade result (λ board seat. seat ≡ first_seat board book.opening (log_of_journal (of_task 1 book.journal))) }
    {
        let (tasks, seat) = TaskBoard::new(alloc, Books::one(alloc, book)?)?;
        Ok((Board { tasks }, Seat { tasks: seat }))
    }

    /// Asks in one turn what prover `p`, from 1 to their count, is asked. The answer is that of the book at that point of the
    /// journal.
    pub fn ask<R: Wait>(&self, rt: &R, seat: &mut Seat<J, P>, p: u32) -> Ask
        requires lock { seat.old.lock ≡ self.now }
        requires some { 0 < p }
        requires few { (head : Opening J.Names P.Names) × (seat.old.head ≡ Some head) × (p ≤ head.setup.provers) }
        ensures { (head : Opening J.Names P.Names) × (seat.old.head ≡ Some head) × AsksOnBoard (task_of J.ruling P.says head ∷ []) seat.old 1 p result seat.new }
    {
        self.tasks.ask(rt, &mut seat.tasks, 1, p)
    }

    /// Posts in one turn a move of prover `p`, from 1 to their count, on the question of this number.
    ///
    /// If the case asks the prover a question of that number, the move is what the prover says to it after some number of
    /// passes. The reply is that of the book if the prover says this move after the passes at that point, and else `Stale`
    /// with the open question, if there is one, and nothing changes.
    pub fn post<R: Wait>(
        &self,
        rt: &R,
        seat: &mut Seat<J, P>,
        p: u32,
        qid: Qid,
        turn: Move,
    ) -> Posted
        requires lock { seat.old.lock ≡ self.now }
        requires some { 0 < p }
        requires few { (head : Opening J.Names P.Names) × (seat.old.head ≡ Some head) × (p ≤ head.setup.provers) }
        requires may { (head : Opening J.Names P.Names) → seat.old.head ≡ Some head → MayPost (rules_of (J.ruling head.judge) head.setup) (P.says head.provers) p qid (answer_of turn) }
        ensures { (head : Opening J.Names P.Names) × (seat.old.head ≡ Some head) × PostsOnBoard (task_of J.ruling P.says head ∷ []) seat.old 1 p qid (answer_of turn) result seat.new }
    {
        self.tasks.post(rt, &mut seat.tasks, 1, p, qid, turn)
    }

    /// Splits a seat off the first one, of which fewer than 2^64 - 2 are out. It has seen the same and has no receipts. It takes no memory.
    pub fn split(&self, seat: &mut Seat<J, P>) -> Seat<J, P>
        requires lock { seat.old.lock ≡ self.now }
        requires first { seat.old.number ≡ 0 }
        requires few { seat.old.out + 2 < 2 ^ 64 }
        ensures first { seat.new ≡ after_split seat.old }
        ensures other { result ≡ split_off seat.old result.number }
    {
        Seat {
            tasks: self.tasks.split(&mut seat.tasks),
        }
    }

    /// Joins a seat that was split off into the first one, which takes its receipts behind its own.
    pub fn join(&self, seat: &mut Seat<J, P>, other: Seat<J, P>)
        requires lock { (seat.old.lock ≡ self.now) × (other.lock ≡ self.now) }
        requires first { seat.old.number ≡ 0 }
        ensures { seat.new ≡ after_join seat.old other }
    {
        self.tasks.join(&mut seat.tasks, other.tasks);
    }

    /// The book, once every seat that was split off is joined in again. Its opening is that of the seat, and its journal begins with
    /// all that was seen. The seat has the receipts of all seats then: no place is in them twice, and each is a place of the journal
    /// (`receipts`). They are the places of all entries since `new`, each once: each of these entries is one post of one seat (`posted`).
    pub fn into_book(self, seat: Seat<J, P>) -> Book<J, P>
        requires lock { seat.lock ≡ self }
        requires first { seat.number ≡ 0 }
        requires none_out { seat.out ≡ 0 }
        ensures opening { seat.head ≡ Some result.opening }
        ensures journal { Begins (log_of seat.seen) (log_of_journal (of_task 1 result.journal)) }
        ensures joined { All (λ seen. Begins (log_of seen) (log_of_journal (of_task 1 result.journal))) seat.joined }
        ensures receipts { NoneTwice seat.receipts × All (λ place. place < length result.journal) seat.receipts }
        ensures posted { AreEachOnce seat.began (length result.journal) seat.receipts }
    {
        let Board { tasks } = self;
        let Seat { tasks: seat } = seat;
        tasks.into_books(seat).into_one()
    }
}
