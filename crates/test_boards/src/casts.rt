//! Tasks of players of the toy game: their books, their answerers, and what comes of them once they are played.
ghost use Rattle.std.specs.Prelude.{◌≡◌, ◌++◌, ◌<◌, ◌≤◌, IfOk, map, length};
ghost use Rattle.board_book.specs.Tasks.{openings, sayings, sayings_from};
ghost use Rattle.toy_game.specs.Toy.{answers, says_of};
ghost use Rattle.test_boards.specs.Casts.{opening_of, book_with, AreCounted};

use crate::in_short::{Short, in_short};
use bisect_game::{Answerer, Question};
use board_book::{Book, Books, Entry};
use posters::{Gate, TaskGate, play, play_tasks};
use rd_base::{Answer, Memory, Qid};
use std::alloc::Global;
use std::sync::Wait;
use std::thread::Threads;
use toy_game::in_short::{Replied, reply_in_short};
use toy_game::{Cast, Player, SILENT, Seated, ToyJudge, root};

pub(crate) type ToyBook = Book<ToyJudge, Cast>;

pub(crate) type ToyBooks = Books<ToyJudge, Cast>;

/// A cast of `count` players: these three and then silent ones, as far as it goes.
pub(crate) fn cast_of(first: [Player; 3], count: u32) -> Cast
    ensures { result.count ≡ count }
{
    let mut players = [SILENT; 16];
    players[0] = first[0];
    players[1] = first[1];
    players[2] = first[2];
    Cast { players, count }
}

/// The empty book of a cast, over eight steps in rounds of two parts.
pub(crate) fn book_of(alloc: Global, cast: Cast, patience: u32) -> Result<ToyBook, Memory>
    requires some { 0 < cast.count }
    requires few { cast.count ≤ 16 }
    requires patience { patience ≤ 100 }
    ensures { IfOk result (λ book. book ≡ book_with patience cast) }
{
    Book::open(alloc, ToyJudge { name: 0 }, cast, 8, 2, patience, root(0))
}

/// The empty books of these casts, a task each, with a patience of 1.
pub(crate) fn books_of(alloc: Global, casts: &[Cast]) -> Result<ToyBooks, Memory>
    requires some { 0 < length casts.now }
    requires few { length casts.now ≤ 8 }
    requires counts { AreCounted casts.now }
    ensures { IfOk result (λ books. openings books.books ≡ map opening_of casts.now) }
{
    let mut list = Vec::new(alloc);
    for cast in casts {
        list.push(book_of(alloc, *cast, 1)?)?;
    }
    let books = Books::open(alloc, list)?;
    Ok(books)
}

/// A player at the table that finds no memory at some of its calls.
#[derive(Clone, Copy)]
pub(crate) struct Forgetful {
    player: Player,
    alloc: Global,
    calls: u32,
    /// The first call that finds none, and the first after that which finds some.
    fails: (u32, u32),
}

/// No call fails.
pub(crate) const NEVER: (u32, u32) = (0, 0);

impl Answerer for Forgetful {
    ghost use Rattle.toy_game.specs.Toy.{answers};

    ghost answers = { λ f. answers f.player };

    fn answer<R: Threads + Sync>(
        &mut self,
        rt: &R,
        question: &Question,
        passes: u32,
    ) -> Result<Option<Answer>, Memory> {
        self.calls = self.calls.wrapping_add(1);
        if self.fails.0 <= self.calls && self.calls < self.fails.1 {
            return Err(Memory);
        }
        let Forgetful { player, alloc, .. } = *self;
        Seated { player, alloc }.answer(rt, question, passes)
    }
}

/// Seats the players of a cast behind these. The second one's answerer fails at these calls.
fn add_seats(
    alloc: Global,
    seats: &mut Vec<Forgetful>,
    cast: &Cast,
    fails: (u32, u32),
) -> Result<(), Memory>
    requires few { cast.now.count ≤ 16 }
    ensures { IfOk result (λ _. map (λ s. answers s.player) seats.new.items ≡ map (λ s. answers s.player) seats.old.items ++ sayings_from (says_of cast.now.players) 1 cast.now.count) }
{
    for i in 0..cast.count {
        seats.push(Forgetful {
            player: cast.players[i as usize],
            alloc,
            calls: 0,
            fails: if i == 1 { fails } else { NEVER },
        })?;
    }
    Ok(())
}

/// An answerer for each prover of these casts. That of each second prover fails at these calls.
fn seats_of(alloc: Global, casts: &[Cast], fails: (u32, u32)) -> Result<Vec<Forgetful>, Memory>
    requires counts { AreCounted casts.now }
    ensures { IfOk result (λ seats. map (λ s. answers s.player) seats.items ≡ sayings (λ cast. says_of cast.players) (map opening_of casts.now)) }
{
    let mut seats = Vec::new(alloc);
    for cast in casts {
        add_seats(alloc, &mut seats, cast, fails)?;
    }
    Ok(seats)
}

/// The book of a cast, which this many posters played. The answerer of the second prover fails at these calls.
pub(crate) fn played<G: Gate + Sync, R: Threads + Wait + Sync>(
    rt: &R,
    alloc: Global,
    cast: Cast,
    patience: u32,
    posters: u32,
    fails: (u32, u32),
    gate: &G,
) -> Result<ToyBook, Memory>
    requires some { 0 < cast.count }
    requires few { cast.count ≤ 16 }
    requires patience { patience ≤ 100 }
    requires posters { 0 < posters }
{
    let mut seats = seats_of(alloc, &[cast], fails)?;
    let book = book_of(alloc, cast, patience)?;
    play(rt, alloc, book, seats.as_mut_slice(), posters, gate)
}

/// The same book in short.
pub(crate) fn played_in_short<G: Gate + Sync, R: Threads + Wait + Sync>(
    rt: &R,
    alloc: Global,
    cast: Cast,
    patience: u32,
    posters: u32,
    fails: (u32, u32),
    gate: &G,
) -> Result<Short, Memory>
    requires some { 0 < cast.count }
    requires few { cast.count ≤ 16 }
    requires patience { patience ≤ 100 }
    requires posters { 0 < posters }
{
    let book = played(rt, alloc, cast, patience, posters, fails, gate)?;
    let short = in_short(&book);
    drop(book);
    Ok(short)
}

/// An entry in short: prover, number of the question, whether it is a pass, and the reply.
type Told = (u32, Qid, bool, Replied);

/// What comes of tasks: their books and the entries of these in short, in order of the tasks, and how many entries there are in the
/// journals of all.
#[derive(Drop)]
pub(crate) struct Account {
    pub shorts: Vec<Short>,
    pub told: Vec<Told>,
    pub entries: usize,
}

impl Account {
    /// What comes of no task.
    pub(crate) fn new(alloc: Global) -> Account {
        Account {
            shorts: Vec::new(alloc),
            told: Vec::new(alloc),
            entries: 0,
        }
    }

    /// Notes what came of the tasks of these books behind the others.
    pub(crate) fn add(&mut self, books: &ToyBooks) -> Result<(), Memory> {
        self.entries = self.entries.wrapping_add(books.journal().len());
        for i in 0..books.count() {
            let book = books.book(i + 1);
            self.shorts.push(in_short(book))?;
            for entry in book.journal() {
                let reply = reply_in_short(entry.reply);
                self.told.push((entry.p, entry.qid, entry.pass, reply))?;
            }
        }
        Ok(())
    }

    /// Notes what comes of the tasks of these casts, a task each, which this many posters play.
    pub(crate) fn add_played<G: TaskGate + Sync, R: Threads + Wait + Sync>(
        &mut self,
        rt: &R,
        alloc: Global,
        casts: &[Cast],
        posters: u32,
        gate: &G,
    ) -> Result<(), Memory>
        requires some { 0 < length casts.now }
        requires few { length casts.now ≤ 8 }
        requires counts { AreCounted casts.now }
        requires posters { 0 < posters }
    {
        let mut seats = seats_of(alloc, casts, NEVER)?;
        let books = books_of(alloc, casts)?;
        let books = play_tasks(rt, alloc, books, seats.as_mut_slice(), posters, gate)?;
        let added = self.add(&books);
        drop(books);
        added
    }
}
