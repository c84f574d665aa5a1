//! The matches of many tasks played by posters.
ghost use Rattle.std.specs.Prelude.{◌≡◌, ℕ, ◌<◌, ◌≤◌, ◌++◌, [], List, All, true, map, length, IfOk};
ghost use Rattle.tournament.specs.Bracket.{is_complete};
ghost use Rattle.posters.specs.Classes.{HaveClasses};
ghost use Rattle.board_book.specs.declared.entry.Entry.{Entry};
ghost use Rattle.seat_lock.specs.History.{log_of};
ghost use Rattle.board_book.specs.Tasks.{openings, sayings};
ghost use Rattle.posters.specs.Serving.{provers_from, places_from, KnowsStart};

use crate::round_robin::serve_all;
use crate::serving::{Hall, Poster};
use bisect_game::{Answerer, Judge, Provers};
use board_book::{Books, tasks_are_numbered};
use dispute_board::{TaskBoard, TaskSeat, logs_tell_journals};
use rd_base::{Memory, Qid};
use std::alloc::Global;
use std::sync::Wait;
use std::sync::atomic::{AtomicU32, AtomicU64};
use std::thread::Threads;

/// What comes before each post of many tasks. A test can wait here for another poster; a program takes `OpenGate`.
pub trait TaskGate {
    /// Comes before a post of prover `p` of task `t` on the question of this number, outside the board's turns.
    fn before_post(&self, t: u32, p: u32, qid: Qid);
}

/// A gate that does nothing.
#[derive(Clone, Copy, Debug)]
pub struct OpenGate;

impl TaskGate for OpenGate {
    fn before_post(&self, _t: u32, _p: u32, _qid: Qid) {}
}

/// A prover among those of all tasks: the number of its task, and its own there, each from 1.
#[derive(Clone, Copy, Debug)]
pub struct Place {
    pub task: u32,
    pub prover: u32,
}

/// Notes this many provers of task `t`, from 1 on.
fn add_provers(places: &mut Vec<Place>, t: u32, count: u32) -> Result<(), Memory>
    ensures { IfOk result (λ _. places.new.items ≡ places.old.items ++ provers_from t 1 count) }
{
    for p in 0..count {
        places.push(Place {
            task: t,
            prover: p + 1,
        })?;
    }
    Ok(())
}

/// The provers of all tasks, by their numbers from 0.
fn places_of<J: Judge + Drop, P: Provers + Drop>(
    alloc: Global,
    books: &Books<J, P>,
) -> Result<Vec<Place>, Memory>
    ensures places { IfOk result (λ places. places.items ≡ places_from 1 (openings books.now.books)) }
    ensures few { IfOk result (λ places. length places.items ≤ 128) }
{
    tasks_are_numbered::<J, P>();
    let mut places = Vec::new(alloc);
    for i in 0..books.count() {
        add_provers(
            &mut places,
            i + 1,
            books.book(i + 1).game().setup().provers(),
        )?;
    }
    Ok(places)
}

/// Splits a seat off for each poster, the classes from 0 on.
fn seat_posters<J: Judge + Drop, P: Provers + Drop>(
    board: &TaskBoard<J, P>,
    seat: &mut TaskSeat<J, P>,
    posters: &mut Vec<Poster<J, P>>,
    count: u32,
)
    requires seat { (seat.old.lock ≡ board.now) × (seat.old.number ≡ 0) × (seat.old.out ≡ 0) }
    requires room { (posters.old.items ≡ []) × (count ≤ posters.old.cap) }
    ensures seat { (seat.new.lock ≡ board.now) × (seat.new.number ≡ 0) × (seat.new.head ≡ seat.old.head) }
    ensures seen { seat.new.seen ≡ seat.old.seen }
    ensures out { (seat.new.out ≡ length posters.new.items) × (length posters.new.items ≡ count) }
    ensures seats { All (λ poster. (poster.seat.lock ≡ board.now) × (poster.seat.head ≡ seat.old.head)) posters.new.items }
    ensures classes { HaveClasses (λ poster. poster.class) 0 posters.new.items }
{
    for class in 0..count {
        let seat = board.split(seat);
        posters.push_reserved(Poster { class, seat });
    }
}

/// Joins the seats of the posters in again, the last first.
#[tactic(auto, using(crate::proofs::Seats::knows_itself))]
fn join_posters<J: Judge + Drop, P: Provers + Drop>(
    board: &TaskBoard<J, P>,
    seat: &mut TaskSeat<J, P>,
    mut posters: Vec<Poster<J, P>>,
)
    requires seat { (seat.old.lock ≡ board.now) × (seat.old.number ≡ 0) × (seat.old.out ≡ length posters.items) }
    requires seats { All (λ poster. poster.seat.lock ≡ board.now) posters.items }
    ensures seat { (seat.new.lock ≡ board.now) × (seat.new.number ≡ 0) × (seat.new.head ≡ seat.old.head) × (seat.new.out ≡ 0) }
    ensures seen { KnowsStart (log_of seat.old.seen) seat.new }
{
    while let Some(poster) = posters.pop() {
        let Poster { seat: other, .. } = poster;
        board.join(seat, other);
    }
}

/// Plays the matches of all tasks out with this many posters. Provers are numbered from 0 through all tasks, in order of the tasks. Poster
/// i of k serves those whose number modulo k is i. There is one answerer for each prover, which answers as that prover, and keeps its
/// meaning, also if memory runs out; the books are dropped then. In the books that are returned each match is over, whatever the threads
/// did. Their openings are those that they had, and their journal begins with the one that they had.
///
/// As the code shows, each poster has a thread of its own if one can be made, no thread is started with one poster, and answers are made
/// while other posters post. A poster ends when the matches of all its provers are over. It ends early when its answerer finds no memory,
/// after 10,000,000 turns in a row in which none of its provers had anything to do, after 15 of them without news if some poster hasn't
/// begun (they take 0.927 seconds), and when another ended early; what is left undone is played by the calling thread alone. News is each
/// post but a pass that is taken. One with nothing to do sleeps until there is news, for a tenth of a second at most.
pub fn play_tasks<
    J: Judge + Drop + Send,
    P: Provers + Drop + Send,
    A: Answerer + Send,
    G: TaskGate + Sync,
    R: Threads + Wait + Sync,
>(
    rt: &R,
    alloc: Global,
    books: Books<J, P>,
    answerers: &mut [A],
    posters: u32,
    gate: &G,
) -> Result<Books<J, P>, Memory>
where
    J::Names: Send,
    P::Names: Send,
    requires some { 0 < posters }
    requires says { map A.answers answerers.old ≡ sayings P.says (openings books.books) }
    ensures complete { IfOk result (λ played. All (λ b. is_complete b.game.record_ ≡ true) played.books) }
    ensures openings { IfOk result (λ played. openings played.books ≡ openings books.books) }
    ensures prefix { IfOk result (λ played. (xs : List (ℕ × Entry)) × (played.journal ≡ books.journal ++ xs)) }
    ensures keeps { map A.answers answerers.new ≡ map A.answers answerers.old }
{
    let places = places_of(alloc, &books)?;
    let most_posts = books.room();
    let mut seated = Vec::with_capacity(alloc, posters as usize)?;
    let (board, mut seat) = TaskBoard::new(alloc, books)?;
    seat_posters(&board, &mut seat, &mut seated, posters);
    let hall = Hall {
        board,
        gate,
        places,
        most_posts,
        posters,
        begun: AtomicU32::new(0),
        news: AtomicU64::new(0),
    };
    serve_all(rt, alloc, &hall, seated.as_mut_slice(), answerers)?;
    let Hall { board, .. } = hall;
    logs_tell_journals();
    join_posters(&board, &mut seat, seated);
    let mut played = board.into_books(seat);
    played.finish_alone(rt, answerers)?;
    Ok(played)
}
