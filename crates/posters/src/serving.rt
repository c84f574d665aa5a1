//! What one poster does, and what the posters share.
//!
//! No run can sleep for good. Each sleep ends by itself after at most a tenth of a second, and the loop of each poster is bounded by the
//! room for posts and by `MOST_IDLE_TURNS`. The board's lock isn't held while a poster answers, waits at its gate or sleeps. As long as a
//! match isn't over it asks one of its provers (`Match::is_never_stuck`), and that prover's poster serves it: a poster leaves once its seat
//! sees that the match of each of its provers is over (`serve_until_over`), and else makes the others end early with it. Posters wake each
//! other for speed alone, so that a lost wake costs time.
ghost use Rattle.std.specs.Prelude.{◌≡◌, ◌≢◌, ◌↔◌, ◌+◌, ◌<◌, ◌≤◌, ◌^◌, [], true, IsTrue, List, map, min, slice_get};
ghost use Rattle.std.specs.List.{All};
ghost use Rattle.std.specs.Thread.{IsSync};
ghost use Rattle.seat_lock.specs.History.{log_of, Begins};
ghost use Rattle.board_book.specs.declared.book.Opening.{Opening};
ghost use Rattle.posters.specs.Serving.{staying_part_of, IsSeatOf, IsProverAt, MayServe, SeesOver, SeesOverOf};

use crate::playing::{Place, TaskGate};
use crate::round_robin::ClassServer;
use bisect_game::{Answerer, Judge, Provers};
use board_book::{Ask, entries_are_told_apart, tasks_are_alone, tasks_are_numbered};
use dispute_board::{TaskBoard, TaskSeat, logs_tell_journals, what_is_said_may_be_posted};
use std::sync::Wait;
use std::sync::atomic::{AtomicU32, AtomicU64, Ordering};
use std::thread::Threads;
use std::time::Duration;
use tournament::{Reply, move_of};

/// After this many idle turns in a row a poster ends early. In an idle turn none of its provers had anything to do.
///
/// It sleeps after each of them, so that they take eleven days if nobody posts. They take five days at least if others post: a post ends
/// a sleep and shortens the seven after it, and the matches of eight tasks have room for at most 812,848.
const MOST_IDLE_TURNS: u32 = 10_000_000;

/// As long as some poster hasn't begun, a poster ends early after this many idle turns in a row without news, whose sleeps add up to 0.927
/// seconds. If a thread can't be made, the poster that hasn't begun may come after this one in the same thread.
const MOST_QUIET_TURNS_BEFORE_ALL_BEGIN: u32 = 15;

/// The longest sleep, in milliseconds.
const LONGEST_SLEEP: u64 = 100;

/// What `news` is set to when a poster ends early. Posts alone never reach it.
const ENDED_EARLY: u64 = u64::MAX / 2;

/// What the posters share.
#[derive(Drop)]
pub struct Hall<'g, J: Judge + Drop, P: Provers + Drop, G: TaskGate> {
    pub board: TaskBoard<J, P>,
    pub gate: &'g G,
    /// The provers of all tasks, by their numbers from 0.
    pub places: Vec<Place>,
    /// The most posts that the matches have room for.
    pub most_posts: u64,
    /// How many posters there are.
    pub posters: u32,
    /// How many posters have begun.
    pub begun: AtomicU32,
    /// How many posts there were but for passes that were taken, or at least `ENDED_EARLY` once a poster ended before the matches of its
    /// provers were over. A poster with nothing to do sleeps until this changes, or for `LONGEST_SLEEP`.
    pub news: AtomicU64,
}

/// A poster: the class of its provers, and its seat.
#[derive(Drop)]
pub struct Poster<J: Judge + Drop, P: Provers + Drop> {
    pub class: u32,
    pub seat: TaskSeat<J, P>,
}

/// The result of a turn, for one prover or for each prover of a poster.
#[derive(Clone, Copy, Debug)]
enum Turn {
    /// The match of each of these provers is over.
    Over,
    /// A move was posted.
    Posted,
    /// There was nothing to do.
    Idle,
    /// An answerer found no memory, this poster waited too long, or another ended early.
    EndsEarly,
}

/// The prover of this number.
fn place_at(places: &Vec<Place>, number: u32) -> Option<Place>
    ensures { result ≡ slice_get places.now.items number }
{
    match places.get(number as usize) {
        Some(place) => Some(*place),
        None => None,
    }
}

/// How long a poster sleeps after an idle turn, in milliseconds, if this many idle turns in a row before it were without news.
fn sleep_after(quiet: u32) -> u64
    ensures some { 0 < result }
    ensures few { result ≤ 100 }
{
    if quiet < 7 {
        (1 << quiet).min(LONGEST_SLEEP)
    } else {
        LONGEST_SLEEP
    }
}

/// Whether a post with this reply is news: any but a pass that is taken, which changes nothing for any other prover.
fn is_news(is_pass: bool, reply: &Reply) -> bool
    ensures { IsTrue result ↔ (is_pass ≡ true → reply.now ≢ Reply.Taken) }
{
    !(is_pass && matches!(reply, Reply::Taken))
}

/// Whether this much news tells of a poster that ended early.
fn is_early_end(news: u64) -> bool
    ensures { IsTrue result ↔ (2 ^ 63 ≤ news + 1) }
{
    news >= ENDED_EARLY
}

/// How many idle turns in a row were without news, with one before which there were `quiet`, if `news` was `seen` before it and is `now`
/// after its sleep.
fn quiet_after(seen: u64, now: u64, quiet: u32) -> u32
    ensures quiet { now ≡ seen → result ≡ min (quiet + 1) 4294967295 }
    ensures news { now ≢ seen → result ≡ 0 }
{
    if now == seen {
        quiet.saturating_add(1)
    } else {
        0
    }
}

/// Whether a poster ends early after this many idle turns in a row without news, of `posters` of which this many have begun.
fn is_too_long(quiet: u32, begun: u32, posters: u32) -> bool
    ensures { IsTrue result ↔ (15 ≤ quiet) × (begun < posters) }
{
    quiet >= MOST_QUIET_TURNS_BEFORE_ALL_BEGIN && begun < posters
}

impl<'g, J: Judge + Drop, P: Provers + Drop, G: TaskGate> Hall<'g, J, P, G> {
    /// Whether a poster ended early. The others end then too.
    fn has_ended_early(&self) -> bool {
        is_early_end(self.news.load(Ordering::SeqCst))
    }

    /// Counts a post that is news, and wakes the posters that sleep.
    fn note_post(&self, is_pass: bool, reply: &Reply) {
        if !is_news(is_pass, reply) {
            return;
        }
        self.news.fetch_add(1, Ordering::SeqCst);
        self.news.wake_all();
    }

    /// Makes the others end early with this poster.
    fn end_early(&self) {
        self.news.store(ENDED_EARLY, Ordering::SeqCst);
        self.news.wake_all();
    }

    /// Sleeps until `news` is no longer `seen`, and for a while at most. `quiet` counts the idle turns in a row without news before
    /// this one. What comes back is that count with this turn, or 0 if there was news.
    fn sleep<R: Wait>(&self, rt: &R, seen: u64, quiet: u32) -> u32 {
        let longest = Duration::from_millis(sleep_after(quiet));
        self.news
            .park_timeout(rt, (seen & 0xffff_ffff) as u32, longest);
        quiet_after(seen, self.news.load(Ordering::SeqCst), quiet)
    }

    /// Whether a poster ends early after this many idle turns in a row without news: some poster hasn't begun, and it waited long.
    fn has_waited_long(&self, quiet: u32) -> bool {
        is_too_long(quiet, self.begun.load(Ordering::SeqCst), self.posters)
    }

    /// One turn for a prover: it is asked, and what it answers is posted. The answer is made between the two turns at the board. The result
    /// is `Over` only if the seat sees that the prover's match is over.
    fn serve_prover<A: Answerer, R: Threads + Wait + Sync>(
        &self,
        rt: &R,
        seat: &mut TaskSeat<J, P>,
        place: Place,
        answerer: &mut A,
    ) -> Turn
        requires sync { IsSync R.row }
        requires seat { (heads : List (Opening J.Names P.Names)) × IsSeatOf self.now.board heads seat.old × IsProverAt P.says heads place (A.answers answerer.old) }
        ensures seat { staying_part_of seat.new ≡ staying_part_of seat.old }
        ensures seen { Begins (log_of seat.old.seen) (log_of seat.new.seen) }
        ensures answerer { A.answers answerer.new ≡ A.answers answerer.old }
        ensures over { result ≡ Turn.Over → SeesOver J.ruling P.says seat.new place.task }
    {
        let Place { task, prover } = place;
        tasks_are_numbered::<J, P>();
        what_is_said_may_be_posted();
        match self.board.ask(rt, seat, task, prover) {
            Ask::Over => Turn::Over,
            Ask::Nothing => Turn::Idle,
            Ask::Question(question, passes) => match answerer.answer(rt, &question, passes) {
                Ok(answer) => {
                    let is_pass = answer.is_none();
                    self.gate.before_post(task, prover, question.qid);
                    let posted = self
                        .board
                        .post(rt, seat, task, prover, question.qid, move_of(answer));
                    self.note_post(is_pass, &posted.reply);
                    Turn::Posted
                }
                Err(_) => Turn::EndsEarly,
            },
        }
    }

    /// A turn for each prover of these numbers. The result is `Over` only if the seat sees that each prover's match is over; without provers
    /// it is. It is `Idle` if none had anything to do.
    fn serve_each<A: Answerer, R: Threads + Wait + Sync>(
        &self,
        rt: &R,
        seat: &mut TaskSeat<J, P>,
        numbers: &[u32],
        answerers: &mut [A],
    ) -> Turn
        requires sync { IsSync R.row }
        requires seat { MayServe P.says self.now.board self.now.places.items seat.old numbers.now (map A.answers answerers.old) }
        ensures seat { staying_part_of seat.new ≡ staying_part_of seat.old }
        ensures answerers { map A.answers answerers.new ≡ map A.answers answerers.old }
        ensures over { result ≡ Turn.Over → All (SeesOverOf J.ruling P.says self.now.places.items seat.new) numbers.now }
        ensures none { numbers.now ≡ [] → result ≡ Turn.Over }
    {
        if numbers.is_empty() {
            return Turn::Over;
        }
        tasks_are_alone();
        entries_are_told_apart();
        logs_tell_journals();
        let mut over = 0;
        let mut has_posted = false;
        let mut i = 0;
        while i < numbers.len() {
            if self.has_ended_early() {
                return Turn::EndsEarly;
            }
            if let Some(place) = place_at(&self.places, numbers[i]) {
                match self.serve_prover(rt, seat, place, &mut answerers[i]) {
                    Turn::Over => over += 1,
                    Turn::Posted => has_posted = true,
                    Turn::Idle => {}
                    Turn::EndsEarly => return Turn::EndsEarly,
                }
            }
            i += 1;
        }
        if over == numbers.len() {
            Turn::Over
        } else if has_posted {
            Turn::Posted
        } else {
            Turn::Idle
        }
    }

    /// Serves the provers of these numbers until one has posted or all their matches are over. It sleeps after each idle turn. The result is
    /// `Over` only if the seat sees that each prover's match is over.
    fn serve_until_post<A: Answerer, R: Threads + Wait + Sync>(
        &self,
        rt: &R,
        seat: &mut TaskSeat<J, P>,
        numbers: &[u32],
        answerers: &mut [A],
    ) -> Turn
        requires sync { IsSync R.row }
        requires seat { MayServe P.says self.now.board self.now.places.items seat.old numbers.now (map A.answers answerers.old) }
        ensures seat { staying_part_of seat.new ≡ staying_part_of seat.old }
        ensures answerers { map A.answers answerers.new ≡ map A.answers answerers.old }
        ensures over { result ≡ Turn.Over → All (SeesOverOf J.ruling P.says self.now.places.items seat.new) numbers.now }
    {
        let mut quiet = 0;
        for _ in 0..MOST_IDLE_TURNS {
            let seen = self.news.load(Ordering::SeqCst);
            let turn = self.serve_each(rt, seat, numbers, answerers);
            if !matches!(turn, Turn::Idle) {
                return turn;
            }
            quiet = self.sleep(rt, seen, quiet);
            if self.has_waited_long(quiet) {
                return Turn::EndsEarly;
            }
        }
        Turn::EndsEarly
    }

    /// Serves the provers of these numbers until the matches of all are over. The result is whether the seat sees that they are. There are at
    /// most as many posts as the matches have room for, and at most `MOST_IDLE_TURNS` before each, so this ends whatever the other posters
    /// do.
    fn serve_until_over<A: Answerer, R: Threads + Wait + Sync>(
        &self,
        rt: &R,
        seat: &mut TaskSeat<J, P>,
        numbers: &[u32],
        answerers: &mut [A],
    ) -> bool
        requires sync { IsSync R.row }
        requires seat { MayServe P.says self.now.board self.now.places.items seat.old numbers.now (map A.answers answerers.old) }
        ensures seat { staying_part_of seat.new ≡ staying_part_of seat.old }
        ensures answerers { map A.answers answerers.new ≡ map A.answers answerers.old }
        ensures over { IsTrue result → All (SeesOverOf J.ruling P.says self.now.places.items seat.new) numbers.now }
    {
        for _ in 0..self.most_posts.saturating_add(1) {
            match self.serve_until_post(rt, seat, numbers, answerers) {
                Turn::Over => return true,
                Turn::Posted => {}
                _ => return false,
            }
        }
        false
    }
}

impl<'g, J: Judge + Drop, P: Provers + Drop, A: Answerer, G: TaskGate> ClassServer<
    Hall<'g, J, P, G>,
    A,
> for Poster<J, P> {
    ghost use Rattle.std.specs.Prelude.{◌≡◌, ℕ, Option, List};
    ghost use Rattle.rd_base.specs.declared.answer.Answer.{Answer};
    ghost use Rattle.bisect_game.specs.declared.settled.Question.{Question};
    ghost use Rattle.board_book.specs.declared.book.Opening.{Opening};
    ghost use Rattle.seat_lock.specs.Seats.{Known};
    ghost use Rattle.posters.specs.Serving.{places_from, staying_part_of, IsSeatOf, saying_of};

    ghost Kept = { Known (List (Opening J.Names P.Names)) × ℕ };

    ghost Meaning = { Question → ℕ → Option Answer };

    ghost stays = { λ poster. (staying_part_of poster.seat, poster.class) };

    ghost meaning = { A.answers };

    ghost class_of = { λ kept. kept.1 };

    ghost ready = { λ hall kept says. (heads : List (Opening J.Names P.Names)) × IsSeatOf hall.board heads kept.0 × (hall.places.items ≡ places_from 1 heads) × (says ≡ saying_of P.says heads) };

    fn class(&self) -> u32 {
        self.class
    }

    fn serve<R: Threads + Wait + Sync>(
        &mut self,
        rt: &R,
        hall: &Hall<'g, J, P, G>,
        _classes: u32,
        numbers: &[u32],
        answerers: &mut [A],
    ) {
        hall.begun.fetch_add(1, Ordering::SeqCst);
        if !hall.serve_until_over(rt, &mut self.seat, numbers, answerers) {
            hall.end_early();
        }
    }
}
