//! The books of many tasks.
ghost use denote.Param.Send.{IsSync};
ghost use Rattle.std.specs.Prelude.{◌≡◌, ℕ, ◌+◌, ◌-◌, ◌<◌, ◌≤◌, ◌++◌, [], ◌∷◌, true, take, drop, map, List, Some, IfOk, length};
ghost use Rattle.std.specs.List.{All};
ghost use Rattle.bisect_game.specs.declared.settled.Question.{Question};
ghost use Rattle.bisect_game.specs.Says.{AnswerAs};
ghost use Rattle.tournament.specs.Bracket.{open_question, is_complete};
ghost use Rattle.tournament.specs.Moves.{passes_of};
ghost use Rattle.rd_base.specs.Questions.{same_qid};
ghost use Rattle.tournament.specs.Posting.{answer_of};
ghost use Rattle.bisect_game.specs.Rules.{rules_of};
ghost use Rattle.board_book.specs.declared.entry.Entry.{Entry};
ghost use Rattle.board_book.specs.Entries.{ask_on};
ghost use Rattle.board_book.specs.Tasks.{numbered, games_of, IsTaskJournal, entries_of, BookOf, of_task, openings, tasks_of_openings, sayings, PostedTo};
ghost use Rattle.board_book.specs.Keeping.{HasRoom, PlaysOn};

use crate::book::Book;
use crate::entry::{Ask, Entry};
use bisect_game::{Answerer, Judge, Provers};
use rd_base::{Memory, Qid};
use std::alloc::Global;
use std::marker::Model;
use std::thread::Threads;
use tournament::{Move, Reply};

/// The books of 1 to 8 tasks, numbered from 1, and the one journal of all of them.
///
/// Contracts see the books, each with its opening, its journal and its state, and the journal of all. No call changes an opening.
#[derive(Drop)]
pub struct Books<J: Judge + Drop, P: Provers + Drop> {
    books: Vec<Book<J, P>>,
    journal: Vec<(u32, Entry)>,
}

impl<J: Judge + Drop, P: Provers + Drop> Model for Books<J, P> {
    ghost use Rattle.std.specs.Prelude.{vec_capacity};
    ghost use Rattle.board_book.specs.Tasks.{BooksOf};
    ghost use Rattle.board_book.specs.Keeping.{AreBooksOf};

    ghost Value = { BooksOf J.Names P.Names };

    ghost view = { λ b. record { books = b.books.items; journal = b.journal.items } };

    ghost invariant = { λ b. AreBooksOf J.ruling P.says b.books.items b.journal.items (vec_capacity b.journal) };
}

/// The most entries of these books together.
fn room_of<J: Judge + Drop, P: Provers + Drop>(books: &[Book<J, P>]) -> u64
    requires few { length books.now ≤ 8 }
    ensures { HasRoom books.now result }
{
    let mut total = 0;
    for book in books {
        total += book.room();
    }
    total
}

/// Notes the entries from this place on as those of task `t`.
fn note_from(journal: &mut Vec<(u32, Entry)>, t: u32, entries: &[Entry], from: usize)
    requires within { from ≤ length entries.now }
    requires room { length journal.old.items + (length entries.now - from) ≤ journal.old.cap }
    ensures items { journal.new.items ≡ journal.old.items ++ of_task t (drop from entries.now) }
    ensures room { journal.new.cap ≡ journal.old.cap }
{
    for i in from..entries.len() {
        journal.push_reserved((t, entries[i]));
    }
}

impl<J: Judge + Drop, P: Provers + Drop> Books<J, P> {
    /// The books of 1 to 8 tasks, each with an empty journal. It takes the memory of the joint journal, with room for all that can come
    /// of all tasks. An `Err` is out of memory; the books are then dropped.
    pub fn open(alloc: Global, books: Vec<Book<J, P>>) -> Result<Books<J, P>, Memory>
        requires some { 0 < length books.items }
        requires few { length books.items ≤ 8 }
        requires empty { All (λ b. b.journal ≡ []) books.items }
        ensures { IfOk result (λ made. made ≡ record { books = books.items; journal = [] }) }
    {
        let room = room_of(books.as_slice());
        let journal = Vec::with_capacity(alloc, room as usize)?;
        Ok(Books { books, journal })
    }

    /// The book of one task, with the entries that it has. It takes the memory of the joint journal. An `Err` is out of memory; the book
    /// is then dropped.
    pub fn one(alloc: Global, book: Book<J, P>) -> Result<Books<J, P>, Memory>
        ensures { IfOk result (λ made. made ≡ record { books = book ∷ []; journal = of_task 1 book.journal }) }
    {
        book.is_legal();
        let mut books = Vec::with_capacity(alloc, 1)?;
        books.push_reserved(book);
        let room = room_of(books.as_slice());
        let mut journal = Vec::with_capacity(alloc, room as usize)?;
        note_from(&mut journal, 1, books[0].journal(), 0);
        Ok(Books { books, journal })
    }

    /// The book of task `t`, from 1 to their count.
    pub fn book(&self, t: u32) -> &Book<J, P>
        requires some { 0 < t }
        requires few { t ≤ length self.now.books }
        ensures { numbered self.now.books t ≡ Some result.now }
    {
        &self.books[t as usize - 1]
    }

    /// What prover `p` of task `t` is asked: `Nothing` if and only if it has no open question and its match isn't over, `Over` if and only
    /// if it has none and its match has ended.
    pub fn ask(&self, t: u32, p: u32) -> Ask
        requires task { 0 < t }
        requires tasks { t ≤ length self.now.books }
        requires some { 0 < p }
        requires few { (b : BookOf J.Names P.Names) → numbered self.now.books t ≡ Some b → p ≤ b.opening.setup.provers }
        ensures { (b : BookOf J.Names P.Names) → numbered self.now.books t ≡ Some b → result ≡ ask_on b.game p (open_question (rules_of (J.ruling b.opening.judge) b.opening.setup) b.game.record_ p) }
    {
        self.book(t).ask(p)
    }

    /// The most entries that the journals of these books can have together. The joint journal has memory for them.
    pub fn room(&self) -> u64
        ensures { HasRoom self.now.books result }
    {
        room_of(self.books.as_slice())
    }

    /// How many tasks there are.
    pub fn count(&self) -> u32
        ensures value { result ≡ length self.now.books }
        ensures few { length self.now.books ≤ 8 }
    {
        self.books.len() as u32
    }

    /// The posts that weren't stale, of all tasks in their order, each with its task.
    pub fn journal(&self) -> &[(u32, Entry)]
        ensures { result.now ≡ self.now.journal }
    {
        self.journal.as_slice()
    }

    /// The books, in order of the tasks. It takes no memory.
    pub fn into_list(self) -> Vec<Book<J, P>>
        ensures { result.items ≡ self.books }
    {
        let Books { books, .. } = self;
        books
    }

    /// The book of the only task, whose journal is that of all. It takes no memory.
    pub fn into_one(self) -> Book<J, P>
        requires one { length self.books ≡ 1 }
        ensures { self ≡ record { books = result ∷ []; journal = of_task 1 result.journal } }
    {
        let Books { mut books, .. } = self;
        match books.pop() {
            Some(book) => book,
            None => unreachable!(),
        }
    }

    /// The journal is legal, and the entries of each task are the journal of its book.
    pub fn is_legal(&self)
        ensures some { 0 < length self.now.books }
        ensures legal { IsTaskJournal self.now.journal (games_of (tasks_of_openings J.ruling P.says (openings self.now.books))) }
        ensures own { (t : ℕ) (b : BookOf J.Names P.Names) → numbered self.now.books t ≡ Some b → entries_of t self.now.journal ≡ b.journal }
    {
        let _ = &self.journal;
    }

    /// A post of prover `p` of task `t`, to that task's book. Its move is what the prover says at that point, or the question is stale.
    /// It takes no memory. The journal is longer by exactly this entry, or as it was if the reply is `Stale`; the other books stay.
    pub fn post(&mut self, t: u32, p: u32, qid: Qid, turn: Move) -> Reply
        requires task { 0 < t }
        requires tasks { t ≤ length self.old.books }
        requires some { 0 < p }
        requires few { (b : BookOf J.Names P.Names) → numbered self.old.books t ≡ Some b → p ≤ b.opening.setup.provers }
        requires says { (b : BookOf J.Names P.Names) → numbered self.old.books t ≡ Some b → (q : Question) → open_question (rules_of (J.ruling b.opening.judge) b.opening.setup) b.game.record_ p ≡ Some q → same_qid q.qid qid ≡ true → answer_of turn ≡ P.says b.opening.provers p q (passes_of b.game p) }
        ensures openings { openings self.new.books ≡ openings self.old.books }
        ensures posts { PostedTo J.ruling self.old.books self.old.journal t p qid (answer_of turn) result self.new.books self.new.journal }
    {
        let book = &mut self.books[t as usize - 1];
        let before = book.journal().len();
        let reply = book.post(p, qid, turn);
        book.is_legal();
        book.fits_its_room();
        note_from(&mut self.journal, t, book.journal(), before);
        reply
    }

    /// Plays the match of task `t` out on one thread, with one answerer for each of its provers.
    fn finish_task<R: Threads + Sync, A: Answerer>(
        &mut self,
        rt: &R,
        t: u32,
        answerers: &mut [A],
    ) -> Result<(), Memory>
        requires sync { IsSync R.row }
        requires task { 0 < t }
        requires tasks { t ≤ length self.old.books }
        requires count { (b : BookOf J.Names P.Names) → numbered self.old.books t ≡ Some b → length answerers.old ≡ b.opening.setup.provers }
        requires says { (b : BookOf J.Names P.Names) → numbered self.old.books t ≡ Some b → AnswerAs A.answers (P.says b.opening.provers) 1 answerers.old }
        ensures keeps { (b : BookOf J.Names P.Names) → numbered self.old.books t ≡ Some b → AnswerAs A.answers (P.says b.opening.provers) 1 answerers.new }
        ensures books { PlaysOn t result self.old.books self.new.books }
        ensures prefix { (xs : List (ℕ × Entry)) × (self.new.journal ≡ self.old.journal ++ xs) }
    {
        let book = &mut self.books[t as usize - 1];
        let before = book.journal().len();
        let ended = book.finish_alone(rt, answerers);
        book.is_legal();
        book.fits_its_room();
        note_from(&mut self.journal, t, book.journal(), before);
        ended
    }

    /// Plays the match of task `t` out, with its part of the answerers of all, from this place on. Answers the place of the next part.
    fn finish_part<R: Threads + Sync, A: Answerer>(
        &mut self,
        rt: &R,
        t: u32,
        from: usize,
        answerers: &mut [A],
    ) -> Result<usize, Memory>
        requires sync { IsSync R.row }
        requires task { 0 < t }
        requires tasks { t ≤ length self.old.books }
        requires says { map A.answers answerers.old ≡ sayings P.says (openings self.old.books) }
        requires from { from ≡ length (sayings P.says (take (t - 1) (openings self.old.books))) }
        ensures next { IfOk result (λ next. next ≡ length (sayings P.says (take t (openings self.old.books)))) }
        ensures keeps { map A.answers answerers.new ≡ map A.answers answerers.old }
        ensures books { PlaysOn t result self.old.books self.new.books }
        ensures prefix { (xs : List (ℕ × Entry)) × (self.new.journal ≡ self.old.journal ++ xs) }
    {
        let provers = self.book(t).game().setup().provers() as usize;
        let (_, rest) = answerers.split_at_mut(from);
        let (own, _) = rest.split_at_mut(provers);
        self.finish_task(rt, t, own)?;
        Ok(from + provers)
    }

    /// Plays all matches out on one thread, task after task, with one answerer for each prover, which answers as that prover. Provers are
    /// numbered through all tasks, in order of the tasks. An `Err` comes if an answerer found no memory: the books are then legal ones,
    /// part played. In any case the journal begins with the one that it had, and each answerer keeps its meaning.
    pub fn finish_alone<R: Threads + Sync, A: Answerer>(
        &mut self,
        rt: &R,
        answerers: &mut [A],
    ) -> Result<(), Memory>
        requires sync { IsSync R.row }
        requires says { map A.answers answerers.old ≡ sayings P.says (openings self.old.books) }
        ensures openings { openings self.new.books ≡ openings self.old.books }
        ensures keeps { map A.answers answerers.new ≡ map A.answers answerers.old }
        ensures prefix { (xs : List (ℕ × Entry)) × (self.new.journal ≡ self.old.journal ++ xs) }
        ensures complete { IfOk result (λ _. All (λ b. is_complete b.game.record_ ≡ true) self.new.books) }
    {
        let mut from = 0;
        for i in 0..self.count() {
            from = self.finish_part(rt, i + 1, from, answerers)?;
        }
        Ok(())
    }
}
