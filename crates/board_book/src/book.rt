//! The book of one match, and how many entries its journal can have.
ghost use denote.Param.Send.{IsSync};
ghost use Rattle.std.specs.Prelude.{◌≡◌, ◌+◌, ◌<◌, ◌≤◌, ◌^◌, ◌∷◌, ◌++◌, [], ℕ, List, Some, None, if◌then◌else◌, IfOk, IfErr, IfSome, IfNone, length, true, is_none};
ghost use Rattle.bisect_game.specs.declared.settled.Question.{Question};
ghost use Rattle.bisect_game.specs.Setup.{Setup};
ghost use Rattle.tournament.specs.Bracket.{open_question, is_complete, bracket, verdict_of};
ghost use Rattle.tournament.specs.Moves.{passes_of, begun};
ghost use Rattle.tournament.specs.Journals.{answers_of};
ghost use Rattle.rd_base.specs.Questions.{same_qid};
ghost use Rattle.tournament.specs.Posting.{answer_of, posted, reply_to};
ghost use Rattle.bisect_game.specs.Rules.{ArePlayable, rules_of};
ghost use Rattle.bisect_game.specs.Says.{AnswerAs};
ghost use Rattle.bisect_game.specs.Truth.{Truth, IsRun};
ghost use Rattle.tournament.specs.Asked.{asked};
ghost use Rattle.tournament.specs.Truthful.{IsTruthfulProver, IsSafe};
ghost use Rattle.tournament.specs.Length.{IsMost, most_entries};
ghost use Rattle.board_book.specs.declared.entry.Entry.{Entry};
ghost use Rattle.board_book.specs.Tasks.{match_of};
ghost use Rattle.board_book.specs.Entries.{IsJournal, state_after, noted, ask_on, waits_on};

use crate::entry::{Ask, Entry};
use bisect_game::{Answerer, Judge, Provers, Question, Setup};
use rd_base::{Digest32, Memory, Qid};
use std::alloc::Global;
use std::marker::Model;
use std::thread::Threads;
use tournament::{
    Match, Move, Record, Reply, Verdict, a_number_names_one_question, is_pass, is_stale, move_of,
    one_record_of_a_case, spare_is_enough, truthful_provers_are_safe,
};

/// The most bisection rounds of a dispute: the greatest k with `F^k < F * N`, for rounds of F parts and the bound N.
fn most_rounds(bound: u64, fan: u32) -> u64
    requires steps { 0 < bound }
    requires short { bound < 2 ^ 32 }
    requires parted { 1 < fan }
    requires few_parts { fan ≤ 16 }
    ensures most { IsMost fan bound result }
    ensures few { result < 36 }
{
    let mut rounds = 0;
    let mut power = 1;
    while power < bound {
        power *= u64::from(fan);
        rounds += 1;
    }
    rounds
}

/// The most entries of a journal: each question takes one for each pass and one more, and there are a claim of each
/// prover and two questions in each round.
fn entries_for(setup: Setup, rounds: u64) -> u64
    requires few { setup.provers ≤ 16 }
    requires patience { setup.patience ≤ 100 }
    requires rounds { rounds < 36 }
    ensures few { result < 2 ^ 32 }
    ensures value { result ≡ most_entries setup rounds }
{
    let provers = u64::from(setup.provers());
    (u64::from(setup.patience()) + 1) * (provers + 2 * (provers - 1) * (rounds + 1))
}

/// The most entries of a journal of a match.
fn most_entries(setup: Setup) -> u64
    requires few { setup.provers ≤ 16 }
    requires patience { setup.patience ≤ 100 }
    ensures few { result < 2 ^ 32 }
    ensures most { (k : _) × IsMost setup.fan setup.bound k × (result ≡ most_entries setup k) }
{
    entries_for(setup, most_rounds(setup.bound(), setup.fan()))
}

/// A prover with an open question.
#[derive(Clone, Copy)]
struct Asked {
    /// The number of the prover, from 1.
    p: u32,
    question: Question,
    /// Its passes on the question.
    passes: u32,
}

/// What a book is opened with. No call of a book changes it. Contracts see it of every book, and of every seat of a board.
#[derive(Clone, Copy)]
pub struct Opening<N, M> {
    /// The names of the judge.
    pub judge: N,
    /// The names of the provers.
    pub provers: M,
    /// The numbers of the match.
    pub setup: Setup,
}

/// A match with its journal and its provers.
///
/// Contracts see its opening, its journal, and the state of the match. No call changes the opening.
#[derive(Drop)]
pub struct Book<J: Judge + Drop, P: Provers + Drop> {
    game: Match<J>,
    journal: Vec<Entry>,
    provers: P,
    room: u64,
}

impl<J: Judge + Drop, P: Provers + Drop> Model for Book<J, P> {
    ghost use Rattle.std.specs.Prelude.{vec_capacity};
    ghost use Rattle.tournament.specs.Match.{rules_in};
    ghost use Rattle.board_book.specs.Keeping.{IsBook};
    ghost use Rattle.board_book.specs.Tasks.{BookOf};

    ghost Value = { BookOf J.Names P.Names };

    ghost view = { λ b. record { opening = record { judge = b.game.judge; provers = P.names b.provers; setup = b.game.setup }; journal = b.journal.items; game = b.game.game } };

    ghost invariant = { λ b. IsBook (rules_in J.ruling b.game) (P.says (P.names b.provers)) (P.many (P.names b.provers)) b.journal.items b.game.game b.room (vec_capacity b.journal) };
}

impl<J: Judge + Drop, P: Provers + Drop> Book<J, P> {
    /// An empty book of these provers (1 to 16), over `bound` steps (1 to 4,294,967,295) from the root `start`, of which a round cuts
    /// its interval in `fan` parts (2 to 16), with a patience of 0 to 100 passes. It takes the memory of the whole match and of
    /// every journal that it can have. An `Err` is out of memory.
    pub fn open(
        alloc: Global,
        judge: J,
        provers: P,
        bound: u64,
        fan: u32,
        patience: u32,
        start: Digest32,
    ) -> Result<Book<J, P>, Memory>
        requires some { 0 < P.many (P.names provers) }
        requires few { P.many (P.names provers) ≤ 16 }
        requires steps { 0 < bound }
        requires short { bound < 2 ^ 32 }
        requires parted { 1 < fan }
        requires few_parts { fan ≤ 16 }
        requires patience { patience ≤ 100 }
        ensures { let setup : Setup = record { provers = P.many (P.names provers); bound = bound; fan = fan; patience = patience; start = start } in IfOk result (λ b. b ≡ record { opening = record { judge = J.names judge; provers = P.names provers; setup = setup }; journal = []; game = begun (rules_of (J.ruling (J.names judge)) setup) }) }
    {
        let count = provers.count();
        let setup = Setup::new(count, bound, fan, patience, start);
        let room = most_entries(setup);
        Ok(Book {
            game: Match::new(alloc, judge, count, bound, fan, patience, start)?,
            journal: Vec::with_capacity(alloc, room as usize)?,
            provers,
            room,
        })
    }

    /// The match.
    pub fn game(&self) -> &Match<J>
        ensures value { result.now ≡ match_of self.now }
        ensures few { self.now.opening.setup.provers ≤ 16 }
    {
        &self.game
    }

    /// The match, without the journal and the provers. It takes no memory.
    pub fn into_game(self) -> Match<J>
        ensures value { result ≡ match_of self }
        ensures few { self.opening.setup.provers ≤ 16 }
    {
        let Book { game, .. } = self;
        game
    }

    /// The posts that weren't stale, in their order.
    pub fn journal(&self) -> &[Entry]
        ensures { result.now ≡ self.now.journal }
    {
        self.journal.as_slice()
    }

    /// The verdict; `None` if and only if a question is open.
    pub fn verdict(&self) -> Option<Verdict>
        ensures { result ≡ (if is_complete self.now.game.record_ then Some (verdict_of (rules_of (J.ruling self.now.opening.judge) self.now.opening.setup) self.now.game.record_) else None) }
    {
        self.game.verdict()
    }

    /// What is settled so far.
    pub fn record(&self) -> &Record
        ensures { result.now ≡ self.now.game.record_ }
    {
        self.game.record()
    }

    /// What was settled. It takes no memory.
    pub fn into_record(self) -> Record
        ensures { result ≡ self.game.record_ }
    {
        self.into_game().into_record()
    }

    /// What prover `p`, from 1 to their count, is asked: `Nothing` if and only if it has no open question and the match isn't over, `Over`
    /// if and only if it has none and the match has ended.
    pub fn ask(&self, p: u32) -> Ask
        requires some { 0 < p }
        requires few { p ≤ self.now.opening.setup.provers }
        ensures { result ≡ ask_on self.now.game p (open_question (rules_of (J.ruling self.now.opening.judge) self.now.opening.setup) self.now.game.record_ p) }
    {
        match self.game.question(p) {
            Some(question) => Ask::Question(question, self.game.passes(p)),
            None => {
                if self.game.is_over() {
                    Ask::Over
                } else {
                    Ask::Nothing
                }
            }
        }
    }

    /// Whether prover `p`, from 1 to their count, has an open question on which it passes now.
    pub fn waits(&self, p: u32) -> bool
        requires some { 0 < p }
        requires few { p ≤ self.now.opening.setup.provers }
        ensures { result ≡ waits_on (P.says self.now.opening.provers) self.now.game p (open_question (rules_of (J.ruling self.now.opening.judge) self.now.opening.setup) self.now.game.record_ p) }
    {
        match self.game.question(p) {
            Some(question) => self.passes_on(p, &question, self.game.passes(p)),
            None => false,
        }
    }

    /// Whether prover `p`, from 1 to their count, passes on the question after this many passes.
    pub fn passes_on(&self, p: u32, question: &Question, passes: u32) -> bool
        requires some { 0 < p }
        requires few { p ≤ self.now.opening.setup.provers }
        ensures { result ≡ is_none (P.says self.now.opening.provers p question.now passes) }
    {
        self.provers.waits(p, question, passes)
    }

    /// The journal is legal, and the match is its state.
    pub fn is_legal(&self)
        ensures legal { let rules = rules_of (J.ruling self.now.opening.judge) self.now.opening.setup in IsJournal rules (P.says self.now.opening.provers) self.now.journal (begun rules) }
        ensures state { let rules = rules_of (J.ruling self.now.opening.judge) self.now.opening.setup in state_after rules (P.says self.now.opening.provers) self.now.journal ≡ self.now.game }
    {
        let _ = &self.room;
    }

    /// It is played by rules by which a match can be played.
    fn is_playable(&self)
        ensures { ArePlayable (rules_of (J.ruling self.now.opening.judge) self.now.opening.setup) }
    {
        let _ = &self.room;
    }

    /// Its journal is no longer than a legal one can be.
    pub(crate) fn fits_its_room(&self)
        ensures { let setup = self.now.opening.setup in (k : ℕ) × IsMost setup.fan setup.bound k × (length self.now.journal ≤ most_entries setup k) }
    {
        spare_is_enough();
        let _ = &self.room;
    }

    /// The most entries that a legal journal can have. The book has memory for them.
    pub fn room(&self) -> u64
        ensures most { let rules = rules_of (J.ruling self.now.opening.judge) self.now.opening.setup in (k : ℕ) × IsMost rules.setup.fan rules.setup.bound k × (result ≡ most_entries rules.setup k) }
        ensures holds { length self.now.journal ≤ result }
        ensures few { result < 2 ^ 32 }
    {
        spare_is_enough();
        self.room
    }

    /// How many entries can come at most: together with the journal they are the most that a legal journal can have.
    pub fn spare(&self) -> u64
        ensures { let rules = rules_of (J.ruling self.now.opening.judge) self.now.opening.setup in (k : ℕ) × IsMost rules.setup.fan rules.setup.bound k × (result + length self.now.journal ≡ most_entries rules.setup k) }
    {
        spare_is_enough();
        self.room - self.journal.len() as u64
    }

    /// A post of prover `p`, from 1 to their count. Its move is what the prover says at that point, or the question is stale.
    /// It takes no memory. The journal is longer by exactly this entry, or as it was if the reply is `Stale`.
    pub fn post(&mut self, p: u32, qid: Qid, turn: Move) -> Reply
        requires some { 0 < p }
        requires few { p ≤ self.old.opening.setup.provers }
        requires says { (q : Question) → open_question (rules_of (J.ruling self.old.opening.judge) self.old.opening.setup) self.old.game.record_ p ≡ Some q → same_qid q.qid qid ≡ true → answer_of turn ≡ P.says self.old.opening.provers p q (passes_of self.old.game p) }
        ensures opening { self.new.opening ≡ self.old.opening }
        ensures journal { self.new.journal ≡ noted self.old.journal (record { p = p; qid = qid; pass = is_none (answer_of turn); reply = result }) }
        ensures state { self.new.game ≡ posted (rules_of (J.ruling self.old.opening.judge) self.old.opening.setup) self.old.game p qid (answer_of turn) }
        ensures reply { result ≡ reply_to (rules_of (J.ruling self.old.opening.judge) self.old.opening.setup) self.old.game p qid (answer_of turn) }
    {
        spare_is_enough();
        let pass = is_pass(&turn);
        let reply = self.game.post(p, qid, turn);
        if !is_stale(reply) {
            self.journal.push_reserved(Entry {
                p,
                qid,
                pass,
                reply,
            });
        }
        reply
    }

    /// The lowest prover with an open question, with that question and its passes.
    fn next_asked(&self) -> Option<Asked>
        ensures found { IfSome result (λ x. (0 < x.p) × (x.p ≤ self.now.opening.setup.provers) × (open_question (rules_of (J.ruling self.now.opening.judge) self.now.opening.setup) self.now.game.record_ x.p ≡ Some x.question) × (x.passes ≡ passes_of self.now.game x.p)) }
        ensures lowest { IfSome result (λ x. (p : ℕ) → 0 < p → p < x.p → open_question (rules_of (J.ruling self.now.opening.judge) self.now.opening.setup) self.now.game.record_ p ≡ None) }
        ensures none { IfNone result (is_complete self.now.game.record_ ≡ true) }
    {
        let provers = self.game.setup().provers();
        for i in 0..provers {
            if let Some(question) = self.game.question(i + 1) {
                let passes = self.game.passes(i + 1);
                return Some(Asked {
                    p: i + 1,
                    question,
                    passes,
                });
            }
        }
        self.game.asks_nobody_once_over();
        None
    }

    /// An answerer moves on its open question.
    fn serve<R: Threads + Sync, A: Answerer>(
        &mut self,
        rt: &R,
        asked: Asked,
        answerer: &mut A,
    ) -> Result<(), Memory>
        requires sync { IsSync R.row }
        requires some { 0 < asked.p }
        requires few { asked.p ≤ self.old.opening.setup.provers }
        requires asked { open_question (rules_of (J.ruling self.old.opening.judge) self.old.opening.setup) self.old.game.record_ asked.p ≡ Some asked.question }
        requires passes { asked.passes ≡ passes_of self.old.game asked.p }
        requires says { A.answers answerer.old ≡ P.says self.old.opening.provers asked.p }
        ensures opening { self.new.opening ≡ self.old.opening }
        ensures keeps { A.answers answerer.new ≡ A.answers answerer.old }
        ensures longer { IfOk result (λ _. (e : Entry) × (self.new.journal ≡ self.old.journal ++ e ∷ [])) }
        ensures same { IfErr result (λ _. self.new ≡ self.old) }
    {
        let answer = answerer.answer(rt, &asked.question, asked.passes)?;
        self.post(asked.p, asked.question.qid, move_of(answer));
        Ok(())
    }

    /// Plays the match out on one thread, with one answerer for each prover, which answers as that prover. An `Err` comes if an answerer
    /// found no memory: the book is then a legal one, part played. In any case the journal begins with the one that it had, and each
    /// answerer keeps its meaning.
    pub fn finish_alone<R: Threads + Sync, A: Answerer>(
        &mut self,
        rt: &R,
        answerers: &mut [A],
    ) -> Result<(), Memory>
        requires sync { IsSync R.row }
        requires count { length answerers.old ≡ self.old.opening.setup.provers }
        requires says { AnswerAs A.answers (P.says self.old.opening.provers) 1 answerers.old }
        ensures opening { self.new.opening ≡ self.old.opening }
        ensures keeps { AnswerAs A.answers (P.says self.old.opening.provers) 1 answerers.new }
        ensures prefix { (es : List Entry) × (self.new.journal ≡ self.old.journal ++ es) }
        ensures complete { IfOk result (λ _. is_complete self.new.game.record_ ≡ true) }
    {
        let left = self.spare();
        for _ in 0..left {
            let Some(asked) = self.next_asked() else {
                return Ok(());
            };
            self.serve(rt, asked, &mut answerers[asked.p as usize - 1])?;
        }
        self.is_full();
        Ok(())
    }

    /// If the journal is as long as it can be, the match is over.
    fn is_full(&self)
        requires { let rules = rules_of (J.ruling self.now.opening.judge) self.now.opening.setup in (k : ℕ) × IsMost rules.setup.fan rules.setup.bound k × (length self.now.journal ≡ most_entries rules.setup k) }
        ensures { is_complete self.now.game.record_ ≡ true }
    {
        spare_is_enough();
        self.game.asks_nobody_once_over();
    }

    /// Order does not matter: once the match is over its record is that of the case, the bracket over what each question is
    /// settled as by what the provers say.
    pub fn has_the_record_of_the_case(&self)
        ensures { let rules = rules_of (J.ruling self.now.opening.judge) self.now.opening.setup in is_complete self.now.game.record_ ≡ true → self.now.game.record_ ≡ bracket rules (answers_of rules (P.says self.now.opening.provers)) }
    {
        one_record_of_a_case();
        self.is_playable();
        self.is_legal();
    }

    /// A number names one question: an open question is the one that the record of the case asks its prover under its number.
    pub fn asks_what_the_case_asks(&self)
        ensures { let rules = rules_of (J.ruling self.now.opening.judge) self.now.opening.setup in (p : ℕ) (q : Question) → 0 < p → open_question rules self.now.game.record_ p ≡ Some q → asked rules (bracket rules (answers_of rules (P.says self.now.opening.provers))) p q.qid ≡ Some q.kind }
    {
        a_number_names_one_question();
        self.is_playable();
        self.is_legal();
    }

    /// The dispute theorem: a prover that answers truly within its patience each question that the record of the case asks it
    /// stays, its settled answers are given and true, and once the match is over it is live and the verdict is right.
    pub fn keeps_truthful_provers(&self)
        ensures { let rules = rules_of (J.ruling self.now.opening.judge) self.now.opening.setup in (t : Truth) (p : ℕ) → IsRun rules t → 0 < p → p ≤ self.now.opening.setup.provers → IsTruthfulProver rules (P.says self.now.opening.provers) t p → IsSafe rules t p self.now.game.record_ }
    {
        truthful_provers_are_safe();
        self.is_playable();
        self.is_legal();
    }
}
