//! A match before a judge.
ghost use Rattle.std.specs.Prelude.{◌≡◌, ◌↔◌, ℕ, ◌+◌, ◌-◌, ◌*◌, ◌<◌, ◌≤◌, ◌^◌, true, false, List, length, Some, None, IfOk, replicate, if◌then◌else◌};
ghost use Rattle.bisect_game.specs.Truth.{Truth, IsRun};
ghost use Rattle.bisect_game.specs.Setup.{Setup, AreInRange};
ghost use Rattle.tournament.specs.Bracket.{open_question, is_complete, verdict_of};
ghost use Rattle.tournament.specs.Moves.{passes_of, settled_by, moved, begun};
ghost use Rattle.tournament.specs.Posting.{answer_of, posted, reply_by, reply_to, passes_on, Post, after_posts};
ghost use Rattle.bisect_game.specs.Rules.{rules_of};
ghost use Rattle.tournament.specs.Match.{rules_in};
ghost use Rattle.tournament.specs.Keeping.{IsMove};
ghost use Rattle.tournament.specs.Rulings.{rulings_of};
ghost use Rattle.tournament.specs.Theorem.{AreTrue, Stays, IsRightVerdict, AllShort};
ghost use Rattle.tournament.specs.FewPosts.{AsksSomebody};
ghost use Rattle.tournament.specs.Survivors.{HaveOneClaim};
ghost use Rattle.tournament.specs.declared.reading.Verdict.TheVariants.{Accept};

use crate::laws::{
    a_match_has_few_disputes_and_rounds, matches_are_never_stuck, nobody_asked_means_over,
    survivors_agree, the_verdict_is_right, truthful_provers_stay,
};
use crate::posting::{Move, Reply, judged, reply_by};
use crate::reading::{Verdict, all_closed, all_there, question_in};
use crate::sheet::{Record, Sheet};
use bisect_game::{Claimed, Judge, Question, Settled, Setup};
use rd_base::{Digest32, Memory, Qid, same_qid};
use std::alloc::Global;
use std::marker::Model;

/// This many counts of passes, all 0.
fn no_passes(alloc: Global, many: usize) -> Result<Vec<u32>, Memory>
    ensures { IfOk result (λ v. v.items ≡ replicate many 0) }
{
    Ok(vec![in alloc; 0; many]?)
}

/// A match before a judge. Once it was made, no call of it takes memory.
///
/// Contracts see the judge's names, the numbers by which it is played, and its state (`specs/Match.antt`): the record and the
/// passes on each open question.
#[derive(Drop)]
pub struct Match<J: Judge + Drop> {
    judge: J,
    sheet: Sheet,
    passed: Vec<u32>,
    live: Vec<Claimed>,
}

impl<J: Judge + Drop> Model for Match<J> {
    ghost use Rattle.std.specs.Prelude.{vec_capacity};
    ghost use Rattle.tournament.specs.Match.{MatchOf};
    ghost use Rattle.tournament.specs.Keeping.{IsMatch};

    ghost Value = { MatchOf J.Names };

    ghost view = { λ m. record { judge = J.names m.judge; setup = m.sheet.setup; game = record { record_ = m.sheet.record_; passed = m.passed.items } } };

    ghost invariant = { λ m. IsMatch (J.ruling (J.names m.judge)) m.sheet m.passed.items (vec_capacity m.live) };
}

impl<J: Judge + Drop> Match<J> {
    /// A match that begins, of `provers` provers (1 to 65,536), over `bound` steps (1 to 4,294,967,295) from the root `start`, of which
    /// a round cuts its interval in `fan` parts (2 to 16), with `patience` passes allowed on a question. It takes the memory of the
    /// whole match.
    pub fn new(
        alloc: Global,
        judge: J,
        provers: u32,
        bound: u64,
        fan: u32,
        patience: u32,
        start: Digest32,
    ) -> Result<Match<J>, Memory>
        requires some { 0 < provers }
        requires few { provers ≤ 2 ^ 16 }
        requires steps { 0 < bound }
        requires short { bound < 2 ^ 32 }
        requires parted { 1 < fan }
        requires few_parts { fan ≤ 16 }
        ensures { let setup : Setup = record { provers = provers; bound = bound; fan = fan; patience = patience; start = start } in IfOk result (λ m. m ≡ record { judge = J.names judge; setup = setup; game = begun (rules_of (J.ruling (J.names judge)) setup) }) }
    {
        let setup = Setup::new(provers, bound, fan, patience, start);
        Ok(Match {
            judge,
            sheet: Sheet::new(alloc, setup)?,
            passed: no_passes(alloc, provers as usize)?,
            live: Vec::with_capacity(alloc, provers as usize)?,
        })
    }

    /// The numbers by which it is played.
    pub fn setup(&self) -> Setup
        ensures is { result ≡ self.now.setup }
        ensures ranges { AreInRange result }
    {
        let setup = self.sheet.setup();
        setup.is_in_range();
        setup
    }

    /// Whether it is over: nothing is open.
    pub fn is_over(&self) -> bool
        ensures { result ≡ is_complete self.now.game.record_ }
    {
        let record = &self.sheet.record_;
        all_there(record.claims()) && all_closed(record.disputes())
    }

    /// The verdict; `None` if and only if a question is open.
    pub fn verdict(&self) -> Option<Verdict>
        ensures { result ≡ (if is_complete self.now.game.record_ then Some (verdict_of (rules_in J.ruling self.now) self.now.game.record_) else None) }
    {
        if self.is_over() {
            Some(self.sheet.verdict(&self.judge))
        } else {
            None
        }
    }

    /// The open question of a prover, from 1 to their count; `None` if and only if it has none.
    pub fn question(&self, p: u32) -> Option<Question>
        requires some { 0 < p }
        requires few { p ≤ self.now.setup.provers }
        ensures { result ≡ open_question (rules_in J.ruling self.now) self.now.game.record_ p }
    {
        let record = &self.sheet.record_;
        if record.claims()[p as usize - 1].is_none() {
            return Some(Question::claim());
        }
        question_in(record.disputes(), p)
    }

    /// How often a prover has passed on its open question; 0 without one.
    pub fn passes(&self, p: u32) -> u32
        requires some { 0 < p }
        requires few { p ≤ self.now.setup.provers }
        ensures { result ≡ passes_on (rules_in J.ruling self.now) self.now.game p }
    {
        if self.question(p).is_some() {
            self.passed[p as usize - 1]
        } else {
            0
        }
    }

    /// Counts a pass.
    fn count_pass(&mut self, p: u32)
        requires some { 0 < p }
        requires few { p ≤ self.old.setup.provers }
        requires room { passes_of self.old.game p + 1 < 2 ^ 32 }
        requires moves { IsMove (rules_in J.ruling self.old) self.old.game p None }
        ensures names { self.new.judge ≡ self.old.judge }
        ensures setup { self.new.setup ≡ self.old.setup }
        ensures state { self.new.game ≡ moved (rules_in J.ruling self.old) self.old.game p None }
    {
        self.passed[p as usize - 1] += 1;
    }

    /// What a prover is asked is settled, and the next stage begins if it is due.
    fn settle(&mut self, p: u32, settled: Settled)
        requires some { 0 < p }
        requires few { p ≤ self.old.setup.provers }
        requires moves { IsMove (rules_in J.ruling self.old) self.old.game p (Some settled) }
        ensures names { self.new.judge ≡ self.old.judge }
        ensures setup { self.new.setup ≡ self.old.setup }
        ensures state { self.new.game ≡ moved (rules_in J.ruling self.old) self.old.game p (Some settled) }
    {
        self.passed[p as usize - 1] = 0;
        let Match {
            judge,
            sheet,
            live,
            ..
        } = self;
        sheet.settle(judge, p, settled, live);
    }

    /// A move on the open question.
    fn take(&mut self, p: u32, question: Question, turn: Move) -> Reply
        requires some { 0 < p }
        requires few { p ≤ self.old.setup.provers }
        requires asked { open_question (rules_in J.ruling self.old) self.old.game.record_ p ≡ Some question }
        ensures names { self.new.judge ≡ self.old.judge }
        ensures setup { self.new.setup ≡ self.old.setup }
        ensures state { let rules = rules_in J.ruling self.old in self.new.game ≡ moved rules self.old.game p (settled_by rules question (passes_of self.old.game p) (answer_of turn)) }
        ensures reply { let rules = rules_in J.ruling self.old in result ≡ reply_by (settled_by rules question (passes_of self.old.game p) (answer_of turn)) }
    {
        match turn {
            Move::Give(answer) => {
                let settled = judged(&self.judge, question.kind, answer);
                let reply = reply_by(&settled);
                self.settle(p, settled);
                reply
            }
            Move::Pass => {
                if self.passed[p as usize - 1] < self.setup().patience() {
                    self.count_pass(p);
                    Reply::Taken
                } else {
                    self.settle(p, Settled::Spent);
                    Reply::Spent
                }
            }
        }
    }

    /// A post of a prover, from 1 to their count, on the question with this number. It takes no memory.
    ///
    /// `Stale` comes if and only if that isn't the prover's open question; it carries the open one, and nothing changes.
    /// Else `Spent` comes exactly at the pass after the patience, and `Faulty` exactly at an answer of another kind than
    /// asked, a list of another length than the cuts, or an unsound claim.
    pub fn post(&mut self, p: u32, qid: Qid, turn: Move) -> Reply
        requires some { 0 < p }
        requires few { p ≤ self.old.setup.provers }
        ensures names { self.new.judge ≡ self.old.judge }
        ensures setup { self.new.setup ≡ self.old.setup }
        ensures state { self.new.game ≡ posted (rules_in J.ruling self.old) self.old.game p qid (answer_of turn) }
        ensures reply { result ≡ reply_to (rules_in J.ruling self.old) self.old.game p qid (answer_of turn) }
    {
        let Some(question) = self.question(p) else {
            return Reply::Stale(None);
        };
        if !same_qid(question.qid, qid) {
            return Reply::Stale(Some(question.qid));
        }
        self.take(p, question, turn)
    }

    /// Its state is that after some posts: the laws over lists of posts hold of it.
    pub fn is_after_posts(&self)
        ensures { (xs : List Post) × (after_posts (rules_in J.ruling self.now) xs (begun (rules_in J.ruling self.now)) ≡ self.now.game) }
    {
        let _ = &self.live;
    }

    /// The dispute theorem, whoever posted what: a prover whose settled answers so far are all given and true stays (`stay`),
    /// and if there is one the verdict of a match that is over is right (`verdict`).
    pub fn keeps_true_provers(&self)
        ensures stay { let rules = rules_in J.ruling self.now in (t : Truth) (p : ℕ) → IsRun rules t → 0 < p → AreTrue rules t p self.now.game.record_ → Stays rules t p self.now.game.record_ }
        ensures verdict { let rules = rules_in J.ruling self.now in (t : Truth) (p : ℕ) → IsRun rules t → 0 < p → AreTrue rules t p self.now.game.record_ → is_complete self.now.game.record_ ≡ true → IsRightVerdict rules t self.now.game.record_ (verdict_of rules self.now.game.record_) }
    {
        truthful_provers_stay();
        the_verdict_is_right();
        let _ = &self.live;
    }

    /// Few rounds: fewer disputes than provers, and in each k bisection rounds with `F^k < F * N` for rounds of F parts and the
    /// bound N, and at most one proof round. So all proof rounds together have at most `2 (m - 1)` sides. For each the code asks the judge
    /// once where a proof leads.
    pub fn has_few_disputes_and_rounds(&self)
        ensures disputes { length self.now.game.record_.disputes < self.now.setup.provers }
        ensures rounds { AllShort (rules_in J.ruling self.now) self.now.game.record_.disputes }
        ensures rulings { rulings_of self.now.game.record_.disputes ≤ 2 * (self.now.setup.provers - 1) }
    {
        a_match_has_few_disputes_and_rounds();
        let _ = &self.live;
    }

    /// Nobody is asked if and only if it is over.
    pub fn asks_nobody_once_over(&self)
        ensures { let rules = rules_in J.ruling self.now in ((p : ℕ) → 0 < p → p ≤ rules.setup.provers → open_question rules self.now.game.record_ p ≡ None) ↔ (is_complete self.now.game.record_ ≡ true) }
    {
        nobody_asked_means_over();
        let _ = &self.live;
    }

    /// It is never stuck, whoever posted what: unless it is over, a prover has an open question.
    pub fn is_never_stuck(&self)
        ensures { is_complete self.now.game.record_ ≡ false → AsksSomebody (rules_in J.ruling self.now) self.now.game.record_ }
    {
        matches_are_never_stuck();
        let _ = &self.live;
    }

    /// Its survivors agree, whoever posted what: once it is over and a claim is accepted, every live prover has that claim, and whoever
    /// gave another one is out.
    pub fn has_survivors_that_agree(&self)
        ensures { (n : ℕ) → is_complete self.now.game.record_ ≡ true → verdict_of (rules_in J.ruling self.now) self.now.game.record_ ≡ Accept n → HaveOneClaim self.now.game.record_ n }
    {
        survivors_agree();
        let _ = &self.live;
    }

    /// What is settled so far.
    pub fn record(&self) -> &Record
        ensures { result.now ≡ self.now.game.record_ }
    {
        &self.sheet.record_
    }

    /// What was settled. It takes no memory.
    pub fn into_record(self) -> Record
        ensures { result ≡ self.game.record_ }
    {
        let Match { sheet, .. } = self;
        let Sheet { record_, .. } = sheet;
        record_
    }
}
