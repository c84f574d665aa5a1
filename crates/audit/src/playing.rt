//! A line of a text is played.
ghost use Rattle.std.specs.Prelude.{◌≡◌, ◌<◌, ◌≤◌, not, true, Some, None, IfOk};
ghost use Rattle.bisect_game.specs.declared.settled.Settled.TheVariants.{Spent};
ghost use Rattle.bisect_game.specs.Rules.{is_fit, judged};
ghost use Rattle.tournament.specs.Bracket.{open_question, settle};
ghost use Rattle.tournament.specs.Match.{rules_in};
ghost use Rattle.audit.specs.LineByLine.{is_right, cause_of};
ghost use Rattle.audit.specs.BetweenLines.{fresh, is_faulty};

use crate::finding::Cause;
use crate::next_entry::next;
use bisect_game::{Judge, Question, Settled};
use rd_base::{Answer, Memory, same_qid};
use std::alloc::Global;
use tournament::{Match, Move, Reply};
use transcript_text::TextMove;

/// A prover spends its open question: it passes one time more than the patience.
fn spend<J: Judge + Drop>(played: &mut Match<J>, p: u32, question: Question)
    requires some { 0 < p }
    requires few { p ≤ played.old.setup.provers }
    requires fresh { played.old.game ≡ fresh (rules_in J.ruling played.old) played.old.game.record_ }
    requires asked { open_question (rules_in J.ruling played.old) played.old.game.record_ p ≡ Some question }
    ensures names { played.new.judge ≡ played.old.judge }
    ensures setup { played.new.setup ≡ played.old.setup }
    ensures state { let rules = rules_in J.ruling played.old in played.new.game ≡ fresh rules (settle rules p Spent played.old.game.record_) }
{
    let patience = played.setup().patience();
    'passes: for _i in 0..patience {
        let _ = played.post(p, question.qid, Move::Pass);
    }
    let _ = played.post(p, question.qid, Move::Pass);
}

/// Whether a reply is that to a faulty answer.
fn is_faulty(reply: Reply) -> bool
    ensures { result ≡ is_faulty reply }
{
    match reply {
        Reply::Faulty => true,
        _ => false,
    }
}

/// A prover answers its open question. The result is whether the answer is faulty.
fn answer<J: Judge + Drop>(played: &mut Match<J>, p: u32, question: Question, given: Answer) -> bool
    requires some { 0 < p }
    requires few { p ≤ played.old.setup.provers }
    requires fresh { played.old.game ≡ fresh (rules_in J.ruling played.old) played.old.game.record_ }
    requires asked { open_question (rules_in J.ruling played.old) played.old.game.record_ p ≡ Some question }
    ensures names { played.new.judge ≡ played.old.judge }
    ensures setup { played.new.setup ≡ played.old.setup }
    ensures state { let rules = rules_in J.ruling played.old in played.new.game ≡ fresh rules (settle rules p (judged rules.ruling question.kind given) played.old.game.record_) }
    ensures faulty { result ≡ not (is_fit (J.ruling played.old.judge) question.kind given) }
{
    let reply = played.post(p, question.qid, Move::Give(given));
    is_faulty(reply)
}

/// Settles the open question of a prover as a line states it. The result is whether the line is right to call the answer given or faulty;
/// if it isn't, the question was settled otherwise.
fn settle<J: Judge + Drop>(
    alloc: Global,
    played: &mut Match<J>,
    p: u32,
    question: Question,
    settled: &Settled,
) -> Result<bool, Memory>
    requires some { 0 < p }
    requires few { p ≤ played.old.setup.provers }
    requires fresh { played.old.game ≡ fresh (rules_in J.ruling played.old) played.old.game.record_ }
    requires asked { open_question (rules_in J.ruling played.old) played.old.game.record_ p ≡ Some question }
    ensures names { played.new.judge ≡ played.old.judge }
    ensures setup { played.new.setup ≡ played.old.setup }
    ensures right { IfOk result (λ right. right ≡ is_right (rules_in J.ruling played.old) question.kind settled.now) }
    ensures state { let rules = rules_in J.ruling played.old in IfOk result (λ right. right ≡ true → played.new.game ≡ fresh rules (settle rules p settled.now played.old.game.record_)) }
{
    match settled {
        Settled::Given(given) => {
            let given = given.copy(alloc)?;
            Ok(!answer(played, p, question, given))
        }
        Settled::Faulty(given) => {
            let given = given.copy(alloc)?;
            Ok(answer(played, p, question, given))
        }
        Settled::Spent => {
            spend(played, p, question);
            Ok(true)
        }
    }
}

/// A move is played, or refused for a cause.
#[tactic(auto, unfolding(crate::specs::LineByLine::cause_of))]
pub(crate) fn play<J: Judge + Drop>(
    alloc: Global,
    played: &mut Match<J>,
    entry: &TextMove,
) -> Result<Option<Cause>, Memory>
    requires some { 0 < entry.now.prover }
    requires few { entry.now.prover ≤ played.old.setup.provers }
    requires fresh { played.old.game ≡ fresh (rules_in J.ruling played.old) played.old.game.record_ }
    ensures names { played.new.judge ≡ played.old.judge }
    ensures setup { played.new.setup ≡ played.old.setup }
    ensures cause { IfOk result (λ cause. cause ≡ cause_of (rules_in J.ruling played.old) played.old.game.record_ entry.now) }
    ensures state { let rules = rules_in J.ruling played.old in IfOk result (λ cause. cause ≡ None → played.new.game ≡ fresh rules (settle rules entry.now.prover entry.now.settled played.old.game.record_)) }
{
    if played.is_over() {
        return Ok(Some(Cause::MovesAfterEnd));
    }
    let Some((p, question)) = next(played.record()) else {
        return Ok(Some(Cause::NotAsked));
    };
    if p != entry.prover as usize || !same_qid(question.qid, entry.qid) {
        return Ok(Some(Cause::NotAsked));
    }
    if settle(alloc, played, entry.prover, question, &entry.settled)? {
        Ok(None)
    } else {
        Ok(Some(Cause::OtherReply))
    }
}
