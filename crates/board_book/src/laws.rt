//! Laws, each the contract of a function that does nothing. Their clauses hold of all journals, openings and answerers.
ghost use Rattle.board_book.specs.Alone.{TasksAreAlone, OwnEntriesDecide};
ghost use Rattle.board_book.specs.CaseRecords.{JournalsHaveTheRecordOfTheCase, TasksHaveTheRecordOfTheirCase};
ghost use Rattle.board_book.specs.Keeping.{NumbersAgree, AreToldApart, SayInOrder};

use bisect_game::{Answerer, Judge, Provers};
use tournament::one_record_of_a_case;

/// Each task is alone: the entries of a task in a legal journal of all are a legal journal of that task, with the same replies, and the
/// task has the state after these alone (`alone`). Two journals that agree on them give the same question, the same reply and the same
/// record of the task (`decide`).
pub fn tasks_are_alone()
    ensures alone { TasksAreAlone }
    ensures decide { OwnEntriesDecide }
{}

/// The result of a case doesn't depend on the schedule. Each legal journal of a match, a list of entries, after which the match is over
/// ends in the record of the case and its verdict (`case_`); and so do the entries of each task in every legal journal of all tasks after
/// which the match of that task is over (`task`).
#[tactic(auto, using(crate::proofs::CaseLemmas::journals_have_the_record))]
pub fn journals_have_the_record_of_the_case()
    ensures case_ { JournalsHaveTheRecordOfTheCase }
    ensures task { TasksHaveTheRecordOfTheirCase }
{
    one_record_of_a_case();
}

/// An opening has the number of its book, and a task the number of its opening, from 1 to their count.
#[tactic(auto, using(crate::proofs::KeepingLemmas::are_numbered))]
pub fn tasks_are_numbered<J: Judge, P: Provers>()
    ensures { NumbersAgree J.ruling P.says }
{}

/// The entries of a task are separated from those of others: in a journal behind another, and in entries that are all its own.
#[tactic(auto, using(crate::proofs::AloneLemmas::are_told_apart))]
pub fn entries_are_told_apart()
    ensures { AreToldApart }
{}

/// Answerers that answer as the provers of a task say, one after another, what these say.
#[tactic(auto, using(crate::proofs::FinishLemmas::said_in_order))]
pub fn answerers_say_in_order<A: Answerer>()
    ensures { SayInOrder A.answers }
{}
