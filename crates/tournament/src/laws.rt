//! The theorem of a match, each part the contract of a function that does nothing.
ghost use Rattle.tournament.specs.Settling.{OneRecord};
ghost use Rattle.tournament.specs.Fitting.{PostsSettle};
ghost use Rattle.tournament.specs.Posting.{NobodyAskedIsOver};
ghost use Rattle.tournament.specs.Theorem.{TruthfulStay, VerdictIsRight, FewDisputes, FewRounds};
ghost use Rattle.tournament.specs.Journals.{OrderDoesNotMatter, RecordOfCase, LegalListsArePosts};
ghost use Rattle.tournament.specs.OpenDisputes.{OpenDisputesShareNoProver, SidesAreTwoProvers};
ghost use Rattle.tournament.specs.SoFar.{RecordIsBracket};
ghost use Rattle.tournament.specs.OfCases.{EndedMatchesAreOfCases};
ghost use Rattle.tournament.specs.FewPosts.{FewQuestions, QuestionsCost, PostsByQuestions, FewPostsOfEach, FewPosts, FewStages, NeverStuck, OpenIsNotStale, FullIsOver};
ghost use Rattle.tournament.specs.Stages.{LowestIsNeverIdle, LowestPlaysAll, FirstPlaysAll, StagesHaveDisputes};
ghost use Rattle.tournament.specs.Delay.{FewRoundsInSequence};
ghost use Rattle.tournament.specs.Periods.{PeriodsAreFew};
ghost use Rattle.tournament.specs.Undecided.{DisputesPutOutOrCollide, CollisionsPutOutNobody, OneIsUndecided};
ghost use Rattle.tournament.specs.Survivors.{SurvivorsAgree, SidesHaveTwoRoots, OneRootNeverMeets, TruthfulNeverMeet};
ghost use Rattle.tournament.specs.Lies.{PostsOfARun, ScriptsOfARun, DisputesEndWhereRunsPart, LiesAreFound, LiesOfScriptsAreFound};
ghost use Rattle.tournament.specs.Length.{SpareIsEnough, ThereIsAMost};
ghost use Rattle.tournament.specs.Numbers.{RecordsAreOfProvers, DisputesHaveTheFan};
ghost use Rattle.tournament.specs.Outs.{NobodyIsOutTwice, TheLiveAreListed};
ghost use Rattle.tournament.specs.Truthful.{TruthfulProversAreSafe};
ghost use Rattle.tournament.specs.TrueMoves.{TrueMovesAreTrueAnswers, TrueMovesAreSafe};
ghost use Rattle.tournament.specs.Collisions.{NoCollisionIfNonePair, CollisionIsOfLeastPair};
ghost use Rattle.tournament.specs.Rulings.{RulingsAreFew};
ghost use Rattle.tournament.specs.Asked.{AskedByTheCase, OpenIsWithinBound, AskedIsWithinBound, QuestionsStay};

use bisect_game::{bisection_laws, disputes_end_where_runs_part};

/// Every list of posts, by anybody and with any contents, settles a list of answers of which each that was taken as given
/// fits what was asked.
pub fn posts_settle_what_fits()
    ensures { PostsSettle }
{
    bisection_laws();
}

/// Truthful provers stay: whatever is posted in whatever order, a prover whose settled answers so far are all given and
/// true is live, also before its claim is settled, no dispute has eliminated it, in each of its disputes the agreed root and its own are
/// the run's, and each proof that it gave leads to its own root.
pub fn truthful_provers_stay()
    ensures { TruthfulStay }
{
    bisection_laws();
}

/// The verdict is right: if such a prover is there and nothing is open, a claim is accepted that is the true one, or
/// the verdict is two different strings of one digest that answers of the record open.
pub fn the_verdict_is_right()
    ensures { VerdictIsRight }
{
    bisection_laws();
}

/// Over a judge that keeps its laws, and whatever was posted, the claims have no collision if and only if no two provers gave
/// claims that differ and have one root (`none`). Else their collision is that of the least such pair (`least`).
pub fn claims_collide_as_they_differ()
    ensures none { NoCollisionIfNonePair }
    ensures least { CollisionIsOfLeastPair }
{}

/// True moves are true answers: whatever others post, and whatever it posts on questions that aren't its open one, a prover that passes
/// within the patience on its open questions, or gives the true answers, has only true settled answers (`answers`). So it is not
/// eliminated, and once nothing is open it is live and the verdict is right (`safe`).
pub fn true_moves_are_true_answers()
    ensures answers { TrueMovesAreTrueAnswers }
    ensures safe { TrueMovesAreSafe }
{
    bisection_laws();
}

/// Truthful provers are safe: if a prover answers truly within its patience each question that the record of the case asks it, then, in
/// whatever order anybody moves, its settled answers are given and true, it is not eliminated, and once nothing is open the verdict is
/// right.
pub fn truthful_provers_are_safe()
    ensures { TruthfulProversAreSafe }
{
    bisection_laws();
}

/// Few rounds: whatever is posted, m provers play at most m - 1 disputes (`disputes`), and a dispute has k bisection rounds with
/// `F^k < F * N` for rounds of F parts and the bound N, and at most one proof round (`rounds`). So all proof rounds together have
/// `2 (m - 1)` sides at most (`rulings`). For each the code asks the judge once where a proof leads.
pub fn a_match_has_few_disputes_and_rounds()
    ensures disputes { FewDisputes }
    ensures rounds { FewRounds }
    ensures rulings { RulingsAreFew }
{
    bisection_laws();
}

/// Order does not matter: every two complete lists of the settled answers of one case give one record, and so do every
/// two complete legal lists of moves.
pub fn order_does_not_matter()
    ensures settled { OneRecord }
    ensures moves { OrderDoesNotMatter }
{
    bisection_laws();
}

/// Every complete legal list of moves of a case ends in the record of the case: the bracket over what each question is
/// settled as.
pub fn one_record_of_a_case()
    ensures { RecordOfCase }
{
    bisection_laws();
}

/// Whatever was posted, the record is the bracket over the answers that it holds: what is settled so far fixes it.
pub fn a_record_is_the_bracket_over_its_answers()
    ensures { RecordIsBracket }
{
    bisection_laws();
}

/// Whatever was posted, a match that is over is that of a case: of the provers that say what its record holds.
pub fn ended_matches_are_of_cases()
    ensures { EndedMatchesAreOfCases }
{
    bisection_laws();
}

/// Open disputes share no prover: whatever was posted, a prover is in one open dispute at most (`one`), and the two sides of a
/// dispute are two provers (`two`).
pub fn open_disputes_share_no_prover()
    ensures one { OpenDisputesShareNoProver }
    ensures two { SidesAreTwoProvers }
{
    bisection_laws();
}

/// No legal list of moves is longer than the passes of all questions and an answer to each.
pub fn spare_is_enough()
    ensures { SpareIsEnough }
{
    posts_are_few();
}

/// Each fan and each bound has a most number of bisection rounds.
pub fn there_is_a_most_number_of_rounds()
    ensures { ThereIsAMost }
{}

/// Whatever was posted, a record has a claim of each prover, and disputes between provers, numbered from 1 (`provers`). Each dispute
/// cuts its intervals in as many parts as the rules say (`fan`).
pub fn a_record_is_of_its_provers()
    ensures provers { RecordsAreOfProvers }
    ensures fan { DisputesHaveTheFan }
{
    bisection_laws();
}

/// Nobody is eliminated twice, whatever was posted: by its claim and its disputes a prover is eliminated once at most.
pub fn nobody_is_put_out_twice()
    ensures { NobodyIsOutTwice }
{}

/// Who lives and whose claim was given is listed with it among the live, and nobody else is, in any record.
pub fn the_live_are_listed()
    ensures { TheLiveAreListed }
{}

/// A number names one question of a match: an open question is the one that the case's own match asks its prover under
/// its number.
pub fn a_number_names_one_question()
    ensures { AskedByTheCase }
{
    bisection_laws();
}

/// No question is beyond the bound: roots are asked of steps between the first and the last, several of them at the cuts of an interval
/// within, into 2 to 16 parts; a proof is asked of a step before the last; in whatever was posted (`open_`) and under whatever number of
/// a case (`asked`).
pub fn questions_are_within_the_bound()
    ensures open_ { OpenIsWithinBound }
    ensures asked { AskedIsWithinBound }
{
    bisection_laws();
}

/// An open question and its passes stay while another prover moves.
pub fn open_questions_stay()
    ensures { QuestionsStay }
{
    bisection_laws();
}

/// Nobody has an open question if and only if the match is over, whatever was posted.
pub fn nobody_asked_means_over()
    ensures { NobodyAskedIsOver }
{
    bisection_laws();
}

/// Few questions: whatever is posted, of m provers each is asked at most `1 + (m - 1) * (k + 1)` questions in all, for a most number k of
/// bisection rounds (`each`), and at most `1 + d * (k + 1)` if it is a side of d disputes (`cost`).
pub fn questions_are_few()
    ensures each { FewQuestions }
    ensures cost { QuestionsCost }
{
    a_match_has_few_disputes_and_rounds();
}

/// Few posts: whoever posts whatever, all but a few posts are stale. Those of a prover that aren't are in all at most P + 1 times as many
/// as the questions that it has been asked, for the patience P (`by_questions`). So for m provers and a most number k of bisection rounds
/// they are at most `(P + 1) * (1 + (m - 1) * (k + 1))` of each prover (`of_each`), and at most `most_entries` of all together (`all`).
pub fn posts_are_few()
    ensures by_questions { PostsByQuestions }
    ensures of_each { FewPostsOfEach }
    ensures all { FewPosts }
{
    a_match_has_few_disputes_and_rounds();
    questions_are_few();
    a_record_is_of_its_provers();
    open_disputes_share_no_prover();
}

/// Few stages: whatever is posted, m provers play at most m - 1 stages.
pub fn stages_are_few()
    ensures { FewStages }
{
    a_match_has_few_disputes_and_rounds();
}

/// Few rounds come one after another, whatever was posted: in a match of m provers at most `1 + (m - 1) * (k + 1)`, for a most number k of
/// bisection rounds, and at most `1 + s * (k + 1)` in s stages.
pub fn few_rounds_come_in_sequence()
    ensures { FewRoundsInSequence }
{
    stages_are_few();
    a_match_has_few_disputes_and_rounds();
}

/// Served matches end: if in each period of a clock everybody that is asked when it begins posts, or somebody posts a pass for it, a match of m
/// provers with the patience P is over after `(P + 1) * (1 + (m - 1) * (k + 1))` periods, for a most number k of bisection rounds, whatever else is
/// posted.
pub fn served_matches_end()
    ensures { PeriodsAreFew }
{
    bisection_laws();
    nobody_asked_means_over();
    a_match_has_few_disputes_and_rounds();
    a_record_is_of_its_provers();
    open_disputes_share_no_prover();
}

/// The lowest is never idle: in each stage the lowest prover that lives when it begins is a side of one dispute, whatever was posted
/// (`stage`). So the lowest prover that gave a claim, and whom no dispute has eliminated, has a dispute in each stage (`all`), and prover 1
/// above all (`first`). No match has more stages than disputes (`disputes`).
pub fn the_lowest_is_never_idle()
    ensures stage { LowestIsNeverIdle }
    ensures all { LowestPlaysAll }
    ensures first { FirstPlaysAll }
    ensures disputes { StagesHaveDisputes }
{}

/// Never stuck: in a match that isn't over somebody has an open question (`asked`), and no post on an open question is stale, be it a
/// pass or any answer (`open_`).
pub fn matches_are_never_stuck()
    ensures asked { NeverStuck }
    ensures open_ { OpenIsNotStale }
{
    nobody_asked_means_over();
}

/// Full means over: once `most_entries` posts weren't stale, a match is over. So whoever posts a pass for each prover that is late
/// ends every match.
pub fn a_full_match_is_over()
    ensures { FullIsOver }
{
    posts_are_few();
    matches_are_never_stuck();
}

/// Survivors agree: once a match is over and a claim is accepted, every live prover has that claim, and whoever gave another one is out,
/// whatever was posted and by whomever.
pub fn survivors_agree()
    ensures { SurvivorsAgree }
{
    bisection_laws();
}

/// The two sides of a dispute gave claims of two roots (`roots`), whatever was posted. So provers whose claims have one root are never
/// paired (`one_root`), and neither are two provers with true claims (`truthful`).
pub fn sides_have_two_roots()
    ensures roots { SidesHaveTwoRoots }
    ensures one_root { OneRootNeverMeets }
    ensures truthful { TruthfulNeverMeet }
{
    bisection_laws();
}

/// A dispute that has closed has eliminated a side or has a collision, whatever was posted (`ends`). A collision eliminates nobody
/// (`collisions`), and a prover is in one dispute at most that has eliminated nobody (`one`).
pub fn disputes_put_out_or_collide()
    ensures ends { DisputesPutOutOrCollide }
    ensures collisions { CollisionsPutOutNobody }
    ensures one { OneIsUndecided }
{}

/// A legal list of moves by scripts is one of posts, and ends in the same state: what holds after all posts holds after it.
pub fn legal_moves_are_posts()
    ensures { LegalListsArePosts }
{}

/// A prover whose moves are those of a run, be it a true one or not, has the run's answers only: by posts (`posts`), and by a script
/// (`scripts`).
pub fn answers_are_of_their_run()
    ensures posts { PostsOfARun }
    ensures scripts { ScriptsOfARun }
{
    bisection_laws();
}

/// Lies are found where they are: whatever was posted, a dispute between two provers that each answer by a run of their own ends where the
/// runs part (`part`). So against a prover that answers truly, one whose run leaves the true one at step s and continues by true steps
/// is out in the proof of step s - 1, or the dispute closes by a collision of their two proofs (`found`, and `scripts` of provers that
/// answer by scripts).
pub fn lies_are_found()
    ensures part { DisputesEndWhereRunsPart }
    ensures found { LiesAreFound }
    ensures scripts { LiesOfScriptsAreFound }
{
    bisection_laws();
    disputes_end_where_runs_part();
    legal_moves_are_posts();
    answers_are_of_their_run();
}
