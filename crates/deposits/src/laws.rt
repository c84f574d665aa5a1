//! The theorem of deposits, each part the contract of a function that does nothing.
ghost use Rattle.deposits.specs.Theorem.{EventsAddTheirOwn, LedgersAreInClosedForm, RecordsAreInClosedForm, LedgersAddUp, BalancesAddUp, OrderOfEventsIsFree, WhoStaysKeepsStake, TruthfulKeepStake, EndedIsSettledUp};
ghost use Rattle.deposits.specs.Burning.{BurnedAddUp, StagesBurn, RoundsBurn, OthersPayForStages, BetweenBurns, FirstIsPaidForStages};
ghost use Rattle.deposits.specs.Stalled.{StallsAreFree};
ghost use Rattle.deposits.specs.ExactBalance.{WhoLivesWinsAll, OthersGainNothing, TrueMovesWinAll, TruthfulWinAll};

use tournament::{
    a_record_is_of_its_provers, disputes_put_out_or_collide, few_rounds_come_in_sequence,
    legal_moves_are_posts, nobody_is_put_out_twice, open_disputes_share_no_prover,
    the_lowest_is_never_idle, true_moves_are_true_answers, truthful_provers_are_safe,
};

/// The closed form: a prover has its stake times one more than its wins, less one stake if it is out (`record_`, read off a record
/// and off its events; `ledger`, of a ledger after any events that eliminate nobody twice).
pub fn balances_are_in_closed_form()
    ensures record_ { RecordsAreInClosedForm }
    ensures ledger { LedgersAreInClosedForm }
{}

/// Each event adds its own amounts to what every prover has, whatever came before it.
pub fn each_event_adds_its_own_amounts()
    ensures { EventsAddTheirOwn }
{}

/// Nothing is lost: balances and pool add up to the stakes (`record_`), and so they do in a ledger after any events that may be applied
/// (`ledger`).
pub fn balances_and_pool_add_up()
    ensures record_ { BalancesAddUp }
    ensures ledger { LedgersAddUp }
{}

/// Order does not matter: the events of a record may be applied to a ledger in whatever order, and it has the balances of the record then.
pub fn events_come_in_any_order()
    ensures { OrderOfEventsIsFree }
{}

/// The truthful keep their stakes: a prover that stays, as the dispute theorem proves for a truthful one, has at least its stake
/// (`stays`), and so has one that answers truly each question that it is asked, whoever moves in whatever order (`truthful`).
pub fn truthful_provers_keep_their_stakes()
    ensures stays { WhoStaysKeepsStake }
    ensures truthful { TruthfulKeepStake }
{
    truthful_provers_are_safe();
}

/// The record of each match that has ended, whatever was posted, meets the condition of `balances`: one settled claim per prover,
/// disputes between two of them, and nobody eliminated twice.
pub fn a_match_that_has_ended_is_settled_up()
    ensures { EndedIsSettledUp }
{
    a_record_is_of_its_provers();
    nobody_is_put_out_twice();
    open_disputes_share_no_prover();
}

/// Who lives wins all: once a match is over, whoever posted whatever, a live prover has its own stake and one more for each of its
/// disputes but that of a collision, of which there is one at most; the others and the pool have exactly the rest (`lives`), so
/// that together they never end with more than the others put down (`others`). A prover whose moves are true, which is live
/// at the end (`true_moves_are_true_answers`), has won so (`truthful`), and so has one that answers truly by its script (`scripts`).
pub fn who_lives_wins_all()
    ensures lives { WhoLivesWinsAll }
    ensures others { OthersGainNothing }
    ensures truthful { TrueMovesWinAll }
    ensures scripts { TruthfulWinAll }
{
    disputes_put_out_or_collide();
    balances_and_pool_add_up();
    a_match_that_has_ended_is_settled_up();
    true_moves_are_true_answers();
    truthful_provers_are_safe();
    legal_moves_are_posts();
}

/// Nothing else is lost by burning: what is kept and what is burned add up to the stakes.
pub fn burned_stakes_add_up()
    ensures { BurnedAddUp }
{
    balances_and_pool_add_up();
}

/// Stages burn stakes: a match that is over without a collision of a dispute has burned a stake at least for each stage, whoever posted
/// whatever (`stages`), and one for each k + 1 rounds that came one after another, beside that of the claims, for a most number k of
/// bisection rounds (`rounds`). So if one prover lives, as a truthful one does, the others have lost a stake at least for each stage
/// (`others`). If each stake is put down in two parts, and one is settled by `balances`, a stage costs the part that is burned (`between`).
pub fn stages_burn_stakes()
    ensures stages { StagesBurn }
    ensures rounds { RoundsBurn }
    ensures others { OthersPayForStages }
    ensures between { BetweenBurns }
{
    disputes_put_out_or_collide();
    the_lowest_is_never_idle();
    few_rounds_come_in_sequence();
    balances_and_pool_add_up();
    burned_stakes_add_up();
    a_match_that_has_ended_is_settled_up();
}

/// The first is paid for stages: if prover 1 gave a claim and is live at the end of a match without a collision of a dispute, it has by
/// `balances` won a stake in each stage. Of other provers that isn't so (`stalls_are_free`).
pub fn the_first_is_paid_for_stages()
    ensures { FirstIsPaidForStages }
{
    the_lowest_is_never_idle();
    who_lives_wins_all();
}

/// Stalls are free by `balances`. For each stake there is a match of sixteen provers before a fair judge, with fourteen stages, in which a
/// truthful prover is asked for its claim and nothing else: at its end the fifteen others have by `balances` all that they put down.
/// Fourteen stakes are burned of them by `burned`. The match is played as in `examples/stalled_for_nothing`.
pub fn stalls_are_free()
    ensures { StallsAreFree }
{}
