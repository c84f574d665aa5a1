//! A match of several provers before one judge: claims first, then stages of disputes, then the verdict.
//!
//! It knows no machine and no hash. The layers above may rely on this: `Match::post` is the definition of a post
//! (`specs/Posting.antt`, over `specs/Bracket.antt`) with its reply, and takes no memory once the match was made; the
//! dispute theorem (`laws`) holds of that definition whatever is posted in whatever order, and of every match
//! (`Match::is_after_posts`, `Match::keeps_true_provers`, `Match::has_few_disputes_and_rounds`, `Match::is_never_stuck`,
//! `Match::has_survivors_that_agree`). Read `posting` first, then `playing`; `sheet` has what a match leaves, and decides its verdict by
//! what `reading` finds. The numbers of a match are a `Setup` of `bisect_game`. An `Err` that no comment names is out of memory.
#![tactic(auto)]

mod laws;
mod playing;
mod posting;
mod reading;
mod sheet;

pub use laws::{
    a_full_match_is_over, a_match_has_few_disputes_and_rounds, a_number_names_one_question,
    a_record_is_of_its_provers, a_record_is_the_bracket_over_its_answers, answers_are_of_their_run,
    claims_collide_as_they_differ, disputes_put_out_or_collide, ended_matches_are_of_cases,
    few_rounds_come_in_sequence, legal_moves_are_posts, lies_are_found, matches_are_never_stuck,
    nobody_asked_means_over, nobody_is_put_out_twice, one_record_of_a_case,
    open_disputes_share_no_prover, open_questions_stay, order_does_not_matter, posts_are_few,
    posts_settle_what_fits, questions_are_few, questions_are_within_the_bound, served_matches_end,
    sides_have_two_roots, spare_is_enough, stages_are_few, survivors_agree, the_live_are_listed,
    the_lowest_is_never_idle, the_verdict_is_right, there_is_a_most_number_of_rounds,
    true_moves_are_true_answers, truthful_provers_are_safe, truthful_provers_stay,
};
pub use playing::Match;
pub use posting::{Move, Reply, is_pass, is_stale, move_of};
pub use reading::Verdict;
pub use sheet::Record;
