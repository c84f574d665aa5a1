//! Tests of texts: assembly, the drawn workload, the lines of a report, whole reports, full texts, how these are read, and their audit.
//!
//! No layer of the product depends on this crate. `playing` plays matches of the toy game and writes their texts. Read `report_rows` first:
//! each row of `reports_of_players_test` and `reports_of_terms_test` is a match and its report; then `audit_test`, whose rows are full texts
//! in pieces of others, and what the audit finds of them. `reading_test` has a row for each fault of reading, and `posts_test` the posts
//! that change nothing in a match.
#![tactic(auto)]

#[cfg(test)]
mod audit_test;
#[cfg(test)]
mod full_texts_test;
#[cfg(test)]
mod lines_test;
#[cfg(test)]
mod playing;
#[cfg(test)]
mod posts_test;
#[cfg(test)]
mod reading_heads;
#[cfg(test)]
mod reading_test;
#[cfg(test)]
mod report_rows;
#[cfg(test)]
mod reports_of_players_test;
#[cfg(test)]
mod reports_of_terms_test;
#[cfg(test)]
mod rv_text_test;
#[cfg(test)]
mod workload_test;
