//! Tests of the game and of the board, over the toy game: of disputes and rounds of several parts, of books, of what threads share, of
//! boards and posters of one task and of many, and of deposits. One is over the product's own provers.
//!
//! No layer of the product depends on this crate. Read `disputes_test` and `books_test` first, then `boards_test` and `posters_test`, each
//! for one layer; those of many tasks are in `task_boards_test` and `task_posters_test`, and posters of provers that run the machine in
//! `provers_test`. `seat_lock_test` and `round_robin_test` have the tests of the lock and of many items served by a few servers,
//! `ledger_test` and `balances_test` those of deposits. `dispute_play` plays a dispute, `casts` plays whole tasks, and `gates` has what is
//! seen of their posts.
#![tactic(auto)]

#[cfg(test)]
mod balances_test;
#[cfg(test)]
mod boards_test;
#[cfg(test)]
mod books_test;
#[cfg(test)]
mod casts;
#[cfg(test)]
mod dispute_play;
#[cfg(test)]
mod disputes_test;
#[cfg(test)]
mod gates;
#[cfg(test)]
mod in_short;
#[cfg(test)]
mod ledger_test;
#[cfg(test)]
mod players;
#[cfg(test)]
mod posters_test;
#[cfg(test)]
mod provers_test;
#[cfg(test)]
mod round_robin_test;
#[cfg(test)]
mod seat_lock_test;
#[cfg(test)]
mod task_boards_test;
#[cfg(test)]
mod task_posters_test;
