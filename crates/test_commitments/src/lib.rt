//! Tests of commitments: digests, nodes of Merkle trees, the trees of memory, registers and input with how many digests they take, and the
//! roots of states in each version. Claims and proofs are tested in `test_proofs`.
//!
//! No layer of the product depends on this crate. A test is a table of rows or of acts, and names the first that is otherwise.
//! `programs` has what is carried out, and `machines` the machines that do.
#![tactic(auto)]

#[cfg(test)]
mod counts_test;
#[cfg(test)]
mod digests_test;
#[cfg(test)]
mod machines;
#[cfg(test)]
mod nodes_test;
#[cfg(test)]
mod programs;
#[cfg(test)]
mod registers_and_input_test;
#[cfg(test)]
mod roots_test;
#[cfg(test)]
mod trees_test;
