//! Tests of the rows of read texts.
//!
//! They stand above the crates that they test, since a crate with tests of its own is proved twice.
#![tactic(auto)]

#[cfg(test)]
mod sparql_mean_tests;
#[cfg(test)]
mod sql_mean_tests;
