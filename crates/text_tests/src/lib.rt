//! Tests of the readers of SPARQL and SQL texts.
//!
//! They stand above the crates that they test, since a crate with tests of its own is proved twice.
#![tactic(auto)]

#[cfg(test)]
mod sparql_read_tests;
#[cfg(test)]
mod sql_read_tests;
