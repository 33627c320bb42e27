//! Tests of the texts that are written of queries.
//!
//! They stand above the crates that they test, since a crate with tests of its own is proved twice.
#![tactic(auto)]

#[cfg(test)]
mod texts_tests;
