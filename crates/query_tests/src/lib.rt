//! Tests of queries: of their lists, their terms and their rows.
//!
//! They stand above the crates that they test, since a crate with tests of its own is proved twice.
#![tactic(auto)]

#[cfg(test)]
mod query_terms_tests;
#[cfg(test)]
mod rpq_meaning_tests;
#[cfg(test)]
mod samples;
