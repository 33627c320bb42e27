//! Tests of workload texts and of summaries.
//!
//! They stand above the crates that they test, since a crate with tests of its own is proved twice.
#![tactic(auto)]

#[cfg(test)]
mod reading_tests;
#[cfg(test)]
mod summary_text_tests;
