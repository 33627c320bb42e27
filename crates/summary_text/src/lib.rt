//! Summaries of what was generated: how many edges each constraint has, and how many queries each class.
//!
//! A [`Summary`] is counted while a graph and a workload are made, one constraint and one query after another.
//! [`laws`] says what its numbers are then.
#![tactic(auto)]

pub mod laws;
mod summary;
mod writing;

pub use summary::Summary;
pub use writing::write_summary;
