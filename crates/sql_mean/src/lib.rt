//! The rows of SQL texts over graphs.
//!
//! The evaluator is plain and slow: a select is the list of the rows of the product of its tables that meet its
//! equations, and a table that takes from itself grows in rounds until one adds nothing.
#![tactic(auto)]

mod known;
mod queries;
mod selects;
mod tables;
mod tuples;
mod values;

pub use queries::sql_rows;
