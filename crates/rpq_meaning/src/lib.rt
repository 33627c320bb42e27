//! What queries mean: the pairs of numbers that a path over a graph leads between, and the rows of a query.
//!
//! The evaluators are plain and slow: each list is that of the pairs of nodes that pass a test, as in `node_tables`.
#![tactic(auto)]

mod mappings;
mod queries;
mod relations;
mod tables;

pub use queries::{conjunct_pairs, query_rows};
pub use tables::term_pairs;
