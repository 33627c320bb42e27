//! What SPARQL queries mean: their rows over a graph.
//!
//! The evaluator is plain and slow: the pairs of each path are those of nodes that pass a test.
#![tactic(auto)]

pub mod laws;
mod mappings;
mod paths;
mod queries;
mod relations;

pub use queries::sparql_rows;
