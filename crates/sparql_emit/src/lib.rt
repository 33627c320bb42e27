//! Texts of queries in the subset of SPARQL that `sparql_read` reads, and of their paths.
#![tactic(auto)]

pub mod laws;
mod paths;
mod queries;
mod words;

pub use paths::path_text;
pub use queries::sparql_text;
