//! The texts of a query of a workload, one in SPARQL and one in SQL, and what they mean.
#![tactic(auto)]

pub mod laws;
mod texts;

pub use texts::query_text;
