//! Drawn queries: each decision is the candidate that the random word at its address picks.
//!
//! A query is drawn of a configuration, a seed and its number. All that it asks for follows from these three.
#![tactic(auto)]

mod along;
mod classes;
mod column_list;
mod columns;
mod drawer;
mod drawing;
mod errors;
pub mod laws;
mod legs;
mod missing;
mod paths;
mod plan;
mod products;
mod query;
mod rules;
mod type_sets;
mod wide;
mod words;

pub use errors::DrawError;
pub use missing::{NoSuchQuery, first_missing};
pub use query::draw_query;
