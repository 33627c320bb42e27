//! The SQL text of a query: a table for each of its terms, and a select for each of its rules.
#![tactic(auto)]

mod columns;
pub mod laws;
mod links;
mod names;
mod query;
mod rules;
mod tables;
mod text;

pub use links::{HeadVars, Link, LinkRule, LinkRules, Links};
pub use query::sql_text;
pub use text::links_text;
