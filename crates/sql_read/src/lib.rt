//! SQL texts: `WITH RECURSIVE`, tables, and a union of selects over the edges of a graph.
#![tactic(auto)]

mod conditions;
mod cursor;
mod depth;
pub mod laws;
mod lists;
mod parts;
mod query;
mod read;
mod scope;
mod tokens;

pub use query::{Col, Equation, Right, Select, SqlFrom, SqlQuery, Table};
pub use read::{SqlError, read_sql};
