//! Reads texts of a subset of SPARQL: groups of patterns whose paths are property paths, united.
#![tactic(auto)]

pub mod laws;
mod levels;
mod lexer;
mod paths;
mod places;
mod query;
mod reader;
mod tokens;

pub use paths::{Path, PathId};
pub use query::{Pattern, SparqlQuery};
pub use reader::{SparqlError, read_sparql};
