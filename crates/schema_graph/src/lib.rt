//! The schema of a graph: its types, and the edges that its labels make between them.
//!
//! A type is fixed or growing. An edge goes from one type to another, has a label, and an operator
//! that says how its pairs grow. A symbol is one use of an edge, along it or against it.
#![tactic(auto)]

mod configured;
mod edge;
mod labelled;
pub mod laws;
mod schema;
mod symbols;

pub use edge::SchemaEdge;
pub use gm_config::LABELS_MOST;
pub use schema::Schema;
pub use sel_algebra::TYPES_MOST;

/// The most edges of a schema.
pub const EDGES_MOST: usize = 128;
