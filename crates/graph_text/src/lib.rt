//! Graphs as lists of triples, their texts, and lists of pairs, the rows of queries.
#![tactic(auto)]

mod edge_line;
mod edge_text;
mod graphs;
pub mod laws;
mod pair_list;
mod rows;

pub use edge_line::{EdgeLine, line_of};
pub use edge_text::{Edges, GraphError, LABEL_MOST, NODE_MOST, read_edges, write_edges};
pub use graphs::{Graph, Triple};
pub use pair_list::Pairs;
pub use rows::{ROW_MOST, Row, Rows};
