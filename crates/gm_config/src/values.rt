//! What a configuration holds.

use crate::degree_specs::DegreeSpec;
use gm_text::Name;

/// How many nodes a type has.
#[derive(Clone, Copy, Debug, PartialEq, Eq)]
pub enum Amount {
    /// A share of the nodes that the configuration asks for, in thousandths, from 0 to [`THOUSAND`](crate::THOUSAND).
    Share(u32),
    /// A number of nodes, from 0 to [`NODES_MOST`](crate::NODES_MOST).
    Count(u32),
}

/// A type of nodes.
#[derive(Drop)]
pub struct NodeType {
    /// Its name, which no other type has.
    pub name: Name,
    /// How many nodes it has.
    pub amount: Amount,
}

/// How the edges with one label go from one type to one type.
#[derive(Drop)]
pub struct Constraint {
    /// The number of the type from which the edges go.
    pub source: u8,
    /// The number of their label.
    pub label: u8,
    /// The number of the type to which they go.
    pub target: u8,
    /// How the numbers of edges that leave a node of the source type are drawn.
    pub out_spec: DegreeSpec,
    /// How the numbers of edges that come to a node of the target type are drawn.
    pub in_spec: DegreeSpec,
}
