//! The edges of a schema.

ghost use Rattle.std.specs.Prelude.{◌≡◌};
ghost use Rattle.schema_graph.specs.Edge.{taken};

use sel_algebra::{Op, mirror};

/// The edges of a graph with one label that go from one type to one type.
#[derive(Clone, Copy, Debug, PartialEq, Eq)]
pub struct SchemaEdge {
    /// The number of the type from which they go.
    pub source: u8,
    /// The number of their label.
    pub label: u8,
    /// The number of the type to which they go.
    pub target: u8,
    /// How the number of their pairs grows with the graph.
    pub op: Op,
}

/// The edge along its direction, or against it: then the ends are swapped and the operator is mirrored.
pub(crate) fn taken(edge: SchemaEdge, back: bool) -> SchemaEdge
    ensures { result ≡ taken back edge }
{
    if back {
        SchemaEdge {
            source: edge.target,
            label: edge.label,
            target: edge.source,
            op: mirror(edge.op),
        }
    } else {
        edge
    }
}
