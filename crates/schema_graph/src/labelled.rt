//! The operators of the edges with one label.

ghost use Rattle.std.specs.Prelude.{◌≡◌, if◌then◌else◌, Some};
ghost use Rattle.sel_algebra.specs.Table.{IsMatrix, EachPair, entry};
ghost use Rattle.schema_graph.specs.Edge.{IsSchemaEdge};
ghost use Rattle.schema_graph.specs.Labelled.{goes, EntersEdge};

use crate::edge::SchemaEdge;
use sel_algebra::Matrix;

/// Makes the operator of an edge the entry from its source to its target, if it has this label.
pub(crate) fn enter_edge(matrix: &mut Matrix, edge: SchemaEdge, label: u8)
    requires matrix { IsMatrix matrix.old }
    requires edge { IsSchemaEdge matrix.old.kinds edge }
    ensures entries { EntersEdge matrix.old matrix.new label edge }
    ensures matrix { IsMatrix matrix.new }
{
    if edge.label == label {
        matrix.set(edge.source, edge.target, edge.op);
    }
}
