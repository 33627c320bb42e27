//! Schemas of one and of two types, what they reach, and matrices over two types.

ghost use Rattle.std.specs.Prelude.{◌≡◌, ◌≤◌, length, IfOk};
ghost use Rattle.sel_graph.specs.Moves.{symbols_most};

use gm_config::Range;
use schema_graph::{Schema, SchemaEdge};
use sel_algebra::Kind::{Fixed, Growing};
use sel_algebra::Matrix;
use sel_algebra::Op::{self, Equal, Less};
use sel_graph::Reach;
use std::alloc::{AllocError, Global};

/// Type 0 is fixed and type 1 is growing. One edge goes from 0 to 1.
fn two_types(alloc: Global) -> Result<Schema, AllocError>
    ensures { IfOk result (λ schema. length schema.kinds ≡ 2) }
{
    let edge = SchemaEdge {
        source: 0,
        label: 0,
        target: 1,
        op: Less,
    };
    Schema::new(
        alloc,
        vec![in alloc; Fixed, Growing]?,
        vec![in alloc; edge]?,
    )
}

/// One growing type, and one edge from it to itself.
pub(crate) fn one_type(alloc: Global) -> Result<Schema, AllocError>
    ensures { IfOk result (λ schema. length schema.kinds ≡ 1) }
{
    let edge = SchemaEdge {
        source: 0,
        label: 0,
        target: 0,
        op: Equal,
    };
    Schema::new(alloc, vec![in alloc; Growing]?, vec![in alloc; edge]?)
}

/// What words of these lengths reach.
pub(crate) fn reach_of(
    alloc: Global,
    schema: &Schema,
    least: u8,
    most: u8,
    stars: bool,
) -> Result<Reach, AllocError>
    requires some { 1 ≤ least }
    requires few { most ≤ symbols_most }
    ensures { IfOk result (λ reach. reach.schema ≡ schema.now) }
{
    Reach::build(alloc, schema, Range { least, most }, stars)
}

/// What words of so many symbols reach between two types.
pub(crate) fn between_two_types(alloc: Global, len: u8, stars: bool) -> Result<Reach, AllocError>
    requires some { 1 ≤ len }
    requires few { len ≤ symbols_most }
    ensures { IfOk result (λ reach. length reach.schema.kinds ≡ 2) }
{
    let schema = two_types(alloc)?;
    reach_of(alloc, &schema, len, len, stars)
}

/// What words of up to so many symbols reach, where one edge joins the nodes of one type by `=`.
pub(crate) fn within_one_type(alloc: Global, most: u8, stars: bool) -> Result<Reach, AllocError>
    requires { most ≤ symbols_most }
    ensures { IfOk result (λ reach. length reach.schema.kinds ≡ 1) }
{
    let schema = one_type(alloc)?;
    reach_of(alloc, &schema, 1, most, stars)
}

/// The entries of a matrix over two types, row by row.
pub(crate) type Entries = [Option<Op>; 4];

/// The entries of a matrix over two types, and `None` where it is over other types.
pub(crate) fn entries(matrix: &Matrix) -> Option<Entries> {
    if matrix.kinds().len() != 2 {
        return None;
    }
    Some([
        matrix.get(0, 0),
        matrix.get(0, 1),
        matrix.get(1, 0),
        matrix.get(1, 1),
    ])
}
