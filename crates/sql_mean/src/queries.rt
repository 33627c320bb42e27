//! The rows of a query.

ghost use Rattle.std.specs.Prelude.{◌≡◌, ◌↔◌, ℕ, List, true, IfOk};
ghost use Rattle.std.specs.List.{Contains, list_all};
ghost use Rattle.graph_text.specs.Rows.{IsRising, is_row, values_of};
ghost use Rattle.sql_read.specs.Whole.{reading_of};
ghost use Rattle.sql_mean.specs.Rows.{IsSqlRow};
ghost use Rattle.sql_mean.specs.Evaluation.{AreLevel, width_of};

use crate::selects::{cut, union_rows};
use crate::tables::all_tables;
use crate::tuples::Tuple;
use graph_text::{Graph, Row, Rows};
use sql_read::SqlQuery;
use std::alloc::{AllocError, Global};

/// The rows of a query over the graph. It fails only where memory runs out.
pub fn sql_rows(alloc: Global, query: &SqlQuery<'_>, graph: &Graph) -> Result<Rows, AllocError>
    ensures rows { IfOk result (λ rows. (row : List ℕ) → Contains rows row ↔ IsSqlRow (reading_of query.now) graph.now row) }
    ensures rising { IfOk result (λ rows. IsRising rows) }
{
    let last = query.last();
    let known = all_tables(alloc, query, graph)?;
    let tuples = union_rows(alloc, query, &known, cut(query.selects(), last))?;
    let rows = rows_of(alloc, &tuples)?;
    Ok(Rows::sorted(rows))
}

/// The rows with these numbers.
fn rows_of(alloc: Global, tuples: &[Tuple]) -> Result<Vec<Row>, AllocError>
    requires { AreLevel tuples.now }
    ensures values { IfOk result (λ rows. values_of rows.items ≡ tuples.now) }
    ensures rows { IfOk result (λ rows. list_all (is_row (width_of tuples.now)) rows.items ≡ true) }
{
    let mut rows = Vec::new(alloc);
    for tuple in tuples {
        rows.push(Row::of(tuple.numbers()))?;
    }
    Ok(rows)
}
