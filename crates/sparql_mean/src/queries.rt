//! The rows of a query.

ghost use Rattle.std.specs.Prelude.{◌≡◌, ◌↔◌, ◌<◌, ◌≤◌, ◌++◌, ℕ, List, length, slice_get, Some, IfOk, IfSome, OnOk, true, IfOk, option_map};
ghost use Rattle.std.specs.List.{Contains, flat_map, list_all};
ghost use Rattle.gm_text.specs.declared.lists.Span.{Span};
ghost use Rattle.graph_text.specs.Rows.{IsRising, row_values, values_of, is_row};
ghost use Rattle.sparql_read.specs.Grammar.{Asked};
ghost use Rattle.sparql_read.specs.Layout.{laid_out};
ghost use Rattle.sparql_mean.specs.Rows.{IsSparqlRow};
ghost use Rattle.sparql_mean.specs.Joins.{mappings, patterns_of, values, row_of, group_rows, rows_of};

use crate::mappings::{Mapping, grow};
use crate::paths::{table_at, tables_of};
use gm_text::Names;
use graph_text::{Graph, Pairs, Row, Rows};
use sparql_read::SparqlQuery;
use std::alloc::{AllocError, Global};

/// The rows of a query over the graph, where label l has the name `labels[l]`. It fails only where memory runs out.
pub fn sparql_rows(
    alloc: Global,
    query: &SparqlQuery<'_>,
    labels: &Names,
    graph: &Graph,
) -> Result<Rows, AllocError>
    ensures rows { IfOk result (λ rows. (asked : Asked) → query.now ≡ laid_out asked → (row : List ℕ) → Contains rows row ↔ IsSparqlRow labels.now asked graph.now row) }
    ensures rising { IfOk result (λ rows. IsRising rows) }
{
    let tables = tables_of(alloc, query, labels, graph)?;
    let rows = rows_of(alloc, &tables, query)?;
    Ok(Rows::sorted(rows))
}

/// The rows of all groups, with repeats.
fn rows_of(alloc: Global, tables: &[Pairs], query: &SparqlQuery<'_>) -> Result<Vec<Row>, AllocError>
    ensures values { IfOk result (λ rows. values_of rows.items ≡ rows_of tables.now query.now) }
    ensures rows { IfOk result (λ rows. list_all (is_row (length query.now.variables)) rows.items ≡ true) }
{
    let mut rows = Vec::new(alloc);
    for g in 0..query.group_count() {
        let all = mappings(alloc, tables, query, g)?;
        push_rows(alloc, &mut rows, &all, query)?;
    }
    Ok(rows)
}

/// The mappings that are solutions of all patterns of a group.
fn mappings<'a>(
    alloc: Global,
    tables: &[Pairs],
    query: &SparqlQuery<'a>,
    g: u32,
) -> Result<Vec<Mapping<'a>>, AllocError>
    requires { g < length query.now.groups }
    ensures { IfOk result (λ all. (group : Span) → slice_get query.now.groups g ≡ Some group → all.items ≡ mappings tables.now (patterns_of query.now.patterns group)) }
{
    let mut all = Vec::new(alloc);
    all.push(Mapping::empty(alloc))?;
    for i in 0..query.pattern_count(g) {
        let pattern = query.pattern(g, i);
        let pairs = table_at(tables, pattern.path);
        all = grow(alloc, &all, pattern.subject, pattern.object, pairs)?;
    }
    Ok(all)
}

/// Adds the row of each mapping that has numbers for all selected variables.
fn push_rows(
    alloc: Global,
    rows: &mut Vec<Row>,
    all: &[Mapping<'_>],
    query: &SparqlQuery<'_>,
) -> Result<(), AllocError>
    requires { list_all (is_row (length query.now.variables)) rows.old.items ≡ true }
    ensures values { OnOk result (values_of rows.new.items ≡ values_of rows.old.items ++ flat_map (row_of query.now.variables) all.now) }
    ensures rows { OnOk result (list_all (is_row (length query.now.variables)) rows.new.items ≡ true) }
{
    for m in all {
        if let Some(row) = row_of(alloc, m, query)? {
            rows.push(row)?;
        }
    }
    Ok(())
}

/// The numbers of the selected variables, where each has one.
fn row_of(
    alloc: Global,
    m: &Mapping<'_>,
    query: &SparqlQuery<'_>,
) -> Result<Option<Row>, AllocError>
    ensures values { IfOk result (λ row. option_map row_values row ≡ values m.now query.now.variables) }
    ensures row { IfOk result (λ row. IfSome row (λ r. is_row (length query.now.variables) r ≡ true)) }
{
    let mut numbers = Vec::new(alloc);
    for i in 0..query.variable_count() {
        let Some(number) = m.value(query.variable(i)) else {
            return Ok(None);
        };
        numbers.push(number)?;
    }
    Ok(Some(Row::of(&numbers)))
}
