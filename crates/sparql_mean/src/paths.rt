//! The pairs of the paths of a query, by ascending number.

ghost use Rattle.std.specs.Prelude.{◌≡◌, List, ℕ, length, IfOk};
ghost use Rattle.std.specs.List.Sorted.{IsStrictlySortedBy};
ghost use Rattle.std.specs.Ordering.{nat_cmp};
ghost use Rattle.node_tables.specs.Tables.{AreNodes, select, joins, rounds, table_in};
ghost use Rattle.sparql_read.specs.Query.{node_view};
ghost use Rattle.sparql_mean.specs.Tables.{table_of, tables_of};

use crate::relations::{Back, Named};
use gm_text::Names;
use graph_text::{Graph, Pairs, Triple};
use node_tables::{Either, Joined, OrSame, nodes_of, repeated, select};
use sparql_read::{Path, PathId, SparqlQuery};
use std::alloc::{AllocError, Global};

/// The pairs of each path of a query over the graph.
pub(crate) fn tables_of(
    alloc: Global,
    query: &SparqlQuery<'_>,
    labels: &Names,
    graph: &Graph,
) -> Result<Vec<Pairs>, AllocError>
    ensures { IfOk result (λ tables. (nodes : List ℕ) × AreNodes graph.now nodes × (tables.items ≡ tables_of labels.now graph.now nodes query.now.paths)) }
{
    let nodes = nodes_of(alloc, graph.as_slice())?;
    put_tables(alloc, query, labels, graph.as_slice(), &nodes)
}

fn put_tables(
    alloc: Global,
    query: &SparqlQuery<'_>,
    labels: &Names,
    graph: &[Triple],
    nodes: &[u32],
) -> Result<Vec<Pairs>, AllocError>
    requires { IsStrictlySortedBy nat_cmp nodes.now }
    ensures { IfOk result (λ tables. tables.items ≡ tables_of labels.now graph.now nodes.now query.now.paths) }
{
    let mut tables = Vec::new(alloc);
    for i in 0..query.path_count() {
        let path = query.path(query.path_id(i));
        let table = table_of(alloc, labels, graph, nodes, &tables, path)?;
        tables.push(table)?;
    }
    Ok(tables)
}

/// The pairs of a path, from those of the paths before it.
fn table_of(
    alloc: Global,
    labels: &Names,
    graph: &[Triple],
    nodes: &[u32],
    tables: &[Pairs],
    path: Path<'_>,
) -> Result<Pairs, AllocError>
    requires { IsStrictlySortedBy nat_cmp nodes.now }
    ensures { IfOk result (λ pairs. pairs ≡ table_of labels.now graph.now nodes.now tables.now (node_view path.entry)) }
{
    match path {
        Path::Iri(name) => select(
            alloc,
            nodes,
            &Named {
                labels,
                graph,
                name,
            },
        ),
        Path::Inverse(part) => {
            let pairs = table_at(tables, part);
            select(alloc, nodes, &Back { pairs })
        }
        Path::Seq(left, right) => {
            let first = table_at(tables, left);
            let second = table_at(tables, right);
            select(
                alloc,
                nodes,
                &Joined {
                    nodes,
                    first,
                    second,
                },
            )
        }
        Path::Alt(left, right) => {
            let left = table_at(tables, left);
            let right = table_at(tables, right);
            select(alloc, nodes, &Either { left, right })
        }
        Path::Star(part) => repeated(alloc, nodes, table_at(tables, part)),
        Path::Plus(part) => once_and_more(alloc, nodes, table_at(tables, part)),
        Path::Opt(part) => {
            let pairs = table_at(tables, part);
            select(alloc, nodes, &OrSame { pairs })
        }
    }
}

/// The pairs that one step and any number of further ones lead between.
fn once_and_more(alloc: Global, nodes: &[u32], step: &[(u32, u32)]) -> Result<Pairs, AllocError>
    requires { IsStrictlySortedBy nat_cmp nodes.now }
    ensures { IfOk result (λ pairs. pairs ≡ select (joins nodes.now step.now (rounds nodes.now step.now (length nodes.now))) nodes.now) }
{
    let more = repeated(alloc, nodes, step)?;
    let second = more.as_slice();
    select(
        alloc,
        nodes,
        &Joined {
            nodes,
            first: step,
            second,
        },
    )
}

/// The pairs of a path with this number, and none where there is no such path.
pub(crate) fn table_at(tables: &[Pairs], id: PathId) -> &[(u32, u32)]
    ensures { result.now ≡ table_in tables.now id.0 }
{
    match tables.get(id.number() as usize) {
        Some(table) => table.as_slice(),
        None => &[],
    }
}
