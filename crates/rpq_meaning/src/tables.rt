//! The pairs of the terms of a store, by ascending number.

ghost use Rattle.std.specs.Prelude.{◌≡◌, ◌<◌, ◌↔◌, [], length, take, IfOk};
ghost use Rattle.std.specs.List.Sorted.{IsStrictlySortedBy};
ghost use Rattle.std.specs.Ordering.{nat_cmp};
ghost use Rattle.graph_text.specs.Pairs.{IsAscending};
ghost use Rattle.query_terms.specs.Store.{ChildrenBelow, IsStore};
ghost use Rattle.query_terms.specs.Trees.{tree_at};
ghost use Rattle.rpq_meaning.specs.QueryRows.{ArePairs};
ghost use Rattle.node_tables.specs.Tables.{table_in};
ghost use Rattle.rpq_meaning.specs.Tables.{table_of, tables_of, AreTables};

use crate::relations::Step;
use graph_text::{Graph, Pairs, Triple};
use node_tables::{Either, Joined, OrSame, nodes_of, repeated, select};
use query_terms::{Term, TermId, TermStore};
use std::alloc::{AllocError, Global};

/// The pairs of numbers between which the path of a term leads over the graph. It fails only where memory runs out.
pub fn term_pairs(
    alloc: Global,
    terms: &TermStore<'_>,
    id: TermId,
    graph: &Graph,
) -> Result<Pairs, AllocError>
    requires { id < length terms.now }
    ensures pairs { IfOk result (λ pairs. ArePairs graph.now (tree_at terms.now id) pairs) }
    ensures ascending { IfOk result (λ pairs. IsAscending pairs) }
{
    let mut tables = tables_of(alloc, terms, graph.as_slice())?;
    Ok(tables.swap_remove(id.number() as usize))
}

/// The pairs of each term.
pub(crate) fn tables_of(
    alloc: Global,
    terms: &TermStore<'_>,
    graph: &[Triple],
) -> Result<Vec<Pairs>, AllocError>
    ensures { IfOk result (λ tables. AreTables graph.now terms.now tables.items) }
{
    let nodes = nodes_of(alloc, graph)?;
    put_tables(alloc, terms, graph, &nodes)
}

fn put_tables(
    alloc: Global,
    terms: &TermStore<'_>,
    graph: &[Triple],
    nodes: &[u32],
) -> Result<Vec<Pairs>, AllocError>
    requires { IsStrictlySortedBy nat_cmp nodes.now }
    ensures tables { IfOk result (λ tables. tables.items ≡ tables_of graph.now nodes.now terms.now) }
    ensures store { IsStore terms.now }
{
    let mut tables = Vec::new(alloc);
    for n in 0..terms.len() {
        let table = table_of(alloc, graph, nodes, &tables, terms.get(terms.id(n)))?;
        tables.push(table)?;
    }
    Ok(tables)
}

/// The pairs of a term, from those of the terms before it.
fn table_of(
    alloc: Global,
    graph: &[Triple],
    nodes: &[u32],
    tables: &[Pairs],
    term: Term,
) -> Result<Pairs, AllocError>
    requires rising { IsStrictlySortedBy nat_cmp nodes.now }
    requires children { ChildrenBelow (length tables.now) term }
    ensures { IfOk result (λ pairs. pairs ≡ table_of graph.now nodes.now tables.now term) }
{
    match term {
        Term::Step { label, back } => select(alloc, nodes, &Step { graph, label, back }),
        Term::Seq(first, second) => {
            let first = table_at(tables, first);
            let second = table_at(tables, second);
            select(
                alloc,
                nodes,
                &Joined {
                    nodes,
                    first,
                    second,
                },
            )
        }
        Term::Alt(left, right) => {
            let left = table_at(tables, left);
            let right = table_at(tables, right);
            select(alloc, nodes, &Either { left, right })
        }
        Term::Star(child) => repeated(alloc, nodes, table_at(tables, child)),
        Term::Opt(child) => {
            let pairs = table_at(tables, child);
            select(alloc, nodes, &OrSame { pairs })
        }
    }
}

/// The pairs of a term before.
pub(crate) fn table_at(tables: &[Pairs], id: TermId) -> &[(u32, u32)]
    requires { id < length tables.now }
    ensures { result.now ≡ table_in tables.now id }
{
    tables[id.number() as usize].as_slice()
}
