//! The pairs of a conjunct, and the rows of a query.

ghost use Rattle.std.specs.Prelude.{◌≡◌, ◌<◌, ◌↔◌, ℕ, List, length, slice_get, Some, true, IfOk};
ghost use Rattle.std.specs.List.{All, Contains, list_all};
ghost use Rattle.graph_text.specs.Pairs.{IsAscending};
ghost use Rattle.graph_text.specs.Rows.{IsRising, values_of, is_row};
ghost use Rattle.query_terms.specs.declared.terms.Conjunct.{Conjunct};
ghost use Rattle.query_terms.specs.Trees.{tree_at};
ghost use Rattle.query_terms.specs.Values.{ConjunctValue, conjuncts_of, arity_of};
ghost use Rattle.query_terms.specs.View.{query_value};
ghost use Rattle.rpq_meaning.specs.QueryRows.{ArePairs};
ghost use Rattle.rpq_meaning.specs.QueryRows.{AreConjunctPairs, AreQueryRows};
ghost use Rattle.rpq_meaning.specs.Joins.{IsRuleOf, rows_of};

use crate::mappings::{mappings, push_rows};
use crate::tables::{tables_of, term_pairs};
use graph_text::{Graph, Pairs, Row, Rows};
use query_terms::{Conjunct, Query, Rule, part_of};
use std::alloc::{AllocError, Global};

/// The pairs of numbers between which the words of a conjunct lead over the graph, repeated where it is starred. These
/// are the pairs of the conjunct's term. It fails only where memory runs out.
pub fn conjunct_pairs(
    alloc: Global,
    query: &Query<'_>,
    i: u32,
    graph: &Graph,
) -> Result<Pairs, AllocError>
    requires { i < length query.now.conjuncts.now }
    ensures words { IfOk result (λ pairs. (c : ConjunctValue) → slice_get (conjuncts_of (query_value query.now).rules) i ≡ Some c → AreConjunctPairs query.now.labels.now graph.now c pairs) }
    ensures term { IfOk result (λ pairs. (c : Conjunct) → slice_get query.now.conjuncts.now i ≡ Some c → ArePairs graph.now (tree_at query.now.terms c.term) pairs) }
    ensures ascending { IfOk result (λ pairs. IsAscending pairs) }
{
    term_pairs(alloc, &query.terms, query.conjuncts[i as usize].term, graph)
}

/// The rows of a query over the graph, each of as many numbers as the query has heads. It fails only where memory runs out.
pub fn query_rows(alloc: Global, query: &Query<'_>, graph: &Graph) -> Result<Rows, AllocError>
    ensures rows { IfOk result (λ rows. AreQueryRows (query_value query.now) graph.now rows) }
    ensures heads { IfOk result (λ rows. All (λ row. length row ≡ arity_of (query_value query.now).rules) rows) }
    ensures rising { IfOk result (λ rows. IsRising rows) }
{
    let tables = tables_of(alloc, &query.terms, graph.as_slice())?;
    let rows = rows_of(
        alloc,
        tables.as_slice(),
        query.conjuncts,
        query.rules,
        query.arity(),
    )?;
    Ok(Rows::sorted(rows))
}

/// The rows of rules with so many heads, with repeats.
fn rows_of(
    alloc: Global,
    tables: &[Pairs],
    conjuncts: &[Conjunct],
    rules: &[Rule],
    count: u8,
) -> Result<Vec<Row>, AllocError>
    requires terms { All (λ c. c.term < length tables.now) conjuncts.now }
    requires rules { All (IsRuleOf (length conjuncts.now) count) rules.now }
    ensures values { IfOk result (λ rows. values_of rows.items ≡ rows_of tables.now conjuncts.now rules.now) }
    ensures rows { IfOk result (λ rows. list_all (is_row count) rows.items ≡ true) }
{
    let mut rows = Vec::new(alloc);
    for rule in rules {
        let all = mappings(alloc, tables, part_of(conjuncts, rule.conjuncts))?;
        push_rows(&mut rows, all.as_slice(), &rule.heads)?;
    }
    Ok(rows)
}
