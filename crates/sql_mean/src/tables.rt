//! The rows of tables, one table after the other.

ghost use Rattle.std.specs.Prelude.{◌≡◌, ℕ, List, [], ◌∷◌, map, IfOk, OnOk};
ghost use Rattle.std.specs.List.{list_any};
ghost use Rattle.sql_read.specs.Grammar as said;
ghost use Rattle.sql_read.specs.Kept.{Kept, AllFit, QueryFits, TableFits, query_in, table_in};
ghost use Rattle.sql_read.specs.View.{name_view};
ghost use Rattle.sql_read.specs.Whole.{IsWhole, reading_of};
ghost use Rattle.sql_mean.specs.Tables.{takes_from, takes_itself, base, last_select};
ghost use Rattle.sql_mean.specs.Rows.{edge_row, headers_of, Has};
ghost use Rattle.sql_mean.specs.Evaluation.{KnownValue, KnownAs, union_list, joined, so_far, round_list, IsStableList, IsTableList};

use crate::known::Known;
use crate::selects::{cut, union_rows};
use crate::tuples::{Tuple, join};
use graph_text::{Graph, Triple};
use sql_read::{Select, SqlQuery, Table};
use std::alloc::{AllocError, Global};

/// The columns of the table `edge`.
const EDGE_COLUMNS: &[&[u8]] = &[b"src", b"label", b"trg"];

/// The rows of triples.
fn edge_rows(alloc: Global, triples: &[Triple]) -> Result<Vec<Tuple>, AllocError>
    ensures { IfOk result (λ rows. rows.items ≡ map edge_row triples.now) }
{
    let mut rows = Vec::new(alloc);
    for triple in triples {
        let numbers = vec![in alloc; triple.src, triple.label, triple.trg]?;
        rows.push(Tuple::of(numbers))?;
    }
    Ok(rows)
}

/// Whether a select takes from a table.
fn takes_from(query: &SqlQuery<'_>, select: Select, name: &[u8]) -> bool
    requires { QueryFits select query.now.kept }
    ensures { result ≡ takes_from name.now (query_in select query.now.kept) }
{
    let mut rest = cut(query.froms(), select.tables);
    while let [from, more @ ..] = rest {
        if from.table == name {
            return true;
        }
        rest = more;
    }
    false
}

/// Whether one of some selects takes from a table.
fn some_takes(query: &SqlQuery<'_>, selects: &[Select], name: &[u8]) -> bool
    requires { AllFit (λ s. QueryFits s query.now.kept) selects.now }
    ensures { result ≡ list_any (takes_from name.now) (map (λ s. query_in s query.now.kept) selects.now) }
{
    let mut rest = selects;
    while let [select, more @ ..] = rest {
        if takes_from(query, *select, name) {
            return true;
        }
        rest = more;
    }
    false
}

/// The rows so far, and those of the last select over them.
fn next_round<'a>(
    alloc: Global,
    query: &SqlQuery<'a>,
    known: &mut Vec<Known<'a>>,
    table: Table<'a>,
    last: &[Select],
    rows: Vec<Tuple>,
) -> Result<Vec<Tuple>, AllocError>
    requires table { TableFits table query.now.kept }
    requires last { AllFit (λ s. QueryFits s query.now.kept) last.now }
    ensures rows { IfOk result (λ all. all.items ≡ joined rows.items (union_list (so_far (table_in table.entry query.now.kept) rows.items ∷ known.old.items) (map (λ s. query_in s query.now.kept) last.now))) }
    ensures known { OnOk result (known.new.items ≡ known.old.items) }
{
    let columns = cut(query.names(), table.columns);
    known.insert(0, Known::new(table.name, columns, rows))?;
    let more = union_rows(alloc, query, known, last)?;
    let mut all = known.remove(0).into_rows();
    join(&mut all, more)?;
    Ok(all)
}

/// The rows of a table that takes from itself: those of the first round that the next one leaves as they are.
fn rounds<'a>(
    alloc: Global,
    query: &SqlQuery<'a>,
    known: &mut Vec<Known<'a>>,
    table: Table<'a>,
) -> Result<Vec<Tuple>, AllocError>
    requires { TableFits table query.now.kept }
    ensures rows { IfOk result (λ rows. IsStableList known.old.items (table_in table.entry query.now.kept) rows.items) }
    ensures known { OnOk result (known.new.items ≡ known.old.items) }
{
    let selects = cut(query.selects(), table.body);
    let (base, last) = selects.split_at(selects.len().saturating_sub(1));
    let mut rows = Vec::new(alloc);
    join(&mut rows, union_rows(alloc, query, known, base)?)?;
    loop {
        let before = rows.len();
        rows = next_round(alloc, query, known, table, last, rows)?;
        if rows.len() == before {
            return Ok(rows);
        }
    }
}

/// The rows of a table.
fn table_rows<'a>(
    alloc: Global,
    query: &SqlQuery<'a>,
    known: &mut Vec<Known<'a>>,
    table: Table<'a>,
) -> Result<Vec<Tuple>, AllocError>
    requires { TableFits table query.now.kept }
    ensures rows { IfOk result (λ rows. IsTableList known.old.items (table_in table.entry query.now.kept) rows.items) }
    ensures known { OnOk result (known.new.items ≡ known.old.items) }
{
    let selects = cut(query.selects(), table.body);
    if some_takes(query, selects, table.name) {
        return rounds(alloc, query, known, table);
    }
    let mut rows = Vec::new(alloc);
    join(&mut rows, union_rows(alloc, query, known, selects)?)?;
    Ok(rows)
}

/// All tables, the newest first.
pub(crate) fn all_tables<'a>(
    alloc: Global,
    query: &SqlQuery<'a>,
    graph: &Graph,
) -> Result<Vec<Known<'a>>, AllocError>
    requires { IsWhole query.now }
    ensures { IfOk result (λ known. KnownAs known.items (headers_of (reading_of query.now)) (Has (reading_of query.now) graph.now)) }
{
    let edges = edge_rows(alloc, graph.as_slice())?;
    let mut known = Vec::new(alloc);
    known.push(Known::new(b"edge", EDGE_COLUMNS, edges))?;
    for i in 0..query.table_count() {
        let table = query.table(i);
        let rows = table_rows(alloc, query, &mut known, table)?;
        let columns = cut(query.names(), table.columns);
        known.insert(0, Known::new(table.name, columns, rows))?;
    }
    Ok(known)
}
