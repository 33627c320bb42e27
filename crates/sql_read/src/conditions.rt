//! The conditions on what a text says, besides its grammar.

ghost use Rattle.std.specs.Prelude.{◌≡◌, ◌≤◌, ◌++◌, ◌∷◌, [], true, bytes_eq, nat_le, map, length, IfOk, MatchOption};
ghost use Rattle.std.specs.List.{list_all};
ghost use Rattle.sql_read.specs.View.{source_view};
ghost use Rattle.sql_read.specs.Conditions.{holds, times_taken};
ghost use Rattle.sql_read.specs.Kept.{cut, IsWithin, QueryFits, UnionFits, TableFits, ReadingFits, AllFit, reading_in};
ghost use Rattle.sql_read.specs.Parsed.{kept_of};
ghost use Rattle.sql_read.specs.Scope.{IsScope};
ghost use Rattle.sql_read.specs.Checks.{spans_width, first_width, QueryIs, QueriesAre, TableIs, TableAdded, LastIs};

use crate::lists::Lists;
use crate::query::{Select, SqlFrom, Table};
use crate::scope::{Scope, add_table, aliases_of, cols_hold, equations_hold};
use gm_text::Span;
use indexmap::{IndexMap, IndexSet};
use std::alloc::{AllocError, Global};

/// The most columns of a select of the last union.
const LAST_MOST: u32 = 4;

/// The part of a list.
fn part<T>(list: &[T], span: Span) -> &[T]
    requires { IsWithin list.now span }
    ensures { result.now ≡ cut list.now span }
{
    let first = span.first as usize;
    &list[first..first + span.count as usize]
}

/// Whether a select takes from tables that it sees, under aliases that differ, and names columns of theirs alone.
fn query_holds<'a>(
    alloc: Global,
    scope: &Scope<'a>,
    lists: &Lists<'a>,
    select: Select,
) -> Result<bool, AllocError>
    requires { QueryFits select (kept_of lists.now) }
    ensures { IfOk result (λ r. QueryIs scope.now lists.now select r) }
{
    let froms = part(&lists.froms, select.tables);
    let Some(aliases) = aliases_of(alloc, scope, froms)? else {
        return Ok(false);
    };
    if !cols_hold(scope, &aliases, part(&lists.columns, select.columns)) {
        return Ok(false);
    }
    Ok(equations_hold(scope, &aliases, part(&lists.equations, select.equations)))
}

/// The first item of a list, and those behind it.
fn first_of<T>(list: &[T]) -> Option<(&T, &[T])>
    ensures { MatchOption result (list.now ≡ []) (λ x. list.now ≡ x.0.now ∷ x.1.now) }
{
    match list {
        [] => None,
        [first, more @ ..] => Some((first, more)),
    }
}

/// The last item of a list, and those before it.
fn last_of<T>(list: &[T]) -> Option<(&T, &[T])>
    ensures { MatchOption result (list.now ≡ []) (λ x. list.now ≡ x.1.now ++ x.0.now ∷ []) }
{
    match list {
        [] => None,
        [before @ .., last] => Some((last, before)),
    }
}

/// Whether each of the selects does.
fn queries_hold<'a>(
    alloc: Global,
    scope: &Scope<'a>,
    lists: &Lists<'a>,
    selects: &[Select],
) -> Result<bool, AllocError>
    requires { AllFit (λ s. QueryFits s (kept_of lists.now)) selects.now }
    ensures { IfOk result (λ r. QueriesAre scope.now lists.now selects.now r) }
{
    let mut rest = selects;
    while let Some((select, more)) = first_of(rest) {
        if !query_holds(alloc, scope, lists, *select)? {
            return Ok(false);
        }
        rest = more;
    }
    Ok(true)
}

/// Whether each select has so many columns.
fn have_width(selects: &[Select], width: u32) -> bool
    ensures { result ≡ list_all (spans_width width) selects.now }
{
    selects.iter().all(|select| select.columns.count == width)
}

/// Whether a select takes from a table at most once.
fn takes_once<'a>(froms: &[SqlFrom<'a>], name: &[u8]) -> bool
    ensures { result ≡ nat_le (times_taken name.now (map source_view froms.now)) 1 }
{
    let mut taken = false;
    let mut i = froms.len();
    while i > 0 {
        i -= 1;
        if takes_from(froms[i], name) {
            if taken {
                return false;
            }
            taken = true;
        }
    }
    true
}

fn takes_from<'a>(from: SqlFrom<'a>, name: &[u8]) -> bool
    ensures { result ≡ bytes_eq from.entry.table.now name.now }
{
    from.table == name
}

/// Whether the selects of a table hold, of which the last sees the table itself, and adds the table to the scope.
fn table_holds<'a>(
    alloc: Global,
    scope: &mut Scope<'a>,
    lists: &Lists<'a>,
    number: u32,
    table: Table<'a>,
) -> Result<bool, AllocError>
    requires scope { IsScope scope.old number }
    requires fits { TableFits table (kept_of lists.now) }
    ensures is { IfOk result (λ r. TableIs scope.old number lists.now table.entry r) }
    ensures added { IfOk result (λ r. r ≡ true → TableAdded scope.old scope.new number lists.now table.entry) }
{
    let body = part(&lists.selects, table.body);
    let names = part(&lists.names, table.columns);
    if !have_width(body, table.columns.count) {
        return Ok(false);
    }
    let Some((last, earlier)) = last_of(body) else {
        let bare = add_table(scope, number, table.name, names)?;
        return Ok(bare);
    };
    if !queries_hold(alloc, scope, lists, earlier)? {
        return Ok(false);
    }
    if earlier.is_empty() {
        if !query_holds(alloc, scope, lists, *last)? {
            return Ok(false);
        }
        let single = add_table(scope, number, table.name, names)?;
        return Ok(single);
    }
    if !add_table(scope, number, table.name, names)? {
        return Ok(false);
    }
    if !query_holds(alloc, scope, lists, *last)? {
        return Ok(false);
    }
    Ok(takes_once(part(&lists.froms, last.tables), table.name))
}

/// Whether the selects of the last union have one number of columns, at most four, and hold.
fn last_holds<'a>(
    alloc: Global,
    scope: &Scope<'a>,
    lists: &Lists<'a>,
    last: Span,
) -> Result<bool, AllocError>
    requires { UnionFits last (kept_of lists.now) }
    ensures { IfOk result (λ r. LastIs scope.now lists.now last r) }
{
    let selects = part(&lists.selects, last);
    let width = first_width(selects);
    if width > LAST_MOST {
        return Ok(false);
    }
    if !have_width(selects, width) {
        return Ok(false);
    }
    let hold = queries_hold(alloc, scope, lists, selects)?;
    Ok(hold)
}

/// The number of columns of the first select.
fn first_width(selects: &[Select]) -> u32
    ensures { result ≡ first_width selects.now }
{
    match selects {
        [] => 0,
        [first, ..] => first.columns.count,
    }
}

/// Whether all conditions of a text hold.
pub(crate) fn text_holds<'a>(
    alloc: Global,
    lists: &Lists<'a>,
    last: Span,
) -> Result<bool, AllocError>
    requires fits { ReadingFits last (kept_of lists.now) }
    requires few { length lists.now.tables.items ≤ 16777216 }
    ensures { IfOk result (λ r. r ≡ holds (reading_in last (kept_of lists.now))) }
{
    let mut scope = Scope {
        tables: IndexMap::new(alloc),
        columns: IndexSet::new(alloc),
    };
    if !add_table(&mut scope, 0, b"edge", &[b"src", b"label", b"trg"])? {
        unreachable!()
    }
    let mut i = 0;
    while i < lists.tables.len() {
        let table = lists.tables[i];
        i += 1;
        if !table_holds(alloc, &mut scope, lists, i as u32, table)? {
            return Ok(false);
        }
    }
    let hold = last_holds(alloc, &scope, lists, last)?;
    Ok(hold)
}
