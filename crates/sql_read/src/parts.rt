//! Selects, unions, tables and the whole text.

ghost use Rattle.std.specs.Prelude.{◌≡◌, ◌≤◌, true, [], IfOk, MatchBool};
ghost use Rattle.sql_read.specs.Parsed.{entries, KeepsTables, KeepsSelects};
ghost use Rattle.sql_read.specs.Passed.{Passes, IfPassed, HasRoom, Paid, PaidMore, NoQuery, QueryPassed};
ghost use Rattle.sql_read.specs.Passed.{NoUnion, UnionPassed, NoBody, BodyPassed, NoTable, TablePassed};
ghost use Rattle.sql_read.specs.Passed.{NoTables, TablesPassed, NoText, TextPassed};

use crate::cursor::{Cursor, is_at_end, pass_mark, pass_select, pass_word};
use crate::lists::{Lists, pass_columns, pass_froms, pass_names, pass_where};
use crate::query::{Select, Table};
use crate::tokens::Mark;
use gm_text::Span;
use std::alloc::AllocError;

/// Passes a select.
fn pass_query<'a, 't>(
    cursor: &mut Cursor<'a, 't>,
    lists: &mut Lists<'a>,
) -> Result<Option<Select>, AllocError>
    requires { HasRoom lists.old cursor.old }
    ensures is { Passes result (NoQuery cursor.old) (QueryPassed lists.old lists.new cursor.old cursor.new) }
    ensures paid { IfPassed result (PaidMore lists.old lists.new cursor.old cursor.new) }
    ensures others { KeepsSelects lists.old lists.new }
{
    if !pass_select(cursor) {
        return Ok(None);
    }
    let Some(columns) = pass_columns(cursor, lists)? else {
        return Ok(None);
    };
    if !pass_mark(cursor, Mark::From) {
        return Ok(None);
    }
    let Some(tables) = pass_froms(cursor, lists)? else {
        return Ok(None);
    };
    let Some(equations) = pass_where(cursor, lists)? else {
        return Ok(None);
    };
    Ok(Some(Select {
        columns,
        tables,
        equations,
    }))
}

/// Passes selects with `UNION` between them.
fn pass_union<'a, 't>(
    cursor: &mut Cursor<'a, 't>,
    lists: &mut Lists<'a>,
) -> Result<Option<Span>, AllocError>
    requires { HasRoom lists.old cursor.old }
    ensures is { Passes result (NoUnion cursor.old) (UnionPassed lists.old lists.new cursor.old cursor.new) }
    ensures paid { IfPassed result (Paid lists.old lists.new cursor.old cursor.new) }
    ensures others { KeepsTables lists.old lists.new }
{
    let first = lists.selects.len();
    loop {
        let Some(select) = pass_query(cursor, lists)? else {
            return Ok(None);
        };
        lists.selects.push(select)?;
        if !pass_mark(cursor, Mark::Union) {
            return Ok(Some(Span {
                first: first as u32,
                count: (lists.selects.len() - first) as u32,
            }));
        }
    }
}

/// Passes the union that a table is, behind `AS` and in parentheses.
fn pass_body<'a, 't>(
    cursor: &mut Cursor<'a, 't>,
    lists: &mut Lists<'a>,
) -> Result<Option<Span>, AllocError>
    requires { HasRoom lists.old cursor.old }
    ensures is { Passes result (NoBody cursor.old) (BodyPassed lists.old lists.new cursor.old cursor.new) }
    ensures paid { IfPassed result (Paid lists.old lists.new cursor.old cursor.new) }
    ensures others { KeepsTables lists.old lists.new }
{
    if !pass_mark(cursor, Mark::As) {
        return Ok(None);
    }
    if !pass_mark(cursor, Mark::Open) {
        return Ok(None);
    }
    let Some(body) = pass_union(cursor, lists)? else {
        return Ok(None);
    };
    if !pass_mark(cursor, Mark::Close) {
        return Ok(None);
    }
    Ok(Some(body))
}

/// Passes a table.
fn pass_table<'a, 't>(
    cursor: &mut Cursor<'a, 't>,
    lists: &mut Lists<'a>,
) -> Result<Option<Table<'a>>, AllocError>
    requires { HasRoom lists.old cursor.old }
    ensures is { Passes result (NoTable cursor.old) (TablePassed lists.old lists.new cursor.old cursor.new) }
    ensures paid { IfPassed result (PaidMore lists.old lists.new cursor.old cursor.new) }
    ensures others { KeepsTables lists.old lists.new }
{
    let Some(name) = pass_word(cursor) else {
        return Ok(None);
    };
    if !pass_mark(cursor, Mark::Open) {
        return Ok(None);
    }
    let Some(columns) = pass_names(cursor, lists)? else {
        return Ok(None);
    };
    if !pass_mark(cursor, Mark::Close) {
        return Ok(None);
    }
    let Some(body) = pass_body(cursor, lists)? else {
        return Ok(None);
    };
    Ok(Some(Table {
        name,
        columns,
        body,
    }))
}

/// Passes tables with commas between them, and answers whether they stand there.
fn pass_tables<'a, 't>(
    cursor: &mut Cursor<'a, 't>,
    lists: &mut Lists<'a>,
) -> Result<bool, AllocError>
    requires room { HasRoom lists.old cursor.old }
    requires none { lists.old.tables.items ≡ [] }
    ensures is { IfOk result (λ r. MatchBool r (TablesPassed lists.old lists.new cursor.old cursor.new) (NoTables cursor.old)) }
    ensures paid { IfOk result (λ r. r ≡ true → Paid lists.old lists.new cursor.old cursor.new) }
{
    loop {
        let Some(table) = pass_table(cursor, lists)? else {
            return Ok(false);
        };
        lists.tables.push(table)?;
        if !pass_mark(cursor, Mark::Comma) {
            return Ok(true);
        }
    }
}

/// Passes the whole text, and answers the part of the selects that is the last union.
pub(crate) fn pass_text<'a, 't>(
    cursor: &mut Cursor<'a, 't>,
    lists: &mut Lists<'a>,
) -> Result<Option<Span>, AllocError>
    requires room { HasRoom lists.old cursor.old }
    requires none { lists.old.tables.items ≡ [] }
    ensures is { Passes result (NoText cursor.old) (TextPassed lists.new cursor.old) }
    ensures few { IfPassed result (entries lists.new ≤ 16777216) }
{
    if !pass_mark(cursor, Mark::With) {
        return Ok(None);
    }
    if !pass_mark(cursor, Mark::Recursive) {
        return Ok(None);
    }
    if !pass_tables(cursor, lists)? {
        return Ok(None);
    }
    let Some(last) = pass_union(cursor, lists)? else {
        return Ok(None);
    };
    if is_at_end(cursor) {
        Ok(Some(last))
    } else {
        Ok(None)
    }
}
