//! The lists of what is read, and their parts: each call passes a list where it stands next, and keeps its entries.

ghost use Rattle.sql_read.specs.Parsed.{KeepsSelects};
ghost use Rattle.sql_read.specs.Passed.{Passes, IfPassed, HasRoom, Paid, NoCols, ColsPassed, NoFroms, FromsPassed};
ghost use Rattle.sql_read.specs.Passed.{NoEquations, EquationsPassed, NoNames, NamesPassed};
ghost use Rattle.sql_read.specs.Passed.{NothingSelected, ColumnsPassed, NoWhere, WherePassed};

use crate::cursor::{
    Cursor, ends_query, pass_col, pass_equation, pass_from, pass_mark, pass_one, pass_word,
};
use crate::query::{Col, Equation, Select, SqlFrom, Table};
use crate::tokens::Mark;
use gm_text::Span;
use std::alloc::AllocError;

/// The lists of which the parts are cut.
#[derive(Drop)]
pub(crate) struct Lists<'a> {
    pub(crate) columns: Vec<Col<'a>>,
    pub(crate) froms: Vec<SqlFrom<'a>>,
    pub(crate) equations: Vec<Equation<'a>>,
    pub(crate) names: Vec<&'a [u8]>,
    pub(crate) selects: Vec<Select>,
    pub(crate) tables: Vec<Table<'a>>,
}

/// Passes columns with commas between them.
fn pass_cols<'a, 't>(
    cursor: &mut Cursor<'a, 't>,
    lists: &mut Lists<'a>,
) -> Result<Option<Span>, AllocError>
    requires { HasRoom lists.old cursor.old }
    ensures is { Passes result (NoCols cursor.old) (ColsPassed lists.old lists.new cursor.old cursor.new) }
    ensures paid { IfPassed result (Paid lists.old lists.new cursor.old cursor.new) }
    ensures others { KeepsSelects lists.old lists.new }
{
    let first = lists.columns.len();
    loop {
        let Some(col) = pass_col(cursor) else {
            return Ok(None);
        };
        lists.columns.push(col)?;
        if !pass_mark(cursor, Mark::Comma) {
            return Ok(Some(Span {
                first: first as u32,
                count: (lists.columns.len() - first) as u32,
            }));
        }
    }
}

/// Passes tables under aliases, with commas between them.
pub(crate) fn pass_froms<'a, 't>(
    cursor: &mut Cursor<'a, 't>,
    lists: &mut Lists<'a>,
) -> Result<Option<Span>, AllocError>
    requires { HasRoom lists.old cursor.old }
    ensures is { Passes result (NoFroms cursor.old) (FromsPassed lists.old lists.new cursor.old cursor.new) }
    ensures paid { IfPassed result (Paid lists.old lists.new cursor.old cursor.new) }
    ensures others { KeepsSelects lists.old lists.new }
{
    let first = lists.froms.len();
    loop {
        let Some(from) = pass_from(cursor) else {
            return Ok(None);
        };
        lists.froms.push(from)?;
        if !pass_mark(cursor, Mark::Comma) {
            return Ok(Some(Span {
                first: first as u32,
                count: (lists.froms.len() - first) as u32,
            }));
        }
    }
}

/// Passes equations with `AND` between them.
fn pass_equations<'a, 't>(
    cursor: &mut Cursor<'a, 't>,
    lists: &mut Lists<'a>,
) -> Result<Option<Span>, AllocError>
    requires { HasRoom lists.old cursor.old }
    ensures is { Passes result (NoEquations cursor.old) (EquationsPassed lists.old lists.new cursor.old cursor.new) }
    ensures paid { IfPassed result (Paid lists.old lists.new cursor.old cursor.new) }
    ensures others { KeepsSelects lists.old lists.new }
{
    let first = lists.equations.len();
    loop {
        let Some(equation) = pass_equation(cursor) else {
            return Ok(None);
        };
        lists.equations.push(equation)?;
        if !pass_mark(cursor, Mark::And) {
            return Ok(Some(Span {
                first: first as u32,
                count: (lists.equations.len() - first) as u32,
            }));
        }
    }
}

/// Passes names with commas between them.
pub(crate) fn pass_names<'a, 't>(
    cursor: &mut Cursor<'a, 't>,
    lists: &mut Lists<'a>,
) -> Result<Option<Span>, AllocError>
    requires { HasRoom lists.old cursor.old }
    ensures is { Passes result (NoNames cursor.old) (NamesPassed lists.old lists.new cursor.old cursor.new) }
    ensures paid { IfPassed result (Paid lists.old lists.new cursor.old cursor.new) }
    ensures others { KeepsSelects lists.old lists.new }
{
    let first = lists.names.len();
    loop {
        let Some(name) = pass_word(cursor) else {
            return Ok(None);
        };
        lists.names.push(name)?;
        if !pass_mark(cursor, Mark::Comma) {
            return Ok(Some(Span {
                first: first as u32,
                count: (lists.names.len() - first) as u32,
            }));
        }
    }
}

/// Passes what a select selects: `1`, or columns with commas between them.
pub(crate) fn pass_columns<'a, 't>(
    cursor: &mut Cursor<'a, 't>,
    lists: &mut Lists<'a>,
) -> Result<Option<Span>, AllocError>
    requires { HasRoom lists.old cursor.old }
    ensures is { Passes result (NothingSelected cursor.old) (ColumnsPassed lists.old lists.new cursor.old cursor.new) }
    ensures paid { IfPassed result (Paid lists.old lists.new cursor.old cursor.new) }
    ensures others { KeepsSelects lists.old lists.new }
{
    if pass_one(cursor) {
        return Ok(Some(Span {
            first: lists.columns.len() as u32,
            count: 0,
        }));
    }
    let Some(span) = pass_cols(cursor, lists)? else {
        return Ok(None);
    };
    Ok(Some(span))
}

/// Passes `WHERE` and its equations, or nothing, before the end of a select.
pub(crate) fn pass_where<'a, 't>(
    cursor: &mut Cursor<'a, 't>,
    lists: &mut Lists<'a>,
) -> Result<Option<Span>, AllocError>
    requires { HasRoom lists.old cursor.old }
    ensures is { Passes result (NoWhere cursor.old) (WherePassed lists.old lists.new cursor.old cursor.new) }
    ensures paid { IfPassed result (Paid lists.old lists.new cursor.old cursor.new) }
    ensures others { KeepsSelects lists.old lists.new }
{
    if !pass_mark(cursor, Mark::Where) {
        let first = lists.equations.len() as u32;
        if ends_query(cursor) {
            return Ok(Some(Span { first, count: 0 }));
        }
        return Ok(None);
    }
    let Some(equations) = pass_equations(cursor, lists)? else {
        return Ok(None);
    };
    if ends_query(cursor) {
        return Ok(Some(equations));
    }
    Ok(None)
}
