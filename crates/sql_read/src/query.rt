//! What a SQL text says.

ghost use Rattle.std.specs.Prelude.{◌≡◌, ◌<◌, ◌≤◌, true, length, slice_get, Some, IfOk};
ghost use Rattle.sql_read.specs.Conditions.{holds};
ghost use Rattle.sql_read.specs.Kept.{ReadingFits, reading_in};
ghost use Rattle.sql_read.specs.Parsed.{entries, kept_of};
ghost use Rattle.sql_read.specs.Whole.{IsWhole};

use crate::lists::Lists;
use gm_text::{Arena, Span};
use std::alloc::AllocError;
use std::marker::Model;

/// A column of the table under an alias.
#[derive(Clone, Copy, Debug, PartialEq, Eq)]
pub struct Col<'a> {
    /// The alias.
    pub alias: &'a [u8],
    /// The name of the column.
    pub column: &'a [u8],
}

/// The right side of an equation.
#[derive(Clone, Copy, Debug, PartialEq, Eq)]
pub enum Right<'a> {
    /// The value of a column.
    Column(Col<'a>),
    /// A number.
    Number(u32),
}

/// A condition on the rows of a select: two sides are equal.
#[derive(Clone, Copy, Debug, PartialEq, Eq)]
pub struct Equation<'a> {
    /// The column on the left side.
    pub left: Col<'a>,
    /// The right side.
    pub right: Right<'a>,
}

/// One table of a select, under its alias.
#[derive(Clone, Copy, Debug, PartialEq, Eq)]
pub struct SqlFrom<'a> {
    /// The name of the table.
    pub table: &'a [u8],
    /// The alias.
    pub alias: &'a [u8],
}

/// A select, by its parts of the lists of a query. A select of `1` has no columns.
#[derive(Clone, Copy, Debug, PartialEq, Eq)]
pub struct Select {
    /// The part of the columns that it selects.
    pub columns: Span,
    /// The part of the tables under aliases from which it takes.
    pub tables: Span,
    /// The part of the equations.
    pub equations: Span,
}

/// A table, by its parts of the lists of a query.
#[derive(Clone, Copy, Debug, PartialEq, Eq)]
pub struct Table<'a> {
    /// The name of the table.
    pub name: &'a [u8],
    /// The part of the names that are its columns'.
    pub columns: Span,
    /// The part of the selects whose union it is.
    pub body: Span,
}

/// What a text says: lists, whose parts are cut by spans, its tables in their order, and the selects of its last union.
#[derive(Drop)]
pub struct SqlQuery<'a> {
    columns: &'a [Col<'a>],
    froms: &'a [SqlFrom<'a>],
    equations: &'a [Equation<'a>],
    names: &'a [&'a [u8]],
    selects: &'a [Select],
    tables: &'a [Table<'a>],
    last: Span,
}

impl<'a> Model for SqlQuery<'a> {
    ghost use Rattle.sql_read.specs.Whole.{Whole, IsWhole, whole};

    ghost Value = { Whole };

    ghost view = { λ q. whole q.columns.now q.froms.now q.equations.now q.names.now q.selects.now q.tables.now q.last };

    ghost invariant = { λ q. IsWhole (whole q.columns.now q.froms.now q.equations.now q.names.now q.selects.now q.tables.now q.last) };
}

impl<'a> SqlQuery<'a> {
    /// The number of tables.
    pub fn table_count(&self) -> u32
        ensures { result ≡ length self.now.kept.tables }
    {
        self.tables.len() as u32
    }

    /// The table at a place, counted from 0.
    pub fn table(&self, i: u32) -> Table<'a>
        requires { i < length self.now.kept.tables }
        ensures { slice_get self.now.kept.tables i ≡ Some result }
    {
        self.tables[i as usize]
    }

    /// The selects of all unions.
    pub fn selects(&self) -> &'a [Select]
        ensures { result.now ≡ self.now.kept.selects }
    {
        self.selects
    }

    /// The part of the selects that is the last union.
    pub fn last(&self) -> Span
        ensures span { result ≡ self.now.last }
        ensures whole { IsWhole self.now }
    {
        self.last
    }

    /// The columns that selects name.
    pub fn columns(&self) -> &'a [Col<'a>]
        ensures { result.now ≡ self.now.kept.columns }
    {
        self.columns
    }

    /// The tables from which selects take, under their aliases.
    pub fn froms(&self) -> &'a [SqlFrom<'a>]
        ensures { result.now ≡ self.now.kept.froms }
    {
        self.froms
    }

    /// The equations of selects.
    pub fn equations(&self) -> &'a [Equation<'a>]
        ensures { result.now ≡ self.now.kept.equations }
    {
        self.equations
    }

    /// The names of the columns of tables.
    pub fn names(&self) -> &'a [&'a [u8]]
        ensures { result.now ≡ self.now.kept.names }
    {
        self.names
    }
}

/// Keeps the lists in an arena.
pub(crate) fn keep<'a>(
    arena: &'a Arena,
    lists: &Lists<'a>,
    last: Span,
) -> Result<SqlQuery<'a>, AllocError>
    requires fits { ReadingFits last (kept_of lists.now) }
    requires conditions { holds (reading_in last (kept_of lists.now)) ≡ true }
    requires few { entries lists.now ≤ 16777216 }
    ensures { IfOk result (λ q. q ≡ record { kept = kept_of lists.now; last = last }) }
{
    Ok(SqlQuery {
        columns: arena.try_alloc_slice_copy(&lists.columns)?,
        froms: arena.try_alloc_slice_copy(&lists.froms)?,
        equations: arena.try_alloc_slice_copy(&lists.equations)?,
        names: arena.try_alloc_slice_copy(&lists.names)?,
        selects: arena.try_alloc_slice_copy(&lists.selects)?,
        tables: arena.try_alloc_slice_copy(&lists.tables)?,
        last,
    })
}
