//! Where the variables of a rule stand.

ghost use Rattle.std.specs.Prelude.{◌≡◌, ◌++◌, ◌∷◌, [], ℕ, List, length, ◌==◌, OnOk, IfOk};
ghost use Rattle.sql_read.specs.Grammar.{Column as TestColumn};
ghost use Rattle.sql_emit.specs.Reading.{Occurrence, equal, occurrences_from};
ghost use Rattle.sql_emit.specs.Text.{col_text, equation_text};
ghost use Rattle.sql_emit.specs.Writing.{AreEnds, column_view, joint, occurrence};

use crate::links::Link;
use crate::names::put_alias;
use indexmap::IndexMap;
use std::alloc::{AllocError, Global};

/// One of the columns of a term's table.
#[derive(Clone, Copy, Debug, PartialEq, Eq)]
pub(crate) enum End {
    /// Where the pairs begin.
    Src,
    /// Where they end.
    Trg,
}

/// A column of a rule.
#[derive(Clone, Copy, Debug, PartialEq, Eq)]
pub(crate) struct Column {
    /// The number of the link in the rule.
    pub(crate) link: usize,
    /// Which column of the link's table.
    pub(crate) end: End,
}

/// The ends of some links.
#[derive(Drop)]
pub(crate) struct Ends {
    /// The column in which each variable stands first.
    pub(crate) firsts: IndexMap<u32, Column>,
    /// The text of the equations of the other columns, if there are some.
    pub(crate) equations: Vec<u8>,
}

/// Appends a column.
pub(crate) fn put_column(alloc: Global, out: &mut Vec<u8>, column: Column) -> Result<(), AllocError>
    ensures { OnOk result (out.new.items ≡ out.old.items ++ col_text (column_view column)) }
{
    put_alias(alloc, out, column.link)?;
    match column.end {
        End::Src => out.extend_from_slice(b".src"),
        End::Trg => out.extend_from_slice(b".trg"),
    }
}

/// Appends to the equations that a column is equal to the first one of its variable.
fn put_equation(
    alloc: Global,
    out: &mut Vec<u8>,
    first: Column,
    later: Column,
) -> Result<(), AllocError>
    ensures { OnOk result (out.new.items ≡ out.old.items ++ (joint (length out.old.items == 0) ++ equation_text (equal (column_view first) (TestColumn (column_view later))))) }
{
    if out.is_empty() {
        out.extend_from_slice(b" WHERE ")?;
    } else {
        out.extend_from_slice(b" AND ")?;
    }
    put_column(alloc, out, first)?;
    out.extend_from_slice(b" = ")?;
    put_column(alloc, out, later)
}

/// A variable stands in one column more.
fn add_end(alloc: Global, ends: &mut Ends, variable: u32, column: Column) -> Result<(), AllocError>
    ensures { OnOk result ((os : List Occurrence) → AreEnds os ends.old → AreEnds (os ++ occurrence variable column ∷ []) ends.new) }
{
    if let Some(first) = ends.firsts.get(&variable) {
        put_equation(alloc, &mut ends.equations, *first, column)?;
        return Ok(());
    }
    ends.firsts.insert(variable, column)?;
    Ok(())
}

/// A column of the table of a link, by the number of the link.
fn column_at(link: usize, end: End) -> Column
    ensures { result ≡ record { link = link; end = end } }
{
    Column { link, end }
}

/// The ends of a rule's links.
pub(crate) fn ends_of(alloc: Global, links: &[Link]) -> Result<Ends, AllocError>
    ensures { IfOk result (λ ends. AreEnds (occurrences_from 0 links.now) ends) }
{
    let mut ends = Ends {
        firsts: IndexMap::new(alloc),
        equations: Vec::new(alloc),
    };
    for i in 0..links.len() {
        let link = links[i];
        add_end(alloc, &mut ends, link.src, column_at(i, End::Src))?;
        add_end(alloc, &mut ends, link.trg, column_at(i, End::Trg))?;
    }
    Ok(ends)
}
