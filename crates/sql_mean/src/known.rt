//! Tables that are made, by their names.

ghost use Rattle.std.specs.Prelude.{◌≡◌, ℕ, List, map, option_map};
ghost use Rattle.std.specs.Borrow.{Bor};
ghost use Rattle.sql_read.specs.Conditions.{columns_of};
ghost use Rattle.sql_read.specs.View.{name_view};
ghost use Rattle.sql_mean.specs.Evaluation.{KnownValue, headers_in, rows_under};

use crate::tuples::Tuple;
use std::marker::Model;

/// A table with its name, its columns and its rows.
#[derive(Drop)]
pub(crate) struct Known<'a> {
    name: &'a [u8],
    columns: &'a [&'a [u8]],
    rows: Vec<Tuple>,
}

impl<'a> Model for Known<'a> {
    ghost use Rattle.std.specs.Prelude.{map};
    ghost use Rattle.sql_read.specs.View.{name_view};
    ghost use Rattle.sql_mean.specs.Evaluation.{KnownValue};

    ghost Value = { KnownValue };

    ghost view = { λ k. record { name = k.name.now; columns = map name_view k.columns.now; rows = k.rows.items } };
}

impl<'a> Known<'a> {
    /// A table of these rows.
    pub(crate) fn new(name: &'a [u8], columns: &'a [&'a [u8]], rows: Vec<Tuple>) -> Known<'a>
        ensures { result ≡ record { name = name.now; columns = map name_view columns.now; rows = rows.items } }
    {
        Known {
            name,
            columns,
            rows,
        }
    }

    fn name(&self) -> &'a [u8]
        ensures { result.now ≡ self.now.name }
    {
        self.name
    }

    fn columns(&self) -> &'a [&'a [u8]]
        ensures { map name_view result.now ≡ self.now.columns }
    {
        self.columns
    }

    fn rows(&self) -> &[Tuple]
        ensures { result.now ≡ self.now.rows }
    {
        &self.rows
    }

    /// Its rows.
    pub(crate) fn into_rows(self) -> Vec<Tuple>
        ensures { result.items ≡ self.entry.rows }
    {
        self.rows
    }
}

/// The rows of the table with a name.
pub(crate) fn rows_under<'k>(known: &'k [Known<'_>], name: &[u8]) -> &'k [Tuple]
    ensures { result.now ≡ rows_under known.now name.now }
{
    let mut rest = known;
    while let [table, more @ ..] = rest {
        if table.name() == name {
            return table.rows();
        }
        rest = more;
    }
    &[]
}

/// The columns of the table with a name.
pub(crate) fn columns_of<'a>(known: &[Known<'a>], name: &[u8]) -> Option<&'a [&'a [u8]]>
    ensures { option_map (λ columns. map name_view columns.now) result ≡ columns_of (headers_in known.now) name.now }
{
    let mut rest = known;
    while let [table, more @ ..] = rest {
        if table.name() == name {
            return Some(table.columns());
        }
        rest = more;
    }
    None
}
