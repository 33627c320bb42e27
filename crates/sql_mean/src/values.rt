//! The numbers that rows have in columns.

ghost use Rattle.std.specs.Prelude.{◌≡◌, ℕ, List, map};
ghost use Rattle.sql_read.specs.View.{name_view, col_view, right_view, equation_view, source_view};
ghost use Rattle.sql_mean.specs.Selects.{value_in, value_of, right_value};
ghost use Rattle.sql_mean.specs.Evaluation.{headers_in, row_view, is_met};

use crate::known::{Known, columns_of};
use sql_read::{Col, Equation, Right, SqlFrom};

/// The number of a row at the place of a column's name, and 0 where there is no such place.
fn value_in(columns: &[&[u8]], row: &[u32], name: &[u8]) -> u32
    ensures { result ≡ value_in (map name_view columns.now) row.now name.now }
{
    let mut columns = columns;
    let mut row = row;
    while let [column, later @ ..] = columns {
        let [number, others @ ..] = row else {
            return 0;
        };
        if *column == name {
            return *number;
        }
        columns = later;
        row = others;
    }
    0
}

/// The number in the column of the row under the column's alias, where there is one row for each source.
pub(crate) fn value_of(
    known: &[Known<'_>],
    froms: &[SqlFrom<'_>],
    product: &[&[u32]],
    col: Col<'_>,
) -> u32
    ensures { result ≡ value_of (headers_in known.now) (map source_view froms.now) (map row_view product.now) (col_view col.entry) }
{
    let mut froms = froms;
    let mut product = product;
    while let [from, later @ ..] = froms {
        let [row, others @ ..] = product else {
            return 0;
        };
        if from.alias == col.alias {
            return match columns_of(known, from.table) {
                Some(columns) => value_in(columns, row, col.column),
                None => 0,
            };
        }
        froms = later;
        product = others;
    }
    0
}

/// Whether both sides of an equation are the same number.
pub(crate) fn is_met(
    known: &[Known<'_>],
    froms: &[SqlFrom<'_>],
    product: &[&[u32]],
    equation: Equation<'_>,
) -> bool
    ensures { result ≡ is_met (headers_in known.now) (map source_view froms.now) (map row_view product.now) (equation_view equation.entry) }
{
    let right = match equation.right {
        Right::Column(col) => value_of(known, froms, product, col),
        Right::Number(number) => number,
    };
    value_of(known, froms, product, equation.left) == right
}
