//! The greatest class of a matrix by its columns.

ghost use Rattle.std.specs.Prelude.{◌≡◌, ◌≤◌, length};
ghost use Rattle.sel_algebra.specs.Table.{types_most};
ghost use Rattle.query_draw.specs.Classes.{IsGreatestIn, IsGreatestOver};

use crate::column_list::Columns;
use crate::columns::{Column, told_op};
use crate::type_sets::{next_type, without};
use sel_algebra::{Class, Kind, class_of, greater_class};

/// The greatest class of the entries of a matrix over types of these kinds, and `None` where it has no entries.
pub(crate) fn greatest_class(kinds: &[Kind], columns: &Columns) -> Option<Class>
    requires few { length kinds.now ≤ types_most }
    requires whole { length columns.now ≡ length kinds.now }
    ensures { IsGreatestOver kinds.now columns.now result }
{
    let mut greatest = None;
    for to in 0..kinds.len() {
        let class = greatest_to(kinds, columns.at(to), kinds[to]);
        greatest = greater_class(greatest, class);
    }
    greatest
}

/// The greatest class of the entries of a column to a type of some kind, and `None` where it has no entries.
fn greatest_to(kinds: &[Kind], column: Column, to: Kind) -> Option<Class>
    requires { length kinds.now ≤ types_most }
    ensures { IsGreatestIn kinds.now column to result }
{
    let mut greatest = None;
    let mut rest = column.there;
    while let Some(from) = next_type(rest, kinds.len()) {
        let class = class_of(told_op(column, from), kinds[from as usize], to);
        greatest = greater_class(greatest, Some(class));
        rest = without(rest, from);
    }
    greatest
}
