//! Products and closures of matrices by their columns.

ghost use Rattle.std.specs.Prelude.{◌≡◌, ◌≤◌, ◌*◌, length};
ghost use Rattle.sel_algebra.specs.Table.{types_most};
ghost use Rattle.query_draw.specs.Columns.{AreGrowing};
ghost use Rattle.query_draw.specs.Products.{JoinsPaths, IsProduct, IsRoundOf, IsClosed};

use crate::column_list::Columns;
use crate::columns::{
    Column, equal_column, followed_column, joined_column, no_column, normal_column, told_op,
};
use crate::type_sets::{next_type, without};
use sel_algebra::Kind;
use std::mem;

/// Makes a matrix the product of two others over types of these kinds.
pub(crate) fn multiply(
    kinds: &[Kind],
    growing: u64,
    first: &Columns,
    second: &Columns,
    product: &mut Columns,
)
    requires growing { AreGrowing kinds.now growing }
    requires first { length first.now ≡ length kinds.now }
    requires second { length second.now ≡ length kinds.now }
    requires product { length product.old ≡ length kinds.now }
    ensures whole { length product.new ≡ length kinds.now }
    ensures product { IsProduct kinds.now first.now second.now product.new }
{
    for to in 0..kinds.len() {
        let paths = join_paths(no_column(), first, second.at(to), growing, kinds[to]);
        product.put(to, paths);
    }
}

/// Makes a matrix the closure of another one over types of these kinds, by rounds until one changes nothing.
pub(crate) fn close(
    kinds: &[Kind],
    growing: u64,
    step: &Columns,
    closure: &mut Columns,
    next: &mut Columns,
)
    requires few { length kinds.now ≤ types_most }
    requires growing { AreGrowing kinds.now growing }
    requires step { length step.now ≡ length kinds.now }
    requires closure { length closure.old ≡ length kinds.now }
    requires next { length next.old ≡ length kinds.now }
    ensures whole { length closure.new ≡ length kinds.now }
    ensures next { length next.new ≡ length kinds.now }
    ensures closure { IsClosed kinds.now step.now closure.new }
{
    closure.enter_equal();
    for _ in 0..rounds_most(kinds.len()) {
        make_round(kinds, growing, step, closure, next);
        if next.has_columns_of(closure) {
            return;
        }
        mem::swap(closure, next);
    }
}

/// The most rounds that change a matrix over so many types: each entry rises at most four times.
fn rounds_most(count: usize) -> usize
    requires { count ≤ types_most }
    ensures { result ≡ 4 * (count * count) }
{
    4 * (count * count)
}

/// Makes a matrix the next round of a closure: no path, or a step before what the last round has.
fn make_round(kinds: &[Kind], growing: u64, step: &Columns, last: &Columns, next: &mut Columns)
    requires few { length kinds.now ≤ types_most }
    requires growing { AreGrowing kinds.now growing }
    requires step { length step.now ≡ length kinds.now }
    requires last { length last.now ≡ length kinds.now }
    requires next { length next.old ≡ length kinds.now }
    ensures whole { length next.new ≡ length kinds.now }
    ensures round { IsRoundOf kinds.now step.now last.now next.new }
{
    for to in 0..kinds.len() {
        let paths = join_paths(equal_column(to), step, last.at(to), growing, kinds[to]);
        next.put(to, paths);
    }
}

/// Joins a column with the paths of a matrix that end with one more step, to a type of some kind. The steps are the entries
/// of a column to that type.
fn join_paths(column: Column, paths: &Columns, steps: Column, growing: u64, to: Kind) -> Column
    ensures { JoinsPaths growing paths.now steps to column result }
{
    let mut joined = column;
    let mut rest = steps.there;
    while let Some(middle) = next_type(rest, paths.count()) {
        let path = followed_column(paths.at(middle as usize), told_op(steps, middle));
        joined = joined_column(joined, normal_column(path, growing, to));
        rest = without(rest, middle);
    }
    joined
}
