//! Rows of numbers.

ghost use Rattle.std.specs.Prelude.{◌≡◌, ◌≤◌, ◌<◌, ◌↔◌, ℕ, List, [], length, slice_get, Some, IsTrue, true};
ghost use Rattle.std.specs.List.{Contains};
ghost use Rattle.graph_text.specs.Rows.{row_most, row_values, is_row, are_rows, values_of, IsRising};

use std::marker::Model;

/// The most numbers that a row has.
pub const ROW_MOST: usize = 4;

/// A row of up to 4 numbers. Rows are ordered by their numbers, where they have as many.
#[derive(Clone, Copy, Debug, PartialEq, Eq, PartialOrd, Ord)]
pub struct Row {
    /// How many numbers it has, at most 4.
    pub count: u8,
    /// The numbers, and 0 from `count` on.
    pub values: [u32; 4],
}

impl Row {
    /// The row of these numbers, at most 4.
    pub fn of(numbers: &[u32]) -> Row
        requires { length numbers.now ≤ row_most }
        ensures values { row_values result ≡ numbers.now }
        ensures is_row { is_row (length numbers.now) result ≡ true }
    {
        let mut values = [0; ROW_MOST];
        values[..numbers.len()].copy_from_slice(numbers);
        Row {
            count: numbers.len() as u8,
            values,
        }
    }
}

/// Rows of one count in ascending order, each of them once.
#[derive(Drop)]
pub struct Rows {
    items: Vec<Row>,
}

impl Model for Rows {
    ghost use Rattle.std.specs.Prelude.{◌≡◌, ℕ, List, true};
    ghost use Rattle.graph_text.specs.Rows.{are_rows, values_of, IsRising};

    ghost Value = { List (List ℕ) };

    ghost view = { λ rows. values_of rows.items.items };

    ghost invariant = { λ rows. (are_rows rows.items.items ≡ true) × IsRising (values_of rows.items.items) };
}

impl Rows {
    /// These rows, with no memory taken.
    pub fn of(items: Vec<Row>) -> Self
        requires rows { are_rows items.items ≡ true }
        requires rising { IsRising (values_of items.items) }
        ensures { result ≡ values_of items.items }
    {
        Rows { items }
    }

    /// The rows of a list in any order and with repeats, with no memory taken.
    pub fn sorted(items: Vec<Row>) -> Self
        requires { are_rows items.items ≡ true }
        ensures rows { (row : List ℕ) → Contains result row ↔ Contains (values_of items.items) row }
        ensures rising { IsRising result }
    {
        let mut rows = items;
        rows.sort_unstable();
        rows.dedup();
        Rows { items: rows }
    }

    /// The number of rows.
    pub fn len(&self) -> usize
        ensures len { result ≡ length self.now }
        ensures rising { IsRising self.now }
    {
        self.items.len()
    }

    /// Whether there are no rows.
    pub fn is_empty(&self) -> bool
        ensures { IsTrue result ↔ (self.now ≡ []) }
    {
        self.items.is_empty()
    }

    /// The row at an index.
    pub fn at(&self, index: usize) -> &Row
        requires { index < length self.now }
        ensures { slice_get self.now index ≡ Some (row_values result.now) }
    {
        &self.items[index]
    }

    /// All rows.
    pub fn as_slice(&self) -> &[Row]
        ensures values { values_of result.now ≡ self.now }
        ensures rows { are_rows result.now ≡ true }
        ensures rising { IsRising self.now }
    {
        &self.items
    }

    /// The rows as a vector, with no memory taken.
    pub fn into_items(self) -> Vec<Row>
        ensures values { values_of result.items ≡ self }
        ensures rows { are_rows result.items ≡ true }
        ensures rising { IsRising self }
    {
        self.items
    }
}
