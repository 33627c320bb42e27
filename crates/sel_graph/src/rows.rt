//! Rows of places.

ghost use Rattle.std.specs.Prelude.{◌≡◌, ◌↔◌, ◌<◌, ◌≤◌, ◌==◌, ◌||◌, ◌&&◌, ℕ, IsTrue, IfOk, length};
ghost use Rattle.bit_rows.specs.Sets.{has, set_at};
ghost use Rattle.sel_graph.specs.Rows.{HasRows};

use bit_rows::{BitRow, Grid};
use std::alloc::{AllocError, Global};

/// Rows by their numbers.
pub(crate) trait Rows {
    /// How many rows there are.
    ghost count: { Self → ℕ };

    /// Whether a row has a number.
    ghost holds: { Self → ℕ → ℕ → Type 0 };

    /// How many rows there are.
    fn count(&self) -> u32
        ensures { result ≡ count self.now };

    /// The row with a number.
    fn row(&self, r: u32) -> BitRow<10>
        requires { r < count self.now }
        ensures { (n : ℕ) → IsTrue (has result n) ↔ holds self.now r n };
}

/// All rows, in their order.
pub(crate) fn grid_of<R: Rows>(alloc: Global, rows: &R) -> Result<Grid<10>, AllocError>
    ensures { IfOk result (HasRows (R.count rows.now) (R.holds rows.now)) }
{
    let mut grid = Grid::new(alloc, rows.count())?;
    for r in 0..rows.count() {
        *grid.row_mut(r) = rows.row(r);
    }
    Ok(grid)
}

/// The numbers that some of the rows have whose numbers a row has.
pub(crate) fn union_of(members: &BitRow<10>, rows: &Grid<10>) -> BitRow<10>
    requires few { length rows.now ≤ 320 }
    requires within { (m : ℕ) → IsTrue (has members.now m) → m < length rows.now }
    ensures { (q : ℕ) → IsTrue (has result q) ↔ ((m : ℕ) × IsTrue (has members.now m) × IsTrue (has (set_at rows.now m) q)) }
{
    let mut union = BitRow::empty();
    for m in members.numbers() {
        union.or_row(rows.row(m));
    }
    union
}

/// Which of the rows have a number.
pub(crate) fn rows_with(rows: &Grid<10>, count: u32, q: u32) -> BitRow<10>
    requires count { length rows.now ≡ count }
    requires few { count ≤ 320 }
    requires q { q < 320 }
    ensures { (p : ℕ) → has result p ≡ has (set_at rows.now p) q }
{
    let mut having = BitRow::empty();
    for p in 0..count {
        set_if(&mut having, p, rows.row(p).get(q));
    }
    having
}

/// Puts a number into a row, if it shall be there.
fn set_if(row: &mut BitRow<10>, n: u32, shall: bool)
    requires { n < 320 }
    ensures { (p : ℕ) → has row.new p ≡ (has row.old p || (shall && (n == p))) }
{
    if shall {
        row.set(n);
    }
}
