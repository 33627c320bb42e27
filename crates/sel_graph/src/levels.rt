//! The places to which steps from place to place lead, for each number of steps.

ghost use Rattle.std.specs.Prelude.{◌≡◌, ◌<◌, ◌≤◌, ◌*◌, ℕ, IsTrue, IfOk, length};
ghost use Rattle.bit_rows.specs.Sets.{has, set_at};
ghost use Rattle.sel_graph.specs.Rows.{HasRows, HasLevels, StepsBy, Back, level_at, row_at};
ghost use Rattle.sel_graph.specs.Tables.{levels_of};

use crate::rows::{Rows, grid_of, rows_with, union_of};
use bit_rows::{BitRow, Grid};
use sel_algebra::Kind;
use std::alloc::{AllocError, Global};

/// For each place the row that has it alone: where no step leads.
#[derive(Drop)]
struct NoSteps {
    size: u32,
    ghost few: { size ≤ 320 },
}

impl Rows for NoSteps {
    ghost count = { λ s. s.size };

    ghost holds = { λ _ p q. p ≡ q };

    fn count(&self) -> u32 {
        self.size
    }

    fn row(&self, r: u32) -> BitRow<10> {
        let mut row = BitRow::empty();
        row.set(r);
        row
    }
}

/// For each place what one step and then those of the last rows lead to.
#[derive(Drop)]
struct OneMoreStep<'a> {
    size: u32,
    steps: &'a Grid<10>,
    last: &'a Grid<10>,
    ghost steps_long: { length steps.now ≡ size },
    ghost last_long: { length last.now ≡ size },
    ghost few: { size ≤ 320 },
    ghost within: { (p m : ℕ) → p < size → StepsBy steps.now p m → m < size },
}

impl Rows for OneMoreStep<'_> {
    ghost count = { λ s. s.size };

    ghost holds = { λ s p q. (m : ℕ) × StepsBy s.steps.now p m × StepsBy s.last.now m q };

    fn count(&self) -> u32 {
        self.size
    }

    fn row(&self, r: u32) -> BitRow<10> {
        union_of(self.steps.row(r), self.last)
    }
}

/// For each number of steps below `count` the rows of all places, of which there are `size`, by the rows of one step.
fn all_levels(
    alloc: Global,
    size: u32,
    steps: &Grid<10>,
    count: usize,
) -> Result<Vec<Grid<10>>, AllocError>
    requires some { 1 ≤ count }
    requires few { size ≤ 320 }
    requires long { length steps.now ≡ size }
    requires within { (p m : ℕ) → p < size → StepsBy steps.now p m → m < size }
    ensures { IfOk result (λ levels. HasLevels count size (StepsBy steps.now) levels.items) }
{
    let mut levels = Vec::new(alloc);
    levels.push(grid_of(alloc, &NoSteps { size })?)?;
    for n in 1..count {
        let last = &levels[n - 1];
        let next = grid_of(alloc, &OneMoreStep { size, steps, last })?;
        levels.push(next)?;
    }
    Ok(levels)
}

/// For each number of steps below `count` the rows of all places, where the rows that are given say what one step does.
pub(crate) fn levels_from<R: Rows>(
    alloc: Global,
    rows: &R,
    count: usize,
) -> Result<Vec<Grid<10>>, AllocError>
    requires some { 1 ≤ count }
    requires few { R.count rows.now ≤ 320 }
    requires within { (p m : ℕ) → p < R.count rows.now → R.holds rows.now p m → m < R.count rows.now }
    ensures { IfOk result (λ levels. HasLevels count (R.count rows.now) (R.holds rows.now) levels.items) }
{
    let steps = grid_of(alloc, rows)?;
    all_levels(alloc, rows.count(), &steps, count)
}

/// For each place the places from which one step leads to it.
#[derive(Drop)]
struct BackSteps<'a> {
    size: u32,
    steps: &'a Grid<10>,
    ghost long: { length steps.now ≡ size },
    ghost few: { size ≤ 320 },
}

impl Rows for BackSteps<'_> {
    ghost count = { λ s. s.size };

    ghost holds = { λ s. Back (StepsBy s.steps.now) };

    fn count(&self) -> u32 {
        self.size
    }

    fn row(&self, r: u32) -> BitRow<10> {
        rows_with(self.steps, self.size, r)
    }
}

/// For each number of steps below `count` the rows of the places from which so many lead to each place, where the rows
/// that are given say what one step does.
pub(crate) fn levels_back<R: Rows>(
    alloc: Global,
    rows: &R,
    count: usize,
) -> Result<Vec<Grid<10>>, AllocError>
    requires some { 1 ≤ count }
    requires few { R.count rows.now ≤ 320 }
    requires within { (p m : ℕ) → R.holds rows.now p m → p < R.count rows.now }
    ensures { IfOk result (λ levels. HasLevels count (R.count rows.now) (Back (R.holds rows.now)) levels.items) }
{
    let steps = grid_of(alloc, rows)?;
    let back = BackSteps {
        size: rows.count(),
        steps: &steps,
    };
    levels_from(alloc, &back, count)
}

/// Levels of rows, from starts of each kind.
#[derive(Drop)]
pub(crate) struct KindLevels {
    pub(crate) fixed: Vec<Grid<10>>,
    pub(crate) growing: Vec<Grid<10>>,
}

impl KindLevels {
    /// The row of a place after `n` steps, from a start of a kind.
    pub(crate) fn row(&self, kind: Kind, n: usize, place: u32) -> &BitRow<10>
        requires n { n < length (levels_of self.now kind) }
        requires place { place < length (level_at (levels_of self.now kind) n) }
        ensures { result.now ≡ row_at (levels_of self.now kind) n place }
    {
        match kind {
            Kind::Fixed => self.fixed[n].row(place),
            Kind::Growing => self.growing[n].row(place),
        }
    }
}
