//! A list of rows of bits.

ghost use Rattle.std.specs.Prelude.{◌≡◌, ◌<◌, length, IfOk, replicate, slice_set};
ghost use Rattle.std.specs.FinSet as set;
ghost use Rattle.std.specs.Borrow.{sem};
ghost use Rattle.bit_rows.specs.Sets.{set_at};
ghost use Rattle.bit_rows.specs.Lending.{lends_row};

use crate::bit_row::BitRow;
use std::alloc::{AllocError, Global};
use std::marker::Model;

/// A list of sets of numbers below 32 times `W`.
#[derive(Drop)]
pub struct Grid<const W: usize> {
    rows: Vec<BitRow<W>>,
}

impl<const W: usize> Model for Grid<W> {
    ghost use Rattle.std.specs.Prelude.{List};
    ghost use Rattle.std.specs.Coded.{coded_ℕ, coded_list};
    ghost use Rattle.std.specs.FinSet as set;
    ghost use Rattle.bit_rows.specs.Sets.{NumberSet};

    ghost Value = { List NumberSet };

    ghost coded = { coded_list (set.code coded_ℕ) };

    ghost view = { λ g. g.rows.items };
}

impl<const W: usize> Grid<W> {
    /// So many empty sets.
    pub fn new(alloc: Global, rows: u32) -> Result<Grid<W>, AllocError>
        ensures { IfOk result (λ grid. grid ≡ replicate rows set.empty) }
    {
        let mut all = Vec::with_capacity(alloc, rows as usize)?;
        for _ in 0..rows {
            all.push(BitRow::empty())?;
        }
        Ok(Grid { rows: all })
    }

    /// The set with number `r`, counted from 0.
    pub fn row(&self, r: u32) -> &BitRow<W>
        requires { r < length self.now }
        ensures { result.now ≡ set_at self.now r }
    {
        &self.rows[r as usize]
    }

    /// The set with number `r`, counted from 0, to be changed.
    pub fn row_mut(&mut self, r: u32) -> &mut BitRow<W>
        requires { r < length self.old }
        ensures* writes_back { sem 𝓛 (lends_row W.row self.entry r result) }
        ensures value { result.now ≡ set_at self.old r }
    {
        &mut self.rows[r as usize]
    }
}
