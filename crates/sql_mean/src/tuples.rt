//! Rows of any width.

ghost use Rattle.std.specs.Prelude.{◌≡◌, bytes_eq, OnOk};
ghost use Rattle.std.specs.List.{list_any};
ghost use Rattle.sql_mean.specs.Evaluation.{joined};

use std::alloc::AllocError;
use std::marker::Model;

/// A row of any number of numbers.
#[derive(Drop)]
pub(crate) struct Tuple {
    numbers: Vec<u32>,
}

impl Model for Tuple {
    ghost use Rattle.std.specs.Prelude.{ℕ, List};

    ghost Value = { List ℕ };

    ghost view = { λ t. t.numbers.items };
}

impl Tuple {
    /// The row of these numbers.
    pub(crate) fn of(numbers: Vec<u32>) -> Tuple
        ensures { result ≡ numbers.items }
    {
        Tuple { numbers }
    }

    /// Its numbers.
    pub(crate) fn numbers(&self) -> &[u32]
        ensures { result.now ≡ self.now }
    {
        &self.numbers
    }
}

/// Whether a row is one of these.
fn has(rows: &[Tuple], row: &[u32]) -> bool
    ensures { result ≡ list_any (bytes_eq row.now) rows.now }
{
    rows.iter().any(|other| same(row, other.numbers()))
}

fn same(row: &[u32], other: &[u32]) -> bool
    ensures { result ≡ bytes_eq row.now other.now }
{
    row == other
}

/// Adds each row that isn't there yet.
pub(crate) fn join(rows: &mut Vec<Tuple>, more: Vec<Tuple>) -> Result<(), AllocError>
    ensures { OnOk result (rows.new.items ≡ joined rows.old.items more.items) }
{
    for row in more {
        if !has(rows, row.numbers()) {
            rows.push(row)?;
        }
    }
    Ok(())
}
