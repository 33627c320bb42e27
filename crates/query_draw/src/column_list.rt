//! Matrices by their columns.

ghost use Rattle.std.specs.Prelude.{◌≡◌, ◌≤◌, ◌<◌, ◌↔◌, length, slice_set, IfOk, IsTrue};
ghost use Rattle.sel_algebra.specs.Table.{types_most, one_at};
ghost use Rattle.query_draw.specs.Columns.{no_entry, column_at, AreColumns, AreJoined};

use crate::columns::{Column, equal_column, has, joined_column, no_column};
use std::alloc::{AllocError, Global};
use std::marker::Model;

/// The columns of a matrix. Those to types outside of a set have no entries, whatever is stored for them, so that all entries
/// are taken away at once.
#[derive(Drop)]
pub(crate) struct Columns {
    stored: Vec<Column>,
    /// The types to which there may be entries.
    filled: u64,
}

impl Model for Columns {
    ghost use Rattle.std.specs.Prelude.{◌≤◌, List, length};
    ghost use Rattle.sel_algebra.specs.Table.{types_most};
    ghost use Rattle.query_draw.specs.declared.columns.Column.{Column};
    ghost use Rattle.query_draw.specs.Columns.{shown};

    ghost Value = { List Column };

    ghost view = { λ columns. shown columns.filled columns.stored.items };

    ghost invariant = { λ columns. length columns.stored.items ≤ types_most };
}

impl Columns {
    /// So many columns.
    pub(crate) fn new(alloc: Global, count: usize) -> Result<Columns, AllocError>
        requires { count ≤ types_most }
        ensures { IfOk result (λ columns. length columns ≡ count) }
    {
        let stored = vec![in alloc; no_column(); count]?;
        Ok(Columns { stored, filled: 0 })
    }

    /// The number of columns.
    pub(crate) fn count(&self) -> usize
        ensures count { result ≡ length self.now }
        ensures few { result ≤ types_most }
    {
        self.stored.len()
    }

    /// The entries to a type.
    pub(crate) fn at(&self, t: usize) -> Column
        requires { t < length self.now }
        ensures { result ≡ column_at self.now t }
    {
        if has(self.filled, t as u8) {
            self.stored[t]
        } else {
            no_column()
        }
    }

    /// Makes a column the entries to a type.
    pub(crate) fn put(&mut self, t: usize, column: Column)
        requires { t < length self.old }
        ensures { self.new ≡ slice_set self.old t column }
    {
        self.stored[t] = column;
        self.filled |= 1 << t;
    }

    /// Takes all entries away.
    pub(crate) fn clear(&mut self)
        ensures { AreColumns (length self.old) self.new no_entry }
    {
        self.filled = 0;
    }

    /// Makes the entry from each type to itself `Equal`, and takes all others away.
    pub(crate) fn enter_equal(&mut self)
        ensures { AreColumns (length self.old) self.new one_at }
    {
        for t in 0..self.count() {
            self.put(t, equal_column(t));
        }
    }

    /// Joins each entry with that of another matrix over as many types.
    pub(crate) fn join(&mut self, other: &Columns)
        requires { length self.old ≡ length other.now }
        ensures { AreJoined self.old other.now self.new (length self.old) }
    {
        for t in 0..self.count() {
            self.put(t, joined_column(self.at(t), other.at(t)));
        }
    }
    /// Whether all entries are those of another matrix over as many types.
    pub(crate) fn has_columns_of(&self, other: &Columns) -> bool
        requires { length self.now ≡ length other.now }
        ensures { IsTrue result ↔ (self.now ≡ other.now) }
    {
        for t in 0..self.count() {
            if self.at(t) != other.at(t) {
                return false;
            }
        }
        true
    }
}
