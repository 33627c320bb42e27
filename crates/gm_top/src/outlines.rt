//! The queries that are kept without their terms.

ghost use Rattle.std.specs.Prelude.{◌≡◌, ◌<◌, ◌++◌, [], ◌∷◌, length, slice_get, Some, OnOk};
ghost use Rattle.query_terms.specs.View.{query_value};

use gm_text::Arena;
use query_terms::{Outline, Query};
use std::alloc::{AllocError, Global};
use std::marker::Model;

/// Queries, each without its terms, in one arena.
#[derive(Drop)]
pub(crate) struct Outlines<'a> {
    arena: &'a Arena,
    list: Vec<Outline<'a>>,
}

impl<'a> Model for Outlines<'a> {
    ghost use Rattle.std.specs.Prelude.{List};
    ghost use Rattle.query_terms.specs.Values.{QueryValue};

    ghost Value = { List QueryValue };

    ghost view = { λ outlines. outlines.list.items };
}

impl<'a> Outlines<'a> {
    /// No query.
    pub(crate) fn new(alloc: Global, arena: &'a Arena) -> Outlines<'a>
        ensures { result ≡ [] }
    {
        Outlines {
            arena,
            list: Vec::new(alloc),
        }
    }

    /// Keeps one query more.
    pub(crate) fn keep(&mut self, query: &Query<'_>) -> Result<(), AllocError>
        ensures { OnOk result (self.new ≡ self.old ++ query_value query.now ∷ []) }
    {
        let outline = Outline::of(query, self.arena)?;
        self.list.push(outline)?;
        Ok(())
    }

    /// The query with a number, counted from 0.
    pub(crate) fn at(&self, number: u32) -> &Outline<'a>
        requires { number < length self.now }
        ensures { slice_get self.now number ≡ Some result.now }
    {
        &self.list[number as usize]
    }
}
