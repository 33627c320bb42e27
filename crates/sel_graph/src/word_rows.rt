//! The places to which words of permitted lengths lead: the plain moves of each type.

ghost use Rattle.std.specs.Prelude.{◌≡◌, ◌↔◌, ◌<◌, ◌≤◌, ℕ, Bool, false, IsTrue, IfOk, length};
ghost use Rattle.bit_rows.specs.Sets.{has};
ghost use Rattle.schema_graph.specs.Schema.{IsSchema};
ghost use Rattle.sel_graph.specs.Moves.{symbols_most};
ghost use Rattle.sel_graph.specs.Tables.{HasWalks, HasWords};
ghost use Rattle.sel_graph.specs.Tests.{leads_at};

use crate::levels::KindLevels;
use crate::rows::{Rows, grid_of};
use crate::states::State;
use crate::walk_rows::states_after;
use bit_rows::{BitRow, Grid};
use gm_config::Range;
use schema_graph::Schema;
use std::alloc::{AllocError, Global};

/// For each type the places to which words of permitted lengths lead.
#[derive(Drop)]
struct WordRows<'a> {
    schema: &'a Schema,
    walks: &'a KindLevels,
    lengths: Range,
    types: u8,
    ghost types_are: { types ≡ length schema.now.kinds },
    ghost walks_are: { HasWalks schema.now walks.now },
    ghost known: { IsSchema schema.now },
    ghost few: { lengths.most ≤ symbols_most },
}

impl Rows for WordRows<'_> {
    ghost count = { λ w. length w.schema.now.kinds };

    ghost holds = { λ w t p. IsTrue (leads_at record { schema = w.schema.now; lengths = w.lengths; stars = false } t p) };

    fn count(&self) -> u32 {
        self.types as u32
    }

    fn row(&self, r: u32) -> BitRow<10> {
        word_row(self.schema, self.walks, self.lengths, r as u8)
    }
}

/// The places to which words of permitted lengths lead from a type.
fn word_row(schema: &Schema, walks: &KindLevels, lengths: Range, t: u8) -> BitRow<10>
    requires walks { HasWalks schema.now walks.now }
    requires few { lengths.most ≤ symbols_most }
    requires t { t < length schema.now.kinds }
    ensures { (p : ℕ) → has result p ≡ leads_at record { schema = schema.now; lengths = lengths; stars = false } t p }
{
    let mut row = BitRow::empty();
    for len in lengths.least..lengths.most + 1 {
        row.or_row(states_after(walks, schema, State::begun(t), len));
    }
    row
}

/// For each type the places to which words of permitted lengths lead.
pub(crate) fn word_rows(
    alloc: Global,
    schema: &Schema,
    walks: &KindLevels,
    lengths: Range,
) -> Result<Grid<10>, AllocError>
    requires walks { HasWalks schema.now walks.now }
    requires few { lengths.most ≤ symbols_most }
    ensures { IfOk result (λ words. (stars : Bool) → HasWords record { schema = schema.now; lengths = lengths; stars = stars } words) }
{
    let rows = WordRows {
        schema,
        walks,
        lengths,
        types: schema.kind_count(),
    };
    grid_of(alloc, &rows)
}
