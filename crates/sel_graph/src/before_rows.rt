//! The places from which symbols lead.

ghost use Rattle.std.specs.Prelude.{◌≡◌, ◌*◌, ◌<◌, ◌≤◌, ◌+◌, ℕ, IfOk, length};
ghost use Rattle.bit_rows.specs.Sets.{has};
ghost use Rattle.schema_graph.specs.Schema.{IsSchema};
ghost use Rattle.sel_graph.specs.Moves.{symbols_most};
ghost use Rattle.sel_graph.specs.Rows.{Back, HasLevels};
ghost use Rattle.sel_graph.specs.Steps.{SymbolStep};
ghost use Rattle.sel_graph.specs.Tables.{HasBefores};
ghost use Rattle.sel_graph.specs.Tests.{comes_from, can_walk};

use crate::SYMBOLS_MOST;
use crate::levels::{KindLevels, levels_back};
use crate::places::place_of;
use crate::states::State;
use crate::walk_rows::SymbolRows;
use bit_rows::{BitRow, Grid};
use schema_graph::Schema;
use sel_algebra::Kind;
use std::alloc::{AllocError, Global};

/// For each number of symbols up to [`SYMBOLS_MOST`] the places from which so many lead, from starts of a kind.
fn kind_befores(
    alloc: Global,
    schema: &Schema,
    types: u8,
    kind: Kind,
) -> Result<Vec<Grid<10>>, AllocError>
    requires types { types ≡ length schema.now.kinds }
    requires known { IsSchema schema.now }
    ensures { IfOk result (λ levels. HasLevels (symbols_most + 1) (5 * length schema.now.kinds) (Back (SymbolStep schema.now kind)) levels.items) }
{
    let rows = SymbolRows {
        schema,
        kind,
        types,
    };
    levels_back(alloc, &rows, SYMBOLS_MOST as usize + 1)
}

/// For each number of symbols up to [`SYMBOLS_MOST`] the places from which so many lead.
pub(crate) fn before_rows(alloc: Global, schema: &Schema) -> Result<KindLevels, AllocError>
    ensures { IfOk result (HasBefores schema.now) }
{
    let types = schema.kind_count();
    let fixed = kind_befores(alloc, schema, types, Kind::Fixed)?;
    let growing = kind_befores(alloc, schema, types, Kind::Growing)?;
    Ok(KindLevels { fixed, growing })
}

/// The places from which so many symbols lead to a state, from its start.
pub(crate) fn states_before<'a>(
    befores: &'a KindLevels,
    schema: &Schema,
    to: State,
    len: u8,
) -> &'a BitRow<10>
    requires befores { HasBefores schema.now befores.now }
    requires len { len ≤ symbols_most }
    requires start { to.start < length schema.now.kinds }
    requires there { to.at < length schema.now.kinds }
    ensures { (p : ℕ) → has result.now p ≡ comes_from schema.now len to p }
{
    let kind = schema.kind(to.start);
    befores.row(kind, len as usize, place_of(to.at, to.op))
}

/// Whether so many symbols carry a state to a state.
pub(crate) fn can_walk(
    befores: &KindLevels,
    schema: &Schema,
    len: u8,
    from: State,
    to: State,
) -> bool
    requires befores { HasBefores schema.now befores.now }
    requires known { IsSchema schema.now }
    requires len { len ≤ symbols_most }
    requires start { from.start < length schema.now.kinds }
    requires here { from.at < length schema.now.kinds }
    requires to { to.at < length schema.now.kinds }
    ensures { result ≡ can_walk schema.now len from to }
{
    to.start == from.start && states_before(befores, schema, to, len).get(from.place())
}
