//! The places to which symbols lead.

ghost use Rattle.std.specs.Prelude.{◌≡◌, ◌↔◌, ◌*◌, ◌<◌, ◌≤◌, ◌+◌, ◌||◌, ℕ, IsTrue, IfOk, length};
ghost use Rattle.std.specs.List.{list_any};
ghost use Rattle.bit_rows.specs.Sets.{has};
ghost use Rattle.schema_graph.specs.Schema.{IsSchema};
ghost use Rattle.schema_graph.specs.Symbols.{first_symbols};
ghost use Rattle.sel_graph.specs.Moves.{symbols_most};
ghost use Rattle.sel_graph.specs.Rows.{HasLevels};
ghost use Rattle.sel_graph.specs.Steps.{symbol_place, symbol_steps, SymbolStep};
ghost use Rattle.sel_graph.specs.Tables.{HasWalks};
ghost use Rattle.sel_graph.specs.Tests.{can_reach};

use crate::SYMBOLS_MOST;
use crate::levels::{KindLevels, levels_from};
use crate::places::{op_at, place_of};
use crate::rows::Rows;
use crate::states::State;
use bit_rows::{BitRow, Grid};
use schema_graph::Schema;
use sel_algebra::{Kind, Symbol, compose, normal};
use std::alloc::{AllocError, Global};

/// For each place the places to which one symbol carries it, from starts of a kind.
#[derive(Drop)]
pub(crate) struct SymbolRows<'a> {
    pub(crate) schema: &'a Schema,
    pub(crate) kind: Kind,
    pub(crate) types: u8,
    ghost types_are: { types ≡ length schema.now.kinds },
    ghost known: { IsSchema schema.now },
}

impl Rows for SymbolRows<'_> {
    ghost count = { λ s. 5 * length s.schema.now.kinds };

    ghost holds = { λ s. SymbolStep s.schema.now s.kind };

    fn count(&self) -> u32 {
        5 * self.types as u32
    }

    fn row(&self, r: u32) -> BitRow<10> {
        symbol_row(self.schema, self.kind, r)
    }
}

/// The places to which one symbol carries a place, from a start of a kind.
fn symbol_row(schema: &Schema, kind: Kind, place: u32) -> BitRow<10>
    requires { place < 5 * length schema.now.kinds }
    ensures { (q : ℕ) → has result q ≡ list_any (symbol_steps schema.now kind place q) (first_symbols (length schema.now.edges)) }
{
    let mut row = BitRow::empty();
    for edge in 0..schema.edge_count() {
        add_symbol(&mut row, schema, kind, place, Symbol { edge, back: false });
        add_symbol(&mut row, schema, kind, place, Symbol { edge, back: true });
    }
    row
}

/// Adds to a row the place to which a symbol carries a place, if it starts at its type.
fn add_symbol(row: &mut BitRow<10>, schema: &Schema, kind: Kind, place: u32, symbol: Symbol)
    requires place { place < 5 * length schema.now.kinds }
    requires symbol { symbol.edge < length schema.now.edges }
    ensures { (q : ℕ) → has row.new q ≡ (has row.old q || symbol_steps schema.now kind place q symbol) }
{
    if schema.start_of(symbol) as u32 == place / 5 {
        row.set(symbol_place(schema, kind, place, symbol));
    }
}

/// The place to which a symbol carries a place, from a start of a kind.
pub(crate) fn symbol_place(schema: &Schema, kind: Kind, place: u32, symbol: Symbol) -> u32
    requires { symbol.edge < length schema.now.edges }
    ensures value { result ≡ symbol_place schema.now kind place symbol }
    ensures within { result < 5 * length schema.now.kinds }
{
    let to = schema.end_of(symbol);
    let op = compose(op_at(place % 5), schema.op_of(symbol));
    place_of(to, normal(op, kind, schema.kind(to)))
}

/// The same from starts of a kind.
fn kind_walks(
    alloc: Global,
    schema: &Schema,
    types: u8,
    kind: Kind,
) -> Result<Vec<Grid<10>>, AllocError>
    requires types { types ≡ length schema.now.kinds }
    requires known { IsSchema schema.now }
    ensures { IfOk result (λ levels. HasLevels (symbols_most + 1) (5 * length schema.now.kinds) (SymbolStep schema.now kind) levels.items) }
{
    let rows = SymbolRows {
        schema,
        kind,
        types,
    };
    levels_from(alloc, &rows, SYMBOLS_MOST as usize + 1)
}

/// For each number of symbols up to [`SYMBOLS_MOST`] the places to which so many lead.
pub(crate) fn walk_rows(alloc: Global, schema: &Schema) -> Result<KindLevels, AllocError>
    ensures { IfOk result (HasWalks schema.now) }
{
    let types = schema.kind_count();
    let fixed = kind_walks(alloc, schema, types, Kind::Fixed)?;
    let growing = kind_walks(alloc, schema, types, Kind::Growing)?;
    Ok(KindLevels { fixed, growing })
}

/// The places to which so many symbols lead, for a state.
pub(crate) fn states_after<'a>(
    walks: &'a KindLevels,
    schema: &Schema,
    from: State,
    len: u8,
) -> &'a BitRow<10>
    requires walks { HasWalks schema.now walks.now }
    requires len { len ≤ symbols_most }
    requires start { from.start < length schema.now.kinds }
    requires here { from.at < length schema.now.kinds }
    ensures { (q : ℕ) → has result.now q ≡ can_reach schema.now len from q }
{
    let kind = schema.kind(from.start);
    walks.row(kind, len as usize, place_of(from.at, from.op))
}
