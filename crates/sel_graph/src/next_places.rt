//! The places to which the symbols of a type carry a place.

ghost use Rattle.std.specs.Prelude.{◌≡◌, ◌*◌, ◌/◌, ◌<◌, length, map, IfOk};
ghost use Rattle.std.specs.List.{range_with_len};
ghost use Rattle.schema_graph.specs.Schema.{IsSchema};
ghost use Rattle.sel_graph.specs.Steps.{next_from};
ghost use Rattle.sel_graph.specs.Tables.{HasNexts};
ghost use Rattle.sel_graph.specs.States.{next_places};

use crate::places::place_of;
use crate::states::State;
use crate::walk_rows::symbol_place;
use gm_text::Items;
use schema_graph::Schema;
use sel_algebra::Kind;
use std::alloc::{AllocError, Global};

/// For each place the places to which the symbols that start at its type carry it, from starts of each kind.
#[derive(Drop)]
pub(crate) struct Nexts {
    pub(crate) fixed: Vec<Items<u16>>,
    pub(crate) growing: Vec<Items<u16>>,
}

/// The places to which the symbols that start at the type of a place carry it, in their order, from a start of a kind.
fn next_from(
    alloc: Global,
    schema: &Schema,
    kind: Kind,
    place: u32,
) -> Result<Items<u16>, AllocError>
    requires place { place < 5 * length schema.now.kinds }
    requires known { IsSchema schema.now }
    ensures { IfOk result (λ places. places ≡ next_from schema.now kind place) }
{
    let mut places = Vec::new(alloc);
    for n in 0..schema.symbol_count((place / 5) as u8) {
        let symbol = schema.symbol_from((place / 5) as u8, n);
        places.push(symbol_place(schema, kind, place, symbol) as u16)?;
    }
    Ok(Items::of(places))
}

/// The same for each place.
fn kind_nexts(
    alloc: Global,
    schema: &Schema,
    types: u8,
    kind: Kind,
) -> Result<Vec<Items<u16>>, AllocError>
    requires types { types ≡ length schema.now.kinds }
    requires known { IsSchema schema.now }
    ensures { IfOk result (λ nexts. nexts.items ≡ map (next_from schema.now kind) (range_with_len 0 (5 * types))) }
{
    let mut nexts = Vec::new(alloc);
    for place in 0..5 * types as u32 {
        nexts.push(next_from(alloc, schema, kind, place)?)?;
    }
    Ok(nexts)
}

/// For each place the places to which the symbols that start at its type carry it.
pub(crate) fn all_nexts(alloc: Global, schema: &Schema) -> Result<Nexts, AllocError>
    ensures { IfOk result (HasNexts schema.now) }
{
    let types = schema.kind_count();
    let fixed = kind_nexts(alloc, schema, types, Kind::Fixed)?;
    let growing = kind_nexts(alloc, schema, types, Kind::Growing)?;
    Ok(Nexts { fixed, growing })
}

/// The places to which the symbols carry a state that start where it has come, in their order.
pub(crate) fn next_places<'a>(nexts: &'a Nexts, schema: &Schema, from: State) -> &'a [u16]
    requires nexts { HasNexts schema.now nexts.now }
    requires start { from.start < length schema.now.kinds }
    requires here { from.at < length schema.now.kinds }
    ensures { result.now ≡ next_places schema.now from }
{
    let place = place_of(from.at, from.op) as usize;
    match schema.kind(from.start) {
        Kind::Fixed => nexts.fixed[place].as_slice(),
        Kind::Growing => nexts.growing[place].as_slice(),
    }
}
