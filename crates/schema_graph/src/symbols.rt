//! The symbols that start at a type.

ghost use Rattle.std.specs.Prelude.{◌≡◌, ◌++◌, ◌≤◌, length, map, IfOk, OnOk};
ghost use Rattle.std.specs.List.{range_with_len};
ghost use Rattle.schema_graph.specs.Symbols.{symbol_if, symbols_of};
ghost use Rattle.schema_graph.specs.Schema.{edges_most};

use crate::edge::SchemaEdge;
use gm_text::Items;
use sel_algebra::Symbol;
use std::alloc::{AllocError, Global};

/// For each type the symbols that start there.
pub(crate) fn symbol_lists(
    alloc: Global,
    type_count: u8,
    edges: &[SchemaEdge],
) -> Result<Vec<Items<Symbol>>, AllocError>
    requires { length edges.now ≤ edges_most }
    ensures { IfOk result (λ lists. lists.items ≡ map (symbols_of edges.now) (range_with_len 0 type_count)) }
{
    let mut lists = Vec::new(alloc);
    for start in 0..type_count {
        lists.push(symbols_of(alloc, edges, start)?)?;
    }
    Ok(lists)
}

/// The symbols that start at a type, by their edges, and along an edge before against it.
fn symbols_of(alloc: Global, edges: &[SchemaEdge], start: u8) -> Result<Items<Symbol>, AllocError>
    requires { length edges.now ≤ edges_most }
    ensures { IfOk result (λ symbols. symbols ≡ symbols_of edges.now start) }
{
    let mut symbols = Vec::new(alloc);
    for edge in 0..edges.len() {
        let SchemaEdge { source, target, .. } = edges[edge];
        push_if(source == start, &mut symbols, edge as u8, false)?;
        push_if(target == start, &mut symbols, edge as u8, true)?;
    }
    Ok(Items::of(symbols))
}

/// Adds a symbol, if it is wanted.
fn push_if(wanted: bool, symbols: &mut Vec<Symbol>, edge: u8, back: bool) -> Result<(), AllocError>
    ensures { OnOk result (symbols.new.items ≡ symbols.old.items ++ symbol_if wanted edge back) }
{
    if wanted {
        symbols.push(Symbol { edge, back })?;
    }
    Ok(())
}
