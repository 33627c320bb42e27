use crate::samples::{Entries, entries};
use gm_config::read_config;
use schema_graph::{Schema, SchemaEdge};
use sel_algebra::Kind::{self, Fixed, Growing};
use sel_algebra::Op::{Diamond, Equal, Greater, Less};
use sel_algebra::{Op, Symbol};
use std::alloc::{AllocError, Global};

/// Label p goes from a, which has a number of nodes, to b, which has a share, and from b to b.
const FIXED_AND_GROWING: &str =
    r#"{"nodes":100,"types":[{"name":"a","count":10},{"name":"b","share":900}],"labels":["p"],"constraints":[{"source":"a","label":"p","target":"b","out":{"kind":"zipf","exponent":2},"in":{"kind":"free"}},{"source":"b","label":"p","target":"b","out":{"kind":"uniform","min":1,"max":1},"in":{"kind":"free"}}],"workload":{"queries":0,"shapes":["chain"],"classes":["linear"],"star":0,"rules":[1,1],"conjuncts":[1,1],"disjuncts":[1,1],"length":[1,1]}}"#;

/// The schema of a configuration, and `None` where there is none.
fn schema_of(alloc: Global, text: &str) -> Option<Schema> {
    let Ok(config) = read_config(alloc, text.as_bytes()) else {
        return None;
    };
    Schema::of(alloc, &config).ok()
}

/// The only edge of a schema, and `None` where it has none or several.
fn only_edge(schema: &Schema) -> Option<SchemaEdge> {
    if schema.edge_count() == 1 {
        Some(schema.edge(0))
    } else {
        None
    }
}

/// The only edge of the schema of a configuration.
fn edge_in(alloc: Global, text: &str) -> Option<SchemaEdge> {
    let Some(schema) = schema_of(alloc, text) else {
        return None;
    };
    only_edge(&schema)
}

/// The only edge of a schema, which goes from a growing type to itself.
fn edge_of(alloc: Global, out_spec: &str, in_spec: &str) -> Option<SchemaEdge> {
    let Ok(text) = format!(in alloc;
        r#"{{"nodes":10,"types":[{{"name":"b","share":1000}}],"labels":["p"],"constraints":[{{"source":"b","label":"p","target":"b","out":{out_spec},"in":{in_spec}}}],"workload":{{"queries":0,"shapes":["chain"],"classes":["linear"],"star":0,"rules":[1,1],"conjuncts":[1,1],"disjuncts":[1,1],"length":[1,1]}}}}"#
    ) else {
        return None;
    };
    edge_in(alloc, &text)
}

#[test]
fn operators_between_growing_types(rt: HostRuntime) {
    let plain = r#"{"kind":"uniform","min":1,"max":2}"#;
    let zipf = r#"{"kind":"zipf","exponent":1,"max":9}"#;
    let free = r#"{"kind":"free"}"#;
    for (out_spec, in_spec, op) in [
        (plain, plain, Equal),
        (plain, free, Equal),
        (zipf, plain, Less),
        (zipf, free, Less),
        (free, zipf, Greater),
        (zipf, zipf, Diamond),
    ] {
        let expected = SchemaEdge {
            source: 0,
            label: 0,
            target: 0,
            op,
        };
        let found = edge_of(rt.alloc(), out_spec, in_spec);
        assert!(rt; found == Some(expected), "{out_spec} and {in_spec}");
    }
}

fn along(edge: u8) -> Symbol {
    Symbol { edge, back: false }
}

fn against(edge: u8) -> Symbol {
    Symbol { edge, back: true }
}

/// Whether the types of the schema of a fixed and a growing type have these kinds.
fn are_kinds(alloc: Global, kinds: &[Kind]) -> Option<bool> {
    let Some(schema) = schema_of(alloc, FIXED_AND_GROWING) else {
        return None;
    };
    Some(schema.kinds() == kinds)
}

/// The symbol with a number among those that start at a type, if there are so many, and `None` where the schema has no
/// such type.
fn nth_symbol(schema: &Schema, t: u8, n: u32) -> Option<Option<Symbol>> {
    if t < schema.kind_count() {
        if n < schema.symbol_count(t) {
            Some(Some(schema.symbol_from(t, n)))
        } else {
            Some(None)
        }
    } else {
        None
    }
}

/// The symbol with a number among those that start at a type of the schema of a fixed and a growing type.
fn symbol_at(alloc: Global, t: u8, n: u32) -> Option<Option<Symbol>> {
    let Some(schema) = schema_of(alloc, FIXED_AND_GROWING) else {
        return None;
    };
    nth_symbol(&schema, t, n)
}

#[test]
fn symbols_of_types(rt: HostRuntime) {
    assert_eq!(rt; are_kinds(rt.alloc(), &[Fixed, Growing]), Some(true));
    for (t, n, symbol) in [
        (0, 0, Some(Some(along(0)))),
        (0, 1, Some(None)),
        (1, 0, Some(Some(against(0)))),
        (1, 1, Some(Some(along(1)))),
        (1, 2, Some(Some(against(1)))),
        (1, 3, Some(None)),
        (2, 0, None),
    ] {
        assert!(rt; symbol_at(rt.alloc(), t, n) == symbol, "{t} {n}");
    }
}

/// Where a symbol starts and ends, its operator and its label, and `None` where the schema has no such symbol.
fn use_of(schema: &Schema, symbol: Symbol) -> Option<(u8, u8, Op, u8)> {
    if symbol.edge >= schema.edge_count() {
        return None;
    }
    Some((
        schema.start_of(symbol),
        schema.end_of(symbol),
        schema.op_of(symbol),
        schema.label_of(symbol),
    ))
}

/// The use of a symbol in the schema of a fixed and a growing type.
fn use_in(alloc: Global, symbol: Symbol) -> Option<(u8, u8, Op, u8)> {
    let Some(schema) = schema_of(alloc, FIXED_AND_GROWING) else {
        return None;
    };
    use_of(&schema, symbol)
}

#[test]
fn uses_of_edges(rt: HostRuntime) {
    for (symbol, found) in [
        (along(0), Some((0, 1, Less, 0))),
        (against(0), Some((1, 0, Greater, 0))),
        (along(1), Some((1, 1, Equal, 0))),
        (against(1), Some((1, 1, Equal, 0))),
        (along(2), None),
    ] {
        assert_eq!(rt; use_in(rt.alloc(), symbol), found);
    }
}

/// The entries of the matrix of a label in a schema.
fn entries_of(alloc: Global, schema: &Schema, label: u8, back: bool) -> Option<Entries> {
    let Ok(matrix) = schema.matrix_of(alloc, label, back) else {
        return None;
    };
    entries(&matrix)
}

/// The entries of the matrix of a label in the schema of a fixed and a growing type.
fn entries_in(alloc: Global, label: u8, back: bool) -> Option<Entries> {
    let Some(schema) = schema_of(alloc, FIXED_AND_GROWING) else {
        return None;
    };
    entries_of(alloc, &schema, label, back)
}

#[test]
fn matrices_of_a_label(rt: HostRuntime) {
    for (label, back, found) in [
        (0, false, [None, Some(Less), None, Some(Equal)]),
        (0, true, [None, None, Some(Greater), Some(Equal)]),
        (1, false, [None, None, None, None]),
    ] {
        assert_eq!(rt; entries_in(rt.alloc(), label, back), Some(found));
    }
}

/// An edge between two types.
const STEP: SchemaEdge = SchemaEdge {
    source: 0,
    label: 63,
    target: 1,
    op: Diamond,
};

/// The schema of two growing types with this edge alone.
fn schema_of_parts(alloc: Global) -> Result<Schema, AllocError> {
    Schema::new(
        alloc,
        vec![in alloc; Growing, Growing]?,
        vec![in alloc; STEP]?,
    )
}

/// The only edge of this schema.
fn edge_of_parts(alloc: Global) -> Option<SchemaEdge> {
    let Ok(schema) = schema_of_parts(alloc) else {
        return None;
    };
    only_edge(&schema)
}

#[test]
fn a_schema_of_parts(rt: HostRuntime) {
    assert_eq!(rt; edge_of_parts(rt.alloc()), Some(STEP));
}
