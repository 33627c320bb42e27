//! The rows of queries over small graphs, whose answers are known from outside.

use crate::samples::{digit, read};
use gm_text::Arena;
use graph_text::{Graph, Triple};
use rpq_meaning::query_rows;
use std::alloc::{AllocError, Global};
use std::test::Fail;

/// The graph of triples of source, label and target.
fn graph_of(alloc: Global, triples: &[(u32, u32, u32)]) -> Result<Graph, AllocError> {
    let mut items = Vec::new(alloc);
    for triple in triples {
        let (src, label, trg) = *triple;
        items.push(Triple { src, label, trg })?;
    }
    Ok(Graph::of(items))
}

/// The numbers of all rows, each row behind a bar; an E for a text that has no reading.
fn rows_of(alloc: Global, query: &str, triples: &[(u32, u32, u32)]) -> Result<Vec<u8>, AllocError> {
    let arena = Arena::new(alloc);
    let mut out = Vec::new(alloc);
    let Some(work) = read(alloc, &arena, query)? else {
        out.push(b'E')?;
        return Ok(out);
    };
    let rows = query_rows(alloc, work.query(0), &graph_of(alloc, triples)?)?;
    for row in rows.as_slice() {
        out.push(b'|')?;
        for i in 0..row.count as usize {
            if i < 4 {
                out.push(digit(row.values[i]))?;
            }
        }
    }
    Ok(out)
}

#[test]
fn conjuncts(rt: HostRuntime) -> Result<(), Fail> {
    let alloc = rt.alloc();
    let graph = [(0, 0, 1), (1, 2, 2), (7, 1, 3)].as_slice();
    for (query, rows) in [
        ("linear linear\nrule x0 x1\nx0 0 x1", "|01"),
        ("linear linear\nrule x0 x1\nx0 ^0 x1", "|10"),
        ("linear linear\nrule x1 x0\nx0 0 x1", "|10"),
        ("linear linear\nrule x0 x1\nx0 0.1 x1", "|02"),
        ("linear linear\nrule x0 x1\nx0 0+1 x1", "|01|12"),
        ("linear linear\nrule x0 x1\nx0 0.^0 x1", "|00"),
        ("linear linear\nrule x0 x1\nx0 2 x1", "|73"),
        (
            "linear linear\nrule x0 x1\nx0 (0)* x1",
            "|00|01|11|22|33|77",
        ),
        (
            "linear linear\nrule x0 x1\nx0 (0.1+2)* x1",
            "|00|02|11|22|33|73|77",
        ),
    ] {
        assert_eq!(rt;
            rows_of(alloc, query, graph)?,
            rows.as_bytes().to_vec(alloc)?
        );
    }
    Ok(())
}

#[test]
fn a_repetition_has_no_steps_at_the_nodes_alone(rt: HostRuntime) -> Result<(), Fail> {
    let alloc = rt.alloc();
    for (graph, rows) in [
        ([(0, 0, 1)].as_slice(), "|00|01|11"),
        ([(7, 1, 3)].as_slice(), "|33|77"),
        ([].as_slice(), ""),
    ] {
        let found = rows_of(alloc, "linear linear\nrule x0 x1\nx0 (0)* x1", graph)?;
        assert_eq!(rt; found, rows.as_bytes().to_vec(alloc)?);
    }
    Ok(())
}

#[test]
fn a_row_has_a_number_for_each_head(rt: HostRuntime) -> Result<(), Fail> {
    let alloc = rt.alloc();
    let graph = [(0, 0, 1), (2, 2, 4), (2, 2, 3)].as_slice();
    for (query, rows) in [
        ("none none\nrule\nx0 0 x1\nx2 1 x3", "|"),
        ("none none\nrule\nx0 0 x1\nx2 2 x3", ""),
        ("none none\nrule x3\nx0 0 x1\nx2 1 x3", "|3|4"),
        ("linear linear\nrule x3 x0\nx0 0 x1\nx2 1 x3", "|30|40"),
        ("none none\nrule x0 x1 x3\nx0 0 x1\nx2 1 x3", "|013|014"),
        (
            "none none\nrule x3 x2 x1 x0\nx0 0 x1\nx2 1 x3",
            "|3210|4210",
        ),
    ] {
        assert_eq!(rt;
            rows_of(alloc, query, graph)?,
            rows.as_bytes().to_vec(alloc)?
        );
    }
    Ok(())
}

#[test]
fn rules_and_their_conjuncts(rt: HostRuntime) -> Result<(), Fail> {
    let alloc = rt.alloc();
    let graph = [(0, 0, 1), (1, 0, 2), (2, 2, 0), (3, 2, 3)].as_slice();
    for (query, rows) in [
        ("none none\nrule x0\nx0 1 x0", "|3"),
        ("none none\nrule x0\nx0 0 x1\nx1 0.1 x0", "|0"),
        (
            "linear linear\nrule x0 x1\nx0 0 x1\nrule x1 x0\nx0 0 x1",
            "|01|10|12|21",
        ),
        (
            "linear linear\nrule x0 x1\nx0 0 x2\nx2 0 x1\nrule x5 x4\nx4 1 x5",
            "|02|33",
        ),
    ] {
        assert_eq!(rt;
            rows_of(alloc, query, graph)?,
            rows.as_bytes().to_vec(alloc)?
        );
    }
    Ok(())
}
