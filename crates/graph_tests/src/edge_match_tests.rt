use edge_match::{
    EdgeStream, MatchError, Side, TooManyStubs, first_over, is_free, match_edges, side_degrees,
    side_total,
};
use gm_config::{Config, read_config};
use graph_text::{Triple, write_edges};
use std::alloc::{AllocError, Global};
use std::test::Fail;

const WORKLOAD: &str =
    r#"{"queries":0,"shapes":["chain"],"classes":["constant"],"star":0,"rules":[1,1],"conjuncts":[1,1],"disjuncts":[1,1],"length":[1,1]}"#;

fn config_of(alloc: Global, types: &str, labels: &str, constraints: &str) -> Result<Config, Fail> {
    let text = format!(in alloc;
        r#"{{"nodes":1,"types":{types},"labels":{labels},"constraints":{constraints},"workload":{WORKLOAD}}}"#
    )?;
    match read_config(alloc, text.as_bytes()) {
        Ok(config) => Ok(config),
        Err(_) => Err(Fail::new("no configuration")),
    }
}

/// Three types with nodes and one without, and five constraints with each kind of degrees.
fn five_constraints(alloc: Global) -> Result<Config, Fail> {
    config_of(
        alloc,
        r#"[{"name":"a","count":3},{"name":"b","count":2},{"name":"none","count":0},{"name":"c","count":4}]"#,
        r#"["p","q","r"]"#,
        r#"[
          {"source":"a","label":"p","target":"b","out":{"kind":"uniform","min":1,"max":2},"in":{"kind":"free"}},
          {"source":"b","label":"p","target":"c","out":{"kind":"free"},"in":{"kind":"table","weights":[1,0,2]}},
          {"source":"none","label":"q","target":"a","out":{"kind":"uniform","min":1,"max":1},"in":{"kind":"free"}},
          {"source":"c","label":"q","target":"a","out":{"kind":"zipf","exponent":1,"max":3},"in":{"kind":"bell","center":1,"width":1}},
          {"source":"c","label":"r","target":"c","out":{"kind":"uniform","min":1,"max":1},"in":{"kind":"zipf","exponent":2}}
        ]"#,
    )
}

/// One type with a thousand nodes, and one constraint from it to itself.
fn one_constraint(alloc: Global, degree: u32) -> Result<Config, Fail> {
    let spec = format!(in alloc; r#"{{"kind":"uniform","min":{degree},"max":{degree}}}"#)?;
    let constraint = r#""source":"a","label":"p","target":"a""#;
    let constraints = format!(in alloc; r#"[{{{constraint},"out":{spec},"in":{spec}}}]"#)?;
    config_of(
        alloc,
        r#"[{"name":"a","count":1000}]"#,
        r#"["p"]"#,
        &constraints,
    )
}

/// The lines of the edges of a constraint.
fn lines_of(alloc: Global, config: &Config, c: u8) -> Result<Vec<u8>, Fail> {
    let mut text = Vec::new(alloc);
    if c < config.constraint_count() {
        let Ok(edges) = match_edges(alloc, config, 42, c) else {
            return Err(Fail::new("no edges"));
        };
        write_edges(alloc, &mut text, &edges)?;
    }
    Ok(text)
}

/// Whether these are the lines of the edges of one of the five constraints.
fn has_lines(alloc: Global, c: u8, lines: &str) -> Result<bool, Fail> {
    let config = five_constraints(alloc)?;
    let found = lines_of(alloc, &config, c)?;
    Ok(found.as_slice() == lines.as_bytes())
}

#[test]
fn edges_of_each_constraint(rt: HostRuntime) -> Result<(), Fail> {
    for (c, lines) in [
        (0, "2 0 3\n0 0 4\n1 0 4\n"),
        (
            1,
            "4 0 8\n4 0 6\n3 0 6\n4 0 7\n4 0 7\n3 0 8\n4 0 5\n4 0 5\n",
        ),
        (2, ""),
        (3, "8 1 0\n7 1 1\n5 1 2\n7 1 1\n"),
        (4, "5 2 7\n8 2 8\n7 2 5\n6 2 6\n"),
    ] {
        assert!(rt; has_lines(rt.alloc(), c, lines)?);
    }
    Ok(())
}

/// The edges that the first five calls of a stream give.
fn streamed(alloc: Global, config: &Config, c: u8) -> Result<Vec<Triple>, Fail> {
    let mut edges = Vec::new(alloc);
    if c < config.constraint_count() {
        let Ok(mut stream) = EdgeStream::new(alloc, config, 42, c) else {
            return Err(Fail::new("no edges"));
        };
        for _ in 0..5 {
            if let Some(edge) = stream.next_edge() {
                edges.push(edge)?;
            }
        }
    }
    Ok(edges)
}

/// Whether the first five calls of a stream of one of the five constraints give these edges, and no others.
fn begins_with(alloc: Global, c: u8, edges: &[Triple]) -> Result<bool, Fail> {
    let config = five_constraints(alloc)?;
    let found = streamed(alloc, &config, c)?;
    Ok(found.as_slice() == edges)
}

/// How many edges of one of the five constraints are to come, before the first and after it.
fn counts_to_come(alloc: Global, c: u8) -> Result<(usize, usize), Fail> {
    let config = five_constraints(alloc)?;
    if c < config.constraint_count() {
        if let Ok(mut stream) = EdgeStream::new(alloc, &config, 42, c) {
            let all = stream.len();
            let _ = stream.next_edge();
            return Ok((all, stream.len()));
        }
    }
    Err(Fail::new("no edges"))
}

#[test]
fn edges_to_come(rt: HostRuntime) -> Result<(), Fail> {
    for (c, counts) in [
        (0, (3, 2)),
        (1, (8, 7)),
        (2, (0, 0)),
        (3, (4, 3)),
        (4, (4, 3)),
    ] {
        assert_eq!(rt; counts_to_come(rt.alloc(), c)?, counts);
    }
    Ok(())
}

#[test]
fn edges_one_after_another(rt: HostRuntime) -> Result<(), Fail> {
    let edge = |src, label, trg| Triple { src, label, trg };
    let four = [edge(8, 1, 0), edge(7, 1, 1), edge(5, 1, 2), edge(7, 1, 1)];
    assert!(rt; begins_with(rt.alloc(), 3, &four)?);
    assert!(rt; begins_with(rt.alloc(), 2, &[])?);
    Ok(())
}

/// The degrees of a side, and none where it has too many stubs.
fn degrees_of(alloc: Global, config: &Config, c: u8, side: Side) -> Result<Vec<u32>, Fail> {
    if c < config.constraint_count() {
        if let Ok(_) = match_edges(alloc, config, 42, c) {
            return Ok(side_degrees(alloc, config, 42, c, side)?.into_items());
        }
    }
    Ok(Vec::new(alloc))
}

/// Whether these are the degrees of a side of one of the five constraints.
fn has_degrees(alloc: Global, c: u8, side: Side, degrees: &[u32]) -> Result<bool, Fail> {
    let config = five_constraints(alloc)?;
    let found = degrees_of(alloc, &config, c, side)?;
    Ok(found.as_slice() == degrees)
}

#[test]
fn degrees_of_each_side(rt: HostRuntime) -> Result<(), Fail> {
    for (c, side, degrees) in [
        (0, Side::Out, [1, 1, 1].as_slice()),
        (0, Side::In, &[1, 2]),
        (1, Side::Out, &[2, 6]),
        (1, Side::In, &[2, 2, 2, 2]),
        (2, Side::Out, &[]),
        (2, Side::In, &[0, 0, 0]),
        (3, Side::Out, &[1, 1, 2, 1]),
        (3, Side::In, &[1, 2, 1]),
        (4, Side::Out, &[1, 1, 1, 1]),
        (4, Side::In, &[4, 2, 1, 3]),
    ] {
        assert!(rt; has_degrees(rt.alloc(), c, side, degrees)?);
    }
    Ok(())
}

/// The total of a side, and none where the side is free.
fn total_of(alloc: Global, config: &Config, c: u8, side: Side) -> Result<Option<u64>, Fail> {
    if c < config.constraint_count() {
        if !is_free(config, c, side) {
            return Ok(Some(side_total(alloc, config, 42, c, side)?));
        }
    }
    Ok(None)
}

/// The total of a side of one of the five constraints, and none where the side is free.
fn total_of_five(alloc: Global, c: u8, side: Side) -> Result<Option<u64>, Fail> {
    let config = five_constraints(alloc)?;
    total_of(alloc, &config, c, side)
}

/// The first side of the five constraints with too many stubs.
fn over_of_five(alloc: Global) -> Result<Option<TooManyStubs>, Fail> {
    let config = five_constraints(alloc)?;
    Ok(first_over(alloc, &config, 42)?)
}

#[test]
fn totals(rt: HostRuntime) -> Result<(), Fail> {
    for (c, side, total) in [
        (0, Side::Out, Some(3)),
        (0, Side::In, None),
        (1, Side::Out, None),
        (1, Side::In, Some(8)),
        (2, Side::Out, Some(0)),
        (3, Side::Out, Some(5)),
        (3, Side::In, Some(4)),
        (4, Side::In, Some(10)),
    ] {
        assert_eq!(rt; total_of_five(rt.alloc(), c, side)?, total);
    }
    assert_eq!(rt; over_of_five(rt.alloc())?, None);
    Ok(())
}

/// What `match_edges` reports of the first constraint, where it has too many stubs.
fn report_of(alloc: Global, config: &Config) -> Option<TooManyStubs> {
    if config.constraint_count() == 0 {
        return None;
    }
    match match_edges(alloc, config, 42, 0) {
        Err(MatchError::TooManyStubs(report)) => Some(report),
        _ => None,
    }
}

/// How many constraints there are, and what `first_over` and `match_edges` report of one with nodes of this degree.
fn reports(
    alloc: Global,
    degree: u32,
) -> Result<(u8, Option<TooManyStubs>, Option<TooManyStubs>), Fail> {
    let config = one_constraint(alloc, degree)?;
    let over = first_over(alloc, &config, 42)?;
    Ok((config.constraint_count(), over, report_of(alloc, &config)))
}

#[test]
fn a_side_above_the_limit(rt: HostRuntime) -> Result<(), Fail> {
    let report = TooManyStubs {
        constraint: 0,
        side: Side::Out,
        total: 5_000_000,
    };
    assert_eq!(rt; reports(rt.alloc(), 5000)?, (1, Some(report), Some(report)));
    Ok(())
}

/// The targets of the edges of the first constraint, in ascending order.
fn targets_of(alloc: Global, config: &Config) -> Result<Vec<u32>, Fail> {
    if config.constraint_count() == 0 {
        return Ok(Vec::new(alloc));
    }
    let Ok(edges) = match_edges(alloc, config, 42, 0) else {
        return Err(Fail::new("no edges"));
    };
    let mut targets: Vec<u32> = edges.as_slice().iter().map(|edge| edge.trg).collect(alloc)?;
    targets.sort_unstable();
    Ok(targets)
}

/// Whether these are the numbers below 1000, in ascending order.
fn are_all(alloc: Global, numbers: &[u32]) -> Result<bool, AllocError> {
    let all: Vec<u32> = (0..1000).collect(alloc)?;
    Ok(numbers == all.as_slice())
}

/// How many constraints there are, and whether each of the thousand nodes is the target of one edge.
fn ends_of_edges(alloc: Global) -> Result<(u8, bool), Fail> {
    let config = one_constraint(alloc, 1)?;
    let targets = targets_of(alloc, &config)?;
    Ok((config.constraint_count(), are_all(alloc, &targets)?))
}

/// A thousand nodes that have one edge each on both sides.
#[test]
fn each_node_is_the_end_of_one_edge(rt: HostRuntime) -> Result<(), Fail> {
    assert_eq!(rt; ends_of_edges(rt.alloc())?, (1, true));
    Ok(())
}
