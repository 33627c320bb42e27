//! The rows of SPARQL texts over small graphs, whose answers are known from outside.

use gm_text::{Arena, Name, Names};
use graph_text::{Graph, Triple};
use sparql_mean::sparql_rows;
use sparql_read::read_sparql;
use std::alloc::{AllocError, Global};
use std::test::Fail;

/// The names `a`, `b` and `a` of three labels.
fn names(alloc: Global) -> Result<Names, AllocError> {
    let mut names = Vec::new(alloc);
    names.push(Name::of(vec![in alloc; b'a']?))?;
    names.push(Name::of(vec![in alloc; b'b']?))?;
    names.push(Name::of(vec![in alloc; b'a']?))?;
    Ok(Names::of(names))
}

/// The edges 0 a 1, 1 a 2, 2 b 0, 3 b 3, and 1 a 0 of the other label `a`.
fn graph(alloc: Global) -> Result<Graph, AllocError> {
    let mut triples = Vec::new(alloc);
    for (src, label, trg) in [(0, 0, 1), (1, 0, 2), (2, 1, 0), (3, 1, 3), (1, 2, 0)] {
        triples.push(Triple { src, label, trg })?;
    }
    Ok(Graph::of(triples))
}

/// The numbers of all rows, each row behind a bar; an E for a text that has no reading.
fn rows_of(alloc: Global, asked: &str) -> Result<Vec<u8>, AllocError> {
    let mut text = b"PREFIX : <http://gmark.example/> ".to_vec(alloc)?;
    text.extend_from_slice(asked.as_bytes())?;
    let arena = Arena::new(alloc);
    let mut out = Vec::new(alloc);
    if text.len() > 16_777_216 {
        return Ok(out);
    }
    let Ok(query) = read_sparql(alloc, &text, &arena) else {
        out.push(b'E')?;
        return Ok(out);
    };
    let rows = sparql_rows(alloc, &query, &names(alloc)?, &graph(alloc)?)?;
    for row in rows.as_slice() {
        out.push(b'|')?;
        for i in 0..row.count as usize {
            if i < 4 {
                out.push(b'0' + (row.values[i] % 10) as u8)?;
            }
        }
    }
    Ok(out)
}

#[test]
fn rows(rt: HostRuntime) -> Result<(), Fail> {
    let alloc = rt.alloc();
    for (asked, rows) in [
        ("SELECT DISTINCT ?x ?y { ?x :a ?y }", "|01|10|12"),
        ("SELECT DISTINCT ?y ?x { ?x :a ?y }", "|01|10|21"),
        ("SELECT DISTINCT ?x ?y { ?x :c ?y }", ""),
        ("SELECT DISTINCT ?x ?y { ?x ^:b ?y }", "|02|33"),
        ("SELECT DISTINCT ?x ?y { ?x :a/:b ?y }", "|10"),
        (
            "SELECT DISTINCT ?x ?y { ?x :b|:a/:a ?y }",
            "|00|02|11|20|33",
        ),
        (
            "SELECT DISTINCT ?x ?y { ?x :a* ?y }",
            "|00|01|02|10|11|12|22|33",
        ),
        ("SELECT DISTINCT ?x ?y { ?x :a+ ?y }", "|00|01|02|10|11|12"),
        ("SELECT DISTINCT ?x ?y { ?x :b? ?y }", "|00|11|20|22|33"),
        ("SELECT DISTINCT ?x { ?x :b ?x }", "|3"),
        ("SELECT DISTINCT ?x { ?x :a/:a/:b ?x }", "|0"),
        ("SELECT DISTINCT ?x ?z { ?x :a ?y . ?y :a ?z }", "|00|02|11"),
        (
            "SELECT DISTINCT ?x ?y { { ?x :b ?y } UNION { ?y :b ?x } }",
            "|02|20|33",
        ),
        ("SELECT DISTINCT ?x ?y { ?x :b ?x . ?y :b ?z }", "|32|33"),
        ("ASK { ?x :a ?y . ?y :b ?x }", ""),
        ("ASK { ?x :a ?y . ?y :b ?z }", "|"),
        ("ASK { { ?x :c ?y } UNION { ?x :b ?x } }", "|"),
    ] {
        assert_eq!(rt; rows_of(alloc, asked)?, rows.as_bytes().to_vec(alloc)?);
    }
    Ok(())
}
