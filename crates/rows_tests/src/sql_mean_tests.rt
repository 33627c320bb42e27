//! The rows of SQL texts over small graphs, whose answers are known from outside.

use gm_text::Arena;
use graph_text::{Graph, Triple};
use sql_mean::sql_rows;
use sql_read::read_sql;
use std::alloc::{AllocError, Global};
use std::test::Fail;

/// The edges of label 0.
const EDGES: &str = "WITH RECURSIVE
nodes(v) AS (SELECT e.src FROM edge AS e UNION SELECT e.trg FROM edge AS e),
t0(src, trg) AS (SELECT e.src, e.trg FROM edge AS e WHERE e.label = 0)
SELECT DISTINCT c0.src, c0.trg FROM t0 AS c0
";

/// The same edges, and back.
const BOTH_WAYS: &str = "WITH RECURSIVE
t0(src, trg) AS (SELECT e.src, e.trg FROM edge AS e WHERE e.label = 0)
SELECT DISTINCT c0.src, c0.trg FROM t0 AS c0
UNION
SELECT DISTINCT c0.trg, c0.src FROM t0 AS c0
";

/// Paths of any number of such edges.
const PATHS: &str = "WITH RECURSIVE
nodes(v) AS (SELECT e.src FROM edge AS e UNION SELECT e.trg FROM edge AS e),
t0(src, trg) AS (SELECT e.src, e.trg FROM edge AS e WHERE e.label = 0),
t1(src, trg) AS (SELECT n.v, n.v FROM nodes AS n UNION SELECT r.src, s.trg FROM t1 AS r, t0 AS s WHERE r.trg = s.src)
SELECT DISTINCT c0.src, c0.trg FROM t1 AS c0
";

/// Whether there is an edge.
const SOME: &str =
    "WITH RECURSIVE t(a) AS (SELECT e.src FROM edge AS e) SELECT DISTINCT 1 FROM t AS c";

/// No text of the subset.
const TWO: &str =
    "WITH RECURSIVE t(a) AS (SELECT e.src FROM edge AS e) SELECT DISTINCT 2 FROM t AS c";

fn graph_of(alloc: Global, edges: &[(u32, u32, u32)]) -> Result<Graph, AllocError> {
    let mut triples = Vec::new(alloc);
    for (src, label, trg) in edges {
        triples.push(Triple {
            src: *src,
            label: *label,
            trg: *trg,
        })?;
    }
    Ok(Graph::of(triples))
}

/// The numbers of all rows, each row behind a bar, or none for a text that has no reading.
fn rows_of(
    alloc: Global,
    text: &str,
    edges: &[(u32, u32, u32)],
) -> Result<Option<Vec<u8>>, AllocError> {
    let text = text.as_bytes();
    if text.len() > 16_777_216 {
        return Ok(None);
    }
    let arena = Arena::new(alloc);
    let Ok(query) = read_sql(alloc, text, &arena) else {
        return Ok(None);
    };
    let rows = sql_rows(alloc, &query, &graph_of(alloc, edges)?)?;
    let mut out = Vec::new(alloc);
    for row in rows.as_slice() {
        out.push(b'|')?;
        for i in 0..row.count as usize {
            if i < 4 {
                out.push(b'0' + (row.values[i] % 10) as u8)?;
            }
        }
    }
    Ok(Some(out))
}

#[test]
fn rows(rt: HostRuntime) -> Result<(), Fail> {
    let alloc = rt.alloc();
    let one = [(0, 0, 1)].as_slice();
    let three = [(0, 0, 1), (1, 0, 2), (2, 1, 3)].as_slice();
    let cycle = [(0, 0, 1), (1, 0, 0)].as_slice();
    for (text, edges, rows) in [
        (EDGES, [].as_slice(), Some("")),
        (EDGES, one, Some("|01")),
        (EDGES, three, Some("|01|12")),
        (BOTH_WAYS, three, Some("|01|10|12|21")),
        (BOTH_WAYS, cycle, Some("|01|10")),
        (PATHS, [].as_slice(), Some("")),
        (PATHS, one, Some("|00|01|11")),
        (PATHS, three, Some("|00|01|02|11|12|22|33")),
        (PATHS, cycle, Some("|00|01|10|11")),
        (SOME, [].as_slice(), Some("")),
        (SOME, one, Some("|")),
        (SOME, three, Some("|")),
        (TWO, one, None),
    ] {
        let is = match rows {
            Some(rows) => Some(rows.as_bytes().to_vec(alloc)?),
            None => None,
        };
        assert_eq!(rt; rows_of(alloc, text, edges)?, is);
    }
    Ok(())
}
