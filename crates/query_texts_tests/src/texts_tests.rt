//! The texts of queries of a workload, in both languages.

use gm_files::QueryFile;
use gm_text::Arena;
use query_texts::query_text;
use std::alloc::{AllocError, Global};
use std::test::Fail;
use workload_text::read_workload;

/// The labels `a` and `b`, each between nodes of one type.
const HEAD: &str = "gmark-workload 2
label a
label b
type node growing
edge 0 0 0 =
edge 0 1 0 =
";

/// The text of the first query of a workload in a language, or nothing where there is none.
fn text_of(alloc: Global, kind: QueryFile, query: &str) -> Result<Vec<u8>, AllocError> {
    let mut text = HEAD.as_bytes().to_vec(alloc)?;
    text.extend_from_slice(query.as_bytes())?;
    let arena = Arena::new(alloc);
    let Ok(work) = read_workload(alloc, &text, &arena) else {
        return Ok(Vec::new(alloc));
    };
    if work.count() == 0 {
        return Ok(Vec::new(alloc));
    }
    query_text(alloc, kind, work.head(), work.query(0))
}

#[test]
fn texts(rt: HostRuntime) -> Result<(), Fail> {
    let alloc = rt.alloc();
    for (query, sparql, sql) in [
        (
            "query 0 chain linear linear
rule x0 x1
x0 0.1 x1
rule x0 x1
x0 0.1 x2
x2 0 x1
end
",
            "PREFIX : <http://gmark.example/>
SELECT DISTINCT ?h0 ?h1 WHERE {
{ ?h0 :a/:b ?h1 . }
UNION
{ ?h0 :a/:b ?x2 . ?x2 :a ?h1 . }
}
",
            "WITH RECURSIVE
nodes(v) AS (SELECT e.src FROM edge AS e UNION SELECT e.trg FROM edge AS e),
t0(src, trg) AS (SELECT e.src, e.trg FROM edge AS e WHERE e.label = 0),
t1(src, trg) AS (SELECT e.src, e.trg FROM edge AS e WHERE e.label = 1),
t2(src, trg) AS (SELECT a.src, b.trg FROM t0 AS a, t1 AS b WHERE a.trg = b.src)
SELECT DISTINCT c0.src, c0.trg FROM t2 AS c0
UNION
SELECT DISTINCT c0.src, c1.trg FROM t2 AS c0, t0 AS c1 WHERE c0.trg = c1.src
",
        ),
        (
            "query 0 chain none none
rule
x0 (0+^1)* x1
end
",
            "PREFIX : <http://gmark.example/>
ASK WHERE {
{ ?x0 (:a|^:b)* ?x1 . }
}
",
            "WITH RECURSIVE
nodes(v) AS (SELECT e.src FROM edge AS e UNION SELECT e.trg FROM edge AS e),
t0(src, trg) AS (SELECT e.src, e.trg FROM edge AS e WHERE e.label = 0),
t1(src, trg) AS (SELECT e.trg, e.src FROM edge AS e WHERE e.label = 1),
t2(src, trg) AS (SELECT a.src, a.trg FROM t0 AS a UNION SELECT b.src, b.trg FROM t1 AS b),
t3(src, trg) AS (SELECT n.v, n.v FROM nodes AS n UNION SELECT r.src, s.trg FROM t3 AS r, t2 AS s WHERE r.trg = s.src)
SELECT DISTINCT 1 FROM t3 AS c0
",
        ),
    ] {
        for (kind, text) in [(QueryFile::Sparql, sparql), (QueryFile::Sql, sql)] {
            assert_eq!(rt;
                text_of(alloc, kind, query)?,
                text.as_bytes().to_vec(alloc)?
            );
        }
    }
    Ok(())
}
