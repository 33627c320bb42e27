use gm_text::Arena;
use sql_read::*;
use std::alloc::{AllocError, Global};
use std::test::Fail;

/// What the reader answers on a text: a refusal, or `reading`.
fn answer(alloc: Global, text: &[u8]) -> &'static [u8] {
    if text.len() > 16777216 {
        return b"too long";
    }
    let arena = Arena::new(alloc);
    match read_sql(alloc, text, &arena) {
        Ok(_) => b"reading",
        Err(SqlError::NotSql) => b"NotSql",
        Err(SqlError::TooDeep) => b"TooDeep",
        Err(SqlError::NoMemory) => b"NoMemory",
    }
}

const EDGES: &[u8] =
    b"WITH RECURSIVE\nnodes(v) AS (SELECT e.src FROM edge AS e UNION SELECT e.trg FROM edge AS e),\nt0(src, trg) AS (SELECT e.src, e.trg FROM edge AS e WHERE e.label = 0)\nSELECT DISTINCT c0.src, c0.trg FROM t0 AS c0\n";

#[test]
fn readings(rt: HostRuntime) -> Result<(), Fail> {
    let alloc = rt.alloc();
    for (text, is) in [
        (EDGES, b"reading".as_slice()),
        // Keywords in any case, every blank, and blanks where none is needed.
        (
            b"with\trecursive\r\nt ( a )as(select e . src from edge as e)Select\nDistinct c.a From t As c",
            b"reading",
        ),
        // A table that takes from itself in the last of two selects, and an alias with a table's name.
        (
            b"WITH RECURSIVE t(a) AS (SELECT e.src FROM edge AS e UNION SELECT t.a FROM t AS t) SELECT t.a FROM t AS t",
            b"reading",
        ),
        // The last union takes from a table as often as it likes, and has up to four columns.
        (
            b"WITH RECURSIVE t(a) AS (SELECT e.src FROM edge AS e) SELECT c.a, d.a, c.a, d.a FROM t AS c, t AS d WHERE c.a = d.a AND d.a = 4294967295",
            b"reading",
        ),
        // Selects of `1`.
        (
            b"WITH RECURSIVE t(a) AS (SELECT e.src FROM edge AS e) SELECT DISTINCT 1 FROM t AS c",
            b"reading",
        ),
        (
            b"WITH RECURSIVE t(a) AS (SELECT e.src FROM edge AS e) SELECT 1 FROM t AS c UNION SELECT 1 FROM edge AS e",
            b"reading",
        ),
    ] {
        assert_eq!(rt; answer(alloc, text), is);
    }
    Ok(())
}

#[test]
fn refusals(rt: HostRuntime) -> Result<(), Fail> {
    let alloc = rt.alloc();
    for text in [
        b"".as_slice(),
        // Tables that aren't there, and that come later.
        b"WITH RECURSIVE t(a) AS (SELECT e.src FROM edge AS e) SELECT c.a FROM u AS c",
        b"WITH RECURSIVE t(a) AS (SELECT u.a FROM u AS u), u(a) AS (SELECT e.src FROM edge AS e) SELECT c.a FROM t AS c",
        // A table that takes from itself in its only select, in its first, and twice in its last.
        b"WITH RECURSIVE t(a) AS (SELECT t.a FROM t AS t) SELECT c.a FROM t AS c",
        b"WITH RECURSIVE t(a) AS (SELECT t.a FROM t AS t UNION SELECT e.src FROM edge AS e) SELECT c.a FROM t AS c",
        b"WITH RECURSIVE t(a) AS (SELECT e.src FROM edge AS e UNION SELECT s.a FROM t AS s, t AS u) SELECT c.a FROM t AS c",
        // Names that aren't new.
        b"WITH RECURSIVE edge(a) AS (SELECT e.src FROM edge AS e) SELECT c.src FROM edge AS c",
        b"WITH RECURSIVE t(a) AS (SELECT e.src FROM edge AS e), t(a) AS (SELECT e.src FROM edge AS e) SELECT c.a FROM t AS c",
        b"WITH RECURSIVE t(a, a) AS (SELECT e.src, e.trg FROM edge AS e) SELECT c.a FROM t AS c",
        b"WITH RECURSIVE t(a) AS (SELECT e.src FROM edge AS e, edge AS e) SELECT c.a FROM t AS c",
        // Columns of no table, and of another alias's table.
        b"WITH RECURSIVE t(a) AS (SELECT e.a FROM edge AS e) SELECT c.a FROM t AS c",
        b"WITH RECURSIVE t(a) AS (SELECT e.src FROM edge AS e) SELECT e.a FROM t AS c, edge AS e",
        b"WITH RECURSIVE t(a) AS (SELECT e.src FROM edge AS e) SELECT c.a FROM t AS c WHERE c.a = c.src",
        b"WITH RECURSIVE t(a) AS (SELECT e.src FROM edge AS e) SELECT c.a FROM t AS d",
        // One column more, and one less, than the table has.
        b"WITH RECURSIVE t(a) AS (SELECT e.src, e.trg FROM edge AS e) SELECT c.a FROM t AS c",
        b"WITH RECURSIVE t(a, b) AS (SELECT e.src FROM edge AS e) SELECT c.a FROM t AS c",
        // `1` inside a table, another number, five columns, and two numbers of columns.
        b"WITH RECURSIVE t(a) AS (SELECT 1 FROM edge AS e) SELECT c.a FROM t AS c",
        b"WITH RECURSIVE t(a) AS (SELECT e.src FROM edge AS e) SELECT DISTINCT 2 FROM t AS c",
        b"WITH RECURSIVE t(a) AS (SELECT e.src FROM edge AS e) SELECT c.a, c.a, c.a, c.a, c.a FROM t AS c",
        b"WITH RECURSIVE t(a) AS (SELECT e.src FROM edge AS e) SELECT c.a FROM t AS c UNION SELECT 1 FROM t AS c",
        // Words that are none, a number too great, and a byte that begins no token.
        b"WITH RECURSIVE T(a) AS (SELECT e.src FROM edge AS e) SELECT c.a FROM T AS c",
        b"WITH RECURSIVE t(a) AS (SELECT e.src FROM edge AS e WHERE e.src = 4294967296) SELECT c.a FROM t AS c",
        b"WITH RECURSIVE t(a) AS (SELECT e.src FROM edge AS e WHERE e.src = 01) SELECT c.a FROM t AS c",
        b"WITH RECURSIVE t(a) AS (SELECT e.src FROM edge AS e) SELECT c.a FROM t AS c;",
        b"WITH RECURSIVE t(a) AS (SELECT e.src FROM edge AS e) SELECT DISTINCT DISTINCT c.a FROM t AS c",
        b"WITH RECURSIVE t(a) AS (SELECT e.src FROM edge AS e) SELECT c.a FROM t AS c WHERE",
    ] {
        assert_eq!(rt; answer(alloc, text), b"NotSql".as_slice());
    }
    Ok(())
}

/// So many bytes `(`, and then a text.
fn behind_parentheses(alloc: Global, count: u32, text: &[u8]) -> Result<Vec<u8>, AllocError> {
    let mut bytes = Vec::new(alloc);
    for _ in 0..count {
        bytes.extend_from_slice(b"(")?;
    }
    bytes.extend_from_slice(text)?;
    Ok(bytes)
}

#[test]
fn depths(rt: HostRuntime) -> Result<(), Fail> {
    let alloc = rt.alloc();
    for (count, text, is) in [
        (64, b"".as_slice(), b"NotSql".as_slice()),
        (65, b"", b"TooDeep"),
        (65, EDGES, b"TooDeep"),
        (64, b")(", b"NotSql"),
        (64, b"))(((", b"TooDeep"),
    ] {
        assert_eq!(rt;
            answer(alloc, behind_parentheses(alloc, count, text)?.as_slice()),
            is
        );
    }
    Ok(())
}

#[test]
fn prefixes(rt: HostRuntime) -> Result<(), Fail> {
    let alloc = rt.alloc();
    let whole = EDGES.len();
    for len in 0..whole {
        let is = if len + 1 == whole {
            b"reading".as_slice()
        } else {
            b"NotSql"
        };
        assert_eq!(rt; answer(alloc, &EDGES[..len]), is);
    }
    Ok(())
}

#[test]
fn the_parts_of_a_reading(rt: HostRuntime) -> Result<(), Fail> {
    let alloc = rt.alloc();
    let arena = Arena::new(alloc);
    let Ok(query) = read_sql(alloc, EDGES, &arena) else {
        return Ok(());
    };
    assert_eq!(rt; query.table_count(), 2);
    assert_eq!(rt; query.selects().len(), 4);
    assert_eq!(rt; query.last().first, 3);
    assert_eq!(rt; query.last().count, 1);
    assert_eq!(rt; query.columns().len(), 6);
    assert_eq!(rt; query.froms().len(), 4);
    assert_eq!(rt; query.equations().len(), 1);
    assert_eq!(rt; query.names().len(), 3);
    if let Some(name) = query.names().first() {
        assert_eq!(rt; *name, b"v".as_slice());
    }
    Ok(())
}
