use gm_text::Arena;
use sparql_read::*;
use std::alloc::{AllocError, Global};
use std::test::Fail;

const HEAD: &str = "PREFIX : <http://gmark.example/> ";

/// How a text is answered, and what it asks.
fn answer_to(alloc: Global, text: &[u8]) -> Result<Vec<u8>, AllocError> {
    let arena = Arena::new(alloc);
    let mut out = Vec::new(alloc);
    if text.len() > 16_777_216 {
        return Ok(out);
    }
    match read_sparql(alloc, text, &arena) {
        Ok(query) => {
            out.push(b'0' + query.variable_count())?;
            out.push(b' ')?;
            for i in 0..query.path_count() {
                put_path(&mut out, query.path(query.path_id(i)))?;
            }
        }
        Err(SparqlError::NotSparql) => out.extend_from_slice(b"NotSparql")?,
        Err(SparqlError::TooDeep) => out.extend_from_slice(b"TooDeep")?,
        Err(SparqlError::NoMemory) => out.extend_from_slice(b"NoMemory")?,
    }
    Ok(out)
}

/// Appends a path whose parts are numbers below ten.
fn put_path(out: &mut Vec<u8>, path: Path) -> Result<(), AllocError> {
    match path {
        Path::Iri(name) => out.extend_from_slice(name)?,
        Path::Inverse(part) => put_parts(out, b'^', part, part)?,
        Path::Seq(left, right) => put_parts(out, b'/', left, right)?,
        Path::Alt(left, right) => put_parts(out, b'|', left, right)?,
        Path::Star(part) => put_parts(out, b'*', part, part)?,
        Path::Plus(part) => put_parts(out, b'+', part, part)?,
        Path::Opt(part) => put_parts(out, b'?', part, part)?,
    }
    out.push(b' ')?;
    Ok(())
}

fn put_parts(out: &mut Vec<u8>, sign: u8, left: PathId, right: PathId) -> Result<(), AllocError> {
    out.push(sign)?;
    out.push(b'0' + (left.number() % 10) as u8)?;
    out.push(b'0' + (right.number() % 10) as u8)?;
    Ok(())
}

fn joined(alloc: Global, head: &str, rest: &str) -> Result<Vec<u8>, AllocError> {
    let mut text = head.as_bytes().to_vec(alloc)?;
    text.extend_from_slice(rest.as_bytes())?;
    Ok(text)
}

#[test]
fn paths(rt: HostRuntime) -> Result<(), Fail> {
    let alloc = rt.alloc();
    for (path, nodes) in [
        ("?x:a?y", "0 a "),
        ("?x :a ? ?y", "0 a ?00 "),
        ("?x :a/:b/:c ?y", "0 a b /01 c /23 "),
        ("?x :a|:b/:c ?y", "0 a b c /12 |03 "),
        ("?x ^:a* ?y", "0 a *00 ^11 "),
        ("?x :a/(:b/:c) ?y", "0 a b c /12 /03 "),
        ("?x ((:a))+ ?y", "0 a +00 "),
        ("?x ^(:a|:b) ?y . ?y :c ?z .", "0 a b |01 ^22 c "),
        ("?x #)\n :a ?y", "0 a "),
    ] {
        let text = joined(alloc, HEAD, "ASK {")?;
        let mut text = text;
        text.extend_from_slice(path.as_bytes())?;
        text.extend_from_slice(b"}")?;
        assert_eq!(rt; answer_to(alloc, &text)?, nodes.as_bytes().to_vec(alloc)?);
    }
    Ok(())
}

#[test]
fn texts(rt: HostRuntime) -> Result<(), Fail> {
    let alloc = rt.alloc();
    for (rest, answer) in [
        ("select distinct ?a ?b { ?a :knows ?b }", "2 knows "),
        ("select ?a ?b { ?a :knows ?b }", "NotSparql"),
        ("ASK { ?x :a ?x }", "0 a "),
        ("SELECT DISTINCT ?a ?b ?c { ?a :a ?b . ?b :a ?c }", "3 a a "),
        (
            "SELECT DISTINCT ?a ?b ?c ?d ?e { ?a :a ?b . ?c :a ?d . ?d :a ?e }",
            "NotSparql",
        ),
        (
            "SELECT DISTINCT ?a ?b ?c ?d { ?a :a ?b . ?c :a ?d . ?d :a ?e }",
            "4 a a a ",
        ),
        ("SELECT DISTINCT ?a ?a { ?a :a ?b }", "NotSparql"),
        (
            "SELECT DISTINCT ?a { {?a :a ?b} UNION {?c :a ?b} }",
            "NotSparql",
        ),
        (
            "SELECT DISTINCT ?b { {?a :a ?b} UNION {?c :b ?b . } }",
            "1 a b ",
        ),
        (
            "SELECT DISTINCT ?b WHERE { {?a :a ?b} . {?c :b ?b . } }",
            "NotSparql",
        ),
        ("ASK { ?a p:a ?b }", "NotSparql"),
        ("ASK { ?a :a** ?b }", "NotSparql"),
        ("ASK { ?a ^^:a ?b }", "NotSparql"),
        ("ASK { . ?a :a ?b }", "NotSparql"),
        ("ASK { }", "NotSparql"),
        ("SELECTDISTINCT ?a { ?a :a ?b }", "NotSparql"),
        ("ASK { ?a :a ?b } ASK", "NotSparql"),
    ] {
        let text = joined(alloc, HEAD, rest)?;
        assert_eq!(rt; answer_to(alloc, &text)?, answer.as_bytes().to_vec(alloc)?);
    }
    Ok(())
}

#[test]
fn depths(rt: HostRuntime) -> Result<(), Fail> {
    let alloc = rt.alloc();
    let text = joined(
        alloc,
        HEAD,
        "SELECT DISTINCT ?h0 ?h1 WHERE {\n{ ?h0 :knows ?h1 . }\n}",
    )?;
    for (count, answer) in [(0, "2 knows "), (64, "2 knows "), (65, "TooDeep")] {
        let mut commented = b"#".to_vec(alloc)?;
        for _ in 0..count {
            commented.push(b'(')?;
        }
        commented.push(b'\n')?;
        commented.extend_from_slice(&text)?;
        assert_eq!(rt;
            answer_to(alloc, &commented)?,
            answer.as_bytes().to_vec(alloc)?
        );
    }
    for length in 0..text.len() {
        assert_eq!(rt;
            answer_to(alloc, &text[..length])?,
            b"NotSparql".to_vec(alloc)?
        );
    }
    Ok(())
}

/// So many `(` between two texts.
fn opened(alloc: Global, before: &str, count: u32, behind: &str) -> Result<Vec<u8>, AllocError> {
    let mut text = before.as_bytes().to_vec(alloc)?;
    for _ in 0..count {
        text.push(b'(')?;
    }
    text.extend_from_slice(behind.as_bytes())?;
    Ok(text)
}

#[test]
fn open_parentheses(rt: HostRuntime) -> Result<(), Fail> {
    let alloc = rt.alloc();
    let edge = "PREFIX : <http://gmark.example/>\nSELECT DISTINCT ?h0 ?h1 WHERE {\n{ ?h0 ";
    for (before, count, behind, answer) in [
        (edge, 0, ":knows ?h1 . }\n}\n", "2 knows "),
        (edge, 1, ":knows ?h1 . }\n}\n", "NotSparql"),
        (edge, 64, ":knows ?h1 . }\n}\n", "NotSparql"),
        (edge, 65, ":knows ?h1 . }\n}\n", "TooDeep"),
        ("", 64, "", "NotSparql"),
        ("", 65, "", "TooDeep"),
    ] {
        let text = opened(alloc, before, count, behind)?;
        assert_eq!(rt; answer_to(alloc, &text)?, answer.as_bytes().to_vec(alloc)?);
    }
    Ok(())
}
