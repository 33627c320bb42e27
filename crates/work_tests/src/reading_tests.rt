use gm_text::Arena;
use std::alloc::{AllocError, Global};
use std::test::Fail;
use workload_text::{WorkloadError, read_workload};

const KNOWS: &str = "gmark-workload 1\nlabel knows\ntype person growing\nedge 0 0 0 =\n";

const TWO: &str =
    "gmark-workload 2\nlabel knows\nlabel lives\ntype person growing\ntype city fixed\nedge 0 0 0 =\nedge 0 1 1 >\n";

const SYMBOLS_32: &str =
    "query 0 chain linear linear\nrule x0 x1\nx0 0.0.0.0.0.0.0.0.0.0.0.0.0.0.0.0.0.0.0.0.0.0.0.0.0.0.0.0.0.0.0.0 x1\nend\n";

const SYMBOLS_33: &str =
    "query 0 chain linear linear\nrule x0 x1\nx0 0.0.0.0.0.0.0.0.0.0.0.0.0.0.0.0.0.0.0.0.0.0.0.0.0.0.0.0.0.0.0.0.0 x1\nend\n";

/// The line and the rule that a text breaks: 0 and 0 where it breaks none, and 0 and 1 where memory ran out.
fn answer_to(alloc: Global, head: &str, rest: &str) -> Result<(u64, u8), AllocError> {
    let mut text = head.as_bytes().to_vec(alloc)?;
    text.extend_from_slice(rest.as_bytes())?;
    let arena = Arena::new(alloc);
    match read_workload(alloc, &text, &arena) {
        Ok(_) => Ok((0, 0)),
        Err(WorkloadError::BadWorkload { line, rule }) => Ok((line, rule)),
        Err(WorkloadError::NoMemory) => Ok((0, 1)),
    }
}

/// The numbers of queries and of their rules in a text.
fn counts_in(alloc: Global, head: &str, rest: &str) -> Result<(u32, usize), AllocError> {
    let mut text = head.as_bytes().to_vec(alloc)?;
    text.extend_from_slice(rest.as_bytes())?;
    let arena = Arena::new(alloc);
    let mut rules = 0usize;
    match read_workload(alloc, &text, &arena) {
        Ok(work) => {
            for i in 0..work.count() {
                rules = rules.saturating_add(work.query(i).rules.len());
            }
            Ok((work.count(), rules))
        }
        Err(_) => Ok((0, 0)),
    }
}

#[test]
fn heads(rt: HostRuntime) -> Result<(), Fail> {
    let alloc = rt.alloc();
    for (head, rest, line, rule) in [
        ("", "", 1, 1),
        ("", "gmark-workload 1", 1, 1),
        ("", "label knows\n", 1, 2),
        ("", "gmark-workload 3\n", 1, 4),
        ("", "gmark-workload 1\nlabel k-s\n", 2, 4),
        ("", "gmark-workload 1\nlabel a\nlabel a\n", 3, 5),
        ("", "gmark-workload 1\ntype a fixed\n", 2, 2),
        ("", "gmark-workload 1\nlabel a\ntype a small\n", 3, 4),
        (KNOWS, "", 5, 1),
        (KNOWS, "end\n", 0, 0),
        (KNOWS, "edge 0 0 0 =\n", 5, 5),
        (KNOWS, "edge 0 1 0 =\n", 5, 5),
        (KNOWS, "edge 0 00 0 =\n", 5, 4),
        (TWO, "edge 1 0 0 =\n", 8, 5),
        (TWO, "edge 1 0 0 <\nend\n", 0, 0),
    ] {
        assert_eq!(rt; answer_to(alloc, head, rest)?, (line, rule));
    }
    Ok(())
}

#[test]
fn format_1(rt: HostRuntime) -> Result<(), Fail> {
    let alloc = rt.alloc();
    for (rest, line, rule) in [
        (
            "query 0 chain linear linear\nrule x0 x1\nx0 0 x1\nend\n",
            0,
            0,
        ),
        (
            "query 0 chain linear linear\nrule x0 x1\nx0 0 x1\nend\nx\n",
            9,
            9,
        ),
        (
            "query 0 chain linear linear\nrule x0 x1\nx0 0 x1\nend\nx",
            9,
            9,
        ),
        (
            "query 0 chain linear linear\nrule x0 x1\nx0 0 x1\nend",
            8,
            1,
        ),
        ("query 0 chain linear linear\nrule x0 x1\nx0 0 x1\n", 8, 1),
        ("query 0 chain linear linear\nrule  x0 x1\n", 6, 4),
        ("query 0 chain linear linear\nrule x0 x1 x2\n", 6, 4),
        ("query 0 chain linear none\n", 5, 4),
        ("query 1 chain linear linear\n", 5, 5),
        ("query 0 chain linear linear\nrule x0 x0\n", 6, 5),
        ("query 0 chain linear linear\nrule x0 x16\n", 6, 5),
        (
            "query 0 chain linear linear\nrule x0 x2\nx0 0 x1\nend\n",
            8,
            3,
        ),
        ("query 0 chain linear linear\nrule x0 x1\nx0 1 x1\n", 7, 5),
        (
            "query 0 chain linear linear\nrule x0 x1\nx0 18446744073709551616 x1\n",
            7,
            5,
        ),
        ("query 0 chain linear linear\nrule x0 x1\nx0 () x1\n", 7, 4),
        ("query 0 chain linear linear\nrule x0 x1\nx0 (0) x1\n", 7, 4),
        (
            "query 0 chain linear linear\nrule x0 x1\nx0 (0+^0.0)* x1\nend\n",
            0,
            0,
        ),
        ("query 0 chain linear linear\nrule\tx0 x1\n", 6, 2),
        (SYMBOLS_32, 0, 0),
        (SYMBOLS_33, 7, 5),
    ] {
        assert_eq!(rt; answer_to(alloc, KNOWS, rest)?, (line, rule));
    }
    Ok(())
}

#[test]
fn format_2(rt: HostRuntime) -> Result<(), Fail> {
    let alloc = rt.alloc();
    for (rest, line, rule) in [
        ("query 0 chain none none\nrule\nx0 0 x1\nend\n", 0, 0),
        (
            "query 0 chain none none\nrule x0 x1 x2 x3\nx0 0 x1\nx2 0 x3\nend\n",
            0,
            0,
        ),
        ("query 0 chain none none\nrule x0 x1 x2 x3 x4\n", 9, 5),
        ("query 0 chain none linear\n", 8, 5),
        ("query 0 chain linear linear\nrule x0\n", 9, 5),
        (
            "query 0 chain none none\nrule x0\nx0 0 x1\nrule x0 x1\n",
            11,
            5,
        ),
        ("query 0 chain none none\nrule x0 x1\n", 9, 5),
        (
            "query 0 chain linear linear\nrule x0 x1\nx0 1.0 x1\n",
            10,
            6,
        ),
        (
            "query 0 chain linear linear\nrule x0 x1\nx0 0.1.^1 x1\nend\n",
            0,
            0,
        ),
        (
            "query 0 chain linear linear\nrule x0 x1\nx0 0+1 x1\n",
            10,
            7,
        ),
        (
            "query 0 chain linear linear\nrule x0 x1\nx0 (1)* x1\n",
            10,
            8,
        ),
        (
            "query 0 chain linear linear\nrule x0 x1\nx0 (1.^1)* x1\nend\n",
            0,
            0,
        ),
    ] {
        assert_eq!(rt; answer_to(alloc, TWO, rest)?, (line, rule));
    }
    Ok(())
}

#[test]
fn queries(rt: HostRuntime) -> Result<(), Fail> {
    let alloc = rt.alloc();
    for (rest, count, rules) in [
        ("end\n", 0, 0),
        (
            "query 0 star none none\nrule x0\nx0 0 x1\nrule x1\nx0 1 x1\nquery 1 chain linear linear\nrule x0 x1\nx0 0 x1\nend\n",
            2,
            3,
        ),
        ("query 0 star none none\nrule x0\nx0 0 x1\n", 0, 0),
    ] {
        assert_eq!(rt; counts_in(alloc, TWO, rest)?, (count, rules));
    }
    Ok(())
}
