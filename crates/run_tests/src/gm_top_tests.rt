use gm_io::{CountFolder, MemFolder, MemSource, SliceSource};
use gm_top::{Outcome, run};
use std::alloc::{AllocError, Global};
use std::test::Fail;

/// One query for the edges of a label.
const KNOWS: &str =
    "gmark-workload 1\nlabel knows\ntype person growing\nedge 0 0 0 =\nquery 0 chain linear linear\nrule x0 x1\nx0 0 x1\nend\n";

/// The same with a label that is no name.
const DASH: &str =
    "gmark-workload 1\nlabel k-s\ntype person growing\nedge 0 0 0 =\nquery 0 chain linear linear\nrule x0 x1\nx0 0 x1\nend\n";

/// The SPARQL text of the query.
const KNOWS_SPARQL: &str =
    "PREFIX : <http://gmark.example/>\nSELECT DISTINCT ?h0 ?h1 WHERE {\n{ ?h0 :knows ?h1 . }\n}\n";

/// Both files of the query, with their names.
const KNOWS_FILES: &str =
    "query-0.sparql: PREFIX : <http://gmark.example/>\nSELECT DISTINCT ?h0 ?h1 WHERE {\n{ ?h0 :knows ?h1 . }\n}\nquery-0.sql: WITH RECURSIVE\nnodes(v) AS (SELECT e.src FROM edge AS e UNION SELECT e.trg FROM edge AS e),\nt0(src, trg) AS (SELECT e.src, e.trg FROM edge AS e WHERE e.label = 0)\nSELECT DISTINCT c0.src, c0.trg FROM t0 AS c0\n";

/// One node with one edge to itself.
const LOOP: &str =
    r#"{"nodes":1,"types":[{"name":"t","count":1}],"labels":["p"],"constraints":[{"source":"t","label":"p","target":"t","out":{"kind":"uniform","min":1,"max":1},"in":{"kind":"uniform","min":1,"max":1}}],"workload":{"queries":0,"shapes":["chain"],"classes":["constant"],"star":0,"rules":[1,1],"conjuncts":[1,1],"disjuncts":[1,1],"length":[1,1]}}"#;

/// The same without a node.
const NO_NODES: &str =
    r#"{"nodes":1,"types":[{"name":"t","count":0}],"labels":["p"],"constraints":[{"source":"t","label":"p","target":"t","out":{"kind":"uniform","min":1,"max":1},"in":{"kind":"uniform","min":1,"max":1}}],"workload":{"queries":0,"shapes":["chain"],"classes":["constant"],"star":0,"rules":[1,1],"conjuncts":[1,1],"disjuncts":[1,1],"length":[1,1]}}"#;

/// The same with a free out side.
const FREE_OUT: &str =
    r#"{"nodes":1,"types":[{"name":"t","count":1}],"labels":["p"],"constraints":[{"source":"t","label":"p","target":"t","out":{"kind":"free"},"in":{"kind":"uniform","min":1,"max":1}}],"workload":{"queries":0,"shapes":["chain"],"classes":["constant"],"star":0,"rules":[1,1],"conjuncts":[1,1],"disjuncts":[1,1],"length":[1,1]}}"#;

/// Four constraints between two nodes, one without an edge.
const FOUR: &str =
    r#"{"nodes":1,"types":[{"name":"a","count":1},{"name":"b","count":1}],"labels":["p","q"],"constraints":[{"source":"a","label":"p","target":"b","out":{"kind":"uniform","min":2,"max":2},"in":{"kind":"free"}},{"source":"b","label":"q","target":"a","out":{"kind":"free"},"in":{"kind":"uniform","min":1,"max":1}},{"source":"a","label":"p","target":"a","out":{"kind":"uniform","min":3,"max":3},"in":{"kind":"uniform","min":2,"max":2}},{"source":"b","label":"p","target":"b","out":{"kind":"uniform","min":0,"max":0},"in":{"kind":"uniform","min":1,"max":1}}],"workload":{"queries":0,"shapes":["chain"],"classes":["constant"],"star":0,"rules":[1,1],"conjuncts":[1,1],"disjuncts":[1,1],"length":[1,1]}}"#;

/// Five million stubs on the out side.
const MANY_OUT: &str =
    r#"{"nodes":1,"types":[{"name":"a","count":1000},{"name":"b","count":1}],"labels":["p"],"constraints":[{"source":"a","label":"p","target":"b","out":{"kind":"uniform","min":5000,"max":5000},"in":{"kind":"uniform","min":1,"max":1}}],"workload":{"queries":0,"shapes":["chain"],"classes":["constant"],"star":0,"rules":[1,1],"conjuncts":[1,1],"disjuncts":[1,1],"length":[1,1]}}"#;

/// Too many stubs on both sides of constraint 1.
const MANY_BOTH: &str =
    r#"{"nodes":1,"types":[{"name":"a","count":1000},{"name":"b","count":1000}],"labels":["p"],"constraints":[{"source":"b","label":"p","target":"b","out":{"kind":"uniform","min":1,"max":1},"in":{"kind":"uniform","min":1,"max":1}},{"source":"a","label":"p","target":"b","out":{"kind":"uniform","min":5000,"max":5000},"in":{"kind":"uniform","min":6000,"max":6000}}],"workload":{"queries":0,"shapes":["chain"],"classes":["constant"],"star":0,"rules":[1,1],"conjuncts":[1,1],"disjuncts":[1,1],"length":[1,1]}}"#;

/// Too many stubs on the in side of constraint 0, and on the out side of constraint 1.
const MANY_IN: &str =
    r#"{"nodes":1,"types":[{"name":"a","count":1000},{"name":"b","count":1000}],"labels":["p"],"constraints":[{"source":"a","label":"p","target":"b","out":{"kind":"free"},"in":{"kind":"uniform","min":6000,"max":6000}},{"source":"a","label":"p","target":"a","out":{"kind":"uniform","min":5000,"max":5000},"in":{"kind":"free"}}],"workload":{"queries":0,"shapes":["chain"],"classes":["constant"],"star":0,"rules":[1,1],"conjuncts":[1,1],"disjuncts":[1,1],"length":[1,1]}}"#;

/// Two types of one name, and too many stubs.
const SAME_NAMES: &str =
    r#"{"nodes":1,"types":[{"name":"u","count":1000},{"name":"v","count":1000},{"name":"u","share":2000}],"labels":["p"],"constraints":[{"source":"u","label":"p","target":"u","out":{"kind":"uniform","min":5000,"max":5000},"in":{"kind":"uniform","min":1,"max":1}}],"workload":{"queries":0,"shapes":["chain"],"classes":["constant"],"star":0,"rules":[1,1],"conjuncts":[1,1],"disjuncts":[1,1],"length":[1,1]}}"#;

/// 20,000 nodes, each with one edge out and one edge in.
const RING: &str =
    r#"{"nodes":20000,"types":[{"name":"t","count":20000}],"labels":["p"],"constraints":[{"source":"t","label":"p","target":"t","out":{"kind":"uniform","min":1,"max":1},"in":{"kind":"uniform","min":1,"max":1}}],"workload":{"queries":0,"shapes":["chain"],"classes":["constant"],"star":0,"rules":[1,1],"conjuncts":[1,1],"disjuncts":[1,1],"length":[1,1]}}"#;

/// The words of a line, one behind each space.
fn command_line(alloc: Global, line: &str) -> Result<Vec<String>, AllocError> {
    let mut words = Vec::new(alloc);
    for word in line.split(' ') {
        words.push(String::from_str(alloc, word)?)?;
    }
    Ok(words)
}

/// How a run ends, the number of files that it leaves, their names and bytes, one behind the other, and the bytes of
/// `workload.txt`.
#[derive(Drop)]
struct Left {
    outcome: Outcome,
    line: String,
    count: usize,
    files: Vec<u8>,
    workload: Vec<u8>,
}

/// What a run on this command line and this input leaves, where the calls of the source and of the folder with
/// these numbers fail, and a failed write keeps so many bytes.
fn left_by(
    alloc: Global,
    line: &str,
    text: &[u8],
    read: u64,
    call: u64,
    keep: usize,
) -> Result<Left, AllocError> {
    let words = command_line(alloc, line)?;
    let mut source = MemSource::new(text.to_vec(alloc)?, vec![in alloc; read]?);
    let mut folder = MemFolder::new(alloc, vec![in alloc; call]?, keep, 30, 300_000)?;
    let outcome = run(alloc, &words, &mut source, &mut folder);
    let mut files = Vec::new(alloc);
    let mut workload = Vec::new(alloc);
    for i in 0..folder.file_count() {
        if folder.name(i) == "workload.txt" {
            workload.extend_from_slice(folder.bytes(i))?;
        }
        files.extend_from_slice(folder.name(i).as_bytes())?;
        files.extend_from_slice(b": ")?;
        files.extend_from_slice(folder.bytes(i))?;
    }
    Ok(Left {
        outcome,
        line: outcome.line(alloc)?,
        count: folder.file_count(),
        files,
        workload,
    })
}

#[test]
fn each_outcome_has_its_line_and_leaves_its_files(rt: HostRuntime) -> Result<(), Fail> {
    let alloc = rt.alloc();
    // The command line, the input, the failing calls of the source and of the folder, and what is left. No call is
    // number 0.
    for (words, text, read, call, status, line, files) in [
        ("translate", KNOWS, 0, 0, 0, "gmark: done", KNOWS_FILES),
        (
            "generate 7",
            LOOP,
            0,
            0,
            0,
            "gmark: done",
            "graph.txt: 0 0 0\nworkload.txt: gmark-workload 1\nlabel p\ntype t fixed\nedge 0 0 0 =\nend\n",
        ),
        (
            "generate 7",
            NO_NODES,
            0,
            0,
            0,
            "gmark: done",
            "graph.txt: workload.txt: gmark-workload 1\nlabel p\ntype t fixed\nedge 0 0 0 =\nend\n",
        ),
        (
            "generate 7",
            FREE_OUT,
            0,
            0,
            0,
            "gmark: done",
            "graph.txt: 0 0 0\nworkload.txt: gmark-workload 1\nlabel p\ntype t fixed\nedge 0 0 0 =\nend\n",
        ),
        (
            "generate 7",
            FOUR,
            0,
            0,
            0,
            "gmark: done",
            "graph.txt: 0 0 1\n0 0 1\n1 1 0\n0 0 0\n0 0 0\nworkload.txt: gmark-workload 1\nlabel p\nlabel q\ntype a fixed\ntype b fixed\nedge 0 0 1 =\nedge 1 1 0 =\nedge 0 0 0 =\nedge 1 0 1 =\nend\n",
        ),
        ("", LOOP, 0, 0, 2, "gmark: unknown command line", ""),
        ("generate", LOOP, 0, 0, 2, "gmark: unknown command line", ""),
        (
            "generate 01",
            LOOP,
            0,
            0,
            2,
            "gmark: unknown command line",
            "",
        ),
        (
            "generate 18446744073709551616",
            LOOP,
            0,
            0,
            2,
            "gmark: unknown command line",
            "",
        ),
        (
            "generate 1 2",
            LOOP,
            0,
            0,
            2,
            "gmark: unknown command line",
            "",
        ),
        (
            "translate 1",
            KNOWS,
            0,
            0,
            2,
            "gmark: unknown command line",
            "",
        ),
        ("sample 0", LOOP, 0, 0, 2, "gmark: unknown command line", ""),
        (
            "sample 101",
            LOOP,
            0,
            0,
            2,
            "gmark: unknown command line",
            "",
        ),
        (
            "generate 7",
            "{\"nodes\":",
            0,
            0,
            3,
            "gmark: configuration is not JSON",
            "",
        ),
        (
            "generate 7",
            SAME_NAMES,
            0,
            0,
            3,
            "gmark: configuration breaks rule C6 at 2",
            "",
        ),
        ("generate 7", LOOP, 1, 0, 4, "gmark: reading failed", ""),
        ("generate 7", LOOP, 2, 0, 4, "gmark: reading failed", ""),
        ("generate 7", LOOP, 0, 1, 5, "gmark: writing failed", ""),
        (
            "generate 7",
            LOOP,
            0,
            2,
            5,
            "gmark: writing failed",
            "graph.txt: 0 0 ",
        ),
        (
            "generate 7",
            LOOP,
            0,
            3,
            5,
            "gmark: writing failed",
            "graph.txt: 0 0 0\n",
        ),
        (
            "generate 7",
            LOOP,
            0,
            4,
            5,
            "gmark: writing failed",
            "graph.txt: 0 0 0\n",
        ),
        (
            "generate 7",
            LOOP,
            0,
            5,
            5,
            "gmark: writing failed",
            "graph.txt: 0 0 0\nworkload.txt: gmar",
        ),
        (
            "generate 7",
            LOOP,
            0,
            6,
            5,
            "gmark: writing failed",
            "graph.txt: 0 0 0\nworkload.txt: gmark-workload 1\nlabel p\ntype t fixed\nedge 0 0 0 =\nend\n",
        ),
        (
            "translate",
            KNOWS,
            0,
            2,
            5,
            "gmark: writing failed",
            "query-0.sparql: PREF",
        ),
        (
            "generate 7",
            MANY_OUT,
            0,
            0,
            8,
            "gmark: constraint 0 out: 5000000 stubs",
            "",
        ),
        (
            "generate 7",
            MANY_BOTH,
            0,
            0,
            8,
            "gmark: constraint 1 out: 5000000 stubs",
            "",
        ),
        (
            "generate 7",
            MANY_IN,
            0,
            0,
            8,
            "gmark: constraint 0 in: 6000000 stubs",
            "",
        ),
        (
            "translate",
            "",
            0,
            0,
            3,
            "gmark: workload breaks rule F1 at line 1",
            "",
        ),
        (
            "translate",
            DASH,
            0,
            0,
            3,
            "gmark: workload breaks rule F4 at line 2",
            "",
        ),
        ("translate", KNOWS, 1, 0, 4, "gmark: reading failed", ""),
        ("translate", KNOWS, 2, 0, 4, "gmark: reading failed", ""),
    ] {
        let left = left_by(alloc, words, text.as_bytes(), read, call, 4)?;
        assert_eq!(rt;
            (
                left.outcome.status(),
                left.line.as_str(),
                left.files.as_slice()
            ),
            (status, line, files.as_bytes())
        );
    }
    assert_eq!(rt;
        Outcome::NoMemory.line(alloc)?.as_str(),
        "gmark: out of memory"
    );
    Ok(())
}

#[test]
fn a_failed_call_leaves_the_start_of_the_texts(rt: HostRuntime) -> Result<(), Fail> {
    let alloc = rt.alloc();
    let first = "query-0.sparql: ".len();
    // The failing call, and the number of bytes that are left of both files and their names.
    for (call, bytes) in [
        (1, 0),
        (2, first + 10),
        (3, first + KNOWS_SPARQL.len()),
        (4, first + KNOWS_SPARQL.len()),
        (
            5,
            first + KNOWS_SPARQL.len() + "query-0.sql: WITH RECUR".len(),
        ),
        (6, KNOWS_FILES.len()),
    ] {
        let left = left_by(alloc, "translate", KNOWS.as_bytes(), 0, call, 10)?;
        assert_eq!(rt;
            (
                left.outcome,
                left.files.len(),
                KNOWS_FILES.as_bytes().starts_with(&left.files)
            ),
            (Outcome::WriteFault, bytes, true)
        );
    }
    Ok(())
}

/// How a run over a source and a folder that never fail ends, and the numbers of bytes and of calls that the folder
/// was given.
fn counted(alloc: Global, line: &str, text: &[u8]) -> Result<(Outcome, u64, u64), AllocError> {
    let words = command_line(alloc, line)?;
    let mut source = SliceSource::new(text);
    let mut folder = CountFolder::new();
    let outcome = run(alloc, &words, &mut source, &mut folder);
    Ok((outcome, folder.bytes(), folder.calls()))
}

#[test]
fn files_are_written_in_pieces(rt: HostRuntime) -> Result<(), Fail> {
    let alloc = rt.alloc();
    for (line, text, bytes, calls) in [
        ("generate 7", NO_NODES, 55, 5),
        ("generate 7", LOOP, 61, 6),
        ("generate 7", RING, 257_835, 9),
        ("generate 18446744073709551615", RING, 257_835, 9),
    ] {
        assert_eq!(rt;
            counted(alloc, line, text.as_bytes())?,
            (Outcome::Done, bytes, calls)
        );
    }
    Ok(())
}

#[test]
fn a_failed_write_leaves_the_start_of_the_files(rt: HostRuntime) -> Result<(), Fail> {
    let alloc = rt.alloc();
    let whole = left_by(alloc, "generate 7", RING.as_bytes(), 0, 0, 0)?.files;
    // The failing call, the bytes of the failed piece that are kept, and the number of bytes that are left, of which
    // 11 are the graph's name and what stands before its own, and 14 the workload's.
    for (call, keep, bytes) in [
        (2, 0, 11),
        (2, 9, 20),
        (4, 1, 131_084),
        (5, 0, 196_619),
        (5, 100_000, 257_791),
        (6, 0, 257_791),
        (7, 0, 257_791),
        (8, 9, 257_814),
    ] {
        let left = left_by(alloc, "generate 7", RING.as_bytes(), 0, call, keep)?;
        assert_eq!(rt;
            (
                left.outcome,
                left.files.len(),
                whole.starts_with(&left.files)
            ),
            (Outcome::WriteFault, bytes, true)
        );
    }
    Ok(())
}

/// A configuration of nodes of type `a`, each with so many edges to nodes of type `b`, whose number grows, and of one
/// query of this class.
fn one_query(
    alloc: Global,
    (nodes, degree): (&str, &str),
    (class, star, length): (&str, &str, &str),
) -> Result<String, AllocError> {
    let mut text = String::new(alloc);
    for part in [
        r#"{"nodes":100,"types":[{"name":"a","count":"#,
        nodes,
        r#"},{"name":"b","share":1000}],"labels":["p"],"constraints":[{"source":"a","label":"p","target":"b","out":{"kind":"uniform","min":"#,
        degree,
        r#","max":"#,
        degree,
        r#"},"in":{"kind":"uniform","min":1,"max":1}}],"workload":{"queries":1,"shapes":["chain"],"classes":[""#,
        class,
        r#""],"star":"#,
        star,
        r#","rules":[1,1],"conjuncts":[1,1],"disjuncts":[1,1],"length":"#,
        length,
        "}}",
    ] {
        text.push_str(part)?;
    }
    Ok(text)
}

#[test]
fn a_query_is_drawn_or_named(rt: HostRuntime) -> Result<(), Fail> {
    let alloc = rt.alloc();
    // The command line, the nodes and their degrees, what is asked for, and the status, the line, and the end of what
    // is left.
    for (words, nodes, query, status, line, end) in [
        (
            "generate 7",
            ("10", "1"),
            ("linear", "0", "[1,1]"),
            0,
            "gmark: done",
            "gmark-workload 1\nlabel p\ntype a fixed\ntype b growing\nedge 0 0 1 <\nquery 0 chain linear linear\nrule x0 x1\nx0 0 x1\nend\n",
        ),
        (
            "generate 7",
            ("10", "1"),
            ("linear", "0", "[1,1],\"arity\":[0,0]"),
            0,
            "gmark: done",
            "\nquery 0 chain none none\nrule\nx0 0 x1\nend\n",
        ),
        (
            "generate 7",
            ("10", "1"),
            ("linear", "0", "[1,1],\"arity\":[4,4]"),
            0,
            "gmark: done",
            "gmark-workload 2\nlabel p\ntype a fixed\ntype b growing\nedge 0 0 1 <\nquery 0 chain linear linear\nrule x0 x1\nx0 0 x1\nend\n",
        ),
        (
            "generate 2",
            ("10", "1"),
            ("linear", "0", "[1,1]"),
            0,
            "gmark: done",
            "\nquery 0 chain linear linear\nrule x0 x1\nx0 ^0 x1\nend\n",
        ),
        (
            "generate 7",
            ("10", "1"),
            ("constant", "0", "[32,32]"),
            0,
            "gmark: done",
            "\nquery 0 chain constant constant\nrule x0 x1\nx0 0.^0.0.^0.0.^0.0.^0.0.^0.0.^0.0.^0.0.^0.0.^0.0.^0.0.^0.0.^0.0.^0.0.^0.0.^0.0.^0 x1\nend\n",
        ),
        (
            "generate 7",
            ("10", "1"),
            ("constant", "0", "[2,2]"),
            0,
            "gmark: done",
            "\nquery 0 chain constant constant\nrule x0 x1\nx0 0.^0 x1\nend\n",
        ),
        (
            "generate 7",
            ("10", "1"),
            ("linear", "500", "[2,2]"),
            7,
            "gmark: query 0: no chain of class linear",
            "",
        ),
        (
            "generate 7",
            ("1000", "5000"),
            ("linear", "500", "[2,2]"),
            7,
            "gmark: query 0: no chain of class linear",
            "",
        ),
        (
            "generate 7",
            ("1000", "5000"),
            ("linear", "0", "[1,1]"),
            8,
            "gmark: constraint 0 out: 5000000 stubs",
            "",
        ),
    ] {
        let text = one_query(alloc, nodes, query)?;
        let left = left_by(alloc, words, text.as_bytes(), 0, 0, 0)?;
        assert_eq!(rt;
            (
                left.outcome.status(),
                left.line.as_str(),
                left.workload.ends_with(end.as_bytes()),
                left.files.is_empty()
            ),
            (status, line, true, end.is_empty())
        );
    }
    Ok(())
}

/// A query of class linear, of words of two symbols along the edges of one label, which lead to a growing type from a
/// fixed one and from itself.
const TWO_EDGES: &str =
    r#"{"nodes":100,"types":[{"name":"a","count":10},{"name":"b","share":1000}],"labels":["p"],"constraints":[{"source":"a","label":"p","target":"b","out":{"kind":"uniform","min":1,"max":1},"in":{"kind":"uniform","min":1,"max":1}},{"source":"b","label":"p","target":"b","out":{"kind":"uniform","min":1,"max":1},"in":{"kind":"uniform","min":1,"max":1}}],"workload":{"queries":1,"shapes":["chain"],"classes":["linear"],"star":0,"rules":[1,1],"conjuncts":[1,1],"disjuncts":[1,1],"length":[2,2]}}"#;

/// A starred query of class quadratic over equal edges, of which each value is linear.
const EQUAL_EDGES: &str =
    r#"{"nodes":100,"types":[{"name":"b","share":1000}],"labels":["p"],"constraints":[{"source":"b","label":"p","target":"b","out":{"kind":"uniform","min":1,"max":1},"in":{"kind":"uniform","min":1,"max":1}}],"workload":{"queries":1,"shapes":["chain"],"classes":["quadratic"],"star":1000,"rules":[1,1],"conjuncts":[1,8],"disjuncts":[1,1],"length":[1,16]}}"#;

#[test]
fn the_wide_class_is_that_of_the_labels(rt: HostRuntime) -> Result<(), Fail> {
    let alloc = rt.alloc();
    for (words, text, line, end) in [
        (
            "generate 3",
            TWO_EDGES,
            "gmark: done",
            "\nquery 0 chain linear linear\nrule x0 x1\nx0 0.1 x1\nend\n",
        ),
        (
            "generate 19",
            TWO_EDGES,
            "gmark: done",
            "\nquery 0 chain linear quadratic\nrule x0 x1\nx0 ^1.1 x1\nend\n",
        ),
        (
            "generate 7",
            EQUAL_EDGES,
            "gmark: query 0: no chain of class quadratic",
            "",
        ),
    ] {
        let left = left_by(alloc, words, text.as_bytes(), 0, 0, 0)?;
        assert_eq!(rt;
            (
                left.line.as_str(),
                left.workload.ends_with(end.as_bytes()),
                left.files.is_empty()
            ),
            (line, true, end.is_empty())
        );
    }
    Ok(())
}

#[test]
fn the_longest_input_is_read(rt: HostRuntime) -> Result<(), Fail> {
    let alloc = rt.alloc();
    for (count, line) in [
        (16_777_216, "gmark: configuration is not JSON"),
        (16_777_217, "gmark: input longer than 16777216 bytes"),
    ] {
        let text = vec![in alloc; b' '; count]?;
        let (outcome, _, calls) = counted(alloc, "generate 1", &text)?;
        assert_eq!(rt; (outcome.line(alloc)?.as_str(), calls), (line, 0));
    }
    Ok(())
}

#[test]
fn a_sample_reads_nothing_and_has_a_summary(rt: HostRuntime) -> Result<(), Fail> {
    let alloc = rt.alloc();
    // The first read of the source would fail.
    for (words, end) in [
        (
            "sample 1",
            "summary.txt: constraint 0 916\nconstraint 1 300\nconstraint 2 162\nconstraint 3 100\nclass constant 3\nclass linear 3\nclass quadratic 4\n",
        ),
        (
            "sample 10",
            "summary.txt: constraint 0 9005\nconstraint 1 3000\nconstraint 2 1461\nconstraint 3 1000\nclass constant 4\nclass linear 4\nclass quadratic 2\n",
        ),
    ] {
        let left = left_by(alloc, words, b"", 1, 0, 0)?;
        let again = left_by(alloc, words, b"", 1, 0, 0)?;
        assert_eq!(rt;
            (
                left.outcome,
                left.count,
                left.files.ends_with(end.as_bytes()),
                left.files == again.files
            ),
            (Outcome::Done, 23, true, true)
        );
    }
    Ok(())
}

#[test]
fn no_words_ask_for_no_command(rt: HostRuntime) -> Result<(), Fail> {
    let mut source = SliceSource::new(LOOP.as_bytes());
    let mut folder = CountFolder::new();
    assert_eq!(rt;
        run(rt.alloc(), &[], &mut source, &mut folder),
        Outcome::Usage
    );
    Ok(())
}
