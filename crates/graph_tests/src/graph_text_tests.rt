use graph_text::{Edges, Graph, GraphError, Pairs, Triple, line_of, read_edges, write_edges};
use std::alloc::{AllocError, Global};
use std::test::Fail;

/// Whether the graph of these triples has a node.
fn has_node(alloc: Global, triples: &[Triple], n: u32) -> Result<bool, AllocError> {
    let graph = Graph::of(triples.to_vec(alloc)?);
    Ok(graph.has_node(n))
}

/// Whether the graph of these triples gives them back.
fn are_given_back(alloc: Global, triples: &[Triple]) -> Result<bool, AllocError> {
    let items = Graph::of(triples.to_vec(alloc)?).into_items();
    Ok(items.as_slice() == triples)
}

#[test]
fn graphs(rt: HostRuntime) -> Result<(), Fail> {
    let alloc = rt.alloc();
    let triples = [
        Triple {
            src: 3,
            label: 0,
            trg: 5,
        },
        Triple {
            src: 5,
            label: 1,
            trg: 8,
        },
    ];
    for (n, expected) in [(3, true), (5, true), (8, true), (0, false), (1, false)] {
        assert_eq!(rt; has_node(alloc, &triples, n)?, expected);
    }
    assert!(rt; are_given_back(alloc, &triples)?);
    Ok(())
}

/// How many pairs a list of three has, the second, and whether all are those that were put there.
fn list_of_three(alloc: Global) -> Result<(usize, (u32, u32), bool), AllocError> {
    let pairs = Pairs::of(vec![in alloc; (0, 1), (0, 2), (1, 0)]?);
    let same = pairs.as_slice() == [(0, 1), (0, 2), (1, 0)].as_slice();
    Ok((pairs.len(), *pairs.at(1), same))
}

#[test]
fn pairs(rt: HostRuntime) -> Result<(), Fail> {
    assert_eq!(rt; list_of_three(rt.alloc())?, (3, (0, 2), true));
    Ok(())
}

/// The first bad line of a text, where it has one.
fn bad_line_of(alloc: Global, text: &[u8]) -> Option<u64> {
    match read_edges(alloc, text) {
        Err(GraphError::BadLine { line }) => Some(line),
        _ => None,
    }
}

#[test]
fn bad_lines(rt: HostRuntime) {
    for (text, line) in [
        (b"0 0 1".as_slice(), 1),
        (b"0 0 1\n00 0 1\n", 2),
        (b"0 64 1\n", 1),
        (b"1000000 0 1\n", 1),
        (b"0 0 1\n0 0  1\n", 2),
        (b"0 0 1\n\n0 0 1\n", 2),
        (b"0 0 1 \n", 1),
    ] {
        assert_eq!(rt; bad_line_of(rt.alloc(), text), Some(line));
    }
}

/// Whether a text is read as these triples.
fn is_read_as(alloc: Global, text: &[u8], triples: &[Triple]) -> Result<bool, GraphError> {
    let graph = read_edges(alloc, text)?;
    Ok(graph.as_slice() == triples)
}

/// Whether what a text is read as makes these bytes, when it is appended to the bytes before.
fn is_written_back(
    alloc: Global,
    before: &[u8],
    text: &[u8],
    after: &[u8],
) -> Result<bool, GraphError> {
    let edges = Edges::of(read_edges(alloc, text)?.into_items());
    let mut out = before.to_vec(alloc)?;
    write_edges(alloc, &mut out, &edges)?;
    Ok(out.as_slice() == after)
}

#[test]
fn texts(rt: HostRuntime) -> Result<(), Fail> {
    let alloc = rt.alloc();
    let text = b"3 0 5\n0 63 999999\n";
    let triples = [
        Triple {
            src: 3,
            label: 0,
            trg: 5,
        },
        Triple {
            src: 0,
            label: 63,
            trg: 999_999,
        },
    ];
    assert!(rt; is_read_as(alloc, b"", &[])?);
    assert!(rt; is_read_as(alloc, text, &triples)?);
    assert!(rt; is_written_back(alloc, b"x", text, b"x3 0 5\n0 63 999999\n")?);
    Ok(())
}

#[test]
fn lines_of_triples(rt: HostRuntime) {
    let short = Triple {
        src: 0,
        label: 0,
        trg: 7,
    };
    let long = Triple {
        src: 999_999,
        label: 63,
        trg: 999_998,
    };
    assert_eq!(rt; line_of(short).bytes(), b"0 0 7\n".as_slice());
    assert_eq!(rt; line_of(long).bytes(), b"999999 63 999998\n".as_slice());
}
