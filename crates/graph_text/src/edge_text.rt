//! The text of a list of triples, written and read.

ghost use Rattle.std.specs.Prelude.{◌≡◌, ◌≤◌, ◌⊎◌, ℕ, List, [], ◌∷◌, ◌++◌, decimal, All, IfOk, OnOk, OnErr, IsErrOf, MatchOption, MatchResult};
ghost use Rattle.gm_text.specs.Lines.{words_of};
ghost use Rattle.graph_text.specs.declared.graphs.Triple.{Triple};
ghost use Rattle.graph_text.specs.EdgesText.{IsInRange, edge_words, edge_line, edges_text, IsReading, IsLineOf, IsEdgeLine, IsFirstBadLine, AppendsPart};

use crate::graphs::{Graph, Triple};
use gm_text::{Decimal, Items, Line, Scan, Words, read_decimal, write_decimal};
use std::alloc::{AllocError, Global};
use thiserror::Error;

/// The greatest number of a node in a text.
pub const NODE_MOST: u32 = 999_999;

/// The greatest number of a label in a text.
pub const LABEL_MOST: u32 = 63;

/// A list of triples.
pub type Edges = Items<Triple>;

/// Why a text gives no graph.
#[derive(Debug, Drop, Error)]
pub enum GraphError {
    /// This line, counted from 1, is the first that isn't the line of a triple.
    #[error("line {line} is not an edge")]
    BadLine {
        /// The number of the line.
        line: u64,
    },
    /// Memory ran out.
    #[error("out of memory")]
    NoMemory,
}

impl From<AllocError> for GraphError {
    ghost use Rattle.graph_text.specs.declared.edge_text.GraphError.TheVariants.{NoMemory};

    ghost from_gives = { λ _ error. error ≡ NoMemory };

    fn from(_: AllocError) -> Self {
        GraphError::NoMemory
    }
}

/// Appends a line for each triple: the decimals of its source, its label and its target with one space between, then
/// LF. Sources and targets are at most 999,999, and labels at most 63.
///
/// # Errors
///
/// `AllocError` where memory runs out, and then a prefix of the text has been appended.
pub fn write_edges(alloc: Global, out: &mut Vec<u8>, edges: &Edges) -> Result<(), AllocError>
    requires { All IsInRange edges.now }
    ensures ok { OnOk result (out.new.items ≡ out.old.items ++ edges_text edges.now) }
    ensures err { OnErr result (AppendsPart out.old.items out.new.items (edges_text edges.now)) }
{
    for edge in edges.as_slice() {
        write_edge(alloc, out, edge)?;
    }
    Ok(())
}

/// Reads the graph whose text, as `write_edges` writes it, these bytes are. The empty text is the empty graph.
///
/// # Errors
///
/// `BadLine` names the first line that isn't the line of a triple: no LF ends it, or a number has a leading zero or is
/// too large, or anything else stands in it. `NoMemory` comes where memory runs out.
pub fn read_edges(alloc: Global, bytes: &[u8]) -> Result<Graph, GraphError>
    ensures graph { IfOk result (IsReading bytes.now) }
    ensures every_graph { (triples : List Triple) → IsReading bytes.now triples
        → MatchResult result (λ graph. graph ≡ triples) (λ error. error ≡ GraphError.NoMemory) }
    ensures bad_line { (n : ℕ) → IsErrOf result (GraphError.BadLine n) → IsFirstBadLine bytes.now n }
    ensures every_bad_line { (n : ℕ) → IsFirstBadLine bytes.now n
        → IsErrOf result (GraphError.BadLine n) ⊎ IsErrOf result GraphError.NoMemory }
{
    let mut triples = Vec::new(alloc);
    let mut scan = Scan::new(bytes);
    while let Some(line) = scan.next_line() {
        let Some(triple) = read_line(&line) else {
            return Err(GraphError::BadLine {
                line: triples.len() as u64 + 1,
            });
        };
        triples.push(triple).map_err(AllocError::from)?;
    }
    Ok(Graph::new(triples))
}

/// Appends the line of a triple.
fn write_edge(alloc: Global, out: &mut Vec<u8>, edge: &Triple) -> Result<(), AllocError>
    ensures ok { OnOk result (out.new.items ≡ out.old.items ++ edge_line edge.now) }
    ensures err { OnErr result (AppendsPart out.old.items out.new.items (edge_line edge.now)) }
{
    write_number(alloc, out, edge.src, b' ')?;
    write_number(alloc, out, edge.label, b' ')?;
    write_number(alloc, out, edge.trg, b'\n')
}

/// Appends the decimal of a number, and the byte that stands after it.
fn write_number(alloc: Global, out: &mut Vec<u8>, n: u32, end: u8) -> Result<(), AllocError>
    ensures ok { OnOk result (out.new.items ≡ out.old.items ++ (decimal n ++ end ∷ [])) }
    ensures err { OnErr result (AppendsPart out.old.items out.new.items (decimal n ++ end ∷ [])) }
{
    write_decimal(alloc, out, n.into())?;
    out.push(end)?;
    Ok(())
}

/// The triple whose line this is.
fn read_line(line: &Line<'_>) -> Option<Triple>
    ensures { MatchOption result
        (¬ IsEdgeLine (line.now.bytes.now, line.now.ended))
        (IsLineOf (line.now.bytes.now, line.now.ended)) }
{
    if !line.ended {
        return None;
    }
    read_triple(line.bytes)
}

/// The triple in range whose words these bytes have.
fn read_triple(bytes: &[u8]) -> Option<Triple>
    ensures { MatchOption result
        ((triple : Triple) → IsInRange triple → words_of bytes.now ≡ edge_words triple → ⊥)
        (λ triple. IsInRange triple × (words_of bytes.now ≡ edge_words triple)) }
{
    let mut words = Words::new(bytes);
    let Some(src) = next_number(&mut words, NODE_MOST) else {
        return None;
    };
    let Some(label) = next_number(&mut words, LABEL_MOST) else {
        return None;
    };
    let Some(trg) = next_number(&mut words, NODE_MOST) else {
        return None;
    };
    if words.next_word().is_some() {
        return None;
    }
    Some(Triple { src, label, trg })
}

/// Takes the next word, which is the decimal of this number.
fn next_number(words: &mut Words<'_>, most: u32) -> Option<u32>
    ensures { MatchOption result
        ((n : ℕ) (rest : List (List ℕ)) → n ≤ most → words.old ≡ decimal n ∷ rest → ⊥)
        (λ n. (n ≤ most) × (words.old ≡ decimal n ∷ words.new)) }
{
    let Some(word) = words.next_word() else {
        return None;
    };
    read_number(word, most)
}

/// The number of which the word is the decimal, where it is at most `most`.
fn read_number(word: &[u8], most: u32) -> Option<u32>
    ensures { MatchOption result
        ((n : ℕ) → n ≤ most → word.now ≡ decimal n → ⊥)
        (λ n. (n ≤ most) × (word.now ≡ decimal n)) }
{
    match read_decimal(word) {
        Decimal::Value(n) if n <= most as u64 => Some(n as u32),
        _ => None,
    }
}
