//! The line of one triple, in memory of its own.

ghost use Rattle.std.specs.Prelude.{◌≡◌, ◌≤◌, length};
ghost use Rattle.graph_text.specs.EdgesText.{IsInRange, line_most, edge_line};

use crate::graphs::Triple;
use gm_text::BackwardText;
use std::marker::Model;

/// The room of a line: three numbers of ten digits, and three bytes.
const LINE_ROOM: usize = 33;

/// The line of a triple: the decimals of its source, its label and its target with one space between, then LF.
#[derive(Drop)]
pub struct EdgeLine {
    bytes: BackwardText<LINE_ROOM>,
}

impl Model for EdgeLine {
    ghost use Rattle.std.specs.Prelude.{◌≤◌, ℕ, List, length};
    ghost use Rattle.graph_text.specs.EdgesText.{line_most};

    ghost Value = { List ℕ };

    ghost view = { λ line. line.bytes };

    ghost invariant = { λ line. length line.bytes ≤ line_most };
}

impl EdgeLine {
    /// Its bytes, at most 17.
    #[inline(always)]
    pub fn bytes(&self) -> &[u8]
        ensures bytes { result.now ≡ self.now }
        ensures short { length result.now ≤ line_most }
    {
        self.bytes.as_slice()
    }
}

/// The line of a triple whose source and target are at most 999,999, and whose label is at most 63.
#[inline(always)]
pub fn line_of(t: Triple) -> EdgeLine
    requires { IsInRange t }
    ensures { result ≡ edge_line t }
{
    let mut bytes = BackwardText::new();
    bytes.end_with(b"\n");
    bytes.put_number(t.trg);
    bytes.put(b" ");
    bytes.put_number(t.label);
    bytes.put(b" ");
    bytes.put_number(t.src);
    EdgeLine { bytes }
}
