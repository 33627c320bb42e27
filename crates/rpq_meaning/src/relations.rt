//! The edges of a label.

ghost use Rattle.std.specs.Prelude.{◌≡◌, false};
ghost use Rattle.rpq_meaning.specs.Tables.{leads, is_step};

use graph_text::Triple;
use node_tables::Relation;

/// Two numbers between which an edge with the label leads, or the other way.
#[derive(Drop)]
pub(crate) struct Step<'a> {
    pub(crate) graph: &'a [Triple],
    pub(crate) label: u8,
    pub(crate) back: bool,
}

impl<'a> Relation for Step<'a> {
    ghost relates = { λ s. is_step s.graph.now s.label s.back };

    fn relates(&self, a: u32, b: u32) -> bool {
        if self.back {
            has_edge(self.graph, self.label, b, a)
        } else {
            has_edge(self.graph, self.label, a, b)
        }
    }
}

/// Whether an edge with the label leads from one number to the other.
fn has_edge(graph: &[Triple], label: u8, a: u32, b: u32) -> bool
    ensures { result ≡ is_step graph.now label false a b }
{
    graph.iter().any(|triple| leads(triple, label, a, b))
}

fn leads(triple: &Triple, label: u8, a: u32, b: u32) -> bool
    ensures { result ≡ leads label a b triple.now }
{
    triple.label == label as u32 && triple.src == a && triple.trg == b
}
