//! The relations of a predicate and of an inverse.

ghost use Rattle.std.specs.Prelude.{◌≡◌, slice_get};
ghost use Rattle.sparql_mean.specs.Tables.{is_name, leads, is_edge, has_back};

use gm_text::Names;
use graph_text::Triple;
use node_tables::{Relation, has};

/// Two numbers between which an edge leads whose label has the name.
#[derive(Drop)]
pub(crate) struct Named<'a> {
    pub(crate) labels: &'a Names,
    pub(crate) graph: &'a [Triple],
    pub(crate) name: &'a [u8],
}

impl<'a> Relation for Named<'a> {
    ghost relates = { λ s. is_edge s.labels.now s.name.now s.graph.now };

    fn relates(&self, a: u32, b: u32) -> bool {
        is_edge(self.labels, self.name, self.graph, a, b)
    }
}

fn is_edge(labels: &Names, name: &[u8], graph: &[Triple], a: u32, b: u32) -> bool
    ensures { result ≡ is_edge labels.now name.now graph.now a b }
{
    graph.iter().any(|triple| leads(triple, labels, name, a, b))
}

fn leads(triple: &Triple, labels: &Names, name: &[u8], a: u32, b: u32) -> bool
    ensures { result ≡ leads labels.now name.now a b triple.now }
{
    has_name(labels, triple.label, name) && triple.src == a && triple.trg == b
}

/// Whether a label has this name.
fn has_name(labels: &Names, label: u32, name: &[u8]) -> bool
    ensures { result ≡ is_name (slice_get labels.now label) name.now }
{
    match labels.as_slice().get(label as usize) {
        Some(own) => own.as_slice() == name,
        None => false,
    }
}

/// A pair of a list, from its end to its beginning.
#[derive(Drop)]
pub(crate) struct Back<'a> {
    pub(crate) pairs: &'a [(u32, u32)],
}

impl<'a> Relation for Back<'a> {
    ghost relates = { λ s. has_back s.pairs.now };

    fn relates(&self, a: u32, b: u32) -> bool {
        has(self.pairs, b, a)
    }
}
