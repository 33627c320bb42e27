ghost use Rattle.std.specs.Prelude.{◌≡◌, ◌↔◌, ◌⊎◌, ◌<◌, ℕ, List, [], length, slice_get, Some, IsTrue};
ghost use Rattle.graph_text.specs.Graph.{IsNode};

use std::marker::Model;

/// An edge from one node to another, with its label.
#[derive(Clone, Copy, Debug, PartialEq, Eq)]
pub struct Triple {
    /// The number of the node where the edge begins.
    pub src: u32,
    /// The number of the label.
    pub label: u32,
    /// The number of the node where the edge ends.
    pub trg: u32,
}

/// A graph: a list of triples, in which equal triples may stand more than once.
#[derive(Drop)]
pub struct Graph {
    triples: Vec<Triple>,
}

impl Model for Graph {
    ghost use Rattle.std.specs.Prelude.{List};
    ghost use Rattle.graph_text.specs.declared.graphs.Triple.{Triple};

    ghost Value = { List Triple };

    ghost view = { λ graph. graph.triples.items };
}

impl Graph {
    /// A graph of these triples, with no memory taken.
    pub fn new(triples: Vec<Triple>) -> Self
        ensures { result ≡ triples.items }
    {
        Graph { triples }
    }

    /// A graph of these items, as [`Graph::new`].
    pub fn of(items: Vec<Triple>) -> Self
        ensures { result ≡ items.items }
    {
        Graph::new(items)
    }

    /// The number of triples.
    pub fn len(&self) -> usize
        ensures { result ≡ length self.now }
    {
        self.triples.len()
    }

    /// Whether there are no triples.
    pub fn is_empty(&self) -> bool
        ensures { IsTrue result ↔ (self.now ≡ []) }
    {
        self.triples.is_empty()
    }

    /// The triple at an index.
    pub fn at(&self, index: usize) -> &Triple
        requires { index < length self.now }
        ensures { slice_get self.now index ≡ Some result.now }
    {
        &self.triples[index]
    }

    /// All triples.
    pub fn as_slice(&self) -> &[Triple]
        ensures { result.now ≡ self.now }
    {
        &self.triples
    }

    /// The triples as a vector, with no memory taken.
    pub fn into_items(self) -> Vec<Triple>
        ensures { result.items ≡ self }
    {
        self.triples
    }

    /// Whether a number is a node: whether it is an end of some triple.
    pub fn has_node(&self, n: u32) -> bool
        ensures { IsTrue result ↔ IsNode self.now n }
    {
        has_end(&self.triples, n)
    }
}

// Whether a number is an end of some triple.
fn has_end(triples: &[Triple], n: u32) -> bool
    ensures { IsTrue result ↔ IsNode triples.now n }
{
    triples.iter().any(|triple| is_end(triple, n))
}

// Whether a number is an end of a triple.
fn is_end(triple: &Triple, n: u32) -> bool
    ensures { IsTrue result ↔ ((triple.now.src ≡ n) ⊎ (triple.now.trg ≡ n)) }
{
    triple.src == n || triple.trg == n
}
