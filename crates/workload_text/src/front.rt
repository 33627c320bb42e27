//! The head of a workload text that is being read.

ghost use Rattle.std.specs.Prelude.{◌≡◌, ◌<◌, ◌≤◌, ◌&&◌, true, ℕ, List, nat_lt, [], ◌∷◌, ◌++◌, length, not, false, MatchOption, IfOk};
ghost use Rattle.std.specs.Str.{bytes_eq};
ghost use Rattle.std.specs.List.{list_any};
ghost use Rattle.gm_text.specs.Name.{IsName};
ghost use Rattle.gm_text.specs.Decimal.{IsCanonical};
ghost use Rattle.sel_algebra.specs.Table.{kind_at};
ghost use Rattle.workload_text.specs.Forms.{are_numbers};
ghost use Rattle.workload_text.specs.Sofar.{number, no_head, with_type, with_edge};
ghost use Rattle.workload_text.specs.Rules.{is_new_name, is_new_edge, is_at, is_normal_at, same_op};
ghost use Rattle.workload_text.specs.Front.{front_view, IsFront};

use crate::numbers::number_below;
use crate::sorts::is_word;
use gm_text::Name;
use schema_graph::{EDGES_MOST, SchemaEdge};
use sel_algebra::{Kind, Op, normal};
use std::alloc::{AllocError, Global};

/// The most labels, and the most types.
const NAMES_MOST: usize = 64;

/// A head, as far as its lines were read.
#[derive(Drop)]
pub(crate) struct Front {
    pub(crate) format: u8,
    pub(crate) labels: Vec<Name>,
    pub(crate) types: Vec<Name>,
    pub(crate) kinds: Vec<Kind>,
    pub(crate) edges: Vec<SchemaEdge>,
    /// The label of each edge.
    pub(crate) edge_labels: Vec<u8>,
}

impl Front {
    /// No line of it.
    pub(crate) fn new(alloc: Global) -> Front
        ensures usable { IsFront result }
        ensures value { front_view result ≡ no_head }
    {
        Front {
            format: 0,
            labels: Vec::new(alloc),
            types: Vec::new(alloc),
            kinds: Vec::new(alloc),
            edges: Vec::new(alloc),
            edge_labels: Vec::new(alloc),
        }
    }

    /// Takes the name of the next label. It is refused where there are too many, or one has the name.
    pub(crate) fn label(&mut self, alloc: Global, name: &[u8]) -> Result<bool, AllocError>
        requires usable { IsFront self.old }
        requires name { IsName name.now }
        ensures new { IfOk result (λ new. new ≡ is_new_name name.now (front_view self.old).labels) }
        ensures usable { IfOk result (λ new. new ≡ true → IsFront self.new) }
        ensures value { IfOk result (λ new. new ≡ true
            → front_view self.new ≡ record (front_view self.old) { labels = (front_view self.old).labels ++ name.now ∷ [] }) }
    {
        if !is_new_name(name, &self.labels) {
            return Ok(false);
        }
        self.labels.push(Name::of(name.to_vec(alloc)?))?;
        Ok(true)
    }

    /// Takes the name and the kind of the next type. It is refused where there are too many, or one has the name.
    pub(crate) fn node_type(
        &mut self,
        alloc: Global,
        name: &[u8],
        kind: Kind,
    ) -> Result<bool, AllocError>
        requires usable { IsFront self.old }
        requires name { IsName name.now }
        ensures new { IfOk result (λ new. new ≡ is_new_name name.now (front_view self.old).types) }
        ensures usable { IfOk result (λ new. new ≡ true → IsFront self.new) }
        ensures value { IfOk result (λ new. new ≡ true → front_view self.new ≡ with_type (front_view self.old) name.now kind) }
    {
        if !is_new_name(name, &self.types) {
            return Ok(false);
        }
        self.types.push(Name::of(name.to_vec(alloc)?))?;
        self.kinds.push(kind)?;
        Ok(true)
    }

    /// Takes the next edge. It is refused where its numbers name none, an edge has them, or its operator isn't normal.
    pub(crate) fn edge(
        &mut self,
        source: &[u8],
        label: &[u8],
        target: &[u8],
        op: Op,
    ) -> Result<bool, AllocError>
        requires usable { IsFront self.old }
        requires numbers { are_numbers source.now label.now target.now ≡ true }
        ensures new { IfOk result (λ new. new ≡ is_new_edge (length (front_view self.old).labels) (front_view self.old).schema.kinds (front_view self.old).schema.edges
            (record { source = number source.now; label = number label.now; target = number target.now; op = op })) }
        ensures usable { IfOk result (λ new. new ≡ true → IsFront self.new) }
        ensures value { IfOk result (λ new. new ≡ true
            → front_view self.new ≡ with_edge (front_view self.old) (record { source = number source.now; label = number label.now; target = number target.now; op = op })) }
    {
        let Some(edge) = self.new_edge(source, label, target, op) else {
            return Ok(false);
        };
        self.edges.push(edge)?;
        self.edge_labels.push(edge.label)?;
        Ok(true)
    }

    /// The edge, where it may be the next.
    fn new_edge(&self, source: &[u8], label: &[u8], target: &[u8], op: Op) -> Option<SchemaEdge>
        requires usable { IsFront self.now }
        requires numbers { are_numbers source.now label.now target.now ≡ true }
        ensures { MatchOption result
            (is_new_edge (length (front_view self.now).labels) (front_view self.now).schema.kinds (front_view self.now).schema.edges
            (record { source = number source.now; label = number label.now; target = number target.now; op = op }) ≡ false)
            (λ edge. (is_new_edge (length (front_view self.now).labels) (front_view self.now).schema.kinds (front_view self.now).schema.edges edge ≡ true)
            × (edge ≡ record { source = number source.now; label = number label.now; target = number target.now; op = op })) }
    {
        let Some(source) = number_below(source, self.kinds.len() as u8) else {
            return None;
        };
        let Some(label) = number_below(label, self.labels.len() as u8) else {
            return None;
        };
        let Some(target) = number_below(target, self.kinds.len() as u8) else {
            return None;
        };
        let edge = SchemaEdge {
            source,
            label,
            target,
            op,
        };
        if !is_new_edge(&self.kinds, &self.edges, edge) {
            return None;
        }
        Some(edge)
    }
}

/// Whether there may be one name more, and none of these is the name.
fn is_new_name(name: &[u8], names: &[Name]) -> bool
    ensures { result ≡ is_new_name name.now names.now }
{
    names.len() < NAMES_MOST && !has_name(name, names)
}

/// Whether one of the names has these bytes.
fn has_name(name: &[u8], names: &[Name]) -> bool
    ensures { result ≡ list_any (bytes_eq name.now) names.now }
{
    names.iter().any(|other| is_word(name, other.as_slice()))
}

/// Whether there may be one edge more, none of these has its ends and its label, and its operator is normal.
fn is_new_edge(kinds: &[Kind], edges: &[SchemaEdge], edge: SchemaEdge) -> bool
    requires source { edge.source < length kinds.now }
    requires target { edge.target < length kinds.now }
    ensures { result ≡ (nat_lt (length edges.now) 128 && not (list_any (is_at edge.source edge.label edge.target) edges.now) && is_normal_at kinds.now edge.source edge.target edge.op) }
{
    edges.len() < EDGES_MOST && !has_edge(edges, edge) && is_normal(kinds, edge)
}

/// Whether one of the edges has the ends and the label of this one.
fn has_edge(edges: &[SchemaEdge], edge: SchemaEdge) -> bool
    ensures { result ≡ list_any (is_at edge.source edge.label edge.target) edges.now }
{
    edges
        .iter()
        .any(|other| is_at(other, edge.source, edge.label, edge.target))
}

/// Whether the edge has these ends and this label.
fn is_at(edge: &SchemaEdge, source: u8, label: u8, target: u8) -> bool
    ensures { result ≡ is_at source label target edge.now }
{
    edge.source == source && edge.label == label && edge.target == target
}

/// Whether the operator of the edge is normal for the kinds of its ends.
fn is_normal(kinds: &[Kind], edge: SchemaEdge) -> bool
    requires source { edge.source < length kinds.now }
    requires target { edge.target < length kinds.now }
    ensures { result ≡ is_normal_at kinds.now edge.source edge.target edge.op }
{
    is_same_op(
        normal(
            edge.op,
            kinds[edge.source as usize],
            kinds[edge.target as usize],
        ),
        edge.op,
    )
}

/// Whether the operators are the same.
fn is_same_op(a: Op, b: Op) -> bool
    ensures { result ≡ same_op a b }
{
    a == b
}
