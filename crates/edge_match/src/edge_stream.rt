//! The edges of one constraint, one after another.

ghost use Rattle.std.specs.Prelude.{◌≡◌, ◌<◌, None, Err, [], ◌∷◌, length, map, All, IfOk, OnOk, MatchOption};
ghost use Rattle.graph_text.specs.EdgesText.{IsInRange};
ghost use Rattle.edge_match.specs.declared.errors.TooManyStubs.{TooManyStubs};
ghost use Rattle.edge_match.specs.ConfigSides.{label_at};
ghost use Rattle.edge_match.specs.DrawnDegrees.{node_degrees};
ghost use Rattle.edge_match.specs.Limit.{first_side_over};
ghost use Rattle.edge_match.specs.Conforming.{Conforms};
ghost use Rattle.edge_match.specs.AllEdges.{AreEdgesOf};

use crate::config_edges::{both_degrees, stubs_at};
use crate::config_sides::{Side, label_of};
use crate::errors::{MatchError, TooManyStubs};
use crate::sides::total_of;
use crate::stubs::first_nodes_by_rank;
use gm_config::Config;
use graph_text::{Edges, Triple};
use std::alloc::{AllocError, Global};
use std::marker::Model;

/// The edges of a constraint that are still to come, in the order of their ranks. It holds the nodes of that
/// constraint's first stubs alone.
#[derive(Drop)]
pub struct EdgeStream {
    sources: Vec<u32>,
    targets: Vec<u32>,
    label: u32,
    next: usize,
}

impl Model for EdgeStream {
    ghost use Rattle.std.specs.Prelude.{List, drop};
    ghost use Rattle.graph_text.specs.declared.graphs.Triple.{Triple};
    ghost use Rattle.edge_match.specs.Matching.{edges_between};

    ghost Value = { List Triple };

    ghost view = { λ stream.
        edges_between stream.label (drop stream.next stream.sources.items) (drop stream.next stream.targets.items) };
}

impl EdgeStream {
    /// The edges of a constraint, as the configuration model joins its stubs: edge `r` goes from the stub of rank
    /// `r` of the out side to the stub of rank `r` of the in side. `c` is the number of the constraint.
    ///
    /// # Errors
    ///
    /// `TooManyStubs` where a side that is not free has more than 4,194,304 stubs, and tells the first such side,
    /// out before in. `NoMemory` where memory runs out.
    pub fn new(alloc: Global, config: &Config, seed: u64, c: u8) -> Result<EdgeStream, MatchError>
        requires { c < length config.now.constraints }
        ensures edges { IfOk result (λ stream. AreEdgesOf config.now seed c stream) }
        ensures in_range { IfOk result (λ stream. All IsInRange stream) }
        ensures within { OnOk result (first_side_over config.now seed c ≡ None) }
        ensures over { (report : TooManyStubs) → result ≡ Err (MatchError.TooManyStubs report)
            → first_side_over config.now seed c ≡ Some report }
    {
        let (out_degrees, in_degrees) = both_degrees(alloc, config, seed, c)?;
        let outs = stubs_at(config, c, Side::Out, out_degrees);
        let ins = stubs_at(config, c, Side::In, in_degrees);
        let wanted = total_of(&outs.degrees).min(total_of(&ins.degrees)) as usize;
        let sources = first_nodes_by_rank(alloc, seed, &outs, wanted)?;
        let targets = first_nodes_by_rank(alloc, seed, &ins, wanted)?;
        Ok(EdgeStream {
            sources,
            targets,
            label: u32::from(label_of(config, c)),
            next: 0,
        })
    }

    /// The number of edges that are still to come.
    pub fn len(&self) -> usize
        ensures { result ≡ length self.now }
    {
        let ends = self.sources.len().min(self.targets.len());
        ends.saturating_sub(self.next)
    }

    /// The next edge. None comes exactly after the last.
    pub fn next_edge(&mut self) -> Option<Triple>
        ensures edge { MatchOption result (self.old ≡ []) (λ edge. self.old ≡ edge ∷ self.new) }
        ensures end { result ≡ None → self.new ≡ [] }
    {
        let Some(source) = self.sources.get(self.next) else {
            return None;
        };
        let Some(target) = self.targets.get(self.next) else {
            return None;
        };
        let edge = Triple {
            src: *source,
            label: self.label,
            trg: *target,
        };
        self.next += 1;
        Some(edge)
    }
}

/// The edges of a constraint in the order of their ranks: all that [`EdgeStream::new`] gives, with its refusals.
pub fn match_edges(alloc: Global, config: &Config, seed: u64, c: u8) -> Result<Edges, MatchError>
    requires { c < length config.now.constraints }
    ensures edges { IfOk result (λ edges. AreEdgesOf config.now seed c edges) }
    ensures conforms { IfOk result (λ edges.
        Conforms (node_degrees config.now seed c Side.Out) (node_degrees config.now seed c Side.In)
        (label_at config.now c) edges) }
    ensures in_range { IfOk result (λ edges. All IsInRange edges) }
    ensures within { OnOk result (first_side_over config.now seed c ≡ None) }
    ensures over { (report : TooManyStubs) → result ≡ Err (MatchError.TooManyStubs report)
        → first_side_over config.now seed c ≡ Some report }
{
    let stream = EdgeStream::new(alloc, config, seed, c)?;
    Ok(Edges::of(collected(alloc, stream)?))
}

/// The edges that are still to come.
fn collected(alloc: Global, mut stream: EdgeStream) -> Result<Vec<Triple>, AllocError>
    ensures { IfOk result (λ edges. edges.items ≡ stream) }
{
    let mut edges = Vec::new(alloc);
    while let Some(edge) = stream.next_edge() {
        edges.push(edge)?;
    }
    Ok(edges)
}
