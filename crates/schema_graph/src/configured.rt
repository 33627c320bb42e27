//! The kinds and the edges of a configuration.

ghost use Rattle.std.specs.Prelude.{◌≡◌, ◌<◌, length, IfOk};
ghost use Rattle.schema_graph.specs.Schema.{IsSchema};
ghost use Rattle.schema_graph.specs.Configured.{kind_of, kinds_of, is_zipf, growing_operator, edge_of, edges_of, schema_of};

use crate::edge::SchemaEdge;
use gm_config::{Amount, Config, Constraint, DegreeSpec, NodeType};
use sel_algebra::{Kind, Op, normal};
use std::alloc::{AllocError, Global};

/// The kinds of the types.
pub(crate) fn kinds_of(alloc: Global, config: &Config) -> Result<Vec<Kind>, AllocError>
    ensures { IfOk result (λ kinds. kinds.items ≡ kinds_of config.now) }
{
    let mut kinds = Vec::new(alloc);
    for t in 0..config.type_count() {
        kinds.push(kind_of(config.node_type(t)))?;
    }
    Ok(kinds)
}

/// The edges of the constraints, between types of these kinds.
pub(crate) fn edges_of(
    alloc: Global,
    config: &Config,
    kinds: &[Kind],
) -> Result<Vec<SchemaEdge>, AllocError>
    requires { kinds.now ≡ kinds_of config.now }
    ensures edges { IfOk result (λ edges. edges.items ≡ edges_of config.now) }
    ensures schema { IsSchema (schema_of config.now) }
{
    let mut edges = Vec::new(alloc);
    for c in 0..config.constraint_count() {
        edges.push(edge_of(kinds, config.constraint(c)))?;
    }
    Ok(edges)
}

/// The kind of a type: with a share of the nodes it grows, with a number of nodes it doesn't.
fn kind_of(node_type: &NodeType) -> Kind
    ensures { result ≡ kind_of node_type.now }
{
    match node_type.amount {
        Amount::Share(_) => Kind::Growing,
        Amount::Count(_) => Kind::Fixed,
    }
}

/// The edge of a constraint, between types of these kinds.
fn edge_of(kinds: &[Kind], constraint: &Constraint) -> SchemaEdge
    requires source { constraint.now.source < length kinds.now }
    requires target { constraint.now.target < length kinds.now }
    ensures { result ≡ edge_of kinds.now constraint.now }
{
    let Constraint {
        source,
        label,
        target,
        out_spec,
        in_spec,
    } = constraint;
    let op = growing_operator(is_zipf(out_spec), is_zipf(in_spec));
    SchemaEdge {
        source: *source,
        label: *label,
        target: *target,
        op: normal(op, kinds[*source as usize], kinds[*target as usize]),
    }
}

/// The operator of a constraint between growing types, by whether its sides are `zipf`.
fn growing_operator(out_is_zipf: bool, in_is_zipf: bool) -> Op
    ensures { result ≡ growing_operator out_is_zipf in_is_zipf }
{
    match (out_is_zipf, in_is_zipf) {
        (false, false) => Op::Equal,
        (true, false) => Op::Less,
        (false, true) => Op::Greater,
        (true, true) => Op::Diamond,
    }
}

/// Whether the degrees of a side are `zipf`.
fn is_zipf(spec: &DegreeSpec) -> bool
    ensures { result ≡ is_zipf spec.now }
{
    matches!(spec, DegreeSpec::Zipf { .. })
}
