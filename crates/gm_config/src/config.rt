//! A configuration, and the nodes of its types.

ghost use Rattle.std.specs.Prelude.{◌≡◌, ◌+◌, ◌<◌, ◌≤◌, length, slice_get, slice_index, sum_by, All, Some};
ghost use Rattle.gm_config.specs.Limits.{nodes_most};
ghost use Rattle.gm_config.specs.TypeRules.{node_count};
ghost use Rattle.gm_config.specs.Config.{config_value, IsConfig, IsAmount, node_counts, first_node};

use crate::type_rules::node_count;
use crate::values::{Constraint, NodeType};
use crate::workload_rules::Workload;
use gm_text::Name;
use std::marker::Model;

/// The configuration of a graph and of its queries. It keeps all rules but the one on the members of the
/// value that it was read from.
#[derive(Drop)]
pub struct Config {
    nodes: u32,
    types: Vec<NodeType>,
    labels: Vec<Name>,
    constraints: Vec<Constraint>,
    workload: Workload,
}

impl Model for Config {
    ghost use Rattle.gm_config.specs.Config.{ConfigValue, IsConfig, config_value};

    ghost Value = { ConfigValue };

    ghost view = { λ c. config_value c.nodes c.types.items c.labels.items c.constraints.items c.workload };

    ghost invariant = { λ c. IsConfig (config_value c.nodes c.types.items c.labels.items c.constraints.items c.workload) };
}

impl Config {
    /// The configuration of these parts.
    pub(crate) fn of(
        nodes: u32,
        types: Vec<NodeType>,
        labels: Vec<Name>,
        constraints: Vec<Constraint>,
        workload: Workload,
    ) -> Config
        requires { IsConfig (config_value nodes types.items labels.items constraints.items workload) }
        ensures { result ≡ config_value nodes types.items labels.items constraints.items workload }
    {
        Config {
            nodes,
            types,
            labels,
            constraints,
            workload,
        }
    }

    /// The configuration with another number of nodes asked for.
    pub(crate) fn with_nodes(self, nodes: u32) -> Config
        requires { IsConfig record self { nodes = nodes } }
        ensures { result ≡ record self { nodes = nodes } }
    {
        Config { nodes, ..self }
    }

    /// The number of its types, from 1 to 64.
    pub fn type_count(&self) -> u8
        ensures count { result ≡ length self.now.types }
        ensures config { IsConfig self.now }
    {
        self.types.len() as u8
    }

    /// The number of its labels, from 1 to 64.
    pub fn label_count(&self) -> u8
        ensures count { result ≡ length self.now.labels }
        ensures config { IsConfig self.now }
    {
        self.labels.len() as u8
    }

    /// The number of its constraints, from 1 to 128.
    pub fn constraint_count(&self) -> u8
        ensures count { result ≡ length self.now.constraints }
        ensures config { IsConfig self.now }
    {
        self.constraints.len() as u8
    }

    /// What is asked of the queries.
    pub fn workload(&self) -> &Workload
        ensures workload { result.now ≡ self.now.workload }
        ensures config { IsConfig self.now }
    {
        &self.workload
    }

    /// The type with a number.
    pub fn node_type(&self, t: u8) -> &NodeType
        requires { t < length self.now.types }
        ensures node_type { slice_get self.now.types t ≡ Some result.now }
        ensures config { IsConfig self.now }
    {
        &self.types[t as usize]
    }

    /// The label with a number.
    pub fn label(&self, l: u8) -> &Name
        requires { l < length self.now.labels }
        ensures label { slice_get self.now.labels l ≡ Some result.now }
        ensures config { IsConfig self.now }
    {
        &self.labels[l as usize]
    }

    /// The constraint with a number.
    pub fn constraint(&self, c: u8) -> &Constraint
        requires { c < length self.now.constraints }
        ensures constraint { slice_get self.now.constraints c ≡ Some result.now }
        ensures config { IsConfig self.now }
    {
        &self.constraints[c as usize]
    }

    /// The number of nodes of a type.
    pub fn node_count(&self, t: u8) -> u32
        requires { t < length self.now.types }
        ensures count { result ≡ slice_index (node_counts self.now) t }
        ensures within { first_node self.now t + slice_index (node_counts self.now) t ≤ nodes_most }
    {
        node_count(self.nodes, self.types[t as usize].amount)
    }

    /// The number of the first node of a type: all nodes of the earlier types come before.
    pub fn first_node(&self, t: u8) -> u32
        requires { t < length self.now.types }
        ensures first { result ≡ first_node self.now t }
        ensures within { first_node self.now t + slice_index (node_counts self.now) t ≤ nodes_most }
    {
        all_nodes(self.nodes, &self.types[..t as usize])
    }
}

/// The number of nodes of some types.
fn all_nodes(nodes: u32, types: &[NodeType]) -> u32
    requires nodes { nodes ≤ nodes_most }
    requires amounts { All (λ t. IsAmount t.amount) types.now }
    requires few { sum_by (λ t. node_count nodes t.amount) types.now ≤ nodes_most }
    ensures { result ≡ sum_by (λ t. node_count nodes t.amount) types.now }
{
    let mut total = 0;
    for node_type in types {
        total += node_count(nodes, node_type.amount);
    }
    total
}
