//! The two sides of a constraint of a configuration: their specifications and their nodes.

ghost use Rattle.std.specs.Prelude.{◌≡◌, ◌+◌, ◌<◌, ◌≤◌, true, false, length};
ghost use Rattle.gm_config.specs.Limits.{nodes_most};
ghost use Rattle.gm_config.specs.DegreeSpec.{IsDegreeSpec};
ghost use Rattle.gm_config.specs.Config.{IsConfig};
ghost use Rattle.edge_match.specs.ConfigSides.{opposite, constraint_at, label_at, side_spec, is_free, side_type, side_first, side_count};
ghost use Rattle.edge_match.specs.DrawnDegrees.{degree_tag, key_tag, pick_tag};

use gm_config::{Config, DegreeSpec};

/// A side of a constraint.
#[derive(Clone, Copy, Debug, PartialEq, Eq)]
pub enum Side {
    /// The side of the nodes of the source type, which the edges leave.
    Out,
    /// The side of the nodes of the target type, to which the edges come.
    In,
}

impl Side {
    /// The other side.
    pub fn opposite(self) -> Side
        ensures { result ≡ opposite self }
    {
        match self {
            Side::Out => Side::In,
            Side::In => Side::Out,
        }
    }

    /// The tag of the streams that degrees are drawn from.
    pub(crate) fn degree_tag(self) -> u8
        ensures { result ≡ degree_tag self }
    {
        match self {
            Side::Out => 1,
            Side::In => 2,
        }
    }

    /// The tag of the streams that the keys of stubs are drawn from.
    pub(crate) fn key_tag(self) -> u8
        ensures { result ≡ key_tag self }
    {
        match self {
            Side::Out => 3,
            Side::In => 4,
        }
    }

    /// The tag of the streams from which the stubs of a free side pick their nodes.
    pub(crate) fn pick_tag(self) -> u8
        ensures { result ≡ pick_tag self }
    {
        match self {
            Side::Out => 5,
            Side::In => 6,
        }
    }
}

/// Whether the degrees at a side of a constraint are free. `c` is the number of the constraint.
pub fn is_free(config: &Config, c: u8, side: Side) -> bool
    requires { c < length config.now.constraints }
    ensures free { result ≡ is_free config.now c side }
    ensures one { result ≡ true → is_free config.now c (opposite side) ≡ false }
{
    matches!(spec_of(config, c, side), DegreeSpec::Free)
}

/// The degree specification of a side.
pub(crate) fn spec_of(config: &Config, c: u8, side: Side) -> &DegreeSpec
    requires { c < length config.now.constraints }
    ensures spec { result.now ≡ side_spec config.now c side }
    ensures limits { IsDegreeSpec result.now }
    ensures config { IsConfig config.now }
{
    let constraint = config.constraint(c);
    match side {
        Side::Out => &constraint.out_spec,
        Side::In => &constraint.in_spec,
    }
}

/// The number of the label of a constraint.
pub(crate) fn label_of(config: &Config, c: u8) -> u8
    requires { c < length config.now.constraints }
    ensures label { result ≡ label_at config.now c }
    ensures config { IsConfig config.now }
{
    config.constraint(c).label
}

/// The type of the nodes of a side.
fn type_of(config: &Config, c: u8, side: Side) -> u8
    requires { c < length config.now.constraints }
    ensures value { result ≡ side_type config.now c side }
    ensures known { result < length config.now.types }
{
    let constraint = config.constraint(c);
    match side {
        Side::Out => constraint.source,
        Side::In => constraint.target,
    }
}

/// The first node of a side.
pub(crate) fn first_of(config: &Config, c: u8, side: Side) -> u32
    requires { c < length config.now.constraints }
    ensures first { result ≡ side_first config.now c side }
    ensures within { side_first config.now c side + side_count config.now c side ≤ nodes_most }
{
    config.first_node(type_of(config, c, side))
}

/// The number of nodes of a side.
pub(crate) fn count_of(config: &Config, c: u8, side: Side) -> u32
    requires { c < length config.now.constraints }
    ensures count { result ≡ side_count config.now c side }
    ensures within { side_first config.now c side + side_count config.now c side ≤ nodes_most }
{
    config.node_count(type_of(config, c, side))
}
