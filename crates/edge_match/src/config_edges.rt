//! The degrees and the stubs at the two sides of a constraint.

ghost use Rattle.std.specs.Prelude.{◌≡◌, ◌<◌, ◌≤◌, None, Some, Err, length, sum, IfOk, OnOk};
ghost use Rattle.seeded_draw.specs.Draw.{stream_of};
ghost use Rattle.edge_match.specs.declared.errors.TooManyStubs.{TooManyStubs};
ghost use Rattle.edge_match.specs.ConfigSides.{side_first, side_count};
ghost use Rattle.edge_match.specs.DrawnDegrees.{key_tag, side_degrees};
ghost use Rattle.edge_match.specs.StubLimit.{stubs_most};
ghost use Rattle.edge_match.specs.Limit.{first_side_over};

use crate::config_sides::{Side, first_of, is_free};
use crate::drawing::{degrees_within_limit, free_degrees};
use crate::errors::MatchError;
use crate::sides::{SideStubs, total_of};
use gm_config::Config;
use seeded_draw::stream;
use std::alloc::Global;

/// The degrees of the out side and of the in side of a constraint.
pub(crate) fn both_degrees(
    alloc: Global,
    config: &Config,
    seed: u64,
    c: u8,
) -> Result<(Vec<u32>, Vec<u32>), MatchError>
    requires { c < length config.now.constraints }
    ensures outs { IfOk result (λ degrees. degrees.0.items ≡ side_degrees config.now seed c Side.Out) }
    ensures ins { IfOk result (λ degrees. degrees.1.items ≡ side_degrees config.now seed c Side.In) }
    ensures few_outs { IfOk result (λ degrees. sum degrees.0.items ≤ stubs_most) }
    ensures few_ins { IfOk result (λ degrees. sum degrees.1.items ≤ stubs_most) }
    ensures within { OnOk result (first_side_over config.now seed c ≡ None) }
    ensures over { (report : TooManyStubs) → result ≡ Err (MatchError.TooManyStubs report)
        → first_side_over config.now seed c ≡ Some report }
{
    if is_free(config, c, Side::Out) {
        let ins = degrees_within_limit(alloc, config, seed, c, Side::In)?;
        let outs = free_degrees(alloc, config, seed, c, Side::Out, total_of(&ins) as u32)?;
        return Ok((outs, ins));
    }
    let outs = degrees_within_limit(alloc, config, seed, c, Side::Out)?;
    if is_free(config, c, Side::In) {
        let ins = free_degrees(alloc, config, seed, c, Side::In, total_of(&outs) as u32)?;
        return Ok((outs, ins));
    }
    let ins = degrees_within_limit(alloc, config, seed, c, Side::In)?;
    Ok((outs, ins))
}

/// One side of a constraint, with the degrees of its nodes.
pub(crate) fn stubs_at(config: &Config, c: u8, side: Side, degrees: Vec<u32>) -> SideStubs
    requires known { c < length config.now.constraints }
    requires length { length degrees.items ≡ side_count config.now c side }
    requires few { sum degrees.items ≤ stubs_most }
    ensures first { result.first ≡ side_first config.now c side }
    ensures degrees { result.degrees.items ≡ degrees.items }
    ensures stream { result.stream ≡ stream_of (key_tag side) c 0 }
{
    SideStubs {
        first: first_of(config, c, side),
        degrees,
        stream: stream(side.key_tag(), u32::from(c), 0),
    }
}
