//! Queries that can't be drawn.

ghost use Rattle.std.specs.Prelude.{◌≡◌};
ghost use Rattle.query_draw.specs.Query.{reach_of};
ghost use Rattle.query_draw.specs.Missing.{IsFirstMissing};

use crate::drawing::{draw_class, draw_shape, has_query};
use gm_config::Config;
use sel_algebra::{Class, Shape};
use sel_graph::Reach;

/// A query that can't be drawn: with no number of conjuncts in range can its shape and class be met.
#[derive(Clone, Copy, Debug, PartialEq, Eq)]
pub struct NoSuchQuery {
    /// The number of the query.
    pub query: u32,
    /// The shape that was drawn for it.
    pub shape: Shape,
    /// The class that was drawn for it.
    pub class: Class,
}

/// The first query of a configuration that can't be drawn, and `None` exactly where all can be drawn.
///
/// What can be reached is that of the configuration's schema and lengths, with stars where it asks for some.
pub fn first_missing(config: &Config, reach: &Reach, seed: u64) -> Option<NoSuchQuery>
    requires reach { reach.now ≡ reach_of config.now }
    ensures { IsFirstMissing config.now seed result }
{
    for query in 0..config.workload().queries {
        if !has_query(config, reach, seed, query) {
            return Some(NoSuchQuery {
                query,
                shape: draw_shape(config, seed, query),
                class: draw_class(config, seed, query),
            });
        }
    }
    None
}
