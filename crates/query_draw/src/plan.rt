//! What a whole query is drawn from.

ghost use Rattle.std.specs.Prelude.{◌≡◌, true};
ghost use Rattle.seeded_draw.specs.Draw.{stream_of};
ghost use Rattle.schema_graph.specs.Configured.{schema_of};
ghost use Rattle.query_draw.specs.Drawn.{words_for};
ghost use Rattle.query_draw.specs.Query.{reach_of, drawn_shape, drawn_class, has_query};

use crate::drawer::Drawer;
use crate::drawing::{TAG, rule_word};
use gm_config::Config;
use schema_graph::Schema;
use seeded_draw::stream;
use sel_algebra::{Class, Shape};
use sel_graph::Reach;

/// What a whole query is drawn from, which can be drawn.
#[derive(Drop)]
pub(crate) struct Plan<'a> {
    /// The configuration.
    pub config: &'a Config,
    /// Its schema.
    pub schema: &'a Schema,
    /// What can be reached in it.
    pub reach: &'a Reach,
    /// The seed.
    pub seed: u64,
    /// The number of the query.
    pub query: u32,
    /// The shape of the query.
    pub shape: Shape,
    /// The class of the query.
    pub class: Class,
    pub ghost schema_is: { schema.now ≡ schema_of config.now },
    pub ghost reach_is: { reach.now ≡ reach_of config.now },
    pub ghost shape_is: { shape ≡ drawn_shape config.now seed query },
    pub ghost class_is: { class ≡ drawn_class config.now seed query },
    pub ghost there_is: { has_query config.now seed query ≡ true },
}

impl<'a> Plan<'a> {
    /// The random word at a place of a rule.
    pub fn random_word(&self, rule: u32, place: u64) -> u64
        ensures { result ≡ words_for self.now.seed self.now.query rule place }
    {
        rule_word(self.seed, self.query, rule, place)
    }

    /// What a rule is drawn from.
    pub fn drawer(&self, rule: u32) -> Drawer<'a>
        ensures workload { result.workload.now ≡ self.now.config.now.workload }
        ensures schema { result.schema.now ≡ schema_of self.now.config.now }
        ensures reach { result.reach.now ≡ reach_of self.now.config.now }
        ensures seed { result.seed ≡ self.now.seed }
        ensures stream { result.stream ≡ stream_of 7 self.now.query rule }
    {
        Drawer {
            workload: self.config.workload(),
            schema: self.schema,
            reach: self.reach,
            seed: self.seed,
            stream: stream(TAG, self.query, rule),
        }
    }
}
