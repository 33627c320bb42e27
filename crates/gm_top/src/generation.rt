//! A configuration with all that its draws need.

ghost use Rattle.std.specs.Prelude.{◌≡◌, ◌<◌, true, IfOk, IfErr};
ghost use Rattle.query_terms.specs.View.{query_value};
ghost use Rattle.query_draw.specs.Query.{has_query, query_of};
ghost use Rattle.schema_graph.specs.Configured.{schema_of};
ghost use Rattle.query_draw.specs.Query.{reach_of};

use crate::outcomes::Outcome;
use gm_config::Config;
use gm_text::Arena;
use query_draw::draw_query;
use query_terms::Query;
use schema_graph::Schema;
use sel_graph::Reach;
use std::alloc::{AllocError, Global};
use std::marker::Model;

/// A configuration and a seed, with the schema and what can be reached in it: queries are drawn from these.
#[derive(Drop)]
pub struct Generation {
    config: Config,
    schema: Schema,
    reach: Reach,
    seed: u64,
}

impl Model for Generation {
    ghost use Rattle.std.specs.Prelude.{◌≡◌};
    ghost use Rattle.schema_graph.specs.Configured.{schema_of};
    ghost use Rattle.query_draw.specs.Query.{reach_of};
    ghost use Rattle.gm_top.specs.Generation.{GenerationValue};

    ghost Value = { GenerationValue };

    ghost view = { λ g. record { config = g.config; seed = g.seed } };

    ghost invariant = { λ g. (g.schema ≡ schema_of g.config) × (g.reach ≡ reach_of g.config) };
}

impl Generation {
    /// A configuration and a seed.
    pub(crate) fn new(alloc: Global, config: Config, seed: u64) -> Result<Generation, AllocError>
        ensures { IfOk result (λ generation. generation ≡ record { config = config; seed = seed }) }
    {
        let workload = config.workload();
        let (lengths, stars) = (workload.length, workload.star > 0);
        let schema = Schema::of(alloc, &config)?;
        let reach = Reach::build(alloc, &schema, lengths, stars)?;
        Ok(Generation {
            config,
            schema,
            reach,
            seed,
        })
    }

    /// The configuration.
    pub(crate) fn config(&self) -> &Config
        ensures { result.now ≡ self.now.config }
    {
        &self.config
    }

    /// The number of queries that it asks for.
    pub(crate) fn query_count(&self) -> u32
        ensures { result ≡ self.now.config.workload.queries }
    {
        self.config.workload().queries
    }

    /// Its schema.
    pub(crate) fn schema(&self) -> &Schema
        ensures { result.now ≡ schema_of self.now.config }
    {
        &self.schema
    }

    /// What can be reached in the schema, by words of the lengths of the configuration.
    pub(crate) fn reach(&self) -> &Reach
        ensures { result.now ≡ reach_of self.now.config }
    {
        &self.reach
    }

    /// The drawn query with a number. Only memory can be wanting.
    pub(crate) fn query<'a>(
        &self,
        alloc: Global,
        number: u32,
        arena: &'a Arena,
    ) -> Result<Query<'a>, Outcome>
        requires within { number < self.now.config.workload.queries }
        requires drawable { has_query self.now.config self.now.seed number ≡ true }
        ensures query { IfOk result (λ query. query_value query ≡ query_of self.now.config self.now.seed number) }
        ensures stops { IfErr result (λ outcome. outcome ≡ Outcome.NoMemory) }
    {
        let query = draw_query(
            alloc,
            self.config(),
            self.schema(),
            self.reach(),
            self.seed(),
            number,
            arena,
        )?;
        Ok(query)
    }

    /// The seed of all draws.
    pub(crate) fn seed(&self) -> u64
        ensures { result ≡ self.now.seed }
    {
        self.seed
    }
}
