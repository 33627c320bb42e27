//! Whole queries.

ghost use Rattle.std.specs.Prelude.{◌≡◌, ◌<◌, ◌≤◌, ◌==◌, if◌then◌else◌, Some, None, true, length, map, IfOk, IfErr, OnOk};
ghost use Rattle.schema_graph.specs.Configured.{schema_of};
ghost use Rattle.query_terms.specs.Building.{begun};
ghost use Rattle.query_terms.specs.View.{query_value};
ghost use Rattle.query_draw.specs.Query.{reach_of, drawn_arity, rule_size, has_query, query_of, drawn_query};
ghost use Rattle.query_draw.specs.Refusals.{IsRefusal};
ghost use Rattle.query_draw.specs.Plans.{sizes_of, rules_of};

use crate::drawing::{draw_class, draw_from, draw_shape, has_query};
use crate::errors::DrawError;
use crate::missing::NoSuchQuery;
use crate::plan::Plan;
use crate::rules::draw_rule;
use crate::wide::wide_class;
use gm_config::Config;
use gm_text::Arena;
use query_terms::{Query, QueryBuilder};
use schema_graph::Schema;
use sel_algebra::Class;
use sel_graph::Reach;
use skeletons::Skeleton;
use std::alloc::{AllocError, Global};
use walk_pick::pick_count;

/// The query of a number, drawn of a configuration and a seed.
///
/// `NoSuchQuery` comes exactly where with no number of conjuncts in range its shape and class can be met. The schema is
/// that of the configuration, and what can be reached is that of this schema and of the configuration's lengths, with
/// stars where it asks for some.
pub fn draw_query<'a>(
    alloc: Global,
    config: &Config,
    schema: &Schema,
    reach: &Reach,
    seed: u64,
    query: u32,
    arena: &'a Arena,
) -> Result<Query<'a>, DrawError>
    requires reach { reach.now ≡ reach_of config.now }
    requires schema { schema.now ≡ schema_of config.now }
    requires query { query < config.now.workload.queries }
    ensures drawn { IfOk result (λ drawn. drawn_query config.now seed query ≡ Some (query_value drawn)) }
    ensures there { OnOk result (has_query config.now seed query ≡ true) }
    ensures no_such { IfErr result (IsRefusal config.now seed query) }
{
    let shape = draw_shape(config, seed, query);
    let class = draw_class(config, seed, query);
    if !has_query(config, reach, seed, query) {
        return Err(DrawError::NoSuchQuery(NoSuchQuery {
            query,
            shape,
            class,
        }));
    }
    let plan = Plan {
        config,
        schema,
        reach,
        seed,
        query,
        shape,
        class,
    };
    Ok(draw_planned(alloc, &plan, arena)?)
}

/// The query that is planned.
fn draw_planned<'a>(
    alloc: Global,
    plan: &Plan<'_>,
    arena: &'a Arena,
) -> Result<Query<'a>, AllocError>
    ensures { IfOk result (λ drawn. query_value drawn ≡ query_of plan.now.config.now plan.now.seed plan.now.query) }
{
    let _ = plan.config.workload();
    let sizes = draw_sizes(alloc, plan)?;
    let arity = draw_arity(plan, &sizes);
    let labels = edge_labels(alloc, plan.schema)?;
    let mut builder = QueryBuilder::new(alloc, arena, &labels)?;
    draw_rules(alloc, &mut builder, plan, &sizes, arity)?;
    let class = class_with(plan.class, arity);
    let mut query = builder.finish(plan.shape, class, class)?;
    query.wide = wide_class(alloc, plan.schema, &query)?;
    Ok(query)
}

/// The class of a query with so many heads: it has one where they are two.
fn class_with(class: Class, arity: u8) -> Option<Class>
    ensures { result ≡ (if arity == 2 then Some class else None) }
{
    if arity == 2 { Some(class) } else { None }
}

/// The label of each edge of a schema.
fn edge_labels(alloc: Global, schema: &Schema) -> Result<Vec<u8>, AllocError>
    ensures { IfOk result (λ labels. labels.items ≡ map (λ e. e.label) schema.now.edges) }
{
    let mut labels = Vec::new(alloc);
    for e in 0..schema.edge_count() {
        labels.push(schema.edge(e).label)?;
    }
    Ok(labels)
}

/// The number of conjuncts of each rule.
fn draw_sizes(alloc: Global, plan: &Plan<'_>) -> Result<Vec<u8>, AllocError>
    ensures { IfOk result (λ sizes. sizes.items ≡ sizes_of plan.now) }
{
    let count = draw_from(plan.config.workload().rules, plan.random_word(0, 2));
    let mut sizes = Vec::new(alloc);
    for rule in 0..u32::from(count) {
        sizes.push(draw_size(plan, rule))?;
    }
    Ok(sizes)
}

/// The number of conjuncts of a rule.
fn draw_size(plan: &Plan<'_>, rule: u32) -> u8
    ensures { result ≡ rule_size plan.now.config.now plan.now.seed plan.now.query rule }
{
    let conjuncts = plan.config.workload().conjuncts;
    let w = plan.random_word(rule, 3);
    match pick_count(plan.reach, plan.shape, plan.class, conjuncts, w) {
        Some(size) => size,
        None => unreachable!(),
    }
}

/// The number of heads: the wanted one, but no more than any rule has variables.
fn draw_arity(plan: &Plan<'_>, sizes: &[u8]) -> u8
    requires { sizes.now ≡ sizes_of plan.now }
    ensures { result ≡ drawn_arity plan.now.config.now plan.now.seed plan.now.query }
{
    let mut arity = draw_from(plan.config.workload().arity, plan.random_word(0, 5));
    for size in sizes {
        arity = arity.min(Skeleton::of(plan.shape, *size).variables());
    }
    arity
}

/// Puts the rules of these sizes into the query.
fn draw_rules(
    alloc: Global,
    builder: &mut QueryBuilder<'_>,
    plan: &Plan<'_>,
    sizes: &[u8],
    arity: u8,
) -> Result<(), AllocError>
    requires begun { builder.old ≡ begun (map (λ e. e.label) plan.now.schema.now.edges) }
    requires sizes { sizes.now ≡ sizes_of plan.now }
    requires few { length sizes.now ≤ 4 }
    requires heads { arity ≤ 4 }
    requires arity { arity ≡ drawn_arity plan.now.config.now plan.now.seed plan.now.query }
    ensures { OnOk result (builder.new ≡ record builder.old { rules = rules_of plan.now; taken = builder.new.taken }) }
{
    let _ = plan.config.workload();
    for rule in 0..sizes.len() {
        let drawer = plan.drawer(rule as u32);
        let skeleton = Skeleton::of(plan.shape, sizes[rule]);
        draw_rule(alloc, builder, &drawer, &skeleton, plan.class, arity)?;
    }
    Ok(())
}
