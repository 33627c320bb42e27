//! The rules of a query, put into a query that is being built.

ghost use Rattle.std.specs.Prelude.{◌≡◌, ◌+◌, ◌<◌, ◌≤◌, ◌++◌, ◌∷◌, [], false, true, length, All, OnOk, slice_index_or, ◌-◌, nat_le, if◌then◌else◌};
ghost use Rattle.std.specs.List.{list_any};
ghost use Rattle.skeletons.specs.Skeleton.{HasSkeleton, spine_of, variables_of};
ghost use Rattle.walk_pick.specs.Candidates.{goal_of, is_live_start, types_of};
ghost use Rattle.sel_graph.specs.States.{begun};
ghost use Rattle.sel_graph.specs.Tests.{feasible};
ghost use Rattle.query_terms.specs.Building.{symbols_most};
ghost use Rattle.query_terms.specs.Lists.{heads_in, is_heads};
ghost use Rattle.query_terms.specs.Values.{have_heads};
ghost use Rattle.query_draw.specs.Drawn.{drawn_start};
ghost use Rattle.query_draw.specs.Query.{variables_first, heads_of};
ghost use Rattle.query_draw.specs.Drawers.{random_words, conjunct_by, conjuncts_by, legs_by, rule_by, IsLeg};

use crate::drawer::Drawer;
use crate::legs::Leg;
use crate::paths::draw_legs;
use crate::words::draw_words;
use query_terms::{Heads, QueryBuilder};
use sel_algebra::Class;
use sel_graph::Goal;
use skeletons::Skeleton;
use std::alloc::{AllocError, Global};
use walk_pick::pick_start;

/// Puts a rule with so many heads into the query.
pub(crate) fn draw_rule(
    alloc: Global,
    builder: &mut QueryBuilder<'_>,
    drawer: &Drawer<'_>,
    skeleton: &Skeleton,
    class: Class,
    arity: u8,
) -> Result<(), AllocError>
    requires usable { builder.old.refused ≡ false }
    requires labels { length builder.old.labels ≡ length drawer.now.schema.now.edges }
    requires few { builder.old.taken + 2048 ≤ symbols_most }
    requires conjuncts { builder.old.conjuncts ≡ [] }
    requires words { builder.old.words ≡ [] }
    requires word { builder.old.word ≡ [] }
    requires heads { have_heads arity builder.old.rules ≡ true }
    requires skeleton { HasSkeleton skeleton.now.shape skeleton.now.count }
    requires arity { arity ≤ 4 }
    requires variables { arity ≤ variables_of skeleton.now.shape skeleton.now.count }
    requires live { list_any (is_live_start drawer.now.reach.now (goal_of skeleton.now.shape class skeleton.now.count) (spine_of skeleton.now.shape skeleton.now.count)) (types_of drawer.now.reach.now) ≡ true }
    ensures put { OnOk result (builder.new ≡ record builder.old { rules = builder.old.rules ++ rule_by drawer.now skeleton.now class arity ∷ []; taken = builder.new.taken }) }
    ensures few { OnOk result (builder.new.taken ≤ builder.old.taken + 2048) }
    ensures heads { OnOk result (have_heads arity builder.new.rules ≡ true) }
{
    let start = draw_start(drawer, skeleton, class);
    let legs = draw_legs(alloc, drawer, skeleton, class, start)?;
    draw_conjuncts(builder, drawer, skeleton, &legs)?;
    builder.end_rule(heads_of(skeleton, arity))?;
    Ok(())
}

/// The type at which a rule starts.
fn draw_start(drawer: &Drawer<'_>, skeleton: &Skeleton, class: Class) -> u8
    requires skeleton { HasSkeleton skeleton.now.shape skeleton.now.count }
    requires live { list_any (is_live_start drawer.now.reach.now (goal_of skeleton.now.shape class skeleton.now.count) (spine_of skeleton.now.shape skeleton.now.count)) (types_of drawer.now.reach.now) ≡ true }
    ensures start { result ≡ drawn_start drawer.now.reach.now skeleton.now.shape class (random_words drawer.now) skeleton.now.count }
    ensures within { result < length drawer.now.reach.now.schema.kinds }
    ensures live { feasible drawer.now.reach.now (goal_of skeleton.now.shape class skeleton.now.count) (spine_of skeleton.now.shape skeleton.now.count) (begun result) ≡ true }
{
    let goal = Goal {
        class,
        second: skeleton.second(),
    };
    match pick_start(drawer.reach, skeleton.spine(), goal, drawer.random_word(4)) {
        Some(start) => start,
        None => unreachable!(),
    }
}

/// Puts the conjuncts of a rule with these legs into the rule that is begun.
fn draw_conjuncts(
    builder: &mut QueryBuilder<'_>,
    drawer: &Drawer<'_>,
    skeleton: &Skeleton,
    legs: &[Leg],
) -> Result<(), AllocError>
    requires usable { builder.old.refused ≡ false }
    requires labels { length builder.old.labels ≡ length drawer.now.schema.now.edges }
    requires few { builder.old.taken + 2048 ≤ symbols_most }
    requires words { builder.old.words ≡ [] }
    requires word { builder.old.word ≡ [] }
    requires long { length legs.now ≡ skeleton.now.count }
    requires skeleton { HasSkeleton skeleton.now.shape skeleton.now.count }
    requires moves { All (IsLeg drawer.now.reach.now) legs.now }
    ensures put { OnOk result (builder.new ≡ record builder.old { conjuncts = builder.old.conjuncts ++ conjuncts_by drawer.now skeleton.now 0 legs.now; taken = builder.new.taken }) }
    ensures few { OnOk result (builder.new.taken ≤ builder.old.taken + 2048) }
{
    for i in 0..legs.len() {
        draw_conjunct(builder, drawer, skeleton, legs[i], i as u8)?;
    }
    Ok(())
}

/// Puts conjunct `i` of a rule into the rule that is begun.
fn draw_conjunct(
    builder: &mut QueryBuilder<'_>,
    drawer: &Drawer<'_>,
    skeleton: &Skeleton,
    leg: Leg,
    i: u8,
) -> Result<(), AllocError>
    requires usable { builder.old.refused ≡ false }
    requires labels { length builder.old.labels ≡ length drawer.now.schema.now.edges }
    requires few { builder.old.taken + 256 ≤ symbols_most }
    requires words { builder.old.words ≡ [] }
    requires word { builder.old.word ≡ [] }
    requires i { i < skeleton.now.count }
    requires leg { IsLeg drawer.now.reach.now leg }
    ensures put { OnOk result (builder.new ≡ record builder.old { conjuncts = builder.old.conjuncts ++ conjunct_by drawer.now skeleton.now i leg ∷ []; taken = builder.new.taken }) }
    ensures few { OnOk result (builder.new.taken ≤ builder.old.taken + 256) }
{
    draw_words(builder, drawer, leg, i)?;
    let (src, trg) = skeleton.ends(i);
    builder.end_conjunct(src, trg, leg.via.star)?;
    Ok(())
}

/// So many heads of a rule: the ends of its spine, and then its other variables in their order.
#[tactic(auto, using(crate::proofs::HeadLemmas::heads_in_are, crate::proofs::HeadLemmas::is_heads_are))]
fn heads_of(skeleton: &Skeleton, count: u8) -> Heads
    requires skeleton { HasSkeleton skeleton.now.shape skeleton.now.count }
    requires few { count ≤ 4 }
    requires variables { count ≤ variables_of skeleton.now.shape skeleton.now.count }
    ensures heads { heads_in result ≡ heads_of skeleton.now.shape skeleton.now.count count }
    ensures are { is_heads result ≡ true }
    ensures count { result.count ≡ count }
{
    let vars = [
        nth_head(skeleton, count, 0),
        nth_head(skeleton, count, 1),
        nth_head(skeleton, count, 2),
        nth_head(skeleton, count, 3),
    ];
    Heads { count, vars }
}

/// The head with a number, and 0 where there are not so many.
#[tactic(auto, using(crate::proofs::HeadLemmas::head_after))]
fn nth_head(skeleton: &Skeleton, count: u8, i: u8) -> u8
    requires skeleton { HasSkeleton skeleton.now.shape skeleton.now.count }
    requires few { count ≤ 4 }
    requires variables { count ≤ variables_of skeleton.now.shape skeleton.now.count }
    requires i { i < 4 }
    ensures { result ≡ slice_index_or (heads_of skeleton.now.shape skeleton.now.count count) i 0 }
{
    let spine = skeleton.spine();
    if i >= count {
        return 0;
    }
    match i {
        0 => 0,
        1 => spine,
        _ => later_head(spine, i),
    }
}

/// Head `i` after the first two.
fn later_head(spine: u8, i: u8) -> u8
    requires { 2 ≤ i }
    ensures { result ≡ (if nat_le i spine then i - 1 else i) }
{
    if i <= spine { i - 1 } else { i }
}
