//! The number of conjuncts of a rule, and the type at which its spine starts.

ghost use Rattle.std.specs.Prelude.{◌≡◌, ◌↔◌, ◌<◌, ◌≤◌, ◌+◌, ◌-◌, [], length, IsNone, IfSome, option_map, true};
ghost use Rattle.std.specs.List.{list_any};
ghost use Rattle.candidates.specs.Picked.{picked, numbers_that};
ghost use Rattle.sel_algebra.specs.declared.TheConstants.{TYPES_MOST};
ghost use Rattle.skeletons.specs.Skeleton.{conjuncts_most, HasSkeleton, spine_of};
ghost use Rattle.sel_graph.specs.Moves.{moves_most, second_most};
ghost use Rattle.walk_pick.specs.Candidates.{types_of, is_live_start, start_candidates, goal_of, permits, is_live_count, count_candidates};

use crate::ranges::{count_of, from_least};
use candidates::{Candidates, pick_among};
use gm_config::Range;
use sel_algebra::{Class, Shape};
use sel_graph::{Goal, Reach, State};
use skeletons::Skeleton;

/// The types at which so many moves that can meet a goal may start.
#[derive(Drop)]
struct Starts<'a> {
    reach: &'a Reach,
    types: u8,
    goal: Goal,
    moves: u8,
    ghost all: { types ≡ length reach.now.schema.kinds },
    ghost few_types: { length reach.now.schema.kinds ≤ TYPES_MOST },
    ghost few: { moves ≤ moves_most },
    ghost second: { goal.second ≤ second_most },
}

impl<'a> Candidates for Starts<'a> {
    ghost live = { λ s t. is_live_start s.reach.now s.goal s.moves t };

    ghost range = { λ s. length s.reach.now.schema.kinds };

    fn numbers(&self) -> u32 {
        self.types as u32
    }

    fn is_live(&self, t: u32) -> bool {
        self.reach
            .feasible(State::begun(t as u8), self.moves, self.goal)
    }
}

/// The numbers of conjuncts from the least on with which some start can meet the goal.
#[derive(Drop)]
struct Counts<'a> {
    reach: &'a Reach,
    shape: Shape,
    class: Class,
    range: Range,
    ghost some: { 1 ≤ range.least },
    ghost few: { range.most ≤ conjuncts_most },
}

impl<'a> Candidates for Counts<'a> {
    ghost live = { λ s i. is_live_count s.reach.now s.shape s.class (s.range.least + i) };

    ghost range = { λ s. s.range.most + 1 - s.range.least };

    fn numbers(&self) -> u32 {
        count_of(self.range)
    }

    fn is_live(&self, i: u32) -> bool {
        is_live_count(
            self.reach,
            self.shape,
            self.class,
            self.range.least + i as u8,
        )
    }
}

/// The number of conjuncts of a rule: one of the range with which some start can meet the class and the second path
/// that the shape has with so many; a cycle has at least 2.
///
/// `None` comes exactly where there is no such number. The range lies within 1 to
/// [`CONJUNCTS_MOST`](skeletons::CONJUNCTS_MOST).
pub fn pick_count(reach: &Reach, shape: Shape, class: Class, conjuncts: Range, w: u64) -> Option<u8>
    requires some { 1 ≤ conjuncts.least }
    requires few { conjuncts.most ≤ conjuncts_most }
    ensures value { result ≡ picked w (count_candidates reach.now shape class conjuncts) }
    ensures none { IsNone result ↔ (count_candidates reach.now shape class conjuncts ≡ []) }
    ensures skeleton { IfSome result (λ k. HasSkeleton shape k) }
    ensures live { IfSome result (λ k. (conjuncts.least ≤ k) × (k ≤ conjuncts.most) × (is_live_count reach.now shape class k ≡ true)) }
{
    let counts = Counts {
        reach,
        shape,
        class,
        range: conjuncts,
    };
    from_least(conjuncts.least, pick_among(&counts, w))
}

/// The type at which a spine starts: one from which exactly so many moves can meet a goal.
///
/// `None` comes exactly where there is no such type. The moves are at most
/// [`MOVES_MOST`](sel_graph::MOVES_MOST), and those of the second path at most
/// [`SECOND_MOST`](sel_graph::SECOND_MOST).
pub fn pick_start(reach: &Reach, moves: u8, goal: Goal, w: u64) -> Option<u8>
    requires moves { moves ≤ moves_most }
    requires second { goal.second ≤ second_most }
    ensures value { result ≡ picked w (start_candidates reach.now goal moves) }
    ensures none { IsNone result ↔ (start_candidates reach.now goal moves ≡ []) }
    ensures live { IfSome result (λ t. (t < length reach.now.schema.kinds) × (is_live_start reach.now goal moves t ≡ true)) }
{
    let starts = Starts {
        reach,
        types: reach.type_count(),
        goal,
        moves,
    };
    let t = pick_among(&starts, w)?;
    Some(t as u8)
}

/// Whether some start can meet the goal of a shape and a class with so many conjuncts.
fn is_live_count(reach: &Reach, shape: Shape, class: Class, count: u8) -> bool
    requires some { 1 ≤ count }
    requires few { count ≤ conjuncts_most }
    ensures { result ≡ is_live_count reach.now shape class count }
{
    permits(shape, count) && has_start(reach, shape, class, count)
}

/// Whether a shape can have so many conjuncts.
fn permits(shape: Shape, count: u8) -> bool
    ensures { result ≡ permits shape count }
{
    match shape {
        Shape::Cycle => count >= 2,
        Shape::Chain | Shape::Star | Shape::StarChain => true,
    }
}

/// Whether some start can meet the goal of a shape and a class, with so many conjuncts.
#[tactic(auto, using(crate::proofs::PickLemmas::some_is_any))]
fn has_start(reach: &Reach, shape: Shape, class: Class, count: u8) -> bool
    requires skeleton { HasSkeleton shape count }
    ensures { result ≡ list_any (is_live_start reach.now (goal_of shape class count) (spine_of shape count)) (types_of reach.now) }
{
    let skeleton = Skeleton::of(shape, count);
    let goal = Goal {
        class,
        second: skeleton.second(),
    };
    pick_start(reach, skeleton.spine(), goal, 0).is_some()
}
