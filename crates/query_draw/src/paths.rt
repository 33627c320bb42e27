//! The legs of a rule: of its spine, of the second path of a cycle, and of its arms.

ghost use Rattle.std.specs.Prelude.{◌≡◌, ◌+◌, ◌<◌, ◌≤◌, true, length, All, IfOk};
ghost use Rattle.skeletons.specs.Skeleton.{HasSkeleton, spine_of, second_of, arms_of};
ghost use Rattle.sel_graph.specs.Moves.{moves_most, second_most, moved};
ghost use Rattle.sel_graph.specs.States.{begun};
ghost use Rattle.sel_graph.specs.Tests.{feasible};
ghost use Rattle.walk_pick.specs.Laws.{HasSymbol};
ghost use Rattle.walk_pick.specs.Candidates.{goal_of};
ghost use Rattle.query_draw.specs.Drawn.{spine_move, second_move, arm_leg, variable_type, rule_spine};
ghost use Rattle.query_draw.specs.Drawers.{random_words, spine_by, second_by, arms_by, legs_by, IsLeg, CanLink};

use crate::drawer::{Drawer, conjunct_place};
use crate::legs::Leg;
use sel_algebra::Class;
use sel_graph::{Goal, Move, State};
use skeletons::Skeleton;
use std::alloc::{AllocError, Global};
use walk_pick::{pick_arm, pick_link, pick_move};

/// The legs of a rule that starts at a type.
pub(crate) fn draw_legs(
    alloc: Global,
    drawer: &Drawer<'_>,
    skeleton: &Skeleton,
    class: Class,
    start: u8,
) -> Result<Vec<Leg>, AllocError>
    requires skeleton { HasSkeleton skeleton.now.shape skeleton.now.count }
    requires start { start < length drawer.now.reach.now.schema.kinds }
    requires live { feasible drawer.now.reach.now (goal_of skeleton.now.shape class skeleton.now.count) (spine_of skeleton.now.shape skeleton.now.count) (begun start) ≡ true }
    ensures legs { IfOk result (λ legs. legs.items ≡ legs_by drawer.now skeleton.now class start) }
    ensures moves { IfOk result (λ legs. All (IsLeg drawer.now.reach.now) legs.items) }
{
    let goal = Goal {
        class,
        second: skeleton.second(),
    };
    let count = skeleton.spine();
    let mut legs = draw_spine(alloc, drawer, goal, start, count)?;
    let end = type_of(start, &legs, count);
    let mut second = draw_second(alloc, drawer, skeleton, start, end)?;
    let mut arms = draw_arms(alloc, drawer, skeleton, start, &legs)?;
    legs.append(&mut second)?;
    legs.append(&mut arms)?;
    Ok(legs)
}

/// The legs of a spine of so many conjuncts that starts at a type.
fn draw_spine(
    alloc: Global,
    drawer: &Drawer<'_>,
    goal: Goal,
    start: u8,
    count: u8,
) -> Result<Vec<Leg>, AllocError>
    requires start { start < length drawer.now.reach.now.schema.kinds }
    requires few { count ≤ moves_most }
    requires second { goal.second ≤ second_most }
    requires live { feasible drawer.now.reach.now goal count (begun start) ≡ true }
    ensures { IfOk result (λ legs. legs.items ≡ spine_by drawer.now goal (begun start) count 0) }
{
    let mut legs = Vec::new(alloc);
    let mut state = State::begun(start);
    for i in 0..count {
        let via = draw_spine_move(drawer, goal, state, count - 1 - i, i);
        let from = state.at;
        legs.push(Leg { from, via })?;
        state = drawer.reach.moved(state, via);
    }
    Ok(legs)
}

/// The move of conjunct `i` of a spine, after which so many are left.
fn draw_spine_move(drawer: &Drawer<'_>, goal: Goal, state: State, left: u8, i: u8) -> Move
    requires start { state.start < length drawer.now.reach.now.schema.kinds }
    requires here { state.at < length drawer.now.reach.now.schema.kinds }
    requires few { left + 1 ≤ moves_most }
    requires second { goal.second ≤ second_most }
    requires live { feasible drawer.now.reach.now goal (left + 1) state ≡ true }
    ensures value { result ≡ spine_move drawer.now.reach.now drawer.now.workload.now (random_words drawer.now) goal state left i }
    ensures to { result.to < length drawer.now.reach.now.schema.kinds }
    ensures live { feasible drawer.now.reach.now goal left (moved drawer.now.reach.now.schema state result) ≡ true }
{
    let w = drawer.random_word(conjunct_place(i) + 1);
    match pick_move(drawer.reach, state, left, goal, drawer.wants_star(i), w) {
        Some(via) => via,
        None => unreachable!(),
    }
}

/// The legs of the second path of a rule, from the type at which the rule starts to the one at which its spine ends.
fn draw_second(
    alloc: Global,
    drawer: &Drawer<'_>,
    skeleton: &Skeleton,
    start: u8,
    end: u8,
) -> Result<Vec<Leg>, AllocError>
    requires skeleton { HasSkeleton skeleton.now.shape skeleton.now.count }
    requires start { start < length drawer.now.reach.now.schema.kinds }
    requires there { end < length drawer.now.reach.now.schema.kinds }
    requires live { CanLink drawer.now.reach.now (second_of skeleton.now.shape skeleton.now.count) start end }
    ensures { IfOk result (λ legs. legs.items ≡ second_by drawer.now end start (second_of skeleton.now.shape skeleton.now.count) (spine_of skeleton.now.shape skeleton.now.count)) }
{
    let count = skeleton.second();
    let first = skeleton.spine();
    let mut legs = Vec::new(alloc);
    let mut from = start;
    for j in 0..count {
        let via = draw_second_move(drawer, end, from, count - 1 - j, first + j);
        legs.push(Leg { from, via })?;
        from = via.to;
    }
    Ok(legs)
}

/// The move of conjunct `i` of a second path, after which so many are left.
fn draw_second_move(drawer: &Drawer<'_>, end: u8, from: u8, left: u8, i: u8) -> Move
    requires here { from < length drawer.now.reach.now.schema.kinds }
    requires there { end < length drawer.now.reach.now.schema.kinds }
    requires few { left + 1 ≤ moves_most }
    requires live { CanLink drawer.now.reach.now (left + 1) from end }
    ensures value { result ≡ second_move drawer.now.reach.now drawer.now.workload.now (random_words drawer.now) end from left i }
    ensures to { result.to < length drawer.now.reach.now.schema.kinds }
    ensures live { CanLink drawer.now.reach.now left result.to end }
{
    let w = drawer.random_word(conjunct_place(i) + 1);
    match pick_link(drawer.reach, from, left, end, drawer.wants_star(i), w) {
        Some(via) => via,
        None => unreachable!(),
    }
}

/// The legs of the arms of a rule, each from a variable of its spine.
fn draw_arms(
    alloc: Global,
    drawer: &Drawer<'_>,
    skeleton: &Skeleton,
    start: u8,
    spine: &[Leg],
) -> Result<Vec<Leg>, AllocError>
    requires skeleton { HasSkeleton skeleton.now.shape skeleton.now.count }
    requires long { length spine.now ≡ spine_of skeleton.now.shape skeleton.now.count }
    requires symbols { All (λ leg. HasSymbol drawer.now.reach.now.schema leg.via.to) spine.now }
    requires start { HasSymbol drawer.now.reach.now.schema start }
    ensures { IfOk result (λ legs. legs.items ≡ arms_by drawer.now skeleton.now start spine.now) }
{
    let first = skeleton.spine();
    let mut legs = Vec::new(alloc);
    for j in 0..skeleton.arms() {
        let (variable, _) = skeleton.ends(first + j);
        let from = type_of(start, spine, variable);
        legs.push(draw_arm(drawer, from, first + j))?;
    }
    Ok(legs)
}

/// The leg of conjunct `i`, an arm from a type.
fn draw_arm(drawer: &Drawer<'_>, from: u8, i: u8) -> Leg
    requires { HasSymbol drawer.now.reach.now.schema from }
    ensures { result ≡ arm_leg drawer.now.reach.now drawer.now.workload.now (random_words drawer.now) from i }
{
    let w = drawer.random_word(conjunct_place(i) + 1);
    match pick_arm(drawer.reach, from, drawer.wants_star(i), w) {
        Some(via) => Leg { from, via },
        None => unreachable!(),
    }
}

/// The type of a variable of a spine that starts at a type.
fn type_of(start: u8, spine: &[Leg], variable: u8) -> u8
    requires { variable ≤ length spine.now }
    ensures { result ≡ variable_type start spine.now variable }
{
    if variable == 0 {
        start
    } else {
        spine[variable as usize - 1].via.to
    }
}
