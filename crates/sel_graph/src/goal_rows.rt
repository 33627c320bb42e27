//! The places at which goals are met.

ghost use Rattle.std.specs.Prelude.{◌≡◌, ◌↔◌, ◌*◌, ◌+◌, ◌<◌, ◌≤◌, ◌&&◌, ◌||◌, ◌==◌, nat_lt, ℕ, IsTrue, IfOk, length};
ghost use Rattle.bit_rows.specs.Sets.{has, set_at};
ghost use Rattle.sel_graph.specs.States.{state_class};
ghost use Rattle.sel_graph.specs.Moves.{IsReach, moves_most, second_most};
ghost use Rattle.sel_graph.specs.Numbers.{goal_count, goal_number, state_at};
ghost use Rattle.sel_graph.specs.Steps.{GoalMet};
ghost use Rattle.sel_graph.specs.Tables.{HasAfters, HasGoals};
ghost use Rattle.sel_graph.specs.Tests.{meets, feasible};

use crate::levels::KindLevels;
use crate::move_rows::{joins, places_after};
use crate::moves::Moves;
use crate::places::{GOAL_COUNT, class_number, goal_at, goal_number, state_at};
use crate::rows::{Rows, grid_of};
use crate::states::{Goal, State};
use bit_rows::{BitRow, Grid};
use sel_algebra::{Class, class_of};
use std::alloc::{AllocError, Global};

/// For each start, by type, and each goal the places at which the goal is met.
#[derive(Drop)]
struct GoalRows<'a> {
    moves: &'a Moves,
    afters: &'a KindLevels,
    types: u8,
    ghost types_are: { types ≡ length moves.now.schema.kinds },
    ghost known: { IsReach moves.now },
    ghost afters_are: { HasAfters moves.now afters.now },
}

impl Rows for GoalRows<'_> {
    ghost count = { λ s. goal_count * length s.moves.now.schema.kinds };

    ghost holds = { λ s. GoalMet s.moves.now };

    fn count(&self) -> u32 {
        GOAL_COUNT * self.types as u32
    }

    fn row(&self, r: u32) -> BitRow<10> {
        let start = (r / GOAL_COUNT) as u8;
        goal_row(self.moves, self.afters, start, goal_at(r % GOAL_COUNT))
    }
}

/// The places at which paths from a start meet a goal.
fn goal_row(moves: &Moves, afters: &KindLevels, start: u8, goal: Goal) -> BitRow<10>
    requires reach { IsReach moves.now }
    requires afters { HasAfters moves.now afters.now }
    requires start { start < length moves.now.schema.kinds }
    requires second { goal.second ≤ second_most }
    ensures { (p : ℕ) → has result p ≡ (nat_lt p (5 * length moves.now.schema.kinds) && meets moves.now goal (state_at start p)) }
{
    let mut row = BitRow::empty();
    for place in 0..5 * moves.type_count() as u32 {
        add_place(&mut row, moves, afters, goal, start, place);
    }
    row
}

/// Adds a place to a row, if the path from a start to it meets a goal.
fn add_place(
    row: &mut BitRow<10>,
    moves: &Moves,
    afters: &KindLevels,
    goal: Goal,
    start: u8,
    place: u32,
)
    requires reach { IsReach moves.now }
    requires afters { HasAfters moves.now afters.now }
    requires second { goal.second ≤ second_most }
    requires start { start < length moves.now.schema.kinds }
    requires place { place < 5 * length moves.now.schema.kinds }
    ensures { (p : ℕ) → has row.new p ≡ (has row.old p || (meets moves.now goal (state_at start place) && (place == p))) }
{
    if meets(moves, afters, goal, state_at(start, place)) {
        row.set(place);
    }
}

/// Whether a state meets a goal.
fn meets(moves: &Moves, afters: &KindLevels, goal: Goal, state: State) -> bool
    requires reach { IsReach moves.now }
    requires afters { HasAfters moves.now afters.now }
    requires second { goal.second ≤ second_most }
    requires start { state.start < length moves.now.schema.kinds }
    requires at { state.at < length moves.now.schema.kinds }
    ensures { result ≡ meets moves.now goal state }
{
    class_number(state_class(moves, state)) == class_number(goal.class)
        && (goal.second == 0 || joins(afters, moves, goal.second, state.start, state.at))
}

/// The growth class of a state.
fn state_class(moves: &Moves, state: State) -> Class
    requires start { state.start < length moves.now.schema.kinds }
    requires at { state.at < length moves.now.schema.kinds }
    ensures { result ≡ state_class moves.now.schema state }
{
    let schema = moves.schema();
    class_of(state.op, schema.kind(state.start), schema.kind(state.at))
}

/// For each start, by type, and each goal the places at which the goal is met.
pub(crate) fn goal_rows(
    alloc: Global,
    moves: &Moves,
    afters: &KindLevels,
) -> Result<Grid<10>, AllocError>
    requires { HasAfters moves.now afters.now }
    ensures { IfOk result (HasGoals moves.now) }
{
    let types = moves.type_count();
    let rows = GoalRows {
        moves,
        afters,
        types,
    };
    grid_of(alloc, &rows)
}

/// Whether so many moves can carry a state to one that meets a goal.
pub(crate) fn feasible(
    goals: &Grid<10>,
    afters: &KindLevels,
    moves: &Moves,
    count: u8,
    state: State,
    goal: Goal,
) -> bool
    requires goals { HasGoals moves.now goals.now }
    requires afters { HasAfters moves.now afters.now }
    requires reach { IsReach moves.now }
    requires count { count ≤ moves_most }
    requires start { state.start < length moves.now.schema.kinds }
    requires at { state.at < length moves.now.schema.kinds }
    requires second { goal.second ≤ second_most }
    ensures { result ≡ feasible moves.now goal count state }
{
    let met = goals.row(GOAL_COUNT * state.start as u32 + goal_number(goal));
    places_after(afters, moves, state, count).meets(met)
}
