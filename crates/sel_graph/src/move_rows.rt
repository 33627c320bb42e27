//! The places to which moves lead.

ghost use Rattle.std.specs.Prelude.{◌≡◌, ◌↔◌, ◌*◌, ◌+◌, ◌/◌, ◌<◌, ◌≤◌, ◌||◌, ◌&&◌, ◌==◌, ℕ, IsTrue, IfOk, length};
ghost use Rattle.std.specs.List.{list_any, range_with_len};
ghost use Rattle.bit_rows.specs.Sets.{has};
ghost use Rattle.sel_graph.specs.States.{place};
ghost use Rattle.sel_graph.specs.Moves.{IsReach, moves_most};
ghost use Rattle.sel_graph.specs.Rows.{HasLevels};
ghost use Rattle.sel_graph.specs.Steps.{MoveStep, PlainStep, star_step, star_steps};
ghost use Rattle.sel_graph.specs.Tables.{HasAfters};
ghost use Rattle.sel_graph.specs.Tests.{can_come, joins};

use crate::MOVES_MOST;
use crate::levels::{KindLevels, levels_from};
use crate::moves::Moves;
use crate::places::{op_at, place_of};
use crate::rows::Rows;
use crate::states::{Move, State};
use bit_rows::{BitRow, Grid};
use sel_algebra::{Kind, Op};
use std::alloc::{AllocError, Global};

/// For each place the places to which one move carries it, from starts of a kind.
#[derive(Drop)]
struct MoveRows<'a> {
    moves: &'a Moves,
    kind: Kind,
    types: u8,
    ghost types_are: { types ≡ length moves.now.schema.kinds },
    ghost known: { IsReach moves.now },
}

impl Rows for MoveRows<'_> {
    ghost count = { λ s. 5 * length s.moves.now.schema.kinds };

    ghost holds = { λ s. MoveStep s.moves.now s.kind };

    fn count(&self) -> u32 {
        5 * self.types as u32
    }

    fn row(&self, r: u32) -> BitRow<10> {
        let mut row = plain_row(self.moves, self.kind, r);
        if self.moves.stars() {
            add_stars(&mut row, self.moves, self.kind, r);
        }
        row
    }
}

/// The places to which one plain move carries a place, from a start of a kind.
fn plain_row(moves: &Moves, kind: Kind, place: u32) -> BitRow<10>
    requires place { place < 5 * length moves.now.schema.kinds }
    requires reach { IsReach moves.now }
    ensures { (q : ℕ) → IsTrue (has result q) ↔ PlainStep moves.now kind place q }
{
    let mut row = BitRow::empty();
    for number in moves.plain_row((place / 5) as u8).numbers() {
        row.set(moves.move_place(kind, place, Move::of_place(false, number)));
    }
    row
}

/// Adds to a row the places to which a plain move carries a place when it is starred.
fn add_stars(row: &mut BitRow<10>, moves: &Moves, kind: Kind, place: u32)
    requires place { place < 5 * length moves.now.schema.kinds }
    requires reach { IsReach moves.now }
    ensures { (q : ℕ) → has row.new q ≡ (has row.old q || list_any (star_steps moves.now kind place q) (range_with_len 0 5)) }
{
    for n in 0..5 {
        add_star(row, moves, kind, place, op_at(n));
    }
}

/// Adds to a row the place to which a plain move with a value carries a place when it is starred, if it may be.
fn add_star(row: &mut BitRow<10>, moves: &Moves, kind: Kind, place: u32, value: Op)
    requires place { place < 5 * length moves.now.schema.kinds }
    requires reach { IsReach moves.now }
    ensures { (q : ℕ) → has row.new q ≡ (has row.old q || star_step moves.now kind place q value) }
{
    let to = (place / 5) as u8;
    if moves.is_plain(to, to, value) {
        row.set(moves.move_place(
            kind,
            place,
            Move {
                star: true,
                to,
                value,
            },
        ));
    }
}

/// For each number of moves up to [`MOVES_MOST`] the places to which so many lead, from starts of a kind.
fn kind_moves(
    alloc: Global,
    moves: &Moves,
    types: u8,
    kind: Kind,
) -> Result<Vec<Grid<10>>, AllocError>
    requires types { types ≡ length moves.now.schema.kinds }
    requires reach { IsReach moves.now }
    ensures { IfOk result (λ levels. HasLevels (moves_most + 1) (5 * length moves.now.schema.kinds) (MoveStep moves.now kind) levels.items) }
{
    let rows = MoveRows { moves, kind, types };
    levels_from(alloc, &rows, MOVES_MOST as usize + 1)
}

/// For each number of moves up to [`MOVES_MOST`] the places to which so many lead.
pub(crate) fn move_rows(alloc: Global, moves: &Moves) -> Result<KindLevels, AllocError>
    ensures { IfOk result (HasAfters moves.now) }
{
    let types = moves.type_count();
    let fixed = kind_moves(alloc, moves, types, Kind::Fixed)?;
    let growing = kind_moves(alloc, moves, types, Kind::Growing)?;
    Ok(KindLevels { fixed, growing })
}

/// The places to which so many moves lead, for a state.
pub(crate) fn places_after<'a>(
    afters: &'a KindLevels,
    moves: &Moves,
    from: State,
    count: u8,
) -> &'a BitRow<10>
    requires afters { HasAfters moves.now afters.now }
    requires count { count ≤ moves_most }
    requires start { from.start < length moves.now.schema.kinds }
    requires here { from.at < length moves.now.schema.kinds }
    ensures { (p : ℕ) → has result.now p ≡ can_come moves.now count from p }
{
    let kind = moves.schema().kind(from.start);
    afters.row(kind, count as usize, place_of(from.at, from.op))
}

/// Whether one move carries a state to a state.
pub(crate) fn can_step(afters: &KindLevels, moves: &Moves, from: State, to: State) -> bool
    requires afters { HasAfters moves.now afters.now }
    requires reach { IsReach moves.now }
    requires from_start { from.start < length moves.now.schema.kinds }
    requires from_at { from.at < length moves.now.schema.kinds }
    requires to_at { to.at < length moves.now.schema.kinds }
    ensures { result ≡ ((to.start == from.start) && can_come moves.now 1 from (place to)) }
{
    to.start == from.start && places_after(afters, moves, from, 1).get(place_of(to.at, to.op))
}

/// Whether so many moves lead from a type to a type.
pub(crate) fn joins(afters: &KindLevels, moves: &Moves, count: u8, from: u8, to: u8) -> bool
    requires afters { HasAfters moves.now afters.now }
    requires reach { IsReach moves.now }
    requires count { count ≤ moves_most }
    requires from { from < length moves.now.schema.kinds }
    requires to { to < length moves.now.schema.kinds }
    ensures { result ≡ joins moves.now count from to }
{
    let places = places_after(afters, moves, State::begun(from), count);
    match places.next(5 * to as u32) {
        Some(place) => place < 5 * to as u32 + 5,
        None => false,
    }
}
