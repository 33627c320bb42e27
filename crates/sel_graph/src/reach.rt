//! What can be reached in the selectivity graph of a schema.

ghost use Rattle.std.specs.Prelude.{◌≡◌, ◌↔◌, ℕ, ◌<◌, ◌≤◌, ◌+◌, ◌*◌, length, IsTrue, IfOk};
ghost use Rattle.bit_rows.specs.Sets.{has};
ghost use Rattle.sel_algebra.specs.declared.vocabulary.Op.{Op};
ghost use Rattle.sel_graph.specs.States.{came_to, place_of, carried, next_places};
ghost use Rattle.sel_graph.specs.Walks.{HasWalk};
ghost use Rattle.sel_graph.specs.Moves.{symbols_most, moves_most, second_most, IsReach, IsPlainMove, IsMove, CarriesByMove, Joins, IsFeasible, moved};
ghost use Rattle.sel_graph.specs.Tests.{leads_at, can_reach, comes_from, can_walk, is_plain, is_move, joins, feasible};

use crate::before_rows::{before_rows, can_walk, states_before};
use crate::goal_rows::{feasible, goal_rows};
use crate::levels::KindLevels;
use crate::move_rows::{can_step, joins, move_rows};
use crate::moves::Moves;
use crate::next_places::{Nexts, all_nexts, next_places};
use crate::states::{Goal, Move, State};
use crate::walk_rows::{states_after, walk_rows};
use crate::word_rows::word_rows;
use bit_rows::{BitRow, Grid};
use gm_config::Range;
use schema_graph::Schema;
use sel_algebra::{Op, Symbol, TYPES_MOST};
use std::alloc::{AllocError, Global};
use std::marker::Model;

/// What can be reached between the types of a schema: by symbols, by moves of permitted lengths, and by moves that end where
/// a goal is met. Each answer is looked up.
#[derive(Drop)]
pub struct Reach {
    moves: Moves,
    /// The places to which so many symbols lead.
    walks: KindLevels,
    /// The places from which so many symbols lead.
    befores: KindLevels,
    /// The places to which each symbol leads.
    nexts: Nexts,
    /// The places to which so many moves lead.
    afters: KindLevels,
    /// For each start and goal the places at which the goal is met.
    goals: Grid<10>,
}

impl Model for Reach {
    ghost use Rattle.sel_graph.specs.Moves.{ReachValue};
    ghost use Rattle.sel_graph.specs.Tables.{HasTables};

    ghost Value = { ReachValue };

    ghost view = { λ r. r.moves };

    ghost invariant = { λ r. HasTables r.moves r.walks r.befores r.nexts r.afters r.goals };
}

impl Reach {
    /// What can be reached in a schema by words of permitted lengths, which may be starred or not.
    ///
    /// The lengths are from 1 to [`SYMBOLS_MOST`](crate::SYMBOLS_MOST). Where the least is above the greatest, there are no words.
    pub fn build(
        alloc: Global,
        schema: &Schema,
        lengths: Range,
        stars: bool,
    ) -> Result<Reach, AllocError>
        requires some { 1 ≤ lengths.least }
        requires few { lengths.most ≤ symbols_most }
        ensures { IfOk result (λ reach. reach ≡ record { schema = schema.now; lengths = lengths; stars = stars }) }
    {
        let walks = walk_rows(alloc, schema)?;
        let befores = before_rows(alloc, schema)?;
        let nexts = all_nexts(alloc, schema)?;
        let words = word_rows(alloc, schema, &walks, lengths)?;
        let moves = Moves::of(schema.copy(alloc)?, lengths, stars, words);
        let afters = move_rows(alloc, &moves)?;
        let goals = goal_rows(alloc, &moves, &afters)?;
        Ok(Reach {
            moves,
            walks,
            befores,
            nexts,
            afters,
            goals,
        })
    }

    /// The number of types, at most [`TYPES_MOST`](sel_algebra::TYPES_MOST).
    pub fn type_count(&self) -> u8
        ensures count { result ≡ length self.now.schema.kinds }
        ensures few { result ≤ TYPES_MOST }
        ensures reach { IsReach self.now }
    {
        self.moves.type_count()
    }

    /// Whether words may be starred.
    pub fn stars(&self) -> bool
        ensures { result ≡ self.now.stars }
    {
        self.moves.stars()
    }

    /// Whether exactly `len` symbols, at most [`SYMBOLS_MOST`](crate::SYMBOLS_MOST), carry a state to a state.
    #[tactic(auto, using(crate::proofs::WalkLemmas::walk_agrees))]
    pub fn reaches(&self, from: State, to: State, len: u8) -> bool
        requires from_start { from.start < length self.now.schema.kinds }
        requires from_at { from.at < length self.now.schema.kinds }
        requires to_at { to.at < length self.now.schema.kinds }
        requires len { len ≤ symbols_most }
        ensures test { result ≡ can_walk self.now.schema len from to }
        ensures exact { IsTrue result ↔ HasWalk self.now.schema len from to }
    {
        can_walk(&self.befores, self.moves.schema(), len, from, to)
    }

    /// The places to which exactly `len` symbols, at most [`SYMBOLS_MOST`](crate::SYMBOLS_MOST), carry a state.
    ///
    /// The place of a state is five times the number of the type to which it has come, and the number of its operator in
    /// the order of [`Op`]. The state has the start of `from`.
    pub fn states_after(&self, from: State, len: u8) -> &BitRow<10>
        requires start { from.start < length self.now.schema.kinds }
        requires here { from.at < length self.now.schema.kinds }
        requires len { len ≤ symbols_most }
        ensures test { (p : ℕ) → has result.now p ≡ can_reach self.now.schema len from p }
        ensures exact { (at : ℕ) (op : Op) → IsTrue (has result.now (place_of at op)) ↔ HasWalk self.now.schema len from (came_to from.start at op) }
    {
        states_after(&self.walks, self.moves.schema(), from, len)
    }

    /// The places from which exactly `len` symbols, at most [`SYMBOLS_MOST`](crate::SYMBOLS_MOST), carry a state of the start
    /// of `to` to the state `to`.
    ///
    /// Places are those of [`Reach::states_after`].
    pub fn states_before(&self, to: State, len: u8) -> &BitRow<10>
        requires start { to.start < length self.now.schema.kinds }
        requires there { to.at < length self.now.schema.kinds }
        requires len { len ≤ symbols_most }
        ensures test { (p : ℕ) → has result.now p ≡ comes_from self.now.schema len to p }
        ensures exact { (at : ℕ) (op : Op) → IsTrue (has result.now (place_of at op)) ↔ HasWalk self.now.schema len (came_to to.start at op) to }
    {
        states_before(&self.befores, self.moves.schema(), to, len)
    }

    /// The places of the plain moves from a type: the type to which a move leads, with its value.
    pub fn plain_moves(&self, from: u8) -> &BitRow<10>
        requires { from < length self.now.schema.kinds }
        ensures { (p : ℕ) → has result.now p ≡ leads_at self.now from p }
    {
        self.moves.plain_row(from)
    }

    /// Whether some word of permitted length leads from a type to a type with a value: a plain move.
    #[tactic(auto, using(crate::proofs::MoveLemmas::plain_agrees))]
    pub fn word(&self, from: u8, to: u8, value: Op) -> bool
        requires from { from < length self.now.schema.kinds }
        requires to { to < length self.now.schema.kinds }
        ensures test { result ≡ is_plain self.now from to value }
        ensures exact { IsTrue result ↔ IsPlainMove self.now from to value }
    {
        self.moves.is_plain(from, to, value)
    }

    /// Whether it is a move from a type: a plain one, and where it is starred, one that leads from the type to itself, and
    /// words may be starred.
    #[tactic(auto, using(crate::proofs::MoveLemmas::move_agrees))]
    pub fn is_move(&self, from: u8, m: Move) -> bool
        requires from { from < length self.now.schema.kinds }
        requires to { m.to < length self.now.schema.kinds }
        ensures test { result ≡ is_move self.now from m }
        ensures exact { IsTrue result ↔ IsMove self.now from m }
    {
        self.moves.is_move(from, m)
    }

    /// The state after a further move.
    pub fn moved(&self, state: State, m: Move) -> State
        requires start { state.start < length self.now.schema.kinds }
        requires to { m.to < length self.now.schema.kinds }
        ensures state { result ≡ moved self.now.schema state m }
        ensures start { result.start < length self.now.schema.kinds }
        ensures here { result.at < length self.now.schema.kinds }
    {
        self.moves.moved(state, m)
    }

    /// The state after a further symbol.
    pub fn carried(&self, state: State, symbol: Symbol) -> State
        requires start { state.start < length self.now.schema.kinds }
        requires symbol { symbol.edge < length self.now.schema.edges }
        ensures state { result ≡ carried self.now.schema state symbol }
        ensures start { result.start < length self.now.schema.kinds }
        ensures here { result.at < length self.now.schema.kinds }
    {
        let schema = self.moves.schema();
        state.carried_to(schema, schema.end_of(symbol), schema.op_of(symbol))
    }

    /// The places of the states to which the symbols that start where a state has come carry it, in the order of the symbols.
    pub fn next_places(&self, from: State) -> &[u16]
        requires start { from.start < length self.now.schema.kinds }
        requires here { from.at < length self.now.schema.kinds }
        ensures { result.now ≡ next_places self.now.schema from }
    {
        next_places(&self.nexts, self.moves.schema(), from)
    }

    /// Whether one move carries a state to a state.
    #[tactic(auto, using(crate::proofs::GoalLemmas::step_agrees))]
    pub fn step(&self, from: State, to: State) -> bool
        requires from_start { from.start < length self.now.schema.kinds }
        requires from_at { from.at < length self.now.schema.kinds }
        requires to_at { to.at < length self.now.schema.kinds }
        ensures { IsTrue result ↔ ((m : Move) × CarriesByMove self.now from m to) }
    {
        can_step(&self.afters, &self.moves, from, to)
    }

    /// Whether exactly so many moves, at most [`MOVES_MOST`](crate::MOVES_MOST), lead from a type to a type.
    #[tactic(auto, using(crate::proofs::MoveLemmas::joins_agree))]
    pub fn joins(&self, from: u8, to: u8, moves: u8) -> bool
        requires from { from < length self.now.schema.kinds }
        requires to { to < length self.now.schema.kinds }
        requires moves { moves ≤ moves_most }
        ensures test { result ≡ joins self.now moves from to }
        ensures exact { IsTrue result ↔ Joins self.now moves from to }
    {
        joins(&self.afters, &self.moves, moves, from, to)
    }

    /// Whether exactly so many moves, at most [`MOVES_MOST`](crate::MOVES_MOST), carry a state to one that meets a goal.
    ///
    /// The goal's second path has at most [`SECOND_MOST`](crate::SECOND_MOST) moves.
    #[tactic(auto, using(crate::proofs::MoveLemmas::feasible_agrees))]
    pub fn feasible(&self, from: State, moves: u8, goal: Goal) -> bool
        requires start { from.start < length self.now.schema.kinds }
        requires here { from.at < length self.now.schema.kinds }
        requires moves { moves ≤ moves_most }
        requires second { goal.second ≤ second_most }
        ensures test { result ≡ feasible self.now goal moves from }
        ensures exact { IsTrue result ↔ IsFeasible self.now goal moves from }
    {
        feasible(&self.goals, &self.afters, &self.moves, moves, from, goal)
    }
}
