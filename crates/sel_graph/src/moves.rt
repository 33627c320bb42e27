//! The moves between the types of a schema.

ghost use Rattle.std.specs.Prelude.{◌≡◌, ℕ, ◌*◌, ◌<◌, ◌≤◌, ◌==◌, not, ◌||◌, ◌&&◌, length};
ghost use Rattle.sel_graph.specs.States.{carried_to};
ghost use Rattle.sel_graph.specs.Moves.{IsReach, effect, moved};
ghost use Rattle.bit_rows.specs.Sets.{has};
ghost use Rattle.sel_graph.specs.Steps.{move_place};
ghost use Rattle.sel_graph.specs.Tables.{HasWords};
ghost use Rattle.sel_graph.specs.Tests.{leads_at, is_plain, is_move};

use crate::places::{op_at, place_of};
use crate::states::{Move, State};
use bit_rows::{BitRow, Grid};
use gm_config::Range;
use schema_graph::Schema;
use sel_algebra::{Kind, Op, TYPES_MOST, compose, normal, star};
use std::marker::Model;

/// The moves of a schema: what words of permitted lengths lead to, and whether they may be starred.
#[derive(Drop)]
pub(crate) struct Moves {
    schema: Schema,
    lengths: Range,
    stars: bool,
    /// For each type the places to which words of permitted lengths lead.
    words: Grid<10>,
}

impl Model for Moves {
    ghost use Rattle.sel_graph.specs.Moves.{ReachValue, IsReach};
    ghost use Rattle.sel_graph.specs.Tables.{HasWords};

    ghost Value = { ReachValue };

    ghost view = { λ m. record { schema = m.schema; lengths = m.lengths; stars = m.stars } };

    ghost invariant = { λ m. IsReach record { schema = m.schema; lengths = m.lengths; stars = m.stars }
        × HasWords record { schema = m.schema; lengths = m.lengths; stars = m.stars } m.words };
}

impl Moves {
    /// The moves, by the places to which words lead.
    pub(crate) fn of(schema: Schema, lengths: Range, stars: bool, words: Grid<10>) -> Moves
        requires reach { IsReach record { schema = schema; lengths = lengths; stars = stars } }
        requires words { HasWords record { schema = schema; lengths = lengths; stars = stars } words }
        ensures { result ≡ record { schema = schema; lengths = lengths; stars = stars } }
    {
        Moves {
            schema,
            lengths,
            stars,
            words,
        }
    }

    /// The number of types.
    pub(crate) fn type_count(&self) -> u8
        ensures count { result ≡ length self.now.schema.kinds }
        ensures few { result ≤ TYPES_MOST }
        ensures reach { IsReach self.now }
    {
        self.schema.kind_count()
    }

    /// Whether words may be starred.
    pub(crate) fn stars(&self) -> bool
        ensures { result ≡ self.now.stars }
    {
        self.stars
    }

    /// The schema of the types.
    pub(crate) fn schema(&self) -> &Schema
        ensures { result.now ≡ self.now.schema }
    {
        &self.schema
    }

    /// The places of the plain moves from a type.
    pub(crate) fn plain_row(&self, t: u8) -> &BitRow<10>
        requires { t < length self.now.schema.kinds }
        ensures { (p : ℕ) → has result.now p ≡ leads_at self.now t p }
    {
        self.words.row(t as u32)
    }

    /// Whether some word of permitted length leads from a type to a type with a value.
    pub(crate) fn is_plain(&self, t: u8, to: u8, value: Op) -> bool
        requires t { t < length self.now.schema.kinds }
        requires to { to < length self.now.schema.kinds }
        ensures { result ≡ is_plain self.now t to value }
    {
        self.words.row(t as u32).get(place_of(to, value))
    }

    /// Whether it is a move from a type.
    pub(crate) fn is_move(&self, t: u8, m: Move) -> bool
        requires t { t < length self.now.schema.kinds }
        requires to { m.to < length self.now.schema.kinds }
        ensures { result ≡ is_move self.now t m }
    {
        self.is_plain(t, m.to, m.value) && may_lead(self.stars, t, m)
    }

    /// The state after a further move.
    pub(crate) fn moved(&self, state: State, m: Move) -> State
        requires start { state.start < length self.now.schema.kinds }
        requires to { m.to < length self.now.schema.kinds }
        ensures { result ≡ moved self.now.schema state m }
    {
        state.carried_to(&self.schema, m.to, effect(m))
    }

    /// The place to which a move carries a place, from a start of a kind.
    pub(crate) fn move_place(&self, kind: Kind, place: u32, m: Move) -> u32
        requires { m.to < length self.now.schema.kinds }
        ensures value { result ≡ move_place self.now.schema kind place m }
        ensures within { result < 5 * length self.now.schema.kinds }
    {
        let op = compose(op_at(place % 5), effect(m));
        place_of(m.to, normal(op, kind, self.schema.kind(m.to)))
    }
}

/// Whether a move may be starred, if it is.
fn may_lead(stars: bool, t: u8, m: Move) -> bool
    ensures { result ≡ (not m.star || (stars && (m.to == t))) }
{
    !m.star || (stars && m.to == t)
}

/// The operator of a move.
fn effect(m: Move) -> Op
    ensures { result ≡ effect m }
{
    if m.star { star(m.value) } else { m.value }
}
