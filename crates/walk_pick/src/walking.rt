//! The length and the symbols of a word.

ghost use Rattle.std.specs.Prelude.{◌≡◌, ◌↔◌, ◌<◌, ◌≤◌, ◌+◌, ◌-◌, ℕ, true, [], length, slice_index_or, IsNone, IfSome, option_map};
ghost use Rattle.bit_rows.specs.Sets.{has};
ghost use Rattle.candidates.specs.Picked.{picked, numbers_that};
ghost use Rattle.schema_graph.specs.Edge.{start_of};
ghost use Rattle.schema_graph.specs.Schema.{IsSchema};
ghost use Rattle.schema_graph.specs.Symbols.{symbols_of};
ghost use Rattle.sel_graph.specs.Moves.{symbols_most};
ghost use Rattle.sel_graph.specs.States.{came_to, next_places};
ghost use Rattle.sel_graph.specs.Tests.{comes_from};
ghost use Rattle.walk_pick.specs.Candidates.{has_length, length_candidates, keeps_walk, nth_symbol, symbol_candidates};

use crate::ranges::{count_of, from_least};
use bit_rows::BitRow;
use candidates::{Candidates, pick_among};
use gm_config::Range;
use schema_graph::Schema;
use sel_algebra::Symbol;
use sel_graph::{Move, Reach, State};

/// The lengths from the least on that a word from a type to the end of a move with its value can have.
#[derive(Drop)]
struct Lengths<'a> {
    reach: &'a Reach,
    from: u8,
    end: Move,
    range: Range,
    ghost start: { from < length reach.now.schema.kinds },
    ghost there: { end.to < length reach.now.schema.kinds },
    ghost few: { range.most ≤ symbols_most },
}

impl<'a> Candidates for Lengths<'a> {
    ghost live = { λ s i. has_length s.reach.now s.from s.end (s.range.least + i) };

    ghost range = { λ s. s.range.most + 1 - s.range.least };

    fn numbers(&self) -> u32 {
        count_of(self.range)
    }

    fn is_live(&self, i: u32) -> bool {
        let to = State {
            start: self.from,
            at: self.end.to,
            op: self.end.value,
        };
        self.reach
            .reaches(State::begun(self.from), to, self.range.least + i as u8)
    }
}

/// The symbols from a state after which so many further symbols can lead to a state.
#[derive(Drop)]
struct Symbols<'a> {
    schema: &'a Schema,
    at: State,
    to: State,
    left: u8,
    /// How many symbols start there.
    count: u32,
    /// The places of the states after each of them.
    next: &'a [u16],
    /// The places from which so many symbols lead to where `to` has come, from the start of `at`.
    before: &'a BitRow<10>,
    ghost known: { IsSchema schema.now },
    ghost count_is: { count ≡ length (symbols_of schema.now.edges at.at) },
    ghost next_are: { next.now ≡ next_places schema.now at },
    ghost before_are: { (p : ℕ) → has before.now p ≡ comes_from schema.now left (came_to at.start to.at to.op) p },
}

impl<'a> Candidates for Symbols<'a> {
    ghost live = { λ s i. keeps_walk s.schema.now s.at s.to s.left (nth_symbol s.schema.now s.at.at i) };

    ghost range = { λ s. length (symbols_of s.schema.now.edges s.at.at) };

    fn numbers(&self) -> u32 {
        self.count
    }

    fn is_live(&self, i: u32) -> bool {
        let after = self.next[i as usize] as u32;
        self.to.start == self.at.start && self.before.get(after)
    }
}

/// The length of a word: one of the range that a word from a type to the end of a move with its value can have.
///
/// `None` comes exactly where there is no such length. The range lies within 1 to
/// [`SYMBOLS_MOST`](sel_graph::SYMBOLS_MOST).
pub fn pick_length(reach: &Reach, from: u8, mv: Move, range: Range, w: u64) -> Option<u8>
    requires start { from < length reach.now.schema.kinds }
    requires there { mv.to < length reach.now.schema.kinds }
    requires some { 1 ≤ range.least }
    requires few { range.most ≤ symbols_most }
    ensures value { result ≡ picked w (length_candidates reach.now from mv range) }
    ensures none { IsNone result ↔ (length_candidates reach.now from mv range ≡ []) }
    ensures live { IfSome result (λ n. (range.least ≤ n) × (n ≤ range.most) × (has_length reach.now from mv n ≡ true)) }
{
    let lengths = Lengths {
        reach,
        from,
        end: mv,
        range,
    };
    from_least(range.least, pick_among(&lengths, w))
}

/// The next symbol of a word: one from where the state has come after which exactly `left` further symbols can carry it to
/// the state `to`.
///
/// `None` comes exactly where there is no such symbol. With this symbol they are at most
/// [`SYMBOLS_MOST`](sel_graph::SYMBOLS_MOST). The schema is the one of which `reach` was built.
pub fn pick_symbol(
    reach: &Reach,
    schema: &Schema,
    at: State,
    to: State,
    left: u8,
    w: u64,
) -> Option<Symbol>
    requires same { reach.now.schema ≡ schema.now }
    requires start { at.start < length schema.now.kinds }
    requires here { at.at < length schema.now.kinds }
    requires there { to.at < length schema.now.kinds }
    requires few { left + 1 ≤ symbols_most }
    ensures value { result ≡ picked w (symbol_candidates schema.now at to left) }
    ensures none { IsNone result ↔ (symbol_candidates schema.now at to left ≡ []) }
    ensures live { IfSome result (λ c. (c.edge < length schema.now.edges) × (start_of schema.now.edges c ≡ at.at) × (keeps_walk schema.now at to left c ≡ true)) }
{
    let end = State {
        start: at.start,
        at: to.at,
        op: to.op,
    };
    let symbols = Symbols {
        schema,
        at,
        to,
        left,
        count: schema.symbol_count(at.at),
        next: reach.next_places(at),
        before: reach.states_before(end, left),
    };
    match pick_among(&symbols, w) {
        Some(i) => Some(nth_symbol(schema, at.at, i)),
        None => None,
    }
}

/// The symbol with a number among those that start at a type.
fn nth_symbol(schema: &Schema, t: u8, i: u32) -> Symbol
    requires t { t < length schema.now.kinds }
    requires i { i < length (symbols_of schema.now.edges t) }
    ensures symbol { result ≡ nth_symbol schema.now t i }
    ensures edge { result.edge < length schema.now.edges }
    ensures start { start_of schema.now.edges result ≡ t }
{
    schema.symbol_from(t, i)
}
