//! The words of a conjunct, put into a query that is being built.

ghost use Rattle.std.specs.Prelude.{◌≡◌, ◌+◌, ◌<◌, ◌≤◌, ◌++◌, ◌∷◌, ◌^◌, [], false, true, length, OnOk};
ghost use Rattle.sel_graph.specs.States.{begun, came_to, carried};
ghost use Rattle.sel_graph.specs.Tests.{can_walk};
ghost use Rattle.walk_pick.specs.Candidates.{has_length};
ghost use Rattle.query_terms.specs.Building.{symbols_most};
ghost use Rattle.query_draw.specs.Drawn.{word_place, symbol_place, drawn_symbol, drawn_length};
ghost use Rattle.query_draw.specs.Drawers.{random_words, draws_at, symbols_by, word_by, words_by, IsLeg, with_symbols};

use crate::drawer::{Drawer, word_place};
use crate::legs::Leg;
use query_terms::QueryBuilder;
use seeded_draw::Draws;
use sel_algebra::Symbol;
use sel_graph::State;
use std::alloc::AllocError;
use walk_pick::{pick_length, pick_symbol};

/// Puts the words of conjunct `i` into the conjunct that is begun.
pub(crate) fn draw_words(
    builder: &mut QueryBuilder<'_>,
    drawer: &Drawer<'_>,
    leg: Leg,
    i: u8,
) -> Result<(), AllocError>
    requires usable { builder.old.refused ≡ false }
    requires labels { length builder.old.labels ≡ length drawer.now.schema.now.edges }
    requires few { builder.old.taken + 256 ≤ symbols_most }
    requires word { builder.old.word ≡ [] }
    requires leg { IsLeg drawer.now.reach.now leg }
    ensures put { OnOk result (builder.new ≡ record builder.old { words = builder.old.words ++ words_by drawer.now leg i; taken = builder.new.taken }) }
    ensures few { OnOk result (builder.new.taken ≤ builder.old.taken + 256) }
{
    for j in 0..drawer.word_count(i) {
        draw_word(builder, drawer, leg, i, j)?;
    }
    Ok(())
}

/// Puts word `j` of conjunct `i` into the conjunct that is begun.
fn draw_word(
    builder: &mut QueryBuilder<'_>,
    drawer: &Drawer<'_>,
    leg: Leg,
    i: u8,
    j: u8,
) -> Result<(), AllocError>
    requires usable { builder.old.refused ≡ false }
    requires labels { length builder.old.labels ≡ length drawer.now.schema.now.edges }
    requires few { builder.old.taken + 32 ≤ symbols_most }
    requires word { builder.old.word ≡ [] }
    requires leg { IsLeg drawer.now.reach.now leg }
    ensures put { OnOk result (builder.new ≡ record builder.old { words = builder.old.words ++ word_by drawer.now leg i j ∷ []; taken = builder.new.taken }) }
    ensures few { OnOk result (builder.new.taken ≤ builder.old.taken + 32) }
{
    let mut draws = drawer.words_from(word_place(i, j));
    let len = draw_length(drawer, &mut draws, leg, i, j);
    let to = State {
        start: leg.from,
        at: leg.via.to,
        op: leg.via.value,
    };
    let from = State::begun(leg.from);
    draw_symbols(builder, drawer, &mut draws, from, to, len)?;
    builder.end_word()?;
    Ok(())
}

/// The length of word `j` of conjunct `i`, by the next random word, behind which are those of its symbols.
fn draw_length(drawer: &Drawer<'_>, draws: &mut Draws, leg: Leg, i: u8, j: u8) -> u8
    requires draws { draws.old ≡ draws_at drawer.now (word_place i j) }
    requires small { draws.old.taken < 2 ^ 32 }
    requires leg { IsLeg drawer.now.reach.now leg }
    ensures draws { draws.new ≡ draws_at drawer.now (symbol_place i j) }
    ensures length { result ≡ drawn_length drawer.now.reach.now (random_words drawer.now) leg i j }
    ensures some { 1 ≤ result }
    ensures few { result ≤ 32 }
    ensures walk { has_length drawer.now.reach.now leg.from leg.via result ≡ true }
{
    let w = draws.next();
    match pick_length(drawer.reach, leg.from, leg.via, drawer.workload.length, w) {
        Some(len) => len,
        None => unreachable!(),
    }
}

/// Puts so many symbols, from one state to another, into the word that is begun, each by the next random word.
fn draw_symbols(
    builder: &mut QueryBuilder<'_>,
    drawer: &Drawer<'_>,
    draws: &mut Draws,
    from: State,
    to: State,
    len: u8,
) -> Result<(), AllocError>
    requires usable { builder.old.refused ≡ false }
    requires labels { length builder.old.labels ≡ length drawer.now.schema.now.edges }
    requires few { builder.old.taken + len ≤ symbols_most }
    requires long { len ≤ 32 }
    requires draws { draws.old ≡ draws_at drawer.now draws.old.taken }
    requires small { draws.old.taken < 2 ^ 32 }
    requires start { from.start < length drawer.now.schema.now.kinds }
    requires here { from.at < length drawer.now.schema.now.kinds }
    requires there { to.at < length drawer.now.schema.now.kinds }
    requires walk { can_walk drawer.now.schema.now len from to ≡ true }
    ensures { OnOk result (builder.new ≡ with_symbols builder.old (symbols_by drawer.now to from len draws.old.taken)) }
{
    let mut state = from;
    for j in 0..len {
        let symbol = draw_symbol(drawer, draws, state, to, len - 1 - j);
        builder.symbol(symbol)?;
        state = drawer.reach.carried(state, symbol);
    }
    Ok(())
}

/// The symbol that the next random word picks, from where a state has come.
fn draw_symbol(drawer: &Drawer<'_>, draws: &mut Draws, from: State, to: State, left: u8) -> Symbol
    requires draws { draws.old ≡ draws_at drawer.now draws.old.taken }
    requires small { draws.old.taken < 2 ^ 32 + 32 }
    requires left { left < 32 }
    requires start { from.start < length drawer.now.schema.now.kinds }
    requires here { from.at < length drawer.now.schema.now.kinds }
    requires there { to.at < length drawer.now.schema.now.kinds }
    requires walk { can_walk drawer.now.schema.now (left + 1) from to ≡ true }
    ensures draws { draws.new ≡ draws_at drawer.now (draws.old.taken + 1) }
    ensures symbol { result ≡ drawn_symbol drawer.now.schema.now (random_words drawer.now) to from left draws.old.taken }
    ensures edge { result.edge < length drawer.now.schema.now.edges }
    ensures walk { can_walk drawer.now.schema.now left (carried drawer.now.schema.now from result) to ≡ true }
{
    let w = draws.next();
    match pick_symbol(drawer.reach, drawer.schema, from, to, left, w) {
        Some(symbol) => symbol,
        None => unreachable!(),
    }
}
