//! What is drawn for a whole query: its shape, its class, and whether there is such a query.

ghost use Rattle.std.specs.Prelude.{◌≡◌, ◌≤◌, ◌+◌, length};
ghost use Rattle.seeded_draw.specs.Draw.{word, pick_of};
ghost use Rattle.query_draw.specs.Drawn.{words_for, drawn_from};
ghost use Rattle.query_draw.specs.Query.{reach_of, drawn_shape, drawn_class, has_query};

use gm_config::{Config, Range};
use seeded_draw::{pick, stream, word_at};
use sel_algebra::{Class, Shape};
use sel_graph::Reach;
use walk_pick::pick_count;

/// The tag of the streams from which queries are drawn.
pub(crate) const TAG: u8 = 7;

/// The word at a place of a rule of a query.
pub(crate) fn rule_word(seed: u64, query: u32, rule: u32, place: u64) -> u64
    ensures { result ≡ words_for seed query rule place }
{
    word_at(seed, stream(TAG, query, rule), place)
}

/// The number of a range that a word picks.
pub(crate) fn draw_from(range: Range, w: u64) -> u8
    requires { range.least ≤ range.most }
    ensures value { result ≡ drawn_from range w }
    ensures least { range.least ≤ result }
    ensures most { result ≤ range.most }
{
    let count = (range.most - range.least) as u64 + 1;
    range.least + pick(w, count) as u8
}

/// The shape of a query.
pub(crate) fn draw_shape(config: &Config, seed: u64, query: u32) -> Shape
    ensures { result ≡ drawn_shape config.now seed query }
{
    let shapes = &config.workload().shapes;
    let place = pick(rule_word(seed, query, 0, 0), shapes.len() as u64);
    *shapes.at(place as usize)
}

/// The class of a query.
pub(crate) fn draw_class(config: &Config, seed: u64, query: u32) -> Class
    ensures { result ≡ drawn_class config.now seed query }
{
    let classes = &config.workload().classes;
    let place = pick(rule_word(seed, query, 0, 1), classes.len() as u64);
    *classes.at(place as usize)
}

/// Whether some number of conjuncts can meet the shape and the class of a query.
#[tactic(auto, using(walk_pick::proofs::PickLemmas::some_is_any))]
pub(crate) fn has_query(config: &Config, reach: &Reach, seed: u64, query: u32) -> bool
    requires { reach.now ≡ reach_of config.now }
    ensures { result ≡ has_query config.now seed query }
{
    let shape = draw_shape(config, seed, query);
    let class = draw_class(config, seed, query);
    pick_count(reach, shape, class, config.workload().conjuncts, 0).is_some()
}
