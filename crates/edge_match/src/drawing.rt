//! The degrees of the nodes of a configuration's constraints, and their totals.

ghost use Rattle.std.specs.Prelude.{◌≡◌, ◌<◌, ◌≤◌, ℕ, false, true, None, Some, length, sum, MatchOption, IfOk, OnOk};
ghost use Rattle.gm_config.specs.Limits.{nodes_most};
ghost use Rattle.edge_match.specs.ConfigSides.{opposite, is_free};
ghost use Rattle.edge_match.specs.declared.errors.TooManyStubs.{TooManyStubs};
ghost use Rattle.edge_match.specs.DrawnDegrees.{degrees_by, side_table, table_degrees, table_total, side_degrees, side_total};
ghost use Rattle.edge_match.specs.StubLimit.{stubs_most};
ghost use Rattle.edge_match.specs.Limit.{too_many, side_over, first_side_over, IsWithinLimit, IsFirstOver};

use crate::config_sides::{Side, count_of, is_free, spec_of};
use crate::errors::{MatchError, TooManyStubs};
use crate::free_side::counted;
use crate::sides::{STUBS_MOST, total_of};
use degree_table::DegreeTable;
use gm_config::Config;
use gm_text::Items;
use seeded_draw::{Draws, stream};
use std::alloc::{AllocError, Global};

/// The degrees of the nodes of a side, in the order of the nodes.
pub type Degrees = Items<u32>;

/// The sum of the drawn degrees of a side that is not free. `c` is the number of the constraint. It fails only
/// where memory runs out.
pub fn side_total(
    alloc: Global,
    config: &Config,
    seed: u64,
    c: u8,
    side: Side,
) -> Result<u64, AllocError>
    requires known { c < length config.now.constraints }
    requires drawn { is_free config.now c side ≡ false }
    ensures { IfOk result (λ total. total ≡ side_total config.now seed c side) }
{
    let table = table_at(alloc, config, c, side)?;
    Ok(total_from(config, &table, seed, c, side))
}

/// The first side that is not free and whose total is above 4,194,304, by constraint, and out before in.
/// It fails only where memory runs out.
pub fn first_over(
    alloc: Global,
    config: &Config,
    seed: u64,
) -> Result<Option<TooManyStubs>, AllocError>
    ensures { IfOk result (λ over. MatchOption over
        (IsWithinLimit config.now seed) (λ report. IsFirstOver config.now seed report)) }
{
    for c in 0..config.constraint_count() {
        let over = first_side_over(alloc, config, seed, c)?;
        if over.is_some() {
            return Ok(over);
        }
    }
    Ok(None)
}

/// The drawn degrees of a side. `c` is the number of the constraint, which has no side above the limit. It
/// fails only where memory runs out.
pub fn side_degrees(
    alloc: Global,
    config: &Config,
    seed: u64,
    c: u8,
    side: Side,
) -> Result<Degrees, AllocError>
    requires known { c < length config.now.constraints }
    requires within { first_side_over config.now seed c ≡ None }
    ensures { IfOk result (λ degrees. degrees ≡ side_degrees config.now seed c side) }
{
    if is_free(config, c, side) {
        let total = opposite_total(alloc, config, seed, c, side)?;
        let degrees = free_degrees(alloc, config, seed, c, side, total)?;
        return Ok(Degrees::of(degrees));
    }
    let degrees = table_degrees(alloc, config, seed, c, side)?;
    Ok(Degrees::of(degrees))
}

/// The number of stubs of the side opposite to a free one.
fn opposite_total(
    alloc: Global,
    config: &Config,
    seed: u64,
    c: u8,
    side: Side,
) -> Result<u32, AllocError>
    requires known { c < length config.now.constraints }
    requires drawn { is_free config.now c (opposite side) ≡ false }
    requires within { first_side_over config.now seed c ≡ None }
    ensures { IfOk result (λ total. total ≡ table_total config.now seed c (opposite side)) }
{
    let total = side_total(alloc, config, seed, c, side.opposite())?;
    Ok(total as u32)
}

/// The first side of a constraint that is not free and whose total is above the limit.
fn first_side_over(
    alloc: Global,
    config: &Config,
    seed: u64,
    c: u8,
) -> Result<Option<TooManyStubs>, AllocError>
    requires { c < length config.now.constraints }
    ensures { IfOk result (λ over. over ≡ first_side_over config.now seed c) }
{
    let over = side_over(alloc, config, seed, c, Side::Out)?;
    if over.is_some() {
        return Ok(over);
    }
    side_over(alloc, config, seed, c, Side::In)
}

/// The report of a side, if it is not free and its total is above the limit.
fn side_over(
    alloc: Global,
    config: &Config,
    seed: u64,
    c: u8,
    side: Side,
) -> Result<Option<TooManyStubs>, AllocError>
    requires { c < length config.now.constraints }
    ensures { IfOk result (λ over. over ≡ side_over config.now seed c side) }
{
    if is_free(config, c, side) {
        return Ok(None);
    }
    let table = table_at(alloc, config, c, side)?;
    if greatest_total(&table, count_of(config, c, side)) <= STUBS_MOST {
        return Ok(None);
    }
    let total = total_from(config, &table, seed, c, side);
    Ok(too_many(c, side, total))
}

/// The report of a total, if it is above the limit.
fn too_many(constraint: u8, side: Side, total: u64) -> Option<TooManyStubs>
    ensures { result ≡ too_many constraint side total }
{
    if total > STUBS_MOST {
        Some(TooManyStubs {
            constraint,
            side,
            total,
        })
    } else {
        None
    }
}

/// The degrees of a side that is not free, refused where there are too many stubs.
pub(crate) fn degrees_within_limit(
    alloc: Global,
    config: &Config,
    seed: u64,
    c: u8,
    side: Side,
) -> Result<Vec<u32>, MatchError>
    requires known { c < length config.now.constraints }
    requires drawn { is_free config.now c side ≡ false }
    ensures degrees { IfOk result (λ degrees. degrees.items ≡ side_degrees config.now seed c side) }
    ensures few { IfOk result (λ degrees. sum degrees.items ≤ stubs_most) }
    ensures few_nodes { IfOk result (λ degrees. length degrees.items ≤ nodes_most) }
    ensures within { OnOk result (side_over config.now seed c side ≡ None) }
    ensures over { (report : TooManyStubs) → result ≡ Err (MatchError.TooManyStubs report)
        → side_over config.now seed c side ≡ Some report }
{
    let degrees = table_degrees(alloc, config, seed, c, side)?;
    match too_many(c, side, total_of(&degrees)) {
        Some(report) => Err(MatchError::TooManyStubs(report)),
        None => Ok(degrees),
    }
}

/// The degrees of a free side. `total` is the number of stubs of the other side.
pub(crate) fn free_degrees(
    alloc: Global,
    config: &Config,
    seed: u64,
    c: u8,
    side: Side,
    total: u32,
) -> Result<Vec<u32>, AllocError>
    requires known { c < length config.now.constraints }
    requires free { is_free config.now c side ≡ true }
    requires total { total ≡ table_total config.now seed c (opposite side) }
    ensures degrees { IfOk result (λ degrees. degrees.items ≡ side_degrees config.now seed c side) }
    ensures few { IfOk result (λ degrees. sum degrees.items ≤ total) }
{
    let picks = stream(side.pick_tag(), u32::from(c), 0);
    counted(alloc, seed, picks, count_of(config, c, side), total)
}

/// The degrees of a side that is not free, each picked from the table of its specification.
#[tactic(auto, unfolding(crate::specs::DrawnDegrees::table_degrees))]
fn table_degrees(
    alloc: Global,
    config: &Config,
    seed: u64,
    c: u8,
    side: Side,
) -> Result<Vec<u32>, AllocError>
    requires known { c < length config.now.constraints }
    requires drawn { is_free config.now c side ≡ false }
    ensures degrees { IfOk result (λ degrees. degrees.items ≡ table_degrees config.now seed c side) }
    ensures few { IfOk result (λ degrees. length degrees.items ≤ nodes_most) }
{
    let table = table_at(alloc, config, c, side)?;
    let words = stream(side.degree_tag(), u32::from(c), 0);
    degrees_by(alloc, &table, seed, words, count_of(config, c, side))
}

/// The table of the specification of a side that is not free.
fn table_at(alloc: Global, config: &Config, c: u8, side: Side) -> Result<DegreeTable, AllocError>
    requires known { c < length config.now.constraints }
    requires drawn { is_free config.now c side ≡ false }
    ensures { IfOk result (λ table. table ≡ side_table config.now c side) }
{
    let spec = spec_of(config, c, side);
    DegreeTable::of(alloc, spec, count_of(config, c, side.opposite()))
}

/// The sum of the degrees of a side that is not free, each picked from the table of its specification.
#[tactic(auto, unfolding(crate::specs::DrawnDegrees::table_degrees))]
fn total_from(config: &Config, table: &DegreeTable, seed: u64, c: u8, side: Side) -> u64
    requires known { c < length config.now.constraints }
    requires table { table.now ≡ side_table config.now c side }
    ensures { result ≡ table_total config.now seed c side }
{
    let words = stream(side.degree_tag(), u32::from(c), 0);
    total_by(table, seed, words, count_of(config, c, side))
}

/// The sum of so many degrees if each were the greatest of a table: no words pick more.
fn greatest_total(table: &DegreeTable, count: u32) -> u64
    ensures { (seed stream : ℕ) → sum (degrees_by table.now seed stream count) ≤ result }
{
    u64::from(table.greatest()) * u64::from(count)
}

/// The sum of the degrees that as many words of a stream pick from a table.
fn total_by(table: &DegreeTable, seed: u64, stream: u128, count: u32) -> u64
    ensures { result ≡ sum (degrees_by table.now seed stream count) }
{
    let mut total = 0;
    let mut draws = Draws::new(seed, stream);
    for _ in 0..count {
        total += u64::from(table.degree_at(draws.next()));
    }
    total
}

/// The degrees that as many words of a stream pick from a table.
fn degrees_by(
    alloc: Global,
    table: &DegreeTable,
    seed: u64,
    stream: u128,
    count: u32,
) -> Result<Vec<u32>, AllocError>
    ensures degrees { IfOk result (λ degrees. degrees.items ≡ degrees_by table.now seed stream count) }
    ensures length { IfOk result (λ degrees. length degrees.items ≡ count) }
{
    let mut degrees = Vec::with_capacity(alloc, count as usize)?;
    let mut draws = Draws::new(seed, stream);
    for _ in 0..count {
        degrees.push(table.degree_at(draws.next()))?;
    }
    Ok(degrees)
}
