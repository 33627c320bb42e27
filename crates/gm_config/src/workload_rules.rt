//! The workload of a configuration: what is asked of its queries.

ghost use Rattle.std.specs.Prelude.{◌≡◌, ◌≤◌, ◌&&◌, nat_le, true, Option, length, map, slice_get, option_and_then, codes, option_map, is_some, unwrap_or, IfOk};
ghost use Rattle.std.specs.List.{All, list_all, list_any, filter_map};
ghost use Rattle.std.specs.Str.{bytes_eq};
ghost use Rattle.serde_json.specs.Data.{Data};
ghost use Rattle.serde_json.specs.Find.{get};
ghost use Rattle.serde_json.specs.View.{view};
ghost use Rattle.gm_config.specs.Json.{text, number_at};
ghost use Rattle.gm_config.specs.Limits.{range_limits};
ghost use Rattle.gm_config.specs.Rule.{first_failing, first_broken};
ghost use Rattle.gm_config.specs.CodeLimits.{seen};
ghost use Rattle.gm_config.specs.WorkloadRules.{workload_rules, shape_in, class_in, are_different, are_choices, range_within, range_in, range_under, range_at, range_of, format_of, has_workload_members, has_numbers, has_choices, allows_two_conjuncts, allows_cycles, KeepsWorkloadRules, KeepsRules, workload_in, workload_of};

use crate::limits::{
    CLASSES_MOST, QUERIES_MOST, RANGE_COUNT, RANGES, RangeLimits, SHAPES_MOST, STAR_MOST,
};
use crate::members::{elements, elements_at, has_exactly, number, number_at, text};
use crate::rule::Breach;
use gm_text::Items;
use sel_algebra::{Class, Shape};
use serde_json::Value;
use std::alloc::{AllocError, Global};

/// A list of shapes.
pub type Shapes = Items<Shape>;

/// A list of classes.
pub type Classes = Items<Class>;

/// From where to where a number is drawn, both ends among them.
#[derive(Clone, Copy, Debug, PartialEq, Eq)]
pub struct Range {
    /// The least number.
    pub least: u8,
    /// The greatest number.
    pub most: u8,
}

/// Exactly two.
const PAIR: Range = Range { least: 2, most: 2 };

/// What is asked of the queries.
#[derive(Drop)]
pub struct Workload {
    /// The number of queries, from 0 to [`QUERIES_MOST`].
    pub queries: u32,
    /// The shapes that are drawn from.
    pub shapes: Shapes,
    /// The classes that are drawn from.
    pub classes: Classes,
    /// How many conjuncts are to be starred, in thousandths, from 0 to [`STAR_MOST`].
    pub star: u32,
    /// The number of rules of a query, from 1 to 4.
    pub rules: Range,
    /// The number of conjuncts of a rule, from 1 to 8.
    pub conjuncts: Range,
    /// The number of words of a conjunct, from 1 to 8.
    pub disjuncts: Range,
    /// The number of symbols of a word, from 1 to 32.
    pub length: Range,
    /// The number of heads of a query, from 0 to 4.
    pub arity: Range,
    /// The format of the text of the queries: 2 where the configuration has a range of heads, and else 1,
    /// in which each query has exactly two heads.
    pub format: u8,
}

/// The first of the rules 20 to 24 that the value breaks, at its first index.
pub(crate) fn first_broken_workload_rule(value: &Value) -> Option<Breach>
    ensures { option_map (λ b. (b.rule, b.index)) result ≡ first_broken workload_rules (view value.now) }
{
    let Some(workload) = value.get("workload") else {
        return Some(Breach { rule: 20, index: 0 });
    };
    if !has_workload_members(workload) {
        return Some(Breach { rule: 20, index: 0 });
    }
    if !has_numbers(workload) {
        return Some(Breach { rule: 21, index: 0 });
    }
    if let Some(index) = first_broken_choice(workload) {
        return Some(Breach { rule: 22, index });
    }
    if let Some(index) = first_broken_range(workload) {
        return Some(Breach { rule: 23, index });
    }
    if !allows_cycles(workload) {
        return Some(Breach { rule: 24, index: 0 });
    }
    None
}

fn first_broken_choice(workload: &Value) -> Option<u32>
    ensures { result ≡ first_failing (λ i. has_choices i (view workload.now)) 2 }
{
    (0..2u32).find(|i| !has_choices(workload, *i))
}

fn first_broken_range(workload: &Value) -> Option<u32>
    ensures { result ≡ first_failing (λ i. is_some (range_at i (view workload.now))) (length range_limits) }
{
    (0..RANGE_COUNT).find(|i| range_at(workload, *i).is_none())
}

/// The workload of the value.
pub(crate) fn read_workload(alloc: Global, value: &Value) -> Result<Workload, AllocError>
    requires { KeepsWorkloadRules (view value.now) }
    ensures { IfOk result (λ workload. workload ≡ workload_of (view value.now)) }
{
    match value.get("workload") {
        Some(workload) => read_member(alloc, workload),
        None => unreachable!(),
    }
}

fn read_member(alloc: Global, workload: &Value) -> Result<Workload, AllocError>
    requires { KeepsRules (view workload.now) }
    ensures { IfOk result (λ read. read ≡ workload_in (view workload.now)) }
{
    let shapes = Items::of(read_choices(alloc, elements_at(workload, "shapes"))?);
    let classes = Items::of(read_choices(alloc, elements_at(workload, "classes"))?);
    Ok(Workload {
        queries: number_of(workload, "queries", QUERIES_MOST),
        shapes,
        classes,
        star: number_of(workload, "star", STAR_MOST),
        rules: range_of(workload, 0),
        conjuncts: range_of(workload, 1),
        disjuncts: range_of(workload, 2),
        length: range_of(workload, 3),
        arity: range_of(workload, 4),
        format: format_of(workload),
    })
}

fn number_of(workload: &Value, name: &str, most: u32) -> u32
    ensures { result ≡ unwrap_or (number_at name.now 0 most (view workload.now)) 0 }
{
    number_at(workload, name, 0, most).unwrap_or(0)
}

fn format_of(workload: &Value) -> u8
    ensures { result ≡ format_of (view workload.now) }
{
    if workload.get("arity").is_some() {
        2
    } else {
        1
    }
}

fn has_workload_members(workload: &Value) -> bool
    ensures { result ≡ has_workload_members (view workload.now) }
{
    let members = [
        "arity",
        "queries",
        "shapes",
        "classes",
        "star",
        "rules",
        "conjuncts",
        "disjuncts",
        "length",
    ];
    has_exactly(workload, &members[1..]) || has_exactly(workload, &members)
}

fn has_numbers(workload: &Value) -> bool
    ensures { result ≡ has_numbers (view workload.now) }
{
    number_at(workload, "queries", 0, QUERIES_MOST).is_some()
        && number_at(workload, "star", 0, STAR_MOST).is_some()
}

/// Whether the workload's `shapes`, at index 0, or `classes`, at index 1, are different names.
fn has_choices(workload: &Value, index: u32) -> bool
    ensures { result ≡ has_choices index (view workload.now) }
{
    match index {
        0 => are_choices::<Shape>(elements_at(workload, "shapes"), SHAPES_MOST),
        _ => are_choices::<Class>(elements_at(workload, "classes"), CLASSES_MOST),
    }
}

/// What a configuration chooses by its name.
trait Choice: Copy {
    ghost choice: { Data → Option Self };

    /// The choice whose name the value is.
    fn choice_in(value: &Value) -> Option<Self>
        ensures { result ≡ choice (view value.now) };
}

impl Choice for Shape {
    ghost choice = { shape_in };

    fn choice_in(value: &Value) -> Option<Shape> {
        if is_text(value, b"chain") {
            return Some(Shape::Chain);
        }
        if is_text(value, b"star") {
            return Some(Shape::Star);
        }
        if is_text(value, b"cycle") {
            return Some(Shape::Cycle);
        }
        if is_text(value, b"starchain") {
            return Some(Shape::StarChain);
        }
        None
    }
}

impl Choice for Class {
    ghost choice = { class_in };

    fn choice_in(value: &Value) -> Option<Class> {
        if is_text(value, b"constant") {
            return Some(Class::Constant);
        }
        if is_text(value, b"linear") {
            return Some(Class::Linear);
        }
        if is_text(value, b"quadratic") {
            return Some(Class::Quadratic);
        }
        None
    }
}

fn are_choices<C: Choice>(values: &[Value], most: usize) -> bool
    ensures { result ≡ are_choices C.choice most (map view values.now) }
{
    1 <= values.len() && values.len() <= most && are_named::<C>(values) && are_different(values)
}

fn are_named<C: Choice>(values: &[Value]) -> bool
    ensures { result ≡ list_all (λ value. is_some (C.choice (view value))) values.now }
{
    values.iter().all(|value| C::choice_in(value).is_some())
}

fn read_choices<C: Choice>(alloc: Global, values: &[Value]) -> Result<Vec<C>, AllocError>
    ensures { IfOk result (λ choices. choices.items ≡ filter_map C.choice (map view values.now)) }
{
    values
        .iter()
        .filter_map(|value| C::choice_in(value))
        .collect(alloc)
}

fn are_different(values: &[Value]) -> bool
    ensures { result ≡ are_different (map view values.now) }
{
    let [first, later @ ..] = values else {
        return true;
    };
    if has_text(later, text(first)) {
        return false;
    }
    are_different(later)
}

fn has_text(values: &[Value], wanted: &[u8]) -> bool
    ensures { result ≡ list_any (λ value. bytes_eq (text value) wanted.now) (map view values.now) }
{
    values.iter().any(|value| is_text(value, wanted))
}

fn is_text(value: &Value, wanted: &[u8]) -> bool
    ensures { result ≡ bytes_eq (text (view value.now)) wanted.now }
{
    text(value) == wanted
}

fn range_of(workload: &Value, index: u32) -> Range
    ensures { result ≡ range_of index (view workload.now) }
{
    range_at(workload, index).unwrap_or(PAIR)
}

/// The range at an index, exactly two where the workload has no such member.
fn range_at(workload: &Value, index: u32) -> Option<Range>
    ensures { result ≡ range_at index (view workload.now) }
{
    range_among(workload, &RANGES, index)
}

fn range_among(workload: &Value, ranges: &[RangeLimits], index: u32) -> Option<Range>
    requires { All (λ limits. limits.most ≤ 255) ranges.now }
    ensures { result ≡ range_under (map seen ranges.now) index (view workload.now) }
{
    match ranges.get(index as usize) {
        Some(limits) => range_in(workload, limits),
        None => None,
    }
}

fn range_in(workload: &Value, limits: &RangeLimits) -> Option<Range>
    requires { limits.now.most ≤ 255 }
    ensures { result ≡ range_in (seen limits.now) (view workload.now) }
{
    match workload.get(limits.name) {
        Some(range) => range_within(elements(range), limits.least, limits.most),
        None => Some(PAIR),
    }
}

fn range_within(values: &[Value], least: u32, most: u32) -> Option<Range>
    requires { most ≤ 255 }
    ensures { result ≡ range_within least most (map view values.now) }
{
    let [first, last] = values else {
        return None;
    };
    let greatest = number(last, least, most)?;
    let smallest = number(first, least, greatest)?;
    Some(Range {
        least: smallest as u8,
        most: greatest as u8,
    })
}

fn allows_cycles(workload: &Value) -> bool
    ensures { result ≡ allows_cycles (view workload.now) }
{
    if !has_text(elements_at(workload, "shapes"), b"cycle") {
        return true;
    }
    allows_two_conjuncts(workload)
}

fn allows_two_conjuncts(workload: &Value) -> bool
    ensures { result ≡ allows_two_conjuncts (view workload.now) }
{
    match range_at(workload, 1) {
        Some(range) => 2 <= range.most,
        None => false,
    }
}
