//! Degree specifications: how the degrees of the nodes of a type are drawn.

ghost use Rattle.std.specs.Prelude.{◌≡◌, ◌&&◌, nat_le, true, length, map, codes, is_some, Some, IfOk};
ghost use Rattle.std.specs.List.{list_all, list_any};
ghost use Rattle.std.specs.Str.{bytes_eq};
ghost use Rattle.serde_json.specs.View.{view};
ghost use Rattle.gm_config.specs.Json.{text_at, number, number_at, has_exactly};
ghost use Rattle.gm_config.specs.Limits.{exponent_most, weight_most, weights_most};
ghost use Rattle.gm_config.specs.DegreeSpec.{uniform_in, bell_in, zipf_in, zipf_to_max_in, free_in, plain_in, are_weights, weights_of, table_in, is_degree_spec, degree_spec_of};

use crate::limits::{DEGREE_MOST, EXPONENT_MOST, WEIGHT_MOST, WEIGHTS_MOST};
use crate::members::{elements_at, has_exactly, number, number_at, text_at};
use gm_text::Items;
use serde_json::Value;
use std::alloc::{AllocError, Global};

/// The weights of the degrees from 0 on.
pub type Weights = Items<u32>;

/// How the degree of a node is drawn, on one side of a constraint.
#[derive(Drop)]
pub enum DegreeSpec {
    /// Each degree from `min` to `max`, all alike.
    Uniform { min: u32, max: u32 },
    /// A degree at most `width` away from `center`, the nearer the likelier.
    Bell { center: u32, width: u32 },
    /// A degree k from 1 to `max`, with a weight as `1 / k^exponent`. With no `max` it is the number of
    /// nodes of the type at the other side, or the nearest number from 1 to [`DEGREE_MOST`](crate::DEGREE_MOST).
    Zipf { exponent: u8, max: Option<u32> },
    /// The degree i with the weight at place i.
    Table { weights: Weights },
    /// As many edges as the other side has.
    Free,
}

/// Whether the value is a degree specification.
pub(crate) fn is_degree_spec(value: &Value) -> bool
    ensures { result ≡ is_degree_spec (view value.now) }
{
    match plain_in(value) {
        Some(_) => true,
        None => is_table(value),
    }
}

/// The degree specification that the value is.
pub(crate) fn read_degree_spec(alloc: Global, value: &Value) -> Result<DegreeSpec, AllocError>
    requires { is_degree_spec (view value.now) ≡ true }
    ensures { IfOk result (λ spec. spec ≡ degree_spec_of (view value.now)) }
{
    match plain_in(value) {
        Some(spec) => Ok(spec),
        None => read_table(alloc, value),
    }
}

/// The specification that the value is, if it is one and no table.
fn plain_in(value: &Value) -> Option<DegreeSpec>
    ensures { result ≡ plain_in (view value.now) }
{
    if let Some(spec) = uniform_in(value) {
        return Some(spec);
    }
    if let Some(spec) = bell_in(value) {
        return Some(spec);
    }
    if let Some(spec) = zipf_in(value) {
        return Some(spec);
    }
    if let Some(spec) = zipf_to_max_in(value) {
        return Some(spec);
    }
    free_in(value)
}

fn uniform_in(value: &Value) -> Option<DegreeSpec>
    ensures { result ≡ uniform_in (view value.now) }
{
    if !is_of_kind(value, "uniform", &["kind", "min", "max"]) {
        return None;
    }
    let max = number_at(value, "max", 0, DEGREE_MOST)?;
    let min = number_at(value, "min", 0, max)?;
    Some(DegreeSpec::Uniform { min, max })
}

fn bell_in(value: &Value) -> Option<DegreeSpec>
    ensures { result ≡ bell_in (view value.now) }
{
    if !is_of_kind(value, "bell", &["kind", "center", "width"]) {
        return None;
    }
    let center = number_at(value, "center", 0, DEGREE_MOST)?;
    let width = number_at(value, "width", 0, DEGREE_MOST)?;
    if width > DEGREE_MOST - center {
        return None;
    }
    Some(DegreeSpec::Bell { center, width })
}

fn zipf_in(value: &Value) -> Option<DegreeSpec>
    ensures { result ≡ zipf_in (view value.now) }
{
    if !is_of_kind(value, "zipf", &["kind", "exponent"]) {
        return None;
    }
    let exponent = exponent_in(value)?;
    Some(DegreeSpec::Zipf {
        exponent,
        max: None,
    })
}

fn zipf_to_max_in(value: &Value) -> Option<DegreeSpec>
    ensures { result ≡ zipf_to_max_in (view value.now) }
{
    if !is_of_kind(value, "zipf", &["kind", "exponent", "max"]) {
        return None;
    }
    let exponent = exponent_in(value)?;
    let max = number_at(value, "max", 1, DEGREE_MOST)?;
    Some(DegreeSpec::Zipf {
        exponent,
        max: Some(max),
    })
}

fn exponent_in(value: &Value) -> Option<u8>
    ensures { result ≡ number_at (codes "exponent") 1 exponent_most (view value.now) }
{
    let exponent = number_at(value, "exponent", 1, EXPONENT_MOST)?;
    Some(exponent as u8)
}

fn free_in(value: &Value) -> Option<DegreeSpec>
    ensures { result ≡ free_in (view value.now) }
{
    if !is_of_kind(value, "free", &["kind"]) {
        return None;
    }
    Some(DegreeSpec::Free)
}

fn is_table(value: &Value) -> bool
    ensures { result ≡ is_some (table_in (view value.now)) }
{
    is_of_kind(value, "table", &["kind", "weights"]) && are_weights(elements_at(value, "weights"))
}

fn read_table(alloc: Global, value: &Value) -> Result<DegreeSpec, AllocError>
    requires { is_some (table_in (view value.now)) ≡ true }
    ensures { IfOk result (λ spec. table_in (view value.now) ≡ Some spec) }
{
    let weights = read_weights(alloc, elements_at(value, "weights"))?;
    Ok(DegreeSpec::Table {
        weights: Items::of(weights),
    })
}

fn is_of_kind(value: &Value, kind: &str, members: &[&str]) -> bool
    ensures { result ≡ (bytes_eq (text_at (codes "kind") (view value.now)) kind.now
        && has_exactly (map (λ name. name.now) members.now) (view value.now)) }
{
    text_at(value, "kind") == kind.as_bytes() && has_exactly(value, members)
}

fn are_weights(values: &[Value]) -> bool
    ensures { result ≡ are_weights (map view values.now) }
{
    let count = values.len();
    1 <= count && count <= WEIGHTS_MOST && are_numbers(values) && has_positive(values)
}

fn are_numbers(values: &[Value]) -> bool
    ensures { result ≡ list_all (λ value. is_some (number 0 weight_most (view value))) values.now }
{
    values
        .iter()
        .all(|value| number(value, 0, WEIGHT_MOST).is_some())
}

fn has_positive(values: &[Value]) -> bool
    ensures { result ≡ list_any (λ value. is_some (number 1 weight_most (view value))) values.now }
{
    values
        .iter()
        .any(|value| number(value, 1, WEIGHT_MOST).is_some())
}

fn read_weights(alloc: Global, values: &[Value]) -> Result<Vec<u32>, AllocError>
    ensures { IfOk result (λ weights. weights.items ≡ weights_of (map view values.now)) }
{
    values
        .iter()
        .filter_map(|value| number(value, 0, WEIGHT_MOST))
        .collect(alloc)
}
