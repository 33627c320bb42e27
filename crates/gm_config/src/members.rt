//! Looking into a value that was read from JSON.

ghost use Rattle.std.specs.Prelude.{◌≡◌, ◌==◌, map, false, is_some};
ghost use Rattle.std.specs.List.{list_all};
ghost use Rattle.std.specs.Option.{option_map_or};
ghost use Rattle.serde_json.specs.Events.{members_len};
ghost use Rattle.serde_json.specs.Find.{get, as_object};
ghost use Rattle.serde_json.specs.View.{view};
ghost use Rattle.gm_config.specs.Json.{elements, elements_at, text, text_at, number, number_at, has_exactly};

use serde_json::Value;

/// The elements of an array, none of another value.
pub(crate) fn elements(value: &Value) -> &[Value]
    ensures { map view result.now ≡ elements (view value.now) }
{
    match value.as_array() {
        Some(items) => items,
        None => &[],
    }
}

/// The elements of the array at a member, none where there is no array.
pub(crate) fn elements_at<'v>(value: &'v Value, name: &str) -> &'v [Value]
    ensures { map view result.now ≡ elements_at name.now (view value.now) }
{
    match value.get(name) {
        Some(member) => elements(member),
        None => &[],
    }
}

/// The bytes of a string, none of another value.
pub(crate) fn text(value: &Value) -> &[u8]
    ensures { result.now ≡ text (view value.now) }
{
    match value.as_str() {
        Some(text) => text.as_bytes(),
        None => &[],
    }
}

/// The bytes of the string at a member, none where there is no string.
pub(crate) fn text_at<'v>(value: &'v Value, name: &str) -> &'v [u8]
    ensures { result.now ≡ text_at name.now (view value.now) }
{
    match value.get(name) {
        Some(member) => text(member),
        None => &[],
    }
}

/// The whole number that a value is, where it is from `least` to `most`.
pub(crate) fn number(value: &Value, least: u32, most: u32) -> Option<u32>
    ensures { result ≡ number least most (view value.now) }
{
    let number = value.as_u64()?;
    if number < u64::from(least) || number > u64::from(most) {
        return None;
    }
    Some(number as u32)
}

/// The whole number at a member, where it is from `least` to `most`.
pub(crate) fn number_at(value: &Value, name: &str, least: u32, most: u32) -> Option<u32>
    ensures { result ≡ number_at name.now least most (view value.now) }
{
    match value.get(name) {
        Some(member) => number(member, least, most),
        None => None,
    }
}

/// Whether it is an object with these members and no others. The names all differ.
pub(crate) fn has_exactly(value: &Value, names: &[&str]) -> bool
    ensures { result ≡ has_exactly (map (λ name. name.now) names.now) (view value.now) }
{
    has_count(value, names.len()) && has_each(value, names)
}

fn has_count(value: &Value, count: usize) -> bool
    ensures { result ≡ option_map_or (λ members. members_len members == count) (as_object (view value.now)) false }
{
    match value.as_object() {
        Some(members) => members.len() == count,
        None => false,
    }
}

fn has_each(value: &Value, names: &[&str]) -> bool
    ensures { result ≡ list_all (λ name. is_some (get name.now (view value.now))) names.now }
{
    names.iter().all(|name| value.get(*name).is_some())
}
