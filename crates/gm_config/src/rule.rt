//! Rules that are tried on each element of an array.

ghost use Rattle.std.specs.Prelude.{◌≡◌, ◌<◌, ◌^◌, ℕ, Bool, true, List, length, map};
ghost use Rattle.std.specs.List.{list_any};
ghost use Rattle.serde_json.specs.Data.{Data};
ghost use Rattle.serde_json.specs.View.{view};
ghost use Rattle.gm_config.specs.Rule.{has_within, first_without, first_repeat, holds_at, differs_at};

use serde_json::Value;

/// The first rule that a value breaks.
#[derive(Clone, Copy)]
pub(crate) struct Breach {
    /// The number of the rule, from 1 to 24.
    pub(crate) rule: u8,
    /// The first index at which it is broken.
    pub(crate) index: u32,
}

/// An array of a configuration.
pub(crate) trait Array {
    ghost elements: { Data → List Data };

    ghost MOST: { ℕ };

    /// The most elements that it may have.
    const MOST: u32;

    /// Its elements in the configuration with this value, none where there is no array.
    fn elements(value: &Value) -> &[Value]
        ensures { map view result.now ≡ elements (view value.now) };

    ghost small: { MOST < 2 ^ 32 };
}

/// A test of the elements of an array.
pub(crate) trait Test {
    type Of: Array;

    ghost test: { Data → Data → Bool };

    /// Whether the element passes, in the configuration with this value.
    fn passes(value: &Value, element: &Value) -> bool
        ensures { result ≡ test (view value.now) (view element.now) };
}

/// In what two elements of an array may be the same.
pub(crate) trait Sameness {
    type Of: Array;

    ghost same: { Data → Data → Bool };

    /// Whether the two elements are the same.
    fn are_same(one: &Value, other: &Value) -> bool
        ensures { result ≡ same (view one.now) (view other.now) };
}

/// Whether the array has at least one element, and at most as many as it may have.
pub(crate) fn has_within<A: Array>(value: &Value) -> bool
    ensures { result ≡ has_within A.MOST (A.elements (view value.now)) }
{
    let elements = A::elements(value);
    1 <= elements.len() && elements.len() <= A::MOST as usize
}

/// The number of its elements.
fn count<A: Array>(value: &Value) -> u32
    requires { has_within A.MOST (A.elements (view value.now)) ≡ true }
    ensures { result ≡ length (A.elements (view value.now)) }
{
    A::elements(value).len() as u32
}

/// The place of the first element that fails the test.
pub(crate) fn first_failing<T: Test>(value: &Value) -> Option<u32>
    requires { has_within T.Of.MOST (T.Of.elements (view value.now)) ≡ true }
    ensures { result ≡ first_without (T.test (view value.now)) (T.Of.elements (view value.now)) }
{
    (0..count::<T::Of>(value)).find(|i| !holds_at::<T>(value, *i))
}

fn holds_at<T: Test>(value: &Value, i: u32) -> bool
    ensures { result ≡ holds_at (T.test (view value.now)) (T.Of.elements (view value.now)) i }
{
    match T::Of::elements(value).get(i as usize) {
        Some(element) => T::passes(value, element),
        None => false,
    }
}

/// The place of the first element that is the same as an earlier one.
pub(crate) fn first_repeated<S: Sameness>(value: &Value) -> Option<u32>
    requires { has_within S.Of.MOST (S.Of.elements (view value.now)) ≡ true }
    ensures { result ≡ first_repeat S.same (S.Of.elements (view value.now)) }
{
    (0..count::<S::Of>(value)).find(|i| !differs_at::<S>(value, *i))
}

fn differs_at<S: Sameness>(value: &Value, i: u32) -> bool
    ensures { result ≡ differs_at S.same (S.Of.elements (view value.now)) i }
{
    let elements = S::Of::elements(value);
    match elements.get(i as usize) {
        Some(element) => !is_among::<S>(element, &elements[..i as usize]),
        None => false,
    }
}

fn is_among<S: Sameness>(element: &Value, elements: &[Value]) -> bool
    ensures { result ≡ list_any (λ other. S.same (view element.now) (view other)) elements.now }
{
    elements.iter().any(|other| S::are_same(element, other))
}
