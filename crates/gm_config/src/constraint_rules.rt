//! The rules on the constraints, which say how the edges with one label go from one type to one type.

ghost use Rattle.std.specs.Prelude.{◌≡◌, ◌<◌, length, option_map, unwrap_or, IfSome};
ghost use Rattle.serde_json.specs.Data.{null};
ghost use Rattle.serde_json.specs.Find.{get};
ghost use Rattle.serde_json.specs.View.{view};
ghost use Rattle.std.proofs.Common.{arith};
ghost use Rattle.gm_config.specs.Limits.{constraints_most};
ghost use Rattle.gm_config.specs.Rule.{first_broken};
ghost use Rattle.gm_config.specs.TypeRules.{types};
ghost use Rattle.gm_config.specs.LabelRules.{labels};
ghost use Rattle.gm_config.specs.DegreeSpec.{is_degree_spec};
ghost use Rattle.gm_config.specs.ConstraintRules.{constraint_rules, constraints, is_constraint, has_known_names, same_names, has_out_spec, has_in_spec, has_bound_side, is_free, source_of, label_of, target_of, type_place, label_place};

use crate::degree_specs::is_degree_spec;
use crate::label_rules::Labels;
use crate::limits::CONSTRAINTS_MOST;
use crate::members::{elements_at, has_exactly, text, text_at};
use crate::rule::{Array, Breach, Sameness, Test, first_failing, first_repeated, has_within};
use crate::type_rules::{Types, type_name};
use serde_json::Value;

/// The first of the rules 13 to 19 that the value breaks, at its first index.
pub(crate) fn first_broken_constraint_rule(value: &Value) -> Option<Breach>
    ensures { option_map (λ b. (b.rule, b.index)) result ≡ first_broken constraint_rules (view value.now) }
{
    if !has_within::<Constraints>(value) {
        return Some(Breach { rule: 13, index: 0 });
    }
    if let Some(index) = first_failing::<IsConstraint>(value) {
        return Some(Breach { rule: 14, index });
    }
    if let Some(index) = first_failing::<HasKnownNames>(value) {
        return Some(Breach { rule: 15, index });
    }
    if let Some(index) = first_repeated::<ConstraintNames>(value) {
        return Some(Breach { rule: 16, index });
    }
    if let Some(index) = first_failing::<HasOutSpec>(value) {
        return Some(Breach { rule: 17, index });
    }
    if let Some(index) = first_failing::<HasInSpec>(value) {
        return Some(Breach { rule: 18, index });
    }
    if let Some(index) = first_failing::<HasBoundSide>(value) {
        return Some(Breach { rule: 19, index });
    }
    None
}

/// The constraints of a configuration.
pub(crate) struct Constraints;

impl Array for Constraints {
    ghost elements = { constraints };

    ghost MOST = { constraints_most };

    const MOST: u32 = CONSTRAINTS_MOST;

    fn elements(value: &Value) -> &[Value] {
        elements_at(value, "constraints")
    }

    ghost small = { omega arith };
}

/// The name of a constraint's source type.
pub(crate) fn source_of(constraint: &Value) -> &[u8]
    ensures { result.now ≡ source_of (view constraint.now) }
{
    text_at(constraint, "source")
}

/// The name of a constraint's label.
pub(crate) fn label_of(constraint: &Value) -> &[u8]
    ensures { result.now ≡ label_of (view constraint.now) }
{
    text_at(constraint, "label")
}

/// The name of a constraint's target type.
pub(crate) fn target_of(constraint: &Value) -> &[u8]
    ensures { result.now ≡ target_of (view constraint.now) }
{
    text_at(constraint, "target")
}

/// The number of the type with a name.
pub(crate) fn type_place(value: &Value, name: &[u8]) -> Option<usize>
    ensures place { result ≡ type_place (view value.now) name.now }
    ensures bound { IfSome result (λ place. place < length (types (view value.now))) }
{
    let types = Types::elements(value);
    types.iter().position(|t| type_name(t) == name)
}

/// The number of the label with a name.
pub(crate) fn label_place(value: &Value, name: &[u8]) -> Option<usize>
    ensures place { result ≡ label_place (view value.now) name.now }
    ensures bound { IfSome result (λ place. place < length (labels (view value.now))) }
{
    let labels = Labels::elements(value);
    labels.iter().position(|label| text(label) == name)
}

/// A constraint is an object with exactly its members.
struct IsConstraint;

impl Test for IsConstraint {
    type Of = Constraints;

    ghost test = { λ _ c. is_constraint c };

    fn passes(_: &Value, constraint: &Value) -> bool {
        has_exactly(constraint, &["source", "label", "target", "out", "in"])
    }
}

/// A constraint's ends name types, and its label names a label.
struct HasKnownNames;

impl Test for HasKnownNames {
    type Of = Constraints;

    ghost test = { has_known_names };

    fn passes(value: &Value, constraint: &Value) -> bool {
        type_place(value, source_of(constraint)).is_some()
            && label_place(value, label_of(constraint)).is_some()
            && type_place(value, target_of(constraint)).is_some()
    }
}

/// Two constraints have one source, one label and one target.
struct ConstraintNames;

impl Sameness for ConstraintNames {
    type Of = Constraints;

    ghost same = { same_names };

    fn are_same(one: &Value, other: &Value) -> bool {
        source_of(one) == source_of(other)
            && label_of(one) == label_of(other)
            && target_of(one) == target_of(other)
    }
}

/// A constraint's out side has a degree specification.
struct HasOutSpec;

impl Test for HasOutSpec {
    type Of = Constraints;

    ghost test = { λ _ c. has_out_spec c };

    fn passes(_: &Value, constraint: &Value) -> bool {
        has_spec(constraint, "out")
    }
}

/// A constraint's in side has a degree specification.
struct HasInSpec;

impl Test for HasInSpec {
    type Of = Constraints;

    ghost test = { λ _ c. has_in_spec c };

    fn passes(_: &Value, constraint: &Value) -> bool {
        has_spec(constraint, "in")
    }
}

/// One of a constraint's two sides is not free.
struct HasBoundSide;

impl Test for HasBoundSide {
    type Of = Constraints;

    ghost test = { λ _ c. has_bound_side c };

    fn passes(_: &Value, constraint: &Value) -> bool {
        !(is_free(constraint, "out") && is_free(constraint, "in"))
    }
}

fn has_spec(constraint: &Value, side: &str) -> bool
    ensures { result ≡ is_degree_spec (unwrap_or (get side.now (view constraint.now)) null) }
{
    match constraint.get(side) {
        Some(spec) => is_degree_spec(spec),
        None => false,
    }
}

fn is_free(constraint: &Value, side: &str) -> bool
    ensures { result ≡ is_free (unwrap_or (get side.now (view constraint.now)) null) }
{
    match constraint.get(side) {
        Some(spec) => text_at(spec, "kind") == b"free".as_slice(),
        None => false,
    }
}
