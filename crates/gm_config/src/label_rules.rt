//! The rules on the labels of edges.

ghost use Rattle.std.specs.Prelude.{◌≡◌, option_map};
ghost use Rattle.serde_json.specs.View.{view};
ghost use Rattle.std.proofs.Common.{arith};
ghost use Rattle.gm_config.specs.Limits.{labels_most};
ghost use Rattle.gm_config.specs.Rule.{first_broken};
ghost use Rattle.gm_config.specs.LabelRules.{label_rules, labels, is_label, same_label};

use crate::limits::LABELS_MOST;
use crate::members::{elements_at, text};
use crate::rule::{Array, Breach, Sameness, Test, first_failing, first_repeated, has_within};
use gm_text::is_name;
use serde_json::Value;

/// The first of the rules 10 to 12 that the value breaks, at its first index.
pub(crate) fn first_broken_label_rule(value: &Value) -> Option<Breach>
    ensures { option_map (λ b. (b.rule, b.index)) result ≡ first_broken label_rules (view value.now) }
{
    if !has_within::<Labels>(value) {
        return Some(Breach { rule: 10, index: 0 });
    }
    if let Some(index) = first_failing::<IsLabel>(value) {
        return Some(Breach { rule: 11, index });
    }
    if let Some(index) = first_repeated::<Label>(value) {
        return Some(Breach { rule: 12, index });
    }
    None
}

/// The labels of a configuration.
pub(crate) struct Labels;

impl Array for Labels {
    ghost elements = { labels };

    ghost MOST = { labels_most };

    const MOST: u32 = LABELS_MOST;

    fn elements(value: &Value) -> &[Value] {
        elements_at(value, "labels")
    }

    ghost small = { omega arith };
}

/// A label is a name.
struct IsLabel;

impl Test for IsLabel {
    type Of = Labels;

    ghost test = { λ _ label. is_label label };

    fn passes(_: &Value, label: &Value) -> bool {
        is_name(text(label))
    }
}

/// Two labels are one name.
struct Label;

impl Sameness for Label {
    type Of = Labels;

    ghost same = { same_label };

    fn are_same(one: &Value, other: &Value) -> bool {
        text(one) == text(other)
    }
}
