//! All rules of a configuration, in the order in which they are tried.

ghost use Rattle.std.specs.Prelude.{◌≡◌, option_map};
ghost use Rattle.serde_json.specs.View.{view};
ghost use Rattle.gm_config.specs.Rule.{first_broken};
ghost use Rattle.gm_config.specs.Rules.{rules};

use crate::constraint_rules::first_broken_constraint_rule;
use crate::label_rules::first_broken_label_rule;
use crate::rule::Breach;
use crate::type_rules::first_broken_type_rule;
use crate::workload_rules::first_broken_workload_rule;
use serde_json::Value;

/// The first rule that the value breaks, at its first index.
pub(crate) fn first_broken_rule(value: &Value) -> Option<Breach>
    ensures { option_map (λ b. (b.rule, b.index)) result ≡ first_broken rules (view value.now) }
{
    if let Some(broken) = first_broken_type_rule(value) {
        return Some(broken);
    }
    if let Some(broken) = first_broken_label_rule(value) {
        return Some(broken);
    }
    if let Some(broken) = first_broken_constraint_rule(value) {
        return Some(broken);
    }
    first_broken_workload_rule(value)
}
