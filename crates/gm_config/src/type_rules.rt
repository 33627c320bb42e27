//! The rules on the number of nodes and the types of nodes.

ghost use Rattle.std.specs.Prelude.{◌≡◌, ◌≤◌, map, sum_by, nat_le, option_map};
ghost use Rattle.serde_json.specs.View.{view};
ghost use Rattle.std.proofs.Common.{arith};
ghost use Rattle.gm_config.specs.Limits.{nodes_most, types_most, thousand};
ghost use Rattle.gm_config.specs.Rule.{first_broken};
ghost use Rattle.gm_config.specs.TypeRules.{type_rules, rule_8, nodes_of, types, type_name, is_type, is_named_type, same_type_name, has_amount, amount_of, share, type_share, node_count, type_nodes};

use crate::limits::{NODES_MOST, THOUSAND, TYPES_MOST};
use crate::members::{elements_at, has_exactly, number_at, text_at};
use crate::rule::{Array, Breach, Sameness, Test, first_failing, first_repeated, has_within};
use crate::values::Amount;
use gm_text::is_name;
use serde_json::Value;

/// The first of the rules 1 to 9 that the value breaks, at its first index.
pub(crate) fn first_broken_type_rule(value: &Value) -> Option<Breach>
    ensures { option_map (λ b. (b.rule, b.index)) result ≡ first_broken type_rules (view value.now) }
{
    if !has_exactly(
        value,
        &["nodes", "types", "labels", "constraints", "workload"],
    ) {
        return Some(Breach { rule: 1, index: 0 });
    }
    let Some(nodes) = nodes_of(value) else {
        return Some(Breach { rule: 2, index: 0 });
    };
    if !has_within::<Types>(value) {
        return Some(Breach { rule: 3, index: 0 });
    }
    if let Some(index) = first_failing::<IsType>(value) {
        return Some(Breach { rule: 4, index });
    }
    if let Some(index) = first_failing::<IsNamedType>(value) {
        return Some(Breach { rule: 5, index });
    }
    if let Some(index) = first_repeated::<TypeName>(value) {
        return Some(Breach { rule: 6, index });
    }
    if let Some(index) = first_failing::<HasAmount>(value) {
        return Some(Breach { rule: 7, index });
    }
    if !have_shares_within(value) {
        return Some(Breach { rule: 8, index: 0 });
    }
    if !have_nodes_within(value, nodes) {
        return Some(Breach { rule: 9, index: 0 });
    }
    None
}

/// The number of nodes that a configuration asks for, where it is in its limits.
pub(crate) fn nodes_of(value: &Value) -> Option<u32>
    ensures { result ≡ nodes_of (view value.now) }
{
    number_at(value, "nodes", 1, NODES_MOST)
}

/// The types of a configuration.
pub(crate) struct Types;

impl Array for Types {
    ghost elements = { types };

    ghost MOST = { types_most };

    const MOST: u32 = TYPES_MOST;

    fn elements(value: &Value) -> &[Value] {
        elements_at(value, "types")
    }

    ghost small = { omega arith };
}

/// The name of a type.
pub(crate) fn type_name(value: &Value) -> &[u8]
    ensures { result.now ≡ type_name (view value.now) }
{
    text_at(value, "name")
}

/// A type is an object with exactly a name and a share, or a name and a count.
struct IsType;

impl Test for IsType {
    type Of = Types;

    ghost test = { λ _ t. is_type t };

    fn passes(_: &Value, value: &Value) -> bool {
        has_exactly(value, &["name", "share"]) || has_exactly(value, &["name", "count"])
    }
}

/// A type's name is a name.
struct IsNamedType;

impl Test for IsNamedType {
    type Of = Types;

    ghost test = { λ _ t. is_named_type t };

    fn passes(_: &Value, value: &Value) -> bool {
        is_name(type_name(value))
    }
}

/// Two types have one name.
struct TypeName;

impl Sameness for TypeName {
    type Of = Types;

    ghost same = { same_type_name };

    fn are_same(one: &Value, other: &Value) -> bool {
        type_name(one) == type_name(other)
    }
}

/// A type's share or count is a number in its limits.
struct HasAmount;

impl Test for HasAmount {
    type Of = Types;

    ghost test = { λ _ t. has_amount t };

    fn passes(_: &Value, value: &Value) -> bool {
        amount_of(value).is_some()
    }
}

/// A type's share of the nodes asked for, or its count of nodes, where it is in its limits.
pub(crate) fn amount_of(value: &Value) -> Option<Amount>
    ensures { result ≡ amount_of (view value.now) }
{
    if let Some(share) = number_at(value, "share", 0, THOUSAND) {
        return Some(Amount::Share(share));
    }
    match number_at(value, "count", 0, NODES_MOST) {
        Some(count) => Some(Amount::Count(count)),
        None => None,
    }
}

fn have_shares_within(value: &Value) -> bool
    ensures { result ≡ rule_8 (view value.now) }
{
    are_shares_within(Types::elements(value))
}

fn are_shares_within(types: &[Value]) -> bool
    ensures { result ≡ nat_le (sum_by type_share (map view types.now)) thousand }
{
    let mut left = THOUSAND;
    for value in types {
        let share = type_share(value);
        if share > left {
            return false;
        }
        left -= share;
    }
    true
}

fn type_share(value: &Value) -> u32
    ensures { result ≡ type_share (view value.now) }
{
    match amount_of(value) {
        Some(Amount::Share(share)) => share,
        _ => 0,
    }
}

fn have_nodes_within(value: &Value, nodes: u32) -> bool
    requires { nodes ≤ nodes_most }
    ensures { result ≡ nat_le (sum_by (type_nodes nodes) (types (view value.now))) nodes_most }
{
    are_nodes_within(Types::elements(value), nodes)
}

fn are_nodes_within(types: &[Value], nodes: u32) -> bool
    requires { nodes ≤ nodes_most }
    ensures { result ≡ nat_le (sum_by (type_nodes nodes) (map view types.now)) nodes_most }
{
    let mut left = NODES_MOST;
    for value in types {
        let count = type_nodes(value, nodes);
        if count > left {
            return false;
        }
        left -= count;
    }
    true
}

fn type_nodes(value: &Value, nodes: u32) -> u32
    requires { nodes ≤ nodes_most }
    ensures { result ≡ type_nodes nodes (view value.now) }
{
    match amount_of(value) {
        Some(amount) => node_count(nodes, amount),
        None => 0,
    }
}

/// The number of nodes of a type, where so many are asked for.
pub(crate) fn node_count(nodes: u32, amount: Amount) -> u32
    requires nodes { nodes ≤ nodes_most }
    requires share { share amount ≤ thousand }
    ensures { result ≡ node_count nodes amount }
{
    match amount {
        Amount::Share(share) => (u64::from(nodes) * u64::from(share) / u64::from(THOUSAND)) as u32,
        Amount::Count(count) => count,
    }
}
