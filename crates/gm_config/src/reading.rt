//! Reading a configuration.

ghost use Rattle.std.specs.Prelude.{◌≡◌, ◌≢◌, ℕ, ◌≤◌, true, map, length, unwrap_or, None, Some, Err, IfOk, All};
ghost use Rattle.serde_json.specs.Data.{Data, null};
ghost use Rattle.serde_json.specs.Find.{get};
ghost use Rattle.serde_json.specs.View.{view};
ghost use Rattle.gm_text.specs.Name.{IsName};
ghost use Rattle.gm_config.specs.Limits.{types_most, labels_most};
ghost use Rattle.gm_config.specs.Json.{text};
ghost use Rattle.gm_config.specs.Rule.{first_broken};
ghost use Rattle.gm_config.specs.Rules.{rules};
ghost use Rattle.gm_config.specs.TypeRules.{types, type_name};
ghost use Rattle.gm_config.specs.LabelRules.{labels};
ghost use Rattle.gm_config.specs.DegreeSpec.{is_degree_spec, degree_spec_of};
ghost use Rattle.gm_config.specs.ConstraintRules.{has_out_spec, has_in_spec, type_place, label_place};
ghost use Rattle.serde_json.specs.Errors.{IsMemory};
ghost use Rattle.gm_config.specs.declared.errors.ConfigError.TheVariants.{Fault, NoMemory};
ghost use Rattle.gm_config.specs.declared.errors.ConfigFault.TheVariants.{NotJson, Broken};
ghost use Rattle.gm_config.specs.Reading.{Reads, HasNoReading, IsTextOf, BreaksFirst, type_of, constraint_of, config_of, answer_of};

use crate::config::Config;
use crate::constraint_rules::{
    Constraints, label_of, label_place, source_of, target_of, type_place,
};
use crate::degree_specs::{DegreeSpec, read_degree_spec};
use crate::errors::{ConfigError, ConfigFault};
use crate::label_rules::Labels;
use crate::members::text;
use crate::rule::{Array, Breach};
use crate::rules::first_broken_rule;
use crate::type_rules::{Types, amount_of, nodes_of, type_name};
use crate::values::{Amount, Constraint, NodeType};
use crate::workload_rules::read_workload;
use gm_text::Name;
use serde_json::{Category, Error, Value};
use std::alloc::{AllocError, Global};

/// The configuration that the bytes are, as JSON.
///
/// [`NotJson`](ConfigFault::NotJson) comes exactly where they have no reading as JSON, and
/// [`Broken`](ConfigFault::Broken) exactly where their value breaks a rule: it has the first of the rules
/// 1 to 24 that is broken and its first index, where each rule is tried at all its indices before the next.
/// [`NoMemory`](ConfigError::NoMemory) can come in place of each answer.
pub fn read_config(alloc: Global, bytes: &[u8]) -> Result<Config, ConfigError>
    ensures ok { IfOk result (λ config. IsTextOf bytes.now config) }
    ensures broken { (rule index : ℕ) → result ≡ Err (Fault (Broken rule index)) → BreaksFirst bytes.now rule index }
    ensures not_json { result ≡ Err (Fault NotJson) → HasNoReading bytes.now }
    ensures answer { (d : Data) → Reads bytes.now d → result ≢ Err NoMemory → result ≡ answer_of d }
    ensures no_reading { HasNoReading bytes.now → result ≢ Err NoMemory → result ≡ Err (Fault NotJson) }
{
    let value = match Value::from_slice(alloc, bytes) {
        Ok(value) => value,
        Err(error) => return Err(refusal(&error)),
    };
    if let Some(Breach { rule, index }) = first_broken_rule(&value) {
        return Err(ConfigError::Fault(ConfigFault::Broken { rule, index }));
    }
    let config = config_of(alloc, &value)?;
    Ok(config)
}

fn refusal(error: &Error) -> ConfigError
    ensures memory { IsMemory error.now → result ≡ NoMemory }
    ensures not_json { ¬ IsMemory error.now → result ≡ Fault NotJson }
{
    match error.classify() {
        Category::Memory => ConfigError::NoMemory,
        _ => ConfigError::Fault(ConfigFault::NotJson),
    }
}

fn config_of(alloc: Global, value: &Value) -> Result<Config, AllocError>
    requires { first_broken rules (view value.now) ≡ None }
    ensures { IfOk result (λ config. config ≡ config_of (view value.now)) }
{
    let types = read_types(alloc, Types::elements(value))?;
    let labels = read_labels(alloc, Labels::elements(value))?;
    let constraints = read_constraints(alloc, value, Constraints::elements(value))?;
    let workload = read_workload(alloc, value)?;
    Ok(Config::of(
        nodes_of(value).unwrap_or(0),
        types,
        labels,
        constraints,
        workload,
    ))
}

fn read_types(alloc: Global, types: &[Value]) -> Result<Vec<NodeType>, AllocError>
    requires { All (λ t. IsName (type_name (view t))) types.now }
    ensures { IfOk result (λ read. read.items ≡ map (λ t. type_of (view t)) types.now) }
{
    let mut read = Vec::new(alloc);
    for node_type in types {
        read.push(read_type(alloc, node_type)?)?;
    }
    Ok(read)
}

fn read_type(alloc: Global, value: &Value) -> Result<NodeType, AllocError>
    requires { IsName (type_name (view value.now)) }
    ensures { IfOk result (λ read. read ≡ type_of (view value.now)) }
{
    let name = Name::of(type_name(value).to_vec(alloc)?);
    let amount = amount_of(value).unwrap_or(Amount::Count(0));
    Ok(NodeType { name, amount })
}

fn read_labels(alloc: Global, labels: &[Value]) -> Result<Vec<Name>, AllocError>
    requires { All (λ l. IsName (text (view l))) labels.now }
    ensures { IfOk result (λ read. read.items ≡ map (λ l. text (view l)) labels.now) }
{
    let mut read = Vec::new(alloc);
    for label in labels {
        read.push(Name::of(text(label).to_vec(alloc)?))?;
    }
    Ok(read)
}

fn read_constraints(
    alloc: Global,
    value: &Value,
    constraints: &[Value],
) -> Result<Vec<Constraint>, AllocError>
    requires types { length (types (view value.now)) ≤ types_most }
    requires labels { length (labels (view value.now)) ≤ labels_most }
    requires out_specs { All (λ c. has_out_spec (view c) ≡ true) constraints.now }
    requires in_specs { All (λ c. has_in_spec (view c) ≡ true) constraints.now }
    ensures { IfOk result (λ read. read.items ≡ map (λ k. constraint_of (view value.now) (view k)) constraints.now) }
{
    let mut read = Vec::new(alloc);
    for constraint in constraints {
        read.push(read_constraint(alloc, value, constraint)?)?;
    }
    Ok(read)
}

fn read_constraint(
    alloc: Global,
    value: &Value,
    constraint: &Value,
) -> Result<Constraint, AllocError>
    requires types { length (types (view value.now)) ≤ types_most }
    requires labels { length (labels (view value.now)) ≤ labels_most }
    requires out_spec { has_out_spec (view constraint.now) ≡ true }
    requires in_spec { has_in_spec (view constraint.now) ≡ true }
    ensures { IfOk result (λ read. read ≡ constraint_of (view value.now) (view constraint.now)) }
{
    Ok(Constraint {
        source: type_place(value, source_of(constraint)).unwrap_or(0) as u8,
        label: label_place(value, label_of(constraint)).unwrap_or(0) as u8,
        target: type_place(value, target_of(constraint)).unwrap_or(0) as u8,
        out_spec: read_spec(alloc, constraint, "out")?,
        in_spec: read_spec(alloc, constraint, "in")?,
    })
}

fn read_spec(alloc: Global, constraint: &Value, side: &str) -> Result<DegreeSpec, AllocError>
    requires { is_degree_spec (unwrap_or (get side.now (view constraint.now)) null) ≡ true }
    ensures { IfOk result (λ read. read ≡ degree_spec_of (unwrap_or (get side.now (view constraint.now)) null)) }
{
    match constraint.get(side) {
        Some(spec) => read_degree_spec(alloc, spec),
        None => Ok(DegreeSpec::Free),
    }
}
