//! The configuration of a generated graph and its queries, and the rules that it keeps.
#![tactic(auto)]

mod config;
mod constraint_rules;
mod degree_specs;
mod errors;
mod label_rules;
pub mod laws;
mod limits;
mod members;
mod reading;
mod rule;
mod rules;
mod sample;
mod type_rules;
mod values;
mod workload_rules;

pub use config::Config;
pub use degree_specs::{DegreeSpec, Weights};
pub use errors::{ConfigError, ConfigFault};
pub use limits::{
    CLASSES_MOST, CONSTRAINTS_MOST, DEGREE_MOST, EXPONENT_MOST, LABELS_MOST, NODES_MOST,
    QUERIES_MOST, SHAPES_MOST, STAR_MOST, THOUSAND, TYPES_MOST, WEIGHT_MOST, WEIGHTS_MOST,
};
pub use reading::read_config;
pub use sample::sample_config;
pub use values::{Amount, Constraint, NodeType};
pub use workload_rules::{Classes, Range, Shapes, Workload};
