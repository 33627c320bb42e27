//! The algebra of growth: how the number of pairs of a path grows with the graph.
//!
//! An operator [`Op`] says how the pairs of a path grow at its two ends. Operators are composed along
//! a path, joined over a union and starred over a repetition, and between two types that are fixed
//! or growing they have a normal form and a growth class. A [`Matrix`] has an operator between each
//! two types.
#![tactic(auto)]

pub mod laws;
mod matrix;
mod operators;
mod vocabulary;

pub use matrix::{Matrix, greater_class};
pub use operators::{class_of, compose, join, mirror, normal, star};
pub use vocabulary::{Class, Kind, Op, Shape, Symbol};

/// The most types that a matrix may be over.
pub const TYPES_MOST: usize = 64;
