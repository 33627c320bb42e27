//! The skeletons of the rules of a query: which variables its conjuncts join.
#![tactic(auto)]

pub mod laws;
mod skeleton;

pub use skeleton::Skeleton;

/// The most conjuncts of a rule.
pub const CONJUNCTS_MOST: u8 = 8;

/// The most conjuncts of the second path of a cycle.
pub const SECOND_MOST: u8 = 4;
