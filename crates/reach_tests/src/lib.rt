//! Tests of the algebra, of schemas, of what they reach, and of picks.
//!
//! They stand above the crates that they test, since a crate with tests of its own is proved twice.
#![tactic(auto)]

#[cfg(test)]
mod bit_rows_tests;
#[cfg(test)]
mod samples;
#[cfg(test)]
mod schema_graph_tests;
#[cfg(test)]
mod sel_algebra_tests;
#[cfg(test)]
mod sel_graph_tests;
#[cfg(test)]
mod skeletons_tests;
#[cfg(test)]
mod walk_pick_tests;
