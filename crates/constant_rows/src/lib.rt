//! What a constant wide class says of the rows of a drawn query.
#![tactic(auto)]

pub mod laws;
