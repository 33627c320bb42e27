//! The degrees that a specification allows, with the weight of each, and the degree that a random word picks.
#![tactic(auto)]

mod table;
mod weights;

pub use table::DegreeTable;
