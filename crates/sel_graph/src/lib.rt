//! Reachability in the selectivity graph of a schema.
//!
//! What can be reached is kept as rows of bits. A row is a set of places: the place of an operator at a type is five
//! times the type's number, and the operator's number in their order.
#![tactic(auto)]

mod before_rows;
mod goal_rows;
pub mod laws;
mod levels;
mod move_rows;
mod moves;
mod next_places;
mod places;
mod reach;
mod rows;
mod states;
mod walk_rows;
mod word_rows;

pub use reach::Reach;
pub use states::{Goal, Move, State};

/// The most symbols of a word.
pub const SYMBOLS_MOST: u8 = 32;

/// The most moves of a path.
pub const MOVES_MOST: u8 = 8;

/// The most moves of a goal's second path.
pub const SECOND_MOST: u8 = 4;
