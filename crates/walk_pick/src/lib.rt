//! Picks among what can still reach a goal: of the candidates at each step, a word picks one.
//!
//! A pick is the candidate at place `pick(w, n)` among the `n` candidates in their order. No pick takes memory.
#![tactic(auto)]

mod counting;
pub mod laws;
mod moving;
mod ranges;
mod walking;

pub use counting::{pick_count, pick_start};
pub use moving::{pick_arm, pick_link, pick_move};
pub use sel_graph::Move;
pub use walking::{pick_length, pick_symbol};
