//! Picks by a random word: of numbered candidates, some of which are live, the live one that a word picks.
#![tactic(auto)]

mod picking;
#[cfg(test)]
mod tests;

pub use picking::{CANDIDATES_MOST, Candidates, pick_among};
