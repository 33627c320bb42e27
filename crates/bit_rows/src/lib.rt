//! Rows of bits: a [`BitRow`] is a set of numbers below a bound, and a [`Grid`] is a list of rows.
#![tactic(auto)]

mod bit_row;
mod grid;
mod members;
mod words;

pub use bit_row::BitRow;
pub use grid::Grid;
pub use members::Numbers;
