//! Random words by their address: a seed, a stream and a place in it. A word is the same however it is
//! reached, so what one stream gives never rests on how much was taken from another.
#![tactic(auto)]

mod draw;

pub use draw::{Draws, pick, stream, word_at};
