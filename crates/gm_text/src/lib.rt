//! The small types that the other crates share: names, lists, decimals, the lines and words of a text, and texts that
//! are put together from their ends.
#![tactic(auto)]

mod backward;
mod decimals;
pub mod laws;
mod lists;
mod naming;
mod reading;

pub use backward::BackwardText;
pub use decimals::{Decimal, is_canonical, read_decimal, write_decimal};
pub use lists::{Arena, Items, Span};
pub use naming::{NAME_MOST, Name, Names, are_name_bytes, is_name, is_name_byte};
pub use reading::{Line, Scan, Words, cut_at};
