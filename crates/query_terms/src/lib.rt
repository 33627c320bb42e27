//! Queries: their terms, each kept once, how they are built, and what they are.
//!
//! A [`Query`] is seen as one value: rules of heads and conjuncts, conjuncts of words, words of symbols. A
//! [`QueryBuilder`] takes them one after the other. Each conjunct has a term, which stands for its words, in a
//! [`TermStore`] that has no two equal terms.
#![tactic(auto)]

mod building;
mod entries;
mod index;
pub mod laws;
mod layout;
mod listed;
mod outline;
mod query;
mod spans;
mod steps;
mod store;
mod terms;
mod underway;
mod words;

pub use building::QueryBuilder;
pub use gm_text::Span;
pub use outline::Outline;
pub use query::Query;
pub use spans::part_of;
pub use store::TermStore;
pub use terms::{Conjunct, Heads, Rule, Term, TermId};

/// The most symbols that one builder takes.
pub const SYMBOLS_MOST: u32 = 1_048_576;

/// A store has fewer terms than this, or as many.
pub const TERMS_MOST: u32 = 4_294_967_295;

/// The most heads of a rule.
pub const HEADS_MOST: u8 = 4;
