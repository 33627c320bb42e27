//! Terms, and the parts of which a query consists.

ghost use Rattle.std.specs.Prelude.{◌≡◌, ℕ};

use gm_text::Span;
use std::marker::Model;

/// The number of a term in its store, counted from 0.
#[derive(Clone, Copy, Debug, PartialEq, Eq, Hash)]
pub struct TermId(u32);

impl Model for TermId {
    ghost Value = { ℕ };

    ghost view = { λ id. id.0 };

    ghost inverse = { λ n. record { 0 = n } };
}

impl TermId {
    /// The number of the term.
    #[inline(always)]
    pub fn number(self) -> u32
        ensures { result ≡ self }
    {
        self.0
    }

    /// The term with this number.
    #[inline(always)]
    pub(crate) fn of(n: u32) -> TermId
        ensures { result ≡ n }
    {
        TermId(n)
    }
}

/// A path over the labels of a graph, whose parts are terms of the same store.
#[derive(Clone, Copy, Debug, PartialEq, Eq, Hash)]
pub enum Term {
    /// One edge with a label.
    Step {
        /// The number of the label.
        label: u8,
        /// Whether the edge is gone against its direction.
        back: bool,
    },
    /// The first path, and then the second.
    Seq(TermId, TermId),
    /// One of two paths.
    Alt(TermId, TermId),
    /// A path any number of times, none among them.
    Star(TermId),
    /// A path, or none.
    Opt(TermId),
}

/// Words between two variables.
#[derive(Clone, Copy, Debug, PartialEq, Eq)]
pub struct Conjunct {
    /// The number of the variable at which the words begin.
    pub src: u8,
    /// The number of the variable at which they end.
    pub trg: u8,
    /// Whether they may be repeated.
    pub star: bool,
    /// The part of the query's words that are the conjunct's.
    pub words: Span,
    /// What the words stand for.
    pub term: TermId,
}

/// The variables that a rule answers.
#[derive(Clone, Copy, Debug, PartialEq, Eq)]
pub struct Heads {
    /// How many there are, at most 4.
    pub count: u8,
    /// Their numbers, and 0 from `count` on.
    pub vars: [u8; 4],
}

/// Conjuncts that all have to hold.
#[derive(Clone, Copy, Debug, PartialEq, Eq)]
pub struct Rule {
    /// The variables that are answered.
    pub heads: Heads,
    /// The part of the query's conjuncts that are the rule's.
    pub conjuncts: Span,
}
