//! Rules whose conjuncts are terms between two variables.

use gm_text::Items;
use query_terms::TermId;

/// A term between two variables.
#[derive(Clone, Copy, Debug, PartialEq, Eq)]
pub struct Link {
    /// The number of the variable at which the term begins.
    pub src: u32,
    /// What leads from the one to the other.
    pub term: TermId,
    /// The number of the variable at which it ends.
    pub trg: u32,
}

/// The numbers of the variables that a rule answers.
pub type HeadVars = Items<u32>;

/// Links that all have to hold.
pub type Links = Items<Link>;

/// Some variables of links, which are answered.
#[derive(Drop)]
pub struct LinkRule {
    /// The variables that are answered.
    pub heads: HeadVars,
    /// What has to hold.
    pub links: Links,
}

/// Rules of which one has to hold.
pub type LinkRules = Items<LinkRule>;
