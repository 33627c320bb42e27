//! The laws of terms. Each is the contract of a function that does nothing.
ghost use Rattle.std.specs.Prelude.{◌≡◌};
ghost use Rattle.query_terms.specs.Building.{symbols_most};
ghost use Rattle.query_terms.specs.Laws.{TermsKeepTrees, PutIsTree, ConjunctsAreTrees};
ghost use Rattle.query_terms.specs.Store.{terms_most};

use crate::{SYMBOLS_MOST, TERMS_MOST};

/// A term keeps its tree as further terms are added to the store.
pub fn terms_keep_their_trees()
    ensures { TermsKeepTrees }
{}

/// What was put into a store has the tree of the term.
pub fn what_was_put_has_its_tree()
    ensures { PutIsTree }
{}

/// The term of each conjunct has the tree of the conjunct's words.
pub fn conjuncts_have_their_trees()
    ensures { ConjunctsAreTrees }
{}

/// The limits are those of the definitions.
pub fn limits_are_exact()
    ensures symbols { SYMBOLS_MOST ≡ symbols_most }
    ensures terms { TERMS_MOST ≡ terms_most }
{}
