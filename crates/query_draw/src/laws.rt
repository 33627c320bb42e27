//! The laws of drawn queries and of classes. Each is the contract of a function that does nothing.
ghost use Rattle.query_draw.specs.Laws.{ClassIsAtMostWideClass, DrawnWordsAreWalks, DrawnClassIsClass, DrawnClassIsAtMostWideClass, DrawnRulesHaveSkeletons, EachRuleTells};

/// The class of a query whose spines lead along is at most its wide class.
#[tactic(auto, using(crate::proofs::WideLemmas::class_at_most_wide))]
pub fn class_is_at_most_wide_class()
    ensures { ClassIsAtMostWideClass }
{}

/// A drawn word leads where the move of its conjunct does, with the move's value, and has a permitted length.
#[tactic(auto, using(crate::proofs::LegLemmas::drawn_words_are_walks))]
pub fn drawn_words_are_walks()
    ensures { DrawnWordsAreWalks }
{}

/// The class of the words of a drawn query is the one that was drawn.
pub fn drawn_class_is_class()
    ensures { DrawnClassIsClass }
{}

/// The class of a drawn query is at most its wide class.
#[tactic(auto, using(crate::proofs::RuleLemmas::drawn_class_is_at_most_wide_class))]
pub fn drawn_class_is_at_most_wide_class()
    ensures { DrawnClassIsAtMostWideClass }
{}

/// The conjuncts of a drawn rule join its variables as the skeleton of its shape and their number says.
pub fn drawn_rules_have_skeletons()
    ensures { DrawnRulesHaveSkeletons }
{}

/// A rule has no number of conjuncts to pick just where there is no such query, whichever rule it is.
#[tactic(auto, using(crate::proofs::RuleLemmas::each_rule_tells))]
pub fn each_rule_tells()
    ensures { EachRuleTells }
{}
