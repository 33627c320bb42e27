//! The laws of picks: from a live start on, no later pick is without a candidate. Each is the contract of a function
//! that does nothing.
ghost use Rattle.walk_pick.specs.Laws.{PickedCountsAreLive, StartsNeverRunOut, MovesNeverRunOut, LinksNeverRunOut, ArmsNeverRunOut, MovesHaveSymbols, LengthsNeverRunOut, SymbolsNeverRunOut};

/// A number of conjuncts that a word picks is in the range, and some start can meet the goal with it.
#[tactic(auto, using(crate::proofs::LawLemmas::picked_counts_are_live))]
pub fn picked_counts_are_live()
    ensures { PickedCountsAreLive }
{}

/// Where some start can meet the goal, each word picks a start that can.
#[tactic(auto, using(crate::proofs::LawLemmas::starts_never_run_out))]
pub fn starts_never_run_out()
    ensures { StartsNeverRunOut }
{}

/// Where one move and so many more can meet the goal, each word picks a move after which so many can, whatever kind
/// is wanted.
#[tactic(auto, using(crate::proofs::LawLemmas::moves_never_run_out))]
pub fn moves_never_run_out()
    ensures { MovesNeverRunOut }
{}

/// Where one move and so many more can come to a type, each word picks a move after which so many can, whatever kind
/// is wanted.
#[tactic(auto, using(crate::proofs::LawLemmas::links_never_run_out))]
pub fn links_never_run_out()
    ensures { LinksNeverRunOut }
{}

/// From a type at which some symbol starts each word picks a move, whatever kind is wanted.
#[tactic(auto, using(crate::proofs::LawLemmas::arms_never_run_out))]
pub fn arms_never_run_out()
    ensures { ArmsNeverRunOut }
{}

/// Some symbol starts where a move starts, and some symbol starts where it ends.
#[tactic(auto, using(crate::proofs::LawLemmas::moves_have_symbols))]
pub fn moves_have_symbols()
    ensures { MovesHaveSymbols }
{}

/// Of a move each word picks a permitted length that its words can have.
#[tactic(auto, using(crate::proofs::LawLemmas::lengths_never_run_out))]
pub fn lengths_never_run_out()
    ensures { LengthsNeverRunOut }
{}

/// Where one symbol and so many more can lead to a state, each word picks a symbol that carries the state there, after
/// which so many can.
#[tactic(auto, using(crate::proofs::LawLemmas::symbols_never_run_out))]
pub fn symbols_never_run_out()
    ensures { SymbolsNeverRunOut }
{}
