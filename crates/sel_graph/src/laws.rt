//! The laws of reachability. Each is the contract of a function that does nothing.
ghost use Rattle.std.specs.Prelude.{◌≡◌};
ghost use Rattle.sel_graph.specs.Moves.{symbols_most, moves_most, second_most};
ghost use Rattle.sel_graph.specs.Laws.{WalksAgree, PlainMovesAgree, MovesAgree, JoinsAgree, GoalsAgree, FeasibilityAgrees, WalksHaveValues, ValuesAreNormal, FinishedStatesMeet};

use crate::{MOVES_MOST, SECOND_MOST, SYMBOLS_MOST};

/// The test on walks is true exactly where there is a walk.
#[tactic(auto, using(crate::proofs::WalkLemmas::walk_agrees))]
pub fn walks_agree()
    ensures { WalksAgree }
{}

/// The test on plain moves is true exactly where some word of permitted length leads there.
#[tactic(auto, using(crate::proofs::MoveLemmas::plain_agrees))]
pub fn plain_moves_agree()
    ensures { PlainMovesAgree }
{}

/// The test on moves is true exactly where it is a move.
#[tactic(auto, using(crate::proofs::MoveLemmas::move_agrees))]
pub fn moves_agree()
    ensures { MovesAgree }
{}

/// The test on so many moves between types is true exactly where there are such moves.
#[tactic(auto, using(crate::proofs::MoveLemmas::joins_agree))]
pub fn joins_agree()
    ensures { JoinsAgree }
{}

/// The test on goals is true exactly where a state meets the goal.
#[tactic(auto, using(crate::proofs::MoveLemmas::meets_agree))]
pub fn goals_agree()
    ensures { GoalsAgree }
{}

/// The test on feasibility is true exactly where there are moves that can meet the goal.
#[tactic(auto, using(crate::proofs::MoveLemmas::feasible_agrees))]
pub fn feasibility_agrees()
    ensures { FeasibilityAgrees }
{}

/// The operator to which a word carries a state is the value of the word from there.
#[tactic(auto, using(crate::proofs::ValueLemmas::walks_have_values))]
pub fn walks_have_values()
    ensures { WalksHaveValues }
{}

/// The value of a word is normal for the types at its ends.
#[tactic(auto, using(crate::proofs::ValueLemmas::values_are_normal))]
pub fn values_are_normal()
    ensures { ValuesAreNormal }
{}

/// A state that meets a goal with no further move meets it.
#[tactic(auto, using(crate::proofs::ValueLemmas::finished_states_meet))]
pub fn finished_states_meet()
    ensures { FinishedStatesMeet }
{}

/// The limits are those of the definitions.
pub fn limits_are_exact()
    ensures symbols { SYMBOLS_MOST ≡ symbols_most }
    ensures moves { MOVES_MOST ≡ moves_most }
    ensures second { SECOND_MOST ≡ second_most }
{}
