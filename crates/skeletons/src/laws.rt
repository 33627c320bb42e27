//! The laws of skeletons. Each is the contract of a function that does nothing.
ghost use Rattle.std.specs.Prelude.{◌≡◌};
ghost use Rattle.skeletons.specs.Skeleton.{PartsAreAll, SpineIsInRange, SecondIsInRange, ArmsStartAtTheSpine, conjuncts_most, second_most};

use crate::{CONJUNCTS_MOST, SECOND_MOST};

/// The spine, the second path and the arms are together all conjuncts.
pub fn parts_are_all()
    ensures { PartsAreAll }
{}

/// The spine has from 1 to [`CONJUNCTS_MOST`] conjuncts.
pub fn spine_is_in_range()
    ensures { SpineIsInRange }
{}

/// A second path has at most [`SECOND_MOST`] conjuncts.
pub fn second_is_in_range()
    ensures { SecondIsInRange }
{}

/// An arm starts at a variable of the spine.
pub fn arms_start_at_the_spine()
    ensures { ArmsStartAtTheSpine }
{}

/// [`CONJUNCTS_MOST`] and [`SECOND_MOST`] are the most conjuncts of a skeleton and of a second path.
pub fn limits_are_exact()
    ensures conjuncts { CONJUNCTS_MOST ≡ conjuncts_most }
    ensures second { SECOND_MOST ≡ second_most }
{}
