//! Why there are no edges.

ghost use Rattle.std.specs.Prelude.{◌≡◌};
ghost use Rattle.edge_match.specs.declared.errors.MatchError.TheVariants.{NoMemory};

use crate::config_sides::Side;
use std::alloc::AllocError;
use thiserror::Error;

/// A side that is not free and has more stubs than a side may have.
#[derive(Clone, Copy, Debug, PartialEq, Eq)]
pub struct TooManyStubs {
    /// The number of the constraint.
    pub constraint: u8,
    /// Its side.
    pub side: Side,
    /// The number of the side's stubs, above 4,194,304.
    pub total: u64,
}

/// Why there are no edges.
#[derive(Debug, Drop, Error)]
pub enum MatchError {
    /// A side has more stubs than a side may have.
    #[error("too many stubs")]
    TooManyStubs(TooManyStubs),
    /// Memory ran out.
    #[error("out of memory")]
    NoMemory,
}

impl From<AllocError> for MatchError {
    ghost from_gives = { λ _ e. e ≡ NoMemory };

    fn from(_: AllocError) -> Self {
        MatchError::NoMemory
    }
}
