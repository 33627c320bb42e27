//! Why a query was not drawn.

ghost use Rattle.std.specs.Prelude.{◌≡◌};

use crate::missing::NoSuchQuery;
use std::alloc::AllocError;
use thiserror::Error;

/// Why a query was not drawn.
#[derive(Debug, Drop, Error)]
pub enum DrawError {
    /// It can't be drawn.
    #[error("there is no such query")]
    NoSuchQuery(NoSuchQuery),
    /// Memory ran out.
    #[error("out of memory")]
    NoMemory,
}

impl From<AllocError> for DrawError {
    ghost use Rattle.query_draw.specs.declared.errors.DrawError.TheVariants.{NoMemory};

    ghost from_gives = { λ _ error. error ≡ NoMemory };

    fn from(_: AllocError) -> Self {
        DrawError::NoMemory
    }
}
