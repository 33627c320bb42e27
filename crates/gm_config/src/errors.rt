//! Why there is no configuration.

ghost use Rattle.std.specs.Prelude.{◌≡◌};

use std::alloc::AllocError;
use thiserror::Error;

/// What is wrong with an input.
#[derive(Clone, Copy, Debug, PartialEq, Eq)]
pub enum ConfigFault {
    /// The input is no JSON.
    NotJson,
    /// Its value breaks a rule: the first that it breaks, from 1 to 24, and the first index at which it
    /// does, 0 where the rule has one index.
    Broken { rule: u8, index: u32 },
}

/// Why a configuration was not read.
#[derive(Debug, Drop, Error)]
pub enum ConfigError {
    /// The input has none.
    #[error("the input is no configuration")]
    Fault(ConfigFault),
    /// Memory ran out.
    #[error("out of memory")]
    NoMemory,
}

impl From<AllocError> for ConfigError {
    ghost use Rattle.gm_config.specs.declared.errors.ConfigError.TheVariants.{NoMemory};

    ghost from_gives = { λ _ error. error ≡ NoMemory };

    fn from(_: AllocError) -> Self {
        ConfigError::NoMemory
    }
}
