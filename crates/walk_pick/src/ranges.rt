//! Ranges of numbers, counted from the least.

ghost use Rattle.std.specs.Prelude.{◌≡◌, ◌+◌, ◌-◌, ◌<◌, IfSome, option_map};

use gm_config::Range;

/// How many numbers a range has.
pub(crate) fn count_of(range: Range) -> u32
    ensures { result ≡ range.most + 1 - range.least }
{
    (range.most as u32 + 1).saturating_sub(range.least as u32)
}

/// The number that was picked among those from the least on.
pub(crate) fn from_least(least: u8, picked: Option<u32>) -> Option<u8>
    requires { IfSome picked (λ i. least + i < 256) }
    ensures { result ≡ option_map (λ i. least + i) picked }
{
    match picked {
        Some(i) => Some(least + i as u8),
        None => None,
    }
}
