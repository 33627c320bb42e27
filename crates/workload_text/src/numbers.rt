//! Numbers of words that are canonical decimals.

ghost use Rattle.std.specs.Prelude.{◌≡◌, ◌<◌, ◌==◌, nat_lt, false, MatchOption};
ghost use Rattle.gm_text.specs.Decimal.{IsCanonical};
ghost use Rattle.workload_text.specs.Sofar.{number};

use gm_text::{Decimal, read_decimal};

/// The number of a canonical decimal, where it is below a limit.
pub(crate) fn number_below(word: &[u8], limit: u8) -> Option<u8>
    requires { IsCanonical word.now }
    ensures { MatchOption result
        (nat_lt (number word.now) limit ≡ false)
        (λ n. (number word.now ≡ n) × (n < limit)) }
{
    let mut value = 0u16;
    for byte in word {
        value = value * 10 + (*byte - b'0') as u16;
        if value >= limit as u16 {
            return None;
        }
    }
    below(value, limit)
}

/// The number, where it is below a limit.
fn below(n: u16, limit: u8) -> Option<u8>
    ensures { MatchOption result (nat_lt n limit ≡ false) (λ small. (n ≡ small) × (small < limit)) }
{
    if n < limit as u16 {
        Some(n as u8)
    } else {
        None
    }
}

/// Whether a canonical decimal is that of this number.
pub(crate) fn is_number(word: &[u8], n: u64) -> bool
    requires { IsCanonical word.now }
    ensures { result ≡ (number word.now == n) }
{
    match read_decimal(word) {
        Decimal::Value(value) => value == n,
        Decimal::Big => false,
        Decimal::No => false,
    }
}
