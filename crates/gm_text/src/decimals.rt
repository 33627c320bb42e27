//! Decimals of numbers, written and read.

ghost use Rattle.std.specs.Prelude.{◌≡◌, ◌++◌, ◌≤◌, ◌<◌, ◌^◌, ◌↔◌, ℕ, false, not, nat_lt, ◌==◌, ◌||◌, ◌&&◌, length, slice_index, decimal, OnOk, OnErr};
ghost use Rattle.std.specs.Char.{is_ascii_digit};
ghost use Rattle.std.specs.List.{list_all};
ghost use Rattle.std.specs.Str.Parse.{digits_value};
ghost use Rattle.gm_text.specs.Decimal.{is_canonical, IsCanonical, IfValue};

use itoa::Buffer;
use std::alloc::{AllocError, Global};

/// Appends the decimal of a number, with no leading zero. A refusal appends nothing.
pub fn write_decimal(_alloc: Global, out: &mut Vec<u8>, n: u64) -> Result<(), AllocError>
    ensures ok { OnOk result (out.new.items ≡ out.old.items ++ decimal n) }
    ensures err { OnErr result (out.new.items ≡ out.old.items) }
{
    out.extend_from_slice(Buffer::new().format(n).as_bytes())
}

/// What a word is as a decimal. A decimal is `0`, or digits that don't begin with `0`.
#[derive(Clone, Copy, Debug, PartialEq, Eq)]
pub enum Decimal {
    /// No decimal.
    No,
    /// The decimal of this number.
    Value(u64),
    /// The decimal of a number above 18,446,744,073,709,551,615.
    Big,
}

/// Reads a word as a decimal: what it is the decimal of, or why it has no value.
pub fn read_decimal(word: &[u8]) -> Decimal
    ensures no { (result ≡ Decimal.No) ↔ (is_canonical word.now ≡ false) }
    ensures value { IfValue result (λ n. word.now ≡ decimal n) }
    ensures fits { IfValue result (λ n. n < 2 ^ 64) }
    ensures every_value { (n : ℕ) → n < 2 ^ 64 → word.now ≡ decimal n → result ≡ Decimal.Value n }
    ensures big { (result ≡ Decimal.Big) ↔ (IsCanonical word.now × (2 ^ 64 ≤ digits_value 10 word.now)) }
{
    if !is_canonical(word) {
        return Decimal::No;
    }
    let Ok(digits) = str::from_utf8(word) else {
        unreachable!()
    };
    match digits.parse::<u64>() {
        Ok(n) => Decimal::Value(n),
        Err(_) => Decimal::Big,
    }
}

/// Whether the word is `0`, or digits that don't begin with `0`.
pub fn is_canonical(word: &[u8]) -> bool
    ensures { result ≡ is_canonical word.now }
{
    has_no_spare_zero(word) && has_only_digits(word)
}

/// Whether the word has a first byte, and no other where that is `0`.
fn has_no_spare_zero(word: &[u8]) -> bool
    ensures { result ≡ (nat_lt 0 (length word.now) && (not (slice_index word.now 0 == 48) || (length word.now == 1))) }
{
    match word.first() {
        Some(first) => *first != b'0' || word.len() == 1,
        None => false,
    }
}

fn has_only_digits(word: &[u8]) -> bool
    ensures { result ≡ list_all is_ascii_digit word.now }
{
    word.iter().all(|byte| byte.is_ascii_digit())
}
