//! Bits in words of 32 bits each: bit `n` is bit `n % 32` of word `n / 32`.

ghost use Rattle.std.specs.Prelude.{◌≡◌, ◌↔◌, ◌<◌, ◌≤◌, ◌*◌, ◌+◌, ◌^◌, ◌||◌, ℕ, true, false, length, IsTrue, IfSome, MatchOption};
ghost use Rattle.std.specs.Int.{bit_at};
ghost use Rattle.bit_rows.specs.Words.{has_bit, NoBits, IsNextBit, IsLowestOne, MeetBits};

/// Whether a bit is set.
#[tactic(auto, using(crate::proofs::WordLemmas::shifted_bit))]
pub(crate) fn has_bit(words: &[u32], n: u32) -> bool
    requires { n < 32 * length words.now }
    ensures { result ≡ has_bit words.now n }
{
    words[n as usize / 32] >> (n % 32) & 1 == 1
}

/// Sets a bit.
pub(crate) fn set_bit(words: &mut [u32], n: u32)
    requires { n < 32 * length words.old }
    ensures here { has_bit words.new n ≡ true }
    ensures others { (k : ℕ) → (k ≡ n → ⊥) → has_bit words.new k ≡ has_bit words.old k }
{
    words[n as usize / 32] |= 1 << (n % 32);
}

/// Sets each bit that is set in other words.
pub(crate) fn or_words(words: &mut [u32], others: &[u32])
    requires { length words.old ≡ length others.now }
    ensures { (k : ℕ) → has_bit words.new k ≡ (has_bit words.old k || has_bit others.now k) }
{
    for i in 0..words.len() {
        words[i] |= others[i];
    }
}

/// Whether some bit is set in both.
pub(crate) fn words_meet(words: &[u32], others: &[u32]) -> bool
    requires { length words.now ≡ length others.now }
    ensures { IsTrue result ↔ MeetBits words.now others.now }
{
    for i in 0..words.len() {
        if words[i] & others[i] != 0 {
            return true;
        }
    }
    false
}

/// The place of the lowest bit of a word that is set.
fn lowest_one(word: u32) -> Option<u32>
    ensures { IsLowestOne word result }
{
    if word == 0 {
        None
    } else {
        Some(word.trailing_zeros())
    }
}

/// The place of the lowest bit that is set from a place on.
pub(crate) fn next_bit(words: &[u32], n: u32) -> Option<u32>
    requires { 32 * length words.now < 2 ^ 32 }
    ensures { IsNextBit words.now n result }
{
    let first = n as usize / 32;
    if first >= words.len() {
        return None;
    }
    if let Some(place) = lowest_one(words[first] >> (n % 32)) {
        return Some(n + place);
    }
    for i in first + 1..words.len() {
        if let Some(place) = lowest_one(words[i]) {
            return Some(32 * i as u32 + place);
        }
    }
    None
}
