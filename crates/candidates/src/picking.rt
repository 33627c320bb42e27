//! The live candidate that a word picks.

ghost use Rattle.std.specs.Prelude.{◌≡◌, ◌<◌, ◌≤◌, ◌↔◌, ℕ, Bool, true, [], length, take, IfSome, IsNone};
ghost use Rattle.candidates.specs.Picked.{picked, numbers_that, candidates_most};

use seeded_draw::pick;

/// The most candidates.
pub const CANDIDATES_MOST: usize = 256;

/// Numbered candidates, some of which are live.
pub trait Candidates {
    /// Whether the candidate of a number is live.
    ghost live: { Self → ℕ → Bool };
    /// How many candidates there are.
    ghost range: { Self → ℕ };

    /// How many candidates there are, live or not, at most [`CANDIDATES_MOST`]: their numbers are those below it.
    fn numbers(&self) -> u32
        ensures range { result ≡ range self.now }
        ensures few { result ≤ candidates_most };

    /// Whether candidate `i` is live.
    fn is_live(&self, i: u32) -> bool
        requires { i < range self.now }
        ensures { result ≡ live self.now i };
}

/// Puts the numbers of the candidates that are live to the front of a list, in ascending order, and says how many there
/// are. What stands behind them is not said.
fn keep_live<C: Candidates>(candidates: &C, numbers: &mut [u8]) -> usize
    requires { length numbers.old ≡ candidates_most }
    ensures live { take result numbers.new ≡ numbers_that (C.live candidates.now) (C.range candidates.now) }
    ensures within { result ≤ length numbers.new }
{
    let mut count = 0;
    for i in 0..candidates.numbers() {
        numbers[count] = i as u8;
        if candidates.is_live(i) {
            count += 1;
        }
    }
    count
}

/// The live candidate that a word picks: the one at place `pick(w, n)` among the `n` that are live.
/// Takes no memory.
pub fn pick_among<C: Candidates>(candidates: &C, w: u64) -> Option<u32>
    ensures value { result ≡ picked w (numbers_that (C.live candidates.now) (C.range candidates.now)) }
    ensures passes { IfSome result (λ i. (i < C.range candidates.now) × (C.live candidates.now i ≡ true)) }
    ensures none { IsNone result ↔ (numbers_that (C.live candidates.now) (C.range candidates.now) ≡ []) }
{
    let mut numbers = [0; CANDIDATES_MOST];
    let count = keep_live(candidates, &mut numbers);
    let live = &numbers[..count];
    if live.is_empty() {
        return None;
    }
    let place = pick(w, live.len() as u64) as usize;
    Some(live[place] as u32)
}
