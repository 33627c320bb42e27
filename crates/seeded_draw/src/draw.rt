//! Words of the generator PCG XSL RR 128/64 (O'Neill, "PCG: a family of simple fast space-efficient
//! statistically good algorithms for random number generation").

ghost use Rattle.std.specs.Prelude.{◌≡◌, ℕ, ◌+◌, ◌-◌, ◌^◌, ◌<◌, ◌≤◌};
ghost use Rattle.seeded_draw.specs.Draw.{nth_word, word, stream_of, pick_of};

use rand_core::utils::NextWord;
use rand_pcg::Lcg128Xsl64;
use std::marker::Model;

/// The stream of a tag and two numbers: `tag * 2^64 + a * 2^32 + b`.
pub fn stream(tag: u8, a: u32, b: u32) -> u128
    ensures { result ≡ stream_of tag a b }
{
    (u128::from(tag) << 64) + (u128::from(a) << 32) + u128::from(b)
}

/// The generator of a seed and a stream before its `k`-th word, counted from 0, in logarithmic time.
fn generator_at(seed: u64, stream: u128, k: u64) -> Lcg128Xsl64
    ensures { (n : ℕ) → nth_word result n ≡ word seed stream (k + n) }
{
    let mut generator = Lcg128Xsl64::new(u128::from(seed), stream);
    generator.advance(u128::from(k));
    generator
}

/// The `k`-th word of a seed and a stream, counted from 0, in logarithmic time.
pub fn word_at(seed: u64, stream: u128, k: u64) -> u64
    ensures { result ≡ word seed stream k }
{
    generator_at(seed, stream, k).next_word()
}

/// The number below `m` that a word picks: `floor(w * m / 2^64)`.
pub fn pick(w: u64, m: u64) -> u64
    requires { 1 ≤ m }
    ensures value { result ≡ pick_of w m }
    ensures below { result < m }
{
    ((u128::from(w) * u128::from(m)) >> 64) as u64
}

/// The words of a seed and a stream, one after another.
#[derive(Drop)]
pub struct Draws {
    seed: u64,
    stream: u128,
    taken: u64,
    generator: Lcg128Xsl64,
}

impl Model for Draws {
    ghost use Rattle.std.specs.Prelude.{◌≡◌, ℕ, ◌+◌};
    ghost use Rattle.seeded_draw.specs.Draw.{nth_word, word};
    ghost use Rattle.seeded_draw.specs.Place.{Place};

    ghost Value = { Place };

    ghost view = { λ draws. record { seed = draws.seed; stream = draws.stream; taken = draws.taken } };

    ghost invariant = { λ draws. (k : ℕ) → nth_word draws.generator k ≡ word draws.seed draws.stream (draws.taken + k) };
}

impl Draws {
    /// The words of a seed and a stream, with none taken.
    pub fn new(seed: u64, stream: u128) -> Draws
        ensures { result ≡ record { seed = seed; stream = stream; taken = 0 } }
    {
        Draws::after(seed, stream, 0)
    }

    /// The words of a seed and a stream from place `k` on, counted from 0, in logarithmic time.
    pub fn after(seed: u64, stream: u128, k: u64) -> Draws
        ensures { result ≡ record { seed = seed; stream = stream; taken = k } }
    {
        Draws {
            seed,
            stream,
            taken: k,
            generator: generator_at(seed, stream, k),
        }
    }

    /// Takes the next word. At most 18,446,744,073,709,551,615 words can be taken.
    pub fn next(&mut self) -> u64
        requires { self.old.taken < 2 ^ 64 - 1 }
        ensures value { result ≡ word self.old.seed self.old.stream self.old.taken }
        ensures taken { self.new ≡ record self.old { taken = self.old.taken + 1 } }
    {
        self.taken += 1;
        self.generator.next_word()
    }
}
