//! A row of bits.

ghost use Rattle.std.specs.Prelude.{◌≡◌, ◌↔◌, ◌<◌, ◌*◌, ◌^◌, IsTrue, IfSome};
ghost use Rattle.std.specs.FinSet as set;
ghost use Rattle.bit_rows.specs.Sets.{has, Meet, IsNext};

use crate::members::Numbers;
use crate::words::{has_bit, next_bit, or_words, set_bit, words_meet};
use std::marker::Model;

/// A set of numbers below 32 times `W`.
#[derive(Drop)]
pub struct BitRow<const W: usize> {
    /// Bit `n` is bit `n % 32` of word `n / 32`.
    words: [u32; W],
}

impl<const W: usize> Model for BitRow<W> {
    ghost use Rattle.std.specs.Coded.{coded_ℕ};
    ghost use Rattle.std.specs.FinSet as set;
    ghost use Rattle.bit_rows.specs.Sets.{NumberSet};
    ghost use Rattle.bit_rows.specs.Words.{set_of};

    ghost Value = { NumberSet };

    ghost coded = { set.code coded_ℕ };

    ghost view = { λ r. set_of r.words };
}

impl<const W: usize> BitRow<W> {
    /// The empty set.
    pub fn empty() -> BitRow<W>
        ensures { result ≡ set.empty }
    {
        BitRow { words: [0; W] }
    }

    /// Whether a number below 32 times `W` is in the set.
    pub fn get(&self, n: u32) -> bool
        requires { n < 32 * W }
        ensures { result ≡ has self.now n }
    {
        has_bit(&self.words, n)
    }

    /// Puts a number below 32 times `W` into the set.
    pub fn set(&mut self, n: u32)
        requires { n < 32 * W }
        ensures { self.new ≡ set.insert self.old n }
    {
        set_bit(&mut self.words, n);
    }

    /// Puts each number of another set into the set.
    pub fn or_row(&mut self, other: &BitRow<W>)
        ensures { self.new ≡ set.union self.old other.now }
    {
        or_words(&mut self.words, &other.words);
    }

    /// Whether some number is in both sets.
    pub fn meets(&self, other: &BitRow<W>) -> bool
        ensures { IsTrue result ↔ Meet self.now other.now }
    {
        words_meet(&self.words, &other.words)
    }

    /// The least number of the set that is at least `n`, where all its numbers are below 2^32 - 1.
    pub fn next(&self, n: u32) -> Option<u32>
        requires { 32 * W < 2 ^ 32 }
        ensures next { IsNext self.now n result }
        ensures within { IfSome result (λ p. p < 32 * W) }
    {
        next_bit(&self.words, n)
    }

    /// The numbers of the set in ascending order, where all are below 2^32 - 1.
    pub fn numbers(&self) -> Numbers<'_, W>
        requires { 32 * W < 2 ^ 32 }
        ensures row { result.row.now ≡ self.now }
        ensures from { result.from ≡ 0 }
    {
        Numbers::of(self)
    }
}
