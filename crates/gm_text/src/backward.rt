//! Texts that are put together from their ends.

ghost use Rattle.std.specs.Prelude.{◌≡◌, ◌≤◌, ◌+◌, ◌++◌, [], length, decimal};

use itoa::write_digits;
use std::marker::Model;

/// A text of at most `MOST` bytes that is put together from its end, as digits are.
#[derive(Drop)]
pub struct BackwardText<const MOST: usize> {
    bytes: [u8; MOST],
    /// Where the text begins among the bytes, with which it ends.
    from: usize,
}

impl<const MOST: usize> Model for BackwardText<MOST> {
    ghost use Rattle.std.specs.Prelude.{◌≤◌, ℕ, List, drop};

    ghost Value = { List ℕ };

    ghost view = { λ text. drop text.from text.bytes };

    ghost invariant = { λ text. text.from ≤ MOST };
}

impl<const MOST: usize> BackwardText<MOST> {
    /// No byte.
    #[inline(always)]
    pub fn new() -> BackwardText<MOST>
        ensures { result ≡ [] }
    {
        BackwardText {
            bytes: [0; MOST],
            from: MOST,
        }
    }

    /// The text's bytes.
    #[inline(always)]
    pub fn as_slice(&self) -> &[u8]
        ensures { result.now ≡ self.now }
    {
        let all = &self.bytes[..];
        &all[self.from..]
    }

    /// A new text, of the bytes with which it ends.
    #[inline(always)]
    pub fn end_with(&mut self, bytes: &[u8])
        requires { length bytes.now ≤ MOST }
        ensures { self.new ≡ bytes.now }
    {
        let from = MOST - bytes.len();
        let all = &mut self.bytes[..];
        all[from..].copy_from_slice(bytes);
        self.from = from;
    }

    /// Puts bytes before what there is.
    #[inline(always)]
    pub fn put(&mut self, bytes: &[u8])
        requires { length bytes.now + length self.old ≤ MOST }
        ensures { self.new ≡ bytes.now ++ self.old }
    {
        let end = self.from;
        let from = end - bytes.len();
        let all = &mut self.bytes[..];
        all[from..end].copy_from_slice(bytes);
        self.from = from;
    }

    /// Puts the decimal of a number before what there is.
    #[inline(always)]
    pub fn put_number(&mut self, number: u32)
        requires { length self.old + 10 ≤ MOST }
        ensures put { self.new ≡ decimal number ++ self.old }
        ensures few { length self.new ≤ length self.old + 10 }
    {
        self.from = write_digits(u64::from(number), &mut self.bytes, self.from);
    }
}
