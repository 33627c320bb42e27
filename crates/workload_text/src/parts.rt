//! The words of lines, and the parts of words.

ghost use Rattle.std.specs.Prelude.{◌≡◌, ◌∷◌, [], None, option_map, MatchOption, IfNone};
ghost use Rattle.std.specs.List.{slice_split, list_all};
ghost use Rattle.gm_text.specs.Lines.{is_byte, words_of};
ghost use Rattle.gm_text.specs.Decimal.{is_canonical};
ghost use Rattle.workload_text.specs.View.{parts_left};
ghost use Rattle.workload_text.specs.Forms.{one_word, two_words, four_words, rest_of, is_variable, is_against, number_word, is_union_word, is_starred_word, within_star};
ghost use Rattle.workload_text.specs.Joined.{is_joint, starts_number, fits};

use crate::sorts::begins_with_x;
use gm_text::{Words, cut_at, is_canonical};
use memchr::memchr;
use std::marker::Model;

/// The parts of bytes between a separator, each taken once.
#[derive(Drop)]
pub(crate) struct Parts<'t> {
    separator: u8,
    rest: Option<&'t [u8]>,
}

impl<'t> Model for Parts<'t> {
    ghost use Rattle.std.specs.Prelude.{List, ℕ, option_copied};
    ghost use Rattle.workload_text.specs.View.{PartsValue};

    ghost Value = { PartsValue };

    ghost view = { λ parts. record { separator = parts.separator; rest = option_copied parts.rest } };
}

impl<'t> Parts<'t> {
    /// All parts.
    pub(crate) fn new(bytes: &'t [u8], separator: u8) -> Parts<'t>
        ensures { parts_left result ≡ slice_split (is_byte separator) bytes.now }
    {
        Parts {
            separator,
            rest: Some(bytes),
        }
    }

    /// Takes the next part, or `None` after the last one.
    pub(crate) fn next_part(&mut self) -> Option<&'t [u8]>
        ensures part { MatchOption result (parts_left self.old ≡ []) (λ part. parts_left self.old ≡ part.now ∷ parts_left self.new) }
        ensures at_the_end { IfNone result (parts_left self.new ≡ []) }
    {
        let Some(bytes) = self.rest else {
            return None;
        };
        match cut_at(bytes, self.separator) {
            Some((part, rest)) => {
                self.rest = Some(rest);
                Some(part)
            }
            None => {
                self.rest = None;
                Some(bytes)
            }
        }
    }
}

/// The only word that is left.
pub(crate) fn one_word<'t>(words: &mut Words<'t>) -> Option<&'t [u8]>
    ensures { option_map (λ w. w.now) result ≡ one_word words.old }
{
    let Some(first) = words.next_word() else {
        return None;
    };
    let Some(_next) = words.next_word() else {
        return Some(first);
    };
    None
}

/// The two words that are left.
pub(crate) fn two_words<'t>(words: &mut Words<'t>) -> Option<(&'t [u8], &'t [u8])>
    ensures { option_map (λ w. (w.0.now, w.1.now)) result ≡ two_words words.old }
{
    let Some(first) = words.next_word() else {
        return None;
    };
    let Some(second) = one_word(words) else {
        return None;
    };
    Some((first, second))
}

/// The two words after the first one of a line, which may be long.
pub(crate) fn two_after_first(bytes: &[u8]) -> Option<(&[u8], &[u8])>
    ensures { option_map (λ w. (w.0.now, w.1.now)) result ≡ two_words (rest_of (words_of bytes.now)) }
{
    let Some((_first, rest)) = cut_long(bytes, b' ') else {
        return None;
    };
    let Some((second, third)) = cut_long(rest, b' ') else {
        return None;
    };
    let Some(_more) = cut_long(third, b' ') else {
        return Some((second, third));
    };
    None
}

/// What stands before the first such byte, and what stands after it, or `None` exactly where there is none.
///
/// It is sought in many bytes at once, so this is for parts that may be long.
fn cut_long(bytes: &[u8], end: u8) -> Option<(&[u8], &[u8])>
    ensures { MatchOption result
        (slice_split (is_byte end) bytes.now ≡ bytes.now ∷ [])
        (λ cut. slice_split (is_byte end) bytes.now ≡ cut.0.now ∷ slice_split (is_byte end) cut.1.now) }
{
    let Some(place) = memchr(end, bytes) else {
        return None;
    };
    Some((&bytes[..place], &bytes[place + 1..]))
}

/// Two words, of which others follow.
fn next_two<'t>(words: &mut Words<'t>) -> Option<(&'t [u8], &'t [u8])>
    ensures { MatchOption result (four_words words.old ≡ None) (λ w. words.old ≡ w.0.now ∷ w.1.now ∷ words.new) }
{
    let Some(first) = words.next_word() else {
        return None;
    };
    let Some(second) = words.next_word() else {
        return None;
    };
    Some((first, second))
}

/// The four words that are left.
pub(crate) fn four_words<'t>(
    words: &mut Words<'t>,
) -> Option<((&'t [u8], &'t [u8]), (&'t [u8], &'t [u8]))>
    ensures { option_map (λ w. ((w.0.0.now, w.0.1.now), (w.1.0.now, w.1.1.now))) result ≡ four_words words.old }
{
    let Some(front) = next_two(words) else {
        return None;
    };
    let Some(back) = two_words(words) else {
        return None;
    };
    Some((front, back))
}

/// Whether the word is `x` and a canonical decimal.
pub(crate) fn is_variable(word: &[u8]) -> bool
    ensures { result ≡ is_variable word.now }
{
    begins_with_x(word) && is_canonical(&word[1..])
}

/// Whether the first byte is `^`.
pub(crate) fn is_against(word: &[u8]) -> bool
    ensures { result ≡ is_against word.now }
{
    match word.first() {
        Some(byte) => *byte == b'^',
        None => false,
    }
}

/// What stands after `^`, or else the word.
pub(crate) fn number_word(word: &[u8]) -> &[u8]
    ensures { result.now ≡ number_word word.now }
{
    if is_against(word) { &word[1..] } else { word }
}

/// Whether the word is symbols joined by `.`, and such words joined by `+`.
///
/// Each byte is tested by the two before it and without a branch, since most of a text are such words.
pub(crate) fn is_union_word(word: &[u8]) -> bool
    ensures { result ≡ is_union_word word.now }
{
    let mut fit = true;
    let mut second = b'.';
    let mut before = b'.';
    for byte in word {
        fit = fit & fits(second, before, *byte);
        second = before;
        before = *byte;
    }
    fit && before.is_ascii_digit()
}

/// Whether the byte may stand after these two: a digit where a number starts or goes on, which it doesn't after a
/// first `0`; `^` where a symbol starts; `.` or `+` after a digit.
fn fits(second: u8, before: u8, byte: u8) -> bool
    ensures { result ≡ fits second before byte }
{
    let first_zero = (before == b'0') & starts_number(second);
    let goes_on = before.is_ascii_digit() & !first_zero;
    (byte.is_ascii_digit() & (starts_number(before) | goes_on))
        | ((byte == b'^') & is_joint(before))
        | (is_joint(byte) & before.is_ascii_digit())
}

/// Whether a number may start after the byte.
fn starts_number(byte: u8) -> bool
    ensures { result ≡ starts_number byte }
{
    is_joint(byte) | (byte == b'^')
}

/// Whether the byte is `.` or `+`.
fn is_joint(byte: u8) -> bool
    ensures { result ≡ is_joint byte }
{
    (byte == b'.') | (byte == b'+')
}

/// Whether the word begins with `(` and ends with `)*`.
pub(crate) fn is_starred_word(word: &[u8]) -> bool
    ensures { result ≡ is_starred_word word.now }
{
    let count = word.len();
    count >= 3 && word[0] == b'(' && word[count - 2] == b')' && word[count - 1] == b'*'
}

/// What stands within `(` and `)*`, or else the word.
pub(crate) fn within_star(word: &[u8]) -> &[u8]
    ensures { result.now ≡ within_star word.now }
{
    if is_starred_word(word) {
        &word[1..word.len() - 2]
    } else {
        word
    }
}

/// Whether each word that is left is a variable.
pub(crate) fn are_variables(words: &mut Words<'_>) -> bool
    ensures { result ≡ list_all is_variable words.old }
{
    while let Some(word) = words.next_word() {
        if !is_variable(word) {
            return false;
        }
    }
    true
}
