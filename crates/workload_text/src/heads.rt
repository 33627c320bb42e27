//! The heads of rules.

ghost use Rattle.std.specs.Prelude.{◌≡◌, ◌<◌, ◌==◌, ◌||◌, ℕ, true, false, length, MatchOption};
ghost use Rattle.std.specs.List.{list_all, list_any};
ghost use Rattle.query_terms.specs.Values.{differ};
ghost use Rattle.query_terms.specs.Lists.{heads_in, is_heads};
ghost use Rattle.workload_text.specs.Forms.{is_variable};
ghost use Rattle.workload_text.specs.Rules.{are_small_heads};
ghost use Rattle.workload_text.specs.Heads.{heads_of, is_end, is_end_of, occur};

use crate::numbers::number_below;
use gm_text::Words;
use query_terms::{HEADS_MOST, Heads};

/// Variables are below it.
pub(crate) const VARIABLES_MOST: u8 = 16;

/// The heads whose words are left, where they are few and different variables.
pub(crate) fn read_heads(words: &mut Words<'_>) -> Option<Heads>
    requires { list_all is_variable words.old ≡ true }
    ensures { MatchOption result
        (are_small_heads (heads_of words.old) ≡ false)
        (λ h. (is_heads h ≡ true) × (heads_in h ≡ heads_of words.old) × (length (heads_in h) ≡ h.count) × (are_small_heads (heads_of words.old) ≡ true)) }
{
    let mut heads = Heads {
        count: 0,
        vars: [0; 4],
    };
    while let Some(word) = words.next_word() {
        if heads.count >= HEADS_MOST {
            return None;
        }
        let Some(variable) = number_below(&word[1..], VARIABLES_MOST) else {
            return None;
        };
        heads.vars[heads.count as usize] = variable;
        heads.count += 1;
    }
    if !differ(&heads.vars[..heads.count as usize]) {
        return None;
    }
    Some(heads)
}

/// Whether no number comes twice.
fn differ(numbers: &[u8]) -> bool
    ensures { result ≡ differ numbers.now }
{
    let mut left = numbers;
    while let Some((first, rest)) = left.split_first() {
        if is_among(*first, rest) {
            return false;
        }
        left = rest;
    }
    true
}

/// Whether the number is one of these.
fn is_among(number: u8, numbers: &[u8]) -> bool
    ensures { result ≡ list_any (λ n. number == n) numbers.now }
{
    numbers.iter().any(|other| number == *other)
}

/// Whether each of the heads stands at an end of a conjunct, of which these are the ends.
pub(crate) fn occur(ends: &[(u8, u8)], heads: &Heads) -> bool
    requires { is_heads heads.now ≡ true }
    ensures { result ≡ occur ends.now (heads_in heads.now) }
{
    heads.vars[..heads.count as usize]
        .iter()
        .all(|head| is_end(ends, *head))
}

/// Whether the variable stands at an end of a conjunct, of which these are the ends.
fn is_end(ends: &[(u8, u8)], variable: u8) -> bool
    ensures { result ≡ is_end ends.now variable }
{
    ends.iter().any(|pair| is_end_of(*pair, variable))
}

/// Whether the variable is one of the two.
fn is_end_of(pair: (u8, u8), variable: u8) -> bool
    ensures { result ≡ is_end_of variable pair }
{
    pair.0 == variable || pair.1 == variable
}
