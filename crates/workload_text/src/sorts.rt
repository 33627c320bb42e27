//! The sorts of lines, by their first words.

ghost use Rattle.std.specs.Prelude.{◌≡◌};
ghost use Rattle.std.specs.Str.{bytes_eq};
ghost use Rattle.workload_text.specs.Forms.{first_word, sort_of, begins_with_x};
ghost use Rattle.workload_text.specs.Rules.{follows, may_follow};
ghost use Rattle.workload_text.specs.Sofar.{after_conjunct};

use gm_text::Words;

/// What a line is about.
#[derive(Clone, Copy, Debug, PartialEq, Eq)]
pub(crate) enum Sort {
    First,
    Label,
    NodeType,
    Edge,
    Query,
    Rule,
    Conjunct,
    End,
}

/// The word before the first space.
pub(crate) fn first_word(bytes: &[u8]) -> &[u8]
    ensures { result.now ≡ first_word bytes.now }
{
    match Words::new(bytes).next_word() {
        Some(word) => word,
        None => &[],
    }
}

/// The sort of line that a first word begins.
pub(crate) fn sort_of(word: &[u8]) -> Option<Sort>
    ensures { result ≡ sort_of word.now }
{
    if is_word(word, b"gmark-workload") {
        Some(Sort::First)
    } else if is_word(word, b"label") {
        Some(Sort::Label)
    } else if is_word(word, b"type") {
        Some(Sort::NodeType)
    } else if is_word(word, b"edge") {
        Some(Sort::Edge)
    } else if is_word(word, b"query") {
        Some(Sort::Query)
    } else if is_word(word, b"rule") {
        Some(Sort::Rule)
    } else if is_word(word, b"end") {
        Some(Sort::End)
    } else if begins_with_x(word) {
        Some(Sort::Conjunct)
    } else {
        None
    }
}

/// Whether the words are the same.
pub(crate) fn is_word(word: &[u8], fixed: &[u8]) -> bool
    ensures { result ≡ bytes_eq word.now fixed.now }
{
    word == fixed
}

/// Whether the first byte is `x`.
pub(crate) fn begins_with_x(word: &[u8]) -> bool
    ensures { result ≡ begins_with_x word.now }
{
    match word.first() {
        Some(byte) => *byte == b'x',
        None => false,
    }
}

/// Whether a line of this sort may follow a line.
pub(crate) fn follows(last: Option<Sort>, sort: Sort) -> bool
    ensures { result ≡ follows last sort }
{
    match (last, sort) {
        (None, Sort::First)
        | (Some(Sort::First), Sort::Label)
        | (Some(Sort::Label), Sort::Label | Sort::NodeType)
        | (Some(Sort::NodeType), Sort::NodeType | Sort::Edge)
        | (Some(Sort::Edge), Sort::Edge | Sort::Query | Sort::End)
        | (Some(Sort::Query), Sort::Rule)
        | (Some(Sort::Rule), Sort::Conjunct)
        | (Some(Sort::Conjunct), Sort::Conjunct | Sort::Rule | Sort::Query | Sort::End) => true,
        _ => false,
    }
}

/// Whether the last line is that of a conjunct.
pub(crate) fn is_after_conjunct(last: Option<Sort>) -> bool
    ensures { result ≡ after_conjunct last }
{
    match last {
        Some(Sort::Conjunct) => true,
        _ => false,
    }
}
