//! The tokens of a SQL text.

ghost use Rattle.std.specs.Prelude.{◌≡◌, ◌<◌, ◌≤◌, ℕ, None, List, ◌∷◌, true, false, length, option_map};
ghost use Rattle.std.specs.Prelude.{slice_index, IfOk, IfSome, MatchOption};
ghost use Rattle.std.specs.Char.{is_ascii_lowercase};
ghost use Rattle.std.specs.List.{list_all};
ghost use Rattle.std.specs.Str.Parse.{digits_value};
ghost use Rattle.gm_text.specs.Name.{is_name_byte};
ghost use Rattle.token_text.specs.Tokens.{HasNoTokens};
ghost use Rattle.sql_read.specs.Tokens as grammar;
ghost use Rattle.sql_read.specs.Tokens.{is_blank, after_run, run_of, run_front, in_any_case, keyword_of, is_word};
ghost use Rattle.sql_read.specs.Tokens.{is_word_byte, is_number, IsNumberOf, token_of, sign_of, first};
ghost use Rattle.sql_read.specs.View.{token_view, front_view, HasViewed};

use gm_text::{Decimal, is_name_byte, read_decimal};
use std::alloc::{AllocError, Global};

/// A keyword or a sign.
#[derive(Clone, Copy, Debug, PartialEq, Eq)]
pub enum Mark {
    With,
    Recursive,
    As,
    Select,
    Distinct,
    From,
    Where,
    And,
    Union,
    Open,
    Close,
    Comma,
    Dot,
    Equals,
}

/// A token of a text.
#[derive(Clone, Copy, Debug, PartialEq, Eq)]
pub(crate) enum Token<'a> {
    Fixed(Mark),
    Word(&'a [u8]),
    Number(u32),
}

/// The tokens of a text. `None` where it has none, since somewhere stands neither a token nor a blank.
pub(crate) fn tokens_of<'a>(
    alloc: Global,
    text: &'a [u8],
) -> Result<Option<Vec<Token<'a>>>, AllocError>
    ensures is { IfOk result (λ found. MatchOption found (HasNoTokens first text.now) (λ ts. HasViewed text.now ts.items)) }
    ensures few { IfOk result (λ found. IfSome found (λ tokens. length tokens.items ≤ length text.now)) }
{
    let mut tokens = Vec::new(alloc);
    let mut rest = text;
    while !rest.is_empty() {
        let Some((token, more)) = front_of(rest) else {
            return Ok(None);
        };
        if let Some(token) = token {
            tokens.push(token)?;
        }
        rest = more;
    }
    Ok(Some(tokens))
}

/// The token or blank at the front of the bytes, and what follows it. A blank is `None` in the token's place.
fn front_of<'a>(bytes: &'a [u8]) -> Option<(Option<Token<'a>>, &'a [u8])>
    requires { 0 < length bytes.now }
    ensures is { (b : ℕ) (bs : List ℕ) → bytes.now ≡ b ∷ bs → front_view result ≡ first b bs }
    ensures shorter { IfSome result (λ x. length x.1.now < length bytes.now) }
{
    let [byte, rest @ ..] = bytes else {
        return None;
    };
    if is_blank(*byte) {
        return Some((None, rest));
    }
    if is_name_byte(*byte) {
        return run_front(bytes, rest);
    }
    match sign_of(*byte) {
        Some(sign) => Some((Some(Token::Fixed(sign)), rest)),
        None => None,
    }
}

/// The token that the run at the front is, whose first byte stands before `more`.
fn run_front<'a>(bytes: &'a [u8], more: &'a [u8]) -> Option<(Option<Token<'a>>, &'a [u8])>
    requires { length more.now ≤ length bytes.now }
    ensures is { (b : ℕ) → bytes.now ≡ b ∷ more.now → front_view result ≡ run_front b more.now }
    ensures shorter { IfSome result (λ x. length x.1.now ≤ length more.now) }
{
    let rest = after_run(more);
    let run = &bytes[..bytes.len() - rest.len()];
    match token_of(run) {
        Some(token) => Some((Some(token), rest)),
        None => None,
    }
}

/// What follows the run at the front.
fn after_run<'a>(bytes: &'a [u8]) -> &'a [u8]
    ensures rest { result.now ≡ after_run bytes.now }
    ensures few { length result.now ≤ length bytes.now }
{
    let mut rest = bytes;
    while let [byte, more @ ..] = rest {
        if !is_name_byte(*byte) {
            return rest;
        }
        rest = more;
    }
    rest
}

/// The token of a run.
fn token_of<'a>(run: &'a [u8]) -> Option<Token<'a>>
    ensures { option_map token_view result ≡ token_of run.now }
{
    match keyword_of(run) {
        Some(keyword) => Some(Token::Fixed(keyword)),
        None => plain_token(run),
    }
}

/// The token of a run that is no keyword.
fn plain_token<'a>(run: &'a [u8]) -> Option<Token<'a>>
    requires { keyword_of run.now ≡ None }
    ensures { option_map token_view result ≡ grammar.plain_token_of run.now }
{
    if is_word(run) {
        return Some(Token::Word(run));
    }
    match read_number(run) {
        Some(value) => Some(Token::Number(value)),
        None => None,
    }
}

/// The number that a run is the canonical decimal of, if it is at most 4,294,967,295.
fn read_number(run: &[u8]) -> Option<u32>
    ensures { MatchOption result (is_number run.now ≡ false) (λ n. IsNumberOf run.now n) }
{
    match read_decimal(run) {
        Decimal::Value(value) => match u32::try_from(value) {
            Ok(value) => Some(value),
            Err(_) => None,
        },
        Decimal::No | Decimal::Big => None,
    }
}

/// Whether a run that is no keyword is a word: a lower-case letter, then lower-case letters, digits or `_`.
fn is_word(run: &[u8]) -> bool
    requires { keyword_of run.now ≡ None }
    ensures { result ≡ is_word run.now }
{
    begins_small(run) && are_word_bytes(run)
}

fn begins_small(run: &[u8]) -> bool
    ensures { result ≡ is_ascii_lowercase (slice_index run.now 0) }
{
    match run.first() {
        Some(byte) => byte.is_ascii_lowercase(),
        None => false,
    }
}

fn are_word_bytes(run: &[u8]) -> bool
    ensures { result ≡ list_all is_word_byte run.now }
{
    run.iter().all(|byte| is_word_byte(*byte))
}

fn is_word_byte(byte: u8) -> bool
    ensures { result ≡ is_word_byte byte }
{
    byte.is_ascii_lowercase() || byte.is_ascii_digit() || byte == b'_'
}

/// The keyword that a run is, in any case.
#[tactic(auto, unfolding(crate::specs::Tokens::keyword_of))]
fn keyword_of(run: &[u8]) -> Option<Mark>
    ensures { result ≡ keyword_of run.now }
{
    if in_any_case(run, b"with") {
        Some(Mark::With)
    } else if in_any_case(run, b"recursive") {
        Some(Mark::Recursive)
    } else if in_any_case(run, b"as") {
        Some(Mark::As)
    } else if in_any_case(run, b"select") {
        Some(Mark::Select)
    } else if in_any_case(run, b"distinct") {
        Some(Mark::Distinct)
    } else if in_any_case(run, b"from") {
        Some(Mark::From)
    } else if in_any_case(run, b"where") {
        Some(Mark::Where)
    } else if in_any_case(run, b"and") {
        Some(Mark::And)
    } else if in_any_case(run, b"union") {
        Some(Mark::Union)
    } else {
        None
    }
}

/// Whether a run in any case is a word of small letters.
fn in_any_case(run: &[u8], word: &[u8]) -> bool
    ensures { result ≡ in_any_case run.now word.now }
{
    let mut rest = run;
    let mut left = word;
    while let [byte, more @ ..] = rest {
        let [small, others @ ..] = left else {
            return false;
        };
        if byte.to_ascii_lowercase() != *small {
            return false;
        }
        rest = more;
        left = others;
    }
    left.is_empty()
}

/// The sign that a byte is.
fn sign_of(byte: u8) -> Option<Mark>
    ensures { result ≡ sign_of byte }
{
    match byte {
        b'(' => Some(Mark::Open),
        b')' => Some(Mark::Close),
        b',' => Some(Mark::Comma),
        b'.' => Some(Mark::Dot),
        b'=' => Some(Mark::Equals),
        _ => None,
    }
}

fn is_blank(byte: u8) -> bool
    ensures { result ≡ is_blank byte }
{
    matches!(byte, b' ' | b'\t' | b'\r' | b'\n')
}
