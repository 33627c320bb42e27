//! The tokens of a text, one after another.

ghost use Rattle.std.specs.Prelude.{◌≡◌, ◌∷◌, ◌≤◌, ◌<◌, true, length, Some, IfSome};
ghost use Rattle.std.specs.Char.{is_ascii_alphabetic};
ghost use Rattle.gm_text.specs.Name.{is_name_byte};
ghost use Rattle.sparql_read.specs.Tokens.{is_white, is_comment_byte, is_barred, is_iri_byte, run_of, behind_run, in_any_case, keyword_of, sign_of, variable_front, mark_front, iri_front, keyword_front, letter_front, first};
ghost use Rattle.sparql_read.specs.View.{kind_test, begins_with, begins_with_letter, keyword_option, token_option, front_view, Scans};

use crate::tokens::{Keyword, Token};
use gm_text::{NAME_MOST, is_name_byte};

/// A gap or a token at the front of bytes, and the bytes behind it.
type Front<'a> = Option<(Option<Token<'a>>, &'a [u8])>;

/// Kinds of bytes that stand in runs.
#[derive(Clone, Copy)]
enum Kind {
    Letter,
    OfName,
    OfIri,
    OfComment,
}

/// What stands at the front of bytes.
pub(crate) enum Scanned<'a> {
    /// A token, behind any gaps.
    Next(Token<'a>),
    /// Gaps alone.
    End,
    /// Neither a token nor a gap somewhere.
    Other,
}

/// The bytes of a text that are left.
#[derive(Drop)]
pub(crate) struct Scan<'a> {
    pub(crate) rest: &'a [u8],
}

impl<'a> Scan<'a> {
    /// Takes the next token, and the gaps before it.
    pub(crate) fn next_token(&mut self) -> Scanned<'a>
        ensures { Scans self.old.rest.now self.new.rest.now result }
    {
        while let [byte, behind @ ..] = self.rest {
            match front_at(*byte, behind, self.rest) {
                Some((None, rest)) => self.rest = rest,
                Some((Some(token), rest)) => {
                    self.rest = rest;
                    return Scanned::Next(token);
                }
                None => return Scanned::Other,
            }
        }
        Scanned::End
    }
}

/// What bytes begin with, given also as the first and those behind it.
fn front_at<'a>(byte: u8, behind: &'a [u8], bytes: &'a [u8]) -> Front<'a>
    requires { bytes.now ≡ byte ∷ behind.now }
    ensures bytes { bytes.now ≡ byte ∷ behind.now }
    ensures is { front_view result ≡ first byte behind.now }
    ensures shorter { IfSome result (λ front. length front.1.now ≤ length behind.now) }
{
    if is_white(byte) {
        return Some((None, behind));
    }
    if byte == b'#' {
        return Some((None, split_run(Kind::OfComment, behind).1));
    }
    if byte == b'?' {
        return Some(variable_at(behind));
    }
    if byte == b'<' {
        return iri_at(behind);
    }
    if byte == b':' {
        return Some(mark_at(&[], behind));
    }
    if byte.is_ascii_alphabetic() {
        return letter_at(bytes);
    }
    match sign_of(byte) {
        Some(token) => Some((Some(token), behind)),
        None => None,
    }
}

/// What bytes behind `?` begin with.
fn variable_at<'a>(behind: &'a [u8]) -> (Option<Token<'a>>, &'a [u8])
    ensures is { front_view (Some result) ≡ variable_front (run_of is_name_byte behind.now) (behind_run is_name_byte behind.now) }
    ensures shorter { length result.1.now ≤ length behind.now }
{
    let (name, rest) = split_run(Kind::OfName, behind);
    match name {
        [] => (Some(Token::Question), rest),
        [_, ..] => (Some(Token::Variable(name)), rest),
    }
}

/// What bytes behind `<` begin with.
fn iri_at<'a>(behind: &'a [u8]) -> Front<'a>
    ensures is { front_view result ≡ iri_front (run_of is_iri_byte behind.now) (behind_run is_iri_byte behind.now) }
    ensures shorter { IfSome result (λ front. length front.1.now ≤ length behind.now) }
{
    let (bytes, rest) = split_run(Kind::OfIri, behind);
    match rest {
        [] => None,
        [end, more @ ..] => {
            if *end == b'>' {
                Some((Some(Token::IriRef(bytes)), more))
            } else {
                None
            }
        }
    }
}

/// What a mark begins, given by its name and the bytes behind its `:`.
fn mark_at<'a>(mark: &'a [u8], behind: &'a [u8]) -> (Option<Token<'a>>, &'a [u8])
    ensures is { front_view (Some result) ≡ mark_front mark.now behind.now }
    ensures shorter { length result.1.now ≤ length behind.now }
{
    if !begins_with_letter(behind) {
        return (Some(Token::Mark(mark)), behind);
    }
    let (name, rest) = split_run(Kind::OfName, behind);
    (Some(Token::Predicate(mark, name)), rest)
}

/// Whether bytes begin with a letter.
fn begins_with_letter(bytes: &[u8]) -> bool
    ensures { result ≡ begins_with_letter bytes.now }
{
    match bytes {
        [] => false,
        [byte, ..] => byte.is_ascii_alphabetic(),
    }
}

/// What bytes that begin with a letter begin with.
fn letter_at<'a>(bytes: &'a [u8]) -> Front<'a>
    requires { begins_with_letter bytes.now ≡ true }
    ensures is { front_view result ≡ letter_front (run_of is_name_byte bytes.now) (behind_run is_name_byte bytes.now) bytes.now }
    ensures shorter { IfSome result (λ front. length front.1.now < length bytes.now) }
{
    let (name, rest) = split_run(Kind::OfName, bytes);
    match rest {
        [] => keyword_at(bytes),
        [end, behind @ ..] => {
            if *end != b':' {
                return keyword_at(bytes);
            }
            if name.len() > NAME_MOST {
                return keyword_at(bytes);
            }
            Some(mark_at(name, behind))
        }
    }
}

/// The keyword that bytes begin with, which begin with a letter.
fn keyword_at<'a>(bytes: &'a [u8]) -> Front<'a>
    requires { begins_with_letter bytes.now ≡ true }
    ensures is { front_view result ≡ keyword_front bytes.now }
    ensures shorter { IfSome result (λ front. length front.1.now < length bytes.now) }
{
    let (run, rest) = split_run(Kind::Letter, bytes);
    match keyword_of(run) {
        Some(keyword) => Some((Some(Token::Word(keyword)), rest)),
        None => None,
    }
}

/// The keyword that a run of letters is.
#[tactic(auto, unfolding(crate::specs::Tokens::keyword_of))]
fn keyword_of(run: &[u8]) -> Option<Keyword>
    ensures { keyword_option result ≡ keyword_of run.now }
{
    if is_in_any_case(run, b"prefix") {
        return Some(Keyword::Prefix);
    }
    if is_in_any_case(run, b"select") {
        return Some(Keyword::Select);
    }
    if is_in_any_case(run, b"distinct") {
        return Some(Keyword::Distinct);
    }
    if is_in_any_case(run, b"ask") {
        return Some(Keyword::Ask);
    }
    if is_in_any_case(run, b"where") {
        return Some(Keyword::Where);
    }
    if is_in_any_case(run, b"union") {
        return Some(Keyword::Union);
    }
    None
}

/// Whether bytes are a word of small letters, in any case.
fn is_in_any_case(bytes: &[u8], word: &[u8]) -> bool
    ensures { result ≡ in_any_case bytes.now word.now }
{
    let mut bytes = bytes;
    let mut word = word;
    while let [byte, more @ ..] = bytes {
        let [letter, letters @ ..] = word else {
            return false;
        };
        if byte.to_ascii_lowercase() != *letter {
            return false;
        }
        bytes = more;
        word = letters;
    }
    word.is_empty()
}

/// The token that one byte is.
fn sign_of<'a>(byte: u8) -> Option<Token<'a>>
    ensures { token_option result ≡ sign_of byte }
{
    match byte {
        b'{' => Some(Token::LeftBrace),
        b'}' => Some(Token::RightBrace),
        b'(' => Some(Token::Open),
        b')' => Some(Token::Close),
        b'.' => Some(Token::Dot),
        b'/' => Some(Token::Slash),
        b'|' => Some(Token::Bar),
        b'^' => Some(Token::Caret),
        b'*' => Some(Token::Asterisk),
        b'+' => Some(Token::PlusSign),
        _ => None,
    }
}

/// The longest front of bytes of a kind, and the bytes behind it.
#[tactic(auto, using(crate::proofs::RunLemmas::run_within, crate::proofs::RunLemmas::take_run, crate::proofs::RunLemmas::drop_run, crate::proofs::RunLemmas::behind_shorter, crate::proofs::RunLemmas::behind_less))]
fn split_run(kind: Kind, bytes: &[u8]) -> (&[u8], &[u8])
    ensures run { result.0.now ≡ run_of (kind_test kind) bytes.now }
    ensures rest { result.1.now ≡ behind_run (kind_test kind) bytes.now }
    ensures shorter { length result.1.now ≤ length bytes.now }
    ensures taken { begins_with kind bytes.now ≡ true → length result.1.now < length bytes.now }
{
    let count = run_length(kind, bytes);
    (&bytes[..count], &bytes[count..])
}

/// How long the longest front of bytes of a kind is.
fn run_length(kind: Kind, bytes: &[u8]) -> usize
    ensures { result ≡ length (run_of (kind_test kind) bytes.now) }
{
    let mut count = 0;
    let mut rest = bytes;
    while let [byte, more @ ..] = rest {
        if !is_of(kind, *byte) {
            return count;
        }
        count += 1;
        rest = more;
    }
    count
}

/// Whether a byte is of a kind.
fn is_of(kind: Kind, byte: u8) -> bool
    ensures { result ≡ kind_test kind byte }
{
    match kind {
        Kind::Letter => byte.is_ascii_alphabetic(),
        Kind::OfName => is_name_byte(byte),
        Kind::OfIri => is_iri_byte(byte),
        Kind::OfComment => is_comment_byte(byte),
    }
}

/// Whether a byte separates tokens.
fn is_white(byte: u8) -> bool
    ensures { result ≡ is_white byte }
{
    byte == b' ' || byte == b'\t' || byte == b'\r' || byte == b'\n'
}

/// Whether a byte goes on a comment: an ASCII byte, and neither CR nor LF.
fn is_comment_byte(byte: u8) -> bool
    ensures { result ≡ is_comment_byte byte }
{
    byte <= 127 && !(byte == b'\r' || byte == b'\n')
}

/// Whether a byte may stand in an IRI.
fn is_iri_byte(byte: u8) -> bool
    ensures { result ≡ is_iri_byte byte }
{
    byte >= 33 && byte <= 126 && !is_barred(byte)
}

/// Whether a byte is a sign that no IRI has.
fn is_barred(byte: u8) -> bool
    ensures { result ≡ is_barred byte }
{
    byte == b'<'
        || byte == b'>'
        || byte == b'"'
        || byte == b'{'
        || byte == b'}'
        || byte == b'|'
        || byte == b'^'
        || byte == b'`'
        || byte == b'\\'
}
