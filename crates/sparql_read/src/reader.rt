//! Reads texts of the SPARQL subset.

ghost use Rattle.std.specs.Prelude.{◌≡◌, ◌↔◌, ◌≤◌, ◌<◌, ◌∷◌, ◌&&◌, [], nat_le, length, true, bytes_eq, IfOk, IfErr, OnOk, MatchOption};
ghost use Rattle.std.specs.List.{list_any};
ghost use Rattle.token_text.proofs.TokenLemmas.{Lexed};
ghost use Rattle.sparql_read.specs.declared.places.Parts.{Parts as Lists};
ghost use Rattle.sparql_read.specs.TextMachine.{Place as Spot};
ghost use Rattle.sparql_read.specs.Places.{IsAt};
ghost use Rattle.sparql_read.specs.Grammar.{Asked};
ghost use Rattle.sparql_read.specs.Tokens.{first};
ghost use Rattle.sparql_read.specs.Layout.{laid_out};
ghost use Rattle.sparql_read.specs.Text.{IsSparql, HasNoReading, has_mark, are_different, deepest};
ghost use Rattle.sparql_read.specs.View.{token_view};
ghost use Rattle.sparql_read.specs.Query.{texts};
ghost use Rattle.sparql_read.specs.Reader.{head_mark, name_option, NoToken, NoHead, HeadIs, NoBody, BodyIs, PartsAsk, EndIs};
ghost use Rattle.sparql_read.specs.declared.reader.SparqlError.TheVariants.{NotSparql, TooDeep};

use crate::lexer::{Scan, Scanned};
use crate::places::{HEADS_MOST, Parts, Place, text_step};
use crate::query::SparqlQuery;
use crate::tokens::{Keyword, Token};
use gm_text::Arena;
use std::alloc::{AllocError, Global};
use thiserror::Error;

/// The most levels of parentheses that a text may have.
const DEPTH_MOST: u32 = 64;

/// Why a text was not read.
#[derive(Debug, Drop, Error)]
pub enum SparqlError {
    /// The text is not in the subset.
    #[error("text is not in the SPARQL subset")]
    NotSparql,
    /// Parentheses nest above 64, where those of comments and IRIs count too.
    #[error("parentheses nest above {DEPTH_MOST}")]
    TooDeep,
    /// Memory ran out.
    #[error("out of memory")]
    NoMemory,
}

impl From<AllocError> for SparqlError {
    ghost use Rattle.sparql_read.specs.declared.reader.SparqlError.TheVariants.{NoMemory};

    ghost from_gives = { λ _ error. error ≡ NoMemory };

    fn from(_: AllocError) -> Self {
        SparqlError::NoMemory
    }
}

/// Reads a text of the SPARQL subset of at most 16,777,216 bytes, which it copies into the arena.
pub fn read_sparql<'a>(
    alloc: Global,
    text: &[u8],
    arena: &'a Arena,
) -> Result<SparqlQuery<'a>, SparqlError>
    requires { length text.now ≤ 16777216 }
    ensures found { IfOk result (λ query. (asked : Asked) × IsSparql text.now asked × (query ≡ laid_out asked)) }
    ensures not_deep { OnOk result (deepest text.now ≤ 64) }
    ensures not_sparql { IfErr result (λ error. error ≡ NotSparql → HasNoReading text.now) }
    ensures not_sparql_not_deep { IfErr result (λ error. error ≡ NotSparql → deepest text.now ≤ 64) }
    ensures too_deep { IfErr result (λ error. error ≡ TooDeep → 64 < deepest text.now) }
{
    if is_too_deep(text) {
        return Err(SparqlError::TooDeep);
    }
    let text = arena.try_alloc_slice_copy(text)?;
    match read_text(alloc, text)? {
        Some(parts) => Ok(SparqlQuery::of(&parts, arena)?),
        None => Err(SparqlError::NotSparql),
    }
}

/// What a text asks; `None` where it is not in the subset.
fn read_text<'a>(alloc: Global, text: &'a [u8]) -> Result<Option<Parts<'a>>, AllocError>
    requires { length text.now ≤ 16777216 }
    ensures is { IfOk result (λ found. MatchOption found (HasNoReading text.now) (λ parts. PartsAsk text.now parts)) }
{
    let mut scan = Scan { rest: text };
    let Some(mark) = pass_head(&mut scan) else {
        return Ok(None);
    };
    let Some(parts) = read_body(alloc, mark, scan)? else {
        return Ok(None);
    };
    if !holds(&parts.heads, parts.all_occur) {
        return Ok(None);
    }
    Ok(Some(parts))
}

/// Passes the declaration of a prefix, and gives its mark.
fn pass_head<'a>(scan: &mut Scan<'a>) -> Option<&'a [u8]>
    ensures is { MatchOption result (NoHead scan.old.rest.now) (λ mark. HeadIs scan.old.rest.now mark.now scan.new.rest.now) }
{
    let Some(one) = pass_token(scan) else {
        return None;
    };
    let Some(two) = pass_token(scan) else {
        return None;
    };
    let Some(three) = pass_token(scan) else {
        return None;
    };
    head_mark(&one, &two, &three)
}

/// Passes a token; `None` where no token is left.
fn pass_token<'a>(scan: &mut Scan<'a>) -> Option<Token<'a>>
    ensures is { MatchOption result (NoToken scan.old.rest.now) (λ token. Lexed first scan.old.rest.now (token_view token ∷ []) scan.new.rest.now × (length scan.new.rest.now < length scan.old.rest.now)) }
{
    match scan.next_token() {
        Scanned::Next(token) => Some(token),
        Scanned::End => None,
        Scanned::Other => None,
    }
}

/// The mark that three tokens declare.
fn head_mark<'a>(one: &Token<'a>, two: &Token<'a>, three: &Token<'a>) -> Option<&'a [u8]>
    ensures { name_option result ≡ head_mark (token_view one.now) (token_view two.now) (token_view three.now) }
{
    let Token::Word(Keyword::Prefix) = one else {
        return None;
    };
    let Token::IriRef(_) = three else {
        return None;
    };
    match two {
        Token::Mark(mark) => Some(mark),
        _ => None,
    }
}

/// Reads a text from behind its declaration on; `None` where the grammar has no reading, or a predicate has another mark.
fn read_body<'a>(
    alloc: Global,
    mark: &[u8],
    scan: Scan<'a>,
) -> Result<Option<Parts<'a>>, AllocError>
    requires { length scan.rest.now ≤ 16777216 }
    ensures is { IfOk result (λ found. MatchOption found (NoBody mark.now scan.entry.rest.now) (λ parts. BodyIs mark.now scan.entry.rest.now parts)) }
{
    let mut scan = scan;
    let mut parts = Parts::new(alloc);
    let mut place = Place::AtForm;
    loop {
        match scan.next_token() {
            Scanned::Next(token) => {
                if !has_mark(mark, &token) {
                    return Ok(None);
                }
                let Some(next) = text_step(&mut parts, place, &token)? else {
                    return Ok(None);
                };
                place = next;
            }
            Scanned::End => {
                if is_end(place) {
                    return Ok(Some(parts));
                }
                return Ok(None);
            }
            Scanned::Other => return Ok(None),
        }
    }
}

/// Whether a text may end at a place.
fn is_end(place: Place) -> bool
    ensures { (parts : Lists) (spot : Spot) → IsAt parts place.entry spot → EndIs result parts spot }
{
    match place {
        Place::AtEnd => true,
        _ => false,
    }
}

/// Whether a predicate has this mark.
fn has_mark(mark: &[u8], token: &Token) -> bool
    ensures { result ≡ has_mark mark.now (token_view token.now) }
{
    match token {
        Token::Predicate(own, _) => *own == mark,
        _ => true,
    }
}

/// Whether at most four variables are selected, they differ, and each is in every group.
fn holds(heads: &[&[u8]], all_occur: bool) -> bool
    ensures is { result ≡ (nat_le (length (texts heads.now)) 4 && are_different (texts heads.now) && all_occur) }
{
    heads.len() <= HEADS_MOST && are_different(heads) && all_occur
}

/// Whether no two of the variables are one.
fn are_different(heads: &[&[u8]]) -> bool
    ensures { result ≡ are_different (texts heads.now) }
{
    let mut rest = heads;
    while let [head, more @ ..] = rest {
        if is_among(head, more) {
            return false;
        }
        rest = more;
    }
    true
}

/// Whether a variable is one of these.
fn is_among(head: &[u8], others: &[&[u8]]) -> bool
    ensures { result ≡ list_any (bytes_eq head.now) (texts others.now) }
{
    let mut rest = others;
    while let [other, more @ ..] = rest {
        if head == *other {
            return true;
        }
        rest = more;
    }
    false
}

/// Whether parentheses nest above 64, counted over all bytes.
fn is_too_deep(text: &[u8]) -> bool
    requires { length text.now ≤ 16777216 }
    ensures { (result ≡ true) ↔ (64 < deepest text.now) }
{
    let mut depth = 0u32;
    let mut rest = text;
    while let [byte, more @ ..] = rest {
        depth = match *byte {
            b'(' => depth + 1,
            b')' => depth.saturating_sub(1),
            _ => depth,
        };
        if depth > DEPTH_MOST {
            return true;
        }
        rest = more;
    }
    false
}
