//! A text read token by token, from behind its declaration of a prefix on.

ghost use Rattle.std.specs.Prelude.{◌≡◌, ◌&&◌, ◌<◌, ◌≤◌, ◌+◌, ◌^◌, length, IfOk, OnOk, MatchOption};
ghost use Rattle.sparql_read.specs.TextMachine.{Part, closed};
ghost use Rattle.sparql_read.specs.TextMachine as spots;
ghost use Rattle.sparql_read.specs.Query.{entry_view, texts, entries_view, is_end_of_entry, occurs_in_entries, entries_have_all};
ghost use Rattle.sparql_read.specs.Tokens.{Variable};
ghost use Rattle.sparql_read.specs.View.{token_view};
ghost use Rattle.sparql_read.specs.Places.{HasRoom, HasGrown, RestIs, IsAt, Steps, StepsAlone, NotVariable};

use crate::levels::{Levels, Mode, Next, path_step};
use crate::paths::{Frame, Path};
use crate::query::Pattern;
use crate::tokens::{Keyword, Token};
use gm_text::Span;
use std::alloc::{AllocError, Global};

/// The most variables that a text selects.
pub(crate) const HEADS_MOST: usize = 4;

/// What comes next in a text.
#[derive(Clone, Copy)]
pub(crate) enum Place<'a> {
    /// SELECT or ASK.
    AtForm,
    /// DISTINCT.
    AtDistinct,
    /// The first selected variable.
    AtHead,
    /// Another, or WHERE or `{`.
    AtHeads,
    /// WHERE or `{` behind ASK.
    AtWhere,
    /// `{` behind WHERE.
    AtBrace,
    /// The first variable of a triple, or `{` of a group.
    AtBody,
    /// The first variable of a triple.
    AtSubject,
    /// A path behind this variable, or the variable behind the path.
    InPath(&'a [u8], Mode),
    /// `.`, or `}` of the group.
    BehindTriple,
    /// The first variable of a triple, or `}` of the group.
    BehindDot,
    /// UNION, or `}` of the text.
    BehindGroup,
    /// `{` of a group behind UNION.
    AtGroup,
    /// Nothing.
    AtEnd,
}

/// What was read.
#[derive(Drop)]
pub(crate) struct Parts<'a> {
    /// The selected variables.
    pub(crate) heads: Vec<&'a [u8]>,
    /// The groups that ended, as parts of the list of patterns.
    pub(crate) groups: Vec<Span>,
    /// The patterns of all groups.
    pub(crate) patterns: Vec<Pattern<'a>>,
    /// The paths that ended.
    pub(crate) paths: Vec<Path<'a>>,
    /// The levels of the path that is read.
    pub(crate) levels: Levels,
    /// Where the patterns of the group that is read begin.
    pub(crate) first: usize,
    /// Whether the group that is read has braces of its own.
    pub(crate) braced: bool,
    /// Whether each group that ended has each selected variable.
    pub(crate) all_occur: bool,
}

impl<'a> Parts<'a> {
    /// Nothing was read.
    pub(crate) fn new(alloc: Global) -> Parts<'a>
        ensures is { IsAt result Place.AtForm spots.AtForm }
        ensures few { length result.paths.items + length result.patterns.items + length result.groups.items ≡ 0 }
        ensures first { result.first ≡ 0 }
    {
        Parts {
            heads: Vec::new(alloc),
            groups: Vec::new(alloc),
            patterns: Vec::new(alloc),
            paths: Vec::new(alloc),
            levels: Levels {
                outer: Vec::new(alloc),
                inner: Frame::empty(),
            },
            first: 0,
            braced: false,
            all_occur: true,
        }
    }
}

/// Reads one token.
pub(crate) fn text_step<'a>(
    parts: &mut Parts<'a>,
    place: Place<'a>,
    token: &Token<'a>,
) -> Result<Option<Place<'a>>, AllocError>
    requires room { HasRoom parts.old }
    ensures is { IfOk result (λ next. Steps parts.old parts.new place.entry (token_view token.now) next) }
    ensures grown { OnOk result (HasGrown parts.old parts.new) }
{
    match place {
        Place::AtForm => Ok(at_form(token)),
        Place::AtDistinct => Ok(at_distinct(token)),
        Place::AtHead => at_head(parts, token),
        Place::AtHeads => at_heads(parts, token),
        Place::AtWhere => Ok(at_where(token)),
        Place::AtBrace => Ok(at_brace(token)),
        Place::AtBody => Ok(at_body(parts, token)),
        Place::AtSubject => Ok(at_subject(token)),
        Place::InPath(subject, mode) => in_path(parts, subject, mode, token),
        Place::BehindTriple => behind_triple(parts, token),
        Place::BehindDot => behind_dot(parts, token),
        Place::BehindGroup => Ok(behind_group(token)),
        Place::AtGroup => Ok(at_group(token)),
        Place::AtEnd => Ok(None),
    }
}

fn at_form<'a>(token: &Token<'a>) -> Option<Place<'a>>
    ensures { StepsAlone Place.AtForm (token_view token.now) result }
{
    match token {
        Token::Word(Keyword::Ask) => Some(Place::AtWhere),
        Token::Word(Keyword::Select) => Some(Place::AtDistinct),
        _ => None,
    }
}

fn at_distinct<'a>(token: &Token<'a>) -> Option<Place<'a>>
    ensures { StepsAlone Place.AtDistinct (token_view token.now) result }
{
    match token {
        Token::Word(Keyword::Distinct) => Some(Place::AtHead),
        _ => None,
    }
}

fn at_head<'a>(parts: &mut Parts<'a>, token: &Token<'a>) -> Result<Option<Place<'a>>, AllocError>
    ensures is { IfOk result (λ next. Steps parts.old parts.new Place.AtHead (token_view token.now) next) }
    ensures grown { OnOk result (HasGrown parts.old parts.new) }
{
    match token {
        Token::Variable(name) => {
            parts.heads.push(name)?;
            Ok(Some(Place::AtHeads))
        }
        _ => Ok(None),
    }
}

fn at_heads<'a>(parts: &mut Parts<'a>, token: &Token<'a>) -> Result<Option<Place<'a>>, AllocError>
    ensures is { IfOk result (λ next. Steps parts.old parts.new Place.AtHeads (token_view token.now) next) }
    ensures grown { OnOk result (HasGrown parts.old parts.new) }
{
    match token {
        Token::Variable(name) => {
            if parts.heads.len() >= HEADS_MOST {
                return Ok(None);
            }
            parts.heads.push(name)?;
            Ok(Some(Place::AtHeads))
        }
        Token::Word(Keyword::Where) => Ok(Some(Place::AtBrace)),
        Token::LeftBrace => Ok(Some(Place::AtBody)),
        _ => Ok(None),
    }
}

fn at_where<'a>(token: &Token<'a>) -> Option<Place<'a>>
    ensures { StepsAlone Place.AtWhere (token_view token.now) result }
{
    match token {
        Token::Word(Keyword::Where) => Some(Place::AtBrace),
        Token::LeftBrace => Some(Place::AtBody),
        _ => None,
    }
}

fn at_brace<'a>(token: &Token<'a>) -> Option<Place<'a>>
    ensures { StepsAlone Place.AtBrace (token_view token.now) result }
{
    match token {
        Token::LeftBrace => Some(Place::AtBody),
        _ => None,
    }
}

fn at_body<'a>(parts: &mut Parts<'a>, token: &Token<'a>) -> Option<Place<'a>>
    ensures is { Steps parts.old parts.new Place.AtBody (token_view token.now) result }
    ensures grown { HasGrown parts.old parts.new }
{
    match token {
        Token::Variable(name) => {
            parts.braced = false;
            Some(Place::InPath(name, Mode::Want))
        }
        Token::LeftBrace => {
            parts.braced = true;
            Some(Place::AtSubject)
        }
        _ => None,
    }
}

fn at_subject<'a>(token: &Token<'a>) -> Option<Place<'a>>
    ensures { StepsAlone Place.AtSubject (token_view token.now) result }
{
    match token {
        Token::Variable(name) => Some(Place::InPath(name, Mode::Want)),
        _ => None,
    }
}

fn in_path<'a>(
    parts: &mut Parts<'a>,
    subject: &'a [u8],
    mode: Mode,
    token: &Token<'a>,
) -> Result<Option<Place<'a>>, AllocError>
    requires room { HasRoom parts.old }
    ensures is { IfOk result (λ next. Steps parts.old parts.new (Place.InPath subject.entry mode) (token_view token.now) next) }
    ensures grown { OnOk result (HasGrown parts.old parts.new) }
{
    match path_step(&mut parts.paths, &mut parts.levels, mode, token)? {
        Next::Go(mode) => Ok(Some(Place::InPath(subject, mode))),
        Next::Stop(path) => {
            let Some(object) = variable_of(token) else {
                return Ok(None);
            };
            parts.patterns.push(Pattern {
                subject,
                path,
                object,
            })?;
            parts.levels.inner = Frame::empty();
            Ok(Some(Place::BehindTriple))
        }
        Next::Fail => Ok(None),
    }
}

/// The name of a variable; `None` for any other token.
fn variable_of<'a>(token: &Token<'a>) -> Option<&'a [u8]>
    ensures { MatchOption result (NotVariable (token_view token.now)) (λ name. token_view token.now ≡ Variable name.now) }
{
    match token {
        Token::Variable(name) => Some(name),
        _ => None,
    }
}

fn behind_triple<'a>(
    parts: &mut Parts<'a>,
    token: &Token<'a>,
) -> Result<Option<Place<'a>>, AllocError>
    requires room { HasRoom parts.old }
    ensures is { IfOk result (λ next. Steps parts.old parts.new Place.BehindTriple (token_view token.now) next) }
    ensures grown { OnOk result (HasGrown parts.old parts.new) }
{
    match token {
        Token::Dot => Ok(Some(Place::BehindDot)),
        Token::RightBrace => Ok(Some(close(parts)?)),
        _ => Ok(None),
    }
}

fn behind_dot<'a>(parts: &mut Parts<'a>, token: &Token<'a>) -> Result<Option<Place<'a>>, AllocError>
    requires room { HasRoom parts.old }
    ensures is { IfOk result (λ next. Steps parts.old parts.new Place.BehindDot (token_view token.now) next) }
    ensures grown { OnOk result (HasGrown parts.old parts.new) }
{
    match token {
        Token::Variable(name) => Ok(Some(Place::InPath(name, Mode::Want))),
        Token::RightBrace => Ok(Some(close(parts)?)),
        _ => Ok(None),
    }
}

/// Ends a group at its brace.
fn close<'a>(parts: &mut Parts<'a>) -> Result<Place<'a>, AllocError>
    requires room { HasRoom parts.old }
    ensures is { IfOk result (λ place. (part : Part) → RestIs parts.old part → IsAt parts.new place (closed part)) }
    ensures grown { OnOk result (HasGrown parts.old parts.new) }
{
    let end = parts.patterns.len();
    let group = Span {
        first: parts.first as u32,
        count: (end - parts.first) as u32,
    };
    let occur = has_all(&parts.heads, &parts.patterns[parts.first..]);
    parts.all_occur = are_both(parts.all_occur, occur);
    parts.groups.push(group)?;
    parts.first = end;
    if parts.braced {
        Ok(Place::BehindGroup)
    } else {
        Ok(Place::AtEnd)
    }
}

fn behind_group<'a>(token: &Token<'a>) -> Option<Place<'a>>
    ensures { StepsAlone Place.BehindGroup (token_view token.now) result }
{
    match token {
        Token::Word(Keyword::Union) => Some(Place::AtGroup),
        Token::RightBrace => Some(Place::AtEnd),
        _ => None,
    }
}

fn at_group<'a>(token: &Token<'a>) -> Option<Place<'a>>
    ensures { StepsAlone Place.AtGroup (token_view token.now) result }
{
    match token {
        Token::LeftBrace => Some(Place::AtSubject),
        _ => None,
    }
}

fn are_both(one: bool, other: bool) -> bool
    ensures { result ≡ (one && other) }
{
    one && other
}

/// Whether each of the variables is in a group with these patterns.
fn has_all(heads: &[&[u8]], patterns: &[Pattern]) -> bool
    ensures { result ≡ entries_have_all (texts heads.now) (entries_view patterns.now) }
{
    let mut rest = heads;
    while let [head, more @ ..] = rest {
        if !occurs(head, patterns) {
            return false;
        }
        rest = more;
    }
    true
}

fn occurs(head: &[u8], patterns: &[Pattern]) -> bool
    ensures { result ≡ occurs_in_entries head.now (entries_view patterns.now) }
{
    let mut rest = patterns;
    while let [pattern, more @ ..] = rest {
        if is_end_of(head, pattern) {
            return true;
        }
        rest = more;
    }
    false
}

fn is_end_of(variable: &[u8], pattern: &Pattern) -> bool
    ensures { result ≡ is_end_of_entry variable.now (entry_view pattern.now) }
{
    variable == pattern.subject || variable == pattern.object
}
