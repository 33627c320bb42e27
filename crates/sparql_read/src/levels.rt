//! A path read token by token, with a list of the levels of parentheses in place of a recursion.

ghost use Rattle.std.specs.Prelude.{◌≡◌, ◌++◌, ◌∷◌, ◌<◌, ◌≤◌, ◌+◌, ◌^◌, ℕ, [], List, length, IfOk, OnOk, MatchOption};
ghost use Rattle.sparql_read.specs.View.{token_view};
ghost use Rattle.sparql_read.specs.State.{NotSigned, SignedIs, LeadsTo};

use crate::paths::{Frame, Path, PathId, push, whole_path, whole_seq};
use crate::tokens::Token;
use std::alloc::{AllocError, Global};

/// What comes next within a path.
#[derive(Clone, Copy)]
pub(crate) enum Mode {
    /// An element.
    Want,
    /// A sign behind this primary, or what may follow an element.
    Have(PathId),
    /// What may follow this element.
    Done(PathId),
}

/// Where a token leads within a path.
pub(crate) enum Next {
    Go(Mode),
    /// The path ended before the token.
    Stop(PathId),
    Fail,
}

/// The levels of parentheses that are open.
#[derive(Drop)]
pub(crate) struct Levels {
    /// The outer ones, the outermost first.
    pub(crate) outer: Vec<Frame>,
    /// The innermost.
    pub(crate) inner: Frame,
}

/// Reads one token of a path.
pub(crate) fn path_step<'a>(
    paths: &mut Vec<Path<'a>>,
    levels: &mut Levels,
    mode: Mode,
    token: &Token<'a>,
) -> Result<Next, AllocError>
    requires room { length paths.old.items + 3 < 2 ^ 32 }
    ensures is { IfOk result (λ next. LeadsTo paths.old.items paths.new.items levels.old levels.new mode (token_view token.now) next) }
    ensures room { OnOk result (length paths.new.items ≤ length paths.old.items + 3) }
{
    match mode {
        Mode::Want => want(paths, levels, token),
        Mode::Have(id) => match signed(id, token) {
            Some(path) => Ok(Next::Go(Mode::Done(push(paths, path)?))),
            None => done(paths, levels, id, token),
        },
        Mode::Done(id) => done(paths, levels, id, token),
    }
}

/// The path that a sign behind a primary makes of it; `None` for any other token.
fn signed<'a>(id: PathId, token: &Token<'a>) -> Option<Path<'a>>
    ensures { MatchOption result (NotSigned (token_view token.now)) (λ path. SignedIs id.0 path (token_view token.now)) }
{
    match token {
        Token::Asterisk => Some(Path::Star(id)),
        Token::PlusSign => Some(Path::Plus(id)),
        Token::Question => Some(Path::Opt(id)),
        _ => None,
    }
}

/// Reads a token where an element begins.
fn want<'a>(
    paths: &mut Vec<Path<'a>>,
    levels: &mut Levels,
    token: &Token<'a>,
) -> Result<Next, AllocError>
    requires room { length paths.old.items < 2 ^ 32 }
    ensures is { IfOk result (λ next. LeadsTo paths.old.items paths.new.items levels.old levels.new Mode.Want (token_view token.now) next) }
    ensures room { OnOk result (length paths.new.items ≤ length paths.old.items + 1) }
{
    match token {
        Token::Predicate(_, name) => Ok(Next::Go(Mode::Have(push(paths, Path::Iri(name))?))),
        Token::Open => {
            levels.outer.push(levels.inner)?;
            levels.inner = Frame::empty();
            Ok(Next::Go(Mode::Want))
        }
        Token::Caret => {
            if levels.inner.caret {
                return Ok(Next::Fail);
            }
            levels.inner.caret = true;
            Ok(Next::Go(Mode::Want))
        }
        _ => Ok(Next::Fail),
    }
}

/// Reads a token behind an element.
fn done<'a>(
    paths: &mut Vec<Path<'a>>,
    levels: &mut Levels,
    id: PathId,
    token: &Token<'a>,
) -> Result<Next, AllocError>
    requires room { length paths.old.items + 3 < 2 ^ 32 }
    ensures is { IfOk result (λ next. LeadsTo paths.old.items paths.new.items levels.old levels.new (Mode.Done id) (token_view token.now) next) }
    ensures room { OnOk result (length paths.new.items ≤ length paths.old.items + 3) }
{
    match token {
        Token::Slash => {
            let seq = whole_seq(paths, levels.inner, id)?;
            levels.inner = levels.inner.with_seq(seq);
            Ok(Next::Go(Mode::Want))
        }
        Token::Bar => {
            let alt = whole_path(paths, levels.inner, id)?;
            levels.inner = Frame::with_alt(alt);
            Ok(Next::Go(Mode::Want))
        }
        Token::Close => {
            let path = whole_path(paths, levels.inner, id)?;
            let Some(outer) = levels.outer.pop() else {
                return Ok(Next::Fail);
            };
            levels.inner = outer;
            Ok(Next::Go(Mode::Have(path)))
        }
        Token::Variable(_) => {
            let path = whole_path(paths, levels.inner, id)?;
            match levels.outer.pop() {
                Some(_) => Ok(Next::Fail),
                None => Ok(Next::Stop(path)),
            }
        }
        _ => Ok(Next::Fail),
    }
}
