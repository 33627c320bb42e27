//! The paths of a query, in one list, and the levels of parentheses while a path is read.

ghost use Rattle.std.specs.Prelude.{◌≡◌, ◌<◌, ◌≤◌, ◌+◌, ◌^◌, false, Some, None, length, IfOk, OnOk};
ghost use Rattle.sparql_read.specs.State.{Pushed, MakesElt, MakesSeq, MakesPath};

use std::alloc::{AllocError, Global};

/// The number of a path in its query.
#[derive(Clone, Copy, Debug, PartialEq, Eq)]
pub struct PathId(u32);

impl PathId {
    pub(crate) fn of(number: u32) -> PathId
        ensures { result.0 ≡ number }
    {
        PathId(number)
    }

    /// The number, from 0.
    pub fn number(self) -> u32
        ensures { result ≡ self.0 }
    {
        self.0
    }
}

/// A path, whose parts are given by their numbers.
#[derive(Clone, Copy, Debug)]
pub enum Path<'a> {
    /// The predicate with this local name.
    Iri(&'a [u8]),
    /// `^`: the part from its end to its beginning.
    Inverse(PathId),
    /// `/`: one path and then another.
    Seq(PathId, PathId),
    /// `|`: one path or another.
    Alt(PathId, PathId),
    /// `*`: the part any number of times.
    Star(PathId),
    /// `+`: the part at least once.
    Plus(PathId),
    /// `?`: the part at most once.
    Opt(PathId),
}

/// What was read at one level of parentheses, in front of an element.
#[derive(Clone, Copy)]
pub(crate) struct Frame {
    /// The alternatives before the last `|`.
    pub(crate) alt: Option<PathId>,
    /// The sequence before the last `/`, from the last `|` on.
    pub(crate) seq: Option<PathId>,
    /// Whether a `^` stands last.
    pub(crate) caret: bool,
}

impl Frame {
    /// A level at which nothing was read.
    pub(crate) fn empty() -> Frame
        ensures { result ≡ record { alt = None; seq = None; caret = false } }
    {
        Frame {
            alt: None,
            seq: None,
            caret: false,
        }
    }

    /// The level behind a `/`.
    pub(crate) fn with_seq(self, seq: PathId) -> Frame
        ensures { result ≡ record { alt = self.alt; seq = Some seq; caret = false } }
    {
        Frame {
            alt: self.alt,
            seq: Some(seq),
            caret: false,
        }
    }

    /// The level behind a `|`.
    pub(crate) fn with_alt(alt: PathId) -> Frame
        ensures { result ≡ record { alt = Some alt; seq = None; caret = false } }
    {
        Frame {
            alt: Some(alt),
            seq: None,
            caret: false,
        }
    }
}

/// Adds a path behind all others.
pub(crate) fn push<'a>(paths: &mut Vec<Path<'a>>, path: Path<'a>) -> Result<PathId, AllocError>
    requires room { length paths.old.items < 2 ^ 32 }
    ensures is { IfOk result (λ id. Pushed paths.old.items paths.new.items path.entry id.0) }
    ensures room { OnOk result (length paths.new.items ≤ length paths.old.items + 1) }
{
    let id = PathId(paths.len() as u32);
    paths.push(path)?;
    Ok(id)
}

/// An element, given by its part behind a `^`, if there is one.
fn whole_elt<'a>(paths: &mut Vec<Path<'a>>, frame: Frame, id: PathId) -> Result<PathId, AllocError>
    requires room { length paths.old.items < 2 ^ 32 }
    ensures is { IfOk result (λ made. MakesElt paths.old.items paths.new.items frame id made) }
    ensures room { OnOk result (length paths.new.items ≤ length paths.old.items + 1) }
{
    if frame.caret {
        push(paths, Path::Inverse(id))
    } else {
        Ok(id)
    }
}

/// A sequence that ends with an element, given by the element's part behind a `^`.
pub(crate) fn whole_seq<'a>(
    paths: &mut Vec<Path<'a>>,
    frame: Frame,
    id: PathId,
) -> Result<PathId, AllocError>
    requires room { length paths.old.items + 1 < 2 ^ 32 }
    ensures is { IfOk result (λ made. MakesSeq paths.old.items paths.new.items frame id made) }
    ensures room { OnOk result (length paths.new.items ≤ length paths.old.items + 2) }
{
    let elt = whole_elt(paths, frame, id)?;
    match frame.seq {
        Some(left) => push(paths, Path::Seq(left, elt)),
        None => Ok(elt),
    }
}

/// The path of a whole level that ends with an element, given by the element's part behind a `^`.
pub(crate) fn whole_path<'a>(
    paths: &mut Vec<Path<'a>>,
    frame: Frame,
    id: PathId,
) -> Result<PathId, AllocError>
    requires room { length paths.old.items + 2 < 2 ^ 32 }
    ensures is { IfOk result (λ made. MakesPath paths.old.items paths.new.items frame id made) }
    ensures room { OnOk result (length paths.new.items ≤ length paths.old.items + 3) }
{
    let seq = whole_seq(paths, frame, id)?;
    match frame.alt {
        Some(left) => push(paths, Path::Alt(left, seq)),
        None => Ok(seq),
    }
}
