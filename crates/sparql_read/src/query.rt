//! What a text of the SPARQL subset asks.

ghost use Rattle.std.specs.Prelude.{◌≡◌, ◌<◌, ◌≤◌, length, slice_get, Some, IfOk, IfSome};
ghost use Rattle.sparql_read.specs.Query.{node_view, entry_view, AreFew, HasPattern};
ghost use Rattle.sparql_read.specs.Reader.{parts_view};

use crate::paths::{Path, PathId};
use crate::places::Parts;
use gm_text::{Arena, Span};
use std::alloc::AllocError;
use std::marker::Model;

/// A path between two variables, whose names stand without `?`.
#[derive(Clone, Copy, Debug)]
pub struct Pattern<'a> {
    /// The variable at which the path begins.
    pub subject: &'a [u8],
    /// The number of the path.
    pub path: PathId,
    /// The variable at which the path ends.
    pub object: &'a [u8],
}

/// What a text asks: the variables that it selects, its groups of patterns, and all paths.
///
/// Each list is in the order of the text; the paths are in the order in which they end, and of two that end at one
/// token the inner one comes first.
#[derive(Drop)]
pub struct SparqlQuery<'a> {
    variables: &'a [&'a [u8]],
    groups: &'a [Span],
    patterns: &'a [Pattern<'a>],
    paths: &'a [Path<'a>],
}

impl<'a> Model for SparqlQuery<'a> {
    ghost use Rattle.sparql_read.specs.Layout.{Lists};
    ghost use Rattle.sparql_read.specs.Query.{lists_view, AreFew};

    ghost Value = { Lists };

    ghost view = { λ query. lists_view query.variables.now query.groups.now query.patterns.now query.paths.now };

    ghost invariant = { λ q. AreFew (lists_view q.variables.now q.groups.now q.patterns.now q.paths.now) };
}

impl<'a> SparqlQuery<'a> {
    /// The query with these lists, which are copied into the arena.
    pub(crate) fn of(parts: &Parts<'a>, arena: &'a Arena) -> Result<SparqlQuery<'a>, AllocError>
        requires { AreFew (parts_view parts.now) }
        ensures { IfOk result (λ query. query ≡ parts_view parts.now) }
    {
        Ok(SparqlQuery {
            variables: arena.try_alloc_slice_copy(&parts.heads)?,
            groups: arena.try_alloc_slice_copy(&parts.groups)?,
            patterns: arena.try_alloc_slice_copy(&parts.patterns)?,
            paths: arena.try_alloc_slice_copy(&parts.paths)?,
        })
    }

    /// The number of selected variables, 0 to 4; none for ASK.
    pub fn variable_count(&self) -> u8
        ensures count { result ≡ length self.now.variables }
        ensures few { length self.now.variables ≤ 4 }
    {
        self.variables.len() as u8
    }

    /// The selected variable at a place below their count.
    pub fn variable(&self, i: u8) -> &'a [u8]
        requires { i < length self.now.variables }
        ensures { slice_get self.now.variables i ≡ Some result.now }
    {
        self.variables[i as usize]
    }

    /// The number of patterns of a group, whose number is below that of the groups.
    pub fn pattern_count(&self, g: u32) -> u32
        requires { g < length self.now.groups }
        ensures { IfSome (slice_get self.now.groups g) (λ group. result ≡ group.count) }
    {
        self.groups[g as usize].count
    }

    /// The pattern at a place of a group, below the number of the group's patterns.
    pub fn pattern(&self, g: u32, i: u32) -> Pattern<'a>
        requires group { g < length self.now.groups }
        requires place { IfSome (slice_get self.now.groups g) (λ group. i < group.count) }
        ensures { HasPattern self.now g i (entry_view result) }
    {
        let group = self.groups[g as usize];
        self.patterns[(group.first + i) as usize]
    }

    /// The number of the path at a place below their count.
    pub fn path_id(&self, i: u32) -> PathId
        requires { i < length self.now.paths }
        ensures { result.0 ≡ i }
    {
        PathId::of(i)
    }

    /// The number of groups.
    pub fn group_count(&self) -> u32
        ensures { result ≡ length self.now.groups }
    {
        self.groups.len() as u32
    }

    /// The number of paths.
    pub fn path_count(&self) -> u32
        ensures { result ≡ length self.now.paths }
    {
        self.paths.len() as u32
    }

    /// The path with a number below their count.
    pub fn path(&self, id: PathId) -> Path<'a>
        requires { id.0 < length self.now.paths }
        ensures { slice_get self.now.paths id.0 ≡ Some (node_view result) }
    {
        self.paths[id.number() as usize]
    }
}
