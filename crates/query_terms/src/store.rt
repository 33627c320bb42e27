//! A list of terms, each of which is there once.

ghost use Rattle.std.specs.Prelude.{◌≡◌, ◌≤◌, ◌<◌, ◌+◌, length, slice_get, [], Some, IfOk, OnErr};
ghost use Rattle.query_terms.specs.Store.{terms_most, ChildrenBelow, IsStore, IsNumbered, put_of};
ghost use Rattle.query_terms.specs.Kept.{terms_in};

use crate::index::TermIndex;
use crate::listed::Listed;
use crate::terms::{Term, TermId};
use gm_text::Arena;
use std::alloc::{AllocError, Global};
use std::marker::Model;

/// Terms, numbered from 0. The parts of a term have smaller numbers, and no two terms are equal.
#[derive(Drop)]
pub struct TermStore<'a> {
    alloc: Global,
    arena: &'a Arena,
    terms: Terms<'a>,
}

/// The terms of a store, in the order of their numbers.
#[derive(Drop)]
pub(crate) enum Terms<'a> {
    /// With an index that finds each of them.
    Indexed(TermIndex),
    /// Alone, in a small list.
    Listed(Listed<'a>),
    /// Alone, where a small list has no room for them.
    Plain(&'a [Term]),
}

impl<'a> Model for TermStore<'a> {
    ghost use Rattle.std.specs.Prelude.{List};
    ghost use Rattle.query_terms.specs.declared.terms.Term.{Term};
    ghost use Rattle.query_terms.specs.Store.{IsNumbered};
    ghost use Rattle.query_terms.specs.Kept.{terms_in};

    ghost Value = { List Term };

    ghost view = { λ store. terms_in store.terms };

    ghost invariant = { λ store. IsNumbered (terms_in store.terms) };
}

impl<'a> TermStore<'a> {
    /// The store with no term. Once it is listed, the list lies in the arena.
    pub fn new(alloc: Global, arena: &'a Arena) -> TermStore<'a>
        ensures { result ≡ [] }
    {
        TermStore::indexed(alloc, arena, TermIndex::new(alloc))
    }

    /// The number of the term, which is added at the end where it isn't there.
    pub fn put(&mut self, term: Term) -> Result<TermId, AllocError>
        requires children { ChildrenBelow (length self.old) term }
        requires room { length self.old < terms_most }
        ensures put { IfOk result (λ id. put_of self.old term ≡ record { terms = self.new; number = id }) }
        ensures inside { IfOk result (λ id. slice_get self.new id ≡ Some term) }
        ensures grows { length self.old ≤ length self.new }
        ensures few { length self.new ≤ length self.old + 1 }
        ensures refused { OnErr result (self.new ≡ self.old) }
    {
        if let Terms::Indexed(index) = &mut self.terms {
            return index.put(term);
        }
        let mut index = indexed(self.alloc, &self.terms)?;
        let id = index.put(term)?;
        self.terms = Terms::Indexed(index);
        Ok(id)
    }

    /// The term with a number.
    #[inline(always)]
    pub fn get(&self, id: TermId) -> Term
        requires { id < length self.now }
        ensures { slice_get self.now id ≡ Some result }
    {
        self.terms.get(id.number())
    }

    /// The number of terms.
    pub fn len(&self) -> u32
        ensures count { result ≡ length self.now }
        ensures store { IsStore self.now }
    {
        self.terms.len() as u32
    }

    /// The term with this number.
    pub fn id(&self, n: u32) -> TermId
        requires { n < length self.now }
        ensures { result ≡ n }
    {
        TermId::of(n)
    }

    /// The store with terms that are found again.
    pub(crate) fn indexed(alloc: Global, arena: &'a Arena, index: TermIndex) -> TermStore<'a>
        ensures { result ≡ index }
    {
        TermStore {
            alloc,
            arena,
            terms: Terms::Indexed(index),
        }
    }

    /// The store with terms that are listed in the arena.
    pub(crate) fn listed(
        alloc: Global,
        arena: &'a Arena,
        terms: &[Term],
    ) -> Result<TermStore<'a>, AllocError>
        requires { IsNumbered terms.now }
        ensures { IfOk result (λ store. store ≡ terms.now) }
    {
        Ok(TermStore {
            alloc,
            arena,
            terms: listed(alloc, arena, terms)?,
        })
    }
}

impl<'a> Terms<'a> {
    /// The number of terms.
    fn len(&self) -> usize
        ensures { result ≡ length (terms_in self.now) }
    {
        match self {
            Terms::Indexed(index) => index.as_slice().len(),
            Terms::Listed(terms) => terms.len(),
            Terms::Plain(terms) => terms.len(),
        }
    }

    /// The term with a number.
    #[inline(always)]
    fn get(&self, n: u32) -> Term
        requires { n < length (terms_in self.now) }
        ensures { slice_get (terms_in self.now) n ≡ Some result }
    {
        match self {
            Terms::Indexed(index) => index.as_slice()[n as usize],
            Terms::Listed(terms) => terms.get(n),
            Terms::Plain(terms) => terms[n as usize],
        }
    }
}

/// The terms in the arena, in a small list where it has room for them.
fn listed<'a>(alloc: Global, arena: &'a Arena, terms: &[Term]) -> Result<Terms<'a>, AllocError>
    requires { IsNumbered terms.now }
    ensures { IfOk result (λ list. terms_in list ≡ terms.now) }
{
    if let Some(list) = Listed::of(alloc, arena, terms)? {
        return Ok(Terms::Listed(list));
    }
    Ok(Terms::Plain(arena.try_alloc_slice_copy(terms)?))
}

/// The terms, each of which is found again.
fn indexed(alloc: Global, terms: &Terms<'_>) -> Result<TermIndex, AllocError>
    requires { IsNumbered (terms_in terms.now) }
    ensures { IfOk result (λ index. index ≡ terms_in terms.now) }
{
    let mut index = TermIndex::new(alloc);
    for n in 0..terms.len() as u32 {
        index.put(terms.get(n))?;
    }
    Ok(index)
}
