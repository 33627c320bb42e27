//! Terms that are found again by what they are.

ghost use Rattle.std.specs.Prelude.{◌≡◌, ◌≢◌, ◌≤◌, ◌<◌, ◌+◌, ℕ, [], length, slice_get, true, false, None, Some, IfSome, IfNone, IfOk, OnErr};
ghost use Rattle.query_terms.specs.Store.{terms_most, ChildrenBelow, IsNumbered, put_of};
ghost use Rattle.query_terms.specs.Index.{goes_on, IsIndexed};

use crate::entries::find_or_put;
use crate::terms::{Term, TermId};
use indexmap::IndexMap;
use std::alloc::{AllocError, Global};
use std::marker::Model;

/// The terms of a store. A sequence that stands right after its first part is found there, and each other term by its number.
#[derive(Drop)]
pub(crate) struct TermIndex {
    terms: Vec<Term>,
    /// The number of each term that doesn't stand right after its first part.
    numbers: IndexMap<Term, u32>,
}

impl Model for TermIndex {
    ghost use Rattle.std.specs.Prelude.{List};
    ghost use Rattle.query_terms.specs.declared.terms.Term.{Term};
    ghost use Rattle.query_terms.specs.Index.{IsIndexed};

    ghost Value = { List Term };

    ghost view = { λ index. index.terms.items };

    ghost invariant = { λ index. IsIndexed index.terms.items index.numbers.entries };
}

impl TermIndex {
    /// No term.
    pub(crate) fn new(alloc: Global) -> TermIndex
        ensures { result ≡ [] }
    {
        TermIndex {
            terms: Vec::new(alloc),
            numbers: IndexMap::new(alloc),
        }
    }

    /// All terms, in the order of their numbers.
    pub(crate) fn as_slice(&self) -> &[Term]
        ensures value { result.now ≡ self.now }
        ensures numbered { IsNumbered self.now }
    {
        self.terms.as_slice()
    }

    /// The number of terms.
    #[inline(always)]
    pub(crate) fn len(&self) -> u32
        ensures count { result ≡ length self.now }
        ensures numbered { IsNumbered self.now }
    {
        self.terms.as_slice().len() as u32
    }

    /// The term with a number.
    #[inline(always)]
    pub(crate) fn get(&self, n: u32) -> Term
        requires { n < length self.now }
        ensures { slice_get self.now n ≡ Some result }
    {
        self.terms.as_slice()[n as usize]
    }

    /// The number of the term, which is added at the end where it isn't there.
    #[inline(always)]
    pub(crate) fn put(&mut self, term: Term) -> Result<TermId, AllocError>
        requires children { ChildrenBelow (length self.old) term }
        requires room { length self.old < terms_most }
        ensures put { IfOk result (λ id. put_of self.old term ≡ record { terms = self.new; number = id }) }
        ensures inside { IfOk result (λ id. slice_get self.new id ≡ Some term) }
        ensures grows { length self.old ≤ length self.new }
        ensures few { length self.new ≤ length self.old + 1 }
        ensures numbered { IsNumbered self.new }
        ensures refused { OnErr result (self.new ≡ self.old) }
    {
        let count = self.terms.as_slice().len() as u32;
        if follows(&term, count) {
            self.terms.push(term)?;
            return Ok(TermId::of(count));
        }
        self.put_by_number(term)
    }

    /// The number of the term, which is added at the end, with its number, where it isn't there.
    #[inline(never)]
    fn put_by_number(&mut self, term: Term) -> Result<TermId, AllocError>
        requires children { ChildrenBelow (length self.old) term }
        requires room { length self.old < terms_most }
        ensures put { IfOk result (λ id. put_of self.old term ≡ record { terms = self.new; number = id }) }
        ensures inside { IfOk result (λ id. slice_get self.new id ≡ Some term) }
        ensures grows { length self.old ≤ length self.new }
        ensures few { length self.new ≤ length self.old + 1 }
        ensures numbered { IsNumbered self.new }
        ensures refused { OnErr result (self.new ≡ self.old) }
    {
        let count = self.terms.as_slice().len() as u32;
        if let Some(next) = found_next(self.terms.as_slice(), &term) {
            return Ok(TermId::of(next));
        }
        self.terms.reserve(1)?;
        if let Some(number) = find_or_put(&mut self.numbers, term, count)? {
            return Ok(TermId::of(number));
        }
        match self.terms.push(term) {
            Ok(()) => Ok(TermId::of(count)),
            Err(_) => unreachable!(),
        }
    }
}

/// Whether the term is a sequence whose first part has the number before a number.
#[inline(always)]
fn follows(term: &Term, number: u32) -> bool
    requires { ChildrenBelow terms_most term.now }
    ensures { result ≡ goes_on term.now number }
{
    match term {
        Term::Seq(first, _) => first.number() + 1 == number,
        _ => false,
    }
}

/// The number of a sequence that stands right after its first part.
fn found_next(terms: &[Term], term: &Term) -> Option<u32>
    requires few { length terms.now ≤ terms_most }
    requires children { ChildrenBelow (length terms.now) term.now }
    ensures there { IfSome result (λ n. slice_get terms.now n ≡ Some term.now) }
    ensures absent { IfNone result ((n : ℕ) → goes_on term.now n ≡ true → slice_get terms.now n ≢ Some term.now) }
{
    let Term::Seq(first, _) = term else {
        return None;
    };
    let next = first.number() + 1;
    if next as usize >= terms.len() {
        return None;
    }
    if terms[next as usize] != *term {
        return None;
    }
    Some(next)
}
