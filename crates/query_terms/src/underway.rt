//! The terms of a query that is being built.

ghost use Rattle.std.specs.Prelude.{◌≡◌, ◌≤◌, ◌+◌, [], length, None, IsOk, IfOk, OnOk, is_some, true};
ghost use Rattle.query_terms.specs.declared.terms.Term.TheVariants.{Step};
ghost use Rattle.query_terms.specs.Store.{terms_most};
ghost use Rattle.query_terms.specs.Underway.{with_step, with_choice, with_end, closed};

use crate::TERMS_MOST;
use crate::index::TermIndex;
use crate::steps::put_step;
use crate::store::TermStore;
use crate::terms::{Term, TermId};
use gm_text::Arena;
use std::alloc::{AllocError, Global};
use std::marker::Model;

/// The terms so far, with those of the word and of the conjunct that are begun.
#[derive(Drop)]
pub(crate) struct Numbering<'a> {
    alloc: Global,
    arena: &'a Arena,
    terms: TermIndex,
    word: Option<TermId>,
    union: Option<TermId>,
    /// Where steps were found last.
    steps: Vec<u32>,
}

impl<'a> Model for Numbering<'a> {
    ghost use Rattle.query_terms.specs.Underway.{Underway, IsUnderway};

    ghost Value = { Underway };

    ghost view = { λ n. record { terms = n.terms; word = n.word; union = n.union } };

    ghost invariant = { λ n. IsUnderway (record { terms = n.terms; word = n.word; union = n.union }) };
}

impl<'a> Numbering<'a> {
    /// No term.
    pub(crate) fn new(alloc: Global, arena: &'a Arena) -> Numbering<'a>
        ensures { result ≡ record { terms = []; word = None; union = None } }
    {
        Numbering {
            alloc,
            arena,
            terms: TermIndex::new(alloc),
            word: None,
            union: None,
            steps: Vec::new(alloc),
        }
    }

    /// Whether so many terms more can be numbered: else they are refused, as where memory is wanting.
    #[inline(always)]
    fn has_room(&self, count: u32) -> Result<(), AllocError>
        requires { count ≤ terms_most }
        ensures { IsOk result → length self.now.terms + count ≤ terms_most }
    {
        if self.terms.len() > TERMS_MOST - count {
            return Err(AllocError);
        }
        Ok(())
    }

    /// The word goes on with a step.
    #[inline]
    pub(crate) fn step(&mut self, label: u8, back: bool) -> Result<(), AllocError>
        ensures goes_on { OnOk result (self.new ≡ with_step self.old (Step label back)) }
    {
        self.has_room(2)?;
        let step = put_step(&mut self.terms, &mut self.steps, label, back)?;
        let word = match self.word {
            None => step,
            Some(before) => self.terms.put(Term::Seq(before, step))?,
        };
        self.word = Some(word);
        Ok(())
    }

    /// The word that was begun is one of the conjunct's.
    #[inline]
    pub(crate) fn end_word(&mut self) -> Result<(), AllocError>
        requires begun { is_some self.old.word ≡ true }
        ensures goes_on { OnOk result (self.new ≡ with_choice self.old) }
    {
        self.has_room(1)?;
        let Some(word) = self.word else {
            unreachable!()
        };
        let union = match self.union {
            None => word,
            Some(before) => self.terms.put(Term::Alt(before, word))?,
        };
        self.word = None;
        self.union = Some(union);
        Ok(())
    }

    /// The conjunct is ended. The answer is its term.
    pub(crate) fn end_conjunct(&mut self, star: bool) -> Result<TermId, AllocError>
        requires begun { is_some self.old.union ≡ true }
        requires word { self.old.word ≡ None }
        ensures goes_on { OnOk result (self.new ≡ with_end star self.old) }
        ensures term { IfOk result (λ id. id ≡ (closed star self.old).number) }
    {
        self.has_room(1)?;
        let Some(union) = self.union else {
            unreachable!()
        };
        let term = if star {
            self.terms.put(Term::Star(union))?
        } else {
            union
        };
        self.union = None;
        Ok(term)
    }

    /// The terms, in the arena.
    pub(crate) fn into_terms(self) -> Result<TermStore<'a>, AllocError>
        ensures { IfOk result (λ terms. terms ≡ self.entry.terms) }
    {
        TermStore::listed(self.alloc, self.arena, self.terms.as_slice())
    }

    /// The terms, which are found again.
    pub(crate) fn into_index(self) -> TermStore<'a>
        ensures { result ≡ self.entry.terms }
    {
        TermStore::indexed(self.alloc, self.arena, self.terms)
    }
}
