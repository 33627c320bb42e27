//! Terms in a list that is small.

ghost use Rattle.std.specs.Prelude.{◌≡◌, ◌+◌, ◌-◌, ◌<◌, ◌++◌, [], ◌∷◌, true, length, slice_get, Some, IfSome, IfOk};
ghost use Rattle.query_terms.specs.declared.terms.Term.TheVariants.{Seq};
ghost use Rattle.query_terms.specs.Store.{terms_most, ChildrenBelow, IsNumbered};
ghost use Rattle.query_terms.specs.Listed.{others_from};

use crate::terms::{Term, TermId};
use gm_text::Arena;
use std::alloc::{AllocError, Global};
use std::marker::Model;

/// Codes from this one on name terms of the second list.
const OTHERS_FROM: u16 = 32_768;

/// The most terms of the second list.
const OTHERS_MOST: usize = 32_768;

/// Terms, each as a code: a sequence that stands right after its first part is the number of its second part.
#[derive(Drop)]
pub(crate) struct Listed<'a> {
    codes: &'a [u16],
    /// The terms that are no such sequences.
    others: &'a [Term],
}

impl<'a> Model for Listed<'a> {
    ghost use Rattle.std.specs.Prelude.{◌≡◌, true, length, List};
    ghost use Rattle.std.specs.List.{list_all};
    ghost use Rattle.query_terms.specs.declared.terms.Term.{Term};
    ghost use Rattle.query_terms.specs.Listed.{decoded, tells};

    ghost Value = { List Term };

    ghost view = { λ l. decoded l.others.now 0 l.codes.now };

    ghost invariant = { λ l. list_all (tells (length l.others.now)) l.codes.now ≡ true };
}

impl<'a> Listed<'a> {
    /// The terms in the arena, unless too many of them need the second list.
    pub(crate) fn of(
        alloc: Global,
        arena: &'a Arena,
        terms: &[Term],
    ) -> Result<Option<Listed<'a>>, AllocError>
        requires { IsNumbered terms.now }
        ensures { IfOk result (λ listed. IfSome listed (λ l. l ≡ terms.now)) }
    {
        let mut listing = Listing::new(alloc);
        for term in terms {
            if !listing.push(*term)? {
                return Ok(None);
            }
        }
        Ok(Some(listing.into_listed(arena)?))
    }

    /// The number of terms.
    pub(crate) fn len(&self) -> usize
        ensures { result ≡ length self.now }
    {
        self.codes.len()
    }

    /// The term with a number.
    #[inline(always)]
    pub(crate) fn get(&self, n: u32) -> Term
        requires { n < length self.now }
        ensures { slice_get self.now n ≡ Some result }
    {
        let code = self.codes[n as usize];
        if code < OTHERS_FROM {
            return Term::Seq(TermId::of(n.saturating_sub(1)), TermId::of(code as u32));
        }
        self.others[(code - OTHERS_FROM) as usize]
    }
}

/// Terms that are being listed.
#[derive(Drop)]
struct Listing {
    codes: Vec<u16>,
    others: Vec<Term>,
}

impl Model for Listing {
    ghost use Rattle.std.specs.Prelude.{◌≡◌, true, length, List};
    ghost use Rattle.std.specs.List.{list_all};
    ghost use Rattle.query_terms.specs.declared.terms.Term.{Term};
    ghost use Rattle.query_terms.specs.Listed.{decoded, tells};

    ghost Value = { List Term };

    ghost view = { λ l. decoded l.others.items 0 l.codes.items };

    ghost invariant = { λ l. list_all (tells (length l.others.items)) l.codes.items ≡ true };
}

impl Listing {
    /// No term.
    fn new(alloc: Global) -> Listing
        ensures { result ≡ [] }
    {
        Listing {
            codes: Vec::new(alloc),
            others: Vec::new(alloc),
        }
    }

    /// One term more, unless it needs the second list and that is full.
    fn push(&mut self, term: Term) -> Result<bool, AllocError>
        requires children { ChildrenBelow (length self.old) term }
        requires room { length self.old < terms_most }
        ensures { IfOk result (λ added. added ≡ true → self.new ≡ self.old ++ term ∷ []) }
    {
        let count = self.codes.as_slice().len() as u32;
        if let Some(code) = code_of(&term, count) {
            self.codes.push(code)?;
            return Ok(true);
        }
        let place = self.others.as_slice().len();
        if place >= OTHERS_MOST {
            return Ok(false);
        }
        self.others.push(term)?;
        self.codes.push(OTHERS_FROM + place as u16)?;
        Ok(true)
    }

    /// The terms, in the arena.
    fn into_listed<'a>(self, arena: &'a Arena) -> Result<Listed<'a>, AllocError>
        ensures { IfOk result (λ listed. listed ≡ self) }
    {
        Ok(Listed {
            codes: arena.try_alloc_slice_copy(self.codes.as_slice())?,
            others: arena.try_alloc_slice_copy(self.others.as_slice())?,
        })
    }
}

/// The code of a term with a number, where it is a sequence that stands right after its first part and whose second part has a
/// low number.
fn code_of(term: &Term, number: u32) -> Option<u16>
    requires { ChildrenBelow terms_most term.now }
    ensures low { IfSome result (λ code. code < others_from) }
    ensures same { IfSome result (λ code. Seq (number - 1) code ≡ term.now) }
{
    let Term::Seq(first, second) = term else {
        return None;
    };
    if first.number() + 1 != number {
        return None;
    }
    if second.number() >= OTHERS_FROM as u32 {
        return None;
    }
    Some(second.number() as u16)
}
