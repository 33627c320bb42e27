//! Steps, which are looked for first where they were found last.

ghost use Rattle.std.specs.Prelude.{◌≡◌, ◌≤◌, ◌<◌, ◌+◌, length, slice_get, Some, IfSome, IfOk, OnErr};
ghost use Rattle.query_terms.specs.declared.terms.Term.TheVariants.{Step};
ghost use Rattle.query_terms.specs.Store.{terms_most, ChildrenBelow, put_of};

use crate::index::TermIndex;
use crate::terms::{Term, TermId};
use std::alloc::AllocError;

/// The number of a step, which is added at the end where it isn't there. `places` has for each label and direction a number
/// at which to look first.
#[inline(always)]
pub(crate) fn put_step(
    terms: &mut TermIndex,
    places: &mut Vec<u32>,
    label: u8,
    back: bool,
) -> Result<TermId, AllocError>
    requires room { length terms.old < terms_most }
    ensures put { IfOk result (λ id. put_of terms.old (Step label back) ≡ record { terms = terms.new; number = id }) }
    ensures inside { IfOk result (λ id. slice_get terms.new id ≡ Some (Step label back)) }
    ensures grows { length terms.old ≤ length terms.new }
    ensures few { length terms.new ≤ length terms.old + 1 }
{
    let place = 2 * label as usize + back as usize;
    if let Some(id) = found(terms, places.as_slice(), place, Term::Step { label, back }) {
        return Ok(id);
    }
    put_noted(terms, places, place, Term::Step { label, back })
}

/// The number of a term, which is added at the end where it isn't there, and is noted at a place.
#[inline(never)]
fn put_noted(
    terms: &mut TermIndex,
    places: &mut Vec<u32>,
    place: usize,
    term: Term,
) -> Result<TermId, AllocError>
    requires children { ChildrenBelow (length terms.old) term }
    requires room { length terms.old < terms_most }
    requires place { place < 512 }
    ensures put { IfOk result (λ id. put_of terms.old term ≡ record { terms = terms.new; number = id }) }
    ensures inside { IfOk result (λ id. slice_get terms.new id ≡ Some term) }
    ensures grows { length terms.old ≤ length terms.new }
    ensures few { length terms.new ≤ length terms.old + 1 }
{
    let id = terms.put(term)?;
    note(places, place, id)?;
    Ok(id)
}

/// The number at a place, where the term has it.
#[inline(always)]
fn found(terms: &TermIndex, places: &[u32], place: usize, term: Term) -> Option<TermId>
    ensures put { IfSome result (λ id. put_of terms.now term ≡ record { terms = terms.now; number = id }) }
    ensures inside { IfSome result (λ id. slice_get terms.now id ≡ Some term) }
{
    let Some(number) = places.get(place) else {
        return None;
    };
    let number = *number;
    if number >= terms.len() {
        return None;
    }
    if terms.get(number) != term {
        return None;
    }
    Some(TermId::of(number))
}

/// Notes the number of a term at a place.
fn note(places: &mut Vec<u32>, place: usize, id: TermId) -> Result<(), AllocError>
    requires { place < 512 }
{
    if place >= places.len() {
        places.resize(place + 1, 0)?;
    }
    places[place] = id.number();
    Ok(())
}
