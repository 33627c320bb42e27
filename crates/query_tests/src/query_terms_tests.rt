//! The lists and the terms of queries, for cases whose answers are known from outside.

use crate::samples::{digit, read};
use gm_text::Arena;
use query_terms::{Heads, Query, QueryBuilder, Term, TermId, TermStore};
use sel_algebra::{Class, Shape, Symbol};
use std::alloc::{AllocError, Global};
use std::test::Fail;

/// A label as its letter, behind `^` where it is gone back.
fn push_step(out: &mut Vec<u8>, label: u8, back: bool) -> Result<(), AllocError> {
    if back {
        out.push(b'^')?;
    }
    out.push(b'a' + label % 26)?;
    Ok(())
}

/// What is made of one part: its number and a mark.
fn push_one(out: &mut Vec<u8>, part: TermId, mark: u8) -> Result<(), AllocError> {
    out.push(digit(part.number()))?;
    out.push(mark)?;
    Ok(())
}

/// What is made of two parts: their numbers with a mark between them.
fn push_two(out: &mut Vec<u8>, first: TermId, mark: u8, second: TermId) -> Result<(), AllocError> {
    push_one(out, first, mark)?;
    out.push(digit(second.number()))?;
    Ok(())
}

/// A term.
fn push_term(out: &mut Vec<u8>, term: Term) -> Result<(), AllocError> {
    match term {
        Term::Step { label, back } => push_step(out, label, back),
        Term::Seq(first, second) => push_two(out, first, b'/', second),
        Term::Alt(left, right) => push_two(out, left, b'|', right),
        Term::Star(child) => push_one(out, child, b'*'),
        Term::Opt(child) => push_one(out, child, b'?'),
    }
}

/// The terms of a store, in order, each behind a space.
fn push_terms(out: &mut Vec<u8>, store: &TermStore<'_>) -> Result<(), AllocError> {
    for n in 0..store.len() {
        out.push(b' ')?;
        push_term(out, store.get(store.id(n)))?;
    }
    Ok(())
}

/// The symbols, each behind a space, and behind `^` where it goes back; first and count of the words, each behind a bar.
fn push_words(out: &mut Vec<u8>, query: &Query<'_>) -> Result<(), AllocError> {
    for symbol in query.symbols {
        out.push(b' ')?;
        if symbol.back {
            out.push(b'^')?;
        }
        out.push(digit(symbol.edge as u32))?;
    }
    for span in query.words {
        out.push(b'|')?;
        out.push(digit(span.first))?;
        out.push(digit(span.count))?;
    }
    Ok(())
}

/// The terms of a query.
fn terms_of(alloc: Global, query: &str) -> Result<Vec<u8>, AllocError> {
    let arena = Arena::new(alloc);
    let mut out = Vec::new(alloc);
    if let Some(work) = read(alloc, &arena, query)? {
        push_terms(&mut out, &work.query(0).terms)?;
    }
    Ok(out)
}

/// The symbols and the words of a query.
fn words_of(alloc: Global, query: &str) -> Result<Vec<u8>, AllocError> {
    let arena = Arena::new(alloc);
    let mut out = Vec::new(alloc);
    if let Some(work) = read(alloc, &arena, query)? {
        push_words(&mut out, work.query(0))?;
    }
    Ok(out)
}

#[test]
fn terms(rt: HostRuntime) -> Result<(), Fail> {
    let alloc = rt.alloc();
    for (query, terms) in [
        ("linear linear\nrule x0 x1\nx0 0 x1", " a"),
        ("linear linear\nrule x0 x1\nx0 ^1 x1", " ^c"),
        ("linear linear\nrule x0 x1\nx0 0.^0.0 x1", " a ^a 0/1 2/0"),
        ("linear linear\nrule x0 x1\nx0 (0.^1)* x1", " a ^c 0/1 2*"),
        ("linear linear\nrule x0 x1\nx0 0+0+1 x1", " a 0|0 c 1|2"),
        (
            "linear linear\nrule x0 x1\nx0 (0.1+0.2)* x1",
            " a c 0/1 b 0/3 2|4 5*",
        ),
        (
            "linear linear\nrule x0 x1\nx0 0.1 x1\nrule x0 x1\nx0 0.1 x2\nx2 0 x1",
            " a c 0/1",
        ),
    ] {
        assert_eq!(rt; terms_of(alloc, query)?, terms.as_bytes().to_vec(alloc)?);
    }
    Ok(())
}

#[test]
fn words(rt: HostRuntime) -> Result<(), Fail> {
    let alloc = rt.alloc();
    for (query, words) in [
        ("linear linear\nrule x0 x1\nx0 0 x1", " 0|01"),
        ("linear linear\nrule x0 x1\nx0 2+^2 x1", " 2 ^2|01|11"),
        (
            "linear linear\nrule x0 x1\nx0 0.1+0+1+0 x1",
            " 0 1 0 1|02|21|31|21",
        ),
        (
            "linear linear\nrule x0 x1\nx0 0.1 x1\nrule x0 x1\nx0 0.1 x2\nx2 0 x1",
            " 0 1 0|02|02|21",
        ),
    ] {
        assert_eq!(rt; words_of(alloc, query)?, words.as_bytes().to_vec(alloc)?);
    }
    Ok(())
}

#[test]
fn a_term_is_put_once(rt: HostRuntime) -> Result<(), Fail> {
    let alloc = rt.alloc();
    let arena = Arena::new(alloc);
    let mut store = TermStore::new(alloc, &arena);
    let first = store.put(Term::Step {
        label: 3,
        back: true,
    })?;
    let again = store.put(Term::Step {
        label: 3,
        back: true,
    })?;
    let option = store.put(Term::Opt(first))?;
    assert_eq!(rt;
        (first.number(), again.number(), option.number(), store.len()),
        (0, 0, 1, 2)
    );
    Ok(())
}

/// The terms of a finished query, ` a 0/0 1*`: the word has one symbol twice, and may be repeated.
fn finished<'a>(alloc: Global, arena: &'a Arena) -> Result<TermStore<'a>, AllocError> {
    let symbol = Symbol {
        edge: 0,
        back: false,
    };
    let heads = Heads {
        count: 2,
        vars: [0, 1, 0, 0],
    };
    let mut builder = QueryBuilder::new(alloc, arena, b"a")?;
    builder.symbol(symbol)?;
    builder.symbol(symbol)?;
    builder.end_word()?;
    builder.end_conjunct(0, 1, true)?;
    builder.end_rule(heads)?;
    let query = builder.finish(Shape::Chain, Some(Class::Linear), Some(Class::Linear))?;
    Ok(query.terms)
}

#[test]
fn a_finished_store_goes_on(rt: HostRuntime) -> Result<(), Fail> {
    let alloc = rt.alloc();
    let arena = Arena::new(alloc);
    let mut store = finished(alloc, &arena)?;
    assert_eq!(rt; store.len(), 3);
    let again = store.put(Term::Seq(store.id(0), store.id(0)))?;
    assert_eq!(rt; store.len(), 3);
    let option = store.put(Term::Opt(again))?;
    assert_eq!(rt; (again.number(), option.number(), store.len()), (1, 3, 4));
    Ok(())
}
