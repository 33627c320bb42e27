//! Queries without their terms.

ghost use Rattle.std.specs.Prelude.{◌≡◌, true, length, fold, IfOk, OnOk};
ghost use Rattle.std.specs.List.{list_all};
ghost use Rattle.query_terms.specs.Values.{has_edge, is_conjunct, is_word};
ghost use Rattle.query_terms.specs.Lists.{conjuncts_in, words_in};
ghost use Rattle.query_terms.specs.Spans.{lies};
ghost use Rattle.query_terms.specs.Outline.{after_symbol, after_word, after_conjuncts};
ghost use Rattle.query_terms.specs.View.{query_value};

use crate::query::Query;
use crate::spans::part_of;
use crate::store::TermStore;
use crate::terms::{Conjunct, Rule};
use crate::underway::Numbering;
use gm_text::{Arena, Span};
use sel_algebra::{Class, Shape, Symbol};
use std::alloc::{AllocError, Global};
use std::marker::Model;

/// A query without its terms: what is kept of it while they aren't needed.
#[derive(Drop)]
pub struct Outline<'a> {
    shape: Shape,
    class: Option<Class>,
    wide: Option<Class>,
    labels: &'a [u8],
    symbols: &'a [Symbol],
    words: &'a [Span],
    conjuncts: &'a [Conjunct],
    rules: &'a [Rule],
}

impl<'a> Model for Outline<'a> {
    ghost use Rattle.query_terms.specs.Values.{QueryValue};
    ghost use Rattle.query_terms.specs.Lists.{rules_in};
    ghost use Rattle.query_terms.specs.Outline.{IsOutline};

    ghost Value = { QueryValue };

    ghost view = { λ o. record { labels = o.labels.now; shape = o.shape; class = o.class; wide = o.wide; rules = rules_in o.symbols.now o.words.now o.conjuncts.now o.rules.now } };

    ghost invariant = { λ o. IsOutline o.labels.now o.symbols.now o.words.now o.conjuncts.now o.rules.now o.class o.wide };
}

impl<'a> Outline<'a> {
    /// The outline of a query, copied to an arena.
    pub fn of(query: &Query<'_>, arena: &'a Arena) -> Result<Outline<'a>, AllocError>
        ensures { IfOk result (λ outline. outline ≡ query_value query.now) }
    {
        Ok(Outline {
            shape: query.shape,
            class: query.class,
            wide: query.wide,
            labels: arena.try_alloc_slice_copy(query.labels)?,
            symbols: arena.try_alloc_slice_copy(query.symbols)?,
            words: arena.try_alloc_slice_copy(query.words)?,
            conjuncts: arena.try_alloc_slice_copy(query.conjuncts)?,
            rules: arena.try_alloc_slice_copy(query.rules)?,
        })
    }

    /// How the number of its rows grows, as it was asked for: where it has two heads.
    pub fn class(&self) -> Option<Class>
        ensures { result ≡ self.now.class }
    {
        self.class
    }

    /// The query, with its terms in an arena.
    pub fn query(&self, alloc: Global, arena: &'a Arena) -> Result<Query<'a>, AllocError>
        ensures { IfOk result (λ query. query_value query ≡ self.now) }
    {
        let terms = number_terms(
            alloc,
            arena,
            self.labels,
            self.symbols,
            self.words,
            self.conjuncts,
        )?;
        Ok(Query {
            shape: self.shape,
            class: self.class,
            wide: self.wide,
            labels: self.labels,
            symbols: self.symbols,
            words: self.words,
            conjuncts: self.conjuncts,
            rules: self.rules,
            terms,
        })
    }
}

/// The terms of conjuncts.
fn number_terms<'a>(
    alloc: Global,
    arena: &'a Arena,
    labels: &[u8],
    symbols: &[Symbol],
    words: &[Span],
    conjuncts: &[Conjunct],
) -> Result<TermStore<'a>, AllocError>
    requires lie { list_all (lies (length symbols.now)) words.now ≡ true }
    requires share { list_all (λ c. lies (length words.now) c.words) conjuncts.now ≡ true }
    requires conjuncts { list_all (is_conjunct (length labels.now)) (conjuncts_in symbols.now words.now conjuncts.now) ≡ true }
    ensures { IfOk result (λ terms. terms ≡ (after_conjuncts labels.now (conjuncts_in symbols.now words.now conjuncts.now)).terms) }
{
    let mut numbering = Numbering::new(alloc, arena);
    for conjunct in conjuncts {
        let part = part_of(words, conjunct.words);
        number_words(&mut numbering, labels, symbols, part)?;
        numbering.end_conjunct(conjunct.star)?;
    }
    Ok(numbering.into_index())
}

/// Numbers the terms of a conjunct's words.
fn number_words(
    numbering: &mut Numbering<'_>,
    labels: &[u8],
    symbols: &[Symbol],
    words: &[Span],
) -> Result<(), AllocError>
    requires lie { list_all (lies (length symbols.now)) words.now ≡ true }
    requires words { list_all (is_word (length labels.now)) (words_in symbols.now words.now) ≡ true }
    ensures { OnOk result (numbering.new ≡ fold (after_word labels.now) numbering.old (words_in symbols.now words.now)) }
{
    for word in words {
        number_steps(numbering, labels, part_of(symbols, *word))?;
        numbering.end_word()?;
    }
    Ok(())
}

/// Numbers the steps of a word, and their sequences.
fn number_steps(
    numbering: &mut Numbering<'_>,
    labels: &[u8],
    word: &[Symbol],
) -> Result<(), AllocError>
    requires { list_all (has_edge (length labels.now)) word.now ≡ true }
    ensures { OnOk result (numbering.new ≡ fold (after_symbol labels.now) numbering.old word.now) }
{
    for symbol in word {
        numbering.step(labels[symbol.edge as usize], symbol.back)?;
    }
    Ok(())
}
