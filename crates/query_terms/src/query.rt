//! Queries.

ghost use Rattle.std.specs.Prelude.{◌≡◌, true, map, length, nat_lt, is_some};
ghost use Rattle.std.specs.List.{list_all};
ghost use Rattle.query_terms.specs.Values.{arity_of, are_rules, has_class};
ghost use Rattle.query_terms.specs.Spans.{covers, distinct, joined, lies, span_in};
ghost use Rattle.query_terms.specs.Lists.{is_heads, rules_in, words_in};
ghost use Rattle.query_terms.specs.Numbering.{numbering};

use crate::store::TermStore;
use crate::terms::{Conjunct, Rule};
use gm_text::Span;
use sel_algebra::{Class, Shape, Symbol};

/// What is asked of a graph: rules, of which one has to hold, with the terms of their words.
#[derive(Drop)]
pub struct Query<'a> {
    /// How the conjuncts of each rule hang together.
    pub shape: Shape,
    /// How the number of its rows grows, as it was asked for: where it has two heads.
    pub class: Option<Class>,
    /// How its number of rows may grow at most: where it has two heads.
    pub wide: Option<Class>,
    /// The label of each edge that a symbol may name.
    pub labels: &'a [u8],
    /// The different words, one after the other, in the order of their first occurrence.
    pub symbols: &'a [Symbol],
    /// For each word the part of the symbols that it is.
    pub words: &'a [Span],
    /// The conjuncts of all rules.
    pub conjuncts: &'a [Conjunct],
    /// The rules.
    pub rules: &'a [Rule],
    /// The terms of the words.
    pub terms: TermStore<'a>,
    // A word is the part of the symbols that its first occurrence is, and the different words fill them.
    pub ghost symbols_are: { symbols.now ≡ joined (distinct (words_in symbols.now words.now)) },
    pub ghost words_are: { words.now ≡ map (span_in (distinct (words_in symbols.now words.now))) (words_in symbols.now words.now) },
    pub ghost words_lie: { list_all (lies (length symbols.now)) words.now ≡ true },
    // The conjuncts share out the words, and the rules share out the conjuncts.
    pub ghost conjuncts_cover: { covers 0 (map (λ c. c.words) conjuncts.now) (length words.now) ≡ true },
    pub ghost rules_cover: { covers 0 (map (λ r. r.conjuncts) rules.now) (length conjuncts.now) ≡ true },
    pub ghost conjuncts_lie: { list_all (lies (length words.now)) (map (λ c. c.words) conjuncts.now) ≡ true },
    pub ghost rules_lie: { list_all (lies (length conjuncts.now)) (map (λ r. r.conjuncts) rules.now) ≡ true },
    // The heads of each rule are followed by 0, and its value keeps the rules of queries.
    pub ghost heads_are: { list_all (λ r. is_heads r.heads) rules.now ≡ true },
    pub ghost rules_are: { are_rules (length labels.now) (rules_in symbols.now words.now conjuncts.now rules.now) ≡ true },
    pub ghost class_is: { is_some class ≡ has_class (rules_in symbols.now words.now conjuncts.now rules.now) },
    pub ghost wide_is: { is_some wide ≡ has_class (rules_in symbols.now words.now conjuncts.now rules.now) },
    // The terms are those of the rules, and each conjunct has its own.
    pub ghost terms_are: { terms ≡ (numbering labels.now (rules_in symbols.now words.now conjuncts.now rules.now)).terms },
    pub ghost numbers_are: { map (λ c. c.term) conjuncts.now ≡ (numbering labels.now (rules_in symbols.now words.now conjuncts.now rules.now)).numbers },
    pub ghost terms_lie: { list_all (λ n. nat_lt n (length terms)) (map (λ c. c.term) conjuncts.now) ≡ true },
}

impl<'a> Query<'a> {
    /// The number of heads of its rules.
    pub fn arity(&self) -> u8
        ensures { result ≡ arity_of (rules_in self.now.symbols.now self.now.words.now self.now.conjuncts.now self.now.rules.now) }
    {
        self.rules[0].heads.count
    }
}
