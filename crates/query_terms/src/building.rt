//! How a query is built.

ghost use Rattle.std.specs.Prelude.{◌≡◌, ◌<◌, [], true, false, length, is_some, IfOk, OnOk};
ghost use Rattle.std.specs.List.{list_all};
ghost use Rattle.query_terms.specs.Values.{arity_built, differ, occurs, has_class, has_edge, have_heads};
ghost use Rattle.query_terms.specs.Lists.{heads_in, is_heads};
ghost use Rattle.query_terms.specs.Building.{symbols_most, begun, with_symbol, with_word, with_conjunct, with_rule};
ghost use Rattle.query_terms.specs.View.{query_value};

use crate::layout::Layout;
use crate::query::Query;
use crate::terms::Heads;
use crate::underway::Numbering;
use gm_text::Arena;
use sel_algebra::{Class, Shape, Symbol};
use std::alloc::{AllocError, Global};
use std::marker::Model;

/// A query that is being built: symbols make words, words conjuncts, conjuncts rules, and rules the query.
///
/// After a call that was refused it is only dropped.
#[derive(Drop)]
pub struct QueryBuilder<'a> {
    labels: &'a [u8],
    numbering: Numbering<'a>,
    layout: Layout<'a>,
    /// Whether a call was refused, or is under way.
    refused: bool,
}

impl<'a> Model for QueryBuilder<'a> {
    ghost use Rattle.std.specs.Prelude.{◌≡◌, false};
    ghost use Rattle.query_terms.specs.Building.{Building};
    ghost use Rattle.query_terms.specs.Tied.{building_of, IsBuilding};

    ghost Value = { Building };

    ghost view = { λ b. building_of b.labels.now b.layout b.refused };

    ghost invariant = { λ b. b.refused ≡ false → IsBuilding b.labels.now b.layout b.numbering };
}

impl<'a> QueryBuilder<'a> {
    /// A query to which nothing was given yet. `labels` has the label of each edge that a symbol may name.
    #[tactic(auto, using(crate::proofs::TiedLemmas::tied_new))]
    pub fn new(
        alloc: Global,
        arena: &'a Arena,
        labels: &[u8],
    ) -> Result<QueryBuilder<'a>, AllocError>
        ensures { IfOk result (λ builder. builder ≡ begun labels.now) }
    {
        Ok(QueryBuilder {
            labels: arena.try_alloc_slice_copy(labels)?,
            numbering: Numbering::new(alloc, arena),
            layout: Layout::new(alloc, arena),
            refused: false,
        })
    }

    /// The word that is begun has one symbol more.
    #[inline]
    #[tactic(auto, using(crate::proofs::TiedLemmas::tied_symbol))]
    pub fn symbol(&mut self, s: Symbol) -> Result<(), AllocError>
        requires usable { self.old.refused ≡ false }
        requires edge { has_edge (length self.old.labels) s ≡ true }
        requires few { self.old.taken < symbols_most }
        ensures { OnOk result (self.new ≡ with_symbol self.old s) }
    {
        self.refused = true;
        let labels = self.labels;
        self.numbering.step(labels[s.edge as usize], s.back)?;
        self.layout.symbol(s)?;
        self.refused = false;
        Ok(())
    }

    /// The symbols are those of a word of the conjunct.
    #[tactic(auto, using(crate::proofs::TiedLemmas::tied_word, crate::proofs::TiedLemmas::begun_word))]
    pub fn end_word(&mut self) -> Result<(), AllocError>
        requires usable { self.old.refused ≡ false }
        requires some { 0 < length self.old.word }
        ensures { OnOk result (self.new ≡ with_word self.old) }
    {
        self.refused = true;
        self.numbering.end_word()?;
        self.layout.end_word()?;
        self.refused = false;
        Ok(())
    }

    /// The words are those of a conjunct from variable `src` to variable `trg`, which may be repeated where it is
    /// starred.
    #[tactic(auto, using(crate::proofs::TiedLemmas::tied_conjunct, crate::proofs::TiedLemmas::begun_union, crate::proofs::TiedLemmas::ended_word))]
    pub fn end_conjunct(&mut self, src: u8, trg: u8, star: bool) -> Result<(), AllocError>
        requires usable { self.old.refused ≡ false }
        requires some { 0 < length self.old.words }
        requires word { self.old.word ≡ [] }
        ensures { OnOk result (self.new ≡ with_conjunct self.old src trg star) }
    {
        self.refused = true;
        let term = self.numbering.end_conjunct(star)?;
        self.layout.end_conjunct(src, trg, star, term)?;
        self.refused = false;
        Ok(())
    }

    /// The conjuncts are those of a rule with these heads, which differ and occur in it.
    #[tactic(auto, using(crate::proofs::TiedLemmas::tied_rule))]
    pub fn end_rule(&mut self, heads: Heads) -> Result<(), AllocError>
        requires usable { self.old.refused ≡ false }
        requires some { 0 < length self.old.conjuncts }
        requires words { self.old.words ≡ [] }
        requires word { self.old.word ≡ [] }
        requires heads { is_heads heads ≡ true }
        requires same { have_heads heads.count self.old.rules ≡ true }
        requires differ { differ (heads_in heads) ≡ true }
        requires occur { list_all (occurs self.old.conjuncts) (heads_in heads) ≡ true }
        ensures { OnOk result (self.new ≡ with_rule self.old (heads_in heads)) }
    {
        self.refused = true;
        self.layout.end_rule(heads)?;
        self.refused = false;
        Ok(())
    }

    /// The query of the rules. It has classes where it has two heads.
    pub fn finish(
        self,
        shape: Shape,
        class: Option<Class>,
        wide: Option<Class>,
    ) -> Result<Query<'a>, AllocError>
        requires usable { self.refused ≡ false }
        requires some { 0 < length self.rules }
        requires conjuncts { self.conjuncts ≡ [] }
        requires words { self.words ≡ [] }
        requires word { self.word ≡ [] }
        requires class { is_some class ≡ has_class self.rules }
        requires wide { is_some wide ≡ has_class self.rules }
        ensures { IfOk result (λ query. query_value query ≡ record { labels = self.entry.labels; shape = shape; class = class; wide = wide; rules = self.entry.rules }) }
    {
        let terms = self.numbering.into_terms()?;
        let lists = self.layout.into_lists()?;
        Ok(Query {
            shape,
            class,
            wide,
            labels: self.labels,
            symbols: lists.symbols,
            words: lists.words,
            conjuncts: lists.conjuncts,
            rules: lists.rules,
            terms,
        })
    }
}
