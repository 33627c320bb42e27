//! The lists of a query that is being built.

ghost use Rattle.std.specs.Prelude.{◌≡◌, ◌<◌, ◌+◌, ◌++◌, [], ◌∷◌, true, length, map, IfOk, OnOk};
ghost use Rattle.query_terms.specs.Building.{symbols_most};
ghost use Rattle.query_terms.specs.Lists.{heads_in, is_heads};
ghost use Rattle.query_terms.specs.Layout.{AreLists, with_conjunct, with_rule};

use crate::terms::{Conjunct, Heads, Rule, TermId};
use crate::words::WordTable;
use bumpalo::collections::into_bump_slice;
use gm_text::{Arena, Span};
use sel_algebra::Symbol;
use std::alloc::{AllocError, Global};
use std::marker::Model;

/// Words, conjuncts and rules, with what is begun of each.
#[derive(Drop)]
pub(crate) struct Layout<'a> {
    words: WordTable<'a>,
    conjuncts: Vec<Conjunct, &'a Arena>,
    rules: Vec<Rule, &'a Arena>,
    /// The place of the first word of the conjunct that is begun.
    first_word: u32,
    /// The place of the first conjunct of the rule that is begun.
    first_conjunct: u32,
}

impl<'a> Model for Layout<'a> {
    ghost use Rattle.query_terms.specs.Layout.{LayoutValue, layout_value, IsLaid};

    ghost Value = { LayoutValue };

    ghost view = { λ l. layout_value l.words l.conjuncts.items l.rules.items l.first_word l.first_conjunct };

    ghost invariant = { λ l. IsLaid l.words l.conjuncts.items l.rules.items l.first_word l.first_conjunct };
}

impl<'a> Layout<'a> {
    /// No rule.
    pub(crate) fn new(alloc: Global, arena: &'a Arena) -> Layout<'a>
        ensures { result ≡ record { rules = []; conjuncts = []; words = []; word = []; numbers = []; taken = 0 } }
    {
        Layout {
            words: WordTable::new(alloc, arena),
            conjuncts: Vec::new(arena),
            rules: Vec::new(arena),
            first_word: 0,
            first_conjunct: 0,
        }
    }

    /// The word has one symbol more.
    #[inline]
    pub(crate) fn symbol(&mut self, symbol: Symbol) -> Result<(), AllocError>
        requires few { self.old.taken < symbols_most }
        ensures { OnOk result (self.new ≡ record self.old { word = self.old.word ++ symbol ∷ []; taken = self.old.taken + 1 }) }
    {
        self.words.push(symbol)?;
        Ok(())
    }

    /// The word is one of the conjunct's.
    #[inline]
    pub(crate) fn end_word(&mut self) -> Result<(), AllocError>
        requires some { 0 < length self.old.word }
        ensures { OnOk result (self.new ≡ record self.old { words = self.old.words ++ self.old.word ∷ []; word = [] }) }
    {
        self.words.end()?;
        Ok(())
    }

    /// The words are those of a conjunct, which has this term.
    pub(crate) fn end_conjunct(
        &mut self,
        src: u8,
        trg: u8,
        star: bool,
        term: TermId,
    ) -> Result<(), AllocError>
        requires some { 0 < length self.old.words }
        ensures { OnOk result (self.new ≡ with_conjunct self.old (record { src = src; trg = trg; star = star; words = self.old.words }) term) }
    {
        let count = self.words.count();
        let words = Span {
            first: self.first_word,
            count: count - self.first_word,
        };
        self.conjuncts.push(Conjunct {
            src,
            trg,
            star,
            words,
            term,
        })?;
        self.first_word = count;
        Ok(())
    }

    /// The conjuncts are those of a rule with these heads.
    pub(crate) fn end_rule(&mut self, heads: Heads) -> Result<(), AllocError>
        requires heads { is_heads heads ≡ true }
        ensures { OnOk result (self.new ≡ with_rule self.old (record { heads = heads_in heads; conjuncts = self.old.conjuncts })) }
    {
        let count = self.conjuncts.as_slice().len() as u32;
        let conjuncts = Span {
            first: self.first_conjunct,
            count: count - self.first_conjunct,
        };
        self.rules.push(Rule { heads, conjuncts })?;
        self.first_conjunct = count;
        Ok(())
    }

    /// The lists, in the arena.
    pub(crate) fn into_lists(self) -> Result<Lists<'a>, AllocError>
        requires conjuncts { self.conjuncts ≡ [] }
        requires words { self.words ≡ [] }
        requires word { self.word ≡ [] }
        ensures { IfOk result (λ lists. AreLists self.entry lists.symbols.now lists.words.now lists.conjuncts.now lists.rules.now) }
    {
        let (symbols, words) = self.words.into_lists()?;
        Ok(Lists {
            symbols,
            words,
            conjuncts: into_bump_slice(self.conjuncts),
            rules: into_bump_slice(self.rules),
        })
    }
}

/// The lists of a query.
#[derive(Drop)]
pub(crate) struct Lists<'a> {
    /// The different words, one after the other.
    pub(crate) symbols: &'a [Symbol],
    /// The place of each word.
    pub(crate) words: &'a [Span],
    /// The conjuncts.
    pub(crate) conjuncts: &'a [Conjunct],
    /// The rules.
    pub(crate) rules: &'a [Rule],
}
