//! The words of a query that is being built, where equal words are kept once.

ghost use Rattle.std.specs.Prelude.{◌≡◌, ◌<◌, ◌≤◌, ◌+◌, ◌++◌, [], ◌∷◌, drop, length, IfOk, OnErr, OnOk};
ghost use Rattle.query_terms.specs.Building.{symbols_most};
ghost use Rattle.query_terms.specs.Lists.{words_in};
ghost use Rattle.query_terms.specs.Layout.{AreWords};

use crate::entries::find_or_put;
use gm_text::{Arena, Span};
use indexmap::IndexMap;
use sel_algebra::Symbol;
use std::alloc::{AllocError, Global};
use std::marker::Model;

/// Words, and the symbols of one that is begun.
#[derive(Drop)]
pub(crate) struct WordTable<'a> {
    alloc: Global,
    arena: &'a Arena,
    /// The symbols of the different words, and then those of the word that is begun.
    symbols: Vec<Symbol>,
    /// The place of each word among the symbols.
    spans: Vec<Span>,
    /// Each different word with its place.
    index: IndexMap<Vec<Symbol>, Span>,
    /// How many symbols are those of ended words.
    ended: u32,
    /// How many symbols there were.
    taken: u32,
}

impl<'a> Model for WordTable<'a> {
    ghost use Rattle.std.specs.Prelude.{map};
    ghost use Rattle.query_terms.specs.Layout.{WordsValue, words_value, AreKept};

    ghost Value = { WordsValue };

    ghost view = { λ t. words_value t.symbols.items t.spans.items t.ended t.taken };

    ghost invariant = { λ t. AreKept t.symbols.items t.spans.items (map (λ e. (e.0.items, e.1)) t.index.entries) t.ended t.taken };
}

impl<'a> WordTable<'a> {
    /// No word.
    pub(crate) fn new(alloc: Global, arena: &'a Arena) -> WordTable<'a>
        ensures { result ≡ record { ended = []; begun = []; taken = 0 } }
    {
        WordTable {
            alloc,
            arena,
            symbols: Vec::new(alloc),
            spans: Vec::new(alloc),
            index: IndexMap::new(alloc),
            ended: 0,
            taken: 0,
        }
    }

    /// The number of the ended words.
    pub(crate) fn count(&self) -> u32
        ensures count { result ≡ length self.now.ended }
        ensures few { result ≤ symbols_most }
    {
        self.spans.as_slice().len() as u32
    }

    /// The word has one symbol more.
    #[inline]
    pub(crate) fn push(&mut self, symbol: Symbol) -> Result<(), AllocError>
        requires few { self.old.taken < symbols_most }
        ensures refused { OnErr result (self.new ≡ self.old) }
        ensures goes_on { OnOk result (self.new ≡ record self.old { begun = self.old.begun ++ symbol ∷ []; taken = self.old.taken + 1 }) }
    {
        self.symbols.push(symbol)?;
        self.taken += 1;
        Ok(())
    }

    /// The word is ended. Where it is equal to an earlier one, it takes the place of that.
    pub(crate) fn end(&mut self) -> Result<(), AllocError>
        requires some { 0 < length self.old.begun }
        ensures refused { OnErr result (self.new ≡ self.old) }
        ensures goes_on { OnOk result (self.new ≡ record self.old { ended = self.old.ended ++ self.old.begun ∷ []; begun = [] }) }
    {
        let ended = self.ended as usize;
        let word = items_from(self.symbols.as_slice(), ended);
        let span = Span {
            first: self.ended,
            count: word.len() as u32,
        };
        let kept = copy_out(self.alloc, word)?;
        self.spans.reserve(1)?;
        if let Some(earlier) = find_or_put(&mut self.index, kept, span)? {
            self.spans.push(earlier)?;
            self.symbols.truncate(ended);
            return Ok(());
        }
        self.ended += span.count;
        match self.spans.push(span) {
            Ok(()) => Ok(()),
            Err(_) => unreachable!(),
        }
    }

    /// The symbols of the different words, and the place of each word, in the arena.
    pub(crate) fn into_lists(self) -> Result<(&'a [Symbol], &'a [Span]), AllocError>
        requires { self.begun ≡ [] }
        ensures kept { IfOk result (λ lists. AreWords lists.0.now lists.1.now) }
        ensures words { IfOk result (λ lists. words_in lists.0.now lists.1.now ≡ self.entry.ended) }
    {
        let symbols = copy_in(self.arena, self.symbols.as_slice())?;
        let spans = copy_in(self.arena, self.spans.as_slice())?;
        Ok((symbols, spans))
    }
}

/// The items from a place on.
fn items_from(items: &[Symbol], first: usize) -> &[Symbol]
    requires { first ≤ length items.now }
    ensures { result.now ≡ drop first items.now }
{
    &items[first..]
}

/// The same items, in the arena.
fn copy_in<'a, T: Copy>(arena: &'a Arena, items: &[T]) -> Result<&'a [T], AllocError>
    ensures { IfOk result (λ copy. copy.now ≡ items.now) }
{
    Ok(arena.try_alloc_slice_copy(items)?)
}

/// The same symbols, outside the arena.
fn copy_out(alloc: Global, symbols: &[Symbol]) -> Result<Vec<Symbol>, AllocError>
    ensures { IfOk result (λ copy. copy.items ≡ symbols.now) }
{
    symbols.to_vec(alloc)
}
