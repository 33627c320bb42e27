//! The words of a conjunct, read and put into a query.

ghost use Rattle.std.specs.Prelude.{◌≡◌, ◌+◌, ◌<◌, ◌≤◌, ◌++◌, [], ◌∷◌, ℕ, List, true, false, nat_lt, length, map, is_some, MatchOption, IfOk, IfSome};
ghost use Rattle.std.specs.List.{list_all};
ghost use Rattle.sel_algebra.specs.declared.vocabulary.Symbol.{Symbol};
ghost use Rattle.schema_graph.specs.Edge.{start_of, end_of};
ghost use Rattle.schema_graph.specs.declared.edge.SchemaEdge.{SchemaEdge};
ghost use Rattle.query_terms.specs.Values.{has_edge};
ghost use Rattle.workload_text.specs.Values.{word_start, word_end, is_chain, is_short_word, is_short_union};
ghost use Rattle.workload_text.specs.Forms.{is_against, is_symbol_word, is_path_word, is_union_word, read_symbol};
ghost use Rattle.workload_text.specs.Sofar.{symbol_of};
ghost use Rattle.workload_text.specs.Union.{word_of, union_of, put_word, IsEnds, IsFacts, agree, first_with};

use crate::numbers::number_below;
use crate::parts::{Parts, is_against, number_word};
use query_terms::QueryBuilder;
use schema_graph::SchemaEdge;
use sel_algebra::Symbol;
use std::alloc::AllocError;

/// The most symbols of a word.
const SYMBOLS_MOST: u8 = 32;

/// The most words of a conjunct.
const WORDS_MOST: u8 = 8;

/// What was seen of a word.
#[derive(Clone, Copy)]
pub(crate) struct Ends {
    /// Each symbol starts at the type where the one before it ends.
    pub(crate) chain: bool,
    /// The type at which the word starts.
    pub(crate) start: u8,
    /// The type at which it ends.
    pub(crate) finish: u8,
}

/// What was seen of words.
#[derive(Clone, Copy)]
pub(crate) struct Facts {
    /// How many there are.
    pub(crate) count: u8,
    /// Where the first one starts and ends.
    pub(crate) first: Option<(u8, u8)>,
    /// In each word each symbol starts at the type where the one before it ends.
    pub(crate) chains: bool,
    /// All start at one type and end at one type.
    pub(crate) same: bool,
    /// Each ends where it starts.
    pub(crate) back: bool,
}

impl Facts {
    /// Of no word.
    fn new() -> Facts
        ensures { (edges : List SchemaEdge) → IsFacts edges [] result }
    {
        Facts {
            count: 0,
            first: None,
            chains: true,
            same: true,
            back: true,
        }
    }

    /// Of one word more.
    fn with(self, ends: Ends) -> Facts
        requires { self.count < 255 }
        ensures { (edges : List SchemaEdge) (words : List (List Symbol)) (word : List Symbol)
            → IsFacts edges words self → IsEnds edges word ends → IsFacts edges (words ++ word ∷ []) result }
    {
        Facts {
            count: self.count + 1,
            first: first_of(self.first, ends),
            chains: self.chains && ends.chain,
            same: self.same && agree(self.first, ends.start, ends.finish),
            back: self.back && ends.finish == ends.start,
        }
    }
}

/// The ends of the first word, which is this one where there was none.
fn first_of(first: Option<(u8, u8)>, ends: Ends) -> Option<(u8, u8)>
    ensures { result ≡ first_with first ends.start ends.finish }
{
    match first {
        Some(first) => Some(first),
        None => Some((ends.start, ends.finish)),
    }
}

/// Whether the ends are those of the first word, if there is one.
fn agree(first: Option<(u8, u8)>, start: u8, finish: u8) -> bool
    ensures { result ≡ agree first start finish }
{
    match first {
        Some(first) => start == first.0 && finish == first.1,
        None => true,
    }
}

/// The type at which a symbol starts.
fn start_of(edges: &[SchemaEdge], symbol: Symbol) -> u8
    requires { has_edge (length edges.now) symbol ≡ true }
    ensures { result ≡ start_of edges.now symbol }
{
    let edge = edges[symbol.edge as usize];
    if symbol.back {
        edge.target
    } else {
        edge.source
    }
}

/// The type at which a symbol ends.
fn end_of(edges: &[SchemaEdge], symbol: Symbol) -> u8
    requires { has_edge (length edges.now) symbol ≡ true }
    ensures { result ≡ end_of edges.now symbol }
{
    let edge = edges[symbol.edge as usize];
    if symbol.back {
        edge.source
    } else {
        edge.target
    }
}

/// The symbol of a word, where it is that of an edge.
fn read_symbol(word: &[u8], edges: u8) -> Option<Symbol>
    requires { is_symbol_word word.now ≡ true }
    ensures { MatchOption result
        (has_edge edges (symbol_of (read_symbol word.now)) ≡ false)
        (λ s. (symbol_of (read_symbol word.now) ≡ s) × (has_edge edges s ≡ true)) }
{
    let Some(edge) = number_below(number_word(word), edges) else {
        return None;
    };
    Some(Symbol {
        edge,
        back: is_against(word),
    })
}

/// The type at which a word starts, where its first symbol is that of an edge.
fn read_start(edges: &[SchemaEdge], word: &[u8]) -> Option<u8>
    requires word { is_path_word word.now ≡ true }
    requires few { length edges.now ≤ 128 }
    ensures { MatchOption result
        (is_short_word (length edges.now) (word_of word.now) ≡ false)
        (λ start. word_start edges.now (word_of word.now) ≡ start) }
{
    let Some(part) = Parts::new(word, b'.').next_part() else {
        return Some(0);
    };
    let Some(symbol) = read_symbol(part, edges.len() as u8) else {
        return None;
    };
    Some(start_of(edges, symbol))
}

/// Puts a word, if it is short and its symbols are those of edges.
fn put_word(
    builder: &mut QueryBuilder<'_>,
    edges: &[SchemaEdge],
    word: &[u8],
) -> Result<Option<Ends>, AllocError>
    requires usable { builder.old.refused ≡ false }
    requires begun { builder.old.word ≡ [] }
    requires labels { length builder.old.labels ≡ length edges.now }
    requires few { length edges.now ≤ 128 }
    requires room { builder.old.taken + 32 ≤ 1048576 }
    requires word { is_path_word word.now ≡ true }
    ensures short { IfOk result (λ ends. is_some ends ≡ is_short_word (length edges.now) (word_of word.now)) }
    ensures ends { IfOk result (λ ends. IfSome ends (IsEnds edges.now (word_of word.now))) }
    ensures put { IfOk result (λ ends. IfSome ends (λ e. builder.new ≡ put_word builder.old (word_of word.now))) }
{
    let Some(start) = read_start(edges, word) else {
        return Ok(None);
    };
    let mut at = start;
    let mut chain = true;
    let mut count = 0u8;
    let mut parts = Parts::new(word, b'.');
    while let Some(part) = parts.next_part() {
        if count >= SYMBOLS_MOST {
            return Ok(None);
        }
        let Some(symbol) = read_symbol(part, edges.len() as u8) else {
            return Ok(None);
        };
        chain = chain && start_of(edges, symbol) == at;
        at = end_of(edges, symbol);
        builder.symbol(symbol)?;
        count += 1;
    }
    builder.end_word()?;
    Ok(Some(Ends {
        chain,
        start,
        finish: at,
    }))
}

/// Puts the words of a conjunct, if they are few and short and their symbols are those of edges.
pub(crate) fn put_union(
    builder: &mut QueryBuilder<'_>,
    edges: &[SchemaEdge],
    words: &[u8],
) -> Result<Option<Facts>, AllocError>
    requires usable { builder.old.refused ≡ false }
    requires begun { builder.old.word ≡ [] }
    requires fresh { builder.old.words ≡ [] }
    requires labels { length builder.old.labels ≡ length edges.now }
    requires few { length edges.now ≤ 128 }
    requires room { builder.old.taken + 256 ≤ 1048576 }
    requires words { is_union_word words.now ≡ true }
    ensures short { IfOk result (λ facts. is_some facts ≡ is_short_union (length edges.now) (union_of words.now)) }
    ensures facts { IfOk result (λ facts. IfSome facts (IsFacts edges.now (union_of words.now))) }
    ensures put { IfOk result (λ facts. IfSome facts (λ f. builder.new ≡ record builder.old { words = union_of words.now; taken = builder.new.taken })) }
    ensures some { IfOk result (λ facts. IfSome facts (λ f. 0 < length (union_of words.now))) }
    ensures taken { IfOk result (λ facts. IfSome facts (λ f. builder.new.taken ≤ builder.old.taken + 256)) }
{
    let mut facts = Facts::new();
    let mut parts = Parts::new(words, b'+');
    while let Some(part) = parts.next_part() {
        if facts.count >= WORDS_MOST {
            return Ok(None);
        }
        let Some(ends) = put_word(builder, edges, part)? else {
            return Ok(None);
        };
        facts = facts.with(ends);
    }
    Ok(Some(facts))
}
