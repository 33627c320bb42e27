//! The text of a conjunct's words.

ghost use Rattle.std.specs.Prelude.{◌≡◌, ◌++◌, true, length, codes, OnOk};
ghost use Rattle.std.specs.List.{All, list_all, join_by};
ghost use Rattle.query_terms.specs.Spans.{cut};
ghost use Rattle.query_terms.specs.Laws.{tree_of_conjunct};
ghost use Rattle.sparql_emit.specs.PathText.{path_text_of};
ghost use Rattle.sparql_emit.specs.Laws.{has_names};
ghost use Rattle.sparql_emit.specs.Words.{conjunct_of, symbol_text, word_text, symbol_has_name, word_has_names, SymbolFits, WordFits, ConjunctFits};

use crate::paths::write_step;
use gm_text::{Names, Span};
use query_terms::{Conjunct, Query, part_of};
use sel_algebra::Symbol;
use std::alloc::AllocError;

/// Appends the path of a conjunct of a query: its words, in `(` and `)*` where they may be repeated.
pub(crate) fn write_path(
    out: &mut Vec<u8>,
    query: &Query<'_>,
    conjunct: &Conjunct,
    names: &Names,
) -> Result<(), AllocError>
    requires { ConjunctFits query.now (length names.now) conjunct.now }
    ensures text { OnOk result (out.new.items ≡ out.old.items ++ path_text_of names.now (tree_of_conjunct query.now.labels.now (conjunct_of query.now conjunct.now))) }
    ensures names { OnOk result (has_names names.now (tree_of_conjunct query.now.labels.now (conjunct_of query.now conjunct.now)) ≡ true) }
{
    let words = part_of(query.words, conjunct.words);
    if !conjunct.star {
        return write_union(out, query, words, names);
    }
    out.push(b'(')?;
    write_union(out, query, words, names)?;
    out.extend_from_slice(b")*")?;
    Ok(())
}

/// Appends words of a query, with `|` between two.
fn write_union(
    out: &mut Vec<u8>,
    query: &Query<'_>,
    words: &[Span],
    names: &Names,
) -> Result<(), AllocError>
    requires { All (WordFits query.now (length names.now)) words.now }
    ensures text { OnOk result (out.new.items ≡ out.old.items ++ join_by (λ word. word_text names.now query.now.labels.now (cut query.now.symbols.now word)) (codes "|") words.now) }
    ensures names { OnOk result (list_all (λ word. word_has_names names.now query.now.labels.now (cut query.now.symbols.now word)) words.now ≡ true) }
{
    let [first, others @ ..] = words else {
        return Ok(());
    };
    write_word(out, part_of(query.symbols, *first), query.labels, names)?;
    for word in others {
        out.push(b'|')?;
        write_word(out, part_of(query.symbols, *word), query.labels, names)?;
    }
    Ok(())
}

/// Appends a word, with `/` between two of its symbols.
fn write_word(
    out: &mut Vec<u8>,
    word: &[Symbol],
    labels: &[u8],
    names: &Names,
) -> Result<(), AllocError>
    requires { All (SymbolFits labels.now (length names.now)) word.now }
    ensures text { OnOk result (out.new.items ≡ out.old.items ++ word_text names.now labels.now word.now) }
    ensures names { OnOk result (word_has_names names.now labels.now word.now ≡ true) }
{
    let [first, others @ ..] = word else {
        return Ok(());
    };
    write_symbol(out, *first, labels, names)?;
    for symbol in others {
        out.push(b'/')?;
        write_symbol(out, *symbol, labels, names)?;
    }
    Ok(())
}

/// Appends the step of a symbol.
#[inline(always)]
fn write_symbol(
    out: &mut Vec<u8>,
    symbol: Symbol,
    labels: &[u8],
    names: &Names,
) -> Result<(), AllocError>
    requires { SymbolFits labels.now (length names.now) symbol }
    ensures text { OnOk result (out.new.items ≡ out.old.items ++ symbol_text names.now labels.now symbol) }
    ensures name { OnOk result (symbol_has_name names.now labels.now symbol ≡ true) }
{
    write_step(out, labels[symbol.edge as usize], symbol.back, names)
}
