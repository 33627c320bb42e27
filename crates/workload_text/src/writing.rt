//! The lines of a head and of queries, written.

ghost use Rattle.std.specs.Prelude.{◌≡◌, ◌++◌, ◌∷◌, [], true, map, length, decimal, OnOk, OnErr};
ghost use Rattle.std.specs.List.{list_all, join_with_byte};
ghost use Rattle.graph_text.specs.EdgesText.{AppendsPart};
ghost use Rattle.query_terms.specs.Spans.{lies};
ghost use Rattle.query_terms.specs.Lists.{is_heads, words_in};
ghost use Rattle.query_terms.specs.View.{query_value};
ghost use Rattle.workload_text.specs.Lines.{head_lines, query_lines, label_lines, type_lines, edge_line, rule_lines, conjunct_line, lines_text, written, path_word, union_word, expr_word, symbol_word, format_word};
ghost use Rattle.workload_text.specs.Lines.WorkLine.{EndLine};
ghost use Rattle.workload_text.specs.Writing.{word_bytes, is_fit, gap, mark, rule_of, rules_lines, conjunct_of, conjuncts_lines};

use crate::fixed::{class_or_none, kind_word, op_word, shape_word};
use crate::head::WorkHead;
use gm_text::{Name, Span};
use itoa::Buffer;
use query_terms::{Conjunct, Query, Rule, part_of};
use schema_graph::Schema;
use sel_algebra::{Kind, Symbol};
use std::alloc::{AllocError, Global};

/// A word of a line.
#[derive(Clone, Copy)]
enum Word<'q> {
    /// A fixed word, or a name.
    Bytes(&'q [u8]),
    /// The decimal of a number.
    Number(u32),
    /// `x` and the decimal of a number.
    Variable(u8),
    /// Whether words are repeated, all symbols, and the parts of these that are the words.
    Union(bool, &'q [Symbol], &'q [Span]),
}

/// Appends the lines of a head: its format, its labels, its types and its edges.
///
/// # Errors
///
/// `AllocError` where memory runs out, and then a prefix of the text has been appended.
pub fn write_head(alloc: Global, out: &mut Vec<u8>, head: &WorkHead) -> Result<(), AllocError>
    ensures ok { OnOk result (out.new.items ≡ out.old.items ++ lines_text (head_lines head.now)) }
    ensures err { OnErr result (AppendsPart out.old.items out.new.items (lines_text (head_lines head.now))) }
{
    let format = format_word(head.format());
    write_line(
        alloc,
        out,
        &[Word::Bytes(b"gmark-workload"), Word::Bytes(format)],
    )?;
    write_labels(alloc, out, head.labels().as_slice())?;
    write_types(alloc, out, head.types().as_slice(), head.schema().kinds())?;
    write_edges(alloc, out, head.schema())
}

/// Appends the lines of a query with a number: what it asks for, and its rules.
///
/// # Errors
///
/// `AllocError` where memory runs out, and then a prefix of the text has been appended.
pub fn write_query(
    alloc: Global,
    out: &mut Vec<u8>,
    number: u32,
    query: &Query<'_>,
) -> Result<(), AllocError>
    ensures ok { OnOk result (out.new.items ≡ out.old.items ++ lines_text (query_lines number (query_value query.now))) }
    ensures err { OnErr result (AppendsPart out.old.items out.new.items (lines_text (query_lines number (query_value query.now)))) }
{
    let words = [
        Word::Bytes(b"query"),
        Word::Number(number),
        Word::Bytes(shape_word(query.shape)),
        Word::Bytes(class_or_none(query.class)),
        Word::Bytes(class_or_none(query.wide)),
    ];
    write_line(alloc, out, &words)?;
    write_rules(alloc, out, query, query.rules)
}

/// Appends the last line.
///
/// # Errors
///
/// `AllocError` where memory runs out, and then a prefix of the text has been appended.
pub fn write_end(alloc: Global, out: &mut Vec<u8>) -> Result<(), AllocError>
    ensures ok { OnOk result (out.new.items ≡ out.old.items ++ lines_text (EndLine ∷ [])) }
    ensures err { OnErr result (AppendsPart out.old.items out.new.items (lines_text (EndLine ∷ []))) }
{
    write_line(alloc, out, &[Word::Bytes(b"end")])
}

/// The word of a format.
fn format_word(format: u8) -> &'static [u8]
    ensures { result.now ≡ format_word format }
{
    if format == 2 { b"2" } else { b"1" }
}

/// Appends the lines of labels.
fn write_labels(alloc: Global, out: &mut Vec<u8>, names: &[Name]) -> Result<(), AllocError>
    ensures ok { OnOk result (out.new.items ≡ out.old.items ++ lines_text (label_lines names.now)) }
    ensures err { OnErr result (AppendsPart out.old.items out.new.items (lines_text (label_lines names.now))) }
{
    for name in names {
        write_line(
            alloc,
            out,
            &[Word::Bytes(b"label"), Word::Bytes(name.as_slice())],
        )?;
    }
    Ok(())
}

/// Appends the lines of types.
fn write_types(
    alloc: Global,
    out: &mut Vec<u8>,
    names: &[Name],
    kinds: &[Kind],
) -> Result<(), AllocError>
    requires { length kinds.now ≡ length names.now }
    ensures ok { OnOk result (out.new.items ≡ out.old.items ++ lines_text (type_lines names.now kinds.now)) }
    ensures err { OnErr result (AppendsPart out.old.items out.new.items (lines_text (type_lines names.now kinds.now))) }
{
    for t in 0..names.len() {
        let kind = kind_word(kinds[t]);
        write_line(
            alloc,
            out,
            &[
                Word::Bytes(b"type"),
                Word::Bytes(names[t].as_slice()),
                Word::Bytes(kind),
            ],
        )?;
    }
    Ok(())
}

/// Appends the lines of the edges.
fn write_edges(alloc: Global, out: &mut Vec<u8>, schema: &Schema) -> Result<(), AllocError>
    ensures ok { OnOk result (out.new.items ≡ out.old.items ++ lines_text (map edge_line schema.now.edges)) }
    ensures err { OnErr result (AppendsPart out.old.items out.new.items (lines_text (map edge_line schema.now.edges))) }
{
    for e in 0..schema.edge_count() {
        let edge = schema.edge(e);
        let words = [
            Word::Bytes(b"edge"),
            Word::Number(edge.source.into()),
            Word::Number(edge.label.into()),
            Word::Number(edge.target.into()),
            Word::Bytes(op_word(edge.op)),
        ];
        write_line(alloc, out, &words)?;
    }
    Ok(())
}

/// Appends the lines of rules of a query.
fn write_rules(
    alloc: Global,
    out: &mut Vec<u8>,
    query: &Query<'_>,
    rules: &[Rule],
) -> Result<(), AllocError>
    requires heads { list_all (λ r. is_heads r.heads) rules.now ≡ true }
    requires lies { list_all (λ r. lies (length query.now.conjuncts.now) r.conjuncts) rules.now ≡ true }
    ensures ok { OnOk result (out.new.items ≡ out.old.items ++ lines_text (rules_lines query.now rules.now)) }
    ensures err { OnErr result (AppendsPart out.old.items out.new.items (lines_text (rules_lines query.now rules.now))) }
{
    for rule in rules {
        write_rule(alloc, out, query, rule)?;
    }
    Ok(())
}

/// Appends the lines of a rule: its heads, and its conjuncts.
fn write_rule(
    alloc: Global,
    out: &mut Vec<u8>,
    query: &Query<'_>,
    rule: &Rule,
) -> Result<(), AllocError>
    requires heads { is_heads rule.now.heads ≡ true }
    requires lies { lies (length query.now.conjuncts.now) rule.now.conjuncts ≡ true }
    ensures ok { OnOk result (out.new.items ≡ out.old.items ++ lines_text (rule_lines (rule_of query.now rule.now))) }
    ensures err { OnErr result (AppendsPart out.old.items out.new.items (lines_text (rule_lines (rule_of query.now rule.now)))) }
{
    let vars = rule.heads.vars;
    let words = [
        Word::Bytes(b"rule"),
        Word::Variable(vars[0]),
        Word::Variable(vars[1]),
        Word::Variable(vars[2]),
        Word::Variable(vars[3]),
    ];
    write_line(alloc, out, &words[..rule.heads.count as usize + 1])?;
    write_conjuncts(alloc, out, query, part_of(query.conjuncts, rule.conjuncts))
}

/// Appends the lines of conjuncts.
fn write_conjuncts(
    alloc: Global,
    out: &mut Vec<u8>,
    query: &Query<'_>,
    conjuncts: &[Conjunct],
) -> Result<(), AllocError>
    requires { list_all (λ c. lies (length query.now.words.now) c.words) conjuncts.now ≡ true }
    ensures ok { OnOk result (out.new.items ≡ out.old.items ++ lines_text (conjuncts_lines query.now conjuncts.now)) }
    ensures err { OnErr result (AppendsPart out.old.items out.new.items (lines_text (conjuncts_lines query.now conjuncts.now))) }
{
    for conjunct in conjuncts {
        write_conjunct(alloc, out, query, conjunct)?;
    }
    Ok(())
}

/// Appends the line of a conjunct.
fn write_conjunct(
    alloc: Global,
    out: &mut Vec<u8>,
    query: &Query<'_>,
    conjunct: &Conjunct,
) -> Result<(), AllocError>
    requires { lies (length query.now.words.now) conjunct.now.words ≡ true }
    ensures ok { OnOk result (out.new.items ≡ out.old.items ++ lines_text (conjunct_line (conjunct_of query.now conjunct.now) ∷ [])) }
    ensures err { OnErr result (AppendsPart out.old.items out.new.items (lines_text (conjunct_line (conjunct_of query.now conjunct.now) ∷ []))) }
{
    let words = [
        Word::Variable(conjunct.src),
        Word::Union(
            conjunct.star,
            query.symbols,
            part_of(query.words, conjunct.words),
        ),
        Word::Variable(conjunct.trg),
    ];
    write_line(alloc, out, &words)
}

/// Appends a line of these words.
fn write_line(alloc: Global, out: &mut Vec<u8>, words: &[Word<'_>]) -> Result<(), AllocError>
    requires { list_all is_fit words.now ≡ true }
    ensures ok { OnOk result (out.new.items ≡ out.old.items ++ (join_with_byte 32 (map word_bytes words.now) ++ 10 ∷ [])) }
    ensures err { OnErr result (AppendsPart out.old.items out.new.items (join_with_byte 32 (map word_bytes words.now) ++ 10 ∷ [])) }
{
    for i in 0..words.len() {
        write_gap(out, b' ', i)?;
        write_word(alloc, out, &words[i])?;
    }
    out.push(b'\n')?;
    Ok(())
}

/// Appends a byte, but where the index is 0.
fn write_gap(out: &mut Vec<u8>, byte: u8, i: usize) -> Result<(), AllocError>
    ensures ok { OnOk result (out.new.items ≡ out.old.items ++ gap byte i) }
    ensures err { OnErr result (AppendsPart out.old.items out.new.items (gap byte i)) }
{
    if i > 0 {
        out.push(byte)?;
    }
    Ok(())
}

/// Appends a word.
fn write_word(alloc: Global, out: &mut Vec<u8>, word: &Word<'_>) -> Result<(), AllocError>
    requires { is_fit word.now ≡ true }
    ensures ok { OnOk result (out.new.items ≡ out.old.items ++ word_bytes word.now) }
    ensures err { OnErr result (AppendsPart out.old.items out.new.items (word_bytes word.now)) }
{
    match word {
        Word::Bytes(bytes) => write_bytes(out, bytes),
        Word::Number(n) => write_number(alloc, out, *n),
        Word::Variable(v) => write_variable(alloc, out, *v),
        Word::Union(star, symbols, words) => write_expr(alloc, out, *star, symbols, words),
    }
}

/// Appends bytes.
fn write_bytes(out: &mut Vec<u8>, bytes: &[u8]) -> Result<(), AllocError>
    ensures ok { OnOk result (out.new.items ≡ out.old.items ++ bytes.now) }
    ensures err { OnErr result (AppendsPart out.old.items out.new.items bytes.now) }
{
    out.extend_from_slice(bytes)
}

/// Appends the decimal of a number.
#[inline(always)]
fn write_number(_alloc: Global, out: &mut Vec<u8>, n: u32) -> Result<(), AllocError>
    ensures ok { OnOk result (out.new.items ≡ out.old.items ++ decimal n) }
    ensures err { OnErr result (AppendsPart out.old.items out.new.items (decimal n)) }
{
    out.extend_from_slice(Buffer::new().format(n).as_bytes())
}

/// Appends a variable.
fn write_variable(alloc: Global, out: &mut Vec<u8>, v: u8) -> Result<(), AllocError>
    ensures ok { OnOk result (out.new.items ≡ out.old.items ++ (120 ∷ decimal v)) }
    ensures err { OnErr result (AppendsPart out.old.items out.new.items (120 ∷ decimal v)) }
{
    write_bytes(out, b"x")?;
    write_number(alloc, out, v.into())
}

/// Appends words, within `(` and `)*` where they are repeated.
fn write_expr(
    alloc: Global,
    out: &mut Vec<u8>,
    star: bool,
    symbols: &[Symbol],
    words: &[Span],
) -> Result<(), AllocError>
    requires { list_all (lies (length symbols.now)) words.now ≡ true }
    ensures ok { OnOk result (out.new.items ≡ out.old.items ++ expr_word star (map (map written) (words_in symbols.now words.now))) }
    ensures err { OnErr result (AppendsPart out.old.items out.new.items (expr_word star (map (map written) (words_in symbols.now words.now)))) }
{
    if !star {
        return write_union(alloc, out, symbols, words);
    }
    write_bytes(out, b"(")?;
    write_union(alloc, out, symbols, words)?;
    write_bytes(out, b")*")
}

/// Appends words, joined by `+`.
fn write_union(
    alloc: Global,
    out: &mut Vec<u8>,
    symbols: &[Symbol],
    words: &[Span],
) -> Result<(), AllocError>
    requires { list_all (lies (length symbols.now)) words.now ≡ true }
    ensures ok { OnOk result (out.new.items ≡ out.old.items ++ union_word (map (map written) (words_in symbols.now words.now))) }
    ensures err { OnErr result (AppendsPart out.old.items out.new.items (union_word (map (map written) (words_in symbols.now words.now)))) }
{
    for i in 0..words.len() {
        write_gap(out, b'+', i)?;
        write_path(alloc, out, part_of(symbols, words[i]))?;
    }
    Ok(())
}

/// Appends a word: its symbols, joined by `.`.
fn write_path(alloc: Global, out: &mut Vec<u8>, symbols: &[Symbol]) -> Result<(), AllocError>
    ensures ok { OnOk result (out.new.items ≡ out.old.items ++ path_word (map written symbols.now)) }
    ensures err { OnErr result (AppendsPart out.old.items out.new.items (path_word (map written symbols.now))) }
{
    for i in 0..symbols.len() {
        write_gap(out, b'.', i)?;
        write_symbol(alloc, out, symbols[i])?;
    }
    Ok(())
}

/// Appends a symbol: the number of its edge, after `^` where it is against the edge.
fn write_symbol(alloc: Global, out: &mut Vec<u8>, symbol: Symbol) -> Result<(), AllocError>
    ensures ok { OnOk result (out.new.items ≡ out.old.items ++ symbol_word (written symbol)) }
    ensures err { OnErr result (AppendsPart out.old.items out.new.items (symbol_word (written symbol))) }
{
    write_mark(out, symbol.back)?;
    write_number(alloc, out, symbol.edge.into())
}

/// Appends `^` where a symbol is against its edge.
fn write_mark(out: &mut Vec<u8>, back: bool) -> Result<(), AllocError>
    ensures ok { OnOk result (out.new.items ≡ out.old.items ++ mark back) }
    ensures err { OnErr result (AppendsPart out.old.items out.new.items (mark back)) }
{
    if back {
        out.push(b'^')?;
    }
    Ok(())
}
