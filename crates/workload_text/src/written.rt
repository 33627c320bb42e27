//! What the lines of a workload text say, read from their bytes.

ghost use Rattle.std.specs.Prelude.{◌≡◌, ◌<◌, ◌==◌, ◌&&◌, [], true, option_map, length, IfSome};
ghost use Rattle.std.specs.List.{list_all};
ghost use Rattle.gm_text.specs.Lines.{words_of};
ghost use Rattle.gm_text.specs.Decimal.{is_canonical};
ghost use Rattle.workload_text.specs.Lines.{has_classes_of, has_heads_of};
ghost use Rattle.workload_text.specs.Forms.{asked_of_words, are_numbers, are_conjunct_words, is_variable, rest_of, line_of_sort, first_word};
ghost use Rattle.workload_text.specs.View.{asked_view, line_view, IsOfSort};

use crate::fixed::{class_of_word, format_of_word, kind_of_word, op_of_word, shape_of_word};
use crate::parts::{
    are_variables, four_words, is_starred_word, is_union_word, is_variable, one_word,
    two_after_first, two_words, within_star,
};
use crate::sorts::{Sort, first_word};
use gm_text::{Words, is_canonical, is_name};
use sel_algebra::{Class, Kind, Op, Shape};

/// What a query asks for.
#[derive(Clone, Copy, Debug, PartialEq, Eq)]
pub(crate) struct Asked {
    pub(crate) shape: Shape,
    pub(crate) class: Option<Class>,
    pub(crate) wide: Option<Class>,
}

/// What a line says. Numbers are canonical decimals of any size.
#[derive(Drop)]
pub(crate) enum Written<'t> {
    /// The format.
    First(u8),
    /// The name of a label.
    Label(&'t [u8]),
    /// The name of a type, and its kind.
    NodeType(&'t [u8], Kind),
    /// The numbers of a type, a label and a type, and an operator.
    Edge(&'t [u8], &'t [u8], &'t [u8], Op),
    /// The number of a query, and what it asks for.
    Query(&'t [u8], Asked),
    /// The heads of a rule, each with its `x`.
    Rule(Words<'t>),
    /// The numbers of two variables, whether the words between them are repeated, and the words.
    Conjunct(&'t [u8], &'t [u8], bool, &'t [u8]),
    /// The end.
    End,
}

/// What a line of this sort says, if it has the form of its line.
pub(crate) fn read_line(bytes: &[u8], format: u8, sort: Sort) -> Option<Written<'_>>
    ensures form { IfSome result (IsOfSort sort) }
    ensures line { option_map line_view result ≡ line_of_sort format sort (first_word bytes.now) (rest_of (words_of bytes.now)) }
{
    match sort {
        Sort::First => read_first(bytes),
        Sort::Label => read_label(bytes),
        Sort::NodeType => read_type(bytes),
        Sort::Edge => read_edge(bytes),
        Sort::Query => read_query(bytes, format),
        Sort::Rule => read_rule(bytes, format),
        Sort::Conjunct => read_conjunct(bytes),
        Sort::End => read_end(bytes),
    }
}

/// The words after the first.
fn rest_of(bytes: &[u8]) -> Words<'_>
    ensures { result ≡ rest_of (words_of bytes.now) }
{
    let mut words = Words::new(bytes);
    let _first = words.next_word();
    words
}

fn read_first(bytes: &[u8]) -> Option<Written<'_>>
    ensures line { option_map line_view result ≡ line_of_sort 0 Sort.First [] (rest_of (words_of bytes.now)) }
    ensures form { IfSome result (IsOfSort Sort.First) }
{
    let Some(word) = one_word(&mut rest_of(bytes)) else {
        return None;
    };
    let Some(format) = format_of_word(word) else {
        return None;
    };
    Some(Written::First(format))
}

fn read_label(bytes: &[u8]) -> Option<Written<'_>>
    ensures line { option_map line_view result ≡ line_of_sort 0 Sort.Label [] (rest_of (words_of bytes.now)) }
    ensures form { IfSome result (IsOfSort Sort.Label) }
{
    let Some(name) = one_word(&mut rest_of(bytes)) else {
        return None;
    };
    if !is_name(name) {
        return None;
    }
    Some(Written::Label(name))
}

fn read_type(bytes: &[u8]) -> Option<Written<'_>>
    ensures line { option_map line_view result ≡ line_of_sort 0 Sort.NodeType [] (rest_of (words_of bytes.now)) }
    ensures form { IfSome result (IsOfSort Sort.NodeType) }
{
    let Some((name, kind)) = two_words(&mut rest_of(bytes)) else {
        return None;
    };
    if !is_name(name) {
        return None;
    }
    let Some(kind) = kind_of_word(kind) else {
        return None;
    };
    Some(Written::NodeType(name, kind))
}

fn read_edge(bytes: &[u8]) -> Option<Written<'_>>
    ensures line { option_map line_view result ≡ line_of_sort 0 Sort.Edge [] (rest_of (words_of bytes.now)) }
    ensures form { IfSome result (IsOfSort Sort.Edge) }
{
    let Some(((source, label), (target, op))) = four_words(&mut rest_of(bytes)) else {
        return None;
    };
    if !are_numbers(source, label, target) {
        return None;
    }
    let Some(op) = op_of_word(op) else {
        return None;
    };
    Some(Written::Edge(source, label, target, op))
}

/// Whether each of the words is a canonical decimal.
fn are_numbers(a: &[u8], b: &[u8], c: &[u8]) -> bool
    ensures { result ≡ are_numbers a.now b.now c.now }
{
    is_canonical(a) && is_canonical(b) && is_canonical(c)
}

fn read_query(bytes: &[u8], format: u8) -> Option<Written<'_>>
    ensures line { option_map line_view result ≡ line_of_sort format Sort.Query [] (rest_of (words_of bytes.now)) }
    ensures form { IfSome result (IsOfSort Sort.Query) }
{
    let Some(((number, shape), (class, wide))) = four_words(&mut rest_of(bytes)) else {
        return None;
    };
    let Some(asked) = asked_of_words(shape, class, wide) else {
        return None;
    };
    if !can_be_asked(number, format, asked) {
        return None;
    }
    Some(Written::Query(number, asked))
}

/// Whether the number is a canonical decimal, and the classes can be asked for in the format.
fn can_be_asked(number: &[u8], format: u8, asked: Asked) -> bool
    ensures { result ≡ (is_canonical number.now && has_classes_of format (asked_view asked)) }
{
    is_canonical(number) && (format != 1 || (asked.class.is_some() && asked.wide.is_some()))
}

/// What a query asks for.
fn asked_of_words(shape: &[u8], class: &[u8], wide: &[u8]) -> Option<Asked>
    ensures { option_map asked_view result ≡ asked_of_words shape.now class.now wide.now }
{
    let Some(shape) = shape_of_word(shape) else {
        return None;
    };
    let Some(class) = class_of_word(class) else {
        return None;
    };
    let Some(wide) = class_of_word(wide) else {
        return None;
    };
    Some(Asked { shape, class, wide })
}

fn read_rule(bytes: &[u8], format: u8) -> Option<Written<'_>>
    ensures line { option_map line_view result ≡ line_of_sort format Sort.Rule [] (rest_of (words_of bytes.now)) }
    ensures form { IfSome result (IsOfSort Sort.Rule) }
{
    if !are_heads(bytes, format) {
        return None;
    }
    Some(Written::Rule(rest_of(bytes)))
}

/// Whether the words after the first are variables, two in format 1.
fn are_heads(bytes: &[u8], format: u8) -> bool
    ensures { result ≡ (has_heads_of format (length (rest_of (words_of bytes.now))) && list_all is_variable (rest_of (words_of bytes.now))) }
{
    (format != 1 || has_two(&mut rest_of(bytes))) && are_variables(&mut rest_of(bytes))
}

/// Whether two words are left.
fn has_two(words: &mut Words<'_>) -> bool
    ensures { result ≡ (length words.old == 2) }
{
    two_words(words).is_some()
}

fn read_conjunct(bytes: &[u8]) -> Option<Written<'_>>
    ensures line { option_map line_view result ≡ line_of_sort 0 Sort.Conjunct (first_word bytes.now) (rest_of (words_of bytes.now)) }
    ensures form { IfSome result (IsOfSort Sort.Conjunct) }
{
    let src = first_word(bytes);
    let Some((expr, trg)) = two_after_first(bytes) else {
        return None;
    };
    if !are_conjunct_words(src, expr, trg) {
        return None;
    }
    Some(Written::Conjunct(
        &src[1..],
        &trg[1..],
        is_starred_word(expr),
        within_star(expr),
    ))
}

/// Whether the words are a variable, the words of a conjunct, and a variable.
fn are_conjunct_words(src: &[u8], expr: &[u8], trg: &[u8]) -> bool
    ensures exact { result ≡ are_conjunct_words src.now expr.now trg.now }
    ensures src { result ≡ true → 0 < length src.now }
    ensures trg { result ≡ true → 0 < length trg.now }
{
    is_variable(src) && is_variable(trg) && is_union_word(within_star(expr))
}

fn read_end(bytes: &[u8]) -> Option<Written<'_>>
    ensures line { option_map line_view result ≡ line_of_sort 0 Sort.End [] (rest_of (words_of bytes.now)) }
    ensures form { IfSome result (IsOfSort Sort.End) }
{
    let Some(_word) = rest_of(bytes).next_word() else {
        return Some(Written::End);
    };
    None
}
