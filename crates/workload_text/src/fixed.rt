//! The words of formats, kinds, operators, shapes and classes.

ghost use Rattle.std.specs.Prelude.{◌≡◌};
ghost use Rattle.workload_text.specs.Forms.{format_of_word, kind_of_word, op_of_word, shape_of_word, class_of_word};
ghost use Rattle.workload_text.specs.Lines.{kind_word, op_word, shape_word, class_or_none};

use crate::sorts::is_word;
use sel_algebra::{Class, Kind, Op, Shape};

/// The format of a word.
pub(crate) fn format_of_word(word: &[u8]) -> Option<u8>
    ensures { result ≡ format_of_word word.now }
{
    match word {
        b"1" => Some(1),
        b"2" => Some(2),
        _ => None,
    }
}

/// The kind of a word.
pub(crate) fn kind_of_word(word: &[u8]) -> Option<Kind>
    ensures { result ≡ kind_of_word word.now }
{
    if is_word(word, b"fixed") {
        Some(Kind::Fixed)
    } else if is_word(word, b"growing") {
        Some(Kind::Growing)
    } else {
        None
    }
}

/// The operator of a word.
pub(crate) fn op_of_word(word: &[u8]) -> Option<Op>
    ensures { result ≡ op_of_word word.now }
{
    match word {
        b"=" => Some(Op::Equal),
        b"<" => Some(Op::Less),
        b">" => Some(Op::Greater),
        b"<>" => Some(Op::Diamond),
        b"x" => Some(Op::Cross),
        _ => None,
    }
}

/// The shape of a word.
pub(crate) fn shape_of_word(word: &[u8]) -> Option<Shape>
    ensures { result ≡ shape_of_word word.now }
{
    if is_word(word, b"chain") {
        Some(Shape::Chain)
    } else if is_word(word, b"star") {
        Some(Shape::Star)
    } else if is_word(word, b"cycle") {
        Some(Shape::Cycle)
    } else if is_word(word, b"starchain") {
        Some(Shape::StarChain)
    } else {
        None
    }
}

/// The class of a word, or no class where it is `none`.
pub(crate) fn class_of_word(word: &[u8]) -> Option<Option<Class>>
    ensures { result ≡ class_of_word word.now }
{
    if is_word(word, b"constant") {
        Some(Some(Class::Constant))
    } else if is_word(word, b"linear") {
        Some(Some(Class::Linear))
    } else if is_word(word, b"quadratic") {
        Some(Some(Class::Quadratic))
    } else if is_word(word, b"none") {
        Some(None)
    } else {
        None
    }
}

/// The word of a kind.
pub(crate) fn kind_word(kind: Kind) -> &'static [u8]
    ensures { result.now ≡ kind_word kind }
{
    match kind {
        Kind::Fixed => b"fixed",
        Kind::Growing => b"growing",
    }
}

/// The word of an operator.
pub(crate) fn op_word(op: Op) -> &'static [u8]
    ensures { result.now ≡ op_word op }
{
    match op {
        Op::Equal => b"=",
        Op::Less => b"<",
        Op::Greater => b">",
        Op::Diamond => b"<>",
        Op::Cross => b"x",
    }
}

/// The word of a shape.
pub(crate) fn shape_word(shape: Shape) -> &'static [u8]
    ensures { result.now ≡ shape_word shape }
{
    match shape {
        Shape::Chain => b"chain",
        Shape::Star => b"star",
        Shape::Cycle => b"cycle",
        Shape::StarChain => b"starchain",
    }
}

/// The word of a class, or `none`.
pub(crate) fn class_or_none(class: Option<Class>) -> &'static [u8]
    ensures { result.now ≡ class_or_none class }
{
    match class {
        None => b"none",
        Some(Class::Constant) => b"constant",
        Some(Class::Linear) => b"linear",
        Some(Class::Quadratic) => b"quadratic",
    }
}
