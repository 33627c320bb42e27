//! One part of a text after another: each call passes a part where it stands next.

ghost use Rattle.std.specs.Prelude.{◌≡◌, ◌<◌, ◌≤◌, ◌↔◌, [], ◌∷◌, true, false, length, IfSome, IsTrue};
ghost use Rattle.sql_read.specs.Tokens as grammar;
ghost use Rattle.sql_read.specs.Grammar.{word_then, col_then, source_then, right_then, equation_then};
ghost use Rattle.sql_read.specs.View.{is_select, name_view, col_view, source_view, right_view, equation_view};
ghost use Rattle.sql_read.specs.Absent.{NotFirst, ends_query};
ghost use Rattle.sql_read.specs.Passed.{left, PassesPart};
ghost use Rattle.sql_read.specs.declared.tokens.Mark.TheVariants.{Select};

use crate::query::{Col, Equation, Right, SqlFrom};
use crate::tokens::{Mark, Token};

/// The tokens that are left.
#[derive(Drop)]
pub(crate) struct Cursor<'a, 't> {
    pub(crate) rest: &'t [Token<'a>],
}

/// Passes a keyword other than `SELECT`, or a sign.
pub(crate) fn pass_mark<'a, 't>(cursor: &mut Cursor<'a, 't>, mark: Mark) -> bool
    requires { is_select mark ≡ false }
    ensures passed { result ≡ true → left cursor.old ≡ grammar.Fixed mark ∷ left cursor.new }
    ensures none { result ≡ false → NotFirst (grammar.Fixed mark) (left cursor.old) }
    ensures kept { result ≡ false → left cursor.new ≡ left cursor.old }
    ensures count { length cursor.new.rest.now ≤ length cursor.old.rest.now }
{
    match cursor.rest {
        [] => false,
        [first, more @ ..] => match first {
            Token::Fixed(found) => {
                if *found != mark {
                    return false;
                }
                cursor.rest = more;
                true
            }
            _ => false,
        },
    }
}

/// Passes `SELECT` and, where it stands, `DISTINCT`.
pub(crate) fn pass_select<'a, 't>(cursor: &mut Cursor<'a, 't>) -> bool
    ensures passed { result ≡ true → left cursor.old ≡ grammar.Fixed Select ∷ left cursor.new }
    ensures none { result ≡ false → NotFirst (grammar.Fixed Select) (left cursor.old) }
    ensures count { result ≡ true → length cursor.new.rest.now < length cursor.old.rest.now }
{
    match cursor.rest {
        [] => false,
        [first, more @ ..] => match first {
            Token::Fixed(Mark::Select) => {
                cursor.rest = match more {
                    [Token::Fixed(Mark::Distinct), rest @ ..] => rest,
                    _ => more,
                };
                true
            }
            _ => false,
        },
    }
}

/// Passes a word.
pub(crate) fn pass_word<'a, 't>(cursor: &mut Cursor<'a, 't>) -> Option<&'a [u8]>
    ensures is { PassesPart result word_then name_view cursor.old cursor.new }
    ensures count { IfSome result (λ w. length cursor.new.rest.now < length cursor.old.rest.now) }
{
    match cursor.rest {
        [] => None,
        [first, more @ ..] => match first {
            Token::Word(word) => {
                cursor.rest = more;
                Some(*word)
            }
            _ => None,
        },
    }
}

/// Passes the number 1.
pub(crate) fn pass_one<'a, 't>(cursor: &mut Cursor<'a, 't>) -> bool
    ensures passed { result ≡ true → left cursor.old ≡ grammar.Number 1 ∷ left cursor.new }
    ensures none { result ≡ false → NotFirst (grammar.Number 1) (left cursor.old) }
    ensures kept { result ≡ false → left cursor.new ≡ left cursor.old }
    ensures count { length cursor.new.rest.now ≤ length cursor.old.rest.now }
{
    match cursor.rest {
        [] => false,
        [first, more @ ..] => match first {
            Token::Number(value) => {
                if *value != 1 {
                    return false;
                }
                cursor.rest = more;
                true
            }
            _ => false,
        },
    }
}

/// Passes a column under an alias.
pub(crate) fn pass_col<'a, 't>(cursor: &mut Cursor<'a, 't>) -> Option<Col<'a>>
    ensures is { PassesPart result col_then col_view cursor.old cursor.new }
    ensures count { IfSome result (λ c. length cursor.new.rest.now < length cursor.old.rest.now) }
{
    let Some(alias) = pass_word(cursor) else {
        return None;
    };
    if !pass_mark(cursor, Mark::Dot) {
        return None;
    }
    let Some(column) = pass_word(cursor) else {
        return None;
    };
    Some(Col { alias, column })
}

/// Passes a table under an alias.
pub(crate) fn pass_from<'a, 't>(cursor: &mut Cursor<'a, 't>) -> Option<SqlFrom<'a>>
    ensures is { PassesPart result source_then source_view cursor.old cursor.new }
    ensures count { IfSome result (λ s. length cursor.new.rest.now < length cursor.old.rest.now) }
{
    let Some(table) = pass_word(cursor) else {
        return None;
    };
    if !pass_mark(cursor, Mark::As) {
        return None;
    }
    let Some(alias) = pass_word(cursor) else {
        return None;
    };
    Some(SqlFrom { table, alias })
}

/// Passes the right side of an equation.
fn pass_right<'a, 't>(cursor: &mut Cursor<'a, 't>) -> Option<Right<'a>>
    ensures is { PassesPart result right_then right_view cursor.old cursor.new }
    ensures count { IfSome result (λ r. length cursor.new.rest.now < length cursor.old.rest.now) }
{
    match cursor.rest {
        [] => None,
        [first, more @ ..] => match first {
            Token::Number(value) => {
                cursor.rest = more;
                Some(Right::Number(*value))
            }
            _ => match pass_col(cursor) {
                Some(col) => Some(Right::Column(col)),
                None => None,
            },
        },
    }
}

/// Passes an equation.
pub(crate) fn pass_equation<'a, 't>(cursor: &mut Cursor<'a, 't>) -> Option<Equation<'a>>
    ensures is { PassesPart result equation_then equation_view cursor.old cursor.new }
    ensures count { IfSome result (λ e. length cursor.new.rest.now < length cursor.old.rest.now) }
{
    let Some(left) = pass_col(cursor) else {
        return None;
    };
    if !pass_mark(cursor, Mark::Equals) {
        return None;
    }
    let Some(right) = pass_right(cursor) else {
        return None;
    };
    Some(Equation { left, right })
}

/// Whether a select may end here: neither a comma, `WHERE` nor `AND` stands next.
pub(crate) fn ends_query<'a, 't>(cursor: &Cursor<'a, 't>) -> bool
    ensures { result ≡ ends_query (left cursor.now) }
{
    match cursor.rest {
        [] => true,
        [first, ..] => match first {
            Token::Fixed(mark) => !matches!(*mark, Mark::Comma | Mark::Where | Mark::And),
            Token::Word(_) => true,
            Token::Number(_) => true,
        },
    }
}

/// Whether no token is left.
pub(crate) fn is_at_end<'a, 't>(cursor: &Cursor<'a, 't>) -> bool
    ensures { IsTrue result ↔ (left cursor.now ≡ []) }
{
    cursor.rest.is_empty()
}
