//! The text of a path.

ghost use Rattle.std.specs.Prelude.{◌≡◌, ◌<◌, ◌++◌, ◌||◌, true, length, OnOk};
ghost use Rattle.std.specs.List.{list_all};
ghost use Rattle.path_pairs.specs.Trees.Tree.{Step};
ghost use Rattle.query_terms.specs.Store.{ChildrenBelow};
ghost use Rattle.query_terms.specs.Trees.{tree_at};
ghost use Rattle.sparql_emit.specs.PathText.{path_text_of};
ghost use Rattle.sparql_emit.specs.Laws.{has_label, has_names};
ghost use Rattle.sparql_emit.specs.Todo.{is_alt_at, is_seq_at, nested, after, signed, step_text, step_names, parts};

use gm_text::Names;
use query_terms::{Term, TermId, TermStore};
use std::alloc::{AllocError, Global};

/// A part of a path's text that is still to be written.
#[derive(Clone, Copy)]
enum Todo {
    /// This byte.
    Byte(u8),
    /// The text of the term with this number.
    Path(TermId),
    /// This byte, and then the text of the term with this number.
    After(u8, TermId),
}

/// Appends the text of a term's path. Each label of the store's terms has one of these names.
///
/// It fails only where memory runs out, and then a part of the text may have been appended.
pub fn path_text(
    alloc: Global,
    out: &mut Vec<u8>,
    terms: &TermStore<'_>,
    id: TermId,
    labels: &Names,
) -> Result<(), AllocError>
    requires term { id < length terms.now }
    requires labels { list_all (has_label (length labels.now)) terms.now ≡ true }
    ensures text { OnOk result (out.new.items ≡ out.old.items ++ path_text_of labels.now (tree_at terms.now id)) }
    ensures names { OnOk result (has_names labels.now (tree_at terms.now id) ≡ true) }
{
    prove!(id.number() < terms.len());
    // What is written first stands last.
    let mut todo = Vec::new(alloc);
    todo.push(Todo::Path(id))?;
    while let Some(next) = todo.pop() {
        match next {
            Todo::Byte(byte) => out.push(byte)?,
            Todo::Path(id) => write_term(out, &mut todo, terms, terms.get(id), labels)?,
            Todo::After(byte, id) => {
                out.push(byte)?;
                write_term(out, &mut todo, terms, terms.get(id), labels)?;
            }
        }
    }
    Ok(())
}

/// Appends the text of a step, or adds what the text of another term consists of.
fn write_term(
    out: &mut Vec<u8>,
    todo: &mut Vec<Todo>,
    terms: &TermStore<'_>,
    term: Term,
    labels: &Names,
) -> Result<(), AllocError>
    requires children { ChildrenBelow (length terms.now) term }
    requires label { has_label (length labels.now) term ≡ true }
    ensures text { OnOk result (out.new.items ≡ out.old.items ++ step_text labels.now term) }
    ensures name { OnOk result (step_names labels.now term ≡ true) }
    ensures parts { OnOk result (todo.new.items ≡ todo.old.items ++ parts terms.now term) }
{
    match term {
        Term::Step { label, back } => write_step(out, label, back, labels)?,
        Term::Seq(first, second) => {
            push_after(todo, b'/', is_alt_or_seq(terms, second), second)?;
            push_nested(todo, is_alt(terms, first), first)?;
        }
        Term::Alt(left, right) => {
            push_after(todo, b'|', is_alt(terms, right), right)?;
            todo.push(Todo::Path(left))?;
        }
        Term::Star(child) => push_signed(todo, child, b'*')?,
        Term::Opt(child) => push_signed(todo, child, b'?')?,
    }
    Ok(())
}

/// Appends the text of a step with a label.
#[inline]
pub(crate) fn write_step(
    out: &mut Vec<u8>,
    label: u8,
    back: bool,
    labels: &Names,
) -> Result<(), AllocError>
    requires { label < length labels.now }
    ensures text { OnOk result (out.new.items ≡ out.old.items ++ path_text_of labels.now (Step label back)) }
    ensures name { OnOk result (has_names labels.now (Step label back) ≡ true) }
{
    if back {
        out.push(b'^')?;
    }
    out.push(b':')?;
    out.extend_from_slice(labels.at(label as usize).as_slice())
}

/// Adds a term in parentheses, with a sign behind them.
fn push_signed(todo: &mut Vec<Todo>, id: TermId, sign: u8) -> Result<(), AllocError>
    ensures { OnOk result (todo.new.items ≡ todo.old.items ++ signed id sign) }
{
    todo.push(Todo::Byte(sign))?;
    push_nested(todo, true, id)
}

/// Adds a term, in parentheses where they are needed.
fn push_nested(todo: &mut Vec<Todo>, needed: bool, id: TermId) -> Result<(), AllocError>
    ensures { OnOk result (todo.new.items ≡ todo.old.items ++ nested needed id) }
{
    if !needed {
        todo.push(Todo::Path(id))?;
        return Ok(());
    }
    todo.push(Todo::Byte(b')'))?;
    todo.push(Todo::After(b'(', id))?;
    Ok(())
}

/// Adds a byte, and then a term, in parentheses where they are needed.
fn push_after(todo: &mut Vec<Todo>, byte: u8, needed: bool, id: TermId) -> Result<(), AllocError>
    ensures { OnOk result (todo.new.items ≡ todo.old.items ++ after byte needed id) }
{
    if !needed {
        todo.push(Todo::After(byte, id))?;
        return Ok(());
    }
    push_nested(todo, true, id)?;
    todo.push(Todo::Byte(byte))?;
    Ok(())
}

/// Whether the term is a choice of two.
fn is_alt(terms: &TermStore<'_>, id: TermId) -> bool
    requires { id < length terms.now }
    ensures { result ≡ is_alt_at terms.now id }
{
    matches!(terms.get(id), Term::Alt(_, _))
}

/// Whether the term is a choice of two, or two in sequence.
fn is_alt_or_seq(terms: &TermStore<'_>, id: TermId) -> bool
    requires { id < length terms.now }
    ensures { result ≡ (is_alt_at terms.now id || is_seq_at terms.now id) }
{
    matches!(terms.get(id), Term::Alt(_, _) | Term::Seq(_, _))
}
