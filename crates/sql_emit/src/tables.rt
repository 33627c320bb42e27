//! The tables of terms.

ghost use Rattle.std.specs.Prelude.{◌≡◌, ◌++◌, ◌+◌, ◌<◌, ◌≤◌, ◌^◌, true, length, slice_get, Some, codes, decimal, OnOk};
ghost use Rattle.std.specs.List.{list_all};
ghost use Rattle.query_terms.specs.Store.{IsStore};
ghost use Rattle.sql_emit.specs.Text.{steps_text, body_text, term_line, tables_text};
ghost use Rattle.sql_emit.specs.Laws.{label_fits};

use gm_text::BackwardText;
use query_terms::{Term, TermId, TermStore};
use std::alloc::AllocError;

/// The line of a term, of at most 160 bytes.
type Line = BackwardText<160>;

const NODES: &[u8] = b"nodes(v) AS (SELECT e.src FROM edge AS e UNION SELECT e.trg FROM edge AS e)";

// The texts of a term's line, each from one number of the line to the next.

const LINE: &[u8] = b",\nt";

const STEP_END: &[u8] = b")";

const SEQ: &[u8] = b"(src, trg) AS (SELECT a.src, b.trg FROM t";

const SEQ_AND: &[u8] = b" AS a, t";

const SEQ_END: &[u8] = b" AS b WHERE a.trg = b.src)";

const ALT: &[u8] = b"(src, trg) AS (SELECT a.src, a.trg FROM t";

const ALT_OR: &[u8] = b" AS a UNION SELECT b.src, b.trg FROM t";

const ALT_END: &[u8] = b" AS b)";

const STAR: &[u8] =
    b"(src, trg) AS (SELECT n.v, n.v FROM nodes AS n UNION SELECT r.src, s.trg FROM t";

const STAR_AND: &[u8] = b" AS r, t";

const STAR_END: &[u8] = b" AS s WHERE r.trg = s.src)";

const OPT: &[u8] =
    b"(src, trg) AS (SELECT n.v, n.v FROM nodes AS n UNION SELECT a.src, a.trg FROM t";

const OPT_END: &[u8] = b" AS a)";

/// What stands before the label of a step, which goes along the edges or back on them.
fn steps(back: bool) -> &'static [u8]
    ensures { result.now ≡ codes "(src, trg) AS (" ++ steps_text back }
{
    if back {
        b"(src, trg) AS (SELECT e.trg, e.src FROM edge AS e WHERE e.label = "
    } else {
        b"(src, trg) AS (SELECT e.src, e.trg FROM edge AS e WHERE e.label = "
    }
}

/// Makes the line a number between two texts.
#[inline(always)]
fn put_one(line: &mut Line, before: &[u8], number: u32, after: &[u8])
    requires { length before.now + length after.now ≤ 130 }
    ensures put { line.new ≡ before.now ++ (decimal number ++ after.now) }
    ensures few { length line.new ≤ length before.now + length after.now + 10 }
{
    line.end_with(after);
    line.put_number(number);
    line.put(before);
}

/// Makes the line the numbers of two terms between three texts.
#[inline(always)]
fn put_two(line: &mut Line, before: &[u8], one: TermId, between: &[u8], other: TermId, after: &[u8])
    requires { length before.now + length between.now + length after.now ≤ 120 }
    ensures put { line.new ≡ before.now ++ (decimal one ++ (between.now ++ (decimal other ++ after.now))) }
    ensures few { length line.new ≤ length before.now + length between.now + length after.now + 20 }
{
    line.end_with(after);
    line.put_number(other.number());
    line.put(between);
    line.put_number(one.number());
    line.put(before);
}

/// Makes the line the columns of the table of a term with a number, and its selects.
#[inline(always)]
fn put_table(line: &mut Line, id: TermId, term: Term)
    ensures put { line.new ≡ codes "(src, trg) AS (" ++ (body_text id term ++ codes ")") }
    ensures few { length line.new ≤ 140 }
{
    match term {
        Term::Step { label, back } => put_one(line, steps(back), u32::from(label), STEP_END),
        Term::Seq(one, other) => put_two(line, SEQ, one, SEQ_AND, other, SEQ_END),
        Term::Alt(one, other) => put_two(line, ALT, one, ALT_OR, other, ALT_END),
        Term::Star(child) => put_two(line, STAR, id, STAR_AND, child, STAR_END),
        Term::Opt(child) => put_one(line, OPT, child.number(), OPT_END),
    }
}

/// Appends the end of the line before, and the line of the term with a number.
#[inline(always)]
fn put_line(out: &mut Vec<u8>, line: &mut Line, id: TermId, term: Term) -> Result<(), AllocError>
    ensures text { OnOk result (out.new.items ≡ out.old.items ++ (codes ",\n" ++ term_line (term, id))) }
    ensures label { label_fits term ≡ true }
{
    put_table(line, id, term);
    line.put_number(id.number());
    line.put(LINE);
    out.extend_from_slice(line.as_slice())
}

/// Appends the lines of the nodes and of the terms.
pub(crate) fn put_tables(out: &mut Vec<u8>, terms: &TermStore<'_>) -> Result<(), AllocError>
    ensures text { OnOk result (out.new.items ≡ out.old.items ++ tables_text terms.now) }
    ensures labels { OnOk result (list_all label_fits terms.now ≡ true) }
    ensures store { OnOk result (IsStore terms.now) }
    ensures few { OnOk result (length terms.now < 2 ^ 64) }
{
    out.extend_from_slice(NODES)?;
    let mut line = Line::new();
    for n in 0..terms.len() {
        let id = terms.id(n);
        put_line(out, &mut line, id, terms.get(id))?;
    }
    Ok(())
}
