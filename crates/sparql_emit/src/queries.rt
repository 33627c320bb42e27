//! The text of a query.

ghost use Rattle.std.specs.Prelude.{◌≡◌, ◌++◌, true, length, codes, position, IfOk, OnOk};
ghost use Rattle.std.specs.List.{All, list_all, join_by};
ghost use Rattle.gm_text.specs.Lines.{is_byte};
ghost use Rattle.query_terms.specs.View.{query_value};
ghost use Rattle.sparql_read.specs.Text.{IsSparql, are_different};
ghost use Rattle.sparql_emit.specs.QueryText.{head_name, variable_of, with_mark, heads_line, conjunct_text, rule_line, sparql_text_of};
ghost use Rattle.sparql_emit.specs.Printed.{printed_of};
ghost use Rattle.sparql_emit.specs.Laws.{has_label};
ghost use Rattle.sparql_emit.specs.RowLaws.{HasQueryRows};
ghost use Rattle.sparql_emit.specs.Words.{conjunct_of, rule_of, ConjunctFits, RuleFits, is_plain};

use crate::words::write_path;
use gm_text::{Names, write_decimal};
use query_terms::{Conjunct, Query, Rule, part_of};
use std::alloc::{AllocError, Global};

/// The room for a step, one for each term. A name of up to 13 bytes takes no more, between `^:` and `/`.
const STEP_ROOM: usize = 16;

/// The room for the variables of some rules, and for what stands around them.
const REST_ROOM: usize = 1024;

/// The text of a query, whose labels have these names. It has a reading, and over every graph the rows of what is read
/// are the query's rows.
///
/// The names differ, and each label of the query's terms has one. It fails only where memory runs out.
pub fn sparql_text(alloc: Global, query: &Query<'_>, labels: &Names) -> Result<Vec<u8>, AllocError>
    requires labels { list_all (has_label (length labels.now)) query.now.terms ≡ true }
    requires names { are_different labels.now ≡ true }
    ensures text { IfOk result (λ text. text.items ≡ sparql_text_of labels.now (query_value query.now)) }
    ensures reading { IfOk result (λ text. IsSparql text.items (printed_of labels.now (query_value query.now))) }
    ensures rows { OnOk result (HasQueryRows labels.now (query_value query.now)) }
{
    let room = query.terms.len() as usize * STEP_ROOM + REST_ROOM;
    let mut out = Vec::with_capacity(alloc, room)?;
    out.extend_from_slice(b"PREFIX : <http://gmark.example/>\n")?;
    write_heads(alloc, &mut out, query.arity())?;
    write_rules(alloc, &mut out, query, query.rules, labels)?;
    out.extend_from_slice(b"}\n")?;
    Ok(out)
}

/// Appends the line of so many heads.
fn write_heads(alloc: Global, out: &mut Vec<u8>, count: u8) -> Result<(), AllocError>
    ensures { OnOk result (out.new.items ≡ out.old.items ++ heads_line count) }
{
    if count == 0 {
        return out.extend_from_slice(b"ASK WHERE {\n");
    }
    out.extend_from_slice(b"SELECT DISTINCT")?;
    for place in 0..count {
        out.extend_from_slice(b" ?")?;
        write_head(alloc, out, place as u64)?;
    }
    out.extend_from_slice(b" WHERE {\n")?;
    Ok(())
}

/// Appends the name of the head at a place.
fn write_head(alloc: Global, out: &mut Vec<u8>, place: u64) -> Result<(), AllocError>
    ensures { OnOk result (out.new.items ≡ out.old.items ++ head_name place) }
{
    out.push(b'h')?;
    write_decimal(alloc, out, place)
}

/// Appends rules of a query, with a line between two.
fn write_rules(
    alloc: Global,
    out: &mut Vec<u8>,
    query: &Query<'_>,
    rules: &[Rule],
    names: &Names,
) -> Result<(), AllocError>
    requires conjuncts { All (ConjunctFits query.now (length names.now)) query.now.conjuncts.now }
    requires rules { All (RuleFits (length query.now.conjuncts.now)) rules.now }
    ensures text { OnOk result (out.new.items ≡ out.old.items ++ join_by (λ r. rule_line names.now query.now.labels.now (rule_of query.now r)) (codes "UNION\n") rules.now) }
    ensures plain { OnOk result (list_all (λ r. list_all (is_plain names.now query.now.labels.now) (rule_of query.now r).conjuncts) rules.now ≡ true) }
{
    let [first, others @ ..] = rules else {
        return Ok(());
    };
    write_rule(alloc, out, query, first, names)?;
    for rule in others {
        out.extend_from_slice(b"UNION\n")?;
        write_rule(alloc, out, query, rule, names)?;
    }
    Ok(())
}

/// Appends the line of a rule of a query.
fn write_rule(
    alloc: Global,
    out: &mut Vec<u8>,
    query: &Query<'_>,
    rule: &Rule,
    names: &Names,
) -> Result<(), AllocError>
    requires conjuncts { All (ConjunctFits query.now (length names.now)) query.now.conjuncts.now }
    requires rule { RuleFits (length query.now.conjuncts.now) rule.now }
    ensures text { OnOk result (out.new.items ≡ out.old.items ++ rule_line names.now query.now.labels.now (rule_of query.now rule.now)) }
    ensures plain { OnOk result (list_all (is_plain names.now query.now.labels.now) (rule_of query.now rule.now).conjuncts ≡ true) }
{
    let heads = &rule.heads.vars[..rule.heads.count as usize];
    out.push(b'{')?;
    for conjunct in part_of(query.conjuncts, rule.conjuncts) {
        write_conjunct(alloc, out, query, heads, conjunct, names)?;
    }
    out.extend_from_slice(b" }\n")?;
    Ok(())
}

/// Appends a conjunct of a query, in a rule with these heads.
fn write_conjunct(
    alloc: Global,
    out: &mut Vec<u8>,
    query: &Query<'_>,
    heads: &[u8],
    conjunct: &Conjunct,
    names: &Names,
) -> Result<(), AllocError>
    requires { ConjunctFits query.now (length names.now) conjunct.now }
    ensures text { OnOk result (out.new.items ≡ out.old.items ++ conjunct_text names.now query.now.labels.now heads.now (conjunct_of query.now conjunct.now)) }
    ensures plain { OnOk result (is_plain names.now query.now.labels.now (conjunct_of query.now conjunct.now) ≡ true) }
{
    write_variable(alloc, out, heads, conjunct.src)?;
    out.push(b' ')?;
    write_path(out, query, conjunct, names)?;
    write_variable(alloc, out, heads, conjunct.trg)?;
    out.extend_from_slice(b" .")
}

/// Appends a variable of a rule with these heads, behind a space.
fn write_variable(
    alloc: Global,
    out: &mut Vec<u8>,
    heads: &[u8],
    variable: u8,
) -> Result<(), AllocError>
    ensures { OnOk result (out.new.items ≡ out.old.items ++ with_mark (variable_of heads.now variable)) }
{
    out.extend_from_slice(b" ?")?;
    match place_of(heads, variable) {
        Some(place) => write_head(alloc, out, place as u64)?,
        None => {
            out.push(b'x')?;
            write_decimal(alloc, out, variable as u64)?;
        }
    }
    Ok(())
}

/// The place of a variable among the heads.
fn place_of(heads: &[u8], variable: u8) -> Option<usize>
    ensures { result ≡ position (is_byte variable) heads.now }
{
    heads.iter().position(|head| *head == variable)
}
