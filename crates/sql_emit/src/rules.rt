//! The selects of rules.

ghost use Rattle.std.specs.Prelude.{◌≡◌, ◌++◌, ◌<◌, ◌^◌, true, is_some, List, length, map, codes, OnOk};
ghost use Rattle.std.specs.List.{list_all, join_by};
ghost use Rattle.sql_emit.specs.Rules.{occurs};
ghost use Rattle.sql_emit.specs.Reading.{Occurrence, head_column, first_of, occurrences_from, sources_from, source, table_name, alias_name};
ghost use Rattle.sql_emit.specs.Text.{columns_text, source_text, rule_text};
ghost use Rattle.sql_emit.specs.Laws.{has_few_links};
ghost use Rattle.sql_emit.specs.Writing.{AreEnds, column_of};

use crate::columns::{Ends, ends_of, put_column};
use crate::links::{Link, LinkRule, LinkRules};
use crate::names::{put_alias, put_lead, put_table_name};
use query_terms::TermId;
use std::alloc::{AllocError, Global};

/// Appends the column of each head, or `1` where there is none.
fn put_heads(alloc: Global, out: &mut Vec<u8>, ends: &Ends, heads: &[u32]) -> Result<(), AllocError>
    requires occur { list_all (λ v. is_some (column_of ends.now v)) heads.now ≡ true }
    ensures { OnOk result ((os : List Occurrence) → AreEnds os ends.now → out.new.items ≡ out.old.items ++ columns_text (map (head_column os) heads.now)) }
{
    if heads.is_empty() {
        return out.extend_from_slice(b"1");
    }
    for i in 0..heads.len() {
        let Some(column) = ends.firsts.get(&heads[i]) else {
            unreachable!()
        };
        put_lead(out, i, b", ")?;
        put_column(alloc, out, *column)?;
    }
    Ok(())
}

/// Appends a table under the alias of a link, by the number of the link.
fn put_source(alloc: Global, out: &mut Vec<u8>, term: TermId, link: usize) -> Result<(), AllocError>
    ensures { OnOk result (out.new.items ≡ out.old.items ++ source_text (source (table_name term) (alias_name link))) }
{
    put_table_name(alloc, out, term)?;
    out.extend_from_slice(b" AS ")?;
    put_alias(alloc, out, link)
}

/// Appends the tables of links.
fn put_sources(alloc: Global, out: &mut Vec<u8>, links: &[Link]) -> Result<(), AllocError>
    ensures text { OnOk result (out.new.items ≡ out.old.items ++ join_by source_text (codes ", ") (sources_from 0 links.now)) }
    ensures few { OnOk result (length links.now < 2 ^ 64) }
{
    for i in 0..links.len() {
        put_lead(out, i, b", ")?;
        put_source(alloc, out, links[i].term, i)?;
    }
    Ok(())
}

/// Appends the line of a rule.
fn put_rule(alloc: Global, out: &mut Vec<u8>, rule: &LinkRule) -> Result<(), AllocError>
    requires heads { list_all (occurs rule.now.links) rule.now.heads ≡ true }
    ensures text { OnOk result (out.new.items ≡ out.old.items ++ rule_text rule.now) }
    ensures few { OnOk result (has_few_links rule.now ≡ true) }
{
    let links = rule.links.as_slice();
    let ends = ends_of(alloc, links)?;
    out.extend_from_slice(b"SELECT DISTINCT ")?;
    put_heads(alloc, out, &ends, rule.heads.as_slice())?;
    out.extend_from_slice(b" FROM ")?;
    put_sources(alloc, out, links)?;
    out.extend_from_slice(&ends.equations)?;
    Ok(())
}

/// Appends the lines of rules.
pub(crate) fn put_rules(
    alloc: Global,
    out: &mut Vec<u8>,
    rules: &LinkRules,
) -> Result<(), AllocError>
    requires heads { list_all (λ r. list_all (occurs r.links) r.heads) rules.now ≡ true }
    ensures text { OnOk result (out.new.items ≡ out.old.items ++ join_by rule_text (codes "\nUNION\n") rules.now) }
    ensures few { OnOk result (list_all has_few_links rules.now ≡ true) }
{
    for i in 0..rules.len() {
        put_lead(out, i, b"\nUNION\n")?;
        put_rule(alloc, out, rules.at(i))?;
    }
    Ok(())
}
