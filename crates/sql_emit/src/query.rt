//! The text of a query.

ghost use Rattle.std.specs.Prelude.{◌≡◌, ◌+◌, true, length, map, IfOk};
ghost use Rattle.std.specs.List.{list_all};
ghost use Rattle.query_terms.specs.Lists.{heads_in, is_heads};
ghost use Rattle.query_terms.specs.View.{query_value};
ghost use Rattle.sql_emit.specs.Text.{query_links, sql_text_of};
ghost use Rattle.rpq_meaning.specs.QueryRows.{IsQueryRow};
ghost use Rattle.sql_emit.specs.Laws.{HasReading};
ghost use Rattle.sql_emit.specs.Rows.{HasRows, HasTables};
ghost use Rattle.sql_emit.specs.Writing.{link_of, link_rule_in, is_rule_of};

use crate::links::{HeadVars, Link, LinkRule, LinkRules, Links};
use crate::text::links_text;
use gm_text::Items;
use query_terms::{Conjunct, Heads, Query, Rule, part_of};
use std::alloc::{AllocError, Global};

/// The text of a query: a table for each of its terms, and a select for each of its rules.
pub fn sql_text(alloc: Global, query: &Query<'_>) -> Result<Vec<u8>, AllocError>
    ensures text { IfOk result (λ text. text.items ≡ sql_text_of (query_value query.now)) }
    ensures reading { IfOk result (λ text. HasReading text.items query.now.terms (query_links (query_value query.now))) }
    ensures tables { IfOk result (λ text. HasTables text.items query.now.terms) }
    ensures rows { IfOk result (λ text. HasRows text.items (IsQueryRow (query_value query.now))) }
{
    let rules = link_rules(alloc, query.conjuncts, query.rules)?;
    links_text(alloc, &query.terms, &rules)
}

/// The rules of a query as rules of links.
fn link_rules(
    alloc: Global,
    conjuncts: &[Conjunct],
    rules: &[Rule],
) -> Result<LinkRules, AllocError>
    requires { list_all (is_rule_of (length conjuncts.now)) rules.now ≡ true }
    ensures { IfOk result (λ found. found ≡ map (link_rule_in conjuncts.now) rules.now) }
{
    let mut found = Vec::new(alloc);
    for rule in rules {
        let part = part_of(conjuncts, rule.conjuncts);
        let heads = heads_of(alloc, &rule.heads)?;
        let links = links_of(alloc, part)?;
        found.push(LinkRule { heads, links })?;
    }
    Ok(Items::of(found))
}

/// The variables of heads.
fn heads_of(alloc: Global, heads: &Heads) -> Result<HeadVars, AllocError>
    requires { is_heads heads.now ≡ true }
    ensures { IfOk result (λ found. found ≡ heads_in heads.now) }
{
    let mut found = Vec::new(alloc);
    for variable in &heads.vars[..heads.count as usize] {
        found.push(u32::from(*variable))?;
    }
    Ok(Items::of(found))
}

/// Conjuncts as links.
fn links_of(alloc: Global, conjuncts: &[Conjunct]) -> Result<Links, AllocError>
    ensures { IfOk result (λ links. links ≡ map link_of conjuncts.now) }
{
    let mut links = Vec::new(alloc);
    for conjunct in conjuncts {
        links.push(link_of(conjunct))?;
    }
    Ok(Items::of(links))
}

/// A conjunct as a link.
fn link_of(conjunct: &Conjunct) -> Link
    ensures { result ≡ link_of conjunct.now }
{
    Link {
        src: u32::from(conjunct.src),
        term: conjunct.term,
        trg: u32::from(conjunct.trg),
    }
}
