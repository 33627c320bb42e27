//! The state of the reader of workload texts.

ghost use Rattle.std.specs.Prelude.{◌≡◌, ◌==◌, ◌&&◌, ◌||◌, [], drop, true, false, nat_lt, length, map, is_some, Option, Some, None, if◌then◌else◌, MatchOption, IfOk, OnOk};
ghost use Rattle.std.specs.List.{list_all};
ghost use Rattle.gm_text.specs.Name.{IsName};
ghost use Rattle.gm_text.specs.Decimal.{IsCanonical};
ghost use Rattle.query_terms.specs.Values.{occurs, have_heads};
ghost use Rattle.query_terms.specs.Lists.{heads_in, is_heads};
ghost use Rattle.query_terms.specs.Building.{begun};
ghost use Rattle.query_terms.specs.Store.{same_bool};
ghost use Rattle.workload_text.specs.Lines.WorkLine.{FirstLine, LabelLine, TypeLine, EdgeLine, QueryLine, RuleLine, ConjunctLine, EndLine};
ghost use Rattle.workload_text.specs.Forms.{are_numbers, is_variable, is_union_word, read_union};
ghost use Rattle.workload_text.specs.Sofar.{before_all, after_conjunct, ended_rules, ended_queries, number};
ghost use Rattle.workload_text.specs.Rules.{heads_occur, are_small_heads, is_next_query, after_end, are_new_heads};
ghost use Rattle.workload_text.specs.Heads.{heads_of};
ghost use Rattle.workload_text.specs.Union.{union_of, IsFacts};
ghost use Rattle.workload_text.specs.State.{in_query, in_rule, sofar_of, IsUsable, IsAccepted, IsRuleEnded, IsQueryEnded, broken_by_facts};
ghost use Rattle.workload_text.specs.View.{asked_view};

use crate::front::Front;
use crate::heads::{VARIABLES_MOST, occur, read_heads};
use crate::numbers::{is_number, number_below};
use crate::sorts::{Sort, is_after_conjunct};
use crate::unions::{Facts, put_union};
use crate::written::Asked;
use gm_text::{Arena, Words};
use query_terms::{Heads, Query, QueryBuilder};
use sel_algebra::{Kind, Op, Shape};
use std::alloc::{AllocError, Global};
use std::mem;

/// The most queries.
const QUERIES_MOST: usize = 1000;

/// The most rules of a query.
const RULES_MOST: u8 = 4;

/// The most conjuncts of a rule.
const CONJUNCTS_MOST: usize = 8;

/// No heads.
const NO_HEADS: Heads = Heads {
    count: 0,
    vars: [0; 4],
};

/// What the lines so far say.
#[derive(Drop)]
pub(crate) struct Reading<'a> {
    /// The sort of the last line.
    pub(crate) last: Option<Sort>,
    /// The head.
    pub(crate) front: Front,
    /// The queries that are ended.
    pub(crate) queries: Vec<Query<'a>>,
    /// What the query that is begun asks for.
    pub(crate) asked: Asked,
    /// The query that is begun.
    pub(crate) builder: QueryBuilder<'a>,
    /// The number of its rules that are ended.
    pub(crate) rules: u8,
    /// The heads of the rule that is begun.
    pub(crate) heads: Heads,
    /// The ends of its conjuncts.
    pub(crate) ends: Vec<(u8, u8)>,
}

impl<'a> Reading<'a> {
    /// Before the first line.
    pub(crate) fn new(alloc: Global, arena: &'a Arena) -> Result<Reading<'a>, AllocError>
        ensures usable { IfOk result IsUsable }
        ensures value { IfOk result (λ reading. sofar_of reading ≡ before_all) }
    {
        Ok(Reading {
            last: None,
            front: Front::new(alloc),
            queries: Vec::new(alloc),
            asked: Asked {
                shape: Shape::Chain,
                class: None,
                wide: None,
            },
            builder: QueryBuilder::new(alloc, arena, &[])?,
            rules: 0,
            heads: NO_HEADS,
            ends: Vec::new(alloc),
        })
    }

    /// Whether each head of the rule that is begun occurs in it.
    pub(crate) fn heads_occur(&self) -> bool
        requires { IsUsable self.now }
        ensures { result ≡ heads_occur (sofar_of self.now) }
    {
        occur(&self.ends, &self.heads)
    }

    /// Takes the first line.
    pub(crate) fn first(&mut self, format: u8) -> Option<u8>
        requires usable { IsUsable self.old }
        requires before { after_conjunct self.old.last ≡ false }
        ensures { IsAccepted (sofar_of self.old) (FirstLine format) result self.new }
    {
        self.front.format = format;
        self.last = Some(Sort::First);
        None
    }

    /// Takes the line of a label.
    pub(crate) fn label(&mut self, alloc: Global, name: &[u8]) -> Result<Option<u8>, AllocError>
        requires usable { IsUsable self.old }
        requires before { after_conjunct self.old.last ≡ false }
        requires name { IsName name.now }
        ensures { IfOk result (λ rule. IsAccepted (sofar_of self.old) (LabelLine name.now) rule self.new) }
    {
        if !self.front.label(alloc, name)? {
            return Ok(Some(5));
        }
        self.last = Some(Sort::Label);
        Ok(None)
    }

    /// Takes the line of a type.
    pub(crate) fn node_type(
        &mut self,
        alloc: Global,
        name: &[u8],
        kind: Kind,
    ) -> Result<Option<u8>, AllocError>
        requires usable { IsUsable self.old }
        requires before { after_conjunct self.old.last ≡ false }
        requires name { IsName name.now }
        ensures { IfOk result (λ rule. IsAccepted (sofar_of self.old) (TypeLine name.now kind) rule self.new) }
    {
        if !self.front.node_type(alloc, name, kind)? {
            return Ok(Some(5));
        }
        self.last = Some(Sort::NodeType);
        Ok(None)
    }

    /// Takes the line of an edge.
    pub(crate) fn edge(
        &mut self,
        source: &[u8],
        label: &[u8],
        target: &[u8],
        op: Op,
    ) -> Result<Option<u8>, AllocError>
        requires usable { IsUsable self.old }
        requires before { after_conjunct self.old.last ≡ false }
        requires numbers { are_numbers source.now label.now target.now ≡ true }
        ensures { IfOk result (λ rule. IsAccepted (sofar_of self.old) (EdgeLine source.now label.now target.now op) rule self.new) }
    {
        if !self.front.edge(source, label, target, op)? {
            return Ok(Some(5));
        }
        self.last = Some(Sort::Edge);
        Ok(None)
    }

    /// Takes the line of a query.
    pub(crate) fn query(
        &mut self,
        alloc: Global,
        arena: &'a Arena,
        number: &[u8],
        asked: Asked,
    ) -> Result<Option<u8>, AllocError>
        requires usable { IsUsable self.old }
        requires occur { after_conjunct self.old.last ≡ true → heads_occur (sofar_of self.old) ≡ true }
        requires number { IsCanonical number.now }
        ensures { IfOk result (λ rule. IsAccepted (sofar_of self.old) (QueryLine number.now (asked_view asked)) rule self.new) }
    {
        if !is_next_query(self.ended_queries(), number, asked) {
            return Ok(Some(5));
        }
        self.end_query(alloc, arena)?;
        self.asked = asked;
        self.last = Some(Sort::Query);
        Ok(None)
    }

    /// Takes the line of a rule.
    pub(crate) fn rule(&mut self, words: &mut Words<'_>) -> Result<Option<u8>, AllocError>
        requires usable { IsUsable self.old }
        requires query { in_query self.old.last ≡ true }
        requires occur { after_conjunct self.old.last ≡ true → heads_occur (sofar_of self.old) ≡ true }
        requires words { list_all is_variable words.old ≡ true }
        ensures { IfOk result (λ rule. IsAccepted (sofar_of self.old) (RuleLine (map (drop 1) words.old)) rule self.new) }
    {
        let Some(heads) = self.new_heads(words) else {
            return Ok(Some(5));
        };
        self.end_rule()?;
        self.heads = heads;
        self.last = Some(Sort::Rule);
        Ok(None)
    }

    /// Takes the line of a conjunct.
    pub(crate) fn conjunct(
        &mut self,
        src: &[u8],
        trg: &[u8],
        star: bool,
        words: &[u8],
    ) -> Result<Option<u8>, AllocError>
        requires usable { IsUsable self.old }
        requires rule { in_rule self.old.last ≡ true }
        requires src { IsCanonical src.now }
        requires trg { IsCanonical trg.now }
        requires words { is_union_word words.now ≡ true }
        ensures { IfOk result (λ rule. IsAccepted (sofar_of self.old) (ConjunctLine src.now trg.now star (read_union words.now)) rule self.new) }
    {
        if self.ends.len() >= CONJUNCTS_MOST {
            return Ok(Some(5));
        }
        let Some(src) = number_below(src, VARIABLES_MOST) else {
            return Ok(Some(5));
        };
        let Some(trg) = number_below(trg, VARIABLES_MOST) else {
            return Ok(Some(5));
        };
        let Some(facts) = put_union(&mut self.builder, &self.front.edges, words)? else {
            return Ok(Some(5));
        };
        if let Some(rule) = broken_by(facts, star) {
            return Ok(Some(rule));
        }
        self.builder.end_conjunct(src, trg, star)?;
        self.ends.push((src, trg))?;
        self.last = Some(Sort::Conjunct);
        Ok(None)
    }

    /// Takes the last line.
    pub(crate) fn end(&mut self, alloc: Global, arena: &'a Arena) -> Result<Option<u8>, AllocError>
        requires usable { IsUsable self.old }
        requires occur { after_conjunct self.old.last ≡ true → heads_occur (sofar_of self.old) ≡ true }
        ensures { IfOk result (λ rule. IsAccepted (sofar_of self.old) EndLine rule self.new) }
    {
        self.end_query(alloc, arena)?;
        self.last = Some(Sort::End);
        Ok(None)
    }

    /// The number of queries, once the one that is begun is ended.
    fn ended_queries(&self) -> usize
        requires { IsUsable self.now }
        ensures { result ≡ length (ended_queries (sofar_of self.now)) }
    {
        if is_after_conjunct(self.last) {
            self.queries.len() + 1
        } else {
            self.queries.len()
        }
    }

    /// The number of rules of the query that is begun, once the one that is begun is ended.
    fn ended_rules(&self) -> u8
        requires { IsUsable self.now }
        ensures { result ≡ length (ended_rules (sofar_of self.now)) }
    {
        if is_after_conjunct(self.last) {
            self.rules + 1
        } else {
            self.rules
        }
    }

    /// The heads of the next rule, where they may be so.
    fn new_heads(&self, words: &mut Words<'_>) -> Option<Heads>
        requires usable { IsUsable self.now }
        requires words { list_all is_variable words.old ≡ true }
        ensures { MatchOption result
            (are_new_heads (sofar_of self.now) (heads_of words.old) ≡ false)
            (λ h. (is_heads h ≡ true) × (heads_in h ≡ heads_of words.old) × (length (heads_in h) ≡ h.count) × (are_new_heads (sofar_of self.now) (heads_of words.old) ≡ true)) }
    {
        let Some(heads) = read_heads(words) else {
            return None;
        };
        if !self.may_have(heads.count) {
            return None;
        }
        Some(heads)
    }

    /// Whether there may be one rule more, with so many heads.
    fn may_have(&self, count: u8) -> bool
        requires usable { IsUsable self.now }
        ensures { result ≡ (nat_lt (length (ended_rules (sofar_of self.now))) 4 && (have_heads count (ended_rules (sofar_of self.now)) && same_bool (is_some self.now.asked.class) (count == 2))) }
    {
        self.ended_rules() < RULES_MOST
            && self.has_arity(count)
            && agree(self.asked.class.is_some(), count == 2)
    }

    /// Whether all rules of the query that is begun, its last one with them, have so many heads.
    fn has_arity(&self, count: u8) -> bool
        requires usable { IsUsable self.now }
        ensures { result ≡ have_heads count (ended_rules (sofar_of self.now)) }
    {
        may_share(self.ended_rules(), self.heads.count, count)
    }

    /// Ends the rule that is begun, if its last line is that of a conjunct.
    fn end_rule(&mut self) -> Result<(), AllocError>
        requires usable { IsUsable self.old }
        requires occur { after_conjunct self.old.last ≡ true → heads_occur (sofar_of self.old) ≡ true }
        ensures { OnOk result (IsRuleEnded self.old self.new) }
    {
        if is_after_conjunct(self.last) {
            self.builder.end_rule(self.heads)?;
            self.ends.clear();
            self.rules += 1;
        }
        Ok(())
    }

    /// Ends the query that is begun, if its last line is that of a conjunct.
    fn end_query(&mut self, alloc: Global, arena: &'a Arena) -> Result<(), AllocError>
        requires usable { IsUsable self.old }
        requires occur { after_conjunct self.old.last ≡ true → heads_occur (sofar_of self.old) ≡ true }
        ensures { OnOk result (IsQueryEnded self.old self.new) }
    {
        self.end_rule()?;
        let next = QueryBuilder::new(alloc, arena, &self.front.edge_labels)?;
        let builder = mem::replace(&mut self.builder, next);
        self.rules = 0;
        self.heads = NO_HEADS;
        if !is_after_conjunct(self.last) {
            return Ok(());
        }
        let asked = self.asked;
        let query = builder.finish(asked.shape, asked.class, asked.wide)?;
        self.queries.push(query)?;
        Ok(())
    }
}

/// Whether a rule may have so many heads after some rules with another number of heads.
fn may_share(rules: u8, arity: u8, count: u8) -> bool
    ensures { result ≡ ((rules == 0) || (arity == count)) }
{
    rules == 0 || arity == count
}

/// Whether both hold, or neither.
fn agree(a: bool, b: bool) -> bool
    ensures { result ≡ same_bool a b }
{
    a == b
}

/// Whether the query may be the next: it has the next number, and two classes or none.
fn is_next_query(queries: usize, word: &[u8], asked: Asked) -> bool
    requires { IsCanonical word.now }
    ensures { result ≡ is_next_query queries (number word.now) (asked_view asked) }
{
    queries < QUERIES_MOST
        && is_number(word, queries as u64)
        && agree(asked.class.is_some(), asked.wide.is_some())
}

/// The least of the rules 6 to 8 that words break.
fn broken_by(facts: Facts, star: bool) -> Option<u8>
    ensures { result ≡ broken_by_facts facts star }
{
    if !facts.chains {
        Some(6)
    } else if !facts.same {
        Some(7)
    } else if star && !facts.back {
        Some(8)
    } else {
        None
    }
}
