//! The wide class of a query: what the classes of all paths along its labels are at most.

ghost use Rattle.std.specs.Prelude.{◌≡◌, ◌≤◌, true, length, take, IfOk};
ghost use Rattle.std.specs.List.{list_all};
ghost use Rattle.sel_algebra.specs.Table.{entry};
ghost use Rattle.skeletons.specs.Skeleton.{spine_of};
ghost use Rattle.query_terms.specs.Values.{is_word, is_conjunct, is_rule};
ghost use Rattle.query_terms.specs.Spans.{lies};
ghost use Rattle.query_terms.specs.Lists.{words_in, conjunct_in, conjuncts_in, rule_in};
ghost use Rattle.query_terms.specs.View.{query_value};
ghost use Rattle.query_draw.specs.Columns.{AreColumns};
ghost use Rattle.query_draw.specs.Work.{IsWork};
ghost use Rattle.query_draw.specs.Wide.{union_matrix, conjunct_matrix, spine_matrix, rule_wide, query_wide};

use crate::along::{Work, follow_word};
use crate::classes::greatest_class;
use crate::products::{close, multiply};
use gm_text::Span;
use query_terms::{Conjunct, Query, Rule, part_of};
use schema_graph::Schema;
use sel_algebra::{Class, Shape, greater_class};
use std::alloc::{AllocError, Global};
use std::mem;

/// The wide class of a query over a schema, whose edges its symbols name.
pub(crate) fn wide_class(
    alloc: Global,
    schema: &Schema,
    query: &Query<'_>,
) -> Result<Option<Class>, AllocError>
    requires { length query.now.labels.now ≡ length schema.now.edges }
    ensures { IfOk result (λ wide. wide ≡ query_wide schema.now query.now.shape (query_value query.now).rules) }
{
    if query.arity() != 2 {
        return Ok(None);
    }
    let mut work = Work::new(alloc, schema)?;
    let mut wide = None;
    for rule in query.rules {
        let class = rule_wide(schema, query, rule, &mut work);
        wide = greater_class(wide, class);
    }
    Ok(wide)
}

/// The wide class of a rule: the greatest class in the matrix of its spine.
fn rule_wide(schema: &Schema, query: &Query<'_>, rule: &Rule, work: &mut Work) -> Option<Class>
    requires lies { lies (length query.now.conjuncts.now) rule.now.conjuncts ≡ true }
    requires edges { is_rule (length schema.now.edges) (rule_in (conjuncts_in query.now.symbols.now query.now.words.now query.now.conjuncts.now) rule.now) ≡ true }
    requires work { IsWork schema.now work.old }
    ensures value { result ≡ rule_wide schema.now query.now.shape (rule_in (conjuncts_in query.now.symbols.now query.now.words.now query.now.conjuncts.now) rule.now) }
    ensures work { IsWork schema.now work.new }
{
    let conjuncts = part_of(query.conjuncts, rule.conjuncts);
    let spine = first(conjuncts, spine_of(query.shape, conjuncts.len()));
    follow_spine(schema, query, spine, work);
    greatest_class(schema.kinds(), &work.spine)
}

/// How many of so many conjuncts are the spine of a rule of this shape.
fn spine_of(shape: Shape, count: usize) -> usize
    requires { 1 ≤ count }
    ensures value { result ≡ spine_of shape count }
    ensures within { result ≤ count }
{
    match shape {
        Shape::Chain => count,
        Shape::Star => 1,
        Shape::Cycle | Shape::StarChain => count.div_ceil(2),
    }
}

/// Works out the product of the matrices of conjuncts.
fn follow_spine(schema: &Schema, query: &Query<'_>, conjuncts: &[Conjunct], work: &mut Work)
    requires lie { list_all (λ c. lies (length query.now.words.now) c.words) conjuncts.now ≡ true }
    requires edges { list_all (is_conjunct (length schema.now.edges)) (conjuncts_in query.now.symbols.now query.now.words.now conjuncts.now) ≡ true }
    requires work { IsWork schema.now work.old }
    ensures spine { AreColumns (length schema.now.kinds) work.new.spine (entry (spine_matrix schema.now (conjuncts_in query.now.symbols.now query.now.words.now conjuncts.now))) }
    ensures work { IsWork schema.now work.new }
{
    work.spine.enter_equal();
    for conjunct in conjuncts {
        follow_conjunct(schema, query, conjunct, work);
        multiply(
            schema.kinds(),
            work.growing,
            &work.spine,
            &work.union,
            &mut work.longer,
        );
        mem::swap(&mut work.spine, &mut work.longer);
    }
}

/// Works out the matrix of a conjunct: the join of its words, and the closure of that where it is starred.
fn follow_conjunct(schema: &Schema, query: &Query<'_>, conjunct: &Conjunct, work: &mut Work)
    requires lies { lies (length query.now.words.now) conjunct.now.words ≡ true }
    requires edges { is_conjunct (length schema.now.edges) (conjunct_in (words_in query.now.symbols.now query.now.words.now) conjunct.now) ≡ true }
    requires work { IsWork schema.now work.old }
    ensures union { AreColumns (length schema.now.kinds) work.new.union (entry (conjunct_matrix schema.now (conjunct_in (words_in query.now.symbols.now query.now.words.now) conjunct.now))) }
    ensures work { IsWork schema.now work.new }
    ensures spine { work.new.spine ≡ work.old.spine }
{
    let words = part_of(query.words, conjunct.words);
    join_words(schema, query, words, work);
    if conjunct.star {
        close(
            schema.kinds(),
            work.growing,
            &work.union,
            &mut work.word,
            &mut work.longer,
        );
        mem::swap(&mut work.union, &mut work.word);
    }
}

/// Works out the join of the matrices of words.
fn join_words(schema: &Schema, query: &Query<'_>, words: &[Span], work: &mut Work)
    requires lie { list_all (lies (length query.now.symbols.now)) words.now ≡ true }
    requires edges { list_all (is_word (length schema.now.edges)) (words_in query.now.symbols.now words.now) ≡ true }
    requires work { IsWork schema.now work.old }
    ensures union { AreColumns (length schema.now.kinds) work.new.union (entry (union_matrix schema.now (words_in query.now.symbols.now words.now))) }
    ensures work { IsWork schema.now work.new }
    ensures spine { work.new.spine ≡ work.old.spine }
{
    work.union.clear();
    for span in words {
        follow_word(schema, part_of(query.symbols, *span), work);
        work.union.join(&work.word);
    }
}

/// The first items of a list.
fn first<T>(items: &[T], count: usize) -> &[T]
    requires { count ≤ length items.now }
    ensures { result.now ≡ take count items.now }
{
    &items[..count]
}
