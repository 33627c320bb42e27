//! The matrix of a word, symbol by symbol and edge by edge, for all types from which a path leads at once.

ghost use Rattle.std.specs.Prelude.{◌≡◌, ◌≤◌, ◌<◌, ◌++◌, length, map, true, false, IfOk, OnOk};
ghost use Rattle.std.specs.List.{list_all, range_with_len};
ghost use Rattle.sel_algebra.specs.Table.{Table, types_most, entry};
ghost use Rattle.schema_graph.specs.Edge.{label_of};
ghost use Rattle.schema_graph.specs.Schema.{IsSchema};
ghost use Rattle.gm_config.specs.Limits.{labels_most};
ghost use Rattle.query_terms.specs.Values.{has_edge};
ghost use Rattle.query_draw.specs.Wide.{word_matrix};
ghost use Rattle.query_draw.specs.Columns.{labelled, edge_if, AreGrowing, AreColumns, JoinsEdge, JoinsSymbol};
ghost use Rattle.query_draw.specs.Work.{IsWork};

use crate::column_list::Columns;
use crate::columns::{followed_column, growing_types, joined_column, normal_column};
use gm_text::Items;
use schema_graph::{LABELS_MOST, Schema};
use sel_algebra::Symbol;
use std::alloc::{AllocError, Global};
use std::mem;

/// What matrices of words are worked out with, over the types of a schema.
#[derive(Drop)]
pub(crate) struct Work {
    /// The set of the growing types.
    pub growing: u64,
    /// For each label the numbers of its edges.
    pub edges: Vec<Items<u8>>,
    /// The matrix of a word.
    pub word: Columns,
    /// The matrix of a word with a further symbol, or of a spine with a further conjunct.
    pub longer: Columns,
    /// The join of the matrices of words, and then the matrix of a conjunct.
    pub union: Columns,
    /// The product of the matrices of conjuncts.
    pub spine: Columns,
}

impl Work {
    /// What is needed for a schema.
    pub(crate) fn new(alloc: Global, schema: &Schema) -> Result<Work, AllocError>
        ensures { IfOk result (IsWork schema.now) }
    {
        let count = schema.kind_count() as usize;
        Ok(Work {
            growing: growing_types(schema.kinds()),
            edges: edge_lists(alloc, schema)?,
            word: Columns::new(alloc, count)?,
            longer: Columns::new(alloc, count)?,
            union: Columns::new(alloc, count)?,
            spine: Columns::new(alloc, count)?,
        })
    }
}

/// For each label the numbers of its edges.
fn edge_lists(alloc: Global, schema: &Schema) -> Result<Vec<Items<u8>>, AllocError>
    ensures { IfOk result (λ lists. lists.items ≡ map (labelled schema.now.edges) (range_with_len 0 labels_most)) }
{
    let mut lists = Vec::new(alloc);
    for label in 0..LABELS_MOST as u8 {
        lists.push(labelled(alloc, schema, label)?)?;
    }
    Ok(lists)
}

/// The numbers of the edges with a label.
fn labelled(alloc: Global, schema: &Schema, label: u8) -> Result<Items<u8>, AllocError>
    ensures { IfOk result (λ edges. edges ≡ labelled schema.now.edges label) }
{
    let mut edges = Vec::new(alloc);
    for edge in 0..schema.edge_count() {
        push_if(schema.edge(edge).label == label, &mut edges, edge)?;
    }
    Ok(Items::of(edges))
}

/// Adds the number of an edge, if it is wanted.
fn push_if(wanted: bool, edges: &mut Vec<u8>, edge: u8) -> Result<(), AllocError>
    ensures { OnOk result (edges.new.items ≡ edges.old.items ++ edge_if wanted edge) }
{
    if wanted {
        edges.push(edge)?;
    }
    Ok(())
}

/// Works out the matrix of a word.
pub(crate) fn follow_word(schema: &Schema, word: &[Symbol], work: &mut Work)
    requires edges { list_all (has_edge (length schema.now.edges)) word.now ≡ true }
    requires work { IsWork schema.now work.old }
    ensures word { AreColumns (length schema.now.kinds) work.new.word (entry (word_matrix schema.now word.now)) }
    ensures work { IsWork schema.now work.new }
    ensures union { work.new.union ≡ work.old.union }
    ensures spine { work.new.spine ≡ work.old.spine }
{
    work.word.enter_equal();
    for symbol in word {
        let edges = work.edges[schema.label_of(*symbol) as usize].as_slice();
        follow_symbol(
            schema,
            work.growing,
            edges,
            *symbol,
            &work.word,
            &mut work.longer,
        );
        mem::swap(&mut work.word, &mut work.longer);
    }
}

/// Makes a matrix the product of another one with the matrix of a symbol, by the edges of its label.
fn follow_symbol(
    schema: &Schema,
    growing: u64,
    edges: &[u8],
    symbol: Symbol,
    matrix: &Columns,
    product: &mut Columns,
)
    requires schema { IsSchema schema.now }
    requires growing { AreGrowing schema.now.kinds growing }
    requires edges { edges.now ≡ labelled schema.now.edges (label_of schema.now.edges symbol) }
    requires matrix { length matrix.now ≡ length schema.now.kinds }
    requires product { length product.old ≡ length schema.now.kinds }
    ensures whole { length product.new ≡ length schema.now.kinds }
    ensures product { JoinsSymbol schema.now symbol matrix.now product.new }
{
    product.clear();
    for edge in edges {
        let next = Symbol {
            edge: *edge,
            back: symbol.back,
        };
        follow_edge(schema, growing, next, matrix, product);
    }
}

/// Joins the paths of a matrix and then along one edge.
fn follow_edge(schema: &Schema, growing: u64, next: Symbol, matrix: &Columns, product: &mut Columns)
    requires growing { AreGrowing schema.now.kinds growing }
    requires next { next.edge < length schema.now.edges }
    requires matrix { length matrix.now ≡ length schema.now.kinds }
    requires product { length product.old ≡ length schema.now.kinds }
    ensures whole { length product.new ≡ length schema.now.kinds }
    ensures joins { JoinsEdge schema.now growing next matrix.now product.old product.new }
{
    let to = schema.end_of(next);
    let from = schema.start_of(next);
    let path = followed_column(matrix.at(from as usize), schema.op_of(next));
    let path = normal_column(path, growing, schema.kind(to));
    product.put(to as usize, joined_column(product.at(to as usize), path));
}
