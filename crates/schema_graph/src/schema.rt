//! A schema, and what its symbols are.

ghost use Rattle.std.specs.Prelude.{◌≡◌, ◌<◌, length, slice_get, Some, IfOk};
ghost use Rattle.sel_algebra.specs.Table.{kind_at, IsMatrix};
ghost use Rattle.schema_graph.specs.Edge.{edge_at, use_of, start_of, end_of, op_of, label_of, IsSchemaEdge};
ghost use Rattle.schema_graph.specs.Symbols.{symbols_of};
ghost use Rattle.schema_graph.specs.Schema.{IsSchema};
ghost use Rattle.schema_graph.specs.Labelled.{matrix_of, HasOperators};
ghost use Rattle.schema_graph.specs.Configured.{schema_of};

use crate::configured::{edges_of, kinds_of};
use crate::edge::{SchemaEdge, taken};
use crate::labelled::enter_edge;
use crate::symbols::symbol_lists;
use gm_config::Config;
use gm_text::Items;
use sel_algebra::{Kind, Matrix, Op, Symbol};
use std::alloc::{AllocError, Global};
use std::marker::Model;

/// The types of a graph and the edges between them, by their numbers.
///
/// The types are at most [`TYPES_MOST`](crate::TYPES_MOST) and the edges at most
/// [`EDGES_MOST`](crate::EDGES_MOST). An edge's operator is normal for the kinds of its ends, its label
/// is below [`LABELS_MOST`](crate::LABELS_MOST), and no other edge has its source, label and target.
#[derive(Drop)]
pub struct Schema {
    kinds: Vec<Kind>,
    edges: Vec<SchemaEdge>,
    /// For each type the symbols that start there.
    symbols: Vec<Items<Symbol>>,
}

impl Model for Schema {
    ghost use Rattle.schema_graph.specs.Schema.{SchemaValue, HasSymbols};

    ghost Value = { SchemaValue };

    ghost view = { λ s. record { kinds = s.kinds.items; edges = s.edges.items } };

    ghost invariant = { λ s. HasSymbols record { kinds = s.kinds.items; edges = s.edges.items } s.symbols.items };
}

impl Schema {
    /// The schema of these kinds of types and these edges.
    pub fn new(
        alloc: Global,
        kinds: Vec<Kind>,
        edges: Vec<SchemaEdge>,
    ) -> Result<Schema, AllocError>
        requires { IsSchema record { kinds = kinds.items; edges = edges.items } }
        ensures value { IfOk result (λ schema. schema ≡ record { kinds = kinds.items; edges = edges.items }) }
        ensures schema { IfOk result (λ schema. IsSchema schema) }
    {
        let symbols = symbol_lists(alloc, kinds.len() as u8, &edges)?;
        Ok(Schema {
            kinds,
            edges,
            symbols,
        })
    }

    /// The schema of a configuration, whose edges are the constraints, with their numbers.
    ///
    /// A type with a share of the nodes is growing, and one with a number of nodes is fixed. Between
    /// growing types an edge's operator is `<` where only its out side is `zipf`, `>` where only its in
    /// side is, `<>` where both are, and `=` otherwise. Elsewhere it is the one operator that is normal.
    pub fn of(alloc: Global, config: &Config) -> Result<Schema, AllocError>
        ensures value { IfOk result (λ schema. schema ≡ schema_of config.now) }
        ensures schema { IfOk result (λ schema. IsSchema schema) }
    {
        let kinds = kinds_of(alloc, config)?;
        let edges = edges_of(alloc, config, &kinds)?;
        Schema::new(alloc, kinds, edges)
    }

    /// The same schema again.
    pub fn copy(&self, alloc: Global) -> Result<Schema, AllocError>
        ensures { IfOk result (λ schema. schema ≡ self.now) }
    {
        Schema::new(alloc, self.kinds.to_vec(alloc)?, self.edges.to_vec(alloc)?)
    }

    /// The number of its types, at most [`TYPES_MOST`](crate::TYPES_MOST).
    pub fn kind_count(&self) -> u8
        ensures count { result ≡ length self.now.kinds }
        ensures schema { IsSchema self.now }
    {
        self.kinds.len() as u8
    }

    /// The number of its edges, at most [`EDGES_MOST`](crate::EDGES_MOST).
    pub fn edge_count(&self) -> u8
        ensures count { result ≡ length self.now.edges }
        ensures schema { IsSchema self.now }
    {
        self.edges.len() as u8
    }

    /// The kinds of its types.
    pub fn kinds(&self) -> &[Kind]
        ensures kinds { result.now ≡ self.now.kinds }
        ensures schema { IsSchema self.now }
    {
        self.kinds.as_slice()
    }

    /// The kind of a type.
    pub fn kind(&self, t: u8) -> Kind
        requires { t < length self.now.kinds }
        ensures kind { result ≡ kind_at self.now.kinds t }
        ensures schema { IsSchema self.now }
    {
        self.kinds[t as usize]
    }

    /// The edge with a number.
    pub fn edge(&self, e: u8) -> SchemaEdge
        requires { e < length self.now.edges }
        ensures edge { result ≡ edge_at self.now.edges e }
        ensures within { IsSchemaEdge self.now.kinds result }
        ensures schema { IsSchema self.now }
    {
        self.edges[e as usize]
    }

    /// The type at which a symbol starts: the source of its edge, and against the edge the target.
    pub fn start_of(&self, symbol: Symbol) -> u8
        requires { symbol.edge < length self.now.edges }
        ensures start { result ≡ start_of self.now.edges symbol }
        ensures within { IsSchemaEdge self.now.kinds (use_of self.now.edges symbol) }
        ensures schema { IsSchema self.now }
    {
        self.use_of(symbol).source
    }

    /// The type at which a symbol ends: the target of its edge, and against the edge the source.
    pub fn end_of(&self, symbol: Symbol) -> u8
        requires { symbol.edge < length self.now.edges }
        ensures finish { result ≡ end_of self.now.edges symbol }
        ensures within { IsSchemaEdge self.now.kinds (use_of self.now.edges symbol) }
        ensures schema { IsSchema self.now }
    {
        self.use_of(symbol).target
    }

    /// The operator of a symbol: that of its edge, and against the edge its mirror.
    pub fn op_of(&self, symbol: Symbol) -> Op
        requires { symbol.edge < length self.now.edges }
        ensures op { result ≡ op_of self.now.edges symbol }
        ensures within { IsSchemaEdge self.now.kinds (use_of self.now.edges symbol) }
        ensures schema { IsSchema self.now }
    {
        self.use_of(symbol).op
    }

    /// The label of a symbol.
    pub fn label_of(&self, symbol: Symbol) -> u8
        requires { symbol.edge < length self.now.edges }
        ensures label { result ≡ label_of self.now.edges symbol }
        ensures within { IsSchemaEdge self.now.kinds (use_of self.now.edges symbol) }
        ensures schema { IsSchema self.now }
    {
        self.use_of(symbol).label
    }

    /// The number of symbols that start at a type.
    pub fn symbol_count(&self, t: u8) -> u32
        requires { t < length self.now.kinds }
        ensures count { result ≡ length (symbols_of self.now.edges t) }
        ensures schema { IsSchema self.now }
    {
        self.symbols_at(t).len() as u32
    }

    /// The n-th symbol that starts at a type, from 0.
    ///
    /// The symbols are in the order of their edges, and along an edge comes before against it.
    pub fn symbol_from(&self, t: u8, n: u32) -> Symbol
        requires t { t < length self.now.kinds }
        requires n { n < length (symbols_of self.now.edges t) }
        ensures symbol { slice_get (symbols_of self.now.edges t) n ≡ Some result }
        ensures edge { result.edge < length self.now.edges }
        ensures start { start_of self.now.edges result ≡ t }
        ensures schema { IsSchema self.now }
    {
        self.symbols_at(t)[n as usize]
    }

    /// The operators of a label, along its edges or against them: of all edges with this label, each at its two ends.
    ///
    /// Between two types with no such edge there is no entry.
    pub fn matrix_of(&self, alloc: Global, label: u8, back: bool) -> Result<Matrix, AllocError>
        ensures value { IfOk result (λ matrix. matrix ≡ matrix_of self.now label back) }
        ensures operators { IfOk result (HasOperators self.now label back) }
        ensures matrix { IfOk result IsMatrix }
    {
        let mut matrix = Matrix::zero(alloc, self.kinds())?;
        for edge in &self.edges {
            enter_edge(&mut matrix, taken(*edge, back), label);
        }
        Ok(matrix)
    }

    /// The symbols that start at a type.
    fn symbols_at(&self, t: u8) -> &[Symbol]
        requires { t < length self.now.kinds }
        ensures symbols { result.now ≡ symbols_of self.now.edges t }
        ensures schema { IsSchema self.now }
    {
        self.symbols[t as usize].as_slice()
    }

    /// The edge as a symbol takes it.
    fn use_of(&self, symbol: Symbol) -> SchemaEdge
        requires { symbol.edge < length self.now.edges }
        ensures edge { result ≡ use_of self.now.edges symbol }
        ensures within { IsSchemaEdge self.now.kinds result }
        ensures schema { IsSchema self.now }
    {
        taken(self.edge(symbol.edge), symbol.back)
    }
}
