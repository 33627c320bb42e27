//! The laws of constant queries. Each is the contract of a function that does nothing.
ghost use Rattle.constant_rows.specs.Laws.{ConstantQueriesAreBounded, ConformingGraphsKeepTypes};

/// Over each graph that keeps to the types of the constraints, a drawn query whose wide class is constant has only rows
/// of two nodes of types with a count, and so at most as many rows as there are pairs of these nodes.
pub fn constant_queries_are_bounded()
    ensures { ConstantQueriesAreBounded }
{}

/// A conforming list of triples is such a graph.
pub fn conforming_graphs_keep_types()
    ensures { ConformingGraphsKeepTypes }
{}
