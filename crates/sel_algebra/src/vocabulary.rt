/// How the pairs of a path grow with the graph: a growth operator.
///
/// Its printed forms are `=`, `<`, `>`, `<>` and `x`. Operators are ordered by how much they let grow:
/// `Equal` is below `Less` and `Greater`, which are not comparable, these are below `Diamond`, and
/// `Diamond` is below `Cross`.
#[derive(Clone, Copy, Debug, PartialEq, Eq)]
pub enum Op {
    /// `=`: a node has a bounded number of partners on both sides.
    Equal,
    /// `<`: a start node may have a number of ends that grows.
    Less,
    /// `>`: an end node may have a number of starts that grows.
    Greater,
    /// `<>`: both numbers may grow.
    Diamond,
    /// `x`: the pairs may be as many as those of a Cartesian product.
    Cross,
}

/// Whether the number of nodes of a type grows with the graph.
#[derive(Clone, Copy, Debug, PartialEq, Eq)]
pub enum Kind {
    /// The type has the same number of nodes in each graph.
    Fixed,
    /// The type has a share of the nodes of the graph.
    Growing,
}

/// An estimate of how the number of pairs grows with the number of nodes. The order is that of the
/// variants.
#[derive(Clone, Copy, Debug, PartialEq, Eq, PartialOrd, Ord)]
pub enum Class {
    /// It is bounded.
    Constant,
    /// It grows at most as the number of nodes.
    Linear,
    /// It grows at most as the square of the number of nodes.
    Quadratic,
}

/// How the conjuncts of a query hang together.
#[derive(Clone, Copy, Debug, PartialEq, Eq)]
pub enum Shape {
    /// One path.
    Chain,
    /// Conjuncts that all start at one variable.
    Star,
    /// Two paths with the same ends.
    Cycle,
    /// One path, and conjuncts that start at its variables.
    StarChain,
}

/// One use of an edge of the schema, along it or against it.
#[derive(Clone, Copy, Debug, PartialEq, Eq, Hash)]
pub struct Symbol {
    /// The number of the schema edge, which is that of its constraint.
    pub edge: u8,
    /// Whether it is used against its direction.
    pub back: bool,
}
