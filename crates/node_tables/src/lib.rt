//! Relations of the nodes of a graph as lists: each list is that of the pairs of nodes that pass a test.
#![tactic(auto)]

mod nodes;
mod relations;
mod rounds;

pub use nodes::{Relation, nodes_of, select};
pub use relations::{Either, Further, Joined, OrSame, has};
pub use rounds::repeated;
