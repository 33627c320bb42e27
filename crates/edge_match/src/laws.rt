//! What is true of the edges of all constraints together.

ghost use Rattle.edge_match.specs.AllEdges.{AllEdgesConform, AllEdgesAreOne, SmallerSideIsMet};

/// The edges of all constraints, one constraint after another, conform to the configuration: each of them has
/// the source type, the label and the target type of exactly one constraint, no node has more edges of a
/// constraint than its drawn degree, and each constraint has as many edges as the smaller of its totals.
pub fn all_edges_conform()
    ensures { AllEdgesConform }
{}

/// A configuration and a seed have one list of edges alone.
pub fn all_edges_are_one()
    ensures { AllEdgesAreOne }
{}

/// In each list of triples that conforms, each node has exactly its drawn degree on the side of a constraint that has
/// the smaller total, and on both sides where the totals are equal.
pub fn smaller_side_is_met()
    ensures { SmallerSideIsMet }
{}
