//! The laws of solutions. Each is the contract of a function that does nothing.
ghost use Rattle.sparql_mean.specs.Laws.{SolutionsAreMappings, PathsLeadBetweenNodes};

/// A solution of a group gives no variable two numbers.
pub fn solutions_are_mappings()
    ensures { SolutionsAreMappings }
{}

/// A path leads from nodes of the graph to nodes of the graph.
pub fn paths_lead_between_nodes()
    ensures { PathsLeadBetweenNodes }
{}
