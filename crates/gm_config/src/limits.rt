//! The limits of a configuration.

/// The most nodes of a graph: those asked for, and those of all types together.
pub const NODES_MOST: u32 = 1_000_000;
/// The most types of nodes.
pub const TYPES_MOST: u32 = 64;
/// The most labels of edges.
pub const LABELS_MOST: u32 = 64;
/// The most constraints.
pub const CONSTRAINTS_MOST: u32 = 128;
/// The thousandths of a whole: a type's share of the nodes is given in them.
pub const THOUSAND: u32 = 1000;

/// The greatest degree.
pub const DEGREE_MOST: u32 = 100_000;
/// The greatest exponent of a Zipfian specification.
pub const EXPONENT_MOST: u32 = 3;
/// The greatest weight of a degree.
pub const WEIGHT_MOST: u32 = 1_000_000_000;
/// The most weights of a table: one for each degree from 0.
pub const WEIGHTS_MOST: usize = 100_001;

/// The most queries of a workload.
pub const QUERIES_MOST: u32 = 1000;
/// The greatest share of starred conjuncts, in thousandths.
pub const STAR_MOST: u32 = 1000;
/// The most shapes: all of them.
pub const SHAPES_MOST: usize = 4;
/// The most classes: all of them.
pub const CLASSES_MOST: usize = 3;

/// The limits of a range of the workload.
#[derive(Clone, Copy)]
pub(crate) struct RangeLimits {
    /// The name of its member.
    pub(crate) name: &'static str,
    /// The least number that it begins with.
    pub(crate) least: u32,
    /// The greatest number that it ends with.
    pub(crate) most: u32,
}

/// The number of ranges of a workload.
pub(crate) const RANGE_COUNT: u32 = 5;

/// The limits of the range at an index: of the rules of a query, the conjuncts of a rule, the words
/// of a conjunct, the symbols of a word, and the heads of a query.
pub(crate) const RANGES: [RangeLimits; 5] = [
    RangeLimits {
        name: "rules",
        least: 1,
        most: 4,
    },
    RangeLimits {
        name: "conjuncts",
        least: 1,
        most: 8,
    },
    RangeLimits {
        name: "disjuncts",
        least: 1,
        most: 8,
    },
    RangeLimits {
        name: "length",
        least: 1,
        most: 32,
    },
    RangeLimits {
        name: "arity",
        least: 0,
        most: 4,
    },
];
