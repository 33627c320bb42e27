//! The laws of summaries. Each is the contract of a function that does nothing.
ghost use Rattle.summary_text.specs.Laws.{ClassTestIsExact, ClassesAddUp, ConstraintsHaveSmallerTotal, QueriesAreCountedOneByOne, ConstraintsAreCountedOneByOne};

/// A query is counted for a class just where the class is its own.
pub fn class_test_is_exact()
    ensures { ClassTestIsExact }
{}

/// Where each query has a class, the numbers of the classes add up to the number of queries.
pub fn classes_add_up()
    ensures { ClassesAddUp }
{}

/// Where a graph conforms to a configuration, the number of each constraint is the smaller of its two totals.
pub fn constraints_have_smaller_total()
    ensures { ConstraintsHaveSmallerTotal }
{}

/// A query more counts for its class, and for nothing where it has none.
pub fn queries_are_counted_one_by_one()
    ensures { QueriesAreCountedOneByOne }
{}

/// A constraint more is the next number of edges.
pub fn constraints_are_counted_one_by_one()
    ensures { ConstraintsAreCountedOneByOne }
{}
