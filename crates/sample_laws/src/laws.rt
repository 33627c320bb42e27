//! The laws of the sample. Each is the contract of a function that does nothing.
ghost use Rattle.sample_laws.specs.Laws.{SampleQueriesCanBeDrawn, SampleTotalsAreSmall, SampleIsWithinLimit};

/// Each query of the sample can be drawn, whatever its number.
pub fn sample_queries_can_be_drawn()
    ensures { SampleQueriesCanBeDrawn }
{}

/// No side of a constraint of the sample has more than 2,500,000 stubs.
pub fn sample_totals_are_small()
    ensures { SampleTotalsAreSmall }
{}

/// No side of a constraint of the sample has more stubs than a side may have.
pub fn sample_is_within_limit()
    ensures { SampleIsWithinLimit }
{}
