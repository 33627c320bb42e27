//! The laws of printed texts. Each is the contract of a function that does nothing.
ghost use Rattle.sparql_emit.specs.Examples.{TextsOfPaths, TextsOfQueries};
ghost use Rattle.sparql_emit.specs.Laws.{TextHasReading, VariablesDiffer};
ghost use Rattle.sparql_emit.specs.RowLaws.{TextKeepsRows};

/// The text of a query asks what the query does.
pub fn text_has_reading()
    ensures { TextHasReading }
{}

/// Different variables of a rule have different names in its text.
pub fn variables_differ()
    ensures { VariablesDiffer }
{}

/// Over every graph, what the text of a query asks has the rows of the query.
pub fn text_keeps_rows()
    ensures { TextKeepsRows }
{}

/// The texts of some paths and queries.
pub fn texts_of_examples()
    ensures paths { TextsOfPaths }
    ensures queries { TextsOfQueries }
{}
