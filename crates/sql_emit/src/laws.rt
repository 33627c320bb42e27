//! Laws of the texts: each is a function that does nothing, and ensures it.

ghost use Rattle.sql_emit.specs.Laws.{TextHasReading};
ghost use Rattle.sql_emit.specs.Rows.{LinksAreQueries, RowsAreLinks, TablesAreTerms};

/// The text of terms and rules says their tables and their selects.
pub fn text_has_reading()
    ensures { TextHasReading }
{}

/// The tables that it says have the pairs of the terms.
pub fn tables_are_terms()
    ensures { TablesAreTerms }
{}

/// The rows of what it says are those of the rules.
pub fn rows_are_links()
    ensures { RowsAreLinks }
{}

/// The rows of a query's rules as links are the rows of the query.
pub fn links_are_queries()
    ensures { LinksAreQueries }
{}
