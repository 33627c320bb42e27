//! Laws of the grammar, each a call without a body.

ghost use Rattle.sparql_read.specs.Text.{ReadingIsOne};

/// No text has two readings.
pub fn reading_is_one()
    ensures { ReadingIsOne }
{}
