//! A law of SQL texts: a function that does nothing, and ensures it.

ghost use Rattle.sql_read.specs.Text.{ReadingIsOne};

/// No text has two readings.
pub fn reading_is_one()
    ensures { ReadingIsOne }
{}
