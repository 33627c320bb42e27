//! Laws of workload texts: each is a function that does nothing, and ensures it.

ghost use Rattle.workload_text.specs.Forms.{LinesAreRead};
ghost use Rattle.workload_text.specs.Laws.{OneReading, ReadWhereUnbroken, ReadingIsVerdict, ValuesAreReadBack};

/// A line is what its bytes are read as, and no other.
pub fn lines_are_read()
    ensures { LinesAreRead }
{}

/// The text of a value that keeps the rules breaks none, and says this value.
pub fn values_are_read_back()
    ensures { ValuesAreReadBack }
{}

/// A text has no two readings.
pub fn one_reading()
    ensures { OneReading }
{}

/// The readings of a text are the values that it is said to have.
pub fn reading_is_verdict()
    ensures { ReadingIsVerdict }
{}

/// A text has a reading exactly where no line breaks a rule.
pub fn read_where_unbroken()
    ensures { ReadWhereUnbroken }
{}
