//! Laws of decimals: each is a function that does nothing, and ensures it.

ghost use Rattle.gm_text.specs.Decimal.{CanonicalIsWritten, WrittenIsCanonical};

/// What `write_decimal` writes of a number is canonical, and has the number as its value.
pub fn written_is_canonical()
    ensures { WrittenIsCanonical }
{}

/// A canonical word whose value fits a `u64` is what `write_decimal` writes of that value.
pub fn canonical_is_written()
    ensures { CanonicalIsWritten }
{}
