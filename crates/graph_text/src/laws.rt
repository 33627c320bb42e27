//! Laws of the text of a list of triples: each is a function that does nothing, and ensures it.

ghost use Rattle.graph_text.specs.EdgesText.{ReadingIsUnique};

/// No text is that of two lists of triples in range, so what `write_edges` writes of a list is read back as this list.
pub fn reading_is_unique()
    ensures { ReadingIsUnique }
{}
