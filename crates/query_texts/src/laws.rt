//! The law of the texts of queries: the contract of a function that does nothing.

ghost use Rattle.query_texts.specs.Texts.{TextsMeanTheirQuery};

/// The texts of a query that keeps the rules of a head mean the query.
pub fn texts_mean_their_query()
    ensures { TextsMeanTheirQuery }
{}
