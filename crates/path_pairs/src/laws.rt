//! The laws of paths. Each is the contract of a function that does nothing.
ghost use Rattle.path_pairs.specs.Laws.{WordGrows, UnionGrows, PairsAreNodes, StarsAgree, StableRoundsAgree, SomeRoundIsStable, WordsLead, UnionsLead};

/// A word with one more symbol is the sequence of the word and the symbol's step.
pub fn a_word_grows_by_a_sequence()
    ensures { WordGrows }
{}

/// A union with one more word is the choice of the union and the word.
pub fn a_union_grows_by_a_choice()
    ensures { UnionGrows }
{}

/// A path leads from nodes of the graph to nodes of the graph.
pub fn pairs_are_nodes()
    ensures { PairsAreNodes }
{}

/// A repetition has the same pairs by lists of neighbours, by visits in as many rounds as there are nodes, and by the
/// rounds of a table until nothing is added.
pub fn stars_agree()
    ensures { StarsAgree }
{}

/// All rounds of a table after which nothing is added have the same pairs.
pub fn stable_rounds_agree()
    ensures { StableRoundsAgree }
{}

/// After as many rounds as there are nodes nothing is added.
pub fn some_round_is_stable()
    ensures { SomeRoundIsStable }
{}

/// The tree of a word leads where its symbols lead, one after the other.
pub fn words_lead()
    ensures { WordsLead }
{}

/// The tree of words leads where one of them leads.
pub fn unions_lead()
    ensures { UnionsLead }
{}
