//! Paths over the labels of a graph, as trees: of a symbol, of a word, and of the words of a conjunct.
#![tactic(auto)]

pub mod laws;
