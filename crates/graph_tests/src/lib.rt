//! Tests of words and lines, of sources and folders, of draws, degrees and edges, and of their texts and files.
//!
//! They stand above the crates that they test, since a crate with tests of its own is proved twice.
#![tactic(auto)]

#[cfg(test)]
mod degree_table_tests;
#[cfg(test)]
mod edge_match_tests;
#[cfg(test)]
mod gm_files_tests;
#[cfg(test)]
mod gm_io_tests;
#[cfg(test)]
mod gm_text_tests;
#[cfg(test)]
mod graph_text_tests;
#[cfg(test)]
mod seeded_draw_tests;
