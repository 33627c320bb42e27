//! The commands of `gmark`, from the words of a command line and the bytes of an input to files.
//!
//! [`run`] finds the command that the words ask for. Each command has a module with two functions: `decided` makes
//! of the bytes of its input a refusal or the work that is to be done, and makes no file. `written` makes the files
//! of that work, one after the other. [`laws`] has what is true of all commands and inputs.
#![tactic(auto)]

mod commands;
mod generating;
mod generation;
mod graph_file;
pub mod laws;
mod outcomes;
mod outlines;
mod putting;
mod query_files;
mod sampling;
mod top;
mod translating;
mod work;
mod workload_file;

pub use commands::Command;
pub use outcomes::Outcome;
pub use top::run;
