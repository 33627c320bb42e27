//! Puts texts into a folder, and names the files of queries.
//!
//! [`put_file`] makes one file, and [`put_all`] the files of a [`FileList`] in order. Both stop at the
//! first call of the folder that fails, and their contracts say what the folder has gained by then. [`Pieces`]
//! makes the same writes of a text that comes part by part.
#![tactic(auto)]

pub mod laws;
mod pieces;
mod putting;
mod texts;

pub use pieces::Pieces;
pub use putting::{PIECE_MOST, WriteFault, put_all, put_file};
pub use texts::{FileBytes, FileList, FileName, FileText, QueryFile, query_name};
