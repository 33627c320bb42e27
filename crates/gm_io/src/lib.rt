//! Bytes in and files out, behind two traits that say what a read or a write does.
//!
//! A [`Source`] gives bytes and a [`Folder`] takes files. Contracts see what each has given or taken,
//! how many calls it had and how many faults. [`StdSource`] and [`DirFolder`] are the real ones.
//! [`MemSource`] and [`MemFolder`] are kept in memory and fail where a test says so, and
//! [`SliceSource`] and [`CountFolder`] never fail.
#![tactic(auto)]

mod adapters;
mod count_folders;
mod fault_plans;
mod file_stores;
mod mem_folders;
mod mem_sources;
mod reading;
mod slice_sources;
mod writing;

pub use adapters::{DirFolder, StdSource};
pub use count_folders::CountFolder;
pub use mem_folders::MemFolder;
pub use mem_sources::MemSource;
pub use reading::{INPUT_LIMIT, ReadError, Source, read_all};
pub use slice_sources::SliceSource;
pub use writing::{Failed, Folder};
