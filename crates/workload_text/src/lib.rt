//! Workload texts: a head and queries, written and read.
#![tactic(auto)]

mod fixed;
mod front;
mod head;
mod heads;
pub mod laws;
mod numbers;
mod parts;
mod reader;
mod sorts;
mod state;
mod unions;
mod work;
mod writing;
mod written;

pub use head::WorkHead;
pub use reader::WorkloadError;
pub use work::{Workload, read_workload};
pub use writing::{write_end, write_head, write_query};
