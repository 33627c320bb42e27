//! What a command is to write.

use crate::generation::Generation;
use workload_text::Workload;

/// What a command is to write, once nothing of its input is refused.
#[derive(Drop)]
pub enum Work<'a> {
    /// The texts of the queries of a workload.
    Queries(Workload<'a>),
    /// The files of a configuration, each of whose queries can be drawn and none of whose sides has too many stubs.
    Files(Generation),
    /// The same of the sample, and a summary of them.
    Sampled(Generation),
}
