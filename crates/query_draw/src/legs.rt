//! The legs of a rule: the type from which each conjunct leads, and its move.

use sel_graph::Move;

/// The type from which a conjunct leads, and its move.
#[derive(Clone, Copy, Debug, PartialEq, Eq)]
pub(crate) struct Leg {
    /// The type of the conjunct's first variable.
    pub from: u8,
    /// Where it leads, and how.
    pub via: Move,
}
