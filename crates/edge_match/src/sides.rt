//! The sides of a constraint: nodes and their degrees.

ghost use Rattle.std.specs.Prelude.{◌≡◌, ◌+◌, ◌≤◌, ◌^◌, length, sum};
ghost use Rattle.edge_match.specs.StubLimit.{stubs_most};

/// The most stubs that one side may have.
pub(crate) const STUBS_MOST: u64 = 4_194_304;

/// One side of a constraint: its nodes, each with as many stubs as its degree.
#[derive(Drop)]
pub(crate) struct SideStubs {
    /// The first node. The others follow it, one for each degree.
    pub(crate) first: u32,
    /// The degree of each node.
    pub(crate) degrees: Vec<u32>,
    /// The stream of random words that the keys of the stubs are drawn from.
    pub(crate) stream: u128,
    ghost numbered: { first + length degrees.items ≤ 2 ^ 32 },
    ghost few: { sum degrees.items ≤ stubs_most },
}

/// The number of stubs that nodes with these degrees have.
pub(crate) fn total_of(degrees: &[u32]) -> u64
    requires { length degrees.now ≤ 2 ^ 32 }
    ensures { result ≡ sum degrees.now }
{
    degrees.iter().map(|degree| u64::from(*degree)).sum()
}
