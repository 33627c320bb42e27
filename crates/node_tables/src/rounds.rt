//! Repetitions of a relation.

ghost use Rattle.std.specs.Prelude.{◌≡◌, length, IfOk};
ghost use Rattle.std.specs.List.Sorted.{IsStrictlySortedBy};
ghost use Rattle.std.specs.Ordering.{nat_cmp};
ghost use Rattle.node_tables.specs.Tables.{rounds};

use crate::nodes::select;
use crate::relations::{Further, OrSame};
use graph_text::Pairs;
use std::alloc::{AllocError, Global};

/// The pairs of nodes that any number of steps lead between, after as many rounds as there are nodes.
pub fn repeated(alloc: Global, nodes: &[u32], step: &[(u32, u32)]) -> Result<Pairs, AllocError>
    requires { IsStrictlySortedBy nat_cmp nodes.now }
    ensures { IfOk result (λ pairs. pairs ≡ rounds nodes.now step.now (length nodes.now)) }
{
    let mut pairs = select(alloc, nodes, &OrSame { pairs: &[] })?;
    for _round in 0..nodes.len() {
        let before = pairs.as_slice();
        pairs = select(
            alloc,
            nodes,
            &Further {
                nodes,
                pairs: before,
                step,
            },
        )?;
    }
    Ok(pairs)
}
