//! Sides whose degrees are not given: each of their stubs picks a node.

ghost use Rattle.std.specs.Prelude.{◌≡◌, ◌<◌, IfOk, length, replicate, sum, ◌==◌, if◌then◌else◌};
ghost use Rattle.edge_match.specs.FreeSide.{picked_degrees};

use seeded_draw::{Draws, pick};
use std::alloc::{AllocError, Global};

/// The degrees of the nodes of a free side: how many of its stubs pick each node, by words of a stream.
/// Without a node there is no stub. It fails only where memory runs out.
pub(crate) fn counted(
    alloc: Global,
    seed: u64,
    stream: u128,
    nodes: u32,
    stubs: u32,
) -> Result<Vec<u32>, AllocError>
    ensures degrees { IfOk result (λ degrees.
        degrees.items ≡ picked_degrees seed stream nodes stubs) }
    ensures length { IfOk result (λ degrees. length degrees.items ≡ nodes) }
    ensures total { IfOk result (λ degrees.
        sum degrees.items ≡ (if nodes == 0 then 0 else stubs)) }
{
    let mut degrees = vec![in alloc; 0u32; nodes as usize]?;
    if nodes > 0 {
        count_picks(&mut degrees, seed, stream, stubs);
    }
    Ok(degrees)
}

/// Counts the picks of so many stubs.
fn count_picks(degrees: &mut [u32], seed: u64, stream: u128, stubs: u32)
    requires some { 0 < length degrees.old }
    requires zero { degrees.old ≡ replicate (length degrees.old) 0 }
    ensures degrees { degrees.new ≡ picked_degrees seed stream (length degrees.old) stubs }
    ensures total { sum degrees.new ≡ stubs }
{
    let mut draws = Draws::new(seed, stream);
    for _ in 0..stubs {
        let place = pick(draws.next(), degrees.len() as u64) as usize;
        degrees[place] += 1;
    }
}
