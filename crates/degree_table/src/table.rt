//! The degrees of a specification by their cumulative weights.

ghost use Rattle.std.specs.Prelude.{◌≡◌, ◌≢◌, ℕ, ◌<◌, ◌≤◌, sum, nat_lt, IfOk};
ghost use Rattle.std.specs.List.{position, position_or_len};
ghost use Rattle.std.specs.List.Sorted.{IsNonDecreasing};
ghost use Rattle.seeded_draw.specs.Draw.{pick_of};
ghost use Rattle.gm_config.specs.Limits.{degree_most};
ghost use Rattle.gm_config.specs.DegreeSpec.{IsDegreeSpec};
ghost use Rattle.gm_config.specs.declared.degree_specs.DegreeSpec.TheVariants.{Free};
ghost use Rattle.degree_table.specs.DegreeTable.{table_of, degree_of, cumulative, HoldsPick, IsGreatest};

use crate::weights::{cumulative, least_of, weights_of};
use gm_config::DegreeSpec;
use seeded_draw::pick;
use std::alloc::{AllocError, Global};
use std::marker::Model;

/// So many sums are looked at one by one.
const FIRST_SUMS: usize = 4;

/// The degrees that a specification allows, in ascending order, with their weights and cumulative weights.
#[derive(Drop)]
pub struct DegreeTable {
    least: u32,
    weights: Vec<u64>,
    sums: Vec<u64>,
}

impl Model for DegreeTable {
    ghost use Rattle.degree_table.specs.DegreeTable.{WeightedDegrees, IsTable};

    ghost Value = { WeightedDegrees };

    ghost view = { λ table. record { least = table.least; weights = table.weights.items } };

    ghost invariant = { λ table. IsTable table.least table.weights.items table.sums.items };
}

impl DegreeTable {
    /// The table of a specification that is not free. `opposite` is the number of nodes of the type at the
    /// other side, which a Zipfian specification with no `max` takes in its place. Fails only for want of memory.
    pub fn of(alloc: Global, spec: &DegreeSpec, opposite: u32) -> Result<DegreeTable, AllocError>
        requires limits { IsDegreeSpec spec.now }
        requires not_free { spec.now ≢ Free }
        ensures { IfOk result (λ table. table ≡ table_of spec.now opposite) }
    {
        let weights = weights_of(alloc, spec, opposite)?;
        let sums = cumulative(alloc, &weights)?;
        Ok(DegreeTable {
            least: least_of(spec),
            weights,
            sums,
        })
    }

    /// The sum of all weights, at least 1.
    pub fn total(&self) -> u64
        ensures value { result ≡ sum self.now.weights }
        ensures positive { 1 ≤ result }
    {
        self.sums[self.sums.len() - 1]
    }

    /// The degree that a random word picks: the first whose cumulative weight exceeds `floor(w * total / 2^64)`.
    /// It is at most [`greatest`](DegreeTable::greatest), and its weight is positive.
    pub fn degree_at(&self, w: u64) -> u32
        ensures value { result ≡ degree_of self.now (pick_of w (sum self.now.weights)) }
        ensures holds { HoldsPick self.now (pick_of w (sum self.now.weights)) result }
        ensures limit { result ≤ degree_most }
        ensures within { (greatest : ℕ) → IsGreatest self.now greatest → result ≤ greatest }
    {
        self.degree_past(pick(w, self.total()))
    }

    /// The greatest degree with a positive weight, at most 100,000.
    pub fn greatest(&self) -> u32
        ensures value { IsGreatest self.now result }
        ensures limit { result ≤ degree_most }
    {
        self.degree_past(self.total() - 1)
    }

    /// The first degree whose cumulative weight exceeds `t`.
    fn degree_past(&self, t: u64) -> u32
        requires { t < sum self.now.weights }
        ensures value { result ≡ degree_of self.now t }
        ensures holds { HoldsPick self.now t result }
        ensures limit { result ≤ degree_most }
    {
        self.least + place_past(&self.sums, t) as u32
    }
}

/// The place of the first sum that exceeds `t`. The first sums are looked at one by one, since the least degrees are
/// often those that most words pick.
fn place_past(sums: &[u64], t: u64) -> usize
    requires rising { IsNonDecreasing sums.now }
    ensures { result ≡ position_or_len (nat_lt t) sums.now }
{
    let first = &sums[..sums.len().min(FIRST_SUMS)];
    match first_past(first, t) {
        Some(place) => place,
        None => sums.partition_point(|sum| *sum <= t),
    }
}

/// The place of the first sum that exceeds `t`, if there is one, looked for from the first on.
fn first_past(sums: &[u64], t: u64) -> Option<usize>
    ensures { result ≡ position (nat_lt t) sums.now }
{
    sums.iter().position(|sum| *sum > t)
}
