//! Workloads, and their reader.

ghost use Rattle.std.specs.Prelude.{◌≡◌, ◌<◌, ℕ, length, slice_get, Some, Ok, IfOk, IsErrOf};
ghost use Rattle.query_terms.specs.View.{query_value};
ghost use Rattle.workload_text.specs.Lines.{IsReading};
ghost use Rattle.workload_text.specs.Rules.{verdict_of, IsFirstBroken};
ghost use Rattle.workload_text.specs.Values.{IsWork};

use crate::head::WorkHead;
use crate::reader::{WorkloadError, read_lines};
use gm_text::Arena;
use query_terms::Query;
use std::alloc::Global;
use std::marker::Model;

/// A head, and the queries under it.
///
/// They keep the rules on heads and queries.
#[derive(Drop)]
pub struct Workload<'a> {
    head: WorkHead,
    queries: Vec<Query<'a>>,
}

impl<'a> Model for Workload<'a> {
    ghost use Rattle.workload_text.specs.Values.{IsWork, WorkValue};
    ghost use Rattle.workload_text.specs.State.{values_of};

    ghost Value = { WorkValue };

    ghost view = { λ work. record { head = work.head; queries = values_of work.queries.items } };

    ghost invariant = { λ work. IsWork record { head = work.head; queries = values_of work.queries.items } };
}

impl<'a> Workload<'a> {
    /// What the queries are about.
    pub fn head(&self) -> &WorkHead
        ensures head { result.now ≡ self.now.head }
        ensures work { IsWork self.now }
    {
        &self.head
    }

    /// The number of queries.
    pub fn count(&self) -> u32
        ensures count { result ≡ length self.now.queries }
        ensures work { IsWork self.now }
    {
        self.queries.len() as u32
    }

    /// The query with a number, counted from 0.
    pub fn query(&self, i: u32) -> &Query<'a>
        requires { i < length self.now.queries }
        ensures query { slice_get self.now.queries i ≡ Some (query_value result.now) }
        ensures work { IsWork self.now }
    {
        &self.queries[i as usize]
    }
}

/// Reads a workload text, in one pass.
///
/// A text has a reading exactly where no line breaks a rule. Else the first line that breaks one is named, with the least
/// rule that it breaks. The only other error is that of memory.
pub fn read_workload<'a>(
    alloc: Global,
    bytes: &[u8],
    arena: &'a Arena,
) -> Result<Workload<'a>, WorkloadError>
    ensures value { IfOk result (λ work. verdict_of bytes.now ≡ Ok work) }
    ensures reading { IfOk result (λ work. IsReading bytes.now work) }
    ensures bad { (line rule : ℕ) → IsErrOf result (WorkloadError.BadWorkload line rule) → IsFirstBroken bytes.now line rule }
{
    let reading = read_lines(alloc, bytes, arena)?;
    let front = reading.front;
    let head = WorkHead::new(
        alloc,
        front.format,
        front.labels,
        front.types,
        front.kinds,
        front.edges,
    )?;
    Ok(Workload {
        head,
        queries: reading.queries,
    })
}
