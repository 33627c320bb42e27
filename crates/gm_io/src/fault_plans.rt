ghost use Rattle.std.specs.Prelude.{◌≡◌, ℕ, List, ◌↔◌, IsTrue, Contains};
ghost use Rattle.gm_io.specs.Count.{raised};
ghost use Rattle.gm_io.specs.FaultPlan.{PlanState};

use crate::writing::Failed;
use std::marker::Model;

/// Which calls of a fake are to fail. It counts calls and faults up to the greatest u64.
#[derive(Drop)]
pub struct FaultPlan {
    failing: Vec<u64>,
    calls: u64,
    faults: u64,
}

impl Model for FaultPlan {
    ghost Value = { PlanState };

    ghost view = { λ p. record { calls = p.calls; faults = p.faults; failing = p.failing.items } };
}

impl FaultPlan {
    /// A plan under which just the calls with these numbers fail, where the first call is 1.
    pub fn new(failing: Vec<u64>) -> Self
        ensures { result ≡ record { calls = 0; faults = 0; failing = failing.items } }
    {
        FaultPlan {
            failing,
            calls: 0,
            faults: 0,
        }
    }

    /// Counts a call, and says whether it is to fail.
    pub fn next_call_fails(&mut self) -> bool
        ensures answer { IsTrue result ↔ Contains self.new.failing self.new.calls }
        ensures after { self.new ≡ record self.old { calls = raised self.old.calls 1 } }
    {
        self.calls = self.calls.saturating_add(1);
        self.failing.contains(&self.calls)
    }

    /// Counts a fault, and gives the error that stands for it.
    pub fn fault(&mut self) -> Failed
        ensures { self.new ≡ record self.old { faults = raised self.old.faults 1 } }
    {
        self.faults = self.faults.saturating_add(1);
        Failed
    }
}
