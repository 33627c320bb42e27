ghost use Rattle.std.specs.Prelude.{◌≡◌, ◌≤◌, ◌↔◌, Some, min, length, drop, Contains, IsErr, IfOk, OnOk, OnErr};
ghost use Rattle.std.specs.Io.{ReadsAtMost};
ghost use Rattle.std.specs.Io.KnownBytes.{ReadConsumes};
ghost use Rattle.gm_io.specs.Count.{raised, HasCause};
ghost use Rattle.gm_io.specs.Source.{GivesCount};
ghost use Rattle.gm_io.specs.MemSource.{InputState};

use crate::fault_plans::FaultPlan;
use crate::reading::Source;
use crate::writing::Failed;
use std::io::Read;
use std::marker::Model;

/// A source in memory, some of whose calls fail. It tells the bytes that are left.
#[derive(Drop)]
pub struct MemSource {
    bytes: Vec<u8>,
    taken: usize,
    plan: FaultPlan,
}

impl Model for MemSource {
    ghost Value = { InputState };

    ghost view = { λ s. record {
      left = drop s.taken s.bytes.items;
      given = s.taken;
      calls = s.plan.calls;
      faults = s.plan.faults;
      failing = s.plan.failing;
    } };

    ghost invariant = { λ s. s.taken ≤ length s.bytes.items };
}

impl MemSource {
    /// A source that gives these bytes, and whose calls with the numbers in `failing` fail.
    ///
    /// The first call is number 1. Numbers and counts stop at the greatest u64.
    pub fn new(bytes: Vec<u8>, failing: Vec<u64>) -> Self
        ensures { result ≡ record { left = bytes.items; given = 0; calls = 0; faults = 0; failing = failing.items } }
    {
        MemSource {
            bytes,
            taken: 0,
            plan: FaultPlan::new(failing),
        }
    }
}

impl Source for MemSource {
    ghost left = { λ s. Some s.left };

    ghost given = { λ s. s.given };

    ghost calls = { λ s. s.calls };

    ghost faults = { λ s. s.faults };

    fn read(&mut self, buf: &mut [u8]) -> Result<usize, Failed>
        ensures within { ReadsAtMost result buf.new }
        ensures left { ReadConsumes (Some self.old.left) (Some self.new.left) result buf.new }
        ensures given { GivesCount self.old.given self.new.given result }
        ensures calls { self.new.calls ≡ raised self.old.calls 1 }
        ensures cause { HasCause self.old.faults self.new.faults result }

        // It fails by plan alone, and gives as much as there is and fits.
        ensures fails { IsErr result ↔ Contains self.old.failing self.new.calls }
        ensures count { IfOk result (λ n. n ≡ min (length buf.new) (length self.old.left)) }
        ensures plan { self.new.failing ≡ self.old.failing }
        ensures fault { OnErr result (self.new.faults ≡ raised self.old.faults 1) }
        ensures untouched { OnErr result (buf.new ≡ buf.old) }
    {
        if self.plan.next_call_fails() {
            return Err(self.plan.fault());
        }
        // A read of a slice never fails.
        let mut left = &self.bytes[self.taken..];
        let Ok(count) = left.read(buf) else {
            unreachable!();
        };
        self.taken += count;
        Ok(count)
    }
}
