ghost use Rattle.std.specs.Prelude.{◌≡◌, ◌<◌, ◌↔◌, Some, true, false, is_ok, [], length, slice_get, Contains, IsErr, IfOk, OnOk, OnErr, ◌⊎◌};
ghost use Rattle.std.specs.Option.{option_map};
ghost use Rattle.gm_io.specs.Count.{raised, HasCause};
ghost use Rattle.gm_io.specs.Folder.{Creates, Writes, KeepsFiles};
ghost use Rattle.gm_io.specs.MemFolder.{IsFailing, failed, created, written, partly_written, finished, counted};

use crate::fault_plans::FaultPlan;
use crate::file_stores::FileStore;
use crate::writing::{Failed, Folder};
use std::alloc::{AllocError, Global};
use std::marker::Model;

/// A folder in memory, some of whose calls fail. It tells its files.
#[derive(Drop)]
pub struct MemFolder {
    store: FileStore,
    unfinished: bool,
    plan: FaultPlan,
    keep: usize,
}

impl Model for MemFolder {
    ghost use Rattle.std.specs.Prelude.{◌≡◌, ◌<◌, true, length};
    ghost use Rattle.gm_io.specs.MemFolder.{FolderState};

    ghost Value = { FolderState };

    ghost view = { λ f. record {
      files = f.store.files;
      unfinished = f.unfinished;
      calls = f.plan.calls;
      faults = f.plan.faults;
      failing = f.plan.failing;
      keep = f.keep;
      spare_files = f.store.spare_files;
      room = f.store.room;
    } };

    ghost invariant = { λ f. f.unfinished ≡ true → 0 < length f.store.files };
}

impl MemFolder {
    /// An empty folder whose calls with the numbers in `failing` fail, where the first call of any kind is 1.
    ///
    /// It takes the memory for so many files, and for `room` bytes of their names and contents together,
    /// at once. What is past that doesn't fit, and fails too. A failed write keeps at most the first `keep`
    /// bytes of its piece. Numbers and counts stop at the greatest u64.
    pub fn new(
        alloc: Global,
        failing: Vec<u64>,
        keep: usize,
        files: usize,
        room: usize,
    ) -> Result<Self, AllocError>
        ensures { IfOk result (λ folder. folder ≡ record {
          files = [];
          unfinished = false;
          calls = 0;
          faults = 0;
          failing = failing.items;
          keep = keep;
          spare_files = files;
          room = room;
        }) }
    {
        Ok(MemFolder {
            store: FileStore::new(alloc, files, room)?,
            unfinished: false,
            plan: FaultPlan::new(failing),
            keep,
        })
    }

    /// The number of files, an unfinished one among them.
    pub fn file_count(&self) -> usize
        ensures { result ≡ length self.now.files }
    {
        self.store.len()
    }

    /// The name of the file at this index, in the order of creation.
    pub fn name(&self, i: usize) -> &str
        requires { i < length self.now.files }
        ensures { option_map (λ file. file.0) (slice_get self.now.files i) ≡ Some result.now }
    {
        self.store.name(i)
    }

    /// The bytes of the file at this index, in the order of creation.
    pub fn bytes(&self, i: usize) -> &[u8]
        requires { i < length self.now.files }
        ensures { option_map (λ file. file.1) (slice_get self.now.files i) ≡ Some result.now }
    {
        self.store.bytes(i)
    }
}

impl Folder for MemFolder {
    ghost files = { λ f. Some f.files };

    ghost unfinished = { λ f. f.unfinished };

    ghost calls = { λ f. f.calls };

    ghost faults = { λ f. f.faults };

    fn create(&mut self, name: &str) -> Result<(), Failed>
        requires { self.old.unfinished ≡ false }
        ensures files { Creates (Some self.old.files) (Some self.new.files) result name.now }
        ensures unfinished { self.new.unfinished ≡ is_ok result }
        ensures calls { self.new.calls ≡ raised self.old.calls 1 }
        ensures cause { HasCause self.old.faults self.new.faults result }

        // It fails by plan, without a spare file, and where there is no room for the name.
        ensures fails { IsErr result ↔ (IsFailing self.old ⊎ (self.old.spare_files ≡ 0) ⊎ (self.old.room < length name.now)) }
        ensures done { OnOk result (self.new ≡ created self.old name.now) }
        ensures failed { OnErr result (self.new ≡ failed self.old) }
    {
        if self.plan.next_call_fails() || !self.store.fits_file(name) {
            return Err(self.plan.fault());
        }
        self.store.add(name);
        self.unfinished = true;
        Ok(())
    }

    fn write(&mut self, piece: &[u8]) -> Result<(), Failed>
        requires { self.old.unfinished ≡ true }
        ensures files { Writes (Some self.old.files) (Some self.new.files) result piece.now }
        ensures unfinished { self.new.unfinished ≡ true }
        ensures calls { self.new.calls ≡ raised self.old.calls 1 }
        ensures cause { HasCause self.old.faults self.new.faults result }

        // It fails by plan, and where there is no room for the piece.
        ensures fails { IsErr result ↔ (IsFailing self.old ⊎ (self.old.room < length piece.now)) }
        ensures done { OnOk result (self.new ≡ written self.old piece.now) }
        ensures failed { OnErr result (self.new ≡ partly_written self.old piece.now) }
    {
        let room = self.store.room();
        if self.plan.next_call_fails() || room < piece.len() {
            let kept = self.keep.min(piece.len()).min(room);
            self.store.append(&piece[..kept]);
            return Err(self.plan.fault());
        }
        self.store.append(piece);
        Ok(())
    }

    fn finish(&mut self) -> Result<(), Failed>
        requires { self.old.unfinished ≡ true }
        ensures files { KeepsFiles (Some self.old.files) (Some self.new.files) }
        ensures unfinished { self.new.unfinished ≡ false }
        ensures calls { self.new.calls ≡ raised self.old.calls 1 }
        ensures cause { HasCause self.old.faults self.new.faults result }

        // It fails by plan alone.
        ensures fails { IsErr result ↔ IsFailing self.old }
        ensures done { OnOk result (self.new ≡ finished (counted self.old)) }
        ensures failed { OnErr result (self.new ≡ finished (failed self.old)) }
    {
        self.unfinished = false;
        if self.plan.next_call_fails() {
            return Err(self.plan.fault());
        }
        Ok(())
    }
}
