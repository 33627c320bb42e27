ghost use Rattle.std.specs.Prelude.{◌≡◌, length, true, false, None, is_ok, IsOk};
ghost use Rattle.gm_io.specs.Count.{raised, HasCause};
ghost use Rattle.gm_io.specs.Folder.{Creates, Writes, KeepsFiles};

use crate::writing::{Failed, Folder};
use std::marker::Model;

/// A folder that keeps no files, only how many they were. It tells no files, and no call of it fails.
///
/// It counts files, bytes and calls up to the greatest u64.
#[derive(Drop)]
pub struct CountFolder {
    files: u64,
    bytes: u64,
    calls: u64,
    unfinished: bool,
}

impl Model for CountFolder {
    ghost use Rattle.gm_io.specs.CountFolder.{FolderCounts};

    ghost Value = { FolderCounts };

    ghost view = { λ f. record { files = f.files; bytes = f.bytes; calls = f.calls; unfinished = f.unfinished } };
}

impl CountFolder {
    /// A folder with no file unfinished and all counts at 0.
    pub fn new() -> CountFolder
        ensures { result ≡ record { files = 0; bytes = 0; calls = 0; unfinished = false } }
    {
        CountFolder {
            files: 0,
            bytes: 0,
            calls: 0,
            unfinished: false,
        }
    }

    /// The number of files that were created.
    pub fn files(&self) -> u64
        ensures { result ≡ self.now.files }
    {
        self.files
    }

    /// The number of bytes that were written.
    pub fn bytes(&self) -> u64
        ensures { result ≡ self.now.bytes }
    {
        self.bytes
    }

    /// The number of calls of `create`, `write` and `finish`.
    pub fn calls(&self) -> u64
        ensures { result ≡ self.now.calls }
    {
        self.calls
    }
}

impl Folder for CountFolder {
    ghost files = { λ _. None };

    ghost unfinished = { λ f. f.unfinished };

    ghost calls = { λ f. f.calls };

    ghost faults = { λ _. 0 };

    /// Counts a file. It never fails.
    fn create(&mut self, name: &str) -> Result<(), Failed>
        requires { self.old.unfinished ≡ false }
        ensures files { Creates None None result name.now }
        ensures unfinished { self.new.unfinished ≡ is_ok result }
        ensures calls { self.new.calls ≡ raised self.old.calls 1 }
        ensures cause { HasCause 0 0 result }
        ensures done { IsOk result }
        ensures counts { self.new ≡ record self.old { files = raised self.old.files 1; calls = raised self.old.calls 1; unfinished = true } }
    {
        self.files = self.files.saturating_add(1);
        self.calls = self.calls.saturating_add(1);
        self.unfinished = true;
        Ok(())
    }

    /// Counts the bytes of a piece. It never fails.
    fn write(&mut self, piece: &[u8]) -> Result<(), Failed>
        requires { self.old.unfinished ≡ true }
        ensures files { Writes None None result piece.now }
        ensures unfinished { self.new.unfinished ≡ true }
        ensures calls { self.new.calls ≡ raised self.old.calls 1 }
        ensures cause { HasCause 0 0 result }
        ensures done { IsOk result }
        ensures counts { self.new ≡ record self.old { bytes = raised self.old.bytes (length piece.now); calls = raised self.old.calls 1 } }
    {
        self.bytes = self.bytes.saturating_add(piece.len() as u64);
        self.calls = self.calls.saturating_add(1);
        Ok(())
    }

    /// Ends the last file. It never fails.
    fn finish(&mut self) -> Result<(), Failed>
        requires { self.old.unfinished ≡ true }
        ensures files { KeepsFiles None None }
        ensures unfinished { self.new.unfinished ≡ false }
        ensures calls { self.new.calls ≡ raised self.old.calls 1 }
        ensures cause { HasCause 0 0 result }
        ensures done { IsOk result }
        ensures counts { self.new ≡ record self.old { calls = raised self.old.calls 1; unfinished = false } }
    {
        self.calls = self.calls.saturating_add(1);
        self.unfinished = false;
        Ok(())
    }
}
