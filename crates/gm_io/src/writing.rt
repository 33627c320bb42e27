ghost use Rattle.std.specs.Prelude.{◌≡◌, ℕ, Bool, true, false, is_ok, Option};
ghost use Rattle.gm_io.specs.Count.{raised, HasCause};
ghost use Rattle.gm_io.specs.FileList.{FileList};
ghost use Rattle.gm_io.specs.Folder.{Creates, Writes, KeepsFiles};

/// A call of a source or a folder failed. Its count of faults has the reason: it rose in that call.
#[derive(Clone, Copy, Debug, PartialEq, Eq)]
pub struct Failed;

/// A place for files, which are made one after the other: `create`, any number of `write`, `finish`.
pub trait Folder {
    /// The names and bytes of its files in the order of creation, where it tells them.
    ghost files: { Self → Option FileList };

    /// Whether its last file is unfinished.
    ghost unfinished: { Self → Bool };

    /// The number of its calls, which stops at the greatest u64.
    ghost calls: { Self → ℕ };

    /// A count of faults, which never falls.
    ghost faults: { Self → ℕ };

    /// Adds a file without bytes at the end, which is then unfinished. A failed create adds nothing.
    fn create(&mut self, name: &str) -> Result<(), Failed>
        requires { unfinished self.old ≡ false }
        ensures files { Creates (files self.old) (files self.new) result name.now }
        ensures unfinished { unfinished self.new ≡ is_ok result }
        ensures calls { calls self.new ≡ raised (calls self.old) 1 }
        ensures cause { HasCause (faults self.old) (faults self.new) result };

    /// Appends a piece to the last file. After a failed write the file has gained a prefix of the piece.
    fn write(&mut self, piece: &[u8]) -> Result<(), Failed>
        requires { unfinished self.old ≡ true }
        ensures files { Writes (files self.old) (files self.new) result piece.now }
        ensures unfinished { unfinished self.new ≡ true }
        ensures calls { calls self.new ≡ raised (calls self.old) 1 }
        ensures cause { HasCause (faults self.old) (faults self.new) result };

    /// Ends the last file. It changes no bytes and leaves no file unfinished, also where it fails.
    fn finish(&mut self) -> Result<(), Failed>
        requires { unfinished self.old ≡ true }
        ensures files { KeepsFiles (files self.old) (files self.new) }
        ensures unfinished { unfinished self.new ≡ false }
        ensures calls { calls self.new ≡ raised (calls self.old) 1 }
        ensures cause { HasCause (faults self.old) (faults self.new) result };
}
