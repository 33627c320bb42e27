//! Makes files in a folder.

ghost use Rattle.std.specs.Prelude.{◌≡◌, ◌≤◌, true, false, length, [], ◌∷◌, OnOk, OnErr};
ghost use Rattle.gm_io.specs.Count.{raised, HasCause};
ghost use Rattle.gm_io.specs.FileList.{Gained, GainedPart};
ghost use Rattle.gm_files.specs.Calls.{file_calls, all_calls};
ghost use Rattle.gm_files.specs.Leaves.{GainedWhole, EndsInWrite};
ghost use Rattle.gm_files.specs.FileText.{files_of};

use crate::texts::FileList;
use gm_io::{Failed, Folder};

/// The most bytes that one write is given.
pub const PIECE_MOST: usize = 65_536;

/// A call of a folder failed. Its count of faults has the reason: it rose in that call.
#[derive(Clone, Copy, Debug, PartialEq, Eq)]
pub struct WriteFault;

impl From<Failed> for WriteFault {
    fn from(_: Failed) -> Self {
        WriteFault
    }
}

/// Makes a file: one create, a write for each [`PIECE_MOST`] bytes and for what is left, and one finish.
///
/// It stops at the first call that fails. The file stays unfinished only where that was a write.
pub fn put_file<F: Folder>(folder: &mut F, name: &str, bytes: &[u8]) -> Result<(), WriteFault>
    requires { F.unfinished folder.old ≡ false }

    ensures gained { OnOk result (Gained (F.files folder.old) (F.files folder.new) ((name.now, bytes.now) ∷ [])) }
    ensures finished { OnOk result (F.unfinished folder.new ≡ false) }
    ensures calls { OnOk result (F.calls folder.new ≡ raised (F.calls folder.old) (file_calls (length bytes.now))) }

    ensures cause { HasCause (F.faults folder.old) (F.faults folder.new) result }
    ensures part { OnErr result (GainedPart (F.files folder.old) (F.files folder.new) ((name.now, bytes.now) ∷ [])) }
    ensures whole { OnErr result (F.unfinished folder.new ≡ false → GainedWhole (F.files folder.old) (F.files folder.new) ((name.now, bytes.now) ∷ [])) }
    ensures cut { F.unfinished folder.new ≡ true → EndsInWrite (F.calls folder.old) (F.calls folder.new) (length bytes.now) }
    ensures calls_within { F.calls folder.new ≤ raised (F.calls folder.old) (file_calls (length bytes.now)) }
{
    folder.create(name)?;
    for piece in bytes.chunks(PIECE_MOST) {
        folder.write(piece)?;
    }
    folder.finish()?;
    Ok(())
}

/// Makes the files of a list in order, each as [`put_file`] does.
///
/// It stops at the first call that fails.
pub fn put_all<F: Folder>(folder: &mut F, list: &FileList) -> Result<(), WriteFault>
    requires { F.unfinished folder.old ≡ false }

    ensures gained { OnOk result (Gained (F.files folder.old) (F.files folder.new) (files_of list.now)) }
    ensures finished { OnOk result (F.unfinished folder.new ≡ false) }
    ensures calls { OnOk result (F.calls folder.new ≡ raised (F.calls folder.old) (all_calls (files_of list.now))) }

    ensures cause { HasCause (F.faults folder.old) (F.faults folder.new) result }
    ensures part { OnErr result (GainedPart (F.files folder.old) (F.files folder.new) (files_of list.now)) }
    ensures whole { OnErr result (F.unfinished folder.new ≡ false → GainedWhole (F.files folder.old) (F.files folder.new) (files_of list.now)) }
    ensures calls_within { F.calls folder.new ≤ raised (F.calls folder.old) (all_calls (files_of list.now)) }
{
    let files = list.as_slice();
    for file in files {
        put_file(folder, file.name.as_str(), file.bytes.as_slice())?;
    }
    Ok(())
}
