//! Texts of any length, put into the last file of a folder.

ghost use Rattle.std.specs.Prelude.{◌≡◌, ◌<◌, true, length, OnOk, OnErr};
ghost use Rattle.gm_io.specs.Count.{HasCause};
ghost use Rattle.gm_files.specs.Calls.{piece_most};
ghost use Rattle.gm_top.specs.Putting.{PutsText, PutsTextPart};

use gm_files::{PIECE_MOST, Pieces, WriteFault};
use gm_io::Folder;

/// Puts a text behind the bytes that are kept.
pub(crate) fn put_text<F: Folder>(
    pieces: &mut Pieces,
    folder: &mut F,
    text: &[u8],
) -> Result<(), WriteFault>
    requires short { length pieces.old < piece_most }
    requires unfinished { F.unfinished folder.old ≡ true }
    ensures put { OnOk result (PutsText (F.files folder.old) (F.files folder.new) (F.calls folder.old) (F.calls folder.new)
        pieces.old pieces.new text.now) }
    ensures part { OnErr result (PutsTextPart (F.files folder.old) (F.files folder.new) (F.calls folder.old) (F.calls folder.new)
        pieces.old text.now) }
    ensures unfinished { F.unfinished folder.new ≡ true }
    ensures cause { HasCause (F.faults folder.old) (F.faults folder.new) result }
{
    let mut rest = text;
    while rest.len() > PIECE_MOST {
        let (first, later) = rest.split_at(PIECE_MOST);
        pieces.put(folder, first)?;
        rest = later;
    }
    pieces.put(folder, rest)?;
    Ok(())
}
