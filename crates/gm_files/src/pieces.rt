//! Texts that come part by part, and are written in the pieces of [`put_file`](crate::put_file).

ghost use Rattle.std.specs.Prelude.{◌≡◌, ◌+◌, ◌<◌, ◌≤◌, true, [], ◌++◌, length, IfOk, OnOk};
ghost use Rattle.gm_io.specs.Count.{raised, HasCause};
ghost use Rattle.gm_io.specs.Folder.{Writes};
ghost use Rattle.gm_files.specs.Calls.{piece_most, full_count, pieces_of};
ghost use Rattle.gm_files.specs.Pieces.{full_pieces, last_piece};

use crate::putting::{PIECE_MOST, WriteFault};
use gm_io::Folder;
use std::alloc::{AllocError, Global};
use std::marker::Model;

/// Bytes for the last file of a folder, kept until they fill a piece of [`PIECE_MOST`] bytes.
///
/// A text that is put into a file part by part, and then flushed, is written in the same pieces as by
/// [`put_file`](crate::put_file). After a [`WriteFault`] nothing is kept, and the text has lost its place.
#[derive(Drop)]
pub struct Pieces {
    kept: Vec<u8>,
}

impl Model for Pieces {
    ghost use Rattle.std.specs.Prelude.{ℕ, List, ◌<◌, ◌≤◌, vec_len, vec_capacity};
    ghost use Rattle.gm_files.specs.Calls.{piece_most};

    ghost Value = { List ℕ };

    ghost view = { λ pieces. pieces.kept.items };

    ghost invariant = { λ pieces. (vec_len pieces.kept < piece_most) × (piece_most ≤ vec_capacity pieces.kept) };
}

impl Pieces {
    /// Room for one piece, in which nothing is kept.
    pub fn new(alloc: Global) -> Result<Pieces, AllocError>
        ensures { IfOk result (λ pieces. pieces ≡ []) }
    {
        let kept = Vec::with_capacity(alloc, PIECE_MOST)?;
        Ok(Pieces { kept })
    }

    /// Puts at most [`PIECE_MOST`] bytes after those that are kept. It makes one write, of a full piece, where the
    /// folder is owed one, and none elsewhere.
    pub fn put<F: Folder>(&mut self, folder: &mut F, bytes: &[u8]) -> Result<(), WriteFault>
        requires unfinished { F.unfinished folder.old ≡ true }
        requires fits { length bytes.now ≤ piece_most }

        ensures files { Writes (F.files folder.old) (F.files folder.new) result (full_pieces (self.old ++ bytes.now)) }
        ensures kept { OnOk result (self.new ≡ last_piece (self.old ++ bytes.now)) }
        ensures calls { F.calls folder.new ≡ raised (F.calls folder.old) (full_count (length self.old + length bytes.now)) }
        ensures at_most_one { full_count (length self.old + length bytes.now) ≤ 1 }

        ensures unfinished { F.unfinished folder.new ≡ true }
        ensures cause { HasCause (F.faults folder.old) (F.faults folder.new) result }
        ensures untouched { length self.old + length bytes.now < piece_most → folder.new ≡ folder.old }
    {
        let room = PIECE_MOST - self.kept.len();
        if bytes.len() < room {
            self.kept.extend_from_slice(bytes).unwrap();
            return Ok(());
        }
        let (last, later) = bytes.split_at(room);
        self.kept.extend_from_slice(last).unwrap();
        let written = folder.write(&self.kept);
        self.kept.clear();
        written?;
        self.kept.extend_from_slice(later).unwrap();
        Ok(())
    }

    /// Writes the bytes that are kept, where there are any, in one piece.
    pub fn flush<F: Folder>(&mut self, folder: &mut F) -> Result<(), WriteFault>
        requires { F.unfinished folder.old ≡ true }

        ensures files { Writes (F.files folder.old) (F.files folder.new) result self.old }
        ensures kept { self.new ≡ [] }
        ensures calls { F.calls folder.new ≡ raised (F.calls folder.old) (pieces_of (length self.old)) }
        ensures at_most_one { pieces_of (length self.old) ≤ 1 }

        ensures unfinished { F.unfinished folder.new ≡ true }
        ensures cause { HasCause (F.faults folder.old) (F.faults folder.new) result }
        ensures untouched { self.old ≡ [] → folder.new ≡ folder.old }
    {
        if self.kept.is_empty() {
            return Ok(());
        }
        let written = folder.write(&self.kept);
        self.kept.clear();
        written?;
        Ok(())
    }
}
