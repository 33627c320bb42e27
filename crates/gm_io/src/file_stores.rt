ghost use Rattle.std.specs.Prelude.{◌≡◌, ◌+◌, ◌-◌, ◌<◌, ◌≤◌, ◌↔◌, IsTrue, IfOk, Some, [], ◌∷◌, ◌++◌, length, slice_get};
ghost use Rattle.std.specs.Option.{option_map};
ghost use Rattle.gm_io.specs.FileList.{with_piece};

use std::alloc::{AllocError, Global};
use std::marker::Model;

/// Names and bytes of files one after the other, in memory that is taken at once.
#[derive(Drop)]
pub struct FileStore {
    text: Vec<u8>,
    places: Vec<Place>,
    spare_files: usize,
    room: usize,
}

/// Where a file lies in the text: its name from `name` on, and its bytes from `bytes` to `end`.
#[derive(Clone, Copy)]
struct Place {
    name: usize,
    bytes: usize,
    end: usize,
}

impl Model for FileStore {
    ghost use Rattle.std.specs.Prelude.{map};
    ghost use Rattle.gm_io.specs.FileStore.{StoreState};

    ghost Value = { StoreState };

    ghost use Rattle.gm_io.specs.Places.{file_at, IsStore};

    ghost view = { λ s. record {
      files = map (file_at s.text.items) s.places.items;
      spare_files = s.spare_files;
      room = s.room;
    } };

    ghost invariant = { IsStore };
}

impl FileStore {
    /// A store with no files, and memory for so many files and so many bytes of names and contents.
    pub fn new(alloc: Global, files: usize, room: usize) -> Result<Self, AllocError>
        ensures { IfOk result (λ store. store ≡ record { files = []; spare_files = files; room = room }) }
    {
        Ok(FileStore {
            text: Vec::with_capacity(alloc, room)?,
            places: Vec::with_capacity(alloc, files)?,
            spare_files: files,
            room,
        })
    }

    /// The number of files.
    pub fn len(&self) -> usize
        ensures { result ≡ length self.now.files }
    {
        self.places.len()
    }

    /// The number of bytes that still fit.
    pub fn room(&self) -> usize
        ensures { result ≡ self.now.room }
    {
        self.room
    }

    /// Whether one more file of this name fits.
    pub fn fits_file(&self, name: &str) -> bool
        ensures { IsTrue result ↔ ((0 < self.now.spare_files) × (length name.now ≤ self.now.room)) }
    {
        0 < self.spare_files && name.len() <= self.room
    }

    /// Adds a file without bytes at the end.
    pub fn add(&mut self, name: &str)
        requires spare { 0 < self.old.spare_files }
        requires room { length name.now ≤ self.old.room }
        ensures files { self.new.files ≡ self.old.files ++ (name.now, []) ∷ [] }
        ensures spare { self.new.spare_files ≡ self.old.spare_files - 1 }
        ensures room { self.new.room ≡ self.old.room - length name.now }
    {
        let start = self.text.len();
        self.text.extend_from_slice(name.as_bytes()).unwrap();
        self.room -= name.len();
        let end = self.text.len();
        self.places
            .push(Place {
                name: start,
                bytes: end,
                end,
            })
            .unwrap();
        self.spare_files -= 1;
    }

    /// Appends a piece to the last file.
    pub fn append(&mut self, piece: &[u8])
        requires last { 0 < length self.old.files }
        requires room { length piece.now ≤ self.old.room }
        ensures files { self.new.files ≡ with_piece self.old.files piece.now }
        ensures count { length self.new.files ≡ length self.old.files }
        ensures spare { self.new.spare_files ≡ self.old.spare_files }
        ensures room { self.new.room ≡ self.old.room - length piece.now }
    {
        self.text.extend_from_slice(piece).unwrap();
        self.room -= piece.len();
        let last = self.places.len() - 1;
        self.places[last].end = self.text.len();
    }

    /// The name of the file at this index.
    pub fn name(&self, i: usize) -> &str
        requires { i < length self.now.files }
        ensures { option_map (λ file. file.0) (slice_get self.now.files i) ≡ Some result.now }
    {
        let place = self.places[i];
        match str::from_utf8(&self.text[place.name..place.bytes]) {
            Ok(name) => name,
            Err(_) => unreachable!(),
        }
    }

    /// The bytes of the file at this index.
    pub fn bytes(&self, i: usize) -> &[u8]
        requires { i < length self.now.files }
        ensures { option_map (λ file. file.1) (slice_get self.now.files i) ≡ Some result.now }
    {
        let place = self.places[i];
        &self.text[place.bytes..place.end]
    }
}
