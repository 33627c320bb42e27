ghost use Rattle.std.specs.Prelude.{◌≡◌, true, false, is_some, None};

use crate::reading::Source;
use crate::writing::{Failed, Folder};
use std::fs;
use std::io::{Read, Write};
use std::rt::Files;

/// Standard input. It tells no content.
///
/// It counts calls, bytes and faults up to the greatest u64; past it, a fault comes without a rise.
#[derive(Drop)]
pub struct StdSource<R: Input> {
    reader: R::Reader,
    given: u64,
    calls: u64,
    faults: u64,
}

impl<R: Input> StdSource<R> {
    /// A source over the standard input of the runtime, with all counts at 0.
    pub fn new(rt: &R) -> Self
        ensures given { result.given ≡ 0 }
        ensures calls { result.calls ≡ 0 }
        ensures faults { result.faults ≡ 0 }
    {
        StdSource {
            reader: rt.reader(),
            given: 0,
            calls: 0,
            faults: 0,
        }
    }
}

impl<R: Input> Source for StdSource<R> {
    ghost left = { λ _. None };

    ghost given = { λ s. s.given };

    ghost calls = { λ s. s.calls };

    ghost faults = { λ s. s.faults };

    fn read(&mut self, buf: &mut [u8]) -> Result<usize, Failed> {
        self.calls = self.calls.saturating_add(1);
        let Ok(count) = self.reader.read(buf) else {
            self.faults = self.faults.saturating_add(1);
            return Err(Failed);
        };
        self.given = self.given.saturating_add(count as u64);
        Ok(count)
    }
}

/// The current folder. It tells no files, and a created file replaces one of the same name.
///
/// It counts calls and faults up to the greatest u64; past it, a fault comes without a rise.
#[derive(Drop)]
pub struct DirFolder<R: Files> {
    files: R,
    file: Option<R::File>,
    calls: u64,
    faults: u64,
}

impl<R: Files> DirFolder<R> {
    /// A folder over the files of the runtime, with no file unfinished and both counts at 0.
    pub fn new(files: R) -> Self
        ensures unfinished { is_some result.file ≡ false }
        ensures calls { result.calls ≡ 0 }
        ensures faults { result.faults ≡ 0 }
    {
        DirFolder {
            files,
            file: None,
            calls: 0,
            faults: 0,
        }
    }
}

impl<R: Files> Folder for DirFolder<R> {
    ghost files = { λ _. None };

    ghost unfinished = { λ f. is_some f.file };

    ghost calls = { λ f. f.calls };

    ghost faults = { λ f. f.faults };

    fn create(&mut self, name: &str) -> Result<(), Failed> {
        self.calls = self.calls.saturating_add(1);
        let Ok(file) = fs::create(&self.files, name) else {
            self.faults = self.faults.saturating_add(1);
            return Err(Failed);
        };
        self.file = Some(file);
        Ok(())
    }

    fn write(&mut self, piece: &[u8]) -> Result<(), Failed> {
        self.calls = self.calls.saturating_add(1);
        if let Some(file) = &mut self.file {
            if file.write_all(piece).is_ok() {
                return Ok(());
            }
        }
        self.faults = self.faults.saturating_add(1);
        Err(Failed)
    }

    fn finish(&mut self) -> Result<(), Failed> {
        self.calls = self.calls.saturating_add(1);
        if let Some(mut file) = self.file.take() {
            if file.flush().is_ok() {
                return Ok(());
            }
        }
        self.faults = self.faults.saturating_add(1);
        Err(Failed)
    }
}
