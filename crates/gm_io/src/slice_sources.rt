ghost use Rattle.std.specs.Prelude.{◌≡◌, min, length, Some};
ghost use Rattle.std.specs.Io.{ReadsAtMost};
ghost use Rattle.std.specs.Io.KnownBytes.{ReadConsumes};
ghost use Rattle.gm_io.specs.Count.{raised, HasCause};
ghost use Rattle.gm_io.specs.Source.{GivesCount};

use crate::reading::Source;
use crate::writing::Failed;
use std::cmp;
use std::marker::Model;

/// A source over bytes in memory. It tells its bytes, and no read of it fails.
///
/// It counts bytes and calls up to the greatest u64.
#[derive(Drop)]
pub struct SliceSource<'t> {
    left: &'t [u8],
    given: u64,
    calls: u64,
}

impl<'t> Model for SliceSource<'t> {
    ghost use Rattle.gm_io.specs.SliceSource.{SliceState};

    ghost Value = { SliceState };

    ghost view = { λ s. record { left = s.left.now; given = s.given; calls = s.calls } };
}

impl<'t> SliceSource<'t> {
    /// A source that gives these bytes, with both counts at 0.
    pub fn new(bytes: &'t [u8]) -> SliceSource<'t>
        ensures { result ≡ record { left = bytes.now; given = 0; calls = 0 } }
    {
        SliceSource {
            left: bytes,
            given: 0,
            calls: 0,
        }
    }
}

impl<'t> Source for SliceSource<'t> {
    ghost left = { λ s. Some s.left };

    ghost given = { λ s. s.given };

    ghost calls = { λ s. s.calls };

    ghost faults = { λ _. 0 };

    /// Gives as many of the bytes that are left as fit into `buf`. It never fails.
    fn read(&mut self, buf: &mut [u8]) -> Result<usize, Failed>
        ensures within { ReadsAtMost result buf.new }
        ensures left { ReadConsumes (Some self.old.left) (Some self.new.left) result buf.new }
        ensures given { GivesCount self.old.given self.new.given result }
        ensures calls { self.new.calls ≡ raised self.old.calls 1 }
        ensures cause { HasCause 0 0 result }
        ensures gives { result ≡ Ok (min (length buf.new) (length self.old.left)) }
    {
        let count = cmp::min(buf.len(), self.left.len());
        let (taken, left) = self.left.split_at(count);
        buf[..count].copy_from_slice(taken);
        self.left = left;
        self.given = self.given.saturating_add(count as u64);
        self.calls = self.calls.saturating_add(1);
        Ok(count)
    }
}
