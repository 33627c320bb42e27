ghost use Rattle.std.specs.Prelude.{◌≡◌, ℕ, ◌+◌, ◌<◌, ◌≤◌, length, Option, List, IfOk, OnOk, IfSome, IsErrOf};
ghost use Rattle.std.specs.Io.{ReadsAtMost};
ghost use Rattle.std.specs.Io.KnownBytes.{ReadConsumes, IsAtEnd};
ghost use Rattle.gm_io.specs.Count.{raised, Rose, HasCause};
ghost use Rattle.gm_io.specs.Limit.{input_limit};
ghost use Rattle.gm_io.specs.Source.{GivesCount, AreAllLeft};

use crate::writing::Failed;
use std::alloc::{AllocError, Global};
use thiserror::Error;

/// The most bytes that an input may have.
pub const INPUT_LIMIT: usize = 16_777_216;

/// A stream of bytes.
pub trait Source {
    /// The bytes that are left, where it tells them.
    ghost left: { Self → Option (List ℕ) };

    /// The number of bytes that it has given, which stops at the greatest u64.
    ghost given: { Self → ℕ };

    /// The number of its calls, which stops at the greatest u64.
    ghost calls: { Self → ℕ };

    /// A count of faults, which never falls.
    ghost faults: { Self → ℕ };

    /// Puts the first bytes that are left at the front of `buf` and says how many they are.
    ///
    /// 0 for a buffer that isn't empty is the end of the input. A failed read takes nothing.
    fn read(&mut self, buf: &mut [u8]) -> Result<usize, Failed>
        ensures within { ReadsAtMost result buf.new }
        ensures left { ReadConsumes (left self.old) (left self.new) result buf.new }
        ensures given { GivesCount (given self.old) (given self.new) result }
        ensures calls { calls self.new ≡ raised (calls self.old) 1 }
        ensures cause { HasCause (faults self.old) (faults self.new) result };
}

/// Why an input could not be read whole.
#[derive(Debug, Drop, Error)]
pub enum ReadError {
    /// A read failed.
    #[error("reading failed")]
    ReadFault,
    /// The source gave more than [`INPUT_LIMIT`] bytes.
    #[error("input longer than {INPUT_LIMIT} bytes")]
    InputTooLong,
    /// Memory ran out.
    #[error("out of memory")]
    NoMemory,
}

impl From<AllocError> for ReadError {
    ghost use Rattle.gm_io.specs.declared.reading.ReadError.TheVariants.{NoMemory};

    ghost from_gives = { λ _ error. error ≡ NoMemory };

    fn from(_: AllocError) -> Self {
        ReadError::NoMemory
    }
}

/// Reads a source to its end, in at most [`INPUT_LIMIT`] + 1 calls.
///
/// Reading stops at the first fault, and at the first byte past [`INPUT_LIMIT`], whichever comes first.
pub fn read_all<S: Source>(alloc: Global, source: &mut S) -> Result<Vec<u8>, ReadError>
    ensures bytes { IfOk result (λ bytes. AreAllLeft (S.left source.old) bytes.items) }
    ensures to_the_end { OnOk result (IsAtEnd (S.left source.new)) }
    ensures within { IfOk result (λ bytes. length bytes.items ≤ input_limit) }
    ensures given { IfOk result (λ bytes. S.given source.new ≡ raised (S.given source.old) (length bytes.items)) }

    ensures fault { IsErrOf result ReadError.ReadFault → Rose (S.faults source.old) (S.faults source.new) }
    ensures fault_within { IsErrOf result ReadError.ReadFault → S.given source.new ≤ raised (S.given source.old) input_limit }

    ensures too_long { IsErrOf result ReadError.InputTooLong → raised (S.given source.old) (input_limit + 1) ≤ S.given source.new }
    ensures too_long_told { IsErrOf result ReadError.InputTooLong → IfSome (S.left source.old) (λ bytes. input_limit < length bytes) }

    // Any other answer than `ReadFault` leaves the count of faults.
    ensures no_fault { OnOk result (S.faults source.new ≡ S.faults source.old) }
    ensures too_long_no_fault { IsErrOf result ReadError.InputTooLong → S.faults source.new ≡ S.faults source.old }
    ensures no_memory_no_fault { IsErrOf result ReadError.NoMemory → S.faults source.new ≡ S.faults source.old }
    ensures calls { S.calls source.new ≤ S.calls source.old + (input_limit + 1) }
{
    let mut bytes = Vec::new(alloc);
    let mut piece = [0u8; 16_384];
    while bytes.len() <= INPUT_LIMIT {
        let Ok(count) = source.read(&mut piece) else {
            return Err(ReadError::ReadFault);
        };
        if count == 0 {
            return Ok(bytes);
        }
        bytes.extend_from_slice(&piece[..count])?;
    }
    Err(ReadError::InputTooLong)
}
