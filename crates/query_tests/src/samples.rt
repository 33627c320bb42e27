//! Queries that are written as the workload texts in which they stand.

ghost use Rattle.std.specs.Prelude.{◌≡◌, length, IfOk, IfSome};

use gm_text::Arena;
use std::alloc::{AllocError, Global};
use workload_text::{Workload, WorkloadError, read_workload};

/// The labels `a`, `b` and `c`. The edges 0, 1 and 2 have `a`, `c` and `b`.
const HEAD: &str =
    "gmark-workload 2\nlabel a\nlabel b\nlabel c\ntype t growing\nedge 0 0 0 =\nedge 0 2 0 =\nedge 0 1 0 =\nquery 0 chain ";

/// The workload of one query, from the words for its classes on. None where the text has no reading.
pub(crate) fn read<'a>(
    alloc: Global,
    arena: &'a Arena,
    query: &str,
) -> Result<Option<Workload<'a>>, AllocError>
    ensures one { IfOk result (λ read. IfSome read (λ work. length work.queries ≡ 1)) }
{
    let mut text = HEAD.as_bytes().to_vec(alloc)?;
    text.extend_from_slice(query.as_bytes())?;
    text.extend_from_slice(b"\nend\n")?;
    match read_workload(alloc, &text, arena) {
        Ok(work) if work.count() == 1 => Ok(Some(work)),
        Ok(_) => Ok(None),
        Err(WorkloadError::BadWorkload { .. }) => Ok(None),
        Err(WorkloadError::NoMemory) => Err(AllocError),
    }
}

/// The last digit of a number.
pub(crate) fn digit(n: u32) -> u8 {
    b'0' + (n % 10) as u8
}
