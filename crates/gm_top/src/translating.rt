//! `translate`: from a workload text to the texts of its queries.

ghost use Rattle.std.specs.Prelude.{◌≡◌, ◌≢◌, false, Err, IfErr, OnOk, OnErr, IsErrOf, IsTrue};
ghost use Rattle.gm_io.specs.Count.{Rose};
ghost use Rattle.gm_top.specs.declared.commands.Command.TheVariants.{Translate};
ghost use Rattle.gm_top.specs.declared.work.Work.TheVariants.{Queries};
ghost use Rattle.gm_top.specs.Outcome.{is_of_deciding, is_of_writing};
ghost use Rattle.gm_top.specs.Decision.{IsDecision};
ghost use Rattle.gm_top.specs.Outputs.{outputs_of, MakesFiles, MakesPart, TakesCalls, TakesCallsWithin};

use crate::outcomes::Outcome;
use crate::query_files::write_query;
use crate::work::Work;
use gm_io::Folder;
use gm_text::Arena;
use std::alloc::Global;
use workload_text::{Workload, read_workload};

/// Decides what is to be done with a workload text. It makes no file.
pub(crate) fn decided<'a>(
    alloc: Global,
    bytes: &[u8],
    arena: &'a Arena,
) -> Result<Work<'a>, Outcome>
    ensures decision { result ≢ Err Outcome.NoMemory → IsDecision Translate bytes.now result }
    ensures stops { IfErr result (λ outcome. IsTrue (is_of_deciding outcome)) }
{
    let work = read_workload(alloc, bytes, arena)?;
    Ok(Work::Queries(work))
}

/// Writes the files of the queries of a workload.
pub(crate) fn written<F: Folder>(
    alloc: Global,
    work: &Workload<'_>,
    folder: &mut F,
) -> Result<(), Outcome>
    requires { F.unfinished folder.old ≡ false }
    ensures files { OnOk result (MakesFiles (outputs_of (Queries work.now)) (F.files folder.old) (F.files folder.new)) }
    ensures finished { OnOk result (F.unfinished folder.new ≡ false) }
    ensures part { OnErr result (MakesPart (outputs_of (Queries work.now)) (F.files folder.old) (F.files folder.new)) }
    ensures calls { OnOk result (TakesCalls (outputs_of (Queries work.now)) (F.calls folder.old) (F.calls folder.new)) }
    ensures part_calls { OnErr result (TakesCallsWithin (outputs_of (Queries work.now)) (F.calls folder.old) (F.calls folder.new)) }
    ensures stops { IfErr result (λ outcome. IsTrue (is_of_writing outcome)) }
    ensures fault { IsErrOf result Outcome.WriteFault → Rose (F.faults folder.old) (F.faults folder.new) }
    ensures faults { ¬ IsErrOf result Outcome.WriteFault → F.faults folder.new ≡ F.faults folder.old }
{
    let head = work.head();
    for number in 0..work.count() {
        write_query(alloc, head, number, work.query(number), folder)?;
    }
    Ok(())
}
