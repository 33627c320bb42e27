//! The files of a query.

ghost use Rattle.std.specs.Prelude.{◌≡◌, [], ◌∷◌, false, IfErr, OnOk, OnErr, IsErrOf, IsTrue};
ghost use Rattle.gm_io.specs.Count.{Rose};
ghost use Rattle.query_terms.specs.View.{query_value};
ghost use Rattle.workload_text.specs.Values.{IsQuery};
ghost use Rattle.gm_top.specs.Outcome.{is_of_writing};
ghost use Rattle.gm_top.specs.Outputs.{query_file, pair_of, work_outputs, MakesFiles, MakesPart, TakesCalls, TakesCallsWithin};
ghost use Rattle.gm_top.specs.Generation.{IsAcceptedFor};
ghost use Rattle.gm_top.specs.Workload.{queries_of, workload_of};

use crate::generation::Generation;
use crate::outcomes::Outcome;
use crate::outlines::Outlines;
use crate::workload_file::emptied;
use gm_files::{QueryFile, put_file, query_name};
use gm_io::Folder;
use gm_text::Arena;
use query_terms::{Outline, Query};
use query_texts::query_text;
use std::alloc::Global;
use workload_text::WorkHead;

/// Writes the files of the drawn queries of a configuration, which were kept.
pub(crate) fn write_queries<F: Folder>(
    alloc: Global,
    generation: &Generation,
    outlines: &Outlines<'_>,
    folder: &mut F,
) -> Result<(), Outcome>
    requires kept { outlines.now ≡ queries_of generation.now.config generation.now.seed }
    requires accepted { IsAcceptedFor generation.now.config generation.now.seed }
    requires finished { F.unfinished folder.old ≡ false }
    ensures files { OnOk result (MakesFiles (work_outputs (workload_of generation.now.config generation.now.seed))
        (F.files folder.old) (F.files folder.new)) }
    ensures finished { OnOk result (F.unfinished folder.new ≡ false) }
    ensures part { OnErr result (MakesPart (work_outputs (workload_of generation.now.config generation.now.seed))
        (F.files folder.old) (F.files folder.new)) }
    ensures calls { OnOk result (TakesCalls (work_outputs (workload_of generation.now.config generation.now.seed))
        (F.calls folder.old) (F.calls folder.new)) }
    ensures part_calls { OnErr result (TakesCallsWithin (work_outputs (workload_of generation.now.config generation.now.seed))
        (F.calls folder.old) (F.calls folder.new)) }
    ensures stops { IfErr result (λ outcome. IsTrue (is_of_writing outcome)) }
    ensures fault { IsErrOf result Outcome.WriteFault → Rose (F.faults folder.old) (F.faults folder.new) }
    ensures faults { ¬ IsErrOf result Outcome.WriteFault → F.faults folder.new ≡ F.faults folder.old }
{
    let head = WorkHead::of(alloc, generation.config())?;
    let mut arena = Arena::new(alloc);
    for number in 0..generation.query_count() {
        write_kept(alloc, &head, number, outlines.at(number), &arena, folder)?;
        arena = emptied(alloc, arena);
    }
    Ok(())
}

/// Writes the files of a query with a number that was kept without its terms.
fn write_kept<F: Folder>(
    alloc: Global,
    head: &WorkHead,
    number: u32,
    outline: &Outline<'_>,
    arena: &Arena,
    folder: &mut F,
) -> Result<(), Outcome>
    requires kept { IsQuery head.now outline.now }
    requires finished { F.unfinished folder.old ≡ false }
    ensures files { OnOk result (MakesFiles (pair_of head.now.labels number outline.now)
        (F.files folder.old) (F.files folder.new)) }
    ensures finished { OnOk result (F.unfinished folder.new ≡ false) }
    ensures part { OnErr result (MakesPart (pair_of head.now.labels number outline.now)
        (F.files folder.old) (F.files folder.new)) }
    ensures calls { OnOk result (TakesCalls (pair_of head.now.labels number outline.now)
        (F.calls folder.old) (F.calls folder.new)) }
    ensures part_calls { OnErr result (TakesCallsWithin (pair_of head.now.labels number outline.now)
        (F.calls folder.old) (F.calls folder.new)) }
    ensures stops { IfErr result (λ outcome. IsTrue (is_of_writing outcome)) }
    ensures fault { IsErrOf result Outcome.WriteFault → Rose (F.faults folder.old) (F.faults folder.new) }
    ensures faults { ¬ IsErrOf result Outcome.WriteFault → F.faults folder.new ≡ F.faults folder.old }
{
    let query = outline.query(alloc, arena)?;
    write_query(alloc, head, number, &query, folder)
}

/// Writes the file of the query with a number in SPARQL, and then that in SQL.
pub(crate) fn write_query<F: Folder>(
    alloc: Global,
    head: &WorkHead,
    number: u32,
    query: &Query<'_>,
    folder: &mut F,
) -> Result<(), Outcome>
    requires kept { IsQuery head.now (query_value query.now) }
    requires finished { F.unfinished folder.old ≡ false }
    ensures files { OnOk result (MakesFiles (pair_of head.now.labels number (query_value query.now))
        (F.files folder.old) (F.files folder.new)) }
    ensures finished { OnOk result (F.unfinished folder.new ≡ false) }
    ensures part { OnErr result (MakesPart (pair_of head.now.labels number (query_value query.now))
        (F.files folder.old) (F.files folder.new)) }
    ensures calls { OnOk result (TakesCalls (pair_of head.now.labels number (query_value query.now))
        (F.calls folder.old) (F.calls folder.new)) }
    ensures part_calls { OnErr result (TakesCallsWithin (pair_of head.now.labels number (query_value query.now))
        (F.calls folder.old) (F.calls folder.new)) }
    ensures stops { IfErr result (λ outcome. IsTrue (is_of_writing outcome)) }
    ensures fault { IsErrOf result Outcome.WriteFault → Rose (F.faults folder.old) (F.faults folder.new) }
    ensures faults { ¬ IsErrOf result Outcome.WriteFault → F.faults folder.new ≡ F.faults folder.old }
{
    write_text(alloc, head, number, query, QueryFile::Sparql, folder)?;
    write_text(alloc, head, number, query, QueryFile::Sql, folder)?;
    Ok(())
}

/// Writes the file of the query with a number in a language.
fn write_text<F: Folder>(
    alloc: Global,
    head: &WorkHead,
    number: u32,
    query: &Query<'_>,
    kind: QueryFile,
    folder: &mut F,
) -> Result<(), Outcome>
    requires kept { IsQuery head.now (query_value query.now) }
    requires finished { F.unfinished folder.old ≡ false }
    ensures files { OnOk result (MakesFiles (query_file kind head.now.labels number (query_value query.now) ∷ [])
        (F.files folder.old) (F.files folder.new)) }
    ensures finished { OnOk result (F.unfinished folder.new ≡ false) }
    ensures part { OnErr result (MakesPart (query_file kind head.now.labels number (query_value query.now) ∷ [])
        (F.files folder.old) (F.files folder.new)) }
    ensures calls { OnOk result (TakesCalls (query_file kind head.now.labels number (query_value query.now) ∷ [])
        (F.calls folder.old) (F.calls folder.new)) }
    ensures part_calls { OnErr result (TakesCallsWithin (query_file kind head.now.labels number (query_value query.now) ∷ [])
        (F.calls folder.old) (F.calls folder.new)) }
    ensures stops { IfErr result (λ outcome. IsTrue (is_of_writing outcome)) }
    ensures fault { IsErrOf result Outcome.WriteFault → Rose (F.faults folder.old) (F.faults folder.new) }
    ensures faults { ¬ IsErrOf result Outcome.WriteFault → F.faults folder.new ≡ F.faults folder.old }
{
    let text = query_text(alloc, kind, head, query)?;
    let name = query_name(alloc, number, kind)?;
    put_file(folder, &name, &text)?;
    Ok(())
}
