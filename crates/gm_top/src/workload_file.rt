//! The file of a workload.

ghost use Rattle.std.specs.Prelude.{◌≡◌, ◌<◌, ◌++◌, [], ◌∷◌, true, false, length};
ghost use Rattle.std.specs.Prelude.{IfOk, IfErr, OnOk, OnErr, IsErrOf, IsTrue};
ghost use Rattle.gm_io.specs.Count.{Rose};
ghost use Rattle.gm_files.specs.Calls.{piece_most};
ghost use Rattle.query_draw.specs.Query.{has_query, query_of};
ghost use Rattle.workload_text.specs.Head.{head_of};
ghost use Rattle.workload_text.specs.Lines.{lines_text, head_lines, query_lines, work_text};
ghost use Rattle.workload_text.specs.Lines.WorkLine.{EndLine};
ghost use Rattle.gm_top.specs.Generation.{CanDraw, IsAcceptedFor};
ghost use Rattle.gm_top.specs.Outcome.{is_of_writing};
ghost use Rattle.gm_top.specs.Outputs.{workload, MakesFiles, MakesPart, TakesCalls, TakesCallsWithin};
ghost use Rattle.gm_top.specs.Putting.{PutsText, PutsTextPart};
ghost use Rattle.gm_top.specs.Workload.{all_queries_text, queries_of, workload_of};

use crate::generation::Generation;
use crate::outcomes::Outcome;
use crate::outlines::Outlines;
use crate::putting::put_text;
use gm_files::Pieces;
use gm_io::Folder;
use gm_text::Arena;
use std::alloc::{AllocError, Global};
use workload_text::{WorkHead, write_end, write_head, write_query};

/// Writes the file of the workload of a configuration, and keeps its queries. Nothing is kept in the pieces before and
/// after it.
pub(crate) fn write_workload<F: Folder>(
    alloc: Global,
    generation: &Generation,
    outlines: &mut Outlines<'_>,
    pieces: &mut Pieces,
    folder: &mut F,
) -> Result<(), Outcome>
    requires none { outlines.old ≡ [] }
    requires accepted { IsAcceptedFor generation.now.config generation.now.seed }
    requires empty { pieces.old ≡ [] }
    requires finished { F.unfinished folder.old ≡ false }
    ensures files { OnOk result
        (MakesFiles (workload generation.now.config generation.now.seed ∷ []) (F.files folder.old) (F.files folder.new)) }
    ensures finished { OnOk result (F.unfinished folder.new ≡ false) }
    ensures kept { OnOk result (outlines.new ≡ queries_of generation.now.config generation.now.seed) }
    ensures empty { OnOk result (pieces.new ≡ []) }
    ensures part { OnErr result
        (MakesPart (workload generation.now.config generation.now.seed ∷ []) (F.files folder.old) (F.files folder.new)) }
    ensures calls { OnOk result
        (TakesCalls (workload generation.now.config generation.now.seed ∷ []) (F.calls folder.old) (F.calls folder.new)) }
    ensures part_calls { OnErr result
        (TakesCallsWithin (workload generation.now.config generation.now.seed ∷ []) (F.calls folder.old) (F.calls folder.new)) }
    ensures stops { IfErr result (λ outcome. IsTrue (is_of_writing outcome)) }
    ensures fault { IsErrOf result Outcome.WriteFault → Rose (F.faults folder.old) (F.faults folder.new) }
    ensures faults { ¬ IsErrOf result Outcome.WriteFault → F.faults folder.new ≡ F.faults folder.old }
{
    let head = head_text(alloc, generation)?;
    let end = end_text(alloc)?;
    folder.create("workload.txt")?;
    put_workload(alloc, generation, &head, &end, outlines, pieces, folder)?;
    pieces.flush(folder)?;
    folder.finish()?;
    Ok(())
}

/// The lines of the head.
fn head_text(alloc: Global, generation: &Generation) -> Result<Vec<u8>, AllocError>
    ensures { IfOk result (λ text. text.items ≡ lines_text (head_lines (head_of generation.now.config))) }
{
    let head = WorkHead::of(alloc, generation.config())?;
    let mut text = Vec::new(alloc);
    write_head(alloc, &mut text, &head)?;
    Ok(text)
}

/// The last line.
fn end_text(alloc: Global) -> Result<Vec<u8>, AllocError>
    ensures { IfOk result (λ text. text.items ≡ lines_text (EndLine ∷ [])) }
{
    let mut text = Vec::new(alloc);
    write_end(alloc, &mut text)?;
    Ok(text)
}

/// Puts the text of a workload into the last file, from the lines of its head to its last line, and keeps its queries.
fn put_workload<F: Folder>(
    alloc: Global,
    generation: &Generation,
    head: &[u8],
    end: &[u8],
    outlines: &mut Outlines<'_>,
    pieces: &mut Pieces,
    folder: &mut F,
) -> Result<(), Outcome>
    requires head { head.now ≡ lines_text (head_lines (head_of generation.now.config)) }
    requires end { end.now ≡ lines_text (EndLine ∷ []) }
    requires none { outlines.old ≡ [] }
    requires drawable { CanDraw generation.now.config generation.now.seed }
    requires short { length pieces.old < piece_most }
    requires unfinished { F.unfinished folder.old ≡ true }
    ensures put { OnOk result (PutsText (F.files folder.old) (F.files folder.new) (F.calls folder.old) (F.calls folder.new)
        pieces.old pieces.new (work_text (workload_of generation.now.config generation.now.seed))) }
    ensures kept { OnOk result (outlines.new ≡ queries_of generation.now.config generation.now.seed) }
    ensures part { OnErr result (PutsTextPart (F.files folder.old) (F.files folder.new) (F.calls folder.old) (F.calls folder.new)
        pieces.old (work_text (workload_of generation.now.config generation.now.seed))) }
    ensures unfinished { F.unfinished folder.new ≡ true }
    ensures stops { IfErr result (λ outcome. IsTrue (is_of_writing outcome)) }
    ensures fault { IsErrOf result Outcome.WriteFault → Rose (F.faults folder.old) (F.faults folder.new) }
    ensures faults { ¬ IsErrOf result Outcome.WriteFault → F.faults folder.new ≡ F.faults folder.old }
{
    put_text(pieces, folder, head)?;
    put_queries(alloc, generation, outlines, pieces, folder)?;
    put_text(pieces, folder, end)?;
    Ok(())
}

/// Puts the lines of the drawn queries into the last file, and keeps the queries.
fn put_queries<F: Folder>(
    alloc: Global,
    generation: &Generation,
    outlines: &mut Outlines<'_>,
    pieces: &mut Pieces,
    folder: &mut F,
) -> Result<(), Outcome>
    requires none { outlines.old ≡ [] }
    requires drawable { CanDraw generation.now.config generation.now.seed }
    requires short { length pieces.old < piece_most }
    requires unfinished { F.unfinished folder.old ≡ true }
    ensures put { OnOk result (PutsText (F.files folder.old) (F.files folder.new) (F.calls folder.old) (F.calls folder.new)
        pieces.old pieces.new (all_queries_text generation.now.config generation.now.seed)) }
    ensures kept { OnOk result (outlines.new ≡ queries_of generation.now.config generation.now.seed) }
    ensures part { OnErr result (PutsTextPart (F.files folder.old) (F.files folder.new) (F.calls folder.old) (F.calls folder.new)
        pieces.old (all_queries_text generation.now.config generation.now.seed)) }
    ensures unfinished { F.unfinished folder.new ≡ true }
    ensures stops { IfErr result (λ outcome. IsTrue (is_of_writing outcome)) }
    ensures fault { IsErrOf result Outcome.WriteFault → Rose (F.faults folder.old) (F.faults folder.new) }
    ensures faults { ¬ IsErrOf result Outcome.WriteFault → F.faults folder.new ≡ F.faults folder.old }
{
    let mut arena = Arena::new(alloc);
    let mut text = Vec::new(alloc);
    for number in 0..generation.query_count() {
        draw_lines(alloc, generation, number, &arena, outlines, &mut text)?;
        put_text(pieces, folder, &text)?;
        arena = emptied(alloc, arena);
    }
    Ok(())
}

/// The arena without what was in it, or a fresh one where it can't be emptied.
pub(crate) fn emptied(alloc: Global, mut arena: Arena) -> Arena {
    match arena.reset() {
        Ok(()) => arena,
        Err(_) => Arena::new(alloc),
    }
}

/// The lines of a drawn query, in the place of a text before. The query is kept.
fn draw_lines(
    alloc: Global,
    generation: &Generation,
    number: u32,
    arena: &Arena,
    outlines: &mut Outlines<'_>,
    text: &mut Vec<u8>,
) -> Result<(), Outcome>
    requires within { number < generation.now.config.workload.queries }
    requires drawable { has_query generation.now.config generation.now.seed number ≡ true }
    ensures text { OnOk result
        (text.new.items ≡ lines_text (query_lines number (query_of generation.now.config generation.now.seed number))) }
    ensures kept { OnOk result
        (outlines.new ≡ outlines.old ++ query_of generation.now.config generation.now.seed number ∷ []) }
    ensures stops { IfErr result (λ outcome. outcome ≡ Outcome.NoMemory) }
{
    let query = generation.query(alloc, number, arena)?;
    outlines.keep(&query)?;
    text.clear();
    write_query(alloc, text, number, &query)?;
    Ok(())
}
