//! `sample`: the files of the sample, and a summary of them.

ghost use Rattle.std.specs.Prelude.{◌≡◌, ◌≢◌, ◌≤◌, [], ◌∷◌, false, length, Err, IfOk, IfErr, OnOk, OnErr, IsErrOf, IsTrue};
ghost use Rattle.gm_io.specs.Count.{Rose};
ghost use Rattle.gm_config.specs.Config.{IsConfig};
ghost use Rattle.summary_text.specs.Summary.{nothing_counted, HasRoom, summary_text_of};
ghost use Rattle.summary_text.specs.Counts.{drawn_summary};
ghost use Rattle.summary_text.specs.Laws.{with_class_of};
ghost use Rattle.gm_top.specs.declared.commands.Command.TheVariants.{Sample};
ghost use Rattle.gm_top.specs.declared.work.Work.TheVariants.{Sampled};
ghost use Rattle.gm_top.specs.Generation.{IsAcceptedFor};
ghost use Rattle.gm_top.specs.Outcome.{is_of_writing};
ghost use Rattle.gm_top.specs.Decision.{IsDecision};
ghost use Rattle.gm_top.specs.Outputs.{outputs_of, summary, MakesFiles, MakesPart, TakesCalls, TakesCallsWithin};
ghost use Rattle.gm_top.specs.Workload.{queries_of};

use crate::generating;
use crate::generation::Generation;
use crate::outcomes::Outcome;
use crate::outlines::Outlines;
use crate::work::Work;
use gm_config::sample_config;
use gm_files::put_file;
use gm_io::Folder;
use sel_algebra::Class;
use std::alloc::{AllocError, Global};
use summary_text::{Summary, write_summary};

/// The work of the sample of 1,000 times `k` nodes. It makes no file, and only memory can be wanting.
pub(crate) fn decided<'a>(alloc: Global, k: u32) -> Result<Work<'a>, Outcome>
    requires some { 1 ≤ k }
    requires few { k ≤ 100 }
    ensures decision { result ≢ Err Outcome.NoMemory → IsDecision (Sample k) [] result }
    ensures stops { IfErr result (λ outcome. outcome ≡ Outcome.NoMemory) }
{
    let config = sample_config(alloc, k)?;
    let generation = Generation::new(alloc, config, u64::from(k))?;
    Ok(Work::Sampled(generation))
}

/// Writes the files of a sample, and then its summary.
pub(crate) fn written<F: Folder>(
    alloc: Global,
    generation: &Generation,
    counted: &mut Summary,
    outlines: &mut Outlines<'_>,
    folder: &mut F,
) -> Result<(), Outcome>
    requires nothing { counted.old ≡ nothing_counted }
    requires none { outlines.old ≡ [] }
    requires accepted { IsAcceptedFor generation.now.config generation.now.seed }
    requires finished { F.unfinished folder.old ≡ false }
    ensures files { OnOk result (MakesFiles (outputs_of (Sampled generation.now)) (F.files folder.old) (F.files folder.new)) }
    ensures finished { OnOk result (F.unfinished folder.new ≡ false) }
    ensures part { OnErr result (MakesPart (outputs_of (Sampled generation.now)) (F.files folder.old) (F.files folder.new)) }
    ensures calls { OnOk result (TakesCalls (outputs_of (Sampled generation.now)) (F.calls folder.old) (F.calls folder.new)) }
    ensures part_calls { OnErr result
        (TakesCallsWithin (outputs_of (Sampled generation.now)) (F.calls folder.old) (F.calls folder.new)) }
    ensures stops { IfErr result (λ outcome. IsTrue (is_of_writing outcome)) }
    ensures fault { IsErrOf result Outcome.WriteFault → Rose (F.faults folder.old) (F.faults folder.new) }
    ensures faults { ¬ IsErrOf result Outcome.WriteFault → F.faults folder.new ≡ F.faults folder.old }
{
    generating::written(alloc, generation, counted, outlines, folder)?;
    put_summary(alloc, generation, counted, outlines, folder)?;
    Ok(())
}

/// Writes the file of the summary, whose constraints are counted.
fn put_summary<F: Folder>(
    alloc: Global,
    generation: &Generation,
    counted: &mut Summary,
    outlines: &Outlines<'_>,
    folder: &mut F,
) -> Result<(), Outcome>
    requires constraints { counted.old ≡ drawn_summary generation.now.config generation.now.seed
        (length generation.now.config.constraints) [] }
    requires kept { outlines.now ≡ queries_of generation.now.config generation.now.seed }
    requires accepted { IsAcceptedFor generation.now.config generation.now.seed }
    requires finished { F.unfinished folder.old ≡ false }
    ensures files { OnOk result (MakesFiles (summary generation.now.config generation.now.seed ∷ [])
        (F.files folder.old) (F.files folder.new)) }
    ensures finished { OnOk result (F.unfinished folder.new ≡ false) }
    ensures part { OnErr result (MakesPart (summary generation.now.config generation.now.seed ∷ [])
        (F.files folder.old) (F.files folder.new)) }
    ensures calls { OnOk result (TakesCalls (summary generation.now.config generation.now.seed ∷ [])
        (F.calls folder.old) (F.calls folder.new)) }
    ensures part_calls { OnErr result (TakesCallsWithin (summary generation.now.config generation.now.seed ∷ [])
        (F.calls folder.old) (F.calls folder.new)) }
    ensures stops { IfErr result (λ outcome. IsTrue (is_of_writing outcome)) }
    ensures fault { IsErrOf result Outcome.WriteFault → Rose (F.faults folder.old) (F.faults folder.new) }
    ensures faults { ¬ IsErrOf result Outcome.WriteFault → F.faults folder.new ≡ F.faults folder.old }
{
    let text = summary_text(alloc, generation, counted, outlines)?;
    put_file(folder, "summary.txt", &text)?;
    Ok(())
}

/// The text of the summary: counts the queries of each class beside the edges of each constraint.
fn summary_text(
    alloc: Global,
    generation: &Generation,
    counted: &mut Summary,
    outlines: &Outlines<'_>,
) -> Result<Vec<u8>, AllocError>
    requires constraints { counted.old ≡ drawn_summary generation.now.config generation.now.seed
        (length generation.now.config.constraints) [] }
    requires kept { outlines.now ≡ queries_of generation.now.config generation.now.seed }
    requires accepted { IsAcceptedFor generation.now.config generation.now.seed }
    ensures { IfOk result (λ text. text.items ≡ summary_text_of (drawn_summary generation.now.config generation.now.seed
        (length generation.now.config.constraints) (queries_of generation.now.config generation.now.seed))) }
{
    count_queries(generation, outlines, counted);
    let mut text = Vec::new(alloc);
    write_summary(alloc, &mut text, counted)?;
    Ok(text)
}

/// Counts the drawn queries of each class.
fn count_queries(generation: &Generation, outlines: &Outlines<'_>, counted: &mut Summary)
    requires rules { IsConfig generation.now.config }
    requires kept { outlines.now ≡ queries_of generation.now.config generation.now.seed }
    requires constraints { counted.old ≡ drawn_summary generation.now.config generation.now.seed
        (length generation.now.config.constraints) [] }
    ensures { counted.new ≡ drawn_summary generation.now.config generation.now.seed
        (length generation.now.config.constraints) (queries_of generation.now.config generation.now.seed) }
{
    for number in 0..generation.query_count() {
        count_class(outlines.at(number).class(), counted);
    }
}

/// Counts a query, for its class.
fn count_class(class: Option<Class>, counted: &mut Summary)
    requires { HasRoom counted.old }
    ensures { counted.new ≡ with_class_of class counted.old }
{
    if let Some(class) = class {
        counted.add_class(class);
    }
}
