//! `generate`: from a configuration to its files.

ghost use Rattle.std.specs.Prelude.{◌≡◌, ◌≢◌, [], false, length, Err};
ghost use Rattle.std.specs.Prelude.{IfOk, IfErr, OnOk, OnErr, IsErrOf, IsTrue};
ghost use Rattle.gm_io.specs.Count.{Rose};
ghost use Rattle.summary_text.specs.Summary.{nothing_counted};
ghost use Rattle.summary_text.specs.Counts.{drawn_summary};
ghost use Rattle.gm_top.specs.declared.commands.Command.TheVariants.{Generate};
ghost use Rattle.gm_top.specs.declared.work.Work.TheVariants.{Files};
ghost use Rattle.gm_top.specs.Generation.{IsAcceptedFor};
ghost use Rattle.gm_top.specs.Outcome.{is_of_deciding, is_of_writing};
ghost use Rattle.gm_top.specs.Decision.{IsDecision, IsRefusalOf};
ghost use Rattle.gm_top.specs.Outputs.{outputs_of, MakesFiles, MakesPart, TakesCalls, TakesCallsWithin};
ghost use Rattle.gm_top.specs.Workload.{queries_of};

use crate::generation::Generation;
use crate::graph_file::write_graph;
use crate::outcomes::Outcome;
use crate::outlines::Outlines;
use crate::query_files::write_queries;
use crate::work::Work;
use crate::workload_file::write_workload;
use edge_match::first_over;
use gm_config::read_config;
use gm_files::Pieces;
use gm_io::Folder;
use query_draw::first_missing;
use std::alloc::{AllocError, Global};
use summary_text::Summary;

/// Decides what is to be done with a configuration. It makes no file.
pub(crate) fn decided<'a>(alloc: Global, seed: u64, bytes: &[u8]) -> Result<Work<'a>, Outcome>
    ensures decision { result ≢ Err Outcome.NoMemory → IsDecision (Generate seed) bytes.now result }
    ensures stops { IfErr result (λ outcome. IsTrue (is_of_deciding outcome)) }
{
    let config = read_config(alloc, bytes)?;
    let generation = Generation::new(alloc, config, seed)?;
    match refusal_of(alloc, &generation)? {
        Some(refusal) => Err(refusal),
        None => Ok(Work::Files(generation)),
    }
}

/// How a configuration is refused: for a query that can't be drawn, or else for a side with too many stubs.
fn refusal_of(alloc: Global, generation: &Generation) -> Result<Option<Outcome>, AllocError>
    ensures { IfOk result (IsRefusalOf generation.now) }
{
    let config = generation.config();
    let seed = generation.seed();
    match first_missing(config, generation.reach(), seed) {
        Some(missing) => return Ok(Some(Outcome::from(missing))),
        None => (),
    }
    match first_over(alloc, config, seed)? {
        Some(over) => Ok(Some(Outcome::from(over))),
        None => Ok(None),
    }
}

/// Writes the files of a configuration, counts the edges of each constraint, and keeps the queries.
pub(crate) fn written<F: Folder>(
    alloc: Global,
    generation: &Generation,
    counted: &mut Summary,
    outlines: &mut Outlines<'_>,
    folder: &mut F,
) -> Result<(), Outcome>
    requires nothing { counted.old ≡ nothing_counted }
    requires none { outlines.old ≡ [] }
    requires accepted { IsAcceptedFor generation.now.config generation.now.seed }
    requires finished { F.unfinished folder.old ≡ false }
    ensures files { OnOk result (MakesFiles (outputs_of (Files generation.now)) (F.files folder.old) (F.files folder.new)) }
    ensures counted { OnOk result (counted.new ≡ drawn_summary generation.now.config generation.now.seed
        (length generation.now.config.constraints) []) }
    ensures kept { OnOk result (outlines.new ≡ queries_of generation.now.config generation.now.seed) }
    ensures finished { OnOk result (F.unfinished folder.new ≡ false) }
    ensures part { OnErr result (MakesPart (outputs_of (Files generation.now)) (F.files folder.old) (F.files folder.new)) }
    ensures calls { OnOk result (TakesCalls (outputs_of (Files generation.now)) (F.calls folder.old) (F.calls folder.new)) }
    ensures part_calls { OnErr result
        (TakesCallsWithin (outputs_of (Files generation.now)) (F.calls folder.old) (F.calls folder.new)) }
    ensures stops { IfErr result (λ outcome. IsTrue (is_of_writing outcome)) }
    ensures fault { IsErrOf result Outcome.WriteFault → Rose (F.faults folder.old) (F.faults folder.new) }
    ensures faults { ¬ IsErrOf result Outcome.WriteFault → F.faults folder.new ≡ F.faults folder.old }
{
    let mut pieces = Pieces::new(alloc)?;
    write_graph(
        alloc,
        generation.config(),
        generation.seed(),
        counted,
        &mut pieces,
        folder,
    )?;
    write_workload(alloc, generation, outlines, &mut pieces, folder)?;
    write_queries(alloc, generation, outlines, folder)?;
    Ok(())
}
