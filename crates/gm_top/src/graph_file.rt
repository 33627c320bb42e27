//! The file of a graph.

ghost use Rattle.std.specs.Prelude.{◌≡◌, ◌<◌, ◌≤◌, ◌+◌, ◌++◌, [], ◌∷◌, true, false, None, All, length};
ghost use Rattle.std.specs.Prelude.{IfErr, OnOk, OnErr, IsErrOf, IsTrue};
ghost use Rattle.gm_io.specs.Count.{raised, Rose, HasCause};
ghost use Rattle.gm_files.specs.Calls.{piece_most, full_count};
ghost use Rattle.graph_text.specs.EdgesText.{IsInRange, edges_text};
ghost use Rattle.gm_config.specs.Config.{IsConfig};
ghost use Rattle.edge_match.specs.Limit.{first_side_over, IsWithinLimit};
ghost use Rattle.summary_text.specs.Summary.{nothing_counted};
ghost use Rattle.summary_text.specs.Counts.{drawn_summary};
ghost use Rattle.gm_top.specs.Outcome.{is_of_writing};
ghost use Rattle.gm_top.specs.Outputs.{graph, MakesFiles, MakesPart, TakesCalls, TakesCallsWithin};
ghost use Rattle.gm_top.specs.Putting.{Puts, PutsPart, CallsToPut, PutsEdges, PutsEdgesPart};

use crate::outcomes::Outcome;
use edge_match::EdgeStream;
use gm_config::Config;
use gm_files::{Pieces, WriteFault};
use gm_io::Folder;
use graph_text::line_of;
use std::alloc::Global;
use summary_text::Summary;

/// Writes the file of the graph of a configuration, and counts the edges of each constraint. Nothing is kept in the
/// pieces before and after it.
pub(crate) fn write_graph<F: Folder>(
    alloc: Global,
    config: &Config,
    seed: u64,
    counted: &mut Summary,
    pieces: &mut Pieces,
    folder: &mut F,
) -> Result<(), Outcome>
    requires within { IsWithinLimit config.now seed }
    requires nothing { counted.old ≡ nothing_counted }
    requires empty { pieces.old ≡ [] }
    requires finished { F.unfinished folder.old ≡ false }
    ensures counted { OnOk result
        (counted.new ≡ drawn_summary config.now seed (length config.now.constraints) []) }
    ensures files { OnOk result (MakesFiles (graph config.now seed ∷ []) (F.files folder.old) (F.files folder.new)) }
    ensures finished { OnOk result (F.unfinished folder.new ≡ false) }
    ensures empty { OnOk result (pieces.new ≡ []) }
    ensures part { OnErr result (MakesPart (graph config.now seed ∷ []) (F.files folder.old) (F.files folder.new)) }
    ensures calls { OnOk result (TakesCalls (graph config.now seed ∷ []) (F.calls folder.old) (F.calls folder.new)) }
    ensures part_calls { OnErr result
        (TakesCallsWithin (graph config.now seed ∷ []) (F.calls folder.old) (F.calls folder.new)) }
    ensures stops { IfErr result (λ outcome. IsTrue (is_of_writing outcome)) }
    ensures fault { IsErrOf result Outcome.WriteFault → Rose (F.faults folder.old) (F.faults folder.new) }
    ensures faults { ¬ IsErrOf result Outcome.WriteFault → F.faults folder.new ≡ F.faults folder.old }
{
    let count = config.constraint_count();
    folder.create("graph.txt")?;
    for c in 0..count {
        put_edges(alloc, config, seed, c, counted, pieces, folder)?;
    }
    pieces.flush(folder)?;
    folder.finish()?;
    Ok(())
}

/// Puts the lines of the edges of a constraint into the last file, and counts them.
fn put_edges<F: Folder>(
    alloc: Global,
    config: &Config,
    seed: u64,
    c: u8,
    counted: &mut Summary,
    pieces: &mut Pieces,
    folder: &mut F,
) -> Result<(), Outcome>
    requires known { c < length config.now.constraints }
    requires config { IsConfig config.now }
    requires within { first_side_over config.now seed c ≡ None }
    requires counted { counted.old ≡ drawn_summary config.now seed c [] }
    requires short { length pieces.old < piece_most }
    requires unfinished { F.unfinished folder.old ≡ true }
    ensures counted { OnOk result (counted.new ≡ drawn_summary config.now seed (c + 1) []) }
    ensures put { OnOk result (PutsEdges config.now seed c (F.files folder.old) (F.files folder.new)
        (F.calls folder.old) (F.calls folder.new) pieces.old pieces.new) }
    ensures part { OnErr result (PutsEdgesPart config.now seed c (F.files folder.old) (F.files folder.new)
        (F.calls folder.old) (F.calls folder.new) pieces.old) }
    ensures unfinished { F.unfinished folder.new ≡ true }
    ensures stops { IfErr result (λ outcome. IsTrue (is_of_writing outcome)) }
    ensures fault { IsErrOf result Outcome.WriteFault → Rose (F.faults folder.old) (F.faults folder.new) }
    ensures faults { ¬ IsErrOf result Outcome.WriteFault → F.faults folder.new ≡ F.faults folder.old }
{
    let edges = EdgeStream::new(alloc, config, seed, c)?;
    counted.add_constraint(alloc, edges.len() as u64)?;
    put_lines(edges, pieces, folder)?;
    Ok(())
}

/// Puts the lines of edges into the last file.
fn put_lines<F: Folder>(
    mut edges: EdgeStream,
    pieces: &mut Pieces,
    folder: &mut F,
) -> Result<(), WriteFault>
    requires in_range { All IsInRange edges }
    requires short { length pieces.old < piece_most }
    requires unfinished { F.unfinished folder.old ≡ true }
    ensures put { OnOk result
        (Puts (F.files folder.old) (F.files folder.new) pieces.old pieces.new (edges_text edges)) }
    ensures part { OnErr result (PutsPart (F.files folder.old) (F.files folder.new) (pieces.old ++ edges_text edges)) }
    ensures calls { OnOk result
        (CallsToPut (F.calls folder.old) (F.calls folder.new) pieces.old pieces.new (edges_text edges)) }
    ensures part_calls { OnErr result
        (F.calls folder.new ≤ raised (F.calls folder.old) (full_count (length pieces.old + length (edges_text edges)))) }
    ensures unfinished { F.unfinished folder.new ≡ true }
    ensures cause { HasCause (F.faults folder.old) (F.faults folder.new) result }
{
    while let Some(edge) = edges.next_edge() {
        pieces.put(folder, line_of(edge).bytes())?;
    }
    Ok(())
}
