ghost use Rattle.std.specs.Prelude.{◌≡◌, ◌≢◌, ◌+◌, ◌≤◌, ◌↔◌, true, false, Err, IsTrue, IfErr, OnOk, OnErr, IsErrOf};
ghost use Rattle.gm_io.specs.Count.{raised, Rose};
ghost use Rattle.gm_io.specs.Limit.{input_limit};
ghost use Rattle.gm_top.specs.Command.{texts, AskForNone, CanBeAsked, reads, Reads, input_of};
ghost use Rattle.gm_top.specs.Outcome.{is_after_reading, is_refusal, is_of_bytes};
ghost use Rattle.gm_top.specs.Outcome.{is_decision, is_of_input, is_of_writing};
ghost use Rattle.gm_top.specs.Decision.{Decides};
ghost use Rattle.gm_top.specs.Outputs.{outputs_of, IsAccepted, MakesFiles, MakesPart, TakesCalls, TakesCallsWithin};
ghost use Rattle.gm_top.specs.Run.{IsReadWhole, IsTooLong, IsDecided, AnswersInput};
ghost use Rattle.gm_top.specs.Run.{GainsFiles, GainsPart, GainsPartIfAny, GainsMeaning};
ghost use Rattle.gm_top.specs.Together.{GainsTogether};
ghost use Rattle.gm_top.specs.Run.{CallsForFiles, CallsForPart, CallsForPartIfAny};

use crate::commands::{Command, command_of};
use crate::outcomes::Outcome;
use crate::outlines::Outlines;
use crate::work::Work;
use crate::{generating, sampling, translating};
use gm_io::{Folder, Source, read_all};
use gm_text::Arena;
use std::alloc::Global;
use summary_text::Summary;

/// Runs the program on the words of its command line, a source for its input and a folder for its files.
///
/// `translate` reads a workload text and writes the texts of its queries, `query-0.sparql`, `query-0.sql` and so on.
/// `generate SEED` reads a configuration and writes `graph.txt`, `workload.txt` and the texts of the queries in it.
/// `sample K` reads nothing: it writes the same of the sample of 1,000 times K nodes, and `summary.txt`. All is decided
/// before a file is made. After `WriteFault` and `NoMemory`
/// a file may be unfinished: then a call of `finish` comes before a further run on that folder.
pub fn run<S: Source, F: Folder>(
    alloc: Global,
    words: &[String],
    source: &mut S,
    folder: &mut F,
) -> Outcome
    requires { F.unfinished folder.old ≡ false }

    // The words. Where they ask for no command, and for a sample, nothing is read.
    ensures usage { (result ≡ Outcome.Usage) ↔ AskForNone (texts words.now) }
    ensures reads_nothing { ¬ Reads (texts words.now) → source.new ≡ source.old }

    // Reading. A byte past the limit is given exactly before `InputTooLong`.
    ensures read_fault { result ≡ Outcome.ReadFault → Rose (S.faults source.old) (S.faults source.new) }
    ensures too_long { result ≡ Outcome.InputTooLong
        → raised (S.given source.old) (input_limit + 1) ≤ S.given source.new }
    ensures too_long_told { result ≡ Outcome.InputTooLong → IsTooLong (S.left source.old) }
    ensures within { result ≢ Outcome.InputTooLong → result ≢ Outcome.NoMemory
        → S.given source.new ≤ raised (S.given source.old) input_limit }
    ensures read_whole { IsTrue (is_after_reading result) → Reads (texts words.now)
        → IsReadWhole (S.left source.old) (S.left source.new) }

    // What is refused of the input: `Config`, `BadWorkload`, `NoSuchQuery` and `TooManyStubs`, each by its cause.
    ensures refused { IsTrue (is_of_bytes result) → IsDecided (texts words.now) (S.left source.old) (Err result) }

    // The files. After `Done` they are read back from the folder.
    ensures untouched { IsTrue (is_refusal result) → folder.new ≡ folder.old }
    ensures done { result ≡ Outcome.Done
        → GainsFiles (texts words.now) (S.left source.old) (F.files folder.old) (F.files folder.new) }
    ensures meaning { result ≡ Outcome.Done
        → GainsMeaning (texts words.now) (S.left source.old) (F.files folder.old) (F.files folder.new) }
    ensures together { result ≡ Outcome.Done
        → GainsTogether (texts words.now) (S.left source.old) (F.files folder.old) (F.files folder.new) }
    ensures write_fault { result ≡ Outcome.WriteFault → Rose (F.faults folder.old) (F.faults folder.new) }
    ensures write_fault_part { result ≡ Outcome.WriteFault
        → GainsPart (texts words.now) (S.left source.old) (F.files folder.old) (F.files folder.new) }
    ensures no_memory_part { result ≡ Outcome.NoMemory
        → GainsPartIfAny (texts words.now) (S.left source.old) (F.files folder.old) (F.files folder.new) }
    ensures finished { result ≢ Outcome.WriteFault → result ≢ Outcome.NoMemory → F.unfinished folder.new ≡ false }

    // The calls of the folder: for each file one create, one finish, and one write for each started 65,536 bytes.
    ensures calls { result ≡ Outcome.Done
        → CallsForFiles (texts words.now) (S.left source.old) (F.calls folder.old) (F.calls folder.new) }
    ensures write_fault_calls { result ≡ Outcome.WriteFault
        → CallsForPart (texts words.now) (S.left source.old) (F.calls folder.old) (F.calls folder.new) }
    ensures no_memory_calls { result ≡ Outcome.NoMemory
        → CallsForPartIfAny (texts words.now) (S.left source.old) (F.calls folder.old) (F.calls folder.new) }

    // Only an answer that names a fault follows one.
    ensures source_faults { result ≢ Outcome.ReadFault → S.faults source.new ≡ S.faults source.old }
    ensures folder_faults { result ≢ Outcome.WriteFault → F.faults folder.new ≡ F.faults folder.old }

    // Where memory is there and nothing fails, the words and the bytes decide the answer.
    ensures complete { ¬ Rose (S.faults source.old) (S.faults source.new)
        → ¬ Rose (F.faults folder.old) (F.faults folder.new) → result ≢ Outcome.NoMemory
        → AnswersInput (texts words.now) (S.left source.old) result }
{
    let Some(command) = command_of(words) else {
        return Outcome::Usage;
    };
    let arena = Arena::new(alloc);
    let work = match decided(alloc, command, source, &arena) {
        Ok(work) => work,
        Err(outcome) => return outcome,
    };
    match written(alloc, &work, &arena, folder) {
        Ok(()) => Outcome::Done,
        Err(outcome) => outcome,
    }
}

/// Reads the input of a command and decides what is to be done. It makes no file.
fn decided<'a, S: Source>(
    alloc: Global,
    command: Command,
    source: &mut S,
    arena: &'a Arena,
) -> Result<Work<'a>, Outcome>
    requires asked { CanBeAsked command }
    ensures decision { IsTrue (is_decision result) → Decides command (S.left source.old) result }
    ensures reads_nothing { reads command ≡ false → source.new ≡ source.old }
    ensures of_input { IfErr result (λ outcome. IsTrue (is_of_input outcome)) }
    ensures read_fault { IsErrOf result Outcome.ReadFault → Rose (S.faults source.old) (S.faults source.new) }
    ensures too_long { IsErrOf result Outcome.InputTooLong
        → raised (S.given source.old) (input_limit + 1) ≤ S.given source.new }
    ensures too_long_told { IsErrOf result Outcome.InputTooLong → IsTooLong (input_of command (S.left source.old)) }
    ensures within { ¬ IsErrOf result Outcome.InputTooLong → ¬ IsErrOf result Outcome.NoMemory
        → S.given source.new ≤ raised (S.given source.old) input_limit }
    ensures read_whole { IsTrue (is_decision result) → reads command ≡ true
        → IsReadWhole (S.left source.old) (S.left source.new) }
    ensures faults { ¬ IsErrOf result Outcome.ReadFault → S.faults source.new ≡ S.faults source.old }
{
    match command {
        Command::Translate => translating::decided(alloc, &read_all(alloc, source)?, arena),
        Command::Generate { seed } => generating::decided(alloc, seed, &read_all(alloc, source)?),
        Command::Sample { k } => sampling::decided(alloc, k),
    }
}

/// Writes the files of a work. Edges are counted as they are written, and queries that are drawn are kept in the arena.
fn written<F: Folder>(
    alloc: Global,
    work: &Work<'_>,
    arena: &Arena,
    folder: &mut F,
) -> Result<(), Outcome>
    requires accepted { IsAccepted work.now }
    requires finished { F.unfinished folder.old ≡ false }
    ensures files { OnOk result (MakesFiles (outputs_of work.now) (F.files folder.old) (F.files folder.new)) }
    ensures finished { OnOk result (F.unfinished folder.new ≡ false) }
    ensures part { OnErr result (MakesPart (outputs_of work.now) (F.files folder.old) (F.files folder.new)) }
    ensures calls { OnOk result (TakesCalls (outputs_of work.now) (F.calls folder.old) (F.calls folder.new)) }
    ensures part_calls { OnErr result (TakesCallsWithin (outputs_of work.now) (F.calls folder.old) (F.calls folder.new)) }
    ensures stops { IfErr result (λ outcome. IsTrue (is_of_writing outcome)) }
    ensures fault { IsErrOf result Outcome.WriteFault → Rose (F.faults folder.old) (F.faults folder.new) }
    ensures faults { ¬ IsErrOf result Outcome.WriteFault → F.faults folder.new ≡ F.faults folder.old }
{
    let mut counted = Summary::new(alloc);
    let mut outlines = Outlines::new(alloc, arena);
    match work {
        Work::Queries(work) => translating::written(alloc, work, folder),
        Work::Files(generation) => generating::written(
            alloc,
            generation,
            &mut counted,
            &mut outlines,
            folder,
        ),
        Work::Sampled(generation) => sampling::written(
            alloc,
            generation,
            &mut counted,
            &mut outlines,
            folder,
        ),
    }
}
