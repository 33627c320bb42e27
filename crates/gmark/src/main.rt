//! The program `gmark`: it hands its words, its standard input and the current folder to [`gm_top::run`],
//! prints the line of the outcome and ends with its status.
#![tactic(auto)]

use gm_io::{DirFolder, StdSource};
use gm_top::{Outcome, run};
use std::process::ExitCode;
use std::rt::Env;
use std::{env, io};

fn main(rt: HostRuntime) -> ExitCode {
    let words = match command_words(&rt) {
        Ok(words) => words,
        Err(error) if error.kind() == io::ErrorKind::OutOfMemory => {
            return ExitCode::from(Outcome::NoMemory.status());
        }
        // A word that is no UTF-8 makes a command line of none of the forms.
        Err(_) => Vec::new(rt.alloc()),
    };
    let mut source = StdSource::new(&rt);
    let mut folder = DirFolder::new(&rt);
    let outcome = run(rt.alloc(), &words, &mut source, &mut folder);
    ExitCode::from(shown_status(&rt, outcome))
}
/// The words of the command line, without the program's name.
fn command_words<R: Env + AllocGlobal>(rt: &R) -> io::Result<Vec<String>> {
    let words: Vec<String> = env::args(rt)?.skip(1).collect(rt.alloc())?;
    Ok(words)
}

/// Prints the line of an outcome, and gives the status with which the program ends.
///
/// `Done` goes to standard output, where a failed print is a failed write, and every other outcome to
/// standard error. Where the line finds no memory, nothing is printed.
fn shown_status<R: Print + Eprint + AllocGlobal>(rt: &R, outcome: Outcome) -> u8 {
    let Ok(line) = outcome.line(rt.alloc()) else {
        return outcome.status();
    };
    if outcome != Outcome::Done {
        let _ = eprintln!(rt; "{line}");
        return outcome.status();
    }
    match println!(rt; "{line}") {
        Ok(()) => outcome.status(),
        Err(_) => Outcome::WriteFault.status(),
    }
}
