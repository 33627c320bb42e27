//! The forms of the command line.

ghost use Rattle.std.specs.Prelude.{◌≡◌, ◌↔◌, IsTrue, MatchOption, string_bytes};
ghost use Rattle.gm_top.specs.Command.{texts, IsCommand, AskForNone};

use gm_text::{Decimal, read_decimal};

/// What the words of a command line ask for.
#[derive(Clone, Copy, Debug, PartialEq, Eq)]
pub enum Command {
    /// `translate`: the texts of the queries of a workload.
    Translate,
    /// `generate SEED`: the graph and the workload of a configuration, and the texts of its queries.
    Generate {
        /// The seed of all draws.
        seed: u64,
    },
    /// `sample K`: the same of the sample of 1,000 times `k` nodes, with the seed `k`, and a summary.
    Sample {
        /// From 1 to 100.
        k: u32,
    },
}

/// The command that the words ask for, if they have one of the forms.
pub(crate) fn command_of(words: &[String]) -> Option<Command>
    ensures { MatchOption result (AskForNone (texts words.now)) (λ command. IsCommand command (texts words.now)) }
{
    match words {
        [word] if is_word(word, "translate") => Some(Command::Translate),
        [word, seed] if is_word(word, "generate") => match read_decimal(seed.as_bytes()) {
            Decimal::Value(seed) => Some(Command::Generate { seed }),
            _ => None,
        },
        [word, number] if is_word(word, "sample") => match read_decimal(number.as_bytes()) {
            Decimal::Value(k) if 1 <= k && k <= 100 => Some(Command::Sample { k: k as u32 }),
            _ => None,
        },
        _ => None,
    }
}

/// Whether a word is this one.
fn is_word(word: &String, text: &str) -> bool
    ensures { IsTrue result ↔ (string_bytes word.now ≡ text.now) }
{
    word.as_str() == text
}
