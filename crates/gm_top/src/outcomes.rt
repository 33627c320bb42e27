//! How a run ends: its exit status and the line that is printed.

ghost use Rattle.std.specs.Prelude.{◌≡◌, string_bytes, IfOk};
ghost use Rattle.gm_top.specs.Outcome.{status_of, line_of, broken_line, bad_line, missing_line, stubs_line};
ghost use Rattle.gm_top.specs.Outcome.{class_word, shape_word, side_word};

use edge_match::{MatchError, Side, TooManyStubs};
use gm_config::{ConfigError, ConfigFault};
use gm_files::WriteFault;
use gm_io::{Failed, ReadError};
use query_draw::{DrawError, NoSuchQuery};
use sel_algebra::{Class, Shape};
use std::alloc::{AllocError, Global};
use workload_text::WorkloadError;

/// How a run of the program ends.
#[derive(Clone, Copy, Debug, PartialEq, Eq)]
pub enum Outcome {
    /// All files are written.
    Done,
    /// The words of the command line have none of the forms. Nothing was read.
    Usage,
    /// A read of the input failed.
    ReadFault,
    /// The input has more bytes than are accepted.
    InputTooLong,
    /// The input is no configuration.
    Config(ConfigFault),
    /// The input is no workload text.
    BadWorkload {
        /// The number of the first line that breaks a rule, counted from 1.
        line: u64,
        /// The least rule that it breaks, from 1 to 9.
        rule: u8,
    },
    /// A query can't be drawn: with no permitted number of conjuncts can its shape have its class.
    NoSuchQuery {
        /// The number of the query.
        query: u32,
        /// The shape that was drawn for it.
        shape: Shape,
        /// The class that was drawn for it.
        class: Class,
    },
    /// A side of a constraint has more stubs than a side may have.
    TooManyStubs {
        /// The number of the constraint.
        constraint: u8,
        /// Its side.
        side: Side,
        /// The number of the side's stubs.
        total: u64,
    },
    /// A call of the folder failed.
    WriteFault,
    /// Memory ran out.
    NoMemory,
}

impl Outcome {
    /// The exit status of the program.
    pub fn status(&self) -> u8
        ensures { result ≡ status_of self.now }
    {
        match self {
            Outcome::Done => 0,
            Outcome::Usage => 2,
            Outcome::InputTooLong => 3,
            Outcome::Config(_) => 3,
            Outcome::BadWorkload { .. } => 3,
            Outcome::ReadFault => 4,
            Outcome::WriteFault => 5,
            Outcome::NoMemory => 6,
            Outcome::NoSuchQuery { .. } => 7,
            Outcome::TooManyStubs { .. } => 8,
        }
    }

    /// The line that the program prints, without its line end.
    pub fn line(&self, alloc: Global) -> Result<String, AllocError>
        ensures { IfOk result (λ line. string_bytes line ≡ line_of self.now) }
    {
        match *self {
            Outcome::Done => String::from_str(alloc, "gmark: done"),
            Outcome::Usage => String::from_str(alloc, "gmark: unknown command line"),
            Outcome::InputTooLong => String::from_str(
                alloc,
                "gmark: input longer than 16777216 bytes",
            ),
            Outcome::Config(ConfigFault::NotJson) => String::from_str(
                alloc,
                "gmark: configuration is not JSON",
            ),
            Outcome::Config(ConfigFault::Broken { rule, index }) => {
                broken_line(alloc, rule, index)
            }
            Outcome::BadWorkload { line, rule } => bad_line(alloc, line, rule),
            Outcome::ReadFault => String::from_str(alloc, "gmark: reading failed"),
            Outcome::WriteFault => String::from_str(alloc, "gmark: writing failed"),
            Outcome::NoMemory => String::from_str(alloc, "gmark: out of memory"),
            Outcome::NoSuchQuery {
                query,
                shape,
                class,
            } => missing_line(alloc, query, shape, class),
            Outcome::TooManyStubs {
                constraint,
                side,
                total,
            } => stubs_line(alloc, constraint, side, total),
        }
    }
}

/// The line of a configuration that breaks a rule.
fn broken_line(alloc: Global, rule: u8, index: u32) -> Result<String, AllocError>
    ensures { IfOk result (λ line. string_bytes line ≡ broken_line rule index) }
{
    format!(in alloc; "gmark: configuration breaks rule C{rule} at {index}")
}

/// The line of a workload text that breaks a rule.
fn bad_line(alloc: Global, line: u64, rule: u8) -> Result<String, AllocError>
    ensures { IfOk result (λ text. string_bytes text ≡ bad_line line rule) }
{
    format!(in alloc; "gmark: workload breaks rule F{rule} at line {line}")
}

/// The line of a query that can't be drawn.
fn missing_line(alloc: Global, query: u32, shape: Shape, class: Class) -> Result<String, AllocError>
    ensures { IfOk result (λ line. string_bytes line ≡ missing_line query shape class) }
{
    let shape = shape_word(shape);
    let class = class_word(class);
    format!(in alloc; "gmark: query {query}: no {shape} of class {class}")
}

/// The word that is printed for a shape.
fn shape_word(shape: Shape) -> &'static str
    ensures { result.now ≡ shape_word shape }
{
    match shape {
        Shape::Chain => "chain",
        Shape::Star => "star",
        Shape::Cycle => "cycle",
        Shape::StarChain => "starchain",
    }
}

/// The word that is printed for a class.
fn class_word(class: Class) -> &'static str
    ensures { result.now ≡ class_word class }
{
    match class {
        Class::Constant => "constant",
        Class::Linear => "linear",
        Class::Quadratic => "quadratic",
    }
}

/// The line of a side with too many stubs.
fn stubs_line(alloc: Global, constraint: u8, side: Side, total: u64) -> Result<String, AllocError>
    ensures { IfOk result (λ line. string_bytes line ≡ stubs_line constraint side total) }
{
    let side = side_word(side);
    format!(in alloc; "gmark: constraint {constraint} {side}: {total} stubs")
}

/// The word that is printed for a side.
fn side_word(side: Side) -> &'static str
    ensures { result.now ≡ side_word side }
{
    match side {
        Side::Out => "out",
        Side::In => "in",
    }
}

impl From<AllocError> for Outcome {
    ghost use Rattle.gm_top.specs.declared.outcomes.Outcome.TheVariants.{NoMemory};

    ghost from_gives = { λ _ outcome. outcome ≡ NoMemory };

    fn from(_: AllocError) -> Self {
        Outcome::NoMemory
    }
}

impl From<ReadError> for Outcome {
    ghost use Rattle.gm_top.specs.Outcome.{read_outcome};

    ghost from_gives = { λ error outcome. outcome ≡ read_outcome error };

    fn from(error: ReadError) -> Self {
        match error {
            ReadError::ReadFault => Outcome::ReadFault,
            ReadError::InputTooLong => Outcome::InputTooLong,
            ReadError::NoMemory => Outcome::NoMemory,
        }
    }
}

impl From<ConfigError> for Outcome {
    ghost use Rattle.gm_top.specs.Outcome.{config_outcome};

    ghost from_gives = { λ error outcome. outcome ≡ config_outcome error };

    fn from(error: ConfigError) -> Self {
        match error {
            ConfigError::Fault(fault) => Outcome::Config(fault),
            ConfigError::NoMemory => Outcome::NoMemory,
        }
    }
}

impl From<WorkloadError> for Outcome {
    ghost use Rattle.gm_top.specs.Outcome.{workload_outcome};

    ghost from_gives = { λ error outcome. outcome ≡ workload_outcome error };

    fn from(error: WorkloadError) -> Self {
        match error {
            WorkloadError::BadWorkload { line, rule } => Outcome::BadWorkload { line, rule },
            WorkloadError::NoMemory => Outcome::NoMemory,
        }
    }
}

impl From<NoSuchQuery> for Outcome {
    ghost use Rattle.gm_top.specs.Outcome.{missing_outcome};

    ghost from_gives = { λ missing outcome. outcome ≡ missing_outcome missing };

    fn from(missing: NoSuchQuery) -> Self {
        Outcome::NoSuchQuery {
            query: missing.query,
            shape: missing.shape,
            class: missing.class,
        }
    }
}

impl From<DrawError> for Outcome {
    ghost use Rattle.gm_top.specs.Outcome.{draw_outcome};

    ghost from_gives = { λ error outcome. outcome ≡ draw_outcome error };

    fn from(error: DrawError) -> Self {
        match error {
            DrawError::NoSuchQuery(missing) => Outcome::from(missing),
            DrawError::NoMemory => Outcome::NoMemory,
        }
    }
}

impl From<TooManyStubs> for Outcome {
    ghost use Rattle.gm_top.specs.Outcome.{stubs_outcome};

    ghost from_gives = { λ over outcome. outcome ≡ stubs_outcome over };

    fn from(over: TooManyStubs) -> Self {
        Outcome::TooManyStubs {
            constraint: over.constraint,
            side: over.side,
            total: over.total,
        }
    }
}

impl From<MatchError> for Outcome {
    ghost use Rattle.gm_top.specs.Outcome.{match_outcome};

    ghost from_gives = { λ error outcome. outcome ≡ match_outcome error };

    fn from(error: MatchError) -> Self {
        match error {
            MatchError::TooManyStubs(over) => Outcome::from(over),
            MatchError::NoMemory => Outcome::NoMemory,
        }
    }
}

impl From<WriteFault> for Outcome {
    ghost use Rattle.gm_top.specs.declared.outcomes.Outcome.TheVariants.{WriteFault};

    ghost from_gives = { λ _ outcome. outcome ≡ WriteFault };

    fn from(_: WriteFault) -> Self {
        Outcome::WriteFault
    }
}

impl From<Failed> for Outcome {
    ghost use Rattle.gm_top.specs.declared.outcomes.Outcome.TheVariants.{WriteFault};

    ghost from_gives = { λ _ outcome. outcome ≡ WriteFault };

    fn from(_: Failed) -> Self {
        Outcome::WriteFault
    }
}
