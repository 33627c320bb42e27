//! States, the moves between them, and goals.

ghost use Rattle.std.specs.Prelude.{◌≡◌, ◌<◌, ◌+◌, ◌*◌, length};
ghost use Rattle.sel_graph.specs.States.{begun, carried_to, place};
ghost use Rattle.sel_graph.specs.Numbers.{move_of};

use crate::places::{op_at, place_of};
use schema_graph::Schema;
use sel_algebra::{Class, Op, compose, normal};

/// How a path has come to a type.
#[derive(Clone, Copy, Debug, PartialEq, Eq)]
pub struct State {
    /// The number of the type at which the path starts.
    pub start: u8,
    /// The number of the type to which it has come.
    pub at: u8,
    /// The operator of the path so far.
    pub op: Op,
}

impl State {
    /// The state at a type where no path is yet.
    pub fn begun(t: u8) -> State
        ensures { result ≡ begun t }
    {
        State {
            start: t,
            at: t,
            op: Op::Equal,
        }
    }

    /// Its place: five times the number of the type to which it has come, and the number of its operator in the order of [`Op`].
    pub(crate) fn place(self) -> u32
        ensures place { result ≡ place self }
        ensures within { result < 5 * self.at + 5 }
    {
        place_of(self.at, self.op)
    }

    /// The state after a further path to a type with an operator.
    pub(crate) fn carried_to(self, schema: &Schema, to: u8, op: Op) -> State
        requires start { self.start < length schema.now.kinds }
        requires to { to < length schema.now.kinds }
        ensures { result ≡ carried_to schema.now self to op }
    {
        State {
            start: self.start,
            at: to,
            op: normal(
                compose(self.op, op),
                schema.kind(self.start),
                schema.kind(to),
            ),
        }
    }
}

/// One step of a path from a type: words with one value, once or any number of times.
#[derive(Clone, Copy, Debug, PartialEq, Eq)]
pub struct Move {
    /// Whether the words may be repeated any number of times. Then they end at the type at which they start.
    pub star: bool,
    /// The number of the type to which the words lead.
    pub to: u8,
    /// The value of each word.
    pub value: Op,
}

impl Move {
    /// The move of one kind, plain or starred, to the type and with the value of a place below 1,280.
    ///
    /// The place of a value at a type is five times the type's number, and the value's number in the order of [`Op`].
    pub fn of_place(star: bool, place: u32) -> Move
        requires { place < 1280 }
        ensures { result ≡ move_of star place }
    {
        Move {
            star,
            to: (place / 5) as u8,
            value: op_at(place % 5),
        }
    }
}

/// What is asked of the last state of a path.
#[derive(Clone, Copy, Debug, PartialEq, Eq)]
pub struct Goal {
    /// The growth class of the state.
    pub class: Class,
    /// The number of moves that shall lead from the start of the state to the type to which it has come; 0 asks nothing.
    pub second: u8,
}
