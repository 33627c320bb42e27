//! The places of operators at types, and the numbers of goals.

ghost use Rattle.std.specs.Prelude.{◌≡◌, ◌*◌, ◌+◌, ◌<◌, length};
ghost use Rattle.sel_graph.specs.States.{op_number, place_of};
ghost use Rattle.sel_graph.specs.Numbers.{op_at, state_at, class_number, class_at, goal_count, goal_number, goal_at};

use crate::states::{Goal, State};
use sel_algebra::{Class, Op};

/// The operators in their order.
pub(crate) const OPERATORS: [Op; 5] = [Op::Equal, Op::Less, Op::Greater, Op::Diamond, Op::Cross];

/// The classes in their order.
const CLASSES: [Class; 3] = [Class::Constant, Class::Linear, Class::Quadratic];

/// The number of goals: three classes, and second paths of up to four moves.
pub(crate) const GOAL_COUNT: u32 = 15;

/// The number of an operator in their order.
fn op_number(op: Op) -> u32
    ensures value { result ≡ op_number op }
    ensures few { result < 5 }
{
    match op {
        Op::Equal => 0,
        Op::Less => 1,
        Op::Greater => 2,
        Op::Diamond => 3,
        Op::Cross => 4,
    }
}

/// The operator with a number.
pub(crate) fn op_at(n: u32) -> Op
    requires { n < 5 }
    ensures { result ≡ op_at n }
{
    OPERATORS[n as usize]
}

/// The place of an operator at a type.
pub(crate) fn place_of(t: u8, op: Op) -> u32
    ensures value { result ≡ place_of t op }
    ensures within { result < 5 * t + 5 }
{
    5 * t as u32 + op_number(op)
}

/// The state of a path from a type to a place.
pub(crate) fn state_at(start: u8, place: u32) -> State
    requires { place < 1280 }
    ensures { result ≡ state_at start place }
{
    State {
        start,
        at: (place / 5) as u8,
        op: op_at(place % 5),
    }
}

/// The number of a class in their order.
pub(crate) fn class_number(class: Class) -> u32
    ensures { result ≡ class_number class }
{
    match class {
        Class::Constant => 0,
        Class::Linear => 1,
        Class::Quadratic => 2,
    }
}

/// The number of a goal.
pub(crate) fn goal_number(goal: Goal) -> u32
    ensures { result ≡ goal_number goal }
{
    5 * class_number(goal.class) + goal.second as u32
}

/// The goal with a number.
pub(crate) fn goal_at(n: u32) -> Goal
    requires { n < goal_count }
    ensures { result ≡ goal_at n }
{
    Goal {
        class: CLASSES[n as usize / 5],
        second: (n % 5) as u8,
    }
}
